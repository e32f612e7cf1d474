//! The words of an inner node's pairs: where they name frames they become the numbers of the pages that stand there.
ghost use Rattle.std.specs.Prelude.{◌≡◌, ◌<◌, ◌≤◌, ◌-◌, ◌^◌, true, IfOk, IfErr};
ghost use Rattle.btree_descent.specs.rows_trait.Layout.{rows_of, width};
ghost use Rattle.btree_descent.specs.row_words.Sealed.{Shown};
ghost use Rattle.btree_descent.specs.rows_trait.Views.{may, state};
ghost use Rattle.btree_descent.specs.Descents.{Sized};
ghost use Rattle.row_image.specs.Looks.{Watched};
ghost use Rattle.row_image.specs.Inside.{IsNamed, AreNamed, HasChildren, Refused, IsRowOf, IsRowIn, IsChildRow};

use crate::look::{again, begin};
use crate::refusal::Unseen;
use btree_descent::{Rows, row_of};
use page_model::limits::FRAME_BIT;

// The number of the page that stands in a row.
fn number<R: Rows>(rows: &mut R, seat: &mut R::Seat, actor: u32, row: u32) -> Result<u64, Unseen>
    requires fits { R.fits rows.old seat.old }
    requires row { (row < rows_of (R.shape rows.old).sizes) × (width (R.shape rows.old).sizes row ≡ 128) }
    requires actor { may (R.shape rows.old).alone (R.view seat.old) actor ≡ true }
    ensures fits { R.fits rows.new seat.new × (R.shape rows.new ≡ R.shape rows.old) × ((R.view seat.new).held ≡ (R.view seat.old).held) }
    ensures ok { IfOk result (λ n. Watched (R.shape rows.old).alone (R.view seat.old) (R.view seat.new) × Shown (R.view seat.new).given (state (R.view seat.new)) row 0 n) }
    ensures err { IfErr result (λ why. Refused (R.shape rows.old).alone actor (λ q. q ≡ row) (R.view seat.old) why (R.view seat.new)) }
{
    let glimpse = match begin(rows, seat, actor, row) {
        Err(why) => return Err(why),
        Ok(found) => found,
    };
    let number = glimpse.word(rows, seat, 0);
    match again(rows, seat, actor, &glimpse) {
        Ok(()) => Ok(number),
        Err(why) => Err(why),
    }
}

// The word of a pair as it is written.
fn named<R: Rows>(
    rows: &mut R,
    seat: &mut R::Seat,
    actor: u32,
    frames: u32,
    word: u64,
) -> Result<u64, Unseen>
    requires fits { R.fits rows.old seat.old }
    requires sized { Sized (R.shape rows.old) (R.view seat.old) frames }
    requires actor { may (R.shape rows.old).alone (R.view seat.old) actor ≡ true }
    ensures fits { R.fits rows.new seat.new × (R.shape rows.new ≡ R.shape rows.old) × ((R.view seat.new).held ≡ (R.view seat.old).held) }
    ensures ok { IfOk result (λ n. Watched (R.shape rows.old).alone (R.view seat.old) (R.view seat.new) × IsNamed (R.shape rows.old).alone frames (R.view seat.old) word n (R.view seat.new)) }
    ensures err { IfErr result (λ why. Refused (R.shape rows.old).alone actor (IsRowOf frames word) (R.view seat.old) why (R.view seat.new)) }
{
    if word < FRAME_BIT {
        return Ok(word);
    }
    number(rows, seat, actor, row_of(word, frames))
}

// The words of all pairs as they are written. Behind the last pair stand zeros.
fn name_pairs<R: Rows>(
    rows: &mut R,
    seat: &mut R::Seat,
    actor: u32,
    frames: u32,
    words: &mut [u64; 126],
) -> Result<(), Unseen>
    requires fits { R.fits rows.old seat.old }
    requires sized { Sized (R.shape rows.old) (R.view seat.old) frames }
    requires actor { may (R.shape rows.old).alone (R.view seat.old) actor ≡ true }
    ensures fits { R.fits rows.new seat.new × (R.shape rows.new ≡ R.shape rows.old) × ((R.view seat.new).held ≡ (R.view seat.old).held) }
    ensures ok { IfOk result (λ _. Watched (R.shape rows.old).alone (R.view seat.old) (R.view seat.new) × AreNamed (R.shape rows.old).alone frames 60 (R.view seat.old) words.old words.new (R.view seat.new)) }
    ensures err { IfErr result (λ why. Refused (R.shape rows.old).alone actor (IsRowIn frames words.old) (R.view seat.old) why (R.view seat.new)) }
{
    for i in 0..60usize {
        words[7 + 2 * i] = named(rows, seat, actor, frames, words[7 + 2 * i])?;
    }
    Ok(())
}

/// The words of a page as they are written: those of a leaf name no pages. No row is latched.
pub fn name_children<R: Rows>(
    rows: &mut R,
    seat: &mut R::Seat,
    actor: u32,
    frames: u32,
    words: &mut [u64; 126],
) -> Result<(), Unseen>
    requires fits { R.fits rows.old seat.old }
    requires sized { Sized (R.shape rows.old) (R.view seat.old) frames }
    requires actor { may (R.shape rows.old).alone (R.view seat.old) actor ≡ true }
    ensures fits { R.fits rows.new seat.new × (R.shape rows.new ≡ R.shape rows.old) × ((R.view seat.new).held ≡ (R.view seat.old).held) }
    ensures ok { IfOk result (λ _. Watched (R.shape rows.old).alone (R.view seat.old) (R.view seat.new) × HasChildren (R.shape rows.old).alone frames (R.view seat.old) words.old words.new (R.view seat.new)) }
    ensures err { IfErr result (λ why. Refused (R.shape rows.old).alone actor (IsChildRow frames words.old) (R.view seat.old) why (R.view seat.new)) }
{
    if words[3] / 256 % 256 == 0 {
        return Ok(());
    }
    name_pairs(rows, seat, actor, frames, words)
}
