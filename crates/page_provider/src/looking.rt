// What the pager looks at in a frame, without a latch.
ghost use Rattle.std.specs.Prelude.{◌≡◌, ◌<◌, ℕ, true, [], IfOk, IfErr};
ghost use Rattle.btree_descent.specs.btree_node.Words.{words_of};
ghost use Rattle.lean_bytes.specs.Numbers.{AreWords};
ghost use Rattle.btree_descent.specs.row_words.Moments.{pager};
ghost use Rattle.btree_descent.specs.rows_trait.Layout.{rows_of, width};
ghost use Rattle.btree_descent.specs.rows_trait.Views.{may};
ghost use Rattle.btree_descent.specs.Descents.{Sized};
ghost use Rattle.btree_descent.specs.Known.{IsSound};
ghost use Rattle.row_image.specs.Images.{IsImage, StaysIn};
ghost use Rattle.page_provider.specs.Inside.{Judges, Missed, Numbers};
ghost use Rattle.page_provider.specs.Refusals.{IsOthers};

use crate::refusal::Refusal;
use btree_descent::{BtreeNodeNode as Node, Checks, Glimpse, Misses, Rows};
use row_image::page::image;
use row_image::refusal::Unseen;

/// The pager among the actors of rows.
pub(crate) const PAGER: u32 = 17;

// Whether the page in the frame is dirty: its number is above that of its saved contents.
pub(crate) fn is_dirty<R: Rows>(
    rows: &mut R,
    seat: &mut R::Seat,
    frames: u32,
    frame: u32,
) -> Result<bool, Refusal>
    requires fits { R.fits rows.old seat.old }
    requires sized { Sized (R.shape rows.old) (R.view seat.old) frames }
    requires frame { frame < frames }
    requires actor { may (R.shape rows.old).alone (R.view seat.old) pager ≡ true }
    ensures fits { R.fits rows.new seat.new × (R.shape rows.new ≡ R.shape rows.old) × ((R.view seat.new).held ≡ (R.view seat.old).held) }
    ensures ok { IfOk result (λ dirty. Judges (R.shape rows.old) (R.view seat.old) frame dirty (R.view seat.new)) }
    ensures err { IfErr result (λ why. Missed (R.shape rows.old) (R.view seat.old) why (R.view seat.new)) }
    ensures kind { IfErr result IsOthers }
{
    let glimpse = match Glimpse::start(rows, seat, frame, &Misses { worker: PAGER }) {
        Err(latched) => return Err(Refusal::Latched(latched)),
        Ok(found) => found,
    };
    let number = glimpse.word(rows, seat, 1);
    let saved = glimpse.word(rows, seat, 127);
    let checks = Checks {
        worker: PAGER,
        version: glimpse.version,
    };
    match glimpse.check(rows, seat, &checks) {
        Ok(()) => Ok(saved < number),
        Err(moved) => Err(Refusal::Moved(moved)),
    }
}

// The number of the page in the frame.
pub(crate) fn number<R: Rows>(
    rows: &mut R,
    seat: &mut R::Seat,
    frames: u32,
    frame: u32,
) -> Result<u64, Refusal>
    requires fits { R.fits rows.old seat.old }
    requires sized { Sized (R.shape rows.old) (R.view seat.old) frames }
    requires frame { frame < frames }
    requires actor { may (R.shape rows.old).alone (R.view seat.old) pager ≡ true }
    ensures fits { R.fits rows.new seat.new × (R.shape rows.new ≡ R.shape rows.old) × ((R.view seat.new).held ≡ (R.view seat.old).held) }
    ensures ok { IfOk result (λ number. Numbers (R.shape rows.old) (R.view seat.old) frame number (R.view seat.new)) }
    ensures err { IfErr result (λ why. Missed (R.shape rows.old) (R.view seat.old) why (R.view seat.new)) }
{
    let glimpse = match Glimpse::start(rows, seat, frame, &Misses { worker: PAGER }) {
        Err(latched) => return Err(Refusal::Latched(latched)),
        Ok(found) => found,
    };
    let number = glimpse.word(rows, seat, 1);
    let checks = Checks {
        worker: PAGER,
        version: glimpse.version,
    };
    match glimpse.check(rows, seat, &checks) {
        Ok(()) => Ok(number),
        Err(moved) => Err(Refusal::Moved(moved)),
    }
}

// Each of the numbers is a word.
fn words_fit(words: &[u64; 126])
    ensures { AreWords words.now }
{
    let _words = words.as_slice();
}

// The page that stands in the frame, as it is written by this generation.
pub(crate) fn page_in<R: Rows>(
    rows: &mut R,
    seat: &mut R::Seat,
    frames: u32,
    frame: u32,
    generation: u64,
) -> Result<Node, Refusal>
    requires fits { R.fits rows.old seat.old }
    requires sized { Sized (R.shape rows.old) (R.view seat.old) frames }
    requires frame { frame < frames }
    requires actor { may (R.shape rows.old).alone (R.view seat.old) pager ≡ true }
    requires sound { IsSound (R.view seat.old).given }
    requires stays { (p : ℕ) × StaysIn (R.shape rows.old).alone (R.view seat.old) frame p }
    ensures fits { R.fits rows.new seat.new × (R.shape rows.new ≡ R.shape rows.old) × ((R.view seat.new).held ≡ (R.view seat.old).held) }
    ensures ok { IfOk result (λ node. IsImage (R.shape rows.old).alone (R.view seat.old) frame generation node (R.view seat.new)) }
    ensures words { IfOk result (λ node. AreWords (words_of node)) }
    ensures err { IfErr result (λ why. Missed (R.shape rows.old) (R.view seat.old) why (R.view seat.new)) }
    ensures kind { IfErr result IsOthers }
{
    match image(rows, seat, PAGER, frames, frame, generation) {
        Ok(node) => {
            words_fit(node.words());
            Ok(node)
        }
        Err(Unseen::Moved(moved)) => Err(Refusal::Moved(moved)),
        Err(Unseen::Latched(latched)) => Err(Refusal::Latched(latched)),
    }
}
