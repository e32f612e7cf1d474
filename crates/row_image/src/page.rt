//! The page that stands in a row, as it is written.
ghost use Rattle.std.specs.Prelude.{◌≡◌, ◌<◌, ℕ, true, [], IfOk, IfErr};
ghost use Rattle.btree_descent.specs.rows_trait.Layout.{rows_of, width};
ghost use Rattle.btree_descent.specs.rows_trait.Views.{Has, may};
ghost use Rattle.btree_descent.specs.Known.{IsSound};
ghost use Rattle.btree_descent.specs.Descents.{Sized};
ghost use Rattle.row_image.specs.Images.{StaysIn, IsImage, IsMissed};
ghost use Rattle.row_image.specs.Looks.{Watched, AreKnown};
ghost use Rattle.row_image.specs.Inside.{IsLoaded};

use crate::children::name_children;
use crate::look::{again, begin};
use crate::refusal::Unseen;
use btree_descent::{BtreeNodeNode as Node, Glimpse, Rows};

// Loads the words of the page.
pub(crate) fn load<R: Rows>(
    rows: &mut R,
    seat: &mut R::Seat,
    glimpse: &Glimpse,
    into: &mut [u64; 126],
)
    requires fits { R.fits rows.old seat.old }
    requires row { (glimpse.now.row < rows_of (R.shape rows.old).sizes) × (width (R.shape rows.old).sizes glimpse.now.row ≡ 128) }
    requires seen { Has glimpse.now.row glimpse.now.version (R.view seat.old).steps }
    ensures fits { R.fits rows.new seat.new × (R.shape rows.new ≡ R.shape rows.old) }
    ensures watched { Watched (R.shape rows.old).alone (R.view seat.old) (R.view seat.new) }
    ensures words { AreKnown glimpse.now.row glimpse.now.version 126 into.new (R.view seat.new).steps }
{
    for i in 0..126u32 {
        into[i as usize] = glimpse.word(rows, seat, i);
    }
}

// Loads the words of the page as they are written. After an Err they may be any.
fn load_written<R: Rows>(
    rows: &mut R,
    seat: &mut R::Seat,
    actor: u32,
    frames: u32,
    row: u32,
    generation: u64,
    into: &mut [u64; 126],
) -> Result<(), Unseen>
    requires fits { R.fits rows.old seat.old }
    requires sized { Sized (R.shape rows.old) (R.view seat.old) frames }
    requires row { row < frames }
    requires actor { may (R.shape rows.old).alone (R.view seat.old) actor ≡ true }
    requires sound { IsSound (R.view seat.old).given }
    ensures fits { R.fits rows.new seat.new × (R.shape rows.new ≡ R.shape rows.old) × ((R.view seat.new).held ≡ (R.view seat.old).held) }
    ensures answer { IfOk result (λ _. IsLoaded (R.shape rows.old).alone (R.view seat.old) row generation into.new (R.view seat.new)) }
    ensures cause { IfErr result (λ why. IsMissed (R.shape rows.old).alone actor (R.view seat.old) why (R.view seat.new)) }
    ensures quiet { IfErr result (λ _. (R.shape rows.old).alone ≡ true → (R.view seat.old).held ≡ [] → ⊥) }
{
    let glimpse = match begin(rows, seat, actor, row) {
        Err(why) => return Err(why),
        Ok(found) => found,
    };
    load(rows, seat, &glimpse, into);
    name_children(rows, seat, actor, frames, into)?;
    into[2] = generation;
    again(rows, seat, actor, &glimpse)
}

/// The page that stands in frame row `row`, as it is written: with the numbers of its children where the row has swips, and with
/// `generation`, the one that saves it. The first `frames` rows are frames; `actor` is whose miss a refusal is. No row is latched.
///
/// Ok appends nothing, and the page is as it stands in the row at the last check. Moved and Latched append a miss and say which row,
/// and which numbers of its latch were loaded: try again. Where nobody else steps and no row is held these two never come.
pub fn image<R: Rows>(
    rows: &mut R,
    seat: &mut R::Seat,
    actor: u32,
    frames: u32,
    row: u32,
    generation: u64,
) -> Result<Node, Unseen>
    requires fits { R.fits rows.old seat.old }
    requires sized { Sized (R.shape rows.old) (R.view seat.old) frames }
    requires row { row < frames }
    requires actor { may (R.shape rows.old).alone (R.view seat.old) actor ≡ true }
    requires sound { IsSound (R.view seat.old).given }
    requires stays { (p : ℕ) × StaysIn (R.shape rows.old).alone (R.view seat.old) row p }
    ensures fits { R.fits rows.new seat.new × (R.shape rows.new ≡ R.shape rows.old) × ((R.view seat.new).held ≡ (R.view seat.old).held) }
    ensures answer { IfOk result (λ image. IsImage (R.shape rows.old).alone (R.view seat.old) row generation image (R.view seat.new)) }
    ensures cause { IfErr result (λ why. IsMissed (R.shape rows.old).alone actor (R.view seat.old) why (R.view seat.new)) }
    ensures quiet { IfErr result (λ _. (R.shape rows.old).alone ≡ true → (R.view seat.old).held ≡ [] → ⊥) }
{
    let mut words = [0; 126];
    load_written(rows, seat, actor, frames, row, generation, &mut words)?;
    let Some(node) = Node::from_words(words) else {
        unreachable!()
    };
    Ok(node)
}
