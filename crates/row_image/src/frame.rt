//! A frame row is looked at, and latched as it was seen.
ghost use Rattle.std.specs.Prelude.{◌≡◌, ◌<◌, true, [], Some, IfOk, IfErr};
ghost use Rattle.btree_descent.specs.row_words.Openings.{opening};
ghost use Rattle.btree_descent.specs.rows_trait.Views.{latest, may};
ghost use Rattle.btree_descent.specs.Known.{IsSound};
ghost use Rattle.btree_descent.specs.Descents.{Sized};
ghost use Rattle.row_image.specs.Images.{IsMissed};
ghost use Rattle.row_image.specs.Looks.{Watched};
ghost use Rattle.row_image.specs.Sights.{IsKnown, HasSeen, HasTaken, IsUnheld, IsSpent};

use crate::look::{again, begin};
use crate::page::load;
use crate::refusal::Unseen;
use crate::sight::Sight;
use btree_descent::{BtreeNodeNode as Node, Checks, Hold, MARK, Rows, Unheld};

/// The page that stands hot in frame row `row`. The first `frames` rows are frames; `actor` is whose miss a refusal is. No row is latched.
///
/// None: no hot page stands there. Ok appends nothing, and what is seen is so at the last check. Moved and Latched append a miss and say
/// which numbers of the row's latch were loaded: try again. Where nobody else steps and no row is held these two never come.
pub fn sight<R: Rows>(
    rows: &mut R,
    seat: &mut R::Seat,
    actor: u32,
    frames: u32,
    row: u32,
) -> Result<Option<Sight>, Unseen>
    requires fits { R.fits rows.old seat.old }
    requires sized { Sized (R.shape rows.old) (R.view seat.old) frames }
    requires row { row < frames }
    requires actor { may (R.shape rows.old).alone (R.view seat.old) actor ≡ true }
    requires sound { IsSound (R.view seat.old).given }
    ensures fits { R.fits rows.new seat.new × (R.shape rows.new ≡ R.shape rows.old) × ((R.view seat.new).held ≡ (R.view seat.old).held) }
    ensures answer { IfOk result (λ seen. HasSeen (R.shape rows.old).alone row (R.view seat.old) seen (R.view seat.new)) }
    ensures kept { IfOk result (λ _. Watched (R.shape rows.old).alone (R.view seat.old) (R.view seat.new)) }
    ensures cause { IfErr result (λ why. IsMissed (R.shape rows.old).alone actor (R.view seat.old) why (R.view seat.new)) }
    ensures quiet { IfErr result (λ _. (R.shape rows.old).alone ≡ true → (R.view seat.old).held ≡ [] → ⊥) }
{
    let glimpse = match begin(rows, seat, actor, row) {
        Err(why) => return Err(why),
        Ok(found) => found,
    };
    let hint = glimpse.word(rows, seat, 126);
    if hint == MARK {
        return match again(rows, seat, actor, &glimpse) {
            Ok(()) => Ok(None),
            Err(why) => Err(why),
        };
    }
    let mut words = [0; 126];
    load(rows, seat, &glimpse, &mut words);
    match again(rows, seat, actor, &glimpse) {
        Err(why) => Err(why),
        Ok(()) => {
            let Some(node) = Node::from_words(words) else {
                unreachable!()
            };
            Ok(Some(Sight {
                glimpse,
                hint,
                node,
            }))
        }
    }
}

/// Latches the row of a sight if it has its version still: then the page stands there as it was seen. Err holds no further row. Moved
/// appends a miss: look again. Where nobody else steps it never comes after the last look at the row.
pub fn take<R: Rows>(
    rows: &mut R,
    seat: &mut R::Seat,
    actor: u32,
    sight: &Sight,
) -> Result<Hold, Unheld>
    requires fits { R.fits rows.old seat.old }
    requires frame { (sight.now.glimpse.row < (R.shape rows.old).sizes.frames) × (sight.now.glimpse.row < (opening (R.view seat.old).given).frames) }
    requires actor { may (R.shape rows.old).alone (R.view seat.old) actor ≡ true }
    requires sound { IsSound (R.view seat.old).given }
    requires known { IsKnown sight.now (R.view seat.old).steps }
    ensures fits { R.fits rows.new seat.new × (R.shape rows.new ≡ R.shape rows.old) }
    ensures answer { IfOk result (λ hold. (hold.row ≡ sight.now.glimpse.row) × HasTaken (R.shape rows.old) sight.now (R.view seat.old) (R.view seat.new)) }
    ensures cause { IfErr result (λ why. IsUnheld (R.shape rows.old).alone actor sight.now (R.view seat.old) why (R.view seat.new)) }
    ensures quiet { IfErr result (λ why. (R.shape rows.old).alone ≡ true → latest sight.now.glimpse.row (R.view seat.old).steps ≡ Some sight.now.glimpse.version → IsSpent why) }
{
    let checks = Checks {
        worker: actor,
        version: sight.glimpse.version,
    };
    sight.glimpse.upgrade(rows, seat, &checks)
}
