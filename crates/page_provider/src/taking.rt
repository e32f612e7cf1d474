// The row of a frame is latched, for the pager.
ghost use Rattle.std.specs.Prelude.{◌≡◌, ◌<◌, true, [], IfOk, IfErr};
ghost use Rattle.btree_descent.specs.row_words.Moments.{pager};
ghost use Rattle.btree_descent.specs.rows_trait.Views.{may};
ghost use Rattle.btree_descent.specs.Descents.{Sized};
ghost use Rattle.held_rows.specs.Rows.{HoldsOne};
ghost use Rattle.held_rows.specs.Steps.{MissedUpTo};
ghost use Rattle.page_provider.specs.Inside.{Missed, Takes};
ghost use Rattle.page_provider.specs.Refusals.{SpentAt};

use crate::looking::PAGER;
use crate::refusal::Refusal;
use btree_descent::{Hold, Rows};
use held_rows::{Refusal as Unlatched, give_up_one, latch};

// Latches the row of a frame from the version that it has, where no row is held.
pub(crate) fn take<R: Rows>(
    rows: &mut R,
    seat: &mut R::Seat,
    frames: u32,
    frame: u32,
) -> Result<Hold, Refusal>
    requires fits { R.fits rows.old seat.old }
    requires sized { Sized (R.shape rows.old) (R.view seat.old) frames }
    requires frame { frame < frames }
    requires actor { may (R.shape rows.old).alone (R.view seat.old) pager ≡ true }
    requires held { (R.view seat.old).held ≡ [] }
    ensures fits { R.fits rows.new seat.new × (R.shape rows.new ≡ R.shape rows.old) }
    ensures ok { IfOk result (λ hold. (hold.row ≡ frame) × Takes (R.shape rows.old) (R.view seat.old) frame (R.view seat.new)) }
    ensures err { IfErr result (λ why. Missed (R.shape rows.old) (R.view seat.old) why (R.view seat.new)) }
    ensures spent { IfErr result (λ why. SpentAt frame (R.view seat.old) why (R.view seat.new)) }
{
    match latch(rows, seat, PAGER, frame) {
        Ok(hold) => Ok(hold),
        Err(Unlatched::Moved(moved)) => Err(Refusal::Moved(moved)),
        Err(Unlatched::Latched(latched)) => Err(Refusal::Latched(latched)),
        Err(Unlatched::RowSpent { row }) => Err(Refusal::RowSpent { row }),
    }
}

// Gives up the only row that is held, as it stood.
pub(crate) fn give_up<R: Rows>(rows: &mut R, seat: &mut R::Seat, hold: Hold)
    requires fits { R.fits rows.old seat.old }
    requires one { HoldsOne (R.shape rows.old) (R.view seat.old) hold.row }
    ensures fits { R.fits rows.new seat.new × (R.shape rows.new ≡ R.shape rows.old) × ((R.view seat.new).held ≡ []) }
    ensures missed { MissedUpTo 1 (R.shape rows.old).alone (R.view seat.old) (R.view seat.new) }
{
    give_up_one(rows, seat, hold);
}
