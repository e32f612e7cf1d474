// Rows are latched as they were seen.
ghost use Rattle.std.specs.Prelude.{◌≡◌, ◌≢◌, ◌<◌, true, [], IfOk, IfErr};
ghost use Rattle.btree_descent.specs.row_words.Moments.{pager};
ghost use Rattle.btree_descent.specs.row_words.Openings.{opening};
ghost use Rattle.btree_descent.specs.rows_trait.Views.{held_at, may};
ghost use Rattle.btree_descent.specs.Known.{IsSound};
ghost use Rattle.row_image.specs.Sights.{HasTaken, HasWords};
ghost use Rattle.page_provider.specs.Finds.{IsSeen, SinceBoth, SinceFound, Stopped, TakesSeen, TakesTwo, TakesWith};

use crate::laws::laws;
use crate::looking::PAGER;
use crate::refusal::Refusal;
use btree_descent::{Hold, Rows, Unheld};
use held_rows::{Refusal as Unlatched, latch};
use row_image::frame;
use row_image::sight::Sight;

// Latches the row of a sight, where none is held.
pub(crate) fn take_seen<R: Rows>(
    rows: &mut R,
    seat: &mut R::Seat,
    seen: &Sight,
) -> Result<Hold, Refusal>
    requires fits { R.fits rows.old seat.old }
    requires actor { may (R.shape rows.old).alone (R.view seat.old) pager ≡ true }
    requires held { (R.view seat.old).held ≡ [] }
    requires sound { IsSound (R.view seat.old).given }
    requires seen { IsSeen (R.shape rows.old) seen.now (R.view seat.old) }
    ensures fits { R.fits rows.new seat.new × (R.shape rows.new ≡ R.shape rows.old) }
    ensures ok { IfOk result (λ hold. (hold.row ≡ seen.now.glimpse.row) × TakesSeen (R.shape rows.old) seen.now (R.view seat.old) (R.view seat.new)) }
    ensures taken { IfOk result (λ _. HasTaken (R.shape rows.old) seen.now (R.view seat.old) (R.view seat.new)) }
    ensures err { IfErr result (λ why. Stopped 1 (R.shape rows.old) (R.view seat.old) why (R.view seat.new)) }
    ensures cause { IfErr result (λ why. SinceFound seen.now (R.view seat.old) why (R.view seat.new)) }
{
    laws();
    match frame::take(rows, seat, PAGER, seen) {
        Ok(hold) => Ok(hold),
        Err(Unheld::Moved(moved)) => Err(Refusal::Moved(moved)),
        Err(Unheld::RowSpent) => Err(Refusal::RowSpent {
            row: seen.glimpse.row,
        }),
    }
}

// Latches the rows of two sights, one after the other, where none is held.
pub(crate) fn take_two<R: Rows>(
    rows: &mut R,
    seat: &mut R::Seat,
    first: &Sight,
    second: &Sight,
) -> Result<(Hold, Hold), Refusal>
    requires fits { R.fits rows.old seat.old }
    requires actor { may (R.shape rows.old).alone (R.view seat.old) pager ≡ true }
    requires held { (R.view seat.old).held ≡ [] }
    requires sound { IsSound (R.view seat.old).given }
    requires first { IsSeen (R.shape rows.old) first.now (R.view seat.old) }
    requires second { IsSeen (R.shape rows.old) second.now (R.view seat.old) }
    requires apart { first.now.glimpse.row ≢ second.now.glimpse.row }
    ensures fits { R.fits rows.new seat.new × (R.shape rows.new ≡ R.shape rows.old) }
    ensures ok { IfOk result (λ holds. (holds.0.row ≡ first.now.glimpse.row) × (holds.1.row ≡ second.now.glimpse.row) × TakesTwo (R.shape rows.old) first.now second.now (R.view seat.old) (R.view seat.new)) }
    ensures words { IfOk result (λ _. HasWords second.now (held_at (R.view seat.new).held second.now.glimpse.row).was) }
    ensures err { IfErr result (λ why. Stopped 2 (R.shape rows.old) (R.view seat.old) why (R.view seat.new)) }
    ensures cause { IfErr result (λ why. SinceBoth first.now second.now (R.view seat.old) why (R.view seat.new)) }
{
    laws();
    let held = take_seen(rows, seat, first)?;
    match frame::take(rows, seat, PAGER, second) {
        Ok(hold) => Ok((held, hold)),
        Err(why) => {
            held.release(rows, seat);
            match why {
                Unheld::Moved(moved) => Err(Refusal::Moved(moved)),
                Unheld::RowSpent => Err(Refusal::RowSpent {
                    row: second.glimpse.row,
                }),
            }
        }
    }
}

// Latches the row of a sight, and then another frame row, where none is held.
pub(crate) fn take_with<R: Rows>(
    rows: &mut R,
    seat: &mut R::Seat,
    first: &Sight,
    row: u32,
) -> Result<(Hold, Hold), Refusal>
    requires fits { R.fits rows.old seat.old }
    requires actor { may (R.shape rows.old).alone (R.view seat.old) pager ≡ true }
    requires held { (R.view seat.old).held ≡ [] }
    requires sound { IsSound (R.view seat.old).given }
    requires first { IsSeen (R.shape rows.old) first.now (R.view seat.old) }
    requires frame { (row < (R.shape rows.old).sizes.frames) × (row < (opening (R.view seat.old).given).frames) }
    requires apart { first.now.glimpse.row ≢ row }
    ensures fits { R.fits rows.new seat.new × (R.shape rows.new ≡ R.shape rows.old) }
    ensures ok { IfOk result (λ holds. (holds.0.row ≡ first.now.glimpse.row) × (holds.1.row ≡ row) × TakesWith (R.shape rows.old) first.now row (R.view seat.old) (R.view seat.new)) }
    ensures err { IfErr result (λ why. Stopped 2 (R.shape rows.old) (R.view seat.old) why (R.view seat.new)) }
    ensures cause { IfErr result (λ why. SinceFound first.now (R.view seat.old) why (R.view seat.new)) }
{
    laws();
    let held = take_seen(rows, seat, first)?;
    match latch(rows, seat, PAGER, row) {
        Ok(hold) => Ok((held, hold)),
        Err(why) => {
            held.release(rows, seat);
            match why {
                Unlatched::Moved(moved) => Err(Refusal::Moved(moved)),
                Unlatched::Latched(latched) => Err(Refusal::Latched(latched)),
                Unlatched::RowSpent { row } => Err(Refusal::RowSpent { row }),
            }
        }
    }
}
