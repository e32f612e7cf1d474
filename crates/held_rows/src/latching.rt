// A row is latched.
ghost use Rattle.std.specs.Prelude.{◌≡◌, ◌≢◌, ◌<◌, ◌∷◌, [], true, false, IfOk, IfErr};
ghost use Rattle.rows_trait.specs.Layout.{rows_of};
ghost use Rattle.rows_trait.specs.Views.{holds, may};
ghost use Rattle.held_rows.specs.Steps.{MissedUpTo};
ghost use Rattle.held_rows.specs.Latching.{Took, Refused, Caused, IsUndisturbed, IsFrameRow, TookTwo, TookThree, CausedAt};

use crate::releasing::{give_up_one, give_up_two};
use lean_proto::{Checks, Glimpse, Hold, Latched, Misses, Moved, Unheld};
use rows_trait::rows::Rows;

/// Why a row was not latched.
#[derive(Clone, Copy)]
pub enum Refusal {
    /// The row had another version at the second look than at the first.
    Moved(Moved),
    /// The row was held by another seat.
    Latched(Latched),
    /// The version of the row has come to the last one.
    RowSpent { row: u32 },
}

/// Latches a row from the version that it has, for `worker`. Who is refused has appended a miss of the worker at most, and holds what
/// it held.
pub fn latch<R: Rows>(
    rows: &mut R,
    seat: &mut R::Seat,
    worker: u32,
    row: u32,
) -> Result<Hold, Refusal>
    requires fits { R.fits rows.old seat.old }
    requires row { row < rows_of (R.shape rows.old).sizes }
    requires actor { may (R.shape rows.old).alone (R.view seat.old) worker ≡ true }
    ensures fits { R.fits rows.new seat.new × (R.shape rows.new ≡ R.shape rows.old) }
    ensures ok { IfOk result (λ h. (h.row ≡ row) × Took (R.shape rows.old) row (R.view seat.old) (R.view seat.new)) }
    ensures err { IfErr result (λ _. Refused (R.shape rows.old).alone (R.view seat.old) (R.view seat.new)) }

    ensures cause { IfErr result (λ why. Caused row (R.view seat.old) why (R.view seat.new)) }
    ensures quiet { IfErr result (λ why. (R.shape rows.old).alone ≡ true → holds (R.view seat.old).held row ≡ false → IsUndisturbed why) }
{
    let glimpse = match Glimpse::start(rows, seat, row, &Misses { worker }) {
        Err(latched) => return Err(Refusal::Latched(latched)),
        Ok(glimpse) => glimpse,
    };
    let checks = Checks {
        worker,
        version: glimpse.version,
    };
    match glimpse.upgrade(rows, seat, &checks) {
        Ok(hold) => Ok(hold),
        Err(Unheld::Moved(moved)) => Err(Refusal::Moved(moved)),
        Err(Unheld::RowSpent) => Err(Refusal::RowSpent { row }),
    }
}

/// Latches two frame rows, one after the other, where none is held. Who is refused holds none.
pub fn latch_two<R: Rows>(
    rows: &mut R,
    seat: &mut R::Seat,
    worker: u32,
    a: u32,
    b: u32,
) -> Result<(Hold, Hold), Refusal>
    requires fits { R.fits rows.old seat.old }
    requires actor { may (R.shape rows.old).alone (R.view seat.old) worker ≡ true }
    requires held { (R.view seat.old).held ≡ [] }
    requires frames { IsFrameRow (R.shape rows.old) (R.view seat.old) a × IsFrameRow (R.shape rows.old) (R.view seat.old) b }
    ensures fits { R.fits rows.new seat.new × (R.shape rows.new ≡ R.shape rows.old) }
    ensures ok { IfOk result (λ h. (h.0.row ≡ a) × (h.1.row ≡ b) × TookTwo (R.shape rows.old) a b (R.view seat.old) (R.view seat.new)) }
    ensures err { IfErr result (λ _. MissedUpTo 2 (R.shape rows.old).alone (R.view seat.old) (R.view seat.new) × ((R.view seat.new).held ≡ [])) }

    ensures cause { IfErr result (λ why. CausedAt (a ∷ b ∷ []) (R.view seat.old) why (R.view seat.new)) }
    ensures quiet { IfErr result (λ why. (R.shape rows.old).alone ≡ true → a ≢ b → IsUndisturbed why) }
{
    let first = match latch(rows, seat, worker, a) {
        Ok(hold) => hold,
        Err(why) => return Err(why),
    };
    match latch(rows, seat, worker, b) {
        Ok(second) => Ok((first, second)),
        Err(why) => {
            give_up_one(rows, seat, first);
            Err(why)
        }
    }
}

/// Latches three frame rows, one after the other, where none is held. Who is refused holds none.
pub fn latch_three<R: Rows>(
    rows: &mut R,
    seat: &mut R::Seat,
    worker: u32,
    a: u32,
    b: u32,
    d: u32,
) -> Result<(Hold, Hold, Hold), Refusal>
    requires fits { R.fits rows.old seat.old }
    requires actor { may (R.shape rows.old).alone (R.view seat.old) worker ≡ true }
    requires held { (R.view seat.old).held ≡ [] }
    requires frames { IsFrameRow (R.shape rows.old) (R.view seat.old) a × IsFrameRow (R.shape rows.old) (R.view seat.old) b × IsFrameRow (R.shape rows.old) (R.view seat.old) d }
    ensures fits { R.fits rows.new seat.new × (R.shape rows.new ≡ R.shape rows.old) }
    ensures ok { IfOk result (λ h. (h.0.row ≡ a) × (h.1.row ≡ b) × (h.2.row ≡ d) × TookThree (R.shape rows.old) a b d (R.view seat.old) (R.view seat.new)) }
    ensures err { IfErr result (λ _. MissedUpTo 3 (R.shape rows.old).alone (R.view seat.old) (R.view seat.new) × ((R.view seat.new).held ≡ [])) }

    ensures cause { IfErr result (λ why. CausedAt (a ∷ b ∷ d ∷ []) (R.view seat.old) why (R.view seat.new)) }
    ensures quiet { IfErr result (λ why. (R.shape rows.old).alone ≡ true → a ≢ b → a ≢ d → b ≢ d → IsUndisturbed why) }
{
    let (first, second) = match latch_two(rows, seat, worker, a, b) {
        Ok(holds) => holds,
        Err(why) => return Err(why),
    };
    match latch(rows, seat, worker, d) {
        Ok(third) => Ok((first, second, third)),
        Err(why) => {
            give_up_two(rows, seat, first, second);
            Err(why)
        }
    }
}
