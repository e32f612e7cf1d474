// A lock row is latched where nobody has its lock and its last end is flushed.
ghost use Rattle.std.specs.Prelude.{◌≡◌, ◌<◌, ◌≤◌, ◌+◌, true, false};
ghost use Rattle.btree_descent.specs.rows_trait.Layout.{rows_of, width};
ghost use Rattle.key_locks.specs.Rows as lock_rows;
ghost use Rattle.btree_smo.specs.Inside.Quiet.{Quietly, AreQuiet};

use btree_descent::{Glimpse, Hold, Nothing, Rows, Unheld};

// Whether a lock row was latched.
#[derive(Clone, Copy)]
pub(crate) enum Quiet {
    Taken,
    // Somebody has the lock, or its last end is above the number; or another seat was at the row.
    Busy,
    // The version of the row has come to the last one.
    Spent,
}

// Whether the words say that nobody has the lock, and that its last end is at most this number.
fn are_quiet(readers: u64, holder: u64, number: u64, floor: u64) -> bool
    ensures yes { result ≡ true → AreQuiet readers holder number floor }
    ensures no { result ≡ false → AreQuiet readers holder number floor → ⊥ }
{
    readers == 0 && holder == 0 && number <= floor
}

// Latches the lock row at `place` behind the frames, where nobody has its lock and its last end is at most `floor`. Nothing is appended: a
// row that is not to be had is passed over.
pub(crate) fn latch_quiet<R: Rows>(
    rows: &mut R,
    seat: &mut R::Seat,
    worker: u32,
    frames: u32,
    locks: u32,
    place: u32,
    floor: u64,
) -> Quiet
    requires fits { R.fits rows.old seat.old }
    requires sized { lock_rows.Sized (R.shape rows.old) (R.view seat.old) worker frames locks }
    requires sound { lock_rows.IsSound (R.view seat.old).given }
    requires place { place < locks }
    ensures fits { R.fits rows.new seat.new × (R.shape rows.new ≡ R.shape rows.old) }
    ensures quietly { Quietly (R.shape rows.old) frames place floor (R.view seat.old) result (R.view seat.new) }
{
    let Ok(glimpse) = Glimpse::start(rows, seat, frames + place, &Nothing) else {
        return Quiet::Busy;
    };
    let readers = glimpse.word(rows, seat, 0);
    let holder = glimpse.word(rows, seat, 1);
    let number = glimpse.word(rows, seat, 2);
    if !are_quiet(readers, holder, number, floor) {
        return match glimpse.check(rows, seat, &Nothing) {
            // The words count.
            Ok(()) => Quiet::Busy,
            // Another seat was at the row.
            Err(_) => Quiet::Busy,
        };
    }
    match glimpse.upgrade(rows, seat, &Nothing) {
        Ok(hold) => {
            let Hold { row: _ } = hold;
            Quiet::Taken
        }
        Err(Unheld::Moved(_)) => Quiet::Busy,
        Err(Unheld::RowSpent) => Quiet::Spent,
    }
}
