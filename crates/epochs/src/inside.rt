// A worker enters and leaves.
ghost use Rattle.std.specs.Prelude.{◌≡◌, ◌<◌, ◌≤◌, ◌+◌, ◌^◌};
ghost use Rattle.epochs.specs.Epochs.{IsInside, IsOutside, HasEntered, HasLeft};

use crate::events::{Enters, Leaves};
use lean_proto::{Nothing, Rows, every_epoch};

/// The epoch of a worker that is outside.
const OUTSIDE: u64 = 1 << 63;

// The epoch with which a worker enters that has loaded this one.
fn local_of(loaded: u64) -> u64
    ensures old { result ≤ loaded }
    ensures small { result < 2 ^ 63 }
    ensures same { loaded < 2 ^ 63 → result ≡ loaded }
    ensures last { 2 ^ 63 ≤ loaded → result + 1 ≡ 2 ^ 63 }
{
    if loaded < OUTSIDE {
        return loaded;
    }
    OUTSIDE - 1
}

/// A worker that is outside enters, with the global epoch that it loads. (One that has come to 2^63 would read as
/// outside, so the last one below it is taken: an earlier epoch only makes pages wait longer.)
pub fn enter<R: Rows>(rows: &mut R, seat: &mut R::Seat, worker: u32)
    requires fits { R.fits rows.old seat.old }
    requires place { worker ≤ (R.shape rows.old).sizes.workers }
    requires outside { IsOutside (R.shape rows.old) (R.view seat.old) worker }
    ensures fits { R.fits rows.new seat.new × (R.shape rows.new ≡ R.shape rows.old) }
    ensures after { HasEntered (R.shape rows.old) (R.view seat.old) worker (R.view seat.new) }
{
    every_epoch();
    let loaded = rows.load_control(seat, 0, 0, &Nothing);
    let epoch = local_of(loaded);
    rows.store_control(seat, worker, 2, epoch, &Enters { worker, epoch });
}

/// A worker that is inside leaves.
pub fn leave<R: Rows>(rows: &mut R, seat: &mut R::Seat, worker: u32)
    requires fits { R.fits rows.old seat.old }
    requires place { worker ≤ (R.shape rows.old).sizes.workers }
    requires inside { IsInside (R.shape rows.old) (R.view seat.old) worker }
    ensures fits { R.fits rows.new seat.new × (R.shape rows.new ≡ R.shape rows.old) }
    ensures after { HasLeft (R.shape rows.old) (R.view seat.old) worker (R.view seat.new) }
{
    every_epoch();
    rows.store_control(seat, worker, 2, OUTSIDE, &Leaves { worker });
}
