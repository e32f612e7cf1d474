// Whether an epoch is ripe.
ghost use Rattle.std.specs.Prelude.{◌≡◌, true};
ghost use Rattle.epochs.specs.Epochs.{Ripens, Unwaited, IsStamp, IsJudge, IsDeserted, HasTicked};
ghost use Rattle.lean_proto.specs.Controls.{IsTick};
ghost use Rattle.epochs.specs.declared.judging.Ripeness.TheVariants.{Yes};

use crate::events::Ticks;
use lean_proto::{Nothing, Rows, every_epoch, every_stood};

/// The epoch of a worker that is outside.
const OUTSIDE: u64 = 1 << 63;

/// Whether each worker that is inside entered at a later epoch. If not, one that is inside, 1 to their number, and the
/// epoch with which it entered.
#[derive(Clone, Copy)]
pub enum Ripeness {
    Yes,
    Held { worker: u32, epoch: u64 },
}

/// The global epoch.
pub fn stamp<R: Rows>(rows: &mut R, seat: &mut R::Seat) -> u64
    requires fits { R.fits rows.old seat.old }
    ensures fits { R.fits rows.new seat.new × (R.shape rows.new ≡ R.shape rows.old) }
    ensures answer { IsStamp (R.shape rows.old) (R.view seat.old) result (R.view seat.new) }
{
    every_epoch();
    rows.load_control(seat, 0, 0, &Nothing)
}

/// The global epoch goes on by one.
pub fn tick<R: Rows>(rows: &mut R, seat: &mut R::Seat)
    requires fits { R.fits rows.old seat.old }
    requires tick { IsTick (R.shape rows.old) (R.view seat.old) }
    ensures fits { R.fits rows.new seat.new × (R.shape rows.new ≡ R.shape rows.old) }
    ensures after { HasTicked (R.shape rows.old) (R.view seat.old) (R.view seat.new) }
{
    every_epoch();
    rows.tick(seat, &Ticks);
}

/// Whether a page that cools since an epoch, or an earlier one, waits for no worker: whoever was inside when it began
/// to cool has left since. The pager's seat asks, or the only one.
pub fn ripe<R: Rows>(rows: &mut R, seat: &mut R::Seat, workers: u32, epoch: u64) -> Ripeness
    requires fits { R.fits rows.old seat.old }
    requires workers { workers ≡ (R.shape rows.old).sizes.workers }
    requires judge { IsJudge (R.shape rows.old) (R.view seat.old) }
    ensures fits { R.fits rows.new seat.new × (R.shape rows.new ≡ R.shape rows.old) }
    ensures after { Ripens (R.shape rows.old) (R.view seat.old) workers epoch result (R.view seat.new) }

    // Where nobody else steps and nobody is inside, as over plain rows, whose workers enter no epoch, it is always Yes.
    ensures quiet { (R.shape rows.old).alone ≡ true → IsDeserted (R.view seat.old) → result ≡ Yes }
{
    every_epoch();
    every_stood();
    for worker in 0..workers {
        let local = rows.load_control(seat, worker + 1, 2, &Nothing);
        if local != OUTSIDE && local <= epoch {
            return Ripeness::Held {
                worker: worker + 1,
                epoch: local,
            };
        }
    }
    Ripeness::Yes
}
