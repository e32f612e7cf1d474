// How far all logs are flushed.
ghost use Rattle.std.specs.Prelude.{◌≡◌, ◌<◌, ◌^◌};
ghost use Rattle.btree_smo.specs.Purges.{IsFloor};
ghost use Rattle.row_ends.specs.Flushed.{Looked};
ghost use Rattle.row_changes.specs.session_state.Holds.{Holds};

use row_changes::{Rows, Session, WorkerLog};
use row_ends::least_flushed;

// The least number up to which each log is flushed. Words are loaded, and no more.
pub(crate) fn floor_of<R: Rows>(
    rows: &mut R,
    seat: &mut R::Seat,
    session: &Session,
    log: &WorkerLog,
) -> u64
    requires fits { R.fits rows.old seat.old }
    requires holds { Holds (R.shape rows.old) (R.view seat.old) session.now log.now }
    requires small { session.now.clock.clock < 2 ^ 62 }
    ensures fits { R.fits rows.new seat.new × (R.shape rows.new ≡ R.shape rows.old) }
    ensures holds { Holds (R.shape rows.new) (R.view seat.new) session.now log.now }
    ensures looked { Looked (R.view seat.old) (R.view seat.new) }
    ensures floor { IsFloor (R.shape rows.new) (R.view seat.new) result }
{
    log.last();
    least_flushed(rows, seat, session.workers)
}
