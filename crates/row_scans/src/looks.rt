// The look at a leaf from a key on.
ghost use Rattle.std.specs.Prelude.{◌≡◌, ◌<◌, ◌-◌, ◌^◌, true};
ghost use Rattle.row_changes.specs.session_state.Holds.{Holds};
ghost use Rattle.row_changes.specs.session_state.Staging.{IsButClock};
ghost use Rattle.row_scans.specs.Inside.{AreFirst, AreHeld, Looks};

use crate::keys::TakenKeys;
use crate::meets::Met;
use row_changes::{Following, Rows, Session, WorkerLog, next};

// What a look finds.
#[derive(Clone, Copy)]
pub(crate) enum Looked {
    Met(Met),
    // The first entry on the way whose row was not taken.
    Untaken(u64),
    // The page of the way that is not hot.
    Cold(u64),
}

// Walks to the next pair, or to the leaf's end, unless the row of an entry on the way was not taken. The session meets the leaf's stamp.
pub(crate) fn look<R: Rows>(
    rows: &mut R,
    seat: &mut R::Seat,
    session: &mut Session,
    log: &WorkerLog,
    key: u64,
    taken: &TakenKeys,
) -> Looked
    requires fits { R.fits rows.old seat.old }
    requires holds { Holds (R.shape rows.old) (R.view seat.old) session.old log.now }
    requires open_is { session.old.is_open ≡ true }
    requires key { key < 2 ^ 64 - 1 }
    requires held { AreHeld session.old taken.now }
    requires first { AreFirst (R.view seat.old) key taken.now }
    ensures fits { R.fits rows.new seat.new × (R.shape rows.new ≡ R.shape rows.old) }
    ensures holds { Holds (R.shape rows.new) (R.view seat.new) session.new log.now }
    ensures session { IsButClock session.old session.new }
    ensures looks { Looks result session.old.own (R.view seat.old) (R.view seat.new) key taken.now (session.new ≡ session.old) }
{
    row_changes::every_warm();
    page_model::every_tree();
    match next(rows, seat, session.own, session.frames, key, taken) {
        Following::Pair {
            key: at,
            value,
            stamp,
        } => {
            session.clock.touch(session.own, stamp.number, stamp.log);
            Looked::Met(Met::Pair { key: at, value })
        }
        Following::Gap { high, stamp } => {
            session.clock.touch(session.own, stamp.number, stamp.log);
            Looked::Met(Met::Gap { high })
        }
        Following::Unlocked { key: at } => Looked::Untaken(at),
        Following::Cold(page) => Looked::Cold(page),
        // Nobody else steps.
        Following::Moved(_) => unreachable!(),
        Following::Latched(_) => unreachable!(),
    }
}
