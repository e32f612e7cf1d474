// The reading of a key behind its lock.
ghost use Rattle.std.specs.Prelude.{◌≡◌, ◌<◌, ◌-◌, ◌^◌, ◌%◌, IsErr, true};
ghost use Rattle.session_state.specs.core_state.Needs.{holds_row};
ghost use Rattle.session_state.specs.rows_trait.Views.{state};
ghost use Rattle.session_state.specs.btree_descent.Known.{said};
ghost use Rattle.session_state.specs.Holds.{Holds};
ghost use Rattle.session_state.specs.Staging.{IsButClock};
ghost use Rattle.row_changes.specs.Reads.{Reads};
ghost use Rattle.row_changes.specs.Ways.{IsWarm};

use crate::ways::Cold;
use session_state::{Answer, Rows, Session, TOMBSTONE, WorkerLog, find};

// What a word tells: a tombstone is no value.
pub(crate) fn value_of(word: Option<u64>) -> Option<u64>
    ensures { result ≡ said word }
{
    match word {
        Some(value) if value < TOMBSTONE => Some(value),
        _ => None,
    }
}

/// Reads the key, whose row is held, in its leaf, whose stamp the session meets.
#[inline(always)]
pub fn read_held<R: Rows>(
    rows: &mut R,
    seat: &mut R::Seat,
    session: &mut Session,
    log: &WorkerLog,
    key: u64,
) -> Result<Option<u64>, Cold>
    requires fits { R.fits rows.old seat.old }
    requires holds { Holds (R.shape rows.old) (R.view seat.old) session.old log.now }
    requires open_is { session.old.is_open ≡ true }
    requires row { holds_row ((state (R.view seat.old)).core.row (key % session.old.held.count)) session.old.own ≡ true }
    requires key { key < 2 ^ 64 - 1 }
    ensures fits { R.fits rows.new seat.new × (R.shape rows.new ≡ R.shape rows.old) }
    ensures holds { Holds (R.shape rows.new) (R.view seat.new) session.new log.now }
    ensures session { IsButClock session.old session.new }
    ensures reads { Reads result session.old.own (R.view seat.old) (R.view seat.new) key (session.new ≡ session.old) }

    ensures cause_cold { IsWarm (R.view seat.old) key → IsErr result → ⊥ }
{
    match find(rows, seat, session.own, session.frames, key) {
        Answer::Found(found) => {
            session.clock.touch(session.own, found.number, found.log);
            Ok(value_of(found.word))
        }
        Answer::Cold(page) => Err(Cold { page }),
        // Nobody else steps.
        Answer::Moved(_) => unreachable!(),
        Answer::Latched(_) => unreachable!(),
    }
}
