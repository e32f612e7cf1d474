// The walk to the pair that follows a key, by rows that it takes on its way.
ghost use Rattle.std.specs.Prelude.{◌≡◌, ◌<◌, ◌-◌, ◌^◌, true, IfErr, IsErrAnd};
ghost use Rattle.row_changes.specs.Ways.{IsWarm};
ghost use Rattle.row_changes.specs.session_state.Holds.{Holds};
ghost use Rattle.row_scans.specs.Meets.{IsButRows, IsCut, IsNoConflict, Meets};

use crate::keys::{MOST, TakenKeys};
use crate::looks::{Looked, look};
use map_model::Refusal;
use row_changes::{Cold, Mode, Rows, Session, WorkerLog, take_row};

/// What a walk met in its leaf.
#[derive(Clone, Copy, Debug, PartialEq, Eq)]
pub enum Met {
    /// The least live pair at or above the key.
    Pair { key: u64, value: u64 },
    /// There is none below this bound, the leaf's high fence, from which the walk goes on.
    Gap { high: u64 },
}

/// Why it met nothing.
#[derive(Clone, Copy)]
pub enum Unmet {
    /// A page of the key's way is not hot, and nothing was done.
    Cold(Cold),
    /// Another session has the row of the entry that it meets next, or a latch is spent.
    Refused(Refusal),
}

/// Walks from the key on in its leaf. Of each entry that it meets, tombstones and the pair, it takes the row, shared, once, whether the session has it
/// already or not; and no other row. The session meets what the rows tell, and the leaf's stamp.
pub fn meet<R: Rows>(
    rows: &mut R,
    seat: &mut R::Seat,
    session: &mut Session,
    log: &WorkerLog,
    key: u64,
) -> Result<Met, Unmet>
    requires fits { R.fits rows.old seat.old }
    requires holds { Holds (R.shape rows.old) (R.view seat.old) session.old log.now }
    requires open_is { session.old.is_open ≡ true }
    requires key { key < 2 ^ 64 - 1 }
    ensures fits { R.fits rows.new seat.new × (R.shape rows.new ≡ R.shape rows.old) }
    ensures holds { Holds (R.shape rows.new) (R.view seat.new) session.new log.now }
    ensures session { IsButRows session.old session.new }
    ensures meets { Meets result session.old.own (R.view seat.old) (R.view seat.new) key (session.new ≡ session.old) }
    // One session alone meets no other.
    ensures only { session.old.workers ≡ 1 → IfErr result IsNoConflict }

    ensures cause_cold { IsWarm (R.view seat.old) key → IsErrAnd result IsCut → ⊥ }
{
    let mut taken = TakenKeys::new();
    for _turn in 0..MOST + 1 {
        match look(rows, seat, session, log, key, &taken) {
            Looked::Met(met) => return Ok(met),
            Looked::Cold(page) => return Err(Unmet::Cold(Cold { page })),
            Looked::Untaken(at) => {
                if let Err(why) = take_row(rows, seat, session, log, at, Mode::Shared) {
                    return Err(Unmet::Refused(why));
                }
                taken.push(at);
            }
        }
    }
    // A leaf has no further entry.
    unreachable!()
}
