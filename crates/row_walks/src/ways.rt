// The way to a key's leaf.
ghost use Rattle.std.specs.Prelude.{◌≡◌, ◌<◌, ◌-◌, ◌^◌, [], IsErr, IfErr, IfOk};
ghost use Rattle.row_changes.specs.session_state.Holds.{Holds};
ghost use Rattle.row_changes.specs.Ways.{HasMetCold, IsWarm};
ghost use Rattle.row_walks.specs.Inside.Ways.{Reaches};

use row_changes::{Cold, Path, Rows, Session, Way, WorkerLog, reach};

// Goes to the key's leaf. The path has the frames of its way then. Nothing is read.
pub(crate) fn reach_leaf<R: Rows>(
    rows: &mut R,
    seat: &mut R::Seat,
    session: &Session,
    log: &WorkerLog,
    key: u64,
    path: &mut Path,
) -> Result<(), Cold>
    requires fits { R.fits rows.old seat.old }
    requires holds { Holds (R.shape rows.old) (R.view seat.old) session.now log.now }
    requires key { key < 2 ^ 64 - 1 }
    requires path { path.old ≡ [] }
    ensures fits { R.fits rows.new seat.new × (R.shape rows.new ≡ R.shape rows.old) }
    ensures holds { Holds (R.shape rows.new) (R.view seat.new) session.now log.now }
    ensures reaches { IfOk result (λ _. Reaches (R.view seat.old) (R.view seat.new) session.now.frames key path.new) }
    ensures cold { IfErr result (λ cold. HasMetCold key cold.page (R.view seat.old) (R.view seat.new)) }

    ensures cause_cold { IsWarm (R.view seat.old) key → IsErr result → ⊥ }
{
    match reach(rows, seat, session.own, session.frames, key, path) {
        Way::Leaf { row: _ } => Ok(()),
        Way::Cold(page) => Err(Cold { page }),
        // Nobody else steps.
        Way::Moved(_) => unreachable!(),
        Way::Latched(_) => unreachable!(),
    }
}
