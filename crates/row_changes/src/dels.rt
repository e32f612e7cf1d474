// The deleting of a key behind its lock.
ghost use Rattle.std.specs.Prelude.{◌≡◌, ◌<◌, ◌-◌, ◌^◌, Err, IfErr, IfOk, IsErr, IsErrAnd, true};
ghost use Rattle.session_state.specs.engine_trait.Serving.{disk_fault};
ghost use Rattle.lean_disk.specs.Faults.{HasCause};
ghost use Rattle.session_state.specs.Holds.{Holds, IsSameSession};
ghost use Rattle.row_changes.specs.Dels.{Dels};
ghost use Rattle.row_changes.specs.Puts.{MayWrite, works_behind};
ghost use Rattle.row_changes.specs.Spots.{HasSpot, IsSpotFor};
ghost use Rattle.row_changes.specs.Ways.{HasMetCold, IsCut, IsWarm};
ghost use Rattle.row_changes.specs.declared.ways.Unmade.{Unmade};

use crate::ways::{Cold, Unmade};
use map_model::Refusal;
use session_state::{
    Del, Path, Rows, Session, Spot, Stages, Stop, Unanswered, Unserved, Unstaged, Work, WorkerLog,
    del_at, locate, next_fits,
};

/// The spot of a key in its leaf, to which a del goes; or the page of its way that is not hot. Nothing is read.
pub fn find_spot<R: Rows>(
    rows: &mut R,
    seat: &mut R::Seat,
    session: &Session,
    log: &WorkerLog,
    key: u64,
) -> Result<Spot, Cold>
    requires fits { R.fits rows.old seat.old }
    requires holds { Holds (R.shape rows.old) (R.view seat.old) session.now log.now }
    requires key { key < 2 ^ 64 - 1 }
    ensures fits { R.fits rows.new seat.new × (R.shape rows.new ≡ R.shape rows.old) }
    ensures holds { Holds (R.shape rows.new) (R.view seat.new) session.now log.now }
    ensures spot { IfOk result (λ spot. IsSpotFor (R.shape rows.old) (R.view seat.old) (R.view seat.new) session.now key spot) }
    ensures cold { IfErr result (λ cold. HasMetCold key cold.page (R.view seat.old) (R.view seat.new)) }

    ensures cause_cold { IsWarm (R.view seat.old) key → IsErr result → ⊥ }
{
    let mut path = Path::new();
    match locate(rows, seat, session.own, session.frames, key, &mut path) {
        Ok(spot) => Ok(spot),
        Err(Stop::Cold(page)) => Err(Cold { page }),
        // Nobody else steps.
        Err(Stop::Moved(_)) => unreachable!(),
        Err(Stop::Latched(_)) => unreachable!(),
    }
}

/// The value of the key, whose row is held, is taken away at its spot, if it has one.
pub fn del_at_spot<R: Rows, D: Stages>(
    rows: &mut R,
    seat: &mut R::Seat,
    work: &mut Work<D>,
    key: u64,
    spot: &Spot,
) -> Result<Option<u64>, Unmade>
    requires fits { R.fits rows.old seat.old }
    requires holds { Holds (R.shape rows.old) (R.view seat.old) work.old.session work.old.log }
    requires may { MayWrite 0 (R.view seat.old) work.old.session work.old.log key }
    requires spot { HasSpot (R.shape rows.old) (R.view seat.old) work.old.session key spot.now }
    ensures fits { R.fits rows.new seat.new × (R.shape rows.new ≡ R.shape rows.old) }
    ensures holds { work.new.session.works ≡ true → Holds (R.shape rows.new) (R.view seat.new) work.new.session work.new.log }
    ensures session { IsSameSession work.old.session work.new.session }
    ensures is_half_aborted { work.new.session.works ≡ true → work.new.session.is_half_aborted ≡ work.old.session.is_half_aborted }
    ensures dels { Dels result work.old.session.own (R.view seat.old) (R.view seat.new) key work.old.log work.new.log (D.story work.old.disk) (D.story work.new.disk) (work.new ≡ work.old) (work.new.disk ≡ work.old.disk) }
    ensures works { work.new.session.works ≡ works_behind result }

    ensures cause_cold { IsWarm (R.view seat.old) key → IsErrAnd result IsCut → ⊥ }
    ensures cause_disk_fault { HasCause (D.faults work.old.disk) (D.faults work.new.disk) (result ≡ Err (Unmade.Unserved disk_fault)) }
{
    session_state::every_room();
    session_state::every_low();
    next_fits(rows, seat);
    let frames = work.session.frames;
    match del_at(rows, seat, spot, work.session.own, frames, key, work) {
        Del::Done(was) => {
            work.session.undo.push(key, was);
            Ok(Some(was))
        }
        Del::Absent => Ok(None),
        Del::RowSpent { row: _ } => {
            rows.versions(seat);
            Err(Unmade::Unserved(Unserved::Refused(Refusal::RowSpent)))
        }
        Del::Unstaged(Unstaged::DiskFault) => {
            work.session.works = false;
            Err(Unmade::Unserved(Unserved::Unanswered(Unanswered::DiskFault)))
        }
        Del::Cold(page) => Err(Unmade::Cold(Cold { page })),
        // The log has a block, no number is above the clock, and nobody else steps.
        Del::Unstaged(Unstaged::LogFull { .. }) => unreachable!(),
        Del::ClockSpent => unreachable!(),
        Del::Moved(_) => unreachable!(),
        Del::Latched(_) => unreachable!(),
    }
}

/// The value of the key, whose row is held, is taken away, if it has one.
pub fn del_held<R: Rows, D: Stages>(
    rows: &mut R,
    seat: &mut R::Seat,
    work: &mut Work<D>,
    key: u64,
) -> Result<Option<u64>, Unmade>
    requires fits { R.fits rows.old seat.old }
    requires holds { Holds (R.shape rows.old) (R.view seat.old) work.old.session work.old.log }
    requires may { MayWrite 0 (R.view seat.old) work.old.session work.old.log key }
    ensures fits { R.fits rows.new seat.new × (R.shape rows.new ≡ R.shape rows.old) }
    ensures holds { work.new.session.works ≡ true → Holds (R.shape rows.new) (R.view seat.new) work.new.session work.new.log }
    ensures session { IsSameSession work.old.session work.new.session }
    ensures is_half_aborted { work.new.session.works ≡ true → work.new.session.is_half_aborted ≡ work.old.session.is_half_aborted }
    ensures dels { Dels result work.old.session.own (R.view seat.old) (R.view seat.new) key work.old.log work.new.log (D.story work.old.disk) (D.story work.new.disk) (work.new ≡ work.old) (work.new.disk ≡ work.old.disk) }
    ensures works { work.new.session.works ≡ works_behind result }

    ensures cause_cold { IsWarm (R.view seat.old) key → IsErrAnd result IsCut → ⊥ }
    ensures cause_disk_fault { HasCause (D.faults work.old.disk) (D.faults work.new.disk) (result ≡ Err (Unmade.Unserved disk_fault)) }
{
    match find_spot(rows, seat, &work.session, &work.log, key) {
        Ok(spot) => del_at_spot(rows, seat, work, key, &spot),
        Err(cold) => Err(Unmade::Cold(cold)),
    }
}
