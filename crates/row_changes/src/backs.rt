// A change that an abort puts back.
ghost use Rattle.std.specs.Prelude.{◌≡◌, ◌<◌, ◌-◌, ◌^◌, Err, IsErrAnd, Some, true, length};
ghost use Rattle.lean_disk.specs.Faults.{HasCause};
ghost use Rattle.session_state.specs.engine_trait.Serving.{disk_fault};
ghost use Rattle.row_changes.specs.Backs.{IsWarmBack, StepsBack};
ghost use Rattle.session_state.specs.Holds.{Holds, IsSameSession};
ghost use Rattle.row_changes.specs.Puts.{works_behind};
ghost use Rattle.row_changes.specs.Ways.{IsCut, IsLost};
ghost use Rattle.row_changes.specs.declared.ways.Unmade.{Unmade};
ghost use Rattle.session_state.specs.Undo.{newest_of};

use crate::ways::{Cold, Unmade};
use map_model::Refusal;
use session_state::{
    Path, Put, Rows, Session, Stages, Unanswered, Undone, Unserved, Unstaged, Work, leaf_put_back,
    next_fits,
};

// The newest change that is left.
fn newest_left(session: &Session) -> Undone
    requires left { 0 < length session.now.undo }
    ensures newest { newest_of session.now.undo ≡ Some result }
    ensures key { result.key < 2 ^ 64 - 1 }
{
    let Some(undone) = session.undo.newest() else {
        unreachable!()
    };
    undone
}

/// Puts the newest change back that is left.
pub fn put_back<R: Rows, D: Stages>(
    rows: &mut R,
    seat: &mut R::Seat,
    work: &mut Work<D>,
) -> Result<(), Unmade>
    requires fits { R.fits rows.old seat.old }
    requires holds { Holds (R.shape rows.old) (R.view seat.old) work.old.session work.old.log }
    requires works { work.old.session.works ≡ true }
    requires is_open { work.old.session.is_open ≡ true }
    requires left { 0 < length work.old.session.undo }
    ensures fits { R.fits rows.new seat.new × (R.shape rows.new ≡ R.shape rows.old) }
    ensures holds { work.new.session.works ≡ true → Holds (R.shape rows.new) (R.view seat.new) work.new.session work.new.log }
    ensures session { IsSameSession work.old.session work.new.session }
    ensures backs { StepsBack result (R.view seat.old) (R.view seat.new) work.old.session work.new.session work.old.log work.new.log (D.story work.old.disk) (D.story work.new.disk) (work.new ≡ work.old) }
    ensures works { work.new.session.works ≡ works_behind result }

    ensures cause_cold { IsWarmBack (R.view seat.old) work.old.session → IsErrAnd result IsCut → ⊥ }
    // A page that was read again may have lost entries.
    ensures cause_lost { (R.view seat.old).given.faithful ≡ true → IsErrAnd result IsLost → ⊥ }
    ensures cause_disk_fault { HasCause (D.faults work.old.disk) (D.faults work.new.disk) (result ≡ Err (Unmade.Unserved disk_fault)) }
{
    session_state::every_room();
    session_state::every_low();
    next_fits(rows, seat);
    let undone = newest_left(&work.session);
    let frames = work.session.frames;
    // From here on an abort is under way.
    let is_half_aborted = work.session.is_half_aborted;
    work.session.is_half_aborted = true;
    let mut path = Path::new();
    match leaf_put_back(
        rows,
        seat,
        work.session.own,
        frames,
        undone.key,
        undone.word,
        &mut path,
        work,
    ) {
        Put::Done(_) => {
            work.session.undo.pop();
            Ok(())
        }
        Put::RowSpent { row: _ } => {
            work.session.is_half_aborted = is_half_aborted;
            rows.versions(seat);
            Err(Unmade::Unserved(Unserved::Refused(Refusal::RowSpent)))
        }
        Put::Unstaged(Unstaged::DiskFault) => {
            work.session.works = false;
            Err(Unmade::Unserved(Unserved::Unanswered(Unanswered::DiskFault)))
        }
        Put::Cold(page) => {
            work.session.is_half_aborted = is_half_aborted;
            Err(Unmade::Cold(Cold { page }))
        }
        Put::Full { row: _ } => {
            work.session.is_half_aborted = is_half_aborted;
            Err(Unmade::Lost)
        }
        // The log has a block, no number is above the clock, and nobody else steps.
        Put::Unstaged(Unstaged::LogFull { .. }) => unreachable!(),
        Put::ClockSpent => unreachable!(),
        Put::Moved(_) => unreachable!(),
        Put::Latched(_) => unreachable!(),
    }
}
