// A try to put behind the lock of the key.
ghost use Rattle.std.specs.Prelude.{◌≡◌, ◌<◌, [], Err, IsErrAnd, true, false};
ghost use Rattle.page_model.specs.Limits.{tombstone};
ghost use Rattle.page_model.specs.Tree.{word_or};
ghost use Rattle.session_state.specs.engine_trait.Serving.{disk_fault};
ghost use Rattle.lean_disk.specs.Faults.{HasCause};
ghost use Rattle.session_state.specs.Holds.{Holds, IsSameSession};
ghost use Rattle.row_changes.specs.Outcomes.{Tries};
ghost use Rattle.row_changes.specs.Puts.{MayChange, works_behind};
ghost use Rattle.row_changes.specs.Ways.{IsCut, IsWarm};
ghost use Rattle.row_changes.specs.declared.ways.Unmade.{Unmade};

use crate::reads::value_of;
use crate::ways::{Cold, Unmade};
use map_model::Refusal;
use session_state::{
    Path, Put, Rows, Stages, TOMBSTONE, Unanswered, Unserved, Unstaged, Work, leaf_put, next_fits,
};

// The word that a key had, which is a tombstone's where it had none.
fn word_of(before: Option<u64>) -> u64
    ensures { result ≡ word_or tombstone before }
{
    before.unwrap_or(TOMBSTONE)
}

/// What came of a try to put.
#[derive(Clone, Copy)]
pub enum Tried {
    /// The value that the key had.
    Done(Option<u64>),
    /// The leaf has no room for the key.
    Full,
}

/// The key, whose row is held, gets its value, if its leaf has room for it.
pub fn put_in_leaf<R: Rows, D: Stages>(
    rows: &mut R,
    seat: &mut R::Seat,
    work: &mut Work<D>,
    key: u64,
    value: u64,
    path: &mut Path,
) -> Result<Tried, Unmade>
    requires fits { R.fits rows.old seat.old }
    requires holds { Holds (R.shape rows.old) (R.view seat.old) work.old.session work.old.log }
    requires may { MayChange (R.view seat.old) work.old.session work.old.log key }
    requires value { value < tombstone }
    requires path { path.old ≡ [] }
    ensures fits { R.fits rows.new seat.new × (R.shape rows.new ≡ R.shape rows.old) }
    ensures holds { work.new.session.works ≡ true → Holds (R.shape rows.new) (R.view seat.new) work.new.session work.new.log }
    ensures session { IsSameSession work.old.session work.new.session }
    ensures is_half_aborted { work.new.session.works ≡ true → work.new.session.is_half_aborted ≡ work.old.session.is_half_aborted }
    ensures tries { Tries result (R.view seat.old) (R.view seat.new) key value work.old.session work.new.session work.old.log work.new.log (D.story work.old.disk) (D.story work.new.disk) path.new (work.new ≡ work.old) (work.new.session.works ≡ false) }
    ensures works { work.new.session.works ≡ works_behind result }

    ensures cause_cold { IsWarm (R.view seat.old) key → IsErrAnd result IsCut → ⊥ }
    ensures cause_disk_fault { HasCause (D.faults work.old.disk) (D.faults work.new.disk) (result ≡ Err (Unmade.Unserved disk_fault)) }
{
    session_state::every_room();
    session_state::every_low();
    next_fits(rows, seat);
    let frames = work.session.frames;
    match leaf_put(rows, seat, work.session.own, frames, key, value, path, work) {
        Put::Done(before) => {
            work.session.undo.push(key, word_of(before));
            Ok(Tried::Done(value_of(before)))
        }
        Put::Full { row: _ } => Ok(Tried::Full),
        Put::RowSpent { row: _ } => {
            rows.versions(seat);
            Err(Unmade::Unserved(Unserved::Refused(Refusal::RowSpent)))
        }
        Put::Unstaged(Unstaged::DiskFault) => {
            work.session.works = false;
            Err(Unmade::Unserved(Unserved::Unanswered(Unanswered::DiskFault)))
        }
        Put::Cold(page) => Err(Unmade::Cold(Cold { page })),
        // The log has a block, no number is above the clock, and nobody else steps.
        Put::Unstaged(Unstaged::LogFull { .. }) => unreachable!(),
        Put::ClockSpent => unreachable!(),
        Put::Moved(_) => unreachable!(),
        Put::Latched(_) => unreachable!(),
    }
}
