// One step of a put behind the lock of the key: a try, and where the leaf has no room, one change of the tree.
ghost use Rattle.std.specs.Prelude.{◌≡◌, ◌<◌, Err, IsErrAnd, true};
ghost use Rattle.page_model.specs.Limits.{tombstone};
ghost use Rattle.row_growth.specs.session_state.engine_trait.Serving.{disk_fault};
ghost use Rattle.lean_disk.specs.Faults.{HasCause};
ghost use Rattle.row_growth.specs.session_state.Holds.{Holds, IsSameSession};
ghost use Rattle.row_growth.specs.row_changes.Puts.{MayChange, works_behind};
ghost use Rattle.row_growth.specs.row_changes.Ways.{IsCut, IsWarm};
ghost use Rattle.row_growth.specs.row_changes.declared.ways.Unmade.{Unmade};
ghost use Rattle.row_room.specs.Outcomes.{Steps};
ghost use Rattle.row_growth.specs.Rooms.{IsPlaced};

use crate::spaces::make_space;
use row_growth::{
    Growth, Path, Placed, Rows, Stages, Tried, Unmade, Unserved, Work, clock_refusal, put_in_leaf,
};

/// What one step of a put did.
#[derive(Clone, Copy)]
pub enum Stepped {
    /// The key has its value now; this is the one that it had.
    Done(Option<u64>),
    /// The tree was changed on the way to room for the key.
    Grown,
    /// Nothing was done: a change of the tree takes this free page, which is to be brought into a frame first.
    Needs { page: u32 },
}

/// Tries to put, and where the leaf has no room, makes one change of the tree, into the free page that was brought into a frame.
pub fn put_step<R: Rows, D: Stages>(
    rows: &mut R,
    seat: &mut R::Seat,
    work: &mut Work<D>,
    key: u64,
    value: u64,
    placed: Option<Placed>,
) -> Result<Stepped, Unmade>
    requires fits { R.fits rows.old seat.old }
    requires holds { Holds (R.shape rows.old) (R.view seat.old) work.old.session work.old.log }
    requires may { MayChange (R.view seat.old) work.old.session work.old.log key }
    requires value { value < tombstone }
    requires placed { IsPlaced (R.view seat.old) placed }
    ensures fits { R.fits rows.new seat.new × (R.shape rows.new ≡ R.shape rows.old) }
    ensures holds { work.new.session.works ≡ true → Holds (R.shape rows.new) (R.view seat.new) work.new.session work.new.log }
    ensures session { IsSameSession work.old.session work.new.session }
    ensures is_half_aborted { work.new.session.works ≡ true → work.new.session.is_half_aborted ≡ work.old.session.is_half_aborted }
    ensures steps { Steps result placed (R.view seat.old) (R.view seat.new) key value work.old.session work.new.session work.old.log work.new.log (D.story work.old.disk) (D.story work.new.disk) (work.new ≡ work.old) }
    ensures works { work.new.session.works ≡ works_behind result }

    ensures cause_cold { IsWarm (R.view seat.old) key → IsErrAnd result IsCut → ⊥ }
    ensures cause_disk_fault { HasCause (D.faults work.old.disk) (D.faults work.new.disk) (result ≡ Err (Unmade.Unserved disk_fault)) }
{
    let mut path = Path::new();
    match put_in_leaf(rows, seat, work, key, value, &mut path) {
        Err(unmade) => return Err(unmade),
        Ok(Tried::Done(before)) => return Ok(Stepped::Done(before)),
        Ok(Tried::Full) => {}
    }
    match make_space(rows, seat, work, key, &path, placed) {
        Err(why) => return Err(Unmade::Unserved(why)),
        Ok(Growth::Needs { page }) => return Ok(Stepped::Needs { page }),
        Ok(Growth::Grown) => {}
    }
    match clock_refusal(&work.session) {
        Some(why) => Err(Unmade::Unserved(Unserved::Refused(why))),
        None => Ok(Stepped::Grown),
    }
}
