// One change that is put back in its leaf, and a leaf that has lost the entry.
ghost use Rattle.std.specs.Prelude.{◌≡◌, ◌<◌, ◌-◌, ◌^◌, IsErrAnd, Err, true, [], length};
ghost use Rattle.paged_desks.specs.btree_descent.Descents.{Sized};
ghost use Rattle.paged_desks.specs.btree_descent.Known.{IsSound};
ghost use Rattle.paged_desks.specs.engine_trait.Serving.{disk_fault};
ghost use Rattle.lean_disk.specs.Faults.{HasCause};
ghost use Rattle.row_changes.specs.Puts.{works_behind as works_after_try};
ghost use Rattle.row_changes.specs.Ways.{IsCut, IsLost};
ghost use Rattle.row_changes.specs.declared.ways.Unmade.{Unmade};
ghost use Rattle.paged_desks.specs.rows_trait.Views.{may};
ghost use Rattle.paged_desks.specs.session_desks.Parts.{SeatFits};
ghost use Rattle.paged_desks.specs.session_state.Holds.{IsSameSession};
ghost use Rattle.paged_desks.specs.Calls.{IsAside};
ghost use Rattle.paged_desks.specs.Machines.{IsReady, view_of};
ghost use Rattle.paged_aborts.specs.Backs.{BacksInLeaf, IsDamaged, IsGivenUp, IsWarmNewest};

use crate::laws::laws;
use paged_desks::{PagedMachine, Path, Rows, Stages, Unanswered, Unserved, Way, reach};
use row_changes::{Unmade, put_back};

// Puts the newest change back that is left, unless a page of its key's way is not hot.
pub(crate) fn put_back_in_leaf<D: Stages>(machine: &mut PagedMachine<D>) -> Result<(), Unmade>
    requires ready { IsReady D.story machine.old }
    requires is_open { machine.old.machine.work.session.is_open ≡ true }
    requires left { 0 < length machine.old.machine.work.session.undo }
    ensures works { machine.new.machine.work.session.works ≡ works_after_try result }
    ensures ready { works_after_try result ≡ true → IsReady D.story machine.new }
    ensures fits { SeatFits machine.new.machine }
    ensures backs { BacksInLeaf D.story result machine.old machine.new }
    ensures aside { IsAside machine.old machine.new }
    ensures session { IsSameSession machine.old.machine.work.session machine.new.machine.work.session }

    ensures cause_cold { IsWarmNewest machine.old → IsErrAnd result IsCut → ⊥ }
    ensures cause_lost { (view_of machine.old).given.faithful ≡ true → IsErrAnd result IsLost → ⊥ }
    ensures cause_disk_fault { HasCause (D.faults machine.old.machine.work.disk) (D.faults machine.new.machine.work.disk) (result ≡ Err (Unmade.Unserved disk_fault)) }
{
    laws();
    put_back(
        &mut machine.machine.rows,
        &mut machine.machine.seat,
        &mut machine.machine.work,
    )
}

// The page with which the way of the key ends, by its number: its leaf, or a page that is not hot.
fn last_page<R: Rows>(rows: &mut R, seat: &mut R::Seat, worker: u32, frames: u32, key: u64) -> u64
    requires fits { R.fits rows.old seat.old }
    requires sized { Sized (R.shape rows.old) (R.view seat.old) frames }
    requires actor { may (R.shape rows.old).alone (R.view seat.old) worker ≡ true }
    requires sound { IsSound (R.view seat.old).given }
    requires alone { (R.shape rows.old).alone ≡ true }
    requires held { (R.view seat.old).held ≡ [] }
    requires key { key < 2 ^ 64 - 1 }
    ensures fits { R.fits rows.new seat.new × (R.shape rows.new ≡ R.shape rows.old) }
    ensures given { (R.view seat.new).given ≡ (R.view seat.old).given }
    ensures seen { (R.view seat.new).seen ≡ (R.view seat.old).seen }
{
    let mut path = Path::new();
    match reach(rows, seat, worker, frames, key, &mut path) {
        // The first word of a frame is the number of its page.
        Way::Leaf { row } => rows.load_word(seat, row, 0),
        Way::Cold(page) => page,
        // Nobody else steps.
        Way::Moved(_) | Way::Latched(_) => unreachable!(),
    }
}

// The leaf of the key has lost an entry, since a device gave other entries than it took: the machine works no longer, and the page is named.
pub(crate) fn lose<D: Stages>(machine: &mut PagedMachine<D>, key: u64) -> Unserved
    requires ready { IsReady D.story machine.old }
    requires key { key < 2 ^ 64 - 1 }
    ensures damaged { IsDamaged result }
    ensures given_up { IsGivenUp machine.old machine.new }
{
    let worker = machine.machine.work.session.own;
    let frames = machine.pager.frames();
    let place = last_page(
        &mut machine.machine.rows,
        &mut machine.machine.seat,
        worker,
        frames,
        key,
    );
    machine.machine.work.session.works = false;
    Unserved::Unanswered(Unanswered::Damaged { place })
}
