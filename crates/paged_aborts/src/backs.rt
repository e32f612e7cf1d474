// Changes that an abort puts back, wherever the pages of their ways are.
ghost use Rattle.std.specs.Prelude.{◌≡◌, ◌<◌, ◌-◌, ◌^◌, Err, Some, true, length};
ghost use Rattle.paged_desks.specs.engine_trait.Serving.{disk_fault};
ghost use Rattle.lean_disk.specs.Faults.{HasCause};
ghost use Rattle.paged_desks.specs.session_desks.Parts.{AreAsMany, SeatFits};
ghost use Rattle.paged_desks.specs.Calls.{works_behind};
ghost use Rattle.paged_desks.specs.Machines.{IsReady};
ghost use Rattle.paged_desks.specs.session_state.Undo.{newest_of};
ghost use Rattle.paged_aborts.specs.Backs.{IsNewestKey, NoneLeft, OneLess, PutsBack, most_a_back, most_in_all};

use crate::laws::laws;
use crate::leaves::{lose, put_back_in_leaf};
use paged_desks::{PagedMachine, Stages, Undone, Unserved, unserved_of};
use row_changes::Unmade;

// The newest change that is left.
fn newest_left<D: Stages>(machine: &PagedMachine<D>) -> Undone
    requires left { 0 < length machine.now.machine.work.session.undo }
    ensures newest { newest_of machine.now.machine.work.session.undo ≡ Some result }
    ensures key { result.key < 2 ^ 64 - 1 }
{
    let Some(undone) = machine.machine.work.session.undo.newest() else {
        unreachable!()
    };
    undone
}

// Puts the newest change back behind the coming of the pages of its key's way.
fn put_back_behind<D: Stages>(machine: &mut PagedMachine<D>, key: u64) -> Result<(), Unserved>
    requires ready { IsReady D.story machine.old }
    requires is_open { machine.old.machine.work.session.is_open ≡ true }
    requires newest { IsNewestKey key machine.old }
    requires key { key < 2 ^ 64 - 1 }
    ensures works { machine.new.machine.work.session.works ≡ works_behind result }
    ensures ready { works_behind result ≡ true → IsReady D.story machine.new }
    ensures backs { PutsBack D.story (most_a_back machine.old.machine.work.session.workers) OneLess result machine.old machine.new }
    ensures fits { SeatFits machine.new.machine }
    ensures session { AreAsMany machine.old.machine machine.new.machine }

    ensures cause_disk_fault { HasCause (D.faults machine.old.machine.work.disk) (D.faults machine.new.machine.work.disk) (result ≡ Err disk_fault) }
{
    laws();
    if let Err(why) = machine.warm(key) {
        return Err(unserved_of(why));
    }
    match put_back_in_leaf(machine) {
        Ok(()) => Ok(()),
        Err(Unmade::Unserved(why)) => Err(why),
        Err(Unmade::Lost) => Err(lose(machine, key)),
        // The way is hot.
        Err(Unmade::Cold(_)) => unreachable!(),
    }
}

// Puts the newest change back; where a page of its key's way is not hot, behind the coming of these pages.
fn put_back_newest<D: Stages>(machine: &mut PagedMachine<D>) -> Result<(), Unserved>
    requires ready { IsReady D.story machine.old }
    requires is_open { machine.old.machine.work.session.is_open ≡ true }
    requires left { 0 < length machine.old.machine.work.session.undo }
    ensures works { machine.new.machine.work.session.works ≡ works_behind result }
    ensures ready { works_behind result ≡ true → IsReady D.story machine.new }
    ensures backs { PutsBack D.story (most_a_back machine.old.machine.work.session.workers) OneLess result machine.old machine.new }
    ensures fits { SeatFits machine.new.machine }
    ensures session { AreAsMany machine.old.machine machine.new.machine }

    ensures cause_disk_fault { HasCause (D.faults machine.old.machine.work.disk) (D.faults machine.new.machine.work.disk) (result ≡ Err disk_fault) }
{
    laws();
    let undone = newest_left(machine);
    match put_back_in_leaf(machine) {
        Ok(()) => Ok(()),
        Err(Unmade::Unserved(why)) => Err(why),
        Err(Unmade::Lost) => Err(lose(machine, undone.key)),
        Err(Unmade::Cold(_)) => put_back_behind(machine, undone.key),
    }
}

// Puts back what is left, the newest change first.
pub(crate) fn put_back_all<D: Stages>(machine: &mut PagedMachine<D>) -> Result<(), Unserved>
    requires ready { IsReady D.story machine.old }
    requires is_open { machine.old.machine.work.session.is_open ≡ true }
    ensures works { machine.new.machine.work.session.works ≡ works_behind result }
    ensures ready { works_behind result ≡ true → IsReady D.story machine.new }
    ensures backs { PutsBack D.story (most_in_all machine.old.machine.work.session.workers) NoneLeft result machine.old machine.new }
    ensures fits { SeatFits machine.new.machine }
    ensures session { AreAsMany machine.old.machine machine.new.machine }

    ensures cause_disk_fault { HasCause (D.faults machine.old.machine.work.disk) (D.faults machine.new.machine.work.disk) (result ≡ Err disk_fault) }
{
    laws();
    'left: loop {
        if machine.machine.work.session.undo.len() == 0 {
            return Ok(());
        }
        if let Err(why) = put_back_newest(machine) {
            return Err(why);
        }
    }
}
