// The reading of a key whose row is held, wherever the pages of its way are.
ghost use Rattle.std.specs.Prelude.{◌≡◌, ◌<◌, ◌-◌, ◌^◌, IsErr, Err, true};
ghost use Rattle.lean_disk.specs.Faults.{HasCause};
ghost use Rattle.paged_desks.specs.Machines.{IsReady, pages, view_of};
ghost use Rattle.paged_desks.specs.Pages.{goes_on};
ghost use Rattle.paged_desks.specs.declared.warming.Unwarmed.TheVariants as stopped;
ghost use Rattle.paged_desks.specs.paged_rows.Paged.{IsWarm};
ghost use Rattle.paged_desks.specs.session_state.Staging.{IsButClock};
ghost use Rattle.row_room.specs.row_changes.Reads.{Reads};
ghost use Rattle.paged_calls.specs.Steps.{Holds, ReadsWarm};
ghost use Rattle.paged_desks.specs.Calls.{IsBeside};

use crate::laws::laws;
use paged_desks::{PagedMachine, Stages, Unwarmed};
use row_room::{Cold, read_held};

// Reads the key in its leaf, unless a page of its way is not hot.
#[inline(always)]
fn read<D: Stages>(machine: &mut PagedMachine<D>, key: u64) -> Result<Option<u64>, Cold>
    requires ready { IsReady D.story machine.old }
    requires holds { Holds key machine.old }
    requires key { key < 2 ^ 64 - 1 }
    ensures ready { IsReady D.story machine.new }
    ensures beside { IsBeside machine.old machine.new }
    ensures session { IsButClock machine.old.machine.work.session machine.new.machine.work.session }
    ensures reads { Reads result machine.old.machine.work.session.own (view_of machine.old) (view_of machine.new) key (machine.new.machine.work.session ≡ machine.old.machine.work.session) }

    ensures cause_cold { IsWarm (pages machine.old) key 0 → IsErr result → ⊥ }
{
    laws();
    read_held(
        &mut machine.machine.rows,
        &mut machine.machine.seat,
        &mut machine.machine.work.session,
        &machine.machine.work.log,
        key,
    )
}

// Reads the key in its leaf; where a page of its way is not hot, behind the coming of these pages.
#[inline(always)]
pub(crate) fn read_warm<D: Stages>(
    machine: &mut PagedMachine<D>,
    key: u64,
) -> Result<Option<u64>, Unwarmed>
    requires ready { IsReady D.story machine.old }
    requires holds { Holds key machine.old }
    requires key { key < 2 ^ 64 - 1 }
    ensures works { machine.new.machine.work.session.works ≡ goes_on result }
    ensures ready { goes_on result ≡ true → IsReady D.story machine.new }
    ensures reads { ReadsWarm D.story key result machine.old machine.new }

    ensures cause_disk_fault { HasCause (D.faults machine.old.machine.work.disk) (D.faults machine.new.machine.work.disk) (result ≡ Err stopped.DiskFault) }
{
    laws();
    if let Ok(value) = read(machine, key) {
        return Ok(value);
    }
    if let Err(why) = machine.warm(key) {
        return Err(why);
    }
    match read(machine, key) {
        Ok(value) => Ok(value),
        // The way is hot.
        Err(_) => unreachable!(),
    }
}
