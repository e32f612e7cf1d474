// The walk in one leaf, wherever the pages of its way are.
ghost use Rattle.std.specs.Prelude.{◌≡◌, ◌<◌, ◌-◌, ◌^◌, true, Err, IfErr, IsErrAnd, OnOk};
ghost use Rattle.lean_disk.specs.Faults.{HasCause};
ghost use Rattle.paged_calls.specs.engine_trait.Serving.{disk_fault};
ghost use Rattle.row_scans.specs.Meets.{IsButRows, IsCut, IsNoConflict, Meets};
ghost use Rattle.paged_calls.specs.paged_rows.Paged.{IsWarm};
ghost use Rattle.paged_calls.specs.paged_desks.Calls.{IsBeside, works_behind};
ghost use Rattle.paged_calls.specs.paged_desks.Machines.{IsReady, pages, view_of};
ghost use Rattle.paged_scans.specs.Steps.{MeetsWarm, NoOther};

use crate::laws::laws;
use paged_calls::{PagedMachine, Stages, Unserved, unserved_of};
use row_scans::{Met, Unmet, meet};

// Walks from the key on in its leaf, unless a page of its way is not hot.
fn walk<D: Stages>(machine: &mut PagedMachine<D>, key: u64) -> Result<Met, Unmet>
    requires ready { IsReady D.story machine.old }
    requires open_is { machine.old.machine.work.session.is_open ≡ true }
    requires key { key < 2 ^ 64 - 1 }
    ensures ready { IsReady D.story machine.new }
    ensures beside { IsBeside machine.old machine.new }
    ensures session { IsButRows machine.old.machine.work.session machine.new.machine.work.session }
    ensures meets { Meets result machine.old.machine.work.session.own (view_of machine.old) (view_of machine.new) key (machine.new.machine.work.session ≡ machine.old.machine.work.session) }
    // One session alone meets no other.
    ensures only { machine.old.machine.work.session.workers ≡ 1 → IfErr result IsNoConflict }

    ensures cause_cold { IsWarm (pages machine.old) key 0 → IsErrAnd result IsCut → ⊥ }
{
    laws();
    meet(
        &mut machine.machine.rows,
        &mut machine.machine.seat,
        &mut machine.machine.work.session,
        &machine.machine.work.log,
        key,
    )
}

// Walks from the key on in its leaf; where a page of its way is not hot, behind the coming of these pages.
pub(crate) fn walk_warm<D: Stages>(machine: &mut PagedMachine<D>, key: u64) -> Result<Met, Unserved>
    requires ready { IsReady D.story machine.old }
    requires open_is { machine.old.machine.work.session.is_open ≡ true }
    requires key { key < 2 ^ 64 - 1 }
    ensures works { machine.new.machine.work.session.works ≡ works_behind result }
    ensures ready { works_behind result ≡ true → IsReady D.story machine.new }
    ensures meets { MeetsWarm D.story key result machine.old machine.new }
    ensures open_is { OnOk result (machine.new.machine.work.session.is_open ≡ true) }
    ensures only { machine.old.machine.work.session.workers ≡ 1 → IfErr result NoOther }

    ensures cause_disk_fault { HasCause (D.faults machine.old.machine.work.disk) (D.faults machine.new.machine.work.disk) (result ≡ Err disk_fault) }
{
    laws();
    match walk(machine, key) {
        Ok(met) => return Ok(met),
        Err(Unmet::Refused(why)) => return Err(Unserved::Refused(why)),
        Err(Unmet::Cold(_)) => {}
    }
    if let Err(why) = machine.warm(key) {
        return Err(unserved_of(why));
    }
    match walk(machine, key) {
        Ok(met) => Ok(met),
        Err(Unmet::Refused(why)) => Err(Unserved::Refused(why)),
        // The way is hot.
        Err(Unmet::Cold(_)) => unreachable!(),
    }
}
