// The walk from leaf to leaf.
ghost use Rattle.std.specs.Prelude.{◌≡◌, ◌≤◌, ◌<◌, ◌-◌, ◌^◌, true, Err, IfErr, IfOk};
ghost use Rattle.lean_disk.specs.Faults.{HasCause};
ghost use Rattle.paged_calls.specs.engine_trait.Serving.{disk_fault};
ghost use Rattle.paged_calls.specs.paged_desks.Calls.{works_behind};
ghost use Rattle.paged_calls.specs.paged_desks.Machines.{IsReady};
ghost use Rattle.paged_scans.specs.Steps.{Nexts, NoOther};

use crate::laws::laws;
use crate::walks::walk_warm;
use paged_calls::{PagedMachine, Stages, Unserved};
use row_scans::Met;

// The least live pair from a key on up to another, over as many leaves as it takes. None: there is none. The pair that follows may have been read behind
// the other key, which nobody is told.
pub(crate) fn next<D: Stages>(
    machine: &mut PagedMachine<D>,
    from: u64,
    to: u64,
) -> Result<Option<(u64, u64)>, Unserved>
    requires ready { IsReady D.story machine.old }
    requires open_is { machine.old.machine.work.session.is_open ≡ true }
    requires from { from ≤ to }
    requires to { to < 2 ^ 64 - 1 }
    ensures works { machine.new.machine.work.session.works ≡ works_behind result }
    ensures ready { works_behind result ≡ true → IsReady D.story machine.new }
    ensures nexts { Nexts D.story from to result machine.old machine.new }
    ensures only { machine.old.machine.work.session.workers ≡ 1 → IfErr result NoOther }

    ensures cause_disk_fault { HasCause (D.faults machine.old.machine.work.disk) (D.faults machine.new.machine.work.disk) (result ≡ Err disk_fault) }
{
    laws();
    let mut at = from;
    while at <= to {
        match walk_warm(machine, at) {
            Ok(Met::Pair { key, value }) => {
                return Ok(if key <= to { Some((key, value)) } else { None });
            }
            Ok(Met::Gap { high }) => at = high,
            Err(why) => return Err(why),
        }
    }
    Ok(None)
}
