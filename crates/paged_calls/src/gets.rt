// A get.
ghost use Rattle.std.specs.Prelude.{◌≡◌, ◌⊎◌, ◌↔◌, ◌<◌, ◌-◌, ◌^◌, IfErr, Err, false};
ghost use Rattle.map_model.specs.declared.call.Call.TheVariants as call;
ghost use Rattle.map_model.specs.declared.call.Refusal.{Refusal};
ghost use Rattle.paged_desks.specs.engine_trait.declared.unserved.Unserved.{Unserved};
ghost use Rattle.paged_desks.specs.engine_trait.Serving.{MayRefuse, broken, disk_fault};
ghost use Rattle.lean_disk.specs.Faults.{HasCause};
ghost use Rattle.paged_desks.specs.session_desks.Parts.{AreAsMany, SeatFits, Works};
ghost use Rattle.paged_desks.specs.Machines.{IsReady};
ghost use Rattle.paged_desks.specs.Calls.{CallDoes, EndsWork, OnLine, works_behind};
ghost use Rattle.paged_calls.specs.Calls.{get_answer};

use crate::laws::laws;
use crate::reading::read_warm;
use crate::taking::take;
use crate::tests::call_refusal;
use paged_desks::{Mode, PagedMachine, Stages, Unserved, unserved_of};

/// The value that a key has. Where a page of the key's way is in no frame, the pages of the way are brought into frames.
#[inline(always)]
pub fn get<D: Stages>(machine: &mut PagedMachine<D>, key: u64) -> Result<Option<u64>, Unserved>
    requires ready { Works machine.old.machine → IsReady D.story machine.old }
    requires key { key < 2 ^ 64 - 1 }
    ensures ready { Works machine.new.machine → IsReady D.story machine.new }
    ensures fits { SeatFits machine.old.machine → SeatFits machine.new.machine }
    ensures does { Works machine.old.machine → CallDoes D.story OnLine machine.old.machine.work.session.own (call.Get key) (get_answer result) machine.old machine.new }
    ensures same { (result ≡ Err broken) ⊎ (result ≡ Err (Unserved.Refused Refusal.NoTransaction)) → machine.new ≡ machine.old }
    ensures session { AreAsMany machine.old.machine machine.new.machine }
    ensures turn { Works machine.new.machine → machine.new.machine.work.session.own ≡ machine.old.machine.work.session.own }
    ensures works { machine.new.machine.work.session.works ≡ works_behind result }
    ensures come { IfErr result (λ why. MayRefuse machine.old.machine.work.session.workers why ⊎ EndsWork why) }

    ensures cause_broken { (result ≡ Err broken) ↔ (machine.old.machine.work.session.works ≡ false) }
    ensures cause_disk_fault { HasCause (D.faults machine.old.machine.work.disk) (D.faults machine.new.machine.work.disk) (result ≡ Err disk_fault) }
{
    laws();
    if let Some(why) = call_refusal(&machine.machine.work.session) {
        return Err(why);
    }
    if let Err(why) = take(machine, key, Mode::Shared) {
        return Err(Unserved::Refused(why));
    }
    match read_warm(machine, key) {
        Ok(value) => Ok(value),
        Err(why) => Err(unserved_of(why)),
    }
}
