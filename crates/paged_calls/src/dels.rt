// A del.
ghost use Rattle.std.specs.Prelude.{◌≡◌, ◌⊎◌, ◌↔◌, ◌<◌, ◌-◌, ◌^◌, IfErr, IsErrAnd, Err, Some, true, false};
ghost use Rattle.map_model.specs.declared.call.Call.TheVariants as call;
ghost use Rattle.paged_desks.specs.engine_trait.declared.unserved.Unserved.{Unserved};
ghost use Rattle.paged_desks.specs.engine_trait.Serving.{MayRefuse, broken, disk_fault};
ghost use Rattle.lean_disk.specs.Faults.{HasCause};
ghost use Rattle.paged_desks.specs.session_desks.Parts.{AreAsMany, SeatFits, Works};
ghost use Rattle.paged_desks.specs.Machines.{IsReady};
ghost use Rattle.paged_desks.specs.Calls.{CallDoes, EndsWork, OnLine, works_behind};
ghost use Rattle.paged_calls.specs.Calls.{IsEarly, del_answer};
ghost use Rattle.paged_calls.specs.Tests.{change_test};

use crate::deleting::del_warm;
use crate::laws::laws;
use crate::taking::take;
use crate::tests::change_refusal;
use paged_desks::{Mode, PagedMachine, Stages, Unserved};
use row_room::clock_refusal;

/// Takes the value of a key away. The answer is the value that it had. The pages of the key's way are brought into frames; where the key's leaf has few entries, the tree is
/// tidied first by changes by which space comes back, and each neighbour that one of these needs is brought into a frame too.
pub fn del<D: Stages>(machine: &mut PagedMachine<D>, key: u64) -> Result<Option<u64>, Unserved>
    requires ready { Works machine.old.machine → IsReady D.story machine.old }
    requires key { key < 2 ^ 64 - 1 }
    ensures ready { Works machine.new.machine → IsReady D.story machine.new }
    ensures fits { SeatFits machine.old.machine → SeatFits machine.new.machine }
    ensures does { Works machine.old.machine → CallDoes D.story OnLine machine.old.machine.work.session.own (call.Del key) (del_answer result) machine.old machine.new }
    ensures same { IsErrAnd result IsEarly → machine.new ≡ machine.old }
    // A test of the session and its log that refuses it comes before all else.
    ensures tested { (why : Unserved) → change_test machine.old.machine.work.session machine.old.machine.work.log ≡ Some why → (result ≡ Err why) × (machine.new ≡ machine.old) }
    ensures session { AreAsMany machine.old.machine machine.new.machine }
    ensures turn { Works machine.new.machine → machine.new.machine.work.session.own ≡ machine.old.machine.work.session.own }
    ensures works { machine.new.machine.work.session.works ≡ works_behind result }
    ensures come { IfErr result (λ why. MayRefuse machine.old.machine.work.session.workers why ⊎ EndsWork why) }

    ensures cause_broken { (result ≡ Err broken) ↔ (machine.old.machine.work.session.works ≡ false) }
    ensures cause_disk_fault { HasCause (D.faults machine.old.machine.work.disk) (D.faults machine.new.machine.work.disk) (result ≡ Err disk_fault) }
{
    laws();
    if let Some(why) = change_refusal(&machine.machine.work.session, &machine.machine.work.log) {
        return Err(why);
    }
    if let Err(why) = take(machine, key, Mode::Alone) {
        return Err(Unserved::Refused(why));
    }
    // What the row tells may have brought the clock to its end.
    if let Some(why) = clock_refusal(&machine.machine.work.session) {
        return Err(Unserved::Refused(why));
    }
    del_warm(machine, key)
}
