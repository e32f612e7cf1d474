// A sync of all logs.
ghost use Rattle.std.specs.Prelude.{◌≡◌, ◌⊎◌, ◌↔◌, IfErr, IfOk, Err, false};
ghost use Rattle.map_model.specs.declared.call.Call.TheVariants as call;
ghost use Rattle.map_model.specs.declared.call.Refusal.{Refusal};
ghost use Rattle.paged_desks.specs.engine_trait.declared.unserved.Unserved.{Unserved};
ghost use Rattle.paged_desks.specs.engine_trait.Serving.{MayRefuse, broken, disk_fault};
ghost use Rattle.lean_disk.specs.Faults.{HasCause};
ghost use Rattle.paged_desks.specs.session_desks.Parts.{AreAsMany, SeatFits, Works, logs};
ghost use Rattle.paged_desks.specs.Calls.{CallDoes, EndsWork, OnLine, works_behind};
ghost use Rattle.paged_desks.specs.Machines.{IsReady};
ghost use Rattle.paged_desks.specs.Parts.{IsCramped};
ghost use Rattle.paged_desks.specs.Syncs.{IsMasterBehind};
ghost use Rattle.paged_ends.specs.Ends.{sync_answer};

use crate::laws::laws;
use map_model::Refusal;
use paged_desks::{DiskFault, PagedMachine, Stages, Unanswered, Unserved};

/// Flushes every log, and raises every clock, and what is flushed of every log, to the greatest clock; where some log ends below that, the next master is
/// written first. The answer is that number. Where an abort is half done and what it has still to put back would find no room behind a flush of its log, it is refused,
/// and nothing is done.
pub fn sync<D: Stages>(machine: &mut PagedMachine<D>) -> Result<u64, Unserved>
    requires ready { Works machine.old.machine → IsReady D.story machine.old }
    ensures ready { Works machine.new.machine → IsReady D.story machine.new }
    ensures fits { SeatFits machine.old.machine → SeatFits machine.new.machine }
    ensures does { Works machine.old.machine → CallDoes D.story OnLine 0 call.Sync (sync_answer result) machine.old machine.new }
    ensures written { IfOk result (λ number. IsMasterBehind machine.old.machine.work.session.workers number (logs machine.old.machine) machine.old.machine.master machine.new.machine.master) }
    ensures same { (result ≡ Err broken) ⊎ (result ≡ Err (Unserved.Refused Refusal.RowSpent)) → machine.new ≡ machine.old }
    ensures session { AreAsMany machine.old.machine machine.new.machine }
    ensures turn { Works machine.new.machine → machine.new.machine.work.session.own ≡ machine.old.machine.work.session.own }
    ensures works { machine.new.machine.work.session.works ≡ works_behind result }
    ensures come { IfErr result (λ why. MayRefuse 1 why ⊎ EndsWork why) }

    ensures cause_broken { (result ≡ Err broken) ↔ (machine.old.machine.work.session.works ≡ false) }
    ensures cause_spent { (result ≡ Err (Unserved.Refused Refusal.RowSpent)) ↔ (Works machine.old.machine × IsCramped machine.old) }
    ensures cause_disk_fault { HasCause (D.faults machine.old.machine.work.disk) (D.faults machine.new.machine.work.disk) (result ≡ Err disk_fault) }
{
    laws();
    if !machine.machine.work.session.works {
        return Err(Unserved::Unanswered(Unanswered::Broken));
    }
    if !machine.machine.may_sync() {
        return Err(Unserved::Refused(Refusal::RowSpent));
    }
    match machine.sync() {
        Ok(at) => Ok(at),
        Err(DiskFault) => Err(Unserved::Unanswered(Unanswered::DiskFault)),
    }
}
