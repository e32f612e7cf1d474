// A commit.
ghost use Rattle.std.specs.Prelude.{◌≡◌, ◌⊎◌, ◌↔◌, IfErr, IfOk, Err, true, false};
ghost use Rattle.map_model.specs.declared.call.Call.TheVariants as call;
ghost use Rattle.map_model.specs.declared.call.Refusal.{Refusal};
ghost use Rattle.paged_desks.specs.engine_trait.declared.unserved.Unserved.{Unserved};
ghost use Rattle.paged_desks.specs.engine_trait.Serving.{MayRefuse, broken, disk_fault};
ghost use Rattle.lean_disk.specs.Faults.{HasCause};
ghost use Rattle.row_ends.specs.Receipts.{IsEnded};
ghost use Rattle.paged_desks.specs.session_desks.Parts.{AreAsMany, SeatFits, Works};
ghost use Rattle.paged_desks.specs.session_state.Holds.{IsSameSession};
ghost use Rattle.paged_desks.specs.Calls.{CallDoes, EndsWork, IsAside, OnLine, works_behind};
ghost use Rattle.paged_desks.specs.Machines.{IsReady, view_of};
ghost use Rattle.paged_ends.specs.Ends.{commit_answer};
ghost use Rattle.paged_ends.specs.Pieces.{CommitsOn};

use crate::laws::laws;
use paged_desks::{PagedMachine, Stages, Unserved};
use row_ends::{Ended, call_refusal, commit_tested};

// The transaction of the session whose turn it is commits, behind its tests.
fn commit_open<D: Stages>(machine: &mut PagedMachine<D>) -> Result<Ended, Unserved>
    requires ready { IsReady D.story machine.old }
    requires is_open { machine.old.machine.work.session.is_open ≡ true }
    ensures ready { works_behind result ≡ true → IsReady D.story machine.new }
    ensures fits { SeatFits machine.new.machine }
    ensures commits { CommitsOn D.story result machine.old machine.new }
    ensures aside { works_behind result ≡ true → IsAside machine.old machine.new }
    ensures same_session { IsSameSession machine.old.machine.work.session machine.new.machine.work.session }
    ensures works { machine.new.machine.work.session.works ≡ works_behind result }
    ensures come { IfErr result (λ why. MayRefuse 1 why ⊎ EndsWork why) }
    ensures no_broken { result ≡ Err broken → ⊥ }
    ensures receipt { IfOk result (IsEnded (view_of machine.old) machine.new.machine.work.session) }

    ensures cause_disk_fault { HasCause (D.faults machine.old.machine.work.disk) (D.faults machine.new.machine.work.disk) (result ≡ Err disk_fault) }
{
    laws();
    commit_tested(
        &mut machine.machine.rows,
        &mut machine.machine.seat,
        &mut machine.machine.work,
        &mut machine.machine.latches,
    )
}

/// The transaction of the session whose turn it is commits: its end is staged, its lock rows are given back, and its log is flushed where so many of its commits
/// wait as make a group. It is durable once its log is flushed up to its number, and every log up to its need. Where a latch has come to its end, it is refused.
pub fn commit<D: Stages>(machine: &mut PagedMachine<D>) -> Result<Ended, Unserved>
    requires ready { Works machine.old.machine → IsReady D.story machine.old }
    ensures ready { Works machine.new.machine → IsReady D.story machine.new }
    ensures fits { SeatFits machine.old.machine → SeatFits machine.new.machine }
    ensures does { Works machine.old.machine → CallDoes D.story OnLine machine.old.machine.work.session.own call.Commit (commit_answer result) machine.old machine.new }
    ensures receipt { IfOk result (IsEnded (view_of machine.old) machine.new.machine.work.session) }
    ensures same { (result ≡ Err broken) ⊎ (result ≡ Err (Unserved.Refused Refusal.NoTransaction)) → machine.new ≡ machine.old }
    ensures session { AreAsMany machine.old.machine machine.new.machine }
    ensures turn { Works machine.new.machine → machine.new.machine.work.session.own ≡ machine.old.machine.work.session.own }
    ensures works { machine.new.machine.work.session.works ≡ works_behind result }
    ensures come { IfErr result (λ why. MayRefuse 1 why ⊎ EndsWork why) }

    ensures cause_broken { (result ≡ Err broken) ↔ (machine.old.machine.work.session.works ≡ false) }
    ensures cause_disk_fault { HasCause (D.faults machine.old.machine.work.disk) (D.faults machine.new.machine.work.disk) (result ≡ Err disk_fault) }
{
    laws();
    if let Some(why) = call_refusal(&machine.machine.work.session) {
        return Err(why);
    }
    commit_open(machine)
}
