// An abort.
ghost use Rattle.std.specs.Prelude.{◌≡◌, ◌⊎◌, ◌↔◌, IfErr, IfOk, Err, Some, true, false, []};
ghost use Rattle.map_model.specs.declared.call.Call.{Call};
ghost use Rattle.map_model.specs.declared.call.Refusal.{Refusal};
ghost use Rattle.paged_desks.specs.engine_trait.declared.unserved.Unserved.{Unserved};
ghost use Rattle.paged_desks.specs.engine_trait.Serving.{MayRefuse, broken, disk_fault};
ghost use Rattle.lean_disk.specs.Faults.{HasCause};
ghost use Rattle.row_ends.specs.Outcomes.{Aborts};
ghost use Rattle.row_ends.specs.Receipts.{IsEnded};
ghost use Rattle.row_ends.specs.Tests.{abort_test};
ghost use Rattle.paged_desks.specs.session_desks.Parts.{AreAsMany, SeatFits, Works};
ghost use Rattle.paged_desks.specs.session_state.Holds.{IsSameSession};
ghost use Rattle.paged_desks.specs.Calls.{CallDoes, EndsWork, IsAside, works_behind};
ghost use Rattle.paged_desks.specs.Machines.{IsReady, view_of};
ghost use Rattle.paged_aborts.specs.Aborts.{HasReceipt, MayAbort, abort_answer};
ghost use Rattle.paged_aborts.specs.Backs.{EndsAbort, HasFailedBack};

use crate::backs::put_back_all;
use crate::laws::laws;
use paged_desks::{PagedMachine, Stages, Unserved};
use row_ends::{Ended, abort_refusal, end_abort};

// The end of the abort, behind all that it puts back.
fn finish<D: Stages>(machine: &mut PagedMachine<D>) -> Result<Ended, Unserved>
    requires ready { IsReady D.story machine.old }
    requires is_open { machine.old.machine.work.session.is_open ≡ true }
    requires left { machine.old.machine.work.session.undo ≡ [] }
    ensures ready { works_behind result ≡ true → IsReady D.story machine.new }
    ensures fits { SeatFits machine.new.machine }
    ensures aborts { EndsAbort D.story result machine.old machine.new }
    ensures aside { works_behind result ≡ true → IsAside machine.old machine.new }
    ensures same_session { IsSameSession machine.old.machine.work.session machine.new.machine.work.session }
    ensures works { machine.new.machine.work.session.works ≡ works_behind result }
    ensures receipt { IfOk result (IsEnded (view_of machine.old) machine.new.machine.work.session) }
    ensures failed { result ≡ Err disk_fault → HasFailedBack D.story 0 machine.old machine.new }
    ensures come { IfErr result (λ why. MayRefuse 1 why ⊎ EndsWork why) }
    ensures no_broken { result ≡ Err broken → ⊥ }

    ensures cause_disk_fault { HasCause (D.faults machine.old.machine.work.disk) (D.faults machine.new.machine.work.disk) (result ≡ Err disk_fault) }
{
    laws();
    end_abort(
        &mut machine.machine.rows,
        &mut machine.machine.seat,
        &mut machine.machine.work,
        &mut machine.machine.latches,
    )
}

/// The transaction of the session whose turn it is is aborted: what it changed is put back, the newest change first, its end is staged, and the lock rows that it holds are given back.
/// Where a page of a key's way is in no frame, the pages of the way are brought into frames. Nothing is flushed, but for syncs that pages need.
///
/// RowSpent: a latch has come to its end; or an abort was half done before the call, and a page needs a sync before which the log of such a session may not be flushed. The next abort goes
/// on. Damaged: a page has no valid slot, or is not the one that left its frame, or has lost an entry.
pub fn abort<D: Stages>(machine: &mut PagedMachine<D>) -> Result<Ended, Unserved>
    requires ready { Works machine.old.machine → IsReady D.story machine.old }
    ensures ready { Works machine.new.machine → IsReady D.story machine.new }
    ensures fits { SeatFits machine.old.machine → SeatFits machine.new.machine }
    ensures does { Works machine.old.machine → (c : Call) → CallDoes D.story (MayAbort machine.old.machine.work.session.own machine.old.machine.work.session.is_open c) machine.old.machine.work.session.own c (abort_answer result) machine.old machine.new }
    ensures receipt { IfOk result (HasReceipt machine.old machine.new) }
    // A test of the session that refuses it comes before all else.
    ensures tested { (why : Unserved) → abort_test machine.old.machine.work.session ≡ Some why → (result ≡ Err why) × (machine.new ≡ machine.old) }
    ensures same { (result ≡ Err broken) ⊎ (result ≡ Err (Unserved.Refused Refusal.NoTransaction)) → machine.new ≡ machine.old }
    ensures session { AreAsMany machine.old.machine machine.new.machine }
    ensures turn { Works machine.new.machine → machine.new.machine.work.session.own ≡ machine.old.machine.work.session.own }
    ensures works { machine.new.machine.work.session.works ≡ works_behind result }
    ensures come { IfErr result (λ why. MayRefuse 1 why ⊎ EndsWork why) }

    ensures cause_broken { (result ≡ Err broken) ↔ (machine.old.machine.work.session.works ≡ false) }
    ensures cause_disk_fault { HasCause (D.faults machine.old.machine.work.disk) (D.faults machine.new.machine.work.disk) (result ≡ Err disk_fault) }
{
    laws();
    if let Some(why) = abort_refusal(&machine.machine.work.session) {
        return Err(why);
    }
    if let Err(why) = put_back_all(machine) {
        return Err(why);
    }
    finish(machine)
}
