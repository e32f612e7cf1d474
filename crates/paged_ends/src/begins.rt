// A begin, which makes a sync first where too many ends of its session wait.
ghost use Rattle.std.specs.Prelude.{◌≡◌, ◌⊎◌, ◌↔◌, ◌≤◌, IfErr, IfOk, IsErr, Err, Some, true, false};
ghost use Rattle.map_model.specs.declared.call.Call.TheVariants as call;
ghost use Rattle.map_model.specs.declared.call.Refusal.{Refusal};
ghost use Rattle.paged_desks.specs.engine_trait.declared.unserved.Unserved.{Unserved};
ghost use Rattle.paged_desks.specs.engine_trait.Serving.{MayRefuse, broken, disk_fault};
ghost use Rattle.lean_disk.specs.Faults.{HasCause};
ghost use Rattle.row_ends.specs.Tests.{begin_test};
ghost use Rattle.paged_desks.specs.session_desks.Parts.{AreAsMany, MaySync, SeatFits, Works};
ghost use Rattle.paged_desks.specs.Calls.{CallDoes, EndsWork, works_behind};
ghost use Rattle.paged_desks.specs.Machines.{IsReady};
ghost use Rattle.paged_ends.specs.Ends.{KeepsFlushed, OnBegin, begin_answer};
ghost use Rattle.paged_ends.specs.Pieces.{HasBegun};

use crate::laws::laws;
use map_model::Refusal;
use paged_desks::{PagedMachine, Stages, Unanswered, Unserved};
use row_ends::{begin_refusal, begin_tested};

// The transaction of the session whose turn it is begins, unless a test refuses it.
fn begin_once<D: Stages>(machine: &mut PagedMachine<D>) -> Result<u64, Unserved>
    requires ready { Works machine.old.machine → IsReady D.story machine.old }
    ensures ready { Works machine.new.machine → IsReady D.story machine.new }
    ensures fits { SeatFits machine.old.machine → SeatFits machine.new.machine }
    ensures begun { IfOk result (HasBegun machine.old machine.new) }
    ensures refused { IfErr result (λ why. (begin_test machine.old.machine.work.session machine.old.machine.work.log ≡ Some why) × (machine.new ≡ machine.old)) }
    ensures works { machine.new.machine.work.session.works ≡ machine.old.machine.work.session.works }
{
    laws();
    if let Some(why) = begin_refusal(&machine.machine.work.session, &machine.machine.work.log) {
        return Err(why);
    }
    Ok(begin_tested(
        &mut machine.machine.rows,
        &mut machine.machine.seat,
        &mut machine.machine.work.session,
        &machine.machine.work.log,
    ))
}

// It begins where no sync is due, or it is refused before one.
fn begin_now<D: Stages>(machine: &mut PagedMachine<D>, is_long: bool) -> Result<u64, Unserved>
    requires ready { Works machine.old.machine → IsReady D.story machine.old }
    requires due { is_long ≡ true → Works machine.old.machine → machine.old.machine.work.session.is_open ≡ true }
    ensures ready { Works machine.new.machine → IsReady D.story machine.new }
    ensures fits { SeatFits machine.old.machine → SeatFits machine.new.machine }
    ensures does { Works machine.old.machine → CallDoes D.story (OnBegin machine.old.machine.work.session.own is_long) machine.old.machine.work.session.own call.Begin (begin_answer result) machine.old machine.new }
    ensures same { IsErr result → machine.new ≡ machine.old }
    ensures session { AreAsMany machine.old.machine machine.new.machine }
    ensures turn { machine.new.machine.work.session.own ≡ machine.old.machine.work.session.own }
    ensures works { machine.new.machine.work.session.works ≡ works_behind result }
    ensures come { IfErr result (λ why. MayRefuse 1 why ⊎ EndsWork why) }
    ensures flushed { Works machine.old.machine → KeepsFlushed machine.old machine.new }

    ensures cause_broken { (result ≡ Err broken) ↔ (machine.old.machine.work.session.works ≡ false) }
    ensures no_disk_fault { (machine.new.machine.work.disk ≡ machine.old.machine.work.disk) × (result ≡ Err disk_fault → ⊥) }
{
    laws();
    begin_once(machine)
}

// It begins behind a sync.
fn begin_synced<D: Stages>(machine: &mut PagedMachine<D>, is_long: bool) -> Result<u64, Unserved>
    requires ready { IsReady D.story machine.old }
    requires long { is_long ≡ true }
    requires closed { machine.old.machine.work.session.is_open ≡ false }
    requires may { MaySync machine.old.machine }
    ensures ready { Works machine.new.machine → IsReady D.story machine.new }
    ensures fits { SeatFits machine.new.machine }
    ensures does { CallDoes D.story (OnBegin machine.old.machine.work.session.own is_long) machine.old.machine.work.session.own call.Begin (begin_answer result) machine.old machine.new }
    ensures session { AreAsMany machine.old.machine machine.new.machine }
    ensures turn { Works machine.new.machine → machine.new.machine.work.session.own ≡ machine.old.machine.work.session.own }
    ensures works { machine.new.machine.work.session.works ≡ works_behind result }
    ensures come { IfErr result (λ why. MayRefuse 1 why ⊎ EndsWork why) }

    // What refuses a begin before its sync does not refuse it behind it.
    ensures no_early { (result ≡ Err (Unserved.Refused Refusal.InTransaction)) ⊎ (result ≡ Err (Unserved.Refused Refusal.RowSpent)) → ⊥ }
    ensures no_broken { result ≡ Err broken → ⊥ }
    ensures cause_disk_fault { HasCause (D.faults machine.old.machine.work.disk) (D.faults machine.new.machine.work.disk) (result ≡ Err disk_fault) }
{
    laws();
    // The log is in its ranges.
    machine.machine.work.log.last();
    if let Err(_) = machine.sync() {
        return Err(Unserved::Unanswered(Unanswered::DiskFault));
    }
    begin_once(machine)
}

/// The transaction of the session whose turn it is begins, behind a sync if so many of its ends wait that one is due. The answer is its number.
pub fn begin<D: Stages>(machine: &mut PagedMachine<D>, is_long: bool) -> Result<u64, Unserved>
    requires ready { Works machine.old.machine → IsReady D.story machine.old }
    ensures ready { Works machine.new.machine → IsReady D.story machine.new }
    ensures fits { SeatFits machine.old.machine → SeatFits machine.new.machine }
    ensures does { Works machine.old.machine → CallDoes D.story (OnBegin machine.old.machine.work.session.own is_long) machine.old.machine.work.session.own call.Begin (begin_answer result) machine.old machine.new }
    ensures same { IsErr result → (is_long ≡ false) ⊎ ((result ≡ Err broken) ⊎ ((result ≡ Err (Unserved.Refused Refusal.InTransaction)) ⊎ (result ≡ Err (Unserved.Refused Refusal.RowSpent)))) → machine.new ≡ machine.old }
    ensures session { AreAsMany machine.old.machine machine.new.machine }
    ensures turn { Works machine.new.machine → machine.new.machine.work.session.own ≡ machine.old.machine.work.session.own }
    ensures works { machine.new.machine.work.session.works ≡ works_behind result }
    ensures come { IfErr result (λ why. MayRefuse 1 why ⊎ EndsWork why) }
    // Where no sync is due no commit becomes durable by it.
    ensures flushed { is_long ≡ false → Works machine.old.machine → KeepsFlushed machine.old machine.new }

    ensures cause_broken { (result ≡ Err broken) ↔ (machine.old.machine.work.session.works ≡ false) }
    ensures cause_disk_fault { HasCause (D.faults machine.old.machine.work.disk) (D.faults machine.new.machine.work.disk) (result ≡ Err disk_fault) }
{
    laws();
    if !machine.machine.work.session.works || !is_long || machine.machine.work.session.is_open {
        return begin_now(machine, is_long);
    }
    if !machine.machine.may_sync() {
        return Err(Unserved::Refused(Refusal::RowSpent));
    }
    begin_synced(machine, is_long)
}
