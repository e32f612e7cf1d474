// The calls of sessions, each by what its machine does.
ghost use Rattle.std.specs.Prelude.{◌≡◌, ◌<◌, ◌≤◌, None, true};
ghost use Rattle.map_model.specs.declared.call.Call.{Call};
ghost use Rattle.map_model.specs.declared.call.Call.TheVariants as call;
ghost use Rattle.paged_scans.specs.session_desks.Parts.{Works};
ghost use Rattle.paged_scans.specs.paged_desks.Calls.{CallDoes, OnLine};
ghost use Rattle.paged_scans.specs.paged_desks.Machines.{IsReady};
ghost use Rattle.paged_ends.specs.Ends.{OnBegin};
ghost use Rattle.paged_scans.specs.Calls.{IsIn, StandsAt};
ghost use Rattle.buffered_engine.specs.Inside.Asks.{IsDue, IsRowCall};
ghost use Rattle.buffered_engine.specs.Inside.Scans.{scan_behind};
ghost use Rattle.buffered_engine.specs.Inside.Parts.{IsTurned, MachineWent};

use crate::ends::Response;
use map_model::Call;
use paged_scans::{PagedMachine, Scan, Stages, scan_on};

/// The turn goes to this session.
#[inline(always)]
pub(crate) fn turn_to<D: Stages>(machine: &mut PagedMachine<D>, session: u32)
    requires session { (0 < session) × (session ≤ machine.old.machine.work.session.workers) }
    requires ready { IsReady D.story machine.old }
    ensures ready { IsReady D.story machine.new }
    ensures turned { IsTurned session machine.old machine.new }
{
    machine.machine.turn_to(session);
}

/// All logs are synced, unless an abort is half done.
pub(crate) fn sync<D: Stages>(machine: &mut PagedMachine<D>) -> Response
    requires ready { IsReady D.story machine.old }
    ensures { MachineWent D.story D.faults OnLine 1 0 call.Sync result machine.old machine.new }
{
    Response::synced(paged_ends::sync(machine))
}

/// The transaction of the session whose turn it is begins, behind a sync if so many of its ends wait that one is due.
pub(crate) fn begin<D: Stages>(machine: &mut PagedMachine<D>, is_long: bool) -> Response
    requires ready { IsReady D.story machine.old }
    ensures went { MachineWent D.story D.faults (OnBegin machine.old.machine.work.session.own is_long) 1 machine.old.machine.work.session.own call.Begin result machine.old machine.new }
    ensures turn { Works machine.new.machine → machine.new.machine.work.session.own ≡ machine.old.machine.work.session.own }
{
    Response::begun(paged_ends::begin(machine, is_long))
}

/// What the session whose turn it is asks; it is no begin, no scan, no abort and no sync.
pub(crate) fn row_call<D: Stages>(machine: &mut PagedMachine<D>, call: &Call) -> Response
    requires call { IsRowCall call.now }
    requires ready { IsReady D.story machine.old }
    ensures went { MachineWent D.story D.faults OnLine machine.old.machine.work.session.workers machine.old.machine.work.session.own call.now result machine.old machine.new }
    ensures turn { Works machine.new.machine → machine.new.machine.work.session.own ≡ machine.old.machine.work.session.own }
{
    let own = machine.machine.work.session.own;
    match *call {
        Call::Get { key } => Response::value(paged_scans::get(machine, key)),
        Call::Put { key, value } => Response::was(paged_scans::put(machine, key, value)),
        Call::Del { key } => Response::was(paged_scans::del(machine, key)),
        _ => Response::committed(own, paged_ends::commit(machine)),
    }
}

/// The next step of a scan of the session whose turn it is.
pub(crate) fn scan_step<D: Stages>(machine: &mut PagedMachine<D>, scan: &mut Scan) -> Response
    requires ready { IsReady D.story machine.old }
    requires within { IsIn scan.old }
    ensures went { MachineWent D.story D.faults (StandsAt machine.old.machine.work.session.own scan.old) machine.old.machine.work.session.workers machine.old.machine.work.session.own (call.Scan scan.old.from scan.old.to) result machine.old machine.new }
    ensures none { result.receipt ≡ None }
    ensures behind { (scan.new ≡ scan_behind result.answer scan.old) × IsIn scan.new }
    ensures turn { Works machine.new.machine → machine.new.machine.work.session.own ≡ machine.old.machine.work.session.own }
{
    Response::stepped(scan_on(machine, scan))
}

/// The session whose turn it is aborts its transaction: its line asks it, or a call of it met a conflict.
pub(crate) fn abort<D: Stages>(machine: &mut PagedMachine<D>) -> Response
    requires ready { IsReady D.story machine.old }
    ensures went { MachineWent D.story D.faults OnLine 1 machine.old.machine.work.session.own call.Abort result machine.old machine.new }
    ensures due { machine.old.machine.work.session.is_open ≡ true → (c : Call) → CallDoes D.story (IsDue machine.old.machine.work.session.own c) machine.old.machine.work.session.own c result.answer machine.old machine.new }
    ensures turn { Works machine.new.machine → machine.new.machine.work.session.own ≡ machine.old.machine.work.session.own }
{
    let own = machine.machine.work.session.own;
    Response::aborted(own, paged_aborts::abort(machine))
}
