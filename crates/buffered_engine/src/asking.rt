// What a session asks of an engine, whatever it is.
ghost use Rattle.std.specs.Prelude.{◌≡◌, ◌<◌, ◌≤◌, Err, IfOk, IfSome, false, leb, length, true};
ghost use Rattle.map_model.specs.Pairings.{is_last};
ghost use Rattle.map_model.specs.declared.call.Call.TheVariants as calls;
ghost use Rattle.paged_scans.specs.engine_trait.declared.unserved.Unanswered.TheVariants as unanswered;
ghost use Rattle.page_model.specs.Limits.{waiting_ends};
ghost use Rattle.group_commit.specs.Queues.{queue_of};
ghost use Rattle.group_commit.specs.declared.queue.TheConstants.{ROOM};
ghost use Rattle.lean_disk.specs.Faults.{HasCause};
ghost use Rattle.paged_scans.specs.engine_trait.Calls.{IsAsked};
ghost use Rattle.engine_front.specs.declared.calls.Next.{Next};
ghost use Rattle.paged_scans.specs.session_desks.Parts.{Works};
ghost use Rattle.paged_scans.specs.paged_desks.Machines.{IsReady};
ghost use Rattle.paged_scans.specs.Calls.{IsIn};
ghost use Rattle.buffered_engine.specs.Calls.{Asked, AskedAbort, AskedScan, IsStep, IsTo, MayBe, TellsFewer};
ghost use Rattle.buffered_engine.specs.Inside.Asks.{IsEndOf, OnAsked, ends_line, next_behind, put_ends};
ghost use Rattle.buffered_engine.specs.Inside.Calm.{calm_behind};
ghost use Rattle.buffered_engine.specs.Inside.Parts.{MachineWent};
ghost use Rattle.buffered_engine.specs.Inside.Scans.{scan_behind, scan_of};

use crate::ends::Response;
use crate::engine::Engine;
use crate::machine::{abort, begin, row_call, scan_step, sync, turn_to};
use engine_front::calls::Next;
use group_commit::{LOGS, Receipt, Unripe};
use map_model::{Answer, Call, Refusal};
use page_model::limits::WAITING_ENDS;
use paged_scans::{PagedMachine, Scan, Stages, Unanswered};

// So many ends of the session wait that its begin makes a sync first.
fn is_long(unripe: &Unripe, session: u32, call: &Call) -> bool
    requires asked { IsAsked (length unripe.now) session call.now }
    ensures { call.now ≡ calls.Begin → result ≡ leb waiting_ends (length (queue_of unripe.now session)) }
{
    match call {
        Call::Begin => unripe.waiting(session) >= WAITING_ENDS,
        _ => false,
    }
}

// The end, if it is one, is put behind those of its session.
fn put_end(unripe: &mut Unripe, response: Response)
    requires log { IfSome response.receipt (λ r. (0 < r.log) × (r.log ≤ length unripe.old)) }
    requires room { IfSome response.receipt (λ r. length (queue_of unripe.old r.log) < ROOM) }
    ensures { unripe.new ≡ put_ends response.receipt response.answer unripe.old }
{
    if let Some(receipt) = response.receipt {
        let is_commit = matches!(response.answer, Ok(Answer::Committed { .. }));
        unripe.push(receipt, is_commit);
    }
}

// What may be asked next behind an answer. Where there is none, the engine works no longer.
fn next_behind(next: Next, answer: &Result<Answer, Unanswered>) -> Next
    ensures { result ≡ next_behind next answer.now }
{
    match answer {
        Ok(Answer::Pair { .. }) => Next::Scan,
        Ok(Answer::Refused(Refusal::Conflict { .. })) => Next::Abort,
        Ok(_) => Next::Durables,
        Err(_) => next,
    }
}

// Behind a call that ended something it is not known any more that no end is ripe.
#[inline(always)]
fn end_calm(calm: &mut Option<[u64; LOGS]>, receipt: &Option<Receipt>)
    ensures { calm.new ≡ calm_behind calm.old receipt.now }
{
    if receipt.is_some() {
        *calm = None;
    }
}

// What a session asks, or for 0 nobody does.
fn ask<D: Stages>(
    machine: &mut PagedMachine<D>,
    scan: &mut Scan,
    session: u32,
    call: &Call,
    is_long: bool,
) -> Response
    requires asked { IsAsked machine.old.machine.work.session.workers session call.now }
    requires ready { IsReady D.story machine.old }
    requires within { IsIn scan.old }
    ensures went { MachineWent D.story D.faults (OnAsked session call.now is_long) machine.old.machine.work.session.workers session call.now result machine.old machine.new }
    ensures scan { (scan.new ≡ scan_behind result.answer (scan_of call.now scan.old)) × IsIn scan.new }
    ensures turn { Works machine.new.machine → ends_line result.answer ≡ false → machine.new.machine.work.session.own ≡ session }
{
    match call {
        Call::Sync => sync(machine),
        Call::Begin => {
            turn_to(machine, session);
            begin(machine, is_long)
        }
        Call::Abort => {
            turn_to(machine, session);
            abort(machine)
        }
        Call::Scan { from, to } => {
            turn_to(machine, session);
            *scan = Scan::new(*from, *to);
            scan_step(machine, scan)
        }
        call => {
            turn_to(machine, session);
            row_call(machine, call)
        }
    }
}

impl<D: Stages> Engine<D> {
    /// What a session asks, or for 0 nobody does.
    pub(crate) fn ask(&mut self, session: u32, call: &Call) -> Response
        requires asked { IsAsked self.old.sessions session call.now }
        requires next { self.old.next ≡ Next.Line }
        ensures asked { Asked D.story session call.now result.answer self.old self.new }
        ensures to { IsTo call.now result.answer }
        ensures ends { self.old.works ≡ true → IsEndOf session self.old.view self.new.view result.answer result.receipt }

        ensures cause_disk_fault { HasCause (D.faults self.old.disk) (D.faults self.new.disk) (result.answer ≡ Err unanswered.DiskFault) }
    {
        if !self.machine.machine.work.session.works {
            return Response::only(Err(Unanswered::Broken));
        }
        paged_scans::every_reached();
        group_commit::every_outcome();
        paged_scans::every_rise();
        let is_long = is_long(&self.unripe, session, call);
        let response = ask(&mut self.machine, &mut self.scan, session, call, is_long);
        put_end(&mut self.unripe, response);
        end_calm(&mut self.calm, &response.receipt);
        self.next = next_behind(self.next, &response.answer);
        response
    }

    /// The transaction whose call met a conflict is aborted.
    pub(crate) fn ask_abort(&mut self) -> Result<Answer, Unanswered>
        requires next { self.old.next ≡ Next.Abort }
        ensures went { AskedAbort D.story result self.old self.new }
        ensures may { MayBe 1 result }
        ensures last { IfOk result (λ a. is_last a ≡ true) }

        ensures cause_disk_fault { HasCause (D.faults self.old.disk) (D.faults self.new.disk) (result ≡ Err unanswered.DiskFault) }
    {
        if !self.machine.machine.work.session.works {
            return Err(Unanswered::Broken);
        }
        paged_scans::every_reached();
        group_commit::every_outcome();
        paged_scans::every_rise();
        let response = abort(&mut self.machine);
        put_end(&mut self.unripe, response);
        end_calm(&mut self.calm, &response.receipt);
        self.next = next_behind(self.next, &response.answer);
        response.answer
    }

    /// What follows a pair of a scan.
    pub(crate) fn ask_scan(&mut self) -> Result<Answer, Unanswered>
        requires next { self.old.next ≡ Next.Scan }
        ensures went { AskedScan D.story result self.old self.new }
        ensures step { IsStep result }
        ensures fewer { self.new.works ≡ true → TellsFewer self.old self.new }

        ensures cause_disk_fault { HasCause (D.faults self.old.disk) (D.faults self.new.disk) (result ≡ Err unanswered.DiskFault) }
    {
        if !self.machine.machine.work.session.works {
            return Err(Unanswered::Broken);
        }
        paged_scans::every_reached();
        group_commit::every_outcome();
        paged_scans::every_rise();
        let response = scan_step(&mut self.machine, &mut self.scan);
        self.next = next_behind(self.next, &response.answer);
        response.answer
    }
}
