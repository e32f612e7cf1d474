// What a line is answered.
ghost use Rattle.std.specs.Prelude.{◌≡◌, IfOk, true};
ghost use Rattle.map_model.specs.Pairings.{is_last};
ghost use Rattle.paged_scans.specs.engine_trait.Calls.{IsAsked};
ghost use Rattle.engine_front.specs.declared.calls.Next.{Next};
ghost use Rattle.buffered_engine.specs.Calls.{DurableDoes, HinderedDoes, LineDoes, ScanDoes, TellsFewer};

use crate::engine::{Engine, disk_of};
use engine_front::calls::{Calls, Durable};
use engine_front::{Front, seen};
use lean_disk::MemDisk;
use lean_edge::{Put, Sink};
use map_model::{Answer, Call};
use paged_scans::{Stages, Unanswered};
use std::marker::Brand;

impl<D: Stages> Engine<D> {
    /// What a line of a session asks; for a sync the session is 0.
    pub fn answer(&mut self, session: u32, call: &Call) -> Result<Answer, Unanswered>
        requires asked { IsAsked self.old.sessions session call.now }
        requires next { self.old.next ≡ Next.Line }
        ensures { LineDoes D.story D.faults session call.now result self.old self.new }
    {
        self.ask(session, call).answer
    }

    /// The abort of a call that met a conflict.
    pub fn answer_abort(&mut self) -> Result<Answer, Unanswered>
        requires next { self.old.next ≡ Next.Abort }
        ensures does { HinderedDoes D.story D.faults result self.old self.new }
        ensures last { IfOk result (λ a. is_last a ≡ true) }
    {
        self.ask_abort()
    }

    /// What follows a pair of a scan.
    pub fn answer_scan(&mut self) -> Result<Answer, Unanswered>
        requires next { self.old.next ≡ Next.Scan }
        ensures does { ScanDoes D.story D.faults result self.old self.new }
        // So a scan ends.
        ensures fewer { IfOk result (λ a. TellsFewer self.old self.new) }
    {
        self.ask_scan()
    }
}

/// A disk on which an engine runs. Each disk writes its methods as `engine.answer(session, call)`, `engine.answer_abort()`, `engine.answer_scan()` and
/// `engine.next_durable()`: the method of an impl may not call what is generic over its disk.
pub trait Hosts: Stages {
    /// What a line of a session asks; for a sync the session is 0.
    fn answer_on(engine: &mut Engine<Self>, session: u32, call: &Call) -> Result<Answer, Unanswered>
        requires asked { IsAsked engine.old.sessions session call.now }
        requires next { engine.old.next ≡ Next.Line }
        ensures { LineDoes Self.story Self.faults session call.now result engine.old engine.new };

    /// The abort of a call that met a conflict.
    fn abort_on(engine: &mut Engine<Self>) -> Result<Answer, Unanswered>
        requires next { engine.old.next ≡ Next.Abort }
        ensures does { HinderedDoes Self.story Self.faults result engine.old engine.new }
        ensures last { IfOk result (λ a. is_last a ≡ true) };

    /// What follows a pair of a scan.
    fn scan_on(engine: &mut Engine<Self>) -> Result<Answer, Unanswered>
        requires next { engine.old.next ≡ Next.Scan }
        ensures does { ScanDoes Self.story Self.faults result engine.old engine.new }
        ensures fewer { IfOk result (λ a. TellsFewer engine.old engine.new) };

    /// The commit that has become durable and was not told yet, if there is one.
    fn durable_on(engine: &mut Engine<Self>) -> Option<Durable>
        requires works { engine.old.works ≡ true }
        ensures { DurableDoes result engine.old engine.new };
}

impl Hosts for MemDisk {
    fn durable_on(engine: &mut Engine<MemDisk>) -> Option<Durable> {
        engine.next_durable()
    }

    fn answer_on(
        engine: &mut Engine<MemDisk>,
        session: u32,
        call: &Call,
    ) -> Result<Answer, Unanswered> {
        engine.answer(session, call)
    }

    fn abort_on(engine: &mut Engine<MemDisk>) -> Result<Answer, Unanswered> {
        engine.answer_abort()
    }

    fn scan_on(engine: &mut Engine<MemDisk>) -> Result<Answer, Unanswered> {
        engine.answer_scan()
    }
}

impl<D: Hosts> Calls<D> for Engine<D> {
    ghost use Rattle.group_commit.specs.Queues.{queued};
    ghost use Rattle.buffered_engine.specs.States.{InRun, memory_in, pairs_left};

    ghost in_run = { λ e g xs names. InRun e g xs names };

    ghost sessions = { λ e. e.sessions };

    ghost group = { λ e. e.group };

    ghost memory = { λ e. memory_in e };

    ghost waiting = { λ e. queued e.ends };

    ghost pairs_left = { λ e. pairs_left e.scan };

    ghost next = { λ e. e.next };

    ghost works = { λ e. e.works };

    ghost disk = { λ e. e.disk };

    fn told(&self) {}

    fn front(&self) -> Front {
        seen::<Brand>(&self.machine.machine.seat)
    }

    fn session_count(&self) -> u32 {
        self.machine.machine.work.session.workers
    }

    fn call(&mut self, session: u32, call: &Call) -> Result<Answer, Unanswered> {
        D::answer_on(self, session, call)
    }

    fn abort_hindered(&mut self) -> Result<Answer, Unanswered> {
        D::abort_on(self)
    }

    fn scan_on(&mut self) -> Result<Answer, Unanswered> {
        D::scan_on(self)
    }

    fn next_durable(&mut self) -> Option<Durable> {
        D::durable_on(self)
    }

    fn put_line<K: Sink<D>>(&mut self, sink: &mut K, line: &[u8]) -> Put {
        sink.put(&mut self.machine.machine.work.disk, line)
    }

    fn close(self) -> D {
        let Engine {
            machine,
            unripe: _,
            next: _,
            scan: _,
            calm: _,
        } = self;
        disk_of(machine)
    }
}
