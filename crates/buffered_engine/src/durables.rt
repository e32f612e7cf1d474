// Which commits are durable, and what is done between calls.
ghost use Rattle.std.specs.Prelude.{◌≡◌, ◌↔◌, ◌≤◌, ◌<◌, IsErr, IfOk, List, Some, true, false};
ghost use Rattle.map_model.specs.Journals.{Name};
ghost use Rattle.page_model.specs.Limits.{most_sessions};
ghost use Rattle.paged_scans.specs.core_state.Openings.{Opening};
ghost use Rattle.paged_scans.specs.core_calls.Fronts.{Done};
ghost use Rattle.paged_scans.specs.engine_trait.Calls.{is_half_done};
ghost use Rattle.engine_front.specs.Turns.{behind_durables};
ghost use Rattle.buffered_engine.specs.Calls.{DurableDoes};
ghost use Rattle.paged_scans.specs.session_desks.Desks.{desk_of, place_of};
ghost use Rattle.buffered_engine.specs.Inside.Asks.{AreNumbers};
ghost use Rattle.buffered_engine.specs.Inside.Calm.{AreStill, IsStill};
ghost use Rattle.paged_scans.specs.session_desks.Parts.{IsSeated, here, logs};
ghost use Rattle.buffered_engine.specs.Receipts.{IsRipeness};
ghost use Rattle.buffered_engine.specs.States.{InRun, memory_in};

use crate::engine::Engine;
use engine_front::calls::{Durable, Next};
use group_commit::{LOGS, Receipt, Ripeness, ripe};
use lean_disk::Disk;
use paged_scans::Machine;

/// An earlier call met a fault of the disk. Nothing is answered any more.
#[derive(Clone, Copy, Debug, PartialEq, Eq)]
pub struct Broken;

// What comes behind the durable lines.
fn behind(next: Next) -> Next
    ensures { result ≡ behind_durables next }
{
    match next {
        Next::Durables => Next::Line,
        next => next,
    }
}

// Where the desk of a session stands that has not the turn.
fn place_of(turn: u32, session: u32) -> usize
    requires session { 0 < session }
    requires turn { 0 < turn }
    requires apart { session ≡ turn → ⊥ }
    ensures { result ≡ place_of turn session }
{
    let at = if session == 1 { turn } else { session };
    at as usize - 2
}

// The number up to which the log of a session is flushed.
fn flushed_of<D>(machine: &Machine<D>, session: u32) -> u64
    requires session { (0 < session) × (session ≤ machine.now.work.session.workers) }
    requires seated { IsSeated machine.now }
    ensures { result ≡ (logs machine.now session).flushed }
{
    let turn = machine.work.session.own;
    if session == turn {
        return machine.work.log.flushed();
    }
    machine.desks[place_of(turn, session)].log.flushed()
}

// The number up to which each log is flushed.
fn flushed_numbers<D>(machine: &Machine<D>) -> [u64; LOGS]
    requires seated { IsSeated machine.now }
    requires few { machine.now.work.session.workers ≤ most_sessions }
    ensures { AreNumbers machine.now.work.session.workers (logs machine.now) result }
{
    let mut numbers = [0; LOGS];
    for session in 1..machine.work.session.workers + 1 {
        numbers[session as usize - 1] = flushed_of(machine, session);
    }
    numbers
}

// Whether an abort of a session is half done.
fn is_half<D>(machine: &Machine<D>, session: u32) -> bool
    requires session { (0 < session) × (session ≤ machine.now.work.session.workers) }
    requires seated { IsSeated machine.now }
    ensures { result ≡ (desk_of (here machine.now) machine.now.desks.items session).session.is_half_aborted }
{
    let turn = machine.work.session.own;
    if session == turn {
        return machine.work.session.is_half_aborted;
    }
    machine.desks[place_of(turn, session)]
        .session
        .is_half_aborted
}

// Whether the logs are flushed up to these numbers.
fn are_flushed_to<D>(machine: &Machine<D>, numbers: &[u64; LOGS]) -> bool
    requires seated { IsSeated machine.now }
    requires few { machine.now.work.session.workers ≤ most_sessions }
    ensures { result ≡ true → AreStill machine.now.work.session.workers (logs machine.now) numbers.now }
{
    for session in 1..machine.work.session.workers + 1 {
        if numbers[session as usize - 1] != flushed_of(machine, session) {
            return false;
        }
    }
    true
}

// Whether it is known that no end is ripe, since the logs are flushed as they were when none was.
fn is_calm<D>(calm: &Option<[u64; LOGS]>, machine: &Machine<D>) -> bool
    requires seated { IsSeated machine.now }
    requires few { machine.now.work.session.workers ≤ most_sessions }
    ensures { result ≡ true → IsStill calm.now machine.now.work.session.workers (logs machine.now) }
{
    match calm {
        Some(numbers) => are_flushed_to(machine, numbers),
        None => false,
    }
}

impl<D: Disk> Engine<D> {
    // Whether no device has failed.
    pub(crate) fn is_working(&self) -> Result<(), Broken>
        ensures cause { IsErr result ↔ (self.now.works ≡ false) }
    {
        if self.machine.machine.work.session.works {
            Ok(())
        } else {
            Err(Broken)
        }
    }

    /// Whether the commit with this receipt is durable, by what is flushed now.
    pub fn ripe(&self, receipt: &Receipt) -> Result<Ripeness, Broken>
        requires log { (0 < receipt.now.log) × (receipt.now.log ≤ self.now.sessions) }
        ensures ripeness { IfOk result (IsRipeness self.now receipt.now) }

        ensures cause { IsErr result ↔ (self.now.works ≡ false) }
    {
        self.is_working()?;
        let numbers = flushed_numbers(&self.machine.machine);
        Ok(ripe(
            &numbers[..self.machine.machine.work.session.workers as usize],
            receipt,
        ))
    }

    // The commit that has become durable, as a take by these numbers finds it.
    #[inline(never)]
    fn take_durable(&mut self, numbers: [u64; LOGS]) -> Option<Durable>
        requires works { self.old.works ≡ true }
        requires numbers { AreNumbers self.old.sessions (memory_in self.old).log numbers }
        ensures { DurableDoes result self.old self.new }
    {
        group_commit::every_take();
        match self.unripe.take(&numbers[..self.machine.machine.work.session.workers as usize]) {
            Some(receipt) => {
                self.calm = None;
                Some(Durable {
                    session: receipt.log,
                    number: receipt.txn,
                })
            }
            None => {
                self.calm = Some(numbers);
                self.next = behind(self.next);
                None
            }
        }
    }

    /// The commit that has become durable and was not told yet, if there is one: the first in order of commit numbers, ties by session.
    pub fn next_durable(&mut self) -> Option<Durable>
        requires works { self.old.works ≡ true }
        ensures { DurableDoes result self.old self.new }
    {
        if !is_calm(&self.calm, &self.machine.machine) {
            let numbers = flushed_numbers(&self.machine.machine);
            return self.take_durable(numbers);
        }
        // So it is behind most lines: nothing was flushed since none was ripe.
        group_commit::every_take();
        self.next = behind(self.next);
        None
    }

    /// Whether an abort of a session is half done, so that only an abort may come next: it put a change of the session's transaction back, which has not
    /// ended since.
    pub fn half_done(&self, session: u32) -> Result<bool, Broken>
        requires session { (0 < session) × (session ≤ self.now.sessions) }
        ensures is_half_aborted { IfOk result (λ is_half_aborted. (g : Opening) (xs : List Done) (names : List Name) → InRun self.now g xs names → is_half_aborted ≡ is_half_done session xs) }

        ensures cause { IsErr result ↔ (self.now.works ≡ false) }
    {
        self.is_working()?;
        Ok(is_half(&self.machine.machine, session))
    }

    /// What may be asked next.
    pub fn expects(&self) -> Next
        ensures { result ≡ self.now.next }
    {
        self.next
    }

    /// How many sessions there are.
    pub fn sessions(&self) -> u32
        ensures { result ≡ self.now.sessions }
    {
        self.machine.machine.work.session.workers
    }

    /// The step of a checkpoint, where one is due. This engine makes no checkpoints yet, so none ever is, and nothing is done.
    pub fn tend(&mut self) -> Result<(), Broken>
        ensures same { self.new ≡ self.old }

        ensures cause { IsErr result ↔ (self.old.works ≡ false) }
    {
        self.is_working()
    }
}
