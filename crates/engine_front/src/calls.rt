//! The calls of an engine.
ghost use Rattle.std.specs.Prelude.{◌≡◌, ◌↔◌, ◌≤◌, ◌<◌, ◌^◌, ℕ, Bool, true, false, List, ◌∷◌, IfOk, IfErr, IfSome, IsErr, Err, MatchOption, Some};
ghost use Rattle.call_parts.specs.core_state.Openings.{Opening};
ghost use Rattle.call_parts.specs.core_calls.Deeds.{asked};
ghost use Rattle.call_parts.specs.core_calls.Fronts.{Done, front};
ghost use Rattle.call_parts.specs.core_calls.Runs.{EachTells};
ghost use Rattle.call_parts.specs.core_calls.Steps.{hindered_in};
ghost use Rattle.lean_disk.specs.Faults.{HasCause};
ghost use Rattle.lean_disk.specs.Calls.{Noted};
ghost use Rattle.lean_disk.specs.Story.{IsLawful};
ghost use Rattle.lean_edge.specs.Outside.{IsWholeLine, Puts};
ghost use Rattle.map_model.specs.Journals.{Name};
ghost use Rattle.map_model.specs.Pairings.{is_last};
ghost use Rattle.map_model.specs.declared.call.Call.{Call};
ghost use Rattle.call_parts.specs.engine_trait.Calls.{HasCome, IsAsked};
ghost use Rattle.call_parts.specs.engine_trait.declared.unserved.Unanswered.{Unanswered};
ghost use Rattle.call_parts.specs.engine_trait.Limits.{limits};
ghost use Rattle.call_parts.specs.Deeds.{Does, Fails};
ghost use Rattle.call_parts.specs.Memory.{Memory};
ghost use Rattle.engine_front.specs.Fronts.{events_in};
ghost use Rattle.engine_front.specs.Stops.{StandsNot, StopsBy};
ghost use Rattle.engine_front.specs.Turns.{IsNext, IsTaken, behind_answer, behind_durables, told_with};

use crate::Front;
pub use call_parts::Unanswered;
use lean_disk::Disk;
use lean_edge::{Put, Sink};
use map_model::{Answer, Call};

/// What may be asked of an engine next.
#[derive(Clone, Copy, Debug, PartialEq, Eq)]
pub enum Next {
    /// What a line asks.
    Line,
    /// Which commits have become durable, behind the last answer to a line. Behind these comes a line.
    Durables,
    /// What follows a pair of a scan.
    Scan,
    /// The abort of a call that met a conflict.
    Abort,
}

/// A commit that has become durable: its session and the number of the transaction.
#[derive(Clone, Copy, Debug, PartialEq, Eq)]
pub struct Durable {
    pub session: u32,
    pub number: u64,
}

/// An engine of several sessions, numbered from 1, that owns its disk. It stands in a run of the core: these outcomes are told by their events.
pub trait Calls<D: Disk> {
    ghost use Rattle.engine_front.specs.declared.calls.Next.{Next};

    // It stands in this run from an opening, of outcomes the newest first, where these commits were told durable.
    ghost in_run: { Self → Opening → List Done → List Name → Type 0 };

    // How many sessions there are, and how many commits of one are flushed at once.
    ghost sessions: { Self → ℕ };

    ghost group: { Self → ℕ };

    // What it has in memory of its disk.
    ghost memory: { Self → Memory };

    // What may be asked next.
    ghost next: { Self → Next };

    // How many ends it remembers, of which each that is told durable is one less.
    ghost waiting: { Self → ℕ };

    // How many pairs the scan that goes on may still tell.
    ghost pairs_left: { Self → ℕ };

    // No device has failed, and no page was damaged.
    ghost works: { Self → Bool };

    // Its disk.
    ghost disk: { Self → D };

    /// Whatever run it stands in, its outcomes are told, and they say what may be asked next. What its disk tells is lawful.
    fn told(&self)
        ensures told { (g : Opening) (xs : List Done) (names : List Name) → in_run self.now g xs names → EachTells limits g (group self.now) xs × IsNext (next self.now) xs }
        // Each session is a worker.
        ensures workers { (g : Opening) (xs : List Done) (names : List Name) → in_run self.now g xs names → g.workers ≡ sessions self.now }
        ensures lawful { IsLawful (D.story (disk self.now)) };

    /// What it has done: the events of the outcomes, whatever run it stands in.
    fn front(&self) -> Front
        ensures { (g : Opening) (xs : List Done) (names : List Name) → in_run self.now g xs names → events_in result.view ≡ front xs };

    /// How many sessions there are.
    fn session_count(&self) -> u32
        ensures count { result ≡ sessions self.now }
        ensures few { result ≤ 16 };

    /// What a line of a session asks; for a sync the session is 0.
    fn call(&mut self, session: u32, call: &Call) -> Result<Answer, Unanswered>
        requires asked { IsAsked (sessions self.old) session call.now }
        requires next { next self.old ≡ Next.Line }
        ensures does { IfOk result (λ a. (g : Opening) (xs : List Done) (names : List Name) → in_run self.old g xs names
            → (d : Does g (group self.old) xs session call.now a (memory self.old) (memory self.new) (D.story (disk self.old)) (D.story (disk self.new))) × in_run self.new g (d.done ∷ xs) names) }
        ensures come { IfOk result (HasCome (sessions self.old)) }
        ensures next { IfOk result (λ a. next self.new ≡ behind_answer a) }
        ensures stops { IfErr result (λ why. (g : Opening) (xs : List Done) (names : List Name) → in_run self.old g xs names
            → StopsBy why (Fails g (group self.old) xs session call.now (memory self.old) (D.story (disk self.old)) (D.story (disk self.new))) (StandsNot g (group self.old) xs (memory self.old) (D.story (disk self.old)))) }
        ensures works { works self.new ≡ true ↔ (IsErr result → ⊥) }
        ensures sizes { (sessions self.new ≡ sessions self.old) × (group self.new ≡ group self.old) }
        ensures same { result ≡ Err Unanswered.Broken → self.new ≡ self.old }

        ensures cause_broken { (result ≡ Err Unanswered.Broken) ↔ (works self.old ≡ false) }
        ensures cause_disk_fault { HasCause (D.faults (disk self.old)) (D.faults (disk self.new)) (result ≡ Err Unanswered.DiskFault) };

    /// Aborts the transaction whose call met a conflict.
    fn abort_hindered(&mut self) -> Result<Answer, Unanswered>
        requires next { next self.old ≡ Next.Abort }
        ensures does { IfOk result (λ a. (g : Opening) (y : Done) (earlier : List Done) (names : List Name) → in_run self.old g (y ∷ earlier) names → (c : Call) → hindered_in y.outcome.deed ≡ Some c
            → (d : Does g (group self.old) (y ∷ earlier) y.outcome.session c a (memory self.old) (memory self.new) (D.story (disk self.old)) (D.story (disk self.new))) × in_run self.new g (d.done ∷ y ∷ earlier) names) }
        ensures come { IfOk result (HasCome 1) }
        ensures last { IfOk result (λ a. is_last a ≡ true) }
        ensures next { IfOk result (λ a. next self.new ≡ behind_answer a) }
        ensures stops { IfErr result (λ why. (g : Opening) (y : Done) (earlier : List Done) (names : List Name) → in_run self.old g (y ∷ earlier) names → (c : Call) → hindered_in y.outcome.deed ≡ Some c
            → StopsBy why (Fails g (group self.old) (y ∷ earlier) y.outcome.session c (memory self.old) (D.story (disk self.old)) (D.story (disk self.new))) (StandsNot g (group self.old) (y ∷ earlier) (memory self.old) (D.story (disk self.old)))) }
        ensures works { works self.new ≡ true ↔ (IsErr result → ⊥) }
        ensures sizes { (sessions self.new ≡ sessions self.old) × (group self.new ≡ group self.old) }
        ensures same { result ≡ Err Unanswered.Broken → self.new ≡ self.old }

        ensures cause_broken { (result ≡ Err Unanswered.Broken) ↔ (works self.old ≡ false) }
        ensures cause_disk_fault { HasCause (D.faults (disk self.old)) (D.faults (disk self.new)) (result ≡ Err Unanswered.DiskFault) };

    /// What follows a pair of a scan: the next pair, where it stops, or that it is over.
    fn scan_on(&mut self) -> Result<Answer, Unanswered>
        requires next { next self.old ≡ Next.Scan }
        ensures does { IfOk result (λ a. (g : Opening) (y : Done) (earlier : List Done) (names : List Name) → in_run self.old g (y ∷ earlier) names
            → (d : Does g (group self.old) (y ∷ earlier) y.outcome.session (asked y.outcome.deed) a (memory self.old) (memory self.new) (D.story (disk self.old)) (D.story (disk self.new))) × in_run self.new g (d.done ∷ y ∷ earlier) names) }
        ensures come { IfOk result (HasCome (sessions self.old)) }
        ensures next { IfOk result (λ a. next self.new ≡ behind_answer a) }
        // So it ends.
        ensures fewer { IfOk result (λ a. next self.new ≡ Next.Scan → pairs_left self.new < pairs_left self.old) }
        ensures stops { IfErr result (λ why. (g : Opening) (y : Done) (earlier : List Done) (names : List Name) → in_run self.old g (y ∷ earlier) names
            → StopsBy why (Fails g (group self.old) (y ∷ earlier) y.outcome.session (asked y.outcome.deed) (memory self.old) (D.story (disk self.old)) (D.story (disk self.new))) (StandsNot g (group self.old) (y ∷ earlier) (memory self.old) (D.story (disk self.old)))) }
        ensures works { works self.new ≡ true ↔ (IsErr result → ⊥) }
        ensures sizes { (sessions self.new ≡ sessions self.old) × (group self.new ≡ group self.old) }
        ensures same { result ≡ Err Unanswered.Broken → self.new ≡ self.old }

        ensures cause_broken { (result ≡ Err Unanswered.Broken) ↔ (works self.old ≡ false) }
        ensures cause_disk_fault { HasCause (D.faults (disk self.old)) (D.faults (disk self.new)) (result ≡ Err Unanswered.DiskFault) };

    /// The commit that has become durable and was not told yet, if there is one: the first in order of commit numbers, ties by session. From
    /// then on it is told.
    fn next_durable(&mut self) -> Option<Durable>
        requires works { works self.old ≡ true }
        ensures taken { (g : Opening) (xs : List Done) (names : List Name) → in_run self.old g xs names → IsTaken g xs names result × in_run self.new g xs (told_with result names) }
        ensures next { MatchOption result (next self.new ≡ behind_durables (next self.old)) (λ d. next self.new ≡ next self.old) }
        ensures session { IfSome result (λ d. d.session < 2 ^ 32) }
        ensures fewer { IfSome result (λ d. waiting self.new < waiting self.old) }
        ensures same { (memory self.new ≡ memory self.old) × (works self.new ≡ works self.old) × (disk self.new ≡ disk self.old) }
        ensures sizes { (sessions self.new ≡ sessions self.old) × (group self.new ≡ group self.old) };

    /// Puts a line into a sink, which the engine's disk notes. Nothing else changes.
    fn put_line<K: Sink<D>>(&mut self, sink: &mut K, line: &[u8]) -> Put
        requires { IsWholeLine line.now }
        ensures put { Puts line.now result (K.held sink.old) (K.held sink.new) }
        ensures noted { result ≡ Put.Done → Noted (D.story (disk self.old)) (D.story (disk self.new)) }
        ensures not_noted { result ≡ Put.Failed → self.new ≡ self.old }
        ensures same { (memory self.new ≡ memory self.old) × (works self.new ≡ works self.old) × (D.faults (disk self.new) ≡ D.faults (disk self.old)) × (next self.new ≡ next self.old) }
        ensures sizes { (sessions self.new ≡ sessions self.old) × (group self.new ≡ group self.old) × (waiting self.new ≡ waiting self.old) × (pairs_left self.new ≡ pairs_left self.old) }
        ensures in_run { (g : Opening) (xs : List Done) (names : List Name) → in_run self.old g xs names → in_run self.new g xs names }

        ensures cause { HasCause (K.faults sink.old) (K.faults sink.new) (result ≡ Put.Failed) };

    /// Its disk. What it has in memory is let go.
    fn close(self) -> D
        ensures { result ≡ disk self };
}
