// A begin, and the tests of logs.
ghost use Rattle.std.specs.Prelude.{◌≡◌, ◌<◌, ◌^◌, ℕ, true, false, List, [], length, IsTrue, ◌↔◌, IfOk, IfErr, MatchResult, Option, Some, None, Err};
ghost use Rattle.core_state.specs.Openings.{Opening};
ghost use Rattle.core_state.specs.Events.{Event};
ghost use Rattle.transactions.specs.declared.hindrance.Refusal.TheVariants.{InTransaction};
ghost use Rattle.transactions.specs.Kinds.{in_any, in_flushes};
ghost use Rattle.transactions.specs.Memory.{memory_of, Knows};
ghost use Rattle.transactions.specs.Calls.{log_refusal, Declines, Begins, Starts, IsNoStep, IsBeginsFirst, MayBegin};

use crate::hindrance::Refusal;
use crate::places::Journal;
use crate::session::{CLOCK_END, Session};

/// Why a log takes no change, or its worker no number.
pub(crate) fn log_refusal<T: Journal>(place: &T, w: u32) -> Option<Refusal>
    ensures { result ≡ log_refusal (T.used place.now w) (T.limit place.now w) (T.clock_of place.now w) }
{
    if let Err(refusal) = place.room(w) {
        return Some(refusal);
    }
    if place.clock(w) >= CLOCK_END {
        return Some(Refusal::ClockSpent);
    }
    None
}

impl Session {
    /// A transaction begins. The answer is its number.
    pub fn begin<T: Journal>(&mut self, place: &mut T) -> Result<u64, Refusal>
        requires rows { T.rows place.old ≡ length self.old.held.items }
        ensures rows { (T.rows place.new ≡ length self.new.held.items) × (length self.new.held.items ≡ length self.old.held.items) }
        ensures does { (g : Opening) (es : List Event) → T.stands g es [] place.old → Knows g es (memory_of self.old)
            → MatchResult result
            (Begins T.stands T.leaves T.alone in_flushes T.cause g es place.old place.new (memory_of self.old) (memory_of self.new)
            (λ p. (log_refusal (T.used p self.old.session) (T.limit p self.old.session) (T.clock_of p self.old.session) ≡ None) × (T.is_due p self.old.session ≡ false)))
            (Declines T.stands T.leaves T.alone in_flushes T.cause g es place.old place.new (memory_of self.old) (memory_of self.new) IsNoStep (IsBeginsFirst self.old.session)) }
        ensures after { IfOk result (λ _. memory_of self.new ≡ record (memory_of self.old) { is_open = true; is_half = false; undo = [] }) }
        ensures same { IfErr result (λ _. self.new ≡ self.old) }

        ensures cause_in_transaction { (result ≡ Err InTransaction) ↔ (self.old.is_open ≡ true) }
        ensures cause { IfErr result (λ r. MayBegin r (log_refusal (T.used place.new self.old.session) (T.limit place.new self.old.session) (T.clock_of place.new self.old.session))) }
    {
        if self.is_open {
            return Err(Refusal::InTransaction);
        }
        match place.ready(self.session) {
            Ok(()) => self.begin_ready(place),
            Err(hindrance) => Err(Refusal::Hindered(hindrance)),
        }
    }

    // What was due is done.
    fn begin_ready<T: Journal>(&mut self, place: &mut T) -> Result<u64, Refusal>
        requires rows { T.rows place.old ≡ length self.old.held.items }
        requires closed { self.old.is_open ≡ false }
        ensures rows { (T.rows place.new ≡ length self.new.held.items) × (length self.new.held.items ≡ length self.old.held.items) }
        ensures does { (g : Opening) (es : List Event) → T.stands g es [] place.old → Knows g es (memory_of self.old)
            → MatchResult result
            (Starts T.stands T.leaves T.alone in_any T.cause g es place.old place.new (memory_of self.old) (memory_of self.new))
            (Declines T.stands T.leaves T.alone in_flushes T.cause g es place.old place.new (memory_of self.old) (memory_of self.new) IsNoStep (IsBeginsFirst self.old.session)) }
        ensures after { IfOk result (λ _. memory_of self.new ≡ record (memory_of self.old) { is_open = true; is_half = false; undo = [] }) }
        ensures same { IfErr result (λ _. self.new ≡ self.old) }
        ensures passes { IfOk result (λ _. log_refusal (T.used place.old self.old.session) (T.limit place.old self.old.session) (T.clock_of place.old self.old.session) ≡ None) }

        ensures cause_in_transaction { result ≡ Err InTransaction → ⊥ }
        ensures cause { IfErr result (λ r. MayBegin r (log_refusal (T.used place.new self.old.session) (T.limit place.new self.old.session) (T.clock_of place.new self.old.session))) }
    {
        if let Some(refusal) = log_refusal(place, self.session) {
            return Err(refusal);
        }
        match place.begin(self.session) {
            Ok(number) => {
                self.is_open = true;
                self.is_half = false;
                self.count = 0;
                Ok(number)
            }
            Err(hindrance) => Err(Refusal::Hindered(hindrance)),
        }
    }
}
