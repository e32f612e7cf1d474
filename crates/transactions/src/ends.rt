// Commits and aborts.
ghost use Rattle.std.specs.Prelude.{◌≡◌, ◌⊎◌, ◌<◌, ◌≤◌, ◌^◌, ◌∷◌, ◌++◌, ◌+◌, ℕ, Bool, true, false, List, [], length, IfOk, IfErr, MatchResult, MatchOption, Option, Some, None, Err, if◌then◌else◌};
ghost use Rattle.core_state.specs.Openings.{Opening};
ghost use Rattle.core_state.specs.Events.{Event};
ghost use Rattle.transactions.specs.declared.hindrance.Refusal.TheVariants.{NoTransaction};
ghost use Rattle.core_state.specs.Steps.{state_after};
ghost use Rattle.transactions.specs.Paths.{Idles, Hindered, Breaks};
ghost use Rattle.transactions.specs.Kinds.{in_any, in_flushes};
ghost use Rattle.transactions.specs.Memory.{memory_of, Ties, Knows, has_row, held_rows};
ghost use Rattle.transactions.specs.Calls.{closed_refusal, IsEnded, Declines, Refused, Ends, Commits, Aborts, Halves, Backs, Unlocked, IsNoStep, IsCommitsFirst, IsEndsFirst, IsBacksFirst, AreBacksFirst, IsAbortsFirst, IsHindrance};

use crate::hindrance::{Hindrance, Receipt, Refusal};
use crate::places::{Index, Journal, Locks};
use crate::session::Session;

impl Session {
    /// The transaction is committed, and its log is flushed if a group waits for that.
    pub fn commit<T: Locks + Journal>(&mut self, place: &mut T) -> Result<Receipt, Refusal>
        requires rows { T.rows place.old ≡ length self.old.held.items }
        ensures rows { (T.rows place.new ≡ length self.new.held.items) × (length self.new.held.items ≡ length self.old.held.items) }
        ensures does { (g : Opening) (es : List Event) → T.stands g es [] place.old → Knows g es (memory_of self.old)
            → MatchResult result
            (Commits T.stands T.leaves T.alone in_flushes T.cause g es place.old place.new (memory_of self.old) (memory_of self.new) (λ s. T.group_waits place.new s self.old.session))
            (Declines T.stands T.leaves T.alone in_flushes T.cause g es place.old place.new (memory_of self.old) (memory_of self.new) IsNoStep (IsCommitsFirst (memory_of self.old))) }
        ensures after { IfOk result (λ _. IsEnded (memory_of self.old) (memory_of self.new)) }
        ensures same { IfErr result (λ _. (self.new ≡ self.old) ⊎ (IsEnded (memory_of self.old) (memory_of self.new))) }

        ensures tested { MatchOption (closed_refusal (memory_of self.old)) (IfErr result IsHindrance) (λ r. (result ≡ Err r) × (self.new ≡ self.old) × (place.new ≡ place.old)) }
    {
        if let Some(refusal) = self.closed_refusal() {
            return Err(refusal);
        }
        match self.finish(place, true) {
            Ok(receipt) => match place.flush_group(self.session) {
                Ok(()) => Ok(receipt),
                Err(hindrance) => Err(Refusal::Hindered(hindrance)),
            },
            Err(hindrance) => Err(Refusal::Hindered(hindrance)),
        }
    }

    // The transaction ends, with nothing left to put back if it is aborted.
    fn finish<T: Locks + Journal>(
        &mut self,
        place: &mut T,
        commit: bool,
    ) -> Result<Receipt, Hindrance>
        requires rows { T.rows place.old ≡ length self.old.held.items }
        requires open { self.old.is_open ≡ true }
        requires back { commit ≡ false → self.old.count ≡ 0 }
        ensures rows { (T.rows place.new ≡ length self.new.held.items) × (length self.new.held.items ≡ length self.old.held.items) }
        ensures does { (g : Opening) (es : List Event) → T.stands g es [] place.old → Knows g es (memory_of self.old)
            → MatchResult result
            (λ receipt. Ends T.stands T.leaves T.alone in_any T.cause g es place.old place.new (memory_of self.old) (memory_of self.new) commit receipt [])
            (Refused T.stands T.leaves T.alone in_any T.cause g es place.old place.new (memory_of self.old) (memory_of self.new) IsNoStep (IsEndsFirst self.old.session commit)) }
        ensures after { IfOk result (λ _. IsEnded (memory_of self.old) (memory_of self.new)) }
        ensures same { IfErr result (λ _. self.new ≡ self.old) }
    {
        match self.latch_rows(place) {
            Ok(()) => self.end_latched(place, commit),
            Err(hindrance) => Err(hindrance),
        }
    }

    // All its rows are latched.
    fn end_latched<T: Locks + Journal>(
        &mut self,
        place: &mut T,
        commit: bool,
    ) -> Result<Receipt, Hindrance>
        requires rows { T.rows place.old ≡ length self.old.held.items }
        requires open { self.old.is_open ≡ true }
        requires back { commit ≡ false → self.old.count ≡ 0 }
        ensures rows { (T.rows place.new ≡ length self.new.held.items) × (length self.new.held.items ≡ length self.old.held.items) }
        ensures does { (g : Opening) (es : List Event) → T.stands g es (held_rows (memory_of self.old).held (length self.old.held.items)) place.old → Knows g es (memory_of self.old)
            → MatchResult result
            (λ receipt. Ends T.stands T.leaves T.alone in_any T.cause g es place.old place.new (memory_of self.old) (memory_of self.new) commit receipt [])
            (Refused T.stands T.leaves T.alone in_any T.cause g es place.old place.new (memory_of self.old) (memory_of self.new) IsNoStep (IsEndsFirst self.old.session commit)) }
        ensures after { IfOk result (λ _. IsEnded (memory_of self.old) (memory_of self.new)) }
        ensures same { IfErr result (λ _. self.new ≡ self.old) }
    {
        match place.end(self.session, commit) {
            Ok(receipt) => {
                self.is_open = false;
                self.is_half = false;
                self.count = 0;
                self.unlock_rows(place);
                Ok(receipt)
            }
            Err(hindrance) => Err(hindrance),
        }
    }

    /// The changes are put back, the newest first, and the transaction ends. The answer is its number.
    pub fn abort<T: Index + Locks + Journal>(&mut self, place: &mut T) -> Result<u64, Refusal>
        requires rows { T.rows place.old ≡ length self.old.held.items }
        ensures rows { (T.rows place.new ≡ length self.new.held.items) × (length self.new.held.items ≡ length self.old.held.items) }
        ensures does { (g : Opening) (es : List Event) → T.stands g es [] place.old → Knows g es (memory_of self.old)
            → MatchResult result
            (Aborts T.stands T.leaves T.alone in_any T.cause g es place.old place.new (memory_of self.old) (memory_of self.new))
            (Declines T.stands T.leaves T.alone in_any T.cause g es place.old place.new (memory_of self.old) (memory_of self.new)
            (Halves (memory_of self.old) (memory_of self.new)) (IsAbortsFirst (memory_of self.old))) }
        ensures after { IfOk result (λ _. IsEnded (memory_of self.old) (memory_of self.new)) }

        ensures tested { MatchOption (if self.old.is_open then None else Some NoTransaction) (IfErr result IsHindrance) (λ r. (result ≡ Err r) × (self.new ≡ self.old) × (place.new ≡ place.old)) }
    {
        if !self.is_open {
            return Err(Refusal::NoTransaction);
        }
        match self.put_all_back(place) {
            Ok(()) => match self.finish(place, false) {
                Ok(receipt) => Ok(receipt.txn),
                Err(hindrance) => Err(Refusal::Hindered(hindrance)),
            },
            Err(hindrance) => Err(Refusal::Hindered(hindrance)),
        }
    }

    // Puts the changes back, the newest first.
    fn put_all_back<T: Index>(&mut self, place: &mut T) -> Result<(), Hindrance>
        requires rows { T.rows place.old ≡ length self.old.held.items }
        requires open { self.old.is_open ≡ true }
        ensures rows { (T.rows place.new ≡ length self.new.held.items) × (length self.new.held.items ≡ length self.old.held.items) }
        ensures same { (self.new.is_open ≡ self.old.is_open) × (self.new.session ≡ self.old.session) × (self.new.held ≡ self.old.held) }
        ensures none { IfOk result (λ _. self.new.count ≡ 0) }
        ensures does { (g : Opening) (es : List Event) → T.stands g es [] place.old → Knows g es (memory_of self.old)
            → MatchResult result
            (λ _. Backs T.stands T.leaves T.alone in_any T.cause g es place.old place.new (memory_of self.old) (memory_of self.new))
            (Refused T.stands T.leaves T.alone in_any T.cause g es place.old place.new (memory_of self.old) (memory_of self.new) (Halves (memory_of self.old) (memory_of self.new)) (AreBacksFirst (memory_of self.old))) }
    {
        while self.count > 0 {
            if let Err(hindrance) = self.put_one_back(place) {
                return Err(hindrance);
            }
        }
        Ok(())
    }

    // Puts the newest change back.
    fn put_one_back<T: Index>(&mut self, place: &mut T) -> Result<(), Hindrance>
        requires rows { T.rows place.old ≡ length self.old.held.items }
        requires open { self.old.is_open ≡ true }
        requires some { 0 < self.old.count }
        ensures rows { (T.rows place.new ≡ length self.new.held.items) × (length self.new.held.items ≡ length self.old.held.items) }
        ensures same { (self.new.is_open ≡ self.old.is_open) × (self.new.session ≡ self.old.session) × (self.new.held ≡ self.old.held) }
        ensures less { IfOk result (λ _. self.new.count + 1 ≡ self.old.count) }
        ensures kept { IfErr result (λ _. self.new ≡ self.old) }
        ensures does { (g : Opening) (es : List Event) → T.stands g es [] place.old → Knows g es (memory_of self.old)
            → MatchResult result
            (λ _. Backs T.stands T.leaves T.alone in_any T.cause g es place.old place.new (memory_of self.old) (memory_of self.new))
            (Refused T.stands T.leaves T.alone in_any T.cause g es place.old place.new (memory_of self.old) (memory_of self.new) IsNoStep (IsBacksFirst self.old.session)) }
    {
        let undo = self.undo[self.count - 1];
        match place.leaf_put_back(self.session, undo.key, undo.word) {
            Ok(()) => {
                self.count -= 1;
                self.is_half = true;
                Ok(())
            }
            Err(hindrance) => Err(hindrance),
        }
    }
}
