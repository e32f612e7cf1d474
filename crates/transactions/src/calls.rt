// Gets, puts and dels.
ghost use Rattle.std.specs.Prelude.{◌≡◌, ◌<◌, ◌^◌, ◌∷◌, ℕ, true, false, List, [], length, IfOk, IfErr, MatchResult, MatchOption, Option, Some, None, Err};
ghost use Rattle.core_state.specs.Openings.{Opening};
ghost use Rattle.core_state.specs.Events.{Event, Mode as core};
ghost use Rattle.core_state.specs.Needs.{is_held_by};
ghost use Rattle.core_state.specs.Steps.{state_after};
ghost use Rattle.transactions.specs.Kinds.{in_any, in_changes};
ghost use Rattle.transactions.specs.Memory.{memory_of, Knows, live_value, word_before};
ghost use Rattle.transactions.specs.Calls.{closed_refusal, change_refusal, Declines, Gets, Puts, Dels, Changes, Removes, IsNoStep, IsTry, IsLocked, IsReadsFirst, IsChangesFirst, IsDelsFirst, IsHindrance};

use crate::begin::log_refusal;
use crate::hindrance::{Mode, Refusal};
use crate::places::{Index, Journal, Locks};
use crate::session::{CHANGES, Session, TOMBSTONE, Undo};

/// What a word says: a tombstone's says none.
pub(crate) fn live_value(word: Option<u64>) -> Option<u64>
    ensures { result ≡ live_value word }
{
    match word {
        Some(word) if word < TOMBSTONE => Some(word),
        _ => None,
    }
}

/// The word before a change: an absent key has a tombstone's.
pub(crate) fn word_before(was: Option<u64>) -> u64
    ensures { result ≡ word_before was }
{
    match was {
        Some(word) => word,
        None => TOMBSTONE,
    }
}

impl Session {
    // There is no transaction, or only its abort may go on.
    pub(crate) fn closed_refusal(&self) -> Option<Refusal>
        ensures { result ≡ closed_refusal (memory_of self.now) }
    {
        if !self.is_open || self.is_half {
            return Some(Refusal::NoTransaction);
        }
        None
    }

    fn change_refusal<T: Journal>(&self, place: &T) -> Option<Refusal>
        ensures { result ≡ change_refusal (memory_of self.now) (T.used place.now self.now.session) (T.limit place.now self.now.session) (T.clock_of place.now self.now.session) }
    {
        if !self.is_open || self.is_half {
            return Some(Refusal::NoTransaction);
        }
        if self.count == CHANGES {
            return Some(Refusal::TooLong);
        }
        log_refusal(place, self.session)
    }

    // A change was made of this.
    fn remember(&mut self, key: u64, was: Option<u64>)
        requires { self.old.count < 64 }
        ensures memory { memory_of self.new ≡ record (memory_of self.old) { undo = record { key = key; word = word_before was } ∷ (memory_of self.old).undo } }
        ensures rows { self.new.held ≡ self.old.held }
    {
        let word = word_before(was);
        self.undo[self.count] = Undo { key, word };
        self.count += 1;
    }

    /// The key's value, if it has one. Its row is held from now on.
    pub fn get<T: Index + Locks>(&mut self, place: &mut T, key: u64) -> Result<Option<u64>, Refusal>
        requires rows { T.rows place.old ≡ length self.old.held.items }
        ensures rows { (T.rows place.new ≡ length self.new.held.items) × (length self.new.held.items ≡ length self.old.held.items) }
        ensures does { (g : Opening) (es : List Event) → T.stands g es [] place.old → Knows g es (memory_of self.old)
            → MatchResult result
            (Gets T.stands T.leaves T.alone in_any T.cause g es place.old place.new (memory_of self.old) (memory_of self.new) key)
            (Declines T.stands T.leaves T.alone in_any T.cause g es place.old place.new (memory_of self.old) (memory_of self.new) (IsTry self.old.session (g.row_of key) core.Shared) (IsLocked self.old.session (g.row_of key) core.Shared (IsReadsFirst self.old.session key))) }
        ensures same { (self.new.is_open ≡ self.old.is_open) × (self.new.is_half ≡ self.old.is_half) × (self.new.undo ≡ self.old.undo) × (self.new.count ≡ self.old.count) }

        ensures tested { MatchOption (closed_refusal (memory_of self.old)) (IfErr result IsHindrance) (λ r. (result ≡ Err r) × (self.new ≡ self.old) × (place.new ≡ place.old)) }
    {
        if let Some(refusal) = self.closed_refusal() {
            return Err(refusal);
        }
        match self.take_row(place, key, Mode::Shared) {
            Ok(()) => match place.find(self.session, key) {
                Ok(value) => Ok(value),
                Err(hindrance) => Err(Refusal::Hindered(hindrance)),
            },
            Err(hindrance) => Err(Refusal::Hindered(hindrance)),
        }
    }

    /// The key gets the value. The answer is the value before, if it had one.
    pub fn put<T: Index + Locks + Journal>(
        &mut self,
        place: &mut T,
        key: u64,
        value: u64,
    ) -> Result<Option<u64>, Refusal>
        requires rows { T.rows place.old ≡ length self.old.held.items }
        requires value { value < 2 ^ 63 }
        ensures rows { (T.rows place.new ≡ length self.new.held.items) × (length self.new.held.items ≡ length self.old.held.items) }
        ensures does { (g : Opening) (es : List Event) → T.stands g es [] place.old → Knows g es (memory_of self.old)
            → MatchResult result
            (Puts T.stands T.leaves T.alone in_changes T.cause g es place.old place.new (memory_of self.old) (memory_of self.new) key value)
            (Declines T.stands T.leaves T.alone in_changes T.cause g es place.old place.new (memory_of self.old) (memory_of self.new) (IsTry self.old.session (g.row_of key) core.Alone) (IsLocked self.old.session (g.row_of key) core.Alone (IsChangesFirst self.old.session key value))) }
        ensures same { IfErr result (λ _. (self.new.is_open ≡ self.old.is_open) × (self.new.is_half ≡ self.old.is_half) × (self.new.undo ≡ self.old.undo) × (self.new.count ≡ self.old.count)) }

        ensures tested { MatchOption (change_refusal (memory_of self.old) (T.used place.old self.old.session) (T.limit place.old self.old.session) (T.clock_of place.old self.old.session))
            (IfErr result IsHindrance) (λ r. (result ≡ Err r) × (self.new ≡ self.old) × (place.new ≡ place.old)) }
    {
        if let Some(refusal) = self.change_refusal(place) {
            return Err(refusal);
        }
        match self.take_row(place, key, Mode::Alone) {
            Ok(()) => self.put_in(place, key, value),
            Err(hindrance) => Err(Refusal::Hindered(hindrance)),
        }
    }

    // The key's row is held alone.
    fn put_in<T: Index>(
        &mut self,
        place: &mut T,
        key: u64,
        value: u64,
    ) -> Result<Option<u64>, Refusal>
        requires rows { T.rows place.old ≡ length self.old.held.items }
        requires value { value < 2 ^ 63 }
        requires few { self.old.count < 64 }
        ensures rows { (T.rows place.new ≡ length self.new.held.items) × (length self.new.held.items ≡ length self.old.held.items) }
        ensures does { (g : Opening) (es : List Event) → T.stands g es [] place.old → Knows g es (memory_of self.old) → self.old.is_open ≡ true
            → is_held_by ((state_after g es).row (g.row_of key)).holder self.old.session ≡ true
            → MatchResult result
            (Changes T.stands T.leaves T.alone in_changes T.cause g es place.old place.new (memory_of self.old) (memory_of self.new) key value)
            (Declines T.stands T.leaves T.alone in_changes T.cause g es place.old place.new (memory_of self.old) (memory_of self.new) IsNoStep (IsChangesFirst self.old.session key value)) }
        ensures same { IfErr result (λ _. self.new ≡ self.old) }
        ensures hindered { IfErr result IsHindrance }
    {
        match place.leaf_put(self.session, key, value) {
            Ok(was) => {
                self.remember(key, was);
                Ok(live_value(was))
            }
            Err(hindrance) => Err(Refusal::Hindered(hindrance)),
        }
    }

    /// The key has no value from now on. The answer is the value before, if it had one.
    pub fn del<T: Index + Locks + Journal>(
        &mut self,
        place: &mut T,
        key: u64,
    ) -> Result<Option<u64>, Refusal>
        requires rows { T.rows place.old ≡ length self.old.held.items }
        ensures rows { (T.rows place.new ≡ length self.new.held.items) × (length self.new.held.items ≡ length self.old.held.items) }
        ensures does { (g : Opening) (es : List Event) → T.stands g es [] place.old → Knows g es (memory_of self.old)
            → MatchResult result
            (Dels T.stands T.leaves T.alone in_changes T.cause g es place.old place.new (memory_of self.old) (memory_of self.new) key)
            (Declines T.stands T.leaves T.alone in_changes T.cause g es place.old place.new (memory_of self.old) (memory_of self.new) (IsTry self.old.session (g.row_of key) core.Alone) (IsLocked self.old.session (g.row_of key) core.Alone (IsDelsFirst self.old.session key))) }
        ensures same { IfErr result (λ _. (self.new.is_open ≡ self.old.is_open) × (self.new.is_half ≡ self.old.is_half) × (self.new.undo ≡ self.old.undo) × (self.new.count ≡ self.old.count)) }

        ensures tested { MatchOption (change_refusal (memory_of self.old) (T.used place.old self.old.session) (T.limit place.old self.old.session) (T.clock_of place.old self.old.session))
            (IfErr result IsHindrance) (λ r. (result ≡ Err r) × (self.new ≡ self.old) × (place.new ≡ place.old)) }
    {
        if let Some(refusal) = self.change_refusal(place) {
            return Err(refusal);
        }
        match self.take_row(place, key, Mode::Alone) {
            Ok(()) => self.del_in(place, key),
            Err(hindrance) => Err(Refusal::Hindered(hindrance)),
        }
    }

    // The key's row is held alone.
    fn del_in<T: Index>(&mut self, place: &mut T, key: u64) -> Result<Option<u64>, Refusal>
        requires rows { T.rows place.old ≡ length self.old.held.items }
        requires few { self.old.count < 64 }
        ensures rows { (T.rows place.new ≡ length self.new.held.items) × (length self.new.held.items ≡ length self.old.held.items) }
        ensures does { (g : Opening) (es : List Event) → T.stands g es [] place.old → Knows g es (memory_of self.old) → self.old.is_open ≡ true
            → is_held_by ((state_after g es).row (g.row_of key)).holder self.old.session ≡ true
            → MatchResult result
            (Removes T.stands T.leaves T.alone in_changes T.cause g es place.old place.new (memory_of self.old) (memory_of self.new) key)
            (Declines T.stands T.leaves T.alone in_changes T.cause g es place.old place.new (memory_of self.old) (memory_of self.new) IsNoStep (IsDelsFirst self.old.session key)) }
        ensures same { IfErr result (λ _. self.new ≡ self.old) }
        ensures hindered { IfErr result IsHindrance }
    {
        match place.leaf_del(self.session, key) {
            Ok(Some(value)) => {
                self.remember(key, Some(value));
                Ok(Some(value))
            }
            Ok(None) => Ok(None),
            Err(hindrance) => Err(Refusal::Hindered(hindrance)),
        }
    }
}
