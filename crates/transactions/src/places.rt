// What sessions' calls stand on: the index, the lock rows and the logs. They are one object, since each of them steps on the same rows.
ghost use Rattle.std.specs.Prelude.{◌≡◌, ◌≤◌, ◌<◌, ◌+◌, ◌^◌, ◌++◌, length, ℕ, suc, Bool, true, false, List, [], ◌∷◌, Option, Some, None, MatchResult, IfOk, IfErr};
ghost use Rattle.core_state.specs.image_model.Entries.{Entry};
ghost use Rattle.page_model.specs.Pairs.{find};
ghost use Rattle.rfa_model.specs.Stamps.{need_of};
ghost use Rattle.core_state.specs.States.{State};
ghost use Rattle.core_state.specs.Openings.{Opening};
ghost use Rattle.core_state.specs.Events.{Event};
ghost use Rattle.core_state.specs.Needs.{holds_row, is_held_by};
ghost use Rattle.transactions.specs.declared.hindrance.Hindrance.{Hindrance};
ghost use Rattle.core_state.specs.Steps.{state_after};
ghost use Rattle.transactions.specs.Memory.{mode_of, undo_of};
ghost use Rattle.transactions.specs.declared.session.Undo.{Undo};
ghost use Rattle.transactions.specs.Paths.{Any, Takes, Idles, Flushes, Hindered, IsFirstOf, is_fault};
ghost use Rattle.transactions.specs.Kinds.{in_any, in_changes, in_flushes};
ghost use Rattle.transactions.specs.Answers.{room_of, Deleted, IsReceipt};
ghost use Rattle.transactions.specs.Calls.{IsNoStep, IsBeginsFirst, IsReadsFirst, IsChangesFirst, IsDelsFirst, IsBacksFirst, IsEndsFirst};

use crate::hindrance::{Hindrance, Mode, Receipt, Refusal};

/// What sessions' calls stand on. It stands for events of the core: for the state to which they lead.
pub trait Place {
    /// It stands for these events, and these lock rows are latched by it, the newest first.
    ghost stands: { Opening → List Event → List ℕ → Self → Type 0 };

    /// What a crash at each moment between two places may leave, from these events on and with these more. It composes, and no
    /// session looks into it.
    ghost leaves: { Opening → List Event → List Event → Self → Self → Type 0 };

    /// Why it hindered a call, behind these events.
    ghost cause: { Hindrance → Opening → List Event → Self → Self → Type 0 };

    /// How many lock rows there are.
    ghost rows: { Self → ℕ };

    /// It is not broken: no device failed.
    ghost works: { Self → Bool };

    /// Whether nobody else steps.
    ghost alone: { Self → Bool };

    /// The same, for callers.
    fn is_alone(&self) -> bool
        ensures { result ≡ alone self.now };

    // A crash where nothing happens.
    ghost rests: { (g : Opening) (es : List Event) (latched : List ℕ) (a : Self) → stands g es latched a → leaves g es [] a a };

    // A crash between two places, and on to a third.
    ghost joins: { (g : Opening) (es xs ys : List Event) (a b c : Self) → leaves g es xs a b → leaves g (es ++ xs) ys b c → leaves g es (xs ++ ys) a c };
}

/// The tree. A session that calls it has an open transaction, and holds the key's lock row: alone, where it changes the key.
pub trait Index: Place {
    /// The key's value, if it has one.
    fn find(&mut self, w: u32, key: u64) -> Result<Option<u64>, Hindrance>
        ensures rows { Self.rows self.new ≡ Self.rows self.old }
        ensures does { (g : Opening) (es : List Event) → Self.stands g es [] self.old
            → ((state_after g es).worker w).is_open ≡ true → holds_row ((state_after g es).row (g.row_of key)) w ≡ true
            → MatchResult result
            (λ value. (page : ℕ) × Takes Self.stands Self.leaves Self.alone in_any g es w (Event.Read w page key value) Any [] self.old self.new)
            (λ h. Hindered Self.stands Self.leaves Self.alone in_any g es Self.cause w (IsReadsFirst w key) [] h self.old self.new) };

    /// The key gets the value, where its leaf is made to have room. The answer is the word before, if there was one.
    fn leaf_put(&mut self, w: u32, key: u64, value: u64) -> Result<Option<u64>, Hindrance>
        requires { value < 2 ^ 63 }
        ensures rows { Self.rows self.new ≡ Self.rows self.old }
        ensures does { (g : Opening) (es : List Event) → Self.stands g es [] self.old
            → ((state_after g es).worker w).is_open ≡ true → length ((state_after g es).worker w).changes < g.changes → is_held_by ((state_after g es).row (g.row_of key)).holder w ≡ true
            → MatchResult result
            (λ was. (page : ℕ) × Takes Self.stands Self.leaves Self.alone in_changes g es w (Event.Change w page key value) (λ s. was ≡ find key (s.page page).node.pairs) [] self.old self.new)
            (λ h. Hindered Self.stands Self.leaves Self.alone in_changes g es Self.cause w (IsChangesFirst w key value) [] h self.old self.new) };

    /// The key gets a tombstone, if it has a value, which is the answer. A key with no value is read.
    fn leaf_del(&mut self, w: u32, key: u64) -> Result<Option<u64>, Hindrance>
        ensures rows { Self.rows self.new ≡ Self.rows self.old }
        ensures does { (g : Opening) (es : List Event) → Self.stands g es [] self.old
            → ((state_after g es).worker w).is_open ≡ true → length ((state_after g es).worker w).changes < g.changes → is_held_by ((state_after g es).row (g.row_of key)).holder w ≡ true
            → MatchResult result
            (Deleted Self.stands Self.leaves Self.alone g es w key self.old self.new)
            (λ h. Hindered Self.stands Self.leaves Self.alone in_changes g es Self.cause w (IsDelsFirst w key) [] h self.old self.new) };

    /// Puts the newest change back, which was of this key: it gets this word again.
    fn leaf_put_back(&mut self, w: u32, key: u64, word: u64) -> Result<(), Hindrance>
        ensures rows { Self.rows self.new ≡ Self.rows self.old }
        ensures does { (g : Opening) (es : List Event) (c : Entry) (cs : List Entry) → Self.stands g es [] self.old
            → ((state_after g es).worker w).is_open ≡ true → ((state_after g es).worker w).changes ≡ c ∷ cs → c.key ≡ key → c.before ≡ word
            → MatchResult result
            (λ _. (page : ℕ) × Takes Self.stands Self.leaves Self.alone in_any g es w (Event.Put_back w page) Any [] self.old self.new)
            (λ h. Hindered Self.stands Self.leaves Self.alone in_any g es Self.cause w (IsBacksFirst w) [] h self.old self.new) };
}

/// The lock rows, by their places. Keys share them.
pub trait Locks: Place {
    /// An open transaction takes the row. Nobody waits: a conflict is answered.
    fn lock(&mut self, w: u32, row: u32, mode: Mode) -> Result<(), Hindrance>
        requires { row < Self.rows self.old }
        ensures rows { Self.rows self.new ≡ Self.rows self.old }
        ensures does { (g : Opening) (es : List Event) → Self.stands g es [] self.old → ((state_after g es).worker w).is_open ≡ true
            → MatchResult result
            (λ _. Takes Self.stands Self.leaves Self.alone in_any g es w (Event.Lock w row (mode_of mode)) Any [] self.old self.new)
            (λ h. Hindered Self.stands Self.leaves Self.alone in_any g es Self.cause w (IsFirstOf (Event.Lock w row (mode_of mode) ∷ [])) [] h self.old self.new) };

    /// Latches a row whose lock is held.
    fn latch(&mut self, w: u32, row: u32) -> Result<(), Hindrance>
        requires { row < Self.rows self.old }
        ensures rows { Self.rows self.new ≡ Self.rows self.old }
        ensures sound { IfErr result (λ h. is_fault h ≡ false) }
        ensures does { (g : Opening) (es : List Event) (latched : List ℕ) → Self.stands g es latched self.old → holds_row ((state_after g es).row row) w ≡ true
            → MatchResult result
            (λ _. Idles Self.stands Self.leaves Self.alone in_any g es w (row ∷ latched) self.old self.new)
            (λ h. Hindered Self.stands Self.leaves Self.alone in_any g es Self.cause w IsNoStep latched h self.old self.new) };

    /// Gives up the last latch, with nothing changed.
    fn unlatch(&mut self, w: u32, row: u32)
        requires { row < Self.rows self.old }
        ensures rows { Self.rows self.new ≡ Self.rows self.old }
        ensures does { (g : Opening) (es : List Event) (latched : List ℕ) → Self.stands g es (row ∷ latched) self.old
            → Idles Self.stands Self.leaves Self.alone in_any g es w latched self.old self.new };

    /// Gives up the lock of the row that was latched last, and the latch with it.
    fn unlock(&mut self, w: u32, row: u32)
        requires { row < Self.rows self.old }
        ensures rows { Self.rows self.new ≡ Self.rows self.old }
        ensures does { (g : Opening) (es : List Event) (latched : List ℕ) → Self.stands g es (row ∷ latched) self.old
            → ((state_after g es).worker w).is_open ≡ false → holds_row ((state_after g es).row row) w ≡ true
            → Takes Self.stands Self.leaves Self.alone in_any g es w (Event.Unlock w row) Any latched self.old self.new };
}

/// The workers' logs and clocks.
pub trait Journal: Place {
    /// How many blocks of w's log are used, and how many changes may use.
    ghost used: { Self → ℕ → ℕ };

    ghost limit: { Self → ℕ → ℕ };

    ghost clock_of: { Self → ℕ → ℕ };

    /// Something is due before w begins.
    ghost is_due: { Self → ℕ → Bool };

    /// A group of w's commits waits for a flush in this state.
    ghost group_waits: { Self → State → ℕ → Bool };

    /// Whether w's log takes a change.
    fn room(&self, w: u32) -> Result<(), Refusal>
        ensures { result ≡ room_of (used self.now w) (limit self.now w) };

    /// w's clock.
    fn clock(&self, w: u32) -> u64
        ensures { result ≡ clock_of self.now w };

    /// Does what is due before w begins.
    fn ready(&mut self, w: u32) -> Result<(), Hindrance>
        ensures rows { Self.rows self.new ≡ Self.rows self.old }
        ensures done { IfOk result (λ _. is_due self.new w ≡ false) }
        ensures does { (g : Opening) (es : List Event) → Self.stands g es [] self.old
            → MatchResult result
            (λ _. Idles Self.stands Self.leaves Self.alone in_flushes g es w [] self.old self.new)
            (λ h. Hindered Self.stands Self.leaves Self.alone in_flushes g es Self.cause w IsNoStep [] h self.old self.new) };

    /// w's transaction begins. The answer is its number.
    fn begin(&mut self, w: u32) -> Result<u64, Hindrance>
        ensures rows { Self.rows self.new ≡ Self.rows self.old }
        ensures does { (g : Opening) (es : List Event) → Self.stands g es [] self.old → ((state_after g es).worker w).is_open ≡ false
            → MatchResult result
            (λ number. (f : ℕ) × Takes Self.stands Self.leaves Self.alone in_any g es w (Event.Begin w f) (λ s. number ≡ suc (s.worker w).txn) [] self.old self.new)
            (λ h. Hindered Self.stands Self.leaves Self.alone in_any g es Self.cause w (IsBeginsFirst w) [] h self.old self.new) };

    /// w's transaction ends: what it changed is committed, or was put back before. Its lock rows are latched.
    fn end(&mut self, w: u32, commit: bool) -> Result<Receipt, Hindrance>
        ensures rows { Self.rows self.new ≡ Self.rows self.old }
        ensures does { (g : Opening) (es : List Event) (latched : List ℕ) → Self.stands g es latched self.old
            → ((state_after g es).worker w).is_open ≡ true → (commit ≡ false → ((state_after g es).worker w).changes ≡ [])
            → MatchResult result
            (λ receipt. (f : ℕ) × Takes Self.stands Self.leaves Self.alone in_any g es w (Event.End w commit f) (IsReceipt w f receipt) latched self.old self.new)
            (λ h. (is_fault h ≡ true) × Hindered Self.stands Self.leaves Self.alone in_any g es Self.cause w (IsEndsFirst w commit) latched h self.old self.new) };

    /// Flushes w's log, if a group of its commits waits for it.
    fn flush_group(&mut self, w: u32) -> Result<(), Hindrance>
        ensures rows { Self.rows self.new ≡ Self.rows self.old }
        ensures does { (g : Opening) (es : List Event) → Self.stands g es [] self.old
            → MatchResult result
            (λ _. Flushes Self.stands Self.leaves Self.alone in_flushes g es w (λ s. group_waits self.new s w) self.old self.new)
            (λ h. (is_fault h ≡ true) × Hindered Self.stands Self.leaves Self.alone in_flushes g es Self.cause w IsNoStep [] h self.old self.new) };

    // The clock is the core's.
    ghost clock_is: { (g : Opening) (es : List Event) (latched : List ℕ) (a : Self) (w : ℕ) → Self.works a ≡ true → Self.stands g es latched a → clock_of a w ≡ ((state_after g es).worker w).clock };
}
