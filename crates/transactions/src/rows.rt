// The lock rows of a session.
ghost use Rattle.std.specs.Prelude.{◌≡◌, ◌≤◌, ◌<◌, ◌%◌, ◌++◌, ◌∷◌, ℕ, true, false, List, [], length, slice_set, MatchResult, IfOk, IfErr, if◌then◌else◌};
ghost use Rattle.core_state.specs.Openings.{Opening};
ghost use Rattle.core_state.specs.Events.{Event};
ghost use Rattle.core_state.specs.Needs.{is_held_by};
ghost use Rattle.transactions.specs.declared.hindrance.Mode.TheVariants.{Alone};
ghost use Rattle.core_state.specs.Steps.{state_after};
ghost use Rattle.transactions.specs.Kinds.{in_any};
ghost use Rattle.transactions.specs.Paths.{Any, Takes, Idles, Did, Hindered, IsFirstOf, is_fault};
ghost use Rattle.transactions.specs.Memory.{memory_of, mode_of, Ties, has_row, held_rows, HasNone};
ghost use Rattle.transactions.specs.Calls.{Locked, Unlatched, Unlocked, IsNoStep};

use crate::hindrance::{Hindrance, Mode};
use crate::places::Locks;
use crate::session::Session;

impl Session {
    // Takes the key's row.
    pub(crate) fn take_row<T: Locks>(
        &mut self,
        place: &mut T,
        key: u64,
        mode: Mode,
    ) -> Result<(), Hindrance>
        requires rows { T.rows place.old ≡ length self.old.held.items }
        requires open { self.old.is_open ≡ true }
        ensures rows { (T.rows place.new ≡ length self.new.held.items) × (length self.new.held.items ≡ length self.old.held.items) }
        ensures does { (g : Opening) (es : List Event) → T.stands g es [] place.old → Ties g es (memory_of self.old)
            → MatchResult result
            (λ _. Locked T.stands T.leaves T.alone in_any T.cause g es place.old place.new (memory_of self.old) (memory_of self.new) key mode)
            (λ h. Hindered T.stands T.leaves T.alone in_any g es T.cause self.old.session (IsFirstOf (Event.Lock self.old.session (g.row_of key) (mode_of mode) ∷ [])) [] h place.old place.new) }
        ensures after { IfOk result (λ _. (self.new.is_open ≡ self.old.is_open) × (self.new.is_half ≡ self.old.is_half) × (self.new.undo ≡ self.old.undo) × (self.new.count ≡ self.old.count) × (self.new.session ≡ self.old.session)) }
        ensures same { IfErr result (λ _. self.new ≡ self.old) }
    {
        let row = (key % self.held.len() as u64) as usize;
        match place.lock(self.session, row as u32, mode) {
            Ok(()) => {
                self.held[row] = true;
                Ok(())
            }
            Err(hindrance) => Err(hindrance),
        }
    }
}

impl Session {
    // Latches the rows that it holds, all or none.
    pub(crate) fn latch_rows<T: Locks>(&self, place: &mut T) -> Result<(), Hindrance>
        requires rows { T.rows place.old ≡ length self.now.held.items }
        ensures rows { T.rows place.new ≡ T.rows place.old }
        ensures sound { IfErr result (λ h. is_fault h ≡ false) }
        ensures does { (g : Opening) (es : List Event) → T.stands g es [] place.old → Ties g es (memory_of self.now)
            → MatchResult result
            (λ _. Idles T.stands T.leaves T.alone in_any g es self.now.session (held_rows self.now.held.items (length self.now.held.items)) place.old place.new)
            (Unlatched T.stands T.leaves T.alone in_any T.cause g es place.old place.new (memory_of self.now) (memory_of self.now)) }
    {
        for row in 0..self.held.len() {
            if let Err(hindrance) = self.latch_row(place, row) {
                self.unlatch_rows(place, row);
                return Err(hindrance);
            }
        }
        Ok(())
    }

    // Latches a row, if it holds it.
    fn latch_row<T: Locks>(&self, place: &mut T, row: usize) -> Result<(), Hindrance>
        requires rows { T.rows place.old ≡ length self.now.held.items }
        requires within { row < length self.now.held.items }
        ensures rows { T.rows place.new ≡ T.rows place.old }
        ensures sound { IfErr result (λ h. is_fault h ≡ false) }
        ensures does { (g : Opening) (es : List Event) (latched : List ℕ) → T.stands g es latched place.old → Ties g es (memory_of self.now)
            → MatchResult result
            (λ _. Idles T.stands T.leaves T.alone in_any g es self.now.session (if has_row self.now.held.items row then row ∷ latched else latched) place.old place.new)
            (λ h. Hindered T.stands T.leaves T.alone in_any g es T.cause self.now.session IsNoStep latched h place.old place.new) }
    {
        if self.held[row] {
            return place.latch(self.session, row as u32);
        }
        Ok(())
    }

    // Gives back the latches of the rows below.
    fn unlatch_rows<T: Locks>(&self, place: &mut T, below: usize)
        requires rows { T.rows place.old ≡ length self.now.held.items }
        requires within { below ≤ length self.now.held.items }
        ensures rows { T.rows place.new ≡ T.rows place.old }
        ensures does { (g : Opening) (es : List Event) → T.stands g es (held_rows self.now.held.items below) place.old
            → Idles T.stands T.leaves T.alone in_any g es self.now.session [] place.old place.new }
    {
        let mut row = below;
        while row > 0 {
            row -= 1;
            self.unlatch_row(place, row);
        }
    }

    // Gives back the latch of a row, if it holds it.
    fn unlatch_row<T: Locks>(&self, place: &mut T, row: usize)
        requires rows { T.rows place.old ≡ length self.now.held.items }
        requires within { row < length self.now.held.items }
        ensures rows { T.rows place.new ≡ T.rows place.old }
        ensures does { (g : Opening) (es : List Event) (latched : List ℕ) → T.stands g es (if has_row self.now.held.items row then row ∷ latched else latched) place.old
            → Idles T.stands T.leaves T.alone in_any g es self.now.session latched place.old place.new }
    {
        if self.held[row] {
            place.unlatch(self.session, row as u32);
        }
    }

    // Gives up the rows, which are latched, the last first.
    pub(crate) fn unlock_rows<T: Locks>(&mut self, place: &mut T)
        requires rows { T.rows place.old ≡ length self.old.held.items }
        ensures rows { (T.rows place.new ≡ length self.new.held.items) × (length self.new.held.items ≡ length self.old.held.items) }
        ensures same { (self.new.session ≡ self.old.session) × (self.new.is_open ≡ self.old.is_open) × (self.new.is_half ≡ self.old.is_half) × (self.new.count ≡ self.old.count) × (self.new.undo ≡ self.old.undo) }
        ensures none { HasNone self.new.held.items }
        ensures does { (g : Opening) (es : List Event) → T.stands g es (held_rows self.old.held.items (length self.old.held.items)) place.old → Ties g es (memory_of self.old) → self.old.is_open ≡ false
            → Unlocked T.stands T.leaves T.alone in_any T.cause g es place.old place.new (memory_of self.old) (memory_of self.new) (held_rows self.old.held.items (length self.old.held.items)) [] }
    {
        let mut row = self.held.len();
        while row > 0 {
            row -= 1;
            self.unlock_row(place, row);
        }
    }

    // Gives up a row, if it holds it.
    fn unlock_row<T: Locks>(&mut self, place: &mut T, row: usize)
        requires rows { T.rows place.old ≡ length self.old.held.items }
        requires within { row < length self.old.held.items }
        ensures rows { T.rows place.new ≡ T.rows place.old }
        ensures held { self.new.held.items ≡ slice_set self.old.held.items row false }
        ensures same { (self.new.session ≡ self.old.session) × (self.new.is_open ≡ self.old.is_open) × (self.new.is_half ≡ self.old.is_half) × (self.new.count ≡ self.old.count) × (self.new.undo ≡ self.old.undo) }
        ensures does { (g : Opening) (es : List Event) (latched : List ℕ) → T.stands g es (if has_row self.old.held.items row then row ∷ latched else latched) place.old
            → Ties g es (memory_of self.old) → self.old.is_open ≡ false
            → Unlocked T.stands T.leaves T.alone in_any T.cause g es place.old place.new (memory_of self.old) (memory_of self.new) (if has_row self.old.held.items row then row ∷ [] else []) latched }
    {
        if !self.held[row] {
            return;
        }
        place.unlock(self.session, row as u32);
        self.held[row] = false;
    }
}
