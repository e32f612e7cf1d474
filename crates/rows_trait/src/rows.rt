//! Rows of words, and the twelve calls that a seat makes on them. A thirteenth does nothing, and tells how high versions are.
//!
//! Each of the first ten is one load, store or exchange. Its contract is one clause over what the seat knew before and knows
//! after: in between others may have stepped, and what they did is apart from what the seat holds.
ghost use Rattle.std.specs.Prelude.{◌≡◌, ◌+◌, ◌<◌, ◌≤◌, ◌^◌, ℕ, suc, max, true, false, length, ◌∷◌, []};
ghost use Rattle.rows_trait.specs.declared.view.View.{View};
ghost use Rattle.row_words.specs.Sealed.{begun};
ghost use Rattle.rows_trait.specs.Layout.{rows_of, width, count_of};
ghost use Rattle.rows_trait.specs.Views.{IsEven, AreLow, AreAside, AreSilent, AreTame, BeginsTame, Shape, holds, held_at, may, state};
ghost use Rattle.rows_trait.specs.Turns.{Looked, Loaded, Tried, Stored, MayPublish, Published, Released, Heard, MayTurn, Turned, MaySync, Synced};

use crate::names::Names;

/// Whether a row was latched, or the number that its latch was found to be.
#[derive(Clone, Copy)]
pub enum Latch {
    Held,
    Found(u64),
}

/// Rows of words, each with a version latch, and control words. A seat steps on them for one actor, or for every actor where it is
/// the only one.
pub trait Rows {
    type Seat;

    // What the seat knows: a prefix of what has happened, what it has loaded and stored, which rows it holds.
    ghost view: { Self.Seat → View };

    // How many rows there are, and whether nobody else steps.
    ghost shape: { Self → Shape };

    // The seat belongs to these rows.
    ghost fits: { Self → Self.Seat → Type 0 };

    /// Loads the latch of a row: its version, which is even, or an odd number while it is held. What was loaded of the row after the
    /// same even version are its words in the core state, and no event since then has changed it.
    fn load_latch<E: Names>(&mut self, seat: &mut Self::Seat, row: u32, event: &E) -> u64
        requires fits { fits self.old seat.old }
        requires row { row < rows_of (shape self.old).sizes }
        requires event { (n : ℕ) → AreSilent (may (shape self.old).alone (view seat.old)) (view seat.old).given (E.names event.now n) }
        ensures fits { fits self.new seat.new }
        ensures shape { shape self.new ≡ shape self.old }
        ensures step { Looked (shape self.old) row (E.names event.now) (view seat.old) result (view seat.new) };

    /// Loads a word of a row, latched or not. Of a row that others may hold the word counts only once the version is found again.
    fn load_word(&mut self, seat: &mut Self::Seat, row: u32, word: u32) -> u64
        requires fits { fits self.old seat.old }
        requires place { (row < rows_of (shape self.old).sizes) × (word < width (shape self.old).sizes row) }
        ensures fits { fits self.new seat.new }
        ensures shape { shape self.new ≡ shape self.old }
        ensures step { Loaded (shape self.old) row word (view seat.old) result (view seat.new) };

    /// Latches a row whose latch is still this even version; else the row stays as it is, and the answer has the number found.
    fn try_latch<E: Names>(
        &mut self,
        seat: &mut Self::Seat,
        row: u32,
        version: u64,
        event: &E,
    ) -> Latch
        requires fits { fits self.old seat.old }
        requires row { row < rows_of (shape self.old).sizes }
        requires version { IsEven version × (version + 2 < 2 ^ 64) }
        requires event { (n : ℕ) → AreSilent (may (shape self.old).alone (view seat.old)) (view seat.old).given (E.names event.now n) }
        ensures fits { fits self.new seat.new }
        ensures shape { shape self.new ≡ shape self.old }
        ensures step { Tried (shape self.old) row version (E.names event.now) (view seat.old) result (view seat.new) };

    /// Stores a word of a held row.
    fn store_word(&mut self, seat: &mut Self::Seat, row: u32, word: u32, value: u64)
        requires fits { fits self.old seat.old }
        requires place { (row < rows_of (shape self.old).sizes) × (word < width (shape self.old).sizes row) }
        requires held { (holds (view seat.old).held row ≡ true) × ((held_at (view seat.old).held row).done ≡ false) }
        ensures fits { fits self.new seat.new }
        ensures shape { shape self.new ≡ shape self.old }
        ensures step { Stored (shape self.old) row word value (view seat.old) (view seat.new) };

    /// Appends an event that changes held rows, and gives up the latch of one of them, with the next even version. The words of
    /// every row that the event changes are stored by then.
    fn publish<E: Names>(&mut self, seat: &mut Self::Seat, row: u32, event: &E)
        requires fits { fits self.old seat.old }
        requires row { row < rows_of (shape self.old).sizes }
        requires held { (holds (view seat.old).held row ≡ true) × ((held_at (view seat.old).held row).done ≡ false) }
        requires event { (e : _) × (E.names event.now 0 ≡ e ∷ []) × MayPublish (shape self.old) row e (view seat.old) }
        ensures fits { fits self.new seat.new }
        ensures shape { shape self.new ≡ shape self.old }
        ensures step { (e : _) × (E.names event.now 0 ≡ e ∷ []) × Published (shape self.old) row e (view seat.old) (view seat.new) };

    /// Gives up the latch of a held row whose words stand as in the core state, with the next even version. Where no event of the
    /// row was published since it was latched, that is a miss.
    fn release(&mut self, seat: &mut Self::Seat, row: u32)
        requires fits { fits self.old seat.old }
        requires row { row < rows_of (shape self.old).sizes }
        requires held { (holds (view seat.old).held row ≡ true) × ((held_at (view seat.old).held row).now ≡ (held_at (view seat.old).held row).was) }
        ensures fits { fits self.new seat.new }
        ensures shape { shape self.new ≡ shape self.old }
        ensures step { Released (shape self.old) row (view seat.old) (view seat.new) };

    /// Loads a control word of a worker (`control` is its number), or for 0 a common one.
    fn load_control<E: Names>(
        &mut self,
        seat: &mut Self::Seat,
        control: u32,
        word: u32,
        event: &E,
    ) -> u64
        requires fits { fits self.old seat.old }
        requires place { (control ≤ (shape self.old).sizes.workers) × (word < count_of control) }
        requires event { (n : ℕ) → AreAside (may (shape self.old).alone (view seat.old)) (view seat.old).given (E.names event.now n) }
        requires tame { (n : ℕ) → BeginsTame (state (view seat.old)) (E.names event.now n) }
        ensures fits { fits self.new seat.new }
        ensures shape { shape self.new ≡ shape self.old }
        ensures step { Heard (shape self.old) control word (E.names event.now) (view seat.old) result (view seat.new) };

    /// Stores a control word, with the events that turn it into this value.
    fn store_control<E: Names>(
        &mut self,
        seat: &mut Self::Seat,
        control: u32,
        word: u32,
        value: u64,
        event: &E,
    )
        requires fits { fits self.old seat.old }
        requires place { (control ≤ (shape self.old).sizes.workers) × (word < count_of control) }
        requires event { MayTurn (shape self.old) control word (λ _. value) (E.names event.now) (view seat.old) }
        ensures fits { fits self.new seat.new }
        ensures shape { shape self.new ≡ shape self.old }
        ensures step { (n : ℕ) × Turned (shape self.old) control word (λ _. value) (E.names event.now) (view seat.old) n (view seat.new) };

    /// Raises the posted need to a number, if it is less.
    fn raise_need<E: Names>(&mut self, seat: &mut Self::Seat, number: u64, event: &E)
        requires fits { fits self.old seat.old }
        requires event { MayTurn (shape self.old) 0 1 (λ n. max n number) (E.names event.now) (view seat.old) }
        ensures fits { fits self.new seat.new }
        ensures shape { shape self.new ≡ shape self.old }
        ensures step { (n : ℕ) × Turned (shape self.old) 0 1 (λ n. max n number) (E.names event.now) (view seat.old) n (view seat.new) };

    /// Adds one to the global epoch, and answers what it was.
    fn tick<E: Names>(&mut self, seat: &mut Self::Seat, event: &E) -> u64
        requires fits { fits self.old seat.old }
        requires event { MayTurn (shape self.old) 0 0 (λ n. n + 1) (E.names event.now) (view seat.old) }
        ensures fits { fits self.new seat.new }
        ensures shape { shape self.new ≡ shape self.old }
        ensures step { Turned (shape self.old) 0 0 (λ n. n + 1) (E.names event.now) (view seat.old) result (view seat.new) };

    /// Stores a number as the flushed word of each worker, where nobody else steps: a sync is of all workers, and no other seat may
    /// see a part of it.
    fn store_flushed<E: Names>(&mut self, seat: &mut Self::Seat, number: u64, event: &E)
        requires fits { fits self.old seat.old }
        requires alone { (shape self.old).alone ≡ true }
        requires event { MaySync (shape self.old) number (E.names event.now number) (view seat.old) }
        ensures fits { fits self.new seat.new }
        ensures shape { shape self.new ≡ shape self.old }
        ensures step { Synced (shape self.old) number (E.names event.now number) (view seat.old) (view seat.new) };

    /// Whether nobody else steps.
    fn quiet(&self) -> bool
        ensures { result ≡ (shape self.now).alone };

    /// Each number that was loaded from a latch is at most one above twice the number of events that were seen: a row is given up
    /// behind an event of it, or a miss. What was seen is tame. The call does nothing.
    fn versions(&self, seat: &Self::Seat)
        requires fits { fits self.now seat.now }
        ensures low { AreLow (length (view seat.now).seen) (view seat.now).steps }
        ensures tame { AreTame (view seat.now).given (begun (view seat.now).given) (view seat.now).seen };
}
