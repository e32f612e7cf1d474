//! What a seat knows, as data that proofs read. No value of these types is made.
use row_words::event::Event;
use row_words::given::Given;
use std::collections::LinkedList;

/// A step of a seat on the words of a row, or on a control word.
pub enum Act {
    /// It loaded the latch: row, number, and what it had seen by then, this step's own events with it.
    Look(u32, u64, LinkedList<Event>),
    /// It loaded a word: row, word, number.
    Load(u32, u32, u64),
    /// It stored a word: row, word, number.
    Store(u32, u32, u64),
    /// It stored the latch: row, number.
    Set(u32, u64),
    /// It loaded a control word: of whom, which, number.
    Hear(u32, u32, u64),
    /// It changed a control word: of whom, which, the number found.
    Turn(u32, u32, u64),
}

/// A row that a seat holds.
pub struct Hold {
    pub row: u32,
    /// The even version from which it was latched.
    pub version: u64,
    /// Words that spell the row in the core state.
    pub was: LinkedList<u64>,
    /// Its words in memory.
    pub now: LinkedList<u64>,
    /// Whether its event was published.
    pub done: bool,
}

/// A seat that has ended: its actor, and what it had seen.
pub struct Ended {
    pub actor: u32,
    pub seen: LinkedList<Event>,
}

/// The view of a seat.
pub struct View {
    /// False once the seat was joined into another.
    pub live: bool,
    /// Where the rows began.
    pub given: Given,
    /// For whom it steps: 0 for the main actor, a worker's number, or the pager's.
    pub actor: u32,
    /// What it has seen: a prefix of what has happened, the first event first.
    pub seen: LinkedList<Event>,
    /// Its steps, the newest first.
    pub steps: LinkedList<Act>,
    /// The rows that it holds.
    pub held: LinkedList<Hold>,
    /// How many seats there were, at the seat that makes the others, and else 0.
    pub made: u32,
    /// The seats that were joined into this one.
    pub ended: LinkedList<Ended>,
}
