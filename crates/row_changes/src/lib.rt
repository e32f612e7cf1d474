//! What the calls of an engine's sessions do behind their tests, piece by piece, on rows of words where one thread executes: a lock row is
//! taken; then a key is read, put or deleted in its leaf, or a change is put back.
//!
//! Each piece says which events it was, by its answer, and keeps what session_state's `Holds` says. In which run that is, is said
//! by whoever puts them together. Read specs/Takes, Reads and Puts, then the others.
#![tactic(auto)]

mod backs;
mod clock;
mod dels;
mod puts;
mod reads;
mod taking;
mod ways;

pub use backs::put_back;
pub use clock::{CLOCK_END, clock_refusal};
pub use dels::{del_at_spot, del_held, find_spot};
pub use puts::{Tried, put_in_leaf};
pub use reads::read_held;
pub use taking::take_row;
pub use ways::{Cold, Unmade, unserved_of};

// Passed on to the crates above.
pub use session_state::{
    DEEPEST, Following, FreePages, Locked, Mode, Path, Rows, Session, Spot, Stages, TOMBSTONE,
    Unanswered, Unserved, Unstaged, Way, Work, WorkerLog, again, every_low, every_room, every_warm,
    next, next_fits, reach,
};
