// What may be wrong of a walk.
use std::alloc::{AllocError, AllocFailed};

/// What is wrong.
#[derive(Clone, Copy, Debug, PartialEq, Eq)]
pub enum Wrong {
    /// Memory was refused.
    Memory,
    /// The disk was not made, or not opened.
    Opening,
    /// A call was refused, or not as the plain program has it.
    Refused,
    /// Its answer is not the plain program's.
    Answer,
    /// The plain program can't go on.
    Plain,
    /// The number up to which all logs are flushed, or how many commits wait.
    Flushed,
    /// A page was saved before its last change was flushed.
    Early,
    /// The page in a frame, its numbers or its hint.
    Frame(u32),
    /// What the node in a frame holds.
    Node(u32),
    /// A disk that a crash leaves was not recovered.
    Lost,
    /// It was recovered to other transactions than those that a crash may leave.
    Winners,
    /// It was recovered to another map than theirs.
    Map,
}

impl From<AllocError> for Wrong {
    fn from(_: AllocError) -> Wrong {
        Wrong::Memory
    }
}

impl<T: Drop> From<AllocFailed<T>> for Wrong {
    fn from(_: AllocFailed<T>) -> Wrong {
        Wrong::Memory
    }
}
