//! The records of logs in memory: their bytes, kept once, and an index over them.
#![tactic(auto)]

mod head;
mod index;
mod spot;

pub use head::Head;
pub use index::{LogIndex, PushError};
