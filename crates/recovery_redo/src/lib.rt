//! Redo and undo: what the records of all logs make of the pages in memory.
#![tactic(auto)]

mod fields;
mod kinds;
mod outcome;
mod recover;
mod redo;
mod txns;
mod undo;

pub use recover::{Failed, Outcome, recover_pages};
