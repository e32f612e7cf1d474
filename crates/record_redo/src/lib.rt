//! Redo of one record of a log: whether it counts, whether it can be done, and what it makes of the pages in memory.
#![tactic(auto)]

mod apply;
mod asks;
mod flat;
mod redo;
mod refs;

pub use redo::redo_record;
