//! A place in memory on which sessions' calls run: an index, lock rows and a journal in one object, with several sessions.
#![tactic(auto)]

ghost use Rattle.mem_journal.specs.Openings.{EveryOpening};

mod entries;
mod index;
mod journal;
mod locks;
mod log;
mod place;
mod row;
#[cfg(test)]
mod tests;
mod worker;

pub use entries::Entry;
pub use log::{Record, What};
pub use place::MemJournal;
pub use row::Row;
pub use worker::Worker;

/// There is an opening with one empty leaf, and with what sessions ask of it.
pub fn every_opening()
    ensures { EveryOpening }
{}
