//! Rows of words that seats share, with the events that have happened on them, and what a seat knows of both.
//!
//! Each row has a version latch, as in optimistic lock coupling: even while the row is free, odd while a seat holds it. A seat may
//! load the words of a row at any time; what it loaded counts once the latch is found to be the even number that it was before.
//! Read specs/Layout.antt, specs/Views.antt and specs/Turns.antt; specs/Rule.antt is what holds between any two steps.
#![tactic(auto)]

ghost use Rattle.rows_trait.specs.Causes.{EveryLow};

pub mod names;
pub mod plain;
pub mod rows;
pub mod trace;
pub mod view;

// Passed on to the crates above.
pub use row_words::Node;

/// A number that was found in a latch is at most one above twice the number of events that were seen.
pub fn every_low()
    ensures { EveryLow }
{}
