//! What the words of rows are in a state of the core, and which rows an event changes.
//!
//! A frame row has the words of the page that stands in the frame, with swips for the pages that it names; a lock row those of a
//! lock. Beside the rows are control words: numbers and epochs of each worker, and two common ones.
//! Read specs/Layout.antt, specs/Moments.antt and specs/Words.antt; specs/Laws.antt has the laws.
#![tactic(auto)]

pub mod event;
pub mod given;

ghost use Rattle.row_words.specs.Laws.{EveryStays, EveryControl, EveryOwn};

// Passed on to the crates above.
pub use btree_node::Node;

/// An event changes the words of the rows alone that it publishes: what a word of another row might read before it, it may
/// read after it.
pub fn every_stays()
    ensures { EveryStays }
{}

/// An event changes the control words alone that it sets.
pub fn every_control()
    ensures { EveryControl }
{}

/// An event of another actor, but for a sync, leaves a worker's record, its flushed number and its epoch.
pub fn every_own()
    ensures { EveryOwn }
{}
