//! The cooling stage of a buffer manager: a queue of the pages that cool, first in, first out, with a hash table as its
//! index. A page that is to leave memory goes behind the others; one that is reached meanwhile is rescued, wherever it
//! stands; the one that has cooled longest stands at the head. Read specs/Queue.antt.
#![tactic(auto)]

mod index;
mod slots;
mod stage;

ghost use Rattle.cooling_stage.specs.Walk.{EveryPlace};

pub use stage::{Cooling, CoolingStage};

/// A walk by `head` and `behind` passes each place of the queue in turn, and what stands there is found.
pub fn every_place()
    ensures { EveryPlace }
{}
