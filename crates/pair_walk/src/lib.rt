//! The pairs of a tree of pages, leaf by leaf in the order of their keys.
#![tactic(auto)]

ghost use Rattle.pair_walk.specs.Laws.{ListingLaws};

mod walk;

pub use walk::leaf_from;

/// Pairs of a map between two keys are there, and are put one behind the other.
pub fn every_listing()
    ensures { ListingLaws }
{}
