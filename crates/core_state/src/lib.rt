//! One state of the whole engine, the events that change it, and what each needs and does.
//!
//! The definitions stand in specs/: `run` of Steps folds a list of events over a state.
#![tactic(auto)]

ghost use Rattle.core_state.specs.Local.{EveryLocal};

// Passed on to the crates above.
pub use image_model::every_undone;

/// An event changes no lock row and no page but those that it publishes, and of the workers its own alone; a sync changes
/// all workers.
pub fn every_local()
    ensures { EveryLocal }
{}
