//! One session over a machine whose pages need not be in memory, on a quiet disk: for tests and measurements.
#![tactic(auto)]

mod engine;

pub use engine::Engine;

// Passed on to the crates above.
pub use paged_calls::Unserved;
