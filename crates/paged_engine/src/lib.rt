//! The opening of an engine whose pages need not all be in memory: on a disk that is recovered stands a machine of sessions and a pager, at the
//! start of a run.
//!
//! Read specs/Openings, then `open`.
#![tactic(auto)]

mod opening;
mod seats;

pub use opening::{Opened, Size, Unopened, open};
