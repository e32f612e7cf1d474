//! Calls on one log of a disk of several, in the words of a run of the core.
#![tactic(auto)]

mod calls;
mod cuts;
mod parts;
mod syncs;
mod wholes;

pub use calls::{flush, stage, stage_end};
pub use cuts::cut_master;
pub use syncs::sync_master;
pub use wholes::flush_whole;
