//! Checkpoints: increments, which save the dirty pages of one shard of frames, and cuts, by which the blocks of the logs
//! can be used again.
//!
//! Read specs/Savers, then specs/Increments; specs/Numbers and specs/Cuts.
#![tactic(auto)]

pub mod cut;
pub mod increment;
pub mod number;
pub mod rings;
pub mod saver;
