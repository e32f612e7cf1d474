//! One log as a ring of sealed blocks: records are staged into the block in hand, which is written when it is full or
//! flushed. No block is written twice.
#![tactic(auto)]

mod ends;
mod laws;
mod log;

pub use laws::{
    every_cut, every_flushed, every_kept, every_passed, every_prefix, every_run, every_staged,
};
pub use log::{DiskFault, RESERVE, Staging, WorkerLog};
