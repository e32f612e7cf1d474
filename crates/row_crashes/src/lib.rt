//! A run of two workers, carried to the bytes of a disk, and what is recovered after each of its crashes.
#![tactic(auto)]

mod calls;
#[cfg(test)]
mod disks;
mod laws;
mod records;
#[cfg(test)]
mod rows;

pub use calls::{carry, flush_first};
pub use laws::{every_begun, every_left, row_opening};
