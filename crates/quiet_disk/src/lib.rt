//! A disk in memory that tells contracts nothing, as a disk of files does, and a tree of three levels on it: for tests and measurements of
//! pages that leave memory.
#![tactic(auto)]

mod quiet;
pub mod trees;

pub use quiet::{QuietDisk, QuietPart};
