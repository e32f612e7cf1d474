//! The opening of a disk for an engine larger than memory: rows of which page 0 alone is in a frame, and the pager that
//! brings the other pages in from the disk.
//! Read specs/Opened.antt.
#![tactic(auto)]

mod cold;
mod free;
mod opening;
mod pages;

pub use opening::{Opened, open};
