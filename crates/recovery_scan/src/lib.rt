//! The scan of the logs: the records of the longest run of each, by number and then by log.
#![tactic(auto)]

mod block;
mod reading;

pub use reading::{Unread, scan_logs};
