//! A scan of the session whose turn it is, step by step, where pages need not be in memory: each step tells the next pair, or that the scan
//! stops here, or that it is over. Where a page of a key's way is not hot, the pages of the way are brought into frames.
//!
//! Read specs/Calls, then `scan_on`.
#![tactic(auto)]

mod laws;
mod nexts;
mod scans;
mod walks;

pub use scans::{PAIRS, Scan, Step, scan_on};

// Passed on to the crates above.
pub use paged_calls::{
    Body, Desk, DiskFault, Ended, Heads, Machine, Master, MasterStoreDiskFault, Node, PageRef,
    PagedMachine, Record, Stages, Staging, Unanswered, Unread, Unserved, Work, WorkerLog,
    block_bytes, choose, del, every_agreement, every_block_in, every_kept, every_line_count,
    every_master_in, every_met, every_prefix, every_printed, every_reached, every_rise,
    every_run_crash, every_sealed, every_shown, every_told, every_undone, every_version, fetch,
    get, master_bytes, page_bytes, put, save, spare, stage_end, write_next,
};
