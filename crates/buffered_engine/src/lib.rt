//! An engine of several sessions over the pages of a disk, of which some are in frames: data may be larger than memory.
#![tactic(auto)]

mod answers;
mod asking;
mod calls;
mod durables;
mod ends;
mod engine;
mod machine;

pub use answers::Hosts;
pub use calls::{Aborted, Began, Synced};
pub use disk_format::{Formatted, Shape, format};
pub use durables::Broken;
pub use engine::{Closed, Engine, Opened};
pub use engine_front::calls::{Durable, Next};
pub use group_commit::{Receipt, Ripeness};
pub use paged_engine::{Size, Unopened};
pub use paged_scans::{Desk, Stages, Step, Unanswered, Unserved, stage_end};

// Passed on to the crates above.
pub use engine_front::calls::Calls as EngineFrontCalls;
pub use lean_edge::{MemSink, MemSource, Put, Sink, Source, StdSink, StdSource};
pub use paged_scans::{
    Body, DiskFault, Heads, Master, MasterStoreDiskFault, Node, PageRef, Record, Staging, Unread,
    WorkerLog, block_bytes, choose, every_agreement, every_block_in, every_kept, every_line_count,
    every_master_in, every_met, every_prefix, every_printed, every_rise, every_run_crash,
    every_sealed, every_shown, every_told, every_undone, every_version, fetch, master_bytes,
    page_bytes, save, spare, write_next,
};
pub use recovery::{Recovered, Unrecovered, every_own, recover};
