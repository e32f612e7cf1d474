//! The calls of the session whose turn it is, where pages need not be in memory: before a call goes down to a key it takes the key's lock row; where a page of the
//! key's way is not hot, the pages of the way are brought into frames.
//!
//! Read specs/Calls, then `get`, `del` and `put`.
#![tactic(auto)]

mod deleting;
mod dels;
mod gets;
mod growing;
mod laws;
mod puts;
mod reading;
mod taking;
mod tests;
mod tidying;

pub use dels::del;
pub use gets::get;
pub use puts::put;

// Passed on to the crates above.
pub use paged_desks::{
    Body, Desk, DiskFault, Heads, Master, MasterStoreDiskFault, Node, PageRef, PagedMachine,
    Record, SessionDesksMachine as Machine, Stages, Staging, Unanswered, Unread, Unserved, Work,
    WorkerLog, block_bytes, choose, every_agreement, every_answer, every_block_in, every_coming,
    every_frame, every_kept, every_line_count, every_master_in, every_met, every_need, every_other,
    every_prefix, every_printed, every_reached, every_residence, every_rise, every_run_crash,
    every_sealed, every_shown, every_told, every_undone, every_version, fetch, master_bytes,
    page_bytes, save, spare, stage_end, unserved_of, write_next,
};
pub use row_room::{Ended, call_refusal};
