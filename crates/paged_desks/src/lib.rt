//! Sessions that take turns on rows whose pages need not all be in memory: before a call goes down to a key, the pages on the key's way are brought
//! into frames; and where one finds no frame, all logs are synced.
//!
//! Read specs/Machines, then specs/Pages.
#![tactic(auto)]

mod laws;
mod machine;
mod serving;
mod warming;

pub use machine::PagedMachine;
pub use serving::unserved_of;
pub use warming::Unwarmed;

// Passed on to the crates above.
pub use desk_parts::{
    Body, Clock, Desk, DiskFault, FreePages, Heads, HeldRows, Latches,
    Machine as SessionDesksMachine, Master, MasterStoreDiskFault, Mode, Node, PageRef, Path,
    Record, Rows, Session, Staged, Stages, Staging, Unanswered, UndoList, Undone, Unread, Unserved,
    Way, Work, WorkerLog, block_bytes, choose, disk_runs_every_opened, every_agreement,
    every_answer, every_begun, every_block_in, every_coming, every_entry, every_flush, every_kept,
    every_line_count, every_master_in, every_met, every_need, every_opened, every_other,
    every_prefix, every_printed, every_reached, every_reserve, every_residence, every_rise,
    every_room, every_run_crash, every_sealed, every_shown, every_sound, every_told, every_undone,
    every_version, every_where, fetch, further_session, laws as call_parts_laws, master_bytes,
    page_bytes, reach, save, spare, stage_end, write_next,
};
pub use page_pool::{every_frame, every_standing};
