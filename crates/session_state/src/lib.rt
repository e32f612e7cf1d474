//! What a session of an engine has in memory beside its rows, where one thread executes: what is so of it between two calls, how it begins, and
//! what a sync does to it.
//!
//! The calls are those of paged_calls, paged_ends and paged_aborts. Read specs/Holds and specs/Ties, then the laws.
#![tactic(auto)]

mod free;
mod held;
mod laws;
mod numbers;
mod opening;
mod session;
mod syncs;
mod undo;
mod work;

pub use btree_descent::Staged;
pub use engine_calls::stage_end;
pub use free::FreePages;
pub use held::HeldRows;
pub use laws::{every_cut, every_flush, every_other, every_reserve, every_synced};
pub use numbers::{clocks_low, next_fits};
pub use opening::further_session;
pub use session::Session;
pub use syncs::{Flushes, flush_own, may_flush, settle, store_synced, wait_for_flush};
pub use undo::{UndoList, Undone};
pub use work::{Stages, Work};

// Passed on to the crates above.
pub use btree_descent::del::{Del, del_at, leaf_del};
pub use btree_descent::descent::{Answer, Stop, TOMBSTONE, again, find};
pub use btree_descent::next::{Following, Locked, next};
pub use btree_descent::put::{Put, Spot, leaf_put, leaf_put_back, locate};
pub use btree_descent::reach::{Way, reach};
pub use btree_descent::{
    Body, BtreeNodeNode as Node, DEEPEST, Names, Nothing, PageRef, Path, PlainRows, Record, Rows,
    RowsTraitTrace as Trace, Unstaged, every_begin, every_low, every_residence, every_rise,
    every_turn, every_undone,
};
pub use engine_calls::{
    DiskFault, Heads, Master, MasterStoreDiskFault, Staging, Unread, WorkerLog, block_bytes,
    choose, every_agreement, every_answer, every_block_in, every_coming, every_entry, every_kept,
    every_line_count, every_master_in, every_met, every_move,
    every_opened as disk_runs_every_opened, every_prefix, every_printed, every_room,
    every_run_crash, every_sealed, every_shown, every_told, every_version, every_warm, every_where,
    every_whole, fetch, flush, master_bytes, page_bytes, save, spare, sync_master, write_next,
};
pub use engine_trait::{Unanswered, Unserved};
pub use flush_avoidance::Clock;
pub use key_locks::every_sound;
pub use key_locks::latches::Latches;
pub use key_locks::locking::{Refusal, RowSpent, lock_again, lock_row, row_of};
pub use key_locks::mode::Mode;
pub use row_numbers::every_begun;
pub use row_opening::{Faith, every_need, every_opened, every_reached, open_root};
