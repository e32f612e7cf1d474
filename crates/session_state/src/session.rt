// What a session has in memory.
ghost use Rattle.std.specs.Prelude.{◌≤◌};
ghost use Rattle.page_model.specs.Limits.{most_sessions};

use crate::free::FreePages;
use crate::held::HeldRows;
use crate::undo::UndoList;
use flush_avoidance::Clock;

/// A session: its number, which is its worker's and its log's too, of so many; how many of its commits are flushed at once; whether no
/// device has failed; what the core's worker has; whether an abort has put changes back and was then refused; how many of its commits wait
/// for a flush; how many frames there are; the number of its transaction's first record, if there is one; what is still to put back; the lock rows that it holds; and the pages that are free. Whether the
/// engine works and which pages are free is known by the session whose turn it is.
#[derive(Drop)]
pub struct Session {
    pub own: u32,
    pub workers: u32,
    pub group: u32,
    pub works: bool,
    pub is_open: bool,
    pub is_half_aborted: bool,
    pub txn: u64,
    pub clock: Clock,
    pub end: u64,
    pub unflushed: u32,
    pub frames: u32,
    pub first: Option<u64>,
    pub undo: UndoList,
    pub held: HeldRows,
    pub free: FreePages,
    ghost few: { own ≤ most_sessions },
}
