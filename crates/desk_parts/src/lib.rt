//! A call of the pager and a sync of all logs as parts of a call of an engine: laws alone.
//!
//! Read specs/Laws. The parameters of a law are the disk as it is before the call and behind it.
#![tactic(auto)]

ghost use Rattle.desk_parts.specs.Laws.{EveryPagePart, EverySyncPart, EverySyncSlots};
ghost use Rattle.desk_parts.specs.Tight.{EveryTight};

use lean_disk::Disk;

// Passed on to the crates above.
pub use call_parts::{
    Body, Clock, DEEPEST, DiskFault, FreePages, Heads, HeldRows, Latches, Master,
    MasterStoreDiskFault, Mode, Node, PageRef, Path, Record, Rows, Session, Staged, Stages,
    Staging, Unanswered, UndoList, Undone, Unread, Unserved, Way, Work, WorkerLog, block_bytes,
    choose, disk_runs_every_opened, every_agreement, every_answer, every_begun, every_block_in,
    every_coming, every_entry, every_flush, every_kept, every_line_count, every_low,
    every_master_in, every_met, every_need, every_opened, every_other, every_prefix, every_printed,
    every_reached, every_reserve, every_residence, every_rise, every_room, every_run_crash,
    every_sealed, every_shown, every_sound, every_told, every_undone, every_version, every_warm,
    every_where, fetch, further_session, laws, master_bytes, page_bytes, reach, save, spare,
    stage_end, write_next,
};
pub use page_provider::{Pager, Refusal, every_few, every_found, every_sequel};
pub use session_desks::{Desk, Machine};

/// A call of the pager is a part of a call; and what is left where it failed.
pub fn every_page_part<D: Disk>(old: &D, new: &D)
    ensures { EveryPagePart (D.story old.now) (D.story new.now) }
{
    call_parts::every_area(old, new);
    call_parts::every_step(old, new);
}

/// So is a sync of all logs.
pub fn every_sync_part<D: Disk>(old: &D, new: &D)
    ensures parts { EverySyncPart (D.story old.now) (D.story new.now) }
    ensures slots { EverySyncSlots D.story old.now new.now }
{
    call_parts::every_still(old, new);
}

/// Both are so of all disks: a body whose disk has gone on has no earlier one to call a law with.
pub fn every_disk_part<D: Disk>()
    ensures pages { (old new : D) → EveryPagePart (D.story old) (D.story new) }
    ensures syncs { (old new : D) → EverySyncPart (D.story old) (D.story new) }
    ensures slots { (old new : D) → EverySyncSlots D.story old new }
{
    call_parts::laws();
}

/// Where syncs stand among the events of such parts, one behind another.
pub fn every_tight()
    ensures { EveryTight }
{
    call_parts::every_reached();
    call_parts::every_where();
}
