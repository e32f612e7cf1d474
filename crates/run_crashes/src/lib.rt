//! What a crash leaves of a run of a script, in the words of the lines that were out by then.
//!
//! Read specs/Lines, then specs/Laws.
#![tactic(auto)]

ghost use Rattle.run_crashes.specs.Laws.{EveryCrashedLine, EveryLine, EveryPut, EveryReopened, EveryStop};

use lean_disk::Disk;

// Passed on to the crates above.
pub use core_calls::{
    every_line_count, every_met, every_printed, every_room, every_run_crash, every_told,
    every_warm, every_where,
};
pub use disk_runs::{
    DiskFault, Heads, Master, MasterStoreDiskFault, RESERVE, Staging, Unread, WorkerLog,
    block_bytes, choose, every_agreement, every_block_in, every_kept, every_master_in,
    every_opened, every_prefix, every_sealed, every_shown, every_version, every_whole, fetch,
    master_bytes, page_bytes, save, spare, write_next,
};

/// What recovery gives from a disk that a crash left, in the words of the lines that were out.
pub fn every_reopened()
    ensures { EveryReopened }
{
    disk_runs::every_shown();
    core_calls::every_run_crash();
    disk_runs::every_agreement();
}

/// A crash in a call, and one while its lines are put.
pub fn every_crashed_line()
    ensures { EveryCrashedLine }
{
    disk_runs::every_shown();
    core_calls::every_run_crash();
    disk_runs::every_agreement();
}

/// While lines are put a crash leaves what the disk stands for.
pub fn every_put<D: Disk>(now: &D)
    ensures { EveryPut (D.story now.now) }
{
    disk_runs::every_kept();
    disk_runs::every_prefix();
    disk_runs::every_sealed();
}

/// One line more of a script: a call that was answered, and its lines.
pub fn every_line<D: Disk>(from: &D, old: &D, mid: &D, new: &D)
    ensures { EveryLine (D.story from.now) (D.story old.now) (D.story mid.now) (D.story new.now) }
{
    disk_runs::every_shown();
    core_calls::every_run_crash();
    disk_runs::every_agreement();
}

/// A call that was not answered.
pub fn every_stop<D: Disk>(from: &D, old: &D, new: &D)
    ensures { EveryStop (D.story from.now) (D.story old.now) (D.story new.now) }
{
    disk_runs::every_shown();
    core_calls::every_run_crash();
    disk_runs::every_agreement();
}
