//! A run of the core over a disk that tells what its calls did: what stands between two calls, what a crash leaves at each moment,
//! and how each call of a log, of the pages or of a master goes on.
//!
//! Read specs/Stands, then specs/Laws. The parameters of a law are the disk as it is before a call and after it.
#![tactic(auto)]

ghost use Rattle.disk_runs.specs.Fair.{EveryFair};
ghost use Rattle.disk_runs.specs.Laws.{EveryFlush, EveryLogCall, EveryRead, EveryRest, EverySame, EveryStage, EveryStill};
ghost use Rattle.disk_runs.specs.PageLaws.{EveryFetch, EverySave, EverySettled};
ghost use Rattle.disk_runs.specs.MasterLaws.{EveryCut, EveryMaster, EveryMasterWrite, EveryNextMaster, EveryStillSync, EverySync};
ghost use Rattle.disk_runs.specs.Masters.{EveryMasterCount, EveryMasterLine};
ghost use Rattle.disk_runs.specs.Moments.{EveryAmong, EveryLasting, EveryMoment, EverySurvival};
ghost use Rattle.disk_runs.specs.Openings.{EveryOpened};
ghost use Rattle.disk_runs.specs.Quiet.{EveryQuiet};
ghost use Rattle.disk_runs.specs.Refusals.{Refusals};
ghost use Rattle.disk_runs.specs.Rings.{EveryRing, EveryStillCut};

use lean_disk::Disk;

// Passed on to the crates above.
pub use core_disk::{every_held, every_residence, every_shown, every_version};
pub use master_store::{
    Body, Bounds, DiskFault as MasterStoreDiskFault, Heads, Lost, Master, Node, PageRef, Record,
    Seal, Unread, block_bytes, choose, every_agreement, every_block_in, every_master_in,
    every_page, every_read as page_store_every_read, every_seal, every_sealed, every_whole, fetch,
    fetch_known, master_bytes, page_bytes, save, spare, write_next,
};
pub use worker_log::{
    DiskFault, RESERVE, Staging, WorkerLog, every_cut as worker_log_every_cut, every_flushed,
    every_kept, every_passed, every_prefix, every_staged,
};

/// Fairness since a story is fairness since what a read gave there.
pub fn every_fair<D: Disk>(now: &D)
    ensures { EveryFair (D.story now.now) }
{}

/// Between two calls a crash leaves what the core says.
pub fn every_rest<D: Disk>(now: &D)
    ensures { EveryRest (D.story now.now) }
{
    worker_log::every_kept();
    worker_log::every_prefix();
    master_store::every_sealed();
}

/// So it is at each moment of a call on a log.
pub fn every_log_call<D: Disk>(old: &D, new: &D)
    ensures { EveryLogCall (D.story old.now) (D.story new.now) }
{
    worker_log::every_kept();
    worker_log::every_prefix();
    master_store::every_sealed();
}

/// An event that the disk does not see.
pub fn every_still<D: Disk>(now: &D)
    ensures { EveryStill (D.story now.now) }
{
    core_disk::every_version();
}

/// A call that leaves the areas as they were.
pub fn every_same<D: Disk>(old: &D, new: &D)
    ensures { EverySame (D.story old.now) (D.story new.now) }
{}

/// A record is staged.
pub fn every_stage<D: Disk>(old: &D, new: &D)
    ensures { EveryStage (D.story old.now) (D.story new.now) }
{
    core_disk::every_version();
    worker_log::every_staged();
}

/// A log is flushed.
pub fn every_flush<D: Disk>(old: &D, new: &D)
    ensures { EveryFlush (D.story old.now) (D.story new.now) }
{
    core_disk::every_version();
    worker_log::every_flushed();
}

/// A page is saved to the slot that is not its firm one.
pub fn every_save<D: Disk>(old: &D, new: &D)
    ensures { EverySave (D.story old.now) (D.story new.now) }
{
    core_disk::every_version();
    worker_log::every_kept();
    worker_log::every_prefix();
    master_store::every_sealed();
}

/// The pages are synced.
pub fn every_settled<D: Disk>(old: &D, new: &D)
    ensures { EverySettled (D.story old.now) (D.story new.now) }
{
    core_disk::every_version();
    worker_log::every_kept();
    worker_log::every_prefix();
    master_store::every_sealed();
}

/// A page is read as it was saved last.
pub fn every_fetch<D: Disk>(now: &D)
    ensures { EveryFetch (D.story now.now) }
{}

/// The next master is written and synced.
pub fn every_master<D: Disk>(old: &D, mid: &D, new: &D)
    ensures { EveryMaster (D.story old.now) (D.story mid.now) (D.story new.now) }
{
    worker_log::every_kept();
    worker_log::every_prefix();
    master_store::every_sealed();
}

/// The next master is written, or its write fails.
pub fn every_master_write<D: Disk>(old: &D, new: &D)
    ensures { EveryMasterWrite (D.story old.now) (D.story new.now) }
{
    worker_log::every_kept();
    worker_log::every_prefix();
    master_store::every_sealed();
}

/// The next master is written and synced by one call of master_store.
pub fn every_next_master<D: Disk>(old: &D, new: &D)
    ensures { EveryNextMaster (D.story old.now) (D.story new.now) }
{
    worker_log::every_kept();
    worker_log::every_prefix();
    master_store::every_sealed();
}

/// The masters of a run, one after another.
pub fn every_master_line()
    ensures { EveryMasterLine }
{}

/// How many are written by the events of a run, and of its parts.
pub fn every_master_count()
    ensures { EveryMasterCount }
{}

/// What stands by the master of a sync.
pub fn every_sync<D: Disk>(now: &D)
    ensures { EverySync (D.story now.now) }
{
    core_disk::every_version();
}

/// A sync up to what all logs were flushed to needs no master.
pub fn every_still_sync<D: Disk>(now: &D)
    ensures { EveryStillSync (D.story now.now) }
{
    core_disk::every_version();
}

/// What stands by the master of a cut.
pub fn every_cut<D: Disk>(now: &D)
    ensures { EveryCut (D.story now.now) }
{
    core_disk::every_version();
    worker_log::every_cut();
}

/// Each head passes the blocks that have no record above the cut's number.
pub fn every_ring<D: Disk>(now: &D)
    ensures { EveryRing (D.story now.now) }
{
    worker_log::every_passed();
}

/// A cut by which no head moves needs no master.
pub fn every_still_cut<D: Disk>(now: &D)
    ensures { EveryStillCut (D.story now.now) }
{
    core_disk::every_version();
    worker_log::every_passed();
}

/// Most events change nothing that a disk shows.
pub fn every_quiet()
    ensures { EveryQuiet }
{}

/// A run begins on the disk that recovery leaves.
pub fn every_opened<D: Disk>(now: &D)
    ensures { EveryOpened (D.story now.now) }
{
    core_disk::every_version();
}

/// Moments of calls one after another are moments of all their events.
pub fn every_among()
    ensures { EveryAmong }
{}

/// How the moments of a whole run are put together.
pub fn every_moment<D: Disk>(from: &D, old: &D, new: &D)
    ensures { EveryMoment (D.story from.now) (D.story old.now) (D.story new.now) }
{}

/// What recovery gives from what a crash at any of them leaves.
pub fn every_survival()
    ensures { EverySurvival }
{
    core_disk::every_held();
    core_disk::every_serial();
}

/// What was committed and ripe stays so.
pub fn every_lasting()
    ensures { EveryLasting }
{
    core_disk::every_rise();
}

/// As a read gives it, the disk holds what a crash now would leave.
pub fn every_read<D: Disk>(now: &D)
    ensures { EveryRead (D.story now.now) }
{
    worker_log::every_kept();
    worker_log::every_prefix();
    master_store::every_sealed();
}

/// Rules that an engine may not follow.
pub fn refusals()
    ensures { Refusals }
{}
