//! The four clauses that each call of an engine keeps, from what its body shows of its events and what its log says of its calls.
//!
//! Read specs/Clauses, then specs/Begins, specs/Puts and specs/Commits. The parameters of a law are the disk as it is before a call,
//! between two parts of it, and after it.
#![tactic(auto)]

ghost use Rattle.engine_calls.specs.Aborts.{EveryAbort};
ghost use Rattle.engine_calls.specs.Answers.{EveryAnswer};
ghost use Rattle.engine_calls.specs.Begins.{EveryBegin};
ghost use Rattle.engine_calls.specs.Clauses.{EveryComing};
ghost use Rattle.engine_calls.specs.Commits.{EveryCommit};
ghost use Rattle.engine_calls.specs.Entries.{EveryEntry};
ghost use Rattle.engine_calls.specs.Moves.{EveryMove};
ghost use Rattle.engine_calls.specs.Parts.{EveryPart};
ghost use Rattle.engine_calls.specs.Halves.{EveryHalved};
ghost use Rattle.engine_calls.specs.Places.{EveryPlace};
ghost use Rattle.engine_calls.specs.Puts.{EveryGet, EveryPut};
ghost use Rattle.engine_calls.specs.Refused.{EveryRefusal};
ghost use Rattle.engine_calls.specs.Rows.{Rows};
ghost use Rattle.engine_calls.specs.Runs.{EveryRun};
ghost use Rattle.engine_calls.specs.Scans.{EveryScan};
ghost use Rattle.engine_calls.specs.Syncs.{EverySync};

use lean_disk::Disk;

// Passed on to the crates above.
pub use log_calls::{flush, flush_whole, stage_end, sync_master};
pub use run_crashes::{
    DiskFault, Heads, Master, MasterStoreDiskFault, RESERVE, Staging, Unread, WorkerLog,
    block_bytes, choose, every_agreement, every_block_in, every_kept, every_line_count,
    every_master_in, every_met, every_opened, every_prefix, every_printed, every_room,
    every_run_crash, every_sealed, every_shown, every_told, every_version, every_warm, every_where,
    every_whole, fetch, master_bytes, page_bytes, save, spare, write_next,
};

/// A call in parts: how it begins, goes on, ends and stops.
pub fn every_part<D: Disk>(old: &D, mid: &D, new: &D)
    ensures { EveryPart (D.story old.now) (D.story mid.now) (D.story new.now) }
{
    run_crashes::every_version();
    run_crashes::every_kept();
    run_crashes::every_prefix();
    run_crashes::every_sealed();
}

/// Parts of a call that go on from where the disk stands: a page that is saved, a sync of the pages, a log that is flushed, a
/// sync of all, and these put together.
pub fn every_move<D: Disk>(old: &D, mid: &D, new: &D)
    ensures { EveryMove (D.story old.now) (D.story mid.now) (D.story new.now) }
{
    run_crashes::every_version();
    run_crashes::every_kept();
    run_crashes::every_prefix();
    run_crashes::every_sealed();
}

/// A begin itself touches no device.
pub fn every_begin<D: Disk>(old: &D, new: &D)
    ensures { EveryBegin (D.story old.now) (D.story new.now) }
{
    run_crashes::every_version();
}

/// A get, and a del of an absent key, take a row and read.
pub fn every_get<D: Disk>(old: &D, new: &D)
    ensures { EveryGet (D.story old.now) (D.story new.now) }
{
    run_crashes::every_version();
}

/// A put, and a del of a key that is there, take a row, and a record is staged.
pub fn every_put<D: Disk>(old: &D, mid: &D, new: &D)
    ensures { EveryPut (D.story old.now) (D.story mid.now) (D.story new.now) }
{}

/// A commit is an end, which is staged, the rows that are given back, and a flush where the group is full.
pub fn every_commit<D: Disk>(old: &D, now: &D, mid: &D, new: &D)
    ensures { EveryCommit (D.story old.now) (D.story now.now) (D.story mid.now) (D.story new.now) }
{
    run_crashes::every_version();
}

/// An abort puts changes back, its end is staged, and rows are given back.
pub fn every_abort<D: Disk>(old: &D, mid: &D, new: &D)
    ensures { EveryAbort (D.story old.now) (D.story mid.now) (D.story new.now) }
{
    run_crashes::every_version();
}

/// An abort that is refused has put changes back, and may do so again.
pub fn every_halved<D: Disk>(old: &D, new: &D)
    ensures { EveryHalved (D.story old.now) (D.story new.now) }
{}

/// A scan: each pair that it meets, a pause, and its end.
pub fn every_scan<D: Disk>(old: &D, new: &D)
    ensures { EveryScan (D.story old.now) (D.story new.now) }
{
    run_crashes::every_version();
}

/// A sync and a checkpoint are of no session.
pub fn every_sync<D: Disk>(old: &D, new: &D)
    ensures { EverySync (D.story old.now) (D.story new.now) }
{}

/// A call that is refused took rows at most.
pub fn every_refusal<D: Disk>(old: &D, new: &D)
    ensures { EveryRefusal (D.story old.now) (D.story new.now) }
{}

/// The answers of a begin, a get, a put, a del, a commit, an abort and a refusal, whatever a disk is.
pub fn every_answer()
    ensures { EveryAnswer }
{}

/// A whole run, call by call, with its lines.
pub fn every_run<D: Disk>(from: &D, old: &D, new: &D, out: &D)
    ensures { EveryRun (D.story from.now) (D.story old.now) (D.story new.now) (D.story out.now) }
{
    run_crashes::every_shown();
    run_crashes::every_run_crash();
    run_crashes::every_agreement();
    run_crashes::every_kept();
    run_crashes::every_prefix();
    run_crashes::every_sealed();
}

/// Which outcome may come next.
pub fn every_coming()
    ensures { EveryComing }
{}

/// A place on a disk may rest, goes on by calls one after another, and is left where it broke.
pub fn every_place<D: Disk>(old: &D, mid: &D, new: &D)
    ensures { EveryPlace (D.story old.now) (D.story mid.now) (D.story new.now) }
{
    run_crashes::every_kept();
    run_crashes::every_prefix();
    run_crashes::every_sealed();
}

/// The records that are staged are the entries of their events.
pub fn every_entry()
    ensures { EveryEntry }
{}

/// A begin, a put and its commit or its abort by hand: what a body shows can be shown.
pub fn worked_rows()
    ensures { Rows }
{}
