// The row's records are put into two logs of a disk, each by the call that an engine makes for its event.
ghost use Rattle.std.specs.Prelude.{◌≡◌, [], take, OnOk};
ghost use Rattle.disk_runs.specs.core_crash.Example.{events};
ghost use Rattle.disk_runs.specs.worker_log.Logs.{Log};
ghost use Rattle.row_crashes.specs.Left.{AnyMomentLeft, ripe_events};
ghost use Rattle.row_crashes.specs.Row.{AnyMoment, AnyMomentLives, Carries};

use crate::records::{ABORT, CHANGE_5, CHANGE_6, CHANGE_6_AGAIN, COMMIT, PUT_BACK_6};
use disk_runs::{DiskFault, Staging, WorkerLog};
use lean_disk::Disk;
use log_calls::{flush, stage, stage_end};

/// Puts the records of the row into the logs 1 and 2, and flushes log 2.
pub fn carry<D: Disk>(
    disk: &mut D,
    first: &mut WorkerLog,
    second: &mut WorkerLog,
) -> Result<(), Staging>
    requires first { first.old.last ≡ 0 }
    requires second { second.old.last ≡ 0 }
    ensures last { OnOk result (first.new.last ≡ 1) }
    ensures stands { OnOk result (Carries [] events first.old second.old first.new second.new (D.story disk.old) (D.story disk.new)) }
    ensures any_moment { AnyMoment [] first.old second.old (D.story disk.old) (D.story disk.new) }
    ensures lives { AnyMomentLives [] first.old second.old (D.story disk.old) (D.story disk.new) }
{
    disk_runs::every_survival();
    change_first(disk, first)?;
    abort_second(disk, second)?;
    commit_second(disk, second)
}

/// Flushes log 1 behind the row.
pub fn flush_first<D: Disk>(disk: &mut D, first: &mut WorkerLog) -> Result<u64, DiskFault>
    requires last { first.old.last ≡ 1 }
    ensures stands { OnOk result ((second : Log) → Carries events ripe_events first.old second first.new second (D.story disk.old) (D.story disk.new)) }
    ensures any_moment { (second : Log) → AnyMomentLeft first.old second (D.story disk.old) (D.story disk.new) }
{
    disk_runs::every_version();
    disk_runs::every_held();
    flush(disk, first, 1)
}

// Worker 1 changes key 5 and stays open.
fn change_first<D: Disk>(disk: &mut D, first: &mut WorkerLog) -> Result<(), Staging>
    requires last { first.old.last ≡ 0 }
    ensures last { OnOk result (first.new.last ≡ 1) }
    ensures stands { OnOk result ((second : Log) → Carries [] (take 3 events) first.old second first.new second (D.story disk.old) (D.story disk.new)) }
    ensures any_moment { (second : Log) → AnyMoment [] first.old second (D.story disk.old) (D.story disk.new) }
{
    disk_runs::every_version();
    stage(disk, first, 1, &CHANGE_5)
}

// Worker 2 changes key 6, puts it back and aborts.
fn abort_second<D: Disk>(disk: &mut D, second: &mut WorkerLog) -> Result<(), Staging>
    requires last { second.old.last ≡ 0 }
    ensures last { OnOk result (second.new.last ≡ 4) }
    ensures stands { OnOk result ((first : Log) → Carries (take 3 events) (take 9 events) first second.old first second.new (D.story disk.old) (D.story disk.new)) }
    ensures any_moment { (first : Log) → AnyMoment (take 3 events) first second.old (D.story disk.old) (D.story disk.new) }
{
    disk_runs::every_version();
    stage(disk, second, 2, &CHANGE_6)?;
    stage(disk, second, 2, &PUT_BACK_6)?;
    match stage_end(disk, second, 2, &ABORT) {
        Ok(()) => Ok(()),
        Err(_) => Err(Staging::DiskFault),
    }
}

// It changes key 6 again and commits, and its log is flushed.
fn commit_second<D: Disk>(disk: &mut D, second: &mut WorkerLog) -> Result<(), Staging>
    requires last { second.old.last ≡ 4 }
    ensures stands { OnOk result ((first : Log) → Carries (take 9 events) events first second.old first second.new (D.story disk.old) (D.story disk.new)) }
    ensures any_moment { (first : Log) → AnyMoment (take 9 events) first second.old (D.story disk.old) (D.story disk.new) }
{
    disk_runs::every_version();
    stage(disk, second, 2, &CHANGE_6_AGAIN)?;
    match stage_end(disk, second, 2, &COMMIT) {
        Ok(()) => flush_second(disk, second),
        Err(_) => Err(Staging::DiskFault),
    }
}

fn flush_second<D: Disk>(disk: &mut D, second: &mut WorkerLog) -> Result<(), Staging>
    requires last { second.old.last ≡ 6 }
    ensures stands { OnOk result ((first : Log) → Carries (take 14 events) events first second.old first second.new (D.story disk.old) (D.story disk.new)) }
    ensures any_moment { (first : Log) → AnyMoment (take 14 events) first second.old (D.story disk.old) (D.story disk.new) }
{
    disk_runs::every_version();
    match flush(disk, second, 2) {
        Ok(_) => Ok(()),
        Err(_) => Err(Staging::DiskFault),
    }
}
