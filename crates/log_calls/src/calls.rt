// Calls on log `number`, over which a run of the core may go on.
ghost use Rattle.std.specs.Prelude.{◌≡◌, ◌≤◌, ◌<◌, ◌+◌, ◌↔◌, Err, IfOk, IsErr, IsErrAnd, OnOk};
ghost use Rattle.lean_disk.specs.Faults.{HasCause};
ghost use Rattle.lean_disk.specs.Moments.{Framed};
ghost use Rattle.disk_runs.specs.log_record.Spelling.{Fits};
ghost use Rattle.disk_runs.specs.worker_log.Calls.{After, flushed_log};
ghost use Rattle.disk_runs.specs.worker_log.Causes.{IsFull, IsLogFull};
ghost use Rattle.disk_runs.specs.worker_log.Kept.{IsInRange};
ghost use Rattle.disk_runs.specs.worker_log.Logs.{used};
ghost use Rattle.log_calls.specs.Calls.{FlushesOn, KeepsMoments, KeepsNotes, KeepsWithin, StagesOn};

use crate::parts::{flush_on, stage_end_on, stage_on};
use disk_runs::{DiskFault, Record, Staging, WorkerLog};
use lean_disk::Disk;

/// Puts the record of a change into log `number`.
pub fn stage<D: Disk>(
    disk: &mut D,
    log: &mut WorkerLog,
    number: u32,
    entry: &Record,
) -> Result<(), Staging>
    requires number { number ≤ 16 }
    requires fits { Fits entry.now }
    requires rises { log.old.last < entry.now.gsn }
    ensures ranges { IsInRange log.new }
    ensures after { OnOk result (After entry.now log.old log.new) }
    ensures last { OnOk result (log.new.last ≡ entry.now.gsn) }
    ensures room { OnOk result (used log.new + 1 ≤ log.new.blocks) }
    ensures same_log { IsErrAnd result IsLogFull → log.new ≡ log.old }
    ensures failed { result ≡ Err Staging.DiskFault → log.new ≡ log.old }
    ensures same_disk { IsErrAnd result IsLogFull → disk.new ≡ disk.old }
    ensures stands { OnOk result (StagesOn number entry.now log.old log.new (D.story disk.old) (D.story disk.new)) }
    ensures any_moment { KeepsMoments number log.old (D.story disk.old) (D.story disk.new) }
    ensures told { KeepsNotes number log.old (D.story disk.old) (D.story disk.new) }
    ensures within { KeepsWithin number log.old (D.story disk.old) (D.story disk.new) }
    ensures frame { Framed (number + 1) (D.story disk.old) (D.story disk.new) }
    ensures same_notes { (D.story disk.new).notes ≡ (D.story disk.old).notes }

    ensures cause_log_full { IsErrAnd result IsLogFull ↔ IsFull log.old }
    ensures cause_disk_fault { HasCause (D.faults disk.old) (D.faults disk.new) (result ≡ Err Staging.DiskFault) }
{
    disk_runs::every_version();
    disk_runs::every_staged();
    disk_runs::every_kept();
    disk_runs::every_prefix();
    disk_runs::every_sealed();
    stage_on(disk, log, number, entry)
}

/// Puts the record of an end into log `number`.
pub fn stage_end<D: Disk>(
    disk: &mut D,
    log: &mut WorkerLog,
    number: u32,
    entry: &Record,
) -> Result<(), DiskFault>
    requires number { number ≤ 16 }
    requires fits { Fits entry.now }
    requires rises { log.old.last < entry.now.gsn }
    requires room { used log.old + 1 ≤ log.old.blocks }
    ensures ranges { IsInRange log.new }
    ensures after { OnOk result (After entry.now log.old log.new) }
    ensures last { OnOk result (log.new.last ≡ entry.now.gsn) }
    ensures failed { IsErr result → log.new ≡ log.old }
    ensures stands { OnOk result (StagesOn number entry.now log.old log.new (D.story disk.old) (D.story disk.new)) }
    ensures any_moment { KeepsMoments number log.old (D.story disk.old) (D.story disk.new) }
    ensures told { KeepsNotes number log.old (D.story disk.old) (D.story disk.new) }
    ensures within { KeepsWithin number log.old (D.story disk.old) (D.story disk.new) }
    ensures frame { Framed (number + 1) (D.story disk.old) (D.story disk.new) }
    ensures same_notes { (D.story disk.new).notes ≡ (D.story disk.old).notes }

    ensures cause_disk_fault { HasCause (D.faults disk.old) (D.faults disk.new) (IsErr result) }
{
    disk_runs::every_version();
    disk_runs::every_staged();
    disk_runs::every_kept();
    disk_runs::every_prefix();
    disk_runs::every_sealed();
    stage_end_on(disk, log, number, entry)
}

/// Flushes log `number`. The answer is the number up to which it is flushed then.
pub fn flush<D: Disk>(disk: &mut D, log: &mut WorkerLog, number: u32) -> Result<u64, DiskFault>
    requires number { number ≤ 16 }
    ensures answer { IfOk result (λ flushed. flushed ≡ log.old.last) }
    ensures ranges { IsInRange log.new }
    ensures after { OnOk result (log.new ≡ flushed_log log.old) }
    ensures stands { OnOk result (FlushesOn number log.old log.new (D.story disk.old) (D.story disk.new)) }
    ensures any_moment { KeepsMoments number log.old (D.story disk.old) (D.story disk.new) }
    ensures told { KeepsNotes number log.old (D.story disk.old) (D.story disk.new) }
    ensures within { KeepsWithin number log.old (D.story disk.old) (D.story disk.new) }
    ensures frame { Framed (number + 1) (D.story disk.old) (D.story disk.new) }
    ensures same_notes { (D.story disk.new).notes ≡ (D.story disk.old).notes }

    ensures cause_disk_fault { HasCause (D.faults disk.old) (D.faults disk.new) (IsErr result) }
{
    disk_runs::every_version();
    disk_runs::every_flushed();
    disk_runs::every_kept();
    disk_runs::every_prefix();
    disk_runs::every_sealed();
    flush_on(disk, log, number)
}
