// A flush of log `number` as a sync needs it.
ghost use Rattle.std.specs.Prelude.{◌≡◌, ◌≤◌, ◌+◌, IsErr, OnOk};
ghost use Rattle.lean_disk.specs.Faults.{HasCause};
ghost use Rattle.disk_runs.specs.worker_log.Calls.{flushed_log};
ghost use Rattle.disk_runs.specs.worker_log.Kept.{IsInRange};
ghost use Rattle.lean_disk.specs.Moments.{Framed};
ghost use Rattle.log_calls.specs.Calls.{KeepsMoments, KeepsNotes, KeepsWithin};
ghost use Rattle.log_calls.specs.Wholes.{FlushesWhole};

use crate::calls::flush;
use disk_runs::{DiskFault, WorkerLog};
use lean_disk::Disk;

/// Flushes log `number`, if something of it is not flushed yet: nothing is left then, and no device is called where nothing was.
pub fn flush_whole<D: Disk>(disk: &mut D, log: &mut WorkerLog, number: u32) -> Result<(), DiskFault>
    requires number { number ≤ 16 }
    ensures ranges { IsInRange log.new }
    ensures same_log { log.old.last ≡ log.old.flushed → log.new ≡ log.old }
    ensures same_disk { log.old.last ≡ log.old.flushed → disk.new ≡ disk.old }
    ensures stands { OnOk result (FlushesWhole number log.old log.new (D.story disk.old) (D.story disk.new)) }
    ensures any_moment { KeepsMoments number log.old (D.story disk.old) (D.story disk.new) }
    ensures told { KeepsNotes number log.old (D.story disk.old) (D.story disk.new) }
    ensures within { KeepsWithin number log.old (D.story disk.old) (D.story disk.new) }
    ensures frame { Framed (number + 1) (D.story disk.old) (D.story disk.new) }
    ensures after { OnOk result ((log.old.last ≡ log.old.flushed → ⊥) → log.new ≡ flushed_log log.old) }
    ensures whole { OnOk result ((log.new.last ≡ log.old.last) × (log.new.flushed ≡ log.old.last)) }
    ensures same_notes { (D.story disk.new).notes ≡ (D.story disk.old).notes }

    ensures cause_disk_fault { HasCause (D.faults disk.old) (D.faults disk.new) (IsErr result) }
{
    disk_runs::every_kept();
    disk_runs::every_prefix();
    disk_runs::every_sealed();
    if log.last() == log.flushed() {
        return Ok(());
    }
    flush(disk, log, number)?;
    Ok(())
}
