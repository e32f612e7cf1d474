// The calls of worker_log on the area of log `number`.
ghost use Rattle.std.specs.Prelude.{◌≡◌, ◌≤◌, ◌<◌, ◌+◌, ◌↔◌, Err, IfOk, IsErr, IsErrAnd, OnOk};
ghost use Rattle.lean_disk.specs.Faults.{HasCause};
ghost use Rattle.lean_disk.specs.Moments.{CrashIn, Framed, LeavesOnly};
ghost use Rattle.lean_disk.specs.Story.{Tells};
ghost use Rattle.disk_runs.specs.log_record.Spelling.{Fits};
ghost use Rattle.disk_runs.specs.worker_log.Accounts.{Account};
ghost use Rattle.disk_runs.specs.worker_log.Calls.{After, flushed_log};
ghost use Rattle.disk_runs.specs.worker_log.Causes.{IsFull, IsLogFull};
ghost use Rattle.disk_runs.specs.worker_log.Kept.{IsInRange, IsKept, LeavesBlocks, StagesTo, flushed};
ghost use Rattle.disk_runs.specs.worker_log.Logs.{used};

use disk_runs::{DiskFault, Record, Staging, WorkerLog};
use lean_disk::{AreaOf, Disk};

pub(crate) fn stage_on<D: Disk>(
    disk: &mut D,
    log: &mut WorkerLog,
    number: u32,
    entry: &Record,
) -> Result<(), Staging>
    requires number { number ≤ 16 }
    requires fits { Fits entry.now }
    requires rises { log.old.last < entry.now.gsn }
    ensures ranges { IsInRange log.new }
    ensures log { OnOk result (After entry.now log.old log.new) }
    ensures same_log { IsErrAnd result IsLogFull → log.new ≡ log.old }
    ensures failed { result ≡ Err Staging.DiskFault → log.new ≡ log.old }
    ensures same_disk { IsErrAnd result IsLogFull → disk.new ≡ disk.old }
    ensures kept { OnOk result ((x : Account) → Tells (D.story disk.new) (1 + number) → IsKept x log.old ((D.story disk.old).area (1 + number))
        → StagesTo entry.now x log.old log.new ((D.story disk.new).area (1 + number))) }
    ensures any_moment { (x : Account) → (Tells (D.story disk.old) (1 + number) → IsKept x log.old ((D.story disk.old).area (1 + number)))
        → LeavesOnly (D.story disk.old) (D.story disk.new) (CrashIn (D.story disk.old) (1 + number) (LeavesBlocks x log.old)) }
    ensures frame { Framed (1 + number) (D.story disk.old) (D.story disk.new) }

    ensures cause_log_full { IsErrAnd result IsLogFull ↔ IsFull log.old }
    ensures cause_disk_fault { HasCause (D.faults disk.old) (D.faults disk.new) (result ≡ Err Staging.DiskFault) }
{
    log.stage(&mut AreaOf::new(disk, 1 + number), entry)
}

pub(crate) fn stage_end_on<D: Disk>(
    disk: &mut D,
    log: &mut WorkerLog,
    number: u32,
    entry: &Record,
) -> Result<(), DiskFault>
    requires number { number ≤ 16 }
    requires fits { Fits entry.now }
    requires rises { log.old.last < entry.now.gsn }
    requires room { used log.old + 1 ≤ log.old.blocks }
    ensures ranges { IsInRange log.new }
    ensures log { OnOk result (After entry.now log.old log.new) }
    ensures failed { IsErr result → log.new ≡ log.old }
    ensures kept { OnOk result ((x : Account) → Tells (D.story disk.new) (1 + number) → IsKept x log.old ((D.story disk.old).area (1 + number))
        → StagesTo entry.now x log.old log.new ((D.story disk.new).area (1 + number))) }
    ensures any_moment { (x : Account) → (Tells (D.story disk.old) (1 + number) → IsKept x log.old ((D.story disk.old).area (1 + number)))
        → LeavesOnly (D.story disk.old) (D.story disk.new) (CrashIn (D.story disk.old) (1 + number) (LeavesBlocks x log.old)) }
    ensures frame { Framed (1 + number) (D.story disk.old) (D.story disk.new) }

    ensures cause_disk_fault { HasCause (D.faults disk.old) (D.faults disk.new) (IsErr result) }
{
    log.stage_end(&mut AreaOf::new(disk, 1 + number), entry)
}

pub(crate) fn flush_on<D: Disk>(
    disk: &mut D,
    log: &mut WorkerLog,
    number: u32,
) -> Result<u64, DiskFault>
    requires number { number ≤ 16 }
    ensures answer { IfOk result (λ flushed. flushed ≡ log.old.last) }
    ensures ranges { IsInRange log.new }
    ensures log { OnOk result (log.new ≡ flushed_log log.old) }
    ensures kept { OnOk result ((x : Account) → Tells (D.story disk.new) (1 + number) → IsKept x log.old ((D.story disk.old).area (1 + number))
        → IsKept (flushed x) log.new ((D.story disk.new).area (1 + number))) }
    ensures any_moment { (x : Account) → (Tells (D.story disk.old) (1 + number) → IsKept x log.old ((D.story disk.old).area (1 + number)))
        → LeavesOnly (D.story disk.old) (D.story disk.new) (CrashIn (D.story disk.old) (1 + number) (LeavesBlocks x log.old)) }
    ensures frame { Framed (1 + number) (D.story disk.old) (D.story disk.new) }

    ensures cause_disk_fault { HasCause (D.faults disk.old) (D.faults disk.new) (IsErr result) }
{
    log.flush(&mut AreaOf::new(disk, 1 + number))
}
