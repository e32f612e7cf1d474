// The master of a sync.
ghost use Rattle.std.specs.Prelude.{◌≡◌, ◌*◌, ◌%◌};
ghost use Rattle.lean_disk.specs.Area.{synced, written};
ghost use Rattle.lean_disk.specs.Faults.{HasCause};
ghost use Rattle.lean_disk.specs.Moments.{CrashIn, Framed, LeavesOnly};
ghost use Rattle.lean_disk.specs.Story.{Tells};
ghost use Rattle.disk_runs.specs.disk_slots.Masters.{master_slot};
ghost use Rattle.disk_runs.specs.master_store.Masters.{WritesOnce};
ghost use Rattle.log_calls.specs.Calls.{Anything};
ghost use Rattle.log_calls.specs.Syncs.{KeepsEither, SyncsOn};

use disk_runs::{Master, write_next};
use lean_disk::{AreaOf, Did, Disk};

pub(crate) fn write_on<D: Disk>(disk: &mut D, master: &Master) -> Did
    ensures any_moment { LeavesOnly (D.story disk.old) (D.story disk.new) (CrashIn (D.story disk.old) 0 (WritesOnce (1024 * (master.now.sequence % 2)) (master_slot master.now) ((D.story disk.old).area 0))) }
    ensures frame { Framed 0 (D.story disk.old) (D.story disk.new) }
    ensures done { result ≡ Did.Done → Tells (D.story disk.old) 0 → (D.story disk.new).area 0 ≡ synced (written (1024 * (master.now.sequence % 2)) (master_slot master.now) ((D.story disk.old).area 0)) }

    ensures cause { HasCause (D.faults disk.old) (D.faults disk.new) (result ≡ Did.Failed) }
{
    write_next(&mut AreaOf::new(disk, 0), master)
}

/// Writes the master of a sync, the next one of the run, and syncs it. Before it each log is flushed, behind it each is marked.
pub fn sync_master<D: Disk>(disk: &mut D, master: &Master) -> Did
    ensures stands { result ≡ Did.Done → SyncsOn master.now (D.story disk.old) (D.story disk.new) }
    ensures any_moment { KeepsEither master.now (D.story disk.old) (D.story disk.new) }
    ensures frame { Framed 0 (D.story disk.old) (D.story disk.new) }
    ensures within { LeavesOnly (D.story disk.old) (D.story disk.new) (CrashIn (D.story disk.old) 0 Anything) }
    ensures same_notes { (D.story disk.new).notes ≡ (D.story disk.old).notes }

    ensures cause { HasCause (D.faults disk.old) (D.faults disk.new) (result ≡ Did.Failed) }
{
    disk_runs::every_version();
    disk_runs::every_kept();
    disk_runs::every_prefix();
    disk_runs::every_sealed();
    write_on(disk, master)
}
