// The master of a cut.
ghost use Rattle.std.specs.Prelude.{◌≡◌};
ghost use Rattle.lean_disk.specs.Faults.{HasCause};
ghost use Rattle.lean_disk.specs.Moments.{CrashIn, Framed, LeavesOnly};
ghost use Rattle.log_calls.specs.Calls.{Anything};
ghost use Rattle.log_calls.specs.Cuts.{CutsOn, KeepsCut};

use crate::syncs::write_on;
use disk_runs::Master;
use lean_disk::{Did, Disk};

/// Writes the master of a cut, the next one of the run, and syncs it. Behind it the head of each log passes the blocks that
/// have no record above the cut's number.
pub fn cut_master<D: Disk>(disk: &mut D, master: &Master) -> Did
    ensures stands { result ≡ Did.Done → CutsOn master.now (D.story disk.old) (D.story disk.new) }
    ensures any_moment { KeepsCut master.now (D.story disk.old) (D.story disk.new) }
    ensures frame { Framed 0 (D.story disk.old) (D.story disk.new) }
    ensures within { LeavesOnly (D.story disk.old) (D.story disk.new) (CrashIn (D.story disk.old) 0 Anything) }
    ensures same_notes { (D.story disk.new).notes ≡ (D.story disk.old).notes }

    ensures cause { HasCause (D.faults disk.old) (D.faults disk.new) (result ≡ Did.Failed) }
{
    disk_runs::every_version();
    disk_runs::worker_log_every_cut();
    disk_runs::every_passed();
    disk_runs::every_kept();
    disk_runs::every_prefix();
    disk_runs::every_sealed();
    write_on(disk, master)
}
