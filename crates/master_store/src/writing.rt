// The next master.
ghost use Rattle.std.specs.Prelude.{◌≡◌, ◌*◌, ◌%◌};
ghost use Rattle.lean_disk.specs.Area.{synced, written};
ghost use Rattle.lean_disk.specs.Faults.{HasCause};
ghost use Rattle.lean_disk.specs.Moments.{CrashIn, Framed, LeavesOnly};
ghost use Rattle.lean_disk.specs.Story.{Tells};
ghost use Rattle.page_store.specs.disk_slots.Masters.{master_slot};
ghost use Rattle.master_store.specs.Masters.{Account, IsKept, IsNextOf, LeavesMasters, WritesOnce, wrote};

use lean_disk::{Did, Part};
use page_store::{Master, master_bytes};

/// Writes a master to the slot of its sequence number, and syncs it.
pub fn write_next<P: Part>(dev: &mut P, master: &Master) -> Did
    requires seat { (P.seat dev.old).area ≡ 0 }
    ensures done { result ≡ Did.Done → Tells (P.story dev.old) 0 →
        (P.story dev.new).area 0 ≡ synced (written (1024 * (master.now.sequence % 2)) (master_slot master.now) ((P.story dev.old).area 0)) }
    ensures frame { Framed 0 (P.story dev.old) (P.story dev.new) }
    ensures seat { P.seat dev.new ≡ P.seat dev.old }

    ensures cause { HasCause (P.faults dev.old) (P.faults dev.new) (result ≡ Did.Failed) }

    ensures kept { result ≡ Did.Done → (x : Account) → Tells (P.story dev.old) 0 → IsKept x ((P.story dev.old).area 0) → IsNextOf x master.now →
        IsKept (wrote master.now x) ((P.story dev.new).area 0) }
    ensures any_moment { LeavesOnly (P.story dev.old) (P.story dev.new) (CrashIn (P.story dev.old) 0
        (WritesOnce (1024 * (master.now.sequence % 2)) (master_slot master.now) ((P.story dev.old).area 0))) }
    ensures masters_any_moment { (x : Account) → (Tells (P.story dev.old) 0 → IsKept x ((P.story dev.old).area 0)) → IsNextOf x master.now →
        LeavesOnly (P.story dev.old) (P.story dev.new) (CrashIn (P.story dev.old) 0 (LeavesMasters x master.now)) }
{
    let mut bytes = [0; 1024];
    master_bytes(master, &mut bytes);
    let Did::Done = dev.write(1024 * (master.sequence % 2), &bytes) else {
        return Did::Failed;
    };
    dev.sync()
}
