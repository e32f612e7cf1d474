// A new disk: every page, then the master.
ghost use Rattle.std.specs.Prelude.{◌≡◌, ◌≤◌, ◌<◌, ◌↔◌, ℕ, length, IfOk, IsErr, IsTrue};
ghost use Rattle.lean_disk.specs.Area.{synced, written};
ghost use Rattle.lean_disk.specs.Faults.{HasCause};
ghost use Rattle.lean_disk.specs.Moments.{CrashIn, Framed, LeavesOnly, OnlyReads};
ghost use Rattle.lean_disk.specs.Story.{Tells};
ghost use Rattle.disk_format.specs.Formatted.{Anything, FormatLeaves, HasMaster, HasSyncedPages, IsNewDisk, IsUntouched, Keeps};
ghost use Rattle.master_store.specs.disk_image.MasterSlots.{master_on};
ghost use Rattle.master_store.specs.Masters.{WritesOnce};
ghost use Rattle.disk_format.specs.Fresh.{first_slot};

use crate::parts::{first_master, lay_pages};
use crate::shape::Shape;
use lean_disk::{AreaOf, Did, Disk};
use master_store::{DiskFault, Master, choose, write_next};

/// What `format` did.
#[derive(Clone, Copy, Debug, PartialEq, Eq)]
pub enum Formatted {
    Done,
    /// The disk has a valid master, and stands as it stood.
    AlreadyFormatted,
    DiskFault,
}

fn read_disk_master<D: Disk>(disk: &mut D) -> Result<Option<Master>, DiskFault>
    ensures answer { IfOk result (λ found. Tells (D.story disk.old) 0 → found ≡ master_on ((D.story disk.old).area 0).bytes) }
    ensures reads { OnlyReads (D.story disk.old) (D.story disk.new) }
    ensures cause { HasCause (D.faults disk.old) (D.faults disk.new) (IsErr result) }
{
    choose(&mut AreaOf::new(disk, 0))
}

// Whether a valid master stands in one of the two slots.
fn disk_has_master<D: Disk>(disk: &mut D) -> Result<bool, DiskFault>
    ensures answer { IfOk result (λ found. Tells (D.story disk.old) 0 → IsTrue found ↔ HasMaster ((D.story disk.old).area 0).bytes) }
    ensures reads { OnlyReads (D.story disk.old) (D.story disk.new) }
    ensures cause { HasCause (D.faults disk.old) (D.faults disk.new) (IsErr result) }
{
    match read_disk_master(disk)? {
        Some(_) => Ok(true),
        None => Ok(false),
    }
}

fn lay_disk_pages<D: Disk>(disk: &mut D, pages: u32, buffer: &mut [u8]) -> Did
    requires pages { pages ≤ 65536 }
    requires room { length buffer.old ≡ 65536 }
    ensures any_moment { LeavesOnly (D.story disk.old) (D.story disk.new) (CrashIn (D.story disk.old) 1 Anything) }
    ensures frame { Framed 1 (D.story disk.old) (D.story disk.new) }
    ensures done { result ≡ Did.Done → Tells (D.story disk.new) 1 → HasSyncedPages pages ((D.story disk.new).area 1) }
    ensures cause { HasCause (D.faults disk.old) (D.faults disk.new) (result ≡ Did.Failed) }
{
    lay_pages(&mut AreaOf::new(disk, 1), pages, buffer)
}

fn write_disk_master<D: Disk>(disk: &mut D, shape: Shape) -> Did
    requires { shape.workers ≤ 16 }
    ensures any_moment { LeavesOnly (D.story disk.old) (D.story disk.new) (CrashIn (D.story disk.old) 0 (WritesOnce 0 (first_slot shape) ((D.story disk.old).area 0))) }
    ensures frame { Framed 0 (D.story disk.old) (D.story disk.new) }
    ensures done { result ≡ Did.Done → Tells (D.story disk.new) 0 → (D.story disk.new).area 0 ≡ synced (written 0 (first_slot shape) ((D.story disk.old).area 0)) }
    ensures cause { HasCause (D.faults disk.old) (D.faults disk.new) (result ≡ Did.Failed) }
{
    write_next(&mut AreaOf::new(disk, 0), &first_master(shape))
}

/// Makes a new disk of a shape: page 0 an empty leaf, every other page free, a log for each worker. The buffer holds 64 KiB.
pub fn format<D: Disk>(disk: &mut D, shape: Shape, buffer: &mut [u8]) -> Formatted
    requires workers { shape.workers ≤ 16 }
    requires pages { shape.pages ≤ 65536 }
    requires room { length buffer.old ≡ 65536 }

    ensures after { result ≡ Formatted.Done → IsNewDisk shape (D.story disk.old) (D.story disk.new) }
    ensures same { result ≡ Formatted.AlreadyFormatted → IsUntouched (D.story disk.old) (D.story disk.new) }
    ensures logs { (a : ℕ) → 1 < a → (D.story disk.new).area a ≡ (D.story disk.old).area a }
    ensures keeps { Keeps (D.story disk.old) (D.story disk.new) }

    // It is refused exactly where a valid master stands.
    ensures cause_already_formatted { result ≡ Formatted.AlreadyFormatted → Tells (D.story disk.old) 0 → HasMaster ((D.story disk.old).area 0).bytes }
    ensures no_master { result ≡ Formatted.Done → Tells (D.story disk.old) 0 → HasMaster ((D.story disk.old).area 0).bytes → ⊥ }
    ensures cause_disk_fault { HasCause (D.faults disk.old) (D.faults disk.new) (result ≡ Formatted.DiskFault) }

    ensures any_moment { LeavesOnly (D.story disk.old) (D.story disk.new) (FormatLeaves shape (D.story disk.old)) }
{
    let Ok(found) = disk_has_master(disk) else {
        return Formatted::DiskFault;
    };
    if found {
        return Formatted::AlreadyFormatted;
    }
    let Did::Done = lay_disk_pages(disk, shape.pages, buffer) else {
        return Formatted::DiskFault;
    };
    let Did::Done = write_disk_master(disk, shape) else {
        return Formatted::DiskFault;
    };
    Formatted::Done
}
