// The master that counts.
ghost use Rattle.std.specs.Prelude.{◌≡◌, ◌<◌, ◌*◌, ℕ, IfOk, IfSome, IsErr};
ghost use Rattle.page_store.specs.image_model.Fair.{piece};
ghost use Rattle.lean_disk.specs.Faults.{HasCause};
ghost use Rattle.lean_disk.specs.Moments.{OnlyReads};
ghost use Rattle.lean_disk.specs.Story.{Tells};
ghost use Rattle.page_store.specs.disk_image.MasterSlots.{master_in, master_on};
ghost use Rattle.page_store.specs.disk_image.MasterSlots as slots;
ghost use Rattle.master_store.specs.Masters.{IsOfSlot};

use lean_disk::{Part, Read};
use page_store::{Master, every_master, every_master_in, read_master};

/// The disk answered no.
#[derive(Clone, Copy, Debug, PartialEq, Eq)]
pub struct DiskFault;

/// Chooses the valid master with the greater sequence number, if there is one.
pub fn choose<P: Part>(dev: &mut P) -> Result<Option<Master>, DiskFault>
    requires seat { (P.seat dev.old).area ≡ 0 }
    ensures answer { IfOk result (λ found. Tells (P.story dev.old) 0 → found ≡ master_on ((P.story dev.old).area 0).bytes) }
    ensures valid { IfOk result (λ found. IfSome found IsOfSlot) }
    ensures reads { OnlyReads (P.story dev.old) (P.story dev.new) }
    ensures seat { P.seat dev.new ≡ P.seat dev.old }

    ensures cause { HasCause (P.faults dev.old) (P.faults dev.new) (IsErr result) }
{
    let first = read_slot(dev, 0)?;
    let second = read_slot(dev, 1)?;
    Ok(newer(first, second))
}

// The master that a slot holds.
fn read_slot<P: Part>(dev: &mut P, slot: u32) -> Result<Option<Master>, DiskFault>
    requires slot { slot < 2 }
    requires seat { (P.seat dev.old).area ≡ 0 }
    ensures answer { IfOk result (λ found. Tells (P.story dev.old) 0 → found ≡ master_in slot (piece 1024 slot ((P.story dev.old).area 0).bytes)) }
    ensures valid { IfOk result (λ found. IfSome found IsOfSlot) }
    ensures reads { OnlyReads (P.story dev.old) (P.story dev.new) }
    ensures seat { P.seat dev.new ≡ P.seat dev.old }

    ensures cause { HasCause (P.faults dev.old) (P.faults dev.new) (IsErr result) }
{
    let mut bytes = [0; 1024];
    let Read::Got(n) = dev.read(1024 * slot as u64, &mut bytes) else {
        return Err(DiskFault);
    };
    Ok(take_master(slot, &bytes[..n]))
}

// The master that the bytes of a slot spell.
fn take_master(slot: u32, bytes: &[u8]) -> Option<Master>
    ensures answer { result ≡ master_in slot bytes.now }
    ensures valid { IfSome result IsOfSlot }
{
    every_master();
    every_master_in();
    match read_master(slot, bytes) {
        Ok(master) => Some(master),
        Err(_) => None,
    }
}

// The one with the greater sequence number.
fn newer(first: Option<Master>, second: Option<Master>) -> Option<Master>
    ensures { result ≡ slots.newer first second }
{
    match (first, second) {
        (None, other) => other,
        (Some(master), None) => Some(master),
        (Some(master), Some(other)) => {
            if master.sequence < other.sequence {
                return Some(other);
            }
            Some(master)
        }
    }
}
