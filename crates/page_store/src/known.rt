// A page from the slot that is known to count.
ghost use Rattle.std.specs.Prelude.{◌≡◌, ◌<◌, ◌-◌, ℕ, Err, IfOk, IsErr, length};
ghost use Rattle.lean_disk.specs.Faults.{HasCause};
ghost use Rattle.lean_disk.specs.Moments.{OnlyReads};
ghost use Rattle.lean_disk.specs.Story.{Tells};
ghost use Rattle.page_store.specs.declared.slot.Held.{Held};
ghost use Rattle.page_store.specs.declared.slot.Seal.{Seal};
ghost use Rattle.page_store.specs.Slots.{HasSeal, HoldsIn, IsOf, slot_bytes};
ghost use Rattle.page_store.specs.Inside.{seal_of};

use crate::saving::spare;
use crate::slot::{Bounds, DiskFault, Held, Seal, fetch_at};
use disk_image::Node;
use lean_disk::Part;

/// Why a page could not be fetched from the slot that counts.
#[derive(Clone, Copy, Debug, PartialEq, Eq)]
pub enum Lost {
    /// That slot holds no valid page. The other one is not taken for it, not even where it is `Valid`.
    Damaged { counts: Seal, other: Seal },
    DiskFault,
}

// What its bytes are.
fn seal_of(held: &Held) -> Seal
    ensures { result ≡ seal_of held.now }
{
    match held {
        Held::Page(_) => Seal::Valid,
        Held::NoPage(seal) => *seal,
    }
}

// What the bytes of a slot are.
fn seal_at<P: Part>(
    dev: &mut P,
    bounds: Bounds,
    page: u32,
    slot: u32,
    buffer: &mut [u8],
) -> Result<Seal, DiskFault>
    requires half { slot < 2 }
    requires room { length buffer.old ≡ 1024 }
    ensures answer { IfOk result (λ seal. Tells (P.story dev.old) (P.seat dev.old).area →
        HasSeal bounds page (slot_bytes page slot ((P.story dev.old).area (P.seat dev.old).area).bytes) seal) }
    ensures reads { OnlyReads (P.story dev.old) (P.story dev.new) }
    ensures seat { P.seat dev.new ≡ P.seat dev.old }
    ensures cause { HasCause (P.faults dev.old) (P.faults dev.new) (IsErr result) }
{
    match fetch_at(dev, bounds, page, slot, buffer) {
        Ok(held) => Ok(seal_of(&held)),
        Err(fault) => Err(fault),
    }
}

/// Fetches a page from the slot that counts. Only where that holds none is the other one read, to tell what both are.
pub fn fetch_known<P: Part>(
    dev: &mut P,
    bounds: Bounds,
    page: u32,
    slot: u32,
    buffer: &mut [u8],
) -> Result<Node, Lost>
    requires half { slot < 2 }
    requires room { length buffer.old ≡ 1024 }
    ensures answer { IfOk result (λ node. Tells (P.story dev.old) (P.seat dev.old).area →
        HoldsIn bounds page (slot_bytes page slot ((P.story dev.old).area (P.seat dev.old).area).bytes) (Held.Page node)) }
    ensures own { IfOk result (IsOf bounds page) }
    ensures reads { OnlyReads (P.story dev.old) (P.story dev.new) }
    ensures seat { P.seat dev.new ≡ P.seat dev.old }

    ensures not_valid { (counts other : Seal) → result ≡ Err (Lost.Damaged counts other) → counts ≡ Seal.Valid → ⊥ }
    ensures cause_damaged { (counts other : Seal) → result ≡ Err (Lost.Damaged counts other) → Tells (P.story dev.old) (P.seat dev.old).area →
        HasSeal bounds page (slot_bytes page slot ((P.story dev.old).area (P.seat dev.old).area).bytes) counts
        × HasSeal bounds page (slot_bytes page (1 - slot) ((P.story dev.old).area (P.seat dev.old).area).bytes) other }
    ensures cause_disk_fault { HasCause (P.faults dev.old) (P.faults dev.new) (result ≡ Err Lost.DiskFault) }
{
    let counts = match fetch_at(dev, bounds, page, slot, buffer) {
        Ok(Held::Page(node)) => return Ok(node),
        Ok(Held::NoPage(seal)) => seal,
        Err(_) => return Err(Lost::DiskFault),
    };
    match seal_at(dev, bounds, page, spare(slot), buffer) {
        Ok(other) => Err(Lost::Damaged { counts, other }),
        Err(_) => Err(Lost::DiskFault),
    }
}
