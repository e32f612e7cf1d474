// A page is saved, the pages' area is synced, and a page is loaded.
ghost use Rattle.std.specs.Prelude.{◌≡◌, ◌<◌, ◌^◌, ℕ, length, true, false, Some, Err, IfOk, map, slice_get};
ghost use Rattle.lean_disk.specs.Faults.{HasCause};
ghost use Rattle.lean_disk.specs.Moments.{Framed, OnlyReads};
ghost use Rattle.lean_disk.specs.Story.{Tells};
ghost use Rattle.disk_runs.specs.page_store.Slots.{HoldsIn, IsOf, slot_bytes};
ghost use Rattle.disk_runs.specs.page_store.declared.slot.Held.{Held};
ghost use Rattle.disk_runs.specs.page_store.declared.slot.Seal.{Seal};
ghost use Rattle.page_calls.specs.declared.slots.Slot.{Slot};
ghost use Rattle.page_calls.specs.Slots.{last_slot, saved_slot, settled_slot};
ghost use Rattle.page_calls.specs.Calls.{IsDamaged, KeepsMoments, KeepsWithin, LoadsOn, ReadsOn, SavesMoments, SavesOn, SettlesOn, bounds_of};
ghost use Rattle.page_calls.specs.Mirrors.{FailsMirrors, LoadsMirrored, KeepsMirrors, SavesMirrors};

use crate::slots::{Slots, last_slot};
use disk_runs::{Bounds, Lost, Node, fetch_known};
use lean_disk::{Did, Part};

// The slot that is not this one.
fn other(second: bool) -> u32
    ensures half { result < 2 }
    ensures other { second ≡ true → result ≡ 0 }
    ensures first { second ≡ false → result ≡ 1 }
{
    if second { 0 } else { 1 }
}

/// Saves a page to the slot that is not its firm one. It was not saved since the last sync of the area; else `settle` comes first.
pub fn save<P: Part>(dev: &mut P, slots: &mut Slots, node: &Node, buffer: &mut [u8]) -> Did
    requires seat { (P.seat dev.old).area ≡ 1 }
    requires page { node.now.number < length slots.old }
    requires room { length buffer.old ≡ 1024 }
    requires early { (s : Slot) → slice_get slots.old node.now.number ≡ Some s → s.late ≡ false }
    ensures stands { result ≡ Did.Done → SavesOn slots.old slots.new node.now (P.story dev.old) (P.story dev.new) }
    ensures after { result ≡ Did.Done → slots.new ≡ saved_slot node.now.number slots.old }
    ensures same { result ≡ Did.Failed → slots.new ≡ slots.old }
    ensures mirrors { result ≡ Did.Done → SavesMirrors slots.old slots.new node.now (P.story dev.old) (P.story dev.new) }
    ensures mirrors_failed { result ≡ Did.Failed → FailsMirrors slots.old node.now (P.story dev.old) (P.story dev.new) }
    ensures any_moment { SavesMoments slots.old node.now (P.story dev.old) (P.story dev.new) }
    ensures within { KeepsWithin (P.story dev.old) (P.story dev.new) }
    ensures frame { Framed 1 (P.story dev.old) (P.story dev.new) }
    ensures seat { P.seat dev.new ≡ P.seat dev.old }

    ensures cause_failed { HasCause (P.faults dev.old) (P.faults dev.new) (result ≡ Did.Failed) }
{
    disk_runs::every_version();
    disk_runs::every_kept();
    disk_runs::every_prefix();
    disk_runs::every_sealed();
    disk_runs::every_page();
    disk_runs::page_store_every_read();
    let _pages = slots.len();
    let page = node.number() as u32;
    let slot = slots.of(page);
    let Did::Done = disk_runs::save(dev, other(slot.second), node, buffer) else {
        return Did::Failed;
    };
    slots.note(page);
    Did::Done
}

/// Syncs the pages' area: each page that was saved since the last time is firm then.
pub fn settle<P: Part>(dev: &mut P, slots: &mut Slots) -> Did
    requires seat { (P.seat dev.old).area ≡ 1 }
    ensures stands { result ≡ Did.Done → SettlesOn slots.old slots.new (P.story dev.old) (P.story dev.new) }
    ensures after { result ≡ Did.Done → slots.new ≡ map settled_slot slots.old }
    ensures same { result ≡ Did.Failed → slots.new ≡ slots.old }
    ensures mirrors { KeepsMirrors slots.old slots.new (P.story dev.old) (P.story dev.new) }
    ensures any_moment { KeepsMoments slots.old (P.story dev.old) (P.story dev.new) }
    ensures within { KeepsWithin (P.story dev.old) (P.story dev.new) }
    ensures frame { Framed 1 (P.story dev.old) (P.story dev.new) }
    ensures seat { P.seat dev.new ≡ P.seat dev.old }

    ensures cause_failed { HasCause (P.faults dev.old) (P.faults dev.new) (result ≡ Did.Failed) }
{
    disk_runs::every_version();
    disk_runs::every_kept();
    disk_runs::every_prefix();
    disk_runs::every_sealed();
    let Did::Done = dev.sync() else {
        return Did::Failed;
    };
    slots.settle();
    Did::Done
}

/// Loads a page as it was saved last, by the generation of the run: from the slot that was written last, and from no other.
pub fn load<P: Part>(
    dev: &mut P,
    slots: &Slots,
    generation: u64,
    page: u32,
    buffer: &mut [u8],
) -> Result<Node, Lost>
    requires seat { (P.seat dev.old).area ≡ 1 }
    requires page { page < length slots.now }
    requires room { length buffer.old ≡ 1024 }
    ensures answer { LoadsOn slots.now generation page result (P.story dev.old) }
    ensures own { IfOk result (IsOf (bounds_of slots.now generation) page) }
    ensures given { IfOk result (λ node. Tells (P.story dev.old) 1 → (slot : Slot) → slice_get slots.now page ≡ Some slot →
        HoldsIn (bounds_of slots.now generation) page (slot_bytes page (last_slot slot) ((P.story dev.old).area 1).bytes) (Held.Page node)) }
    ensures saved { IfOk result (LoadsMirrored slots.now generation page (P.story dev.old)) }
    ensures stands { ReadsOn slots.now (P.story dev.old) (P.story dev.new) }
    ensures mirrors { KeepsMirrors slots.now slots.now (P.story dev.old) (P.story dev.new) }
    ensures any_moment { KeepsMoments slots.now (P.story dev.old) (P.story dev.new) }
    ensures reads { OnlyReads (P.story dev.old) (P.story dev.new) }
    ensures seat { P.seat dev.new ≡ P.seat dev.old }

    ensures cause_damaged { (counts other : Seal) → result ≡ Err (Lost.Damaged counts other) → Tells (P.story dev.old) 1 →
        IsDamaged slots.now generation page ((P.story dev.old).area 1).bytes counts other }
    ensures cause_disk_fault { HasCause (P.faults dev.old) (P.faults dev.new) (result ≡ Err Lost.DiskFault) }
{
    disk_runs::every_kept();
    disk_runs::every_prefix();
    disk_runs::every_sealed();
    disk_runs::every_seal();
    let bounds = Bounds {
        pages: slots.len(),
        generation,
    };
    fetch_known(dev, bounds, page, last_slot(slots.of(page)), buffer)
}
