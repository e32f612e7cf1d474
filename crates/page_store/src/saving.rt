// A page is saved in the slot that is not its base's.
ghost use Rattle.std.specs.Prelude.{◌≡◌, ◌<◌, ◌-◌, ◌^◌, length};
ghost use Rattle.disk_image.specs.btree_node.Words.{words_of, Fits};
ghost use Rattle.lean_bytes.specs.Numbers.{AreWords};
ghost use Rattle.lean_disk.specs.Calls.{Wrote};
ghost use Rattle.lean_disk.specs.Faults.{HasCause};
ghost use Rattle.disk_image.specs.disk_slots.Pages.{page_slot};
ghost use Rattle.page_store.specs.Saved.{place_of};

use disk_image::{Node, page_bytes};
use lean_disk::{Did, Part};

/// The other slot of a page.
pub fn spare(slot: u32) -> u32
    requires { slot < 2 }
    ensures answer { result ≡ 1 - slot }
    ensures half { result < 2 }
    ensures other { result ≡ slot → ⊥ }
{
    1 - slot
}

/// Writes the page into one of its slots. It is there for good only after a sync.
pub fn save<P: Part>(dev: &mut P, slot: u32, node: &Node, buffer: &mut [u8]) -> Did
    requires half { slot < 2 }
    requires page { node.now.number < 2 ^ 32 }
    requires room { length buffer.old ≡ 1024 }
    ensures wrote { Wrote (P.seat dev.old).area (place_of node.now.number slot) (page_slot node.now) result (P.story dev.old) (P.story dev.new) }
    ensures fits { Fits node.now }
    ensures words { AreWords (words_of node.now) }
    ensures seat { P.seat dev.new ≡ P.seat dev.old }
    ensures cause_disk_fault { HasCause (P.faults dev.old) (P.faults dev.new) (result ≡ Did.Failed) }
{
    page_bytes(node, buffer);
    dev.write(2048 * node.number() + 1024 * slot as u64, buffer)
}
