// A slot of a page: the page that it holds, or what its bytes are.
ghost use Rattle.std.specs.Prelude.{◌≡◌, ◌<◌, ◌+◌, ◌*◌, ℕ, IfOk, IsErr, length};
ghost use Rattle.lean_disk.specs.Faults.{HasCause};
ghost use Rattle.lean_disk.specs.Moments.{OnlyReads};
ghost use Rattle.lean_disk.specs.Story.{Tells};
ghost use Rattle.page_store.specs.Slots.{HoldsIn, IsHeldOf, slot_bytes};

use disk_image::{Node, Refusal, every_page_in, read_page};
use lean_disk::{Part, Read};

/// Which pages are valid: those of a disk of so many pages that this generation or one before has saved.
#[derive(Clone, Copy, Debug, PartialEq, Eq)]
pub struct Bounds {
    pub pages: u32,
    pub generation: u64,
}

/// What the bytes of a page's slot are.
#[derive(Clone, Copy, Debug, PartialEq, Eq)]
pub enum Seal {
    /// Their seal does not fit.
    NoSeal,
    /// It fits, and they are no slot of this page.
    Malformed,
    /// The page, as a later generation has saved it.
    LaterGeneration,
    /// The page.
    Valid,
}

/// What a slot of a page holds: the page, if it is valid, or bytes that are none. These are never `Valid`.
#[derive(Drop)]
pub enum Held {
    Page(Node),
    NoPage(Seal),
}

/// The device failed.
#[derive(Clone, Copy, Debug, PartialEq, Eq)]
pub struct DiskFault;

// What the bytes of a slot hold.
fn take_page(bounds: Bounds, page: u32, bytes: &[u8]) -> Held
    ensures answer { HoldsIn bounds page bytes.now result }
    ensures own { IsHeldOf bounds page result }
{
    every_page_in();
    match read_page(page, bounds.pages, bytes) {
        Err(Refusal::NoSeal) => Held::NoPage(Seal::NoSeal),
        Err(Refusal::Malformed) => Held::NoPage(Seal::Malformed),
        Ok(node) => {
            if node.generation() > bounds.generation {
                return Held::NoPage(Seal::LaterGeneration);
            }
            Held::Page(node)
        }
    }
}

/// Reads one slot of a page.
pub fn fetch_at<P: Part>(
    dev: &mut P,
    bounds: Bounds,
    page: u32,
    slot: u32,
    buffer: &mut [u8],
) -> Result<Held, DiskFault>
    requires half { slot < 2 }
    requires room { length buffer.old ≡ 1024 }
    ensures answer { IfOk result (λ held. Tells (P.story dev.old) (P.seat dev.old).area →
        HoldsIn bounds page (slot_bytes page slot ((P.story dev.old).area (P.seat dev.old).area).bytes) held) }
    ensures own { IfOk result (IsHeldOf bounds page) }
    ensures reads { OnlyReads (P.story dev.old) (P.story dev.new) }
    ensures seat { P.seat dev.new ≡ P.seat dev.old }

    ensures cause { HasCause (P.faults dev.old) (P.faults dev.new) (IsErr result) }
{
    let Read::Got(n) = dev.read(2048 * page as u64 + 1024 * slot as u64, buffer) else {
        return Err(DiskFault);
    };
    Ok(take_page(bounds, page, &buffer[..n]))
}
