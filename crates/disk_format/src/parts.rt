// The parts of a new disk: every page, and the first master.
ghost use Rattle.std.specs.Prelude.{◌≡◌, ◌+◌, ◌*◌, ◌≤◌, ◌++◌, length, take, drop, replicate};
ghost use Rattle.lean_disk.specs.Calls.{Wrote};
ghost use Rattle.lean_disk.specs.Faults.{HasCause};
ghost use Rattle.lean_disk.specs.Moments.{CrashIn, Framed, LeavesOnly};
ghost use Rattle.lean_disk.specs.Story.{Tells};
ghost use Rattle.master_store.specs.disk_slots.Pages.{page_slot};
ghost use Rattle.page_model.specs.Page.{new_page};
ghost use Rattle.disk_format.specs.Formatted.{Anything, HasPages, HasSyncedPages};
ghost use Rattle.disk_format.specs.Fresh.{first_master, fresh_node, fresh_page};
ghost use Rattle.disk_format.specs.Pieces.{pages_from};

use crate::shape::Shape;
use lean_disk::{Did, Part};
use master_store::{Heads, Master, Node, page_bytes};

/// Pages in a piece of 64 KiB: larger ones make later writes dear on some file systems.
pub const PIECE: u32 = 32;

// One page: its slot, and zeros in the spare one.
fn write_fresh(into: &mut [u8], number: u32)
    requires { length into.old ≡ 2048 }
    ensures { into.new ≡ fresh_page number }
{
    let half = into.len() / 2;
    let (slot, spare) = into.split_at_mut(half);
    write_slot(slot, number);
    clear(spare);
}

fn write_slot(into: &mut [u8], number: u32)
    requires { length into.old ≡ 1024 }
    ensures { into.new ≡ page_slot (new_page number (fresh_node number)) }
{
    page_bytes(&fresh_node(number), into);
}

fn clear(into: &mut [u8])
    ensures { into.new ≡ replicate (length into.old) 0 }
{
    into.fill(0);
}

fn fresh_node(number: u32) -> Node
    ensures { result ≡ new_page number (fresh_node number) }
{
    if number == 0 {
        return Node::empty_leaf(0, 0, u64::MAX);
    }
    Node::free(number)
}

fn write_fresh_at(buffer: &mut [u8], at: usize, size: usize, number: u32)
    requires page { size ≡ 2048 }
    requires room { at + size ≤ length buffer.old }
    ensures { buffer.new ≡ take at buffer.old ++ (fresh_page number ++ drop (at + size) buffer.old) }
{
    write_fresh(&mut buffer[at..at + size], number);
}

// Fills the buffer with so many fresh pages.
fn fill(buffer: &mut [u8], first: u32, count: u32)
    requires room { length buffer.old ≡ 2048 * count }
    requires last { first + count ≤ 65536 }
    ensures { buffer.new ≡ pages_from fresh_page first count }
{
    for i in 0..count {
        write_fresh_at(buffer, 2048 * i as usize, 2048, first + i);
    }
}

// Writes a piece of pages at its place, which begins with this page.
fn write_piece<P: Part>(dev: &mut P, first: u32, count: u32, buffer: &mut [u8]) -> Did
    requires room { 2048 * count ≤ length buffer.old }
    requires last { first + count ≤ 65536 }
    ensures wrote { Wrote (P.seat dev.old).area (2048 * first) (pages_from fresh_page first count) result (P.story dev.old) (P.story dev.new) }
    ensures seat { P.seat dev.new ≡ P.seat dev.old }
    ensures cause { HasCause (P.faults dev.old) (P.faults dev.new) (result ≡ Did.Failed) }
{
    let piece = &mut buffer[..2048 * count as usize];
    fill(piece, first, count);
    dev.write(2048 * first as u64, piece)
}

// Writes every page.
fn write_pages<P: Part>(dev: &mut P, pages: u32, buffer: &mut [u8]) -> Did
    requires pages { pages ≤ 65536 }
    requires room { length buffer.old ≡ 65536 }
    ensures any_moment { LeavesOnly (P.story dev.old) (P.story dev.new) (CrashIn (P.story dev.old) (P.seat dev.old).area Anything) }
    ensures frame { Framed (P.seat dev.old).area (P.story dev.old) (P.story dev.new) }
    ensures seat { P.seat dev.new ≡ P.seat dev.old }
    ensures done { result ≡ Did.Done → Tells (P.story dev.new) (P.seat dev.new).area → HasPages pages ((P.story dev.new).area (P.seat dev.new).area).bytes }
    ensures cause { HasCause (P.faults dev.old) (P.faults dev.new) (result ≡ Did.Failed) }
{
    let mut first = 0;
    while first < pages {
        let count = PIECE.min(pages - first);
        let Did::Done = write_piece(dev, first, count, buffer) else {
            return Did::Failed;
        };
        first += count;
    }
    Did::Done
}

// Writes every page and syncs them.
pub(crate) fn lay_pages<P: Part>(dev: &mut P, pages: u32, buffer: &mut [u8]) -> Did
    requires pages { pages ≤ 65536 }
    requires room { length buffer.old ≡ 65536 }
    ensures any_moment { LeavesOnly (P.story dev.old) (P.story dev.new) (CrashIn (P.story dev.old) (P.seat dev.old).area Anything) }
    ensures frame { Framed (P.seat dev.old).area (P.story dev.old) (P.story dev.new) }
    ensures seat { P.seat dev.new ≡ P.seat dev.old }
    ensures done { result ≡ Did.Done → Tells (P.story dev.new) (P.seat dev.new).area → HasSyncedPages pages ((P.story dev.new).area (P.seat dev.new).area) }
    ensures cause { HasCause (P.faults dev.old) (P.faults dev.new) (result ≡ Did.Failed) }
{
    match write_pages(dev, pages, buffer) {
        Did::Done => dev.sync(),
        Did::Failed => Did::Failed,
    }
}

/// The first master.
pub(crate) fn first_master(shape: Shape) -> Master
    requires { shape.workers ≤ 16 }
    ensures { result ≡ first_master shape }
{
    Master {
        sequence: 0,
        generation: 0,
        floor: 0,
        pages: shape.pages,
        blocks: shape.blocks,
        heads: Heads::new(shape.workers),
    }
}
