// A disk with a tree of three levels.
ghost use Rattle.std.specs.Prelude.{◌*◌, ◌≤◌, ◌<◌, ◌^◌};

use lean_disk::{Choice, Disk, MemDisk};
use session_state::{Heads, Master, Node, master_bytes, page_bytes};
use std::alloc::{AllocError, Global};

/// How many pages there are.
pub const PAGES: u32 = 500;

/// How many inner nodes the root has, and how many leaves each of these: they are full.
pub const INNER: u32 = 6;

pub const LEAVES: u32 = 60;

/// The first leaf, and the first free page.
pub const FIRST_LEAF: u32 = 7;

pub const FIRST_FREE: u32 = 367;

/// A leaf's keys begin at a multiple of this; it has so many slots, so far apart.
pub const SPAN: u64 = 1000;

pub const SLOTS: usize = 78;

pub const GAP: u64 = 10;

/// The key of a slot of a leaf, counted from the first leaf.
pub fn key_of(leaf: u32, slot: usize) -> u64
    requires leaf { leaf ≤ 360 }
    requires slot { slot ≤ 78 }
    ensures { result < 2 ^ 32 }
{
    SPAN * u64::from(leaf) + GAP * slot as u64
}

/// Whether a slot has an entry at first, whose word is its number: each fourth has none, so a leaf has room for one further key.
pub fn has_entry(slot: usize) -> bool {
    slot % 4 != 3
}

// The fences of so many leaves from this one on.
fn fences(leaf: u32, leaves: u32) -> (u64, u64)
    requires leaf { leaf ≤ 360 }
    requires leaves { leaves ≤ 360 }
    ensures { result.0 ≤ 360000 }
{
    let end = leaf + leaves;
    let high = if end >= INNER * LEAVES {
        u64::MAX
    } else {
        SPAN * u64::from(end)
    };
    (SPAN * u64::from(leaf), high)
}

// An inner node over so many children, whose numbers follow one another, of so many leaves each.
fn inner(page: u32, level: u64, leaf: u32, children: u32, first: u32, each: u32) -> Option<Node>
    requires level { level ≤ 7 }
    requires leaf { leaf ≤ 300 }
    requires children { children ≤ 60 }
    requires first { first ≤ 367 }
    requires each { each ≤ 60 }
    requires few { children * each ≤ 360 }
{
    let (low, high) = fences(leaf, children * each);
    let mut words = [0; 126];
    words[0] = u64::from(page);
    words[3] = u64::from(children) + (level << 8) + (1 << 24);
    words[4] = low;
    words[5] = high;
    for child in 0..children {
        let key = low + SPAN * u64::from(each * child);
        put_pair(&mut words, child, key, u64::from(first + child));
    }
    Node::from_words(words)
}

// The pair of a child.
fn put_pair(words: &mut [u64; 126], child: u32, key: u64, page: u64)
    requires { child < 60 }
{
    let at = 6 + 2 * child as usize;
    words[at] = key;
    words[at + 1] = page;
}

fn leaf(page: u32) -> Node
    requires { (7 ≤ page) × (page < 367) }
{
    let (low, high) = fences(page - FIRST_LEAF, 1);
    let mut node = Node::empty_leaf(page, low, high);
    for slot in 0..SLOTS {
        let key = key_of(page - FIRST_LEAF, slot);
        if has_entry(slot) && node.covers(key) {
            let _ = node.put(key, slot as u64);
        }
    }
    node
}

/// The node that a page is at first. None: it is no node.
pub fn node_of(page: u32) -> Option<Node>
    requires { page < 500 }
{
    match page {
        0 => inner(0, 2, 0, INNER, 1, LEAVES),
        1..FIRST_LEAF => {
            let first = (page - 1) * LEAVES;
            inner(page, 1, first, LEAVES, FIRST_LEAF + first, 1)
        }
        FIRST_LEAF..FIRST_FREE => Some(leaf(page)),
        _ => Some(Node::free(page)),
    }
}

/// A disk with the tree, and a log of so many blocks, of which no call has been made. None: a page is no node.
pub fn first_disk(alloc: Global, blocks: u32) -> Result<Option<MemDisk>, AllocError> {
    let mut disk = MemDisk::new(alloc, 3)?;
    let mut bytes = [0; 1024];
    for page in 0..PAGES {
        let Some(node) = node_of(page) else {
            return Ok(None);
        };
        page_bytes(&node, &mut bytes);
        disk.write(1, 2048 * u64::from(page), &bytes);
    }
    let master = Master {
        sequence: 0,
        generation: 0,
        floor: 0,
        pages: PAGES,
        blocks,
        heads: Heads::new(1),
    };
    master_bytes(&master, &mut bytes);
    disk.write(0, 0, &bytes);
    Ok(Some(disk.crash(disk.moment(), Choice::AllBytes)?))
}
