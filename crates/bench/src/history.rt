// A tree of 4,096 pages, and logs of changes of its keys.
ghost use Rattle.std.specs.Prelude.{◌≡◌, ◌≤◌, ◌<◌, IfOk, IfSome, length, vec_len};

use btree_node::Node;
use log_block::{BLOCK, PAYLOAD, block_bytes};
use log_record::{Body, CHANGE_SIZE, PageRef, Record, record_bytes};
use std::alloc::{AllocError, Global};

/// The generation of the logs.
pub const GENERATION: u64 = 1;

/// How many pages there are: a root over 3 nodes, each over 31, each over 43 leaves.
pub const PAGES: usize = 4096;

/// The page of the first leaf, and how many leaves there are.
const FIRST: usize = 97;

const LEAVES: usize = 3999;

/// As many keys belong to a leaf.
const SPAN: u64 = 60;

/// As many changes make a transaction, which has a block of its own.
const CHANGES: usize = 37;

/// The pages, where two of three keys have an entry.
pub fn pages(alloc: Global) -> Result<Vec<Node>, AllocError> {
    let mut pages = Vec::with_capacity(alloc, PAGES)?;
    for page in 0..PAGES {
        pages.push(leaf(page))?;
    }
    put_inner(&mut pages);
    Ok(pages)
}

// The leaf at a page, with its entries; a page above the leaves is free.
fn leaf(page: usize) -> Node
    requires { page < 4096 }
{
    if page < FIRST {
        return Node::free(page as u32);
    }
    let low = SPAN * (page - FIRST) as u64;
    let high = if page + 1 == PAGES {
        u64::MAX
    } else {
        low + SPAN
    };
    let mut leaf = Node::empty_leaf(page as u32, low, high);
    for key in low..low + SPAN {
        if key % 3 != 0 && leaf.low() <= key && key < leaf.high() {
            let _ = leaf.put(key, key);
        }
    }
    leaf
}

// Puts the inner nodes over the leaves, the lowest first.
fn put_inner(pages: &mut [Node]) {
    for page in (0..FIRST).rev() {
        if let Some(node) = inner(pages, page) {
            pages[page] = node;
        }
    }
}

// The inner node of a page, over its children.
fn inner(pages: &[Node], page: usize) -> Option<Node>
    requires { page < 97 }
    ensures { IfSome result (λ node. page < length pages.now) }
{
    let (first, count) = children_of(page);
    let children = pages.get(first..first + count)?;
    Some(node_over(page, children))
}

// The first child of an inner node, and how many it has.
fn children_of(page: usize) -> (usize, usize)
    requires { page < 97 }
    ensures first { (page < result.0) × (result.0 ≤ 4096) }
    ensures count { result.1 ≤ 43 }
{
    if page == 0 {
        (1, 3)
    } else if page < 4 {
        (4 + 31 * (page - 1), 31)
    } else {
        (FIRST + 43 * (page - 4), 43)
    }
}

// The node over these children.
fn node_over(page: usize, children: &[Node]) -> Node
    requires page { page < 97 }
    requires count { length children.now ≤ 43 }
{
    let mut words = [0; 126];
    words[0] = page as u64;
    words[3] = 1 << 24;
    words[5] = u64::MAX;
    for i in 0..children.len() {
        let child = &children[i];
        words[6 + 2 * i] = child.low();
        words[7 + 2 * i] = child.number();
        words[3] = (1 << 24) + ((u64::from(child.level()) + 1) << 8) + i as u64 + 1;
        words[5] = child.high();
    }
    words[4] = words[6];
    match Node::from_words(words) {
        Some(node) => node,
        None => Node::free(page as u32),
    }
}

/// What was logged so far: the last number, of each leaf the number of its last change, and the state of the random numbers.
#[derive(Drop)]
struct History {
    number: u64,
    last: [u64; LEAVES],
    random: u64,
}

impl History {
    // A random key.
    fn next_key(&mut self) -> u64
        ensures { result < 239940 }
    {
        self.random = self
            .random
            .wrapping_mul(6364136223846793005)
            .wrapping_add(1442695040888963407);
        (self.random >> 33) % (SPAN * LEAVES as u64)
    }

    fn next_number(&mut self) -> u64 {
        self.number = self.number.wrapping_add(1);
        self.number
    }

    fn put_change(&mut self, txn: u64, into: &mut [u8])
        requires { 53 ≤ length into.old }
        ensures { length into.new ≡ length into.old }
    {
        let key = self.next_key();
        let number = self.next_number();
        let leaf = (key / SPAN) as usize;
        let prev = self.last[leaf];
        self.last[leaf] = number;
        let change = Record {
            txn,
            gsn: number,
            body: Body::Change {
                leaf: PageRef {
                    page: (FIRST + leaf) as u32,
                    prev,
                },
                key,
                before: key,
                after: number % 1000003,
            },
        };
        record_bytes(&change, into);
    }

    fn put_commit(&mut self, txn: u64, into: &mut [u8])
        requires { 25 ≤ length into.old }
        ensures { length into.new ≡ length into.old }
    {
        let commit = Record {
            txn,
            gsn: self.next_number(),
            body: Body::Commit { need: 0 },
        };
        record_bytes(&commit, into);
    }

    // Adds a block of one transaction, with its commit where the block's number is even.
    fn put_block(&mut self, log: u32, block: u64, area: &mut Vec<u8>) -> Result<(), AllocError> {
        let mut payload = [0; PAYLOAD];
        for i in 0..CHANGES {
            self.put_change(block, &mut payload[CHANGE_SIZE * i..]);
        }
        let (mut end, mut count) = (1961, 37);
        if block % 2 == 0 {
            self.put_commit(block, &mut payload[end..]);
            (end, count) = (1986, 38);
        }
        let mut bytes = [0; BLOCK];
        block_bytes(GENERATION, log, block, count, &payload[..end], &mut bytes);
        area.extend_from_slice(&bytes)
    }

    // Adds a block to each log; that of log 1 is area 2.
    fn put_blocks(&mut self, block: u64, areas: &mut [Vec<u8>]) -> Result<(), AllocError>
        requires { length areas.old ≤ 18 }
        ensures { length areas.new ≡ length areas.old }
    {
        for area in 2..areas.len() {
            self.put_block((area - 1) as u32, block, &mut areas[area])?;
        }
        Ok(())
    }
}

/// The areas of a disk with so many logs of so many blocks; those of the master and of the pages are empty.
pub fn areas(alloc: Global, logs: u32, blocks: u32) -> Result<Vec<Vec<u8>>, AllocError>
    requires { logs ≤ 16 }
    ensures { IfOk result (λ areas. 0 < vec_len areas) }
{
    let mut areas = empty_areas(alloc, logs + 2)?;
    let mut history = History {
        number: 0,
        last: [0; LEAVES],
        random: 1,
    };
    for block in 0..blocks {
        history.put_blocks(u64::from(block), &mut areas)?;
    }
    Ok(areas)
}

fn empty_areas(alloc: Global, count: u32) -> Result<Vec<Vec<u8>>, AllocError>
    ensures { IfOk result (λ areas. vec_len areas ≡ count) }
{
    let mut areas = Vec::new(alloc);
    for _ in 0..count {
        areas.push(Vec::new(alloc))?;
    }
    Ok(areas)
}
