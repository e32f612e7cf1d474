// The plain program beside an engine: its pages and where they stand, the map, the log, and what is flushed of it.
use crate::counts::Counts;
use crate::nodes::node_in;
use crate::pool::{Page, Place};
use crate::wrong::Wrong;
use plain_images::{Node, Record};
use quiet_disk::trees::{FIRST_FREE, INNER, LEAVES, PAGES, SLOTS, has_entry, node_of};
use std::alloc::{AllocError, Global};

/// How many frames there are, and how many commits are flushed at once.
pub const FRAMES: u32 = 32;

pub const GROUP: u32 = 8;

/// A word that a slot got. None: its value was taken away.
#[derive(Clone, Copy)]
pub struct Change {
    pub at: usize,
    pub word: Option<u64>,
}

/// The pages; the frames by the page in each, the queue of those that cool, the oldest first, the empty frames, the last of which is
/// taken first, and the frame at which the hand stands; the free pages, the least of which is the last; the values of all slots; the
/// records of the log, the oldest first; the clock; the number of the last transaction, whether it is open, and how many changes it has;
/// how many commits wait for a flush; up to which number, and how many, records are flushed; all changes, where those of each
/// committed transaction end, and how many of these are flushed.
#[derive(Drop)]
pub struct Plain {
    pub pages: Vec<Page>,
    pub frames: Vec<Option<u32>>,
    pub queue: Vec<u32>,
    pub empty: Vec<u32>,
    pub hand: usize,
    pub free: Vec<u32>,
    pub values: Vec<Option<u64>>,
    pub log: Vec<Record>,
    pub clock: u64,
    pub transaction: u64,
    pub is_open: bool,
    pub changed: u32,
    pub waiting: u32,
    pub flushed: u64,
    pub safe: usize,
    pub changes: Vec<Change>,
    pub ends: Vec<usize>,
    pub kept: usize,
    pub counts: Counts,
}

// The page as it is at first, which is cold.
fn first_page(alloc: Global, page: u32) -> Result<Page, Wrong> {
    if page >= PAGES {
        return Err(Wrong::Opening);
    }
    let Some(words) = node_of(page) else {
        return Err(Wrong::Opening);
    };
    Ok(Page {
        place: Place::Cold,
        number: 0,
        node: node_in(alloc, &words)?,
        saved: 0,
        base: node_in(alloc, &words)?,
        late: false,
    })
}

/// The values of all slots as the walk begins.
pub fn first_values(alloc: Global) -> Result<Vec<Option<u64>>, AllocError> {
    let mut values = Vec::new(alloc);
    for _leaf in 0..INNER * LEAVES {
        for slot in 0..SLOTS {
            values.push(if has_entry(slot) {
                Some(slot as u64)
            } else {
                None
            })?;
        }
    }
    Ok(values)
}

impl Plain {
    /// Page 0 stands in frame 0, and no other page in any.
    pub fn new(alloc: Global) -> Result<Plain, Wrong> {
        let mut pages = Vec::new(alloc);
        for page in 0..PAGES {
            pages.push(first_page(alloc, page)?)?;
        }
        let mut in_frames = Vec::new(alloc);
        in_frames.resize(FRAMES as usize, None)?;
        let mut empty = Vec::new(alloc);
        for frame in 1..FRAMES {
            empty.push(FRAMES - frame)?;
        }
        let mut free = Vec::new(alloc);
        for page in FIRST_FREE..PAGES {
            free.push(FIRST_FREE + (PAGES - 1 - page))?;
        }
        let mut plain = Plain {
            pages,
            frames: in_frames,
            queue: Vec::new(alloc),
            empty,
            hand: 0,
            free,
            values: first_values(alloc)?,
            log: Vec::new(alloc),
            clock: 0,
            transaction: 0,
            is_open: false,
            changed: 0,
            waiting: 0,
            flushed: 0,
            safe: 0,
            changes: Vec::new(alloc),
            ends: Vec::new(alloc),
            kept: 0,
            counts: Counts::new(),
        };
        plain.stand(0, Place::Hot(0), 0, Some(0));
        Ok(plain)
    }

    pub fn page(&self, page: u32) -> Option<&Page> {
        self.pages.get(page as usize)
    }

    pub fn node(&self, page: u32) -> Option<&Node> {
        match self.pages.get(page as usize) {
            Some(it) => Some(&it.node),
            None => None,
        }
    }

    pub fn value(&self, at: usize) -> Option<u64> {
        self.values.get(at).copied().unwrap_or(None)
    }
}
