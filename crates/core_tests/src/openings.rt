// What the lists begin with.
use plain_core::{Core, Node, Page, Settings, Table};
use plain_images::Pair;
use std::alloc::{AllocError, Global};

/// The word of a tombstone, as the programs of images have it.
pub const DEAD: u64 = 1 << 63;

/// The high fence of the root.
pub const TOP: u64 = u64::MAX;

/// A page: free, or a node with its level, its fences and its pairs.
#[derive(Clone, Copy)]
pub enum Contents {
    Free,
    Node(u64, u64, u64, &'static [(u64, u64)]),
}

/// How many pairs two pages that are joined have at most together, the root's greatest level, the word of a tombstone, and the
/// root's high fence.
#[derive(Clone, Copy)]
pub struct Limits {
    pub joined: u64,
    pub levels: u64,
    pub dead: u64,
    pub top: u64,
}

/// Those that the programs of images know.
pub const OF_IMAGES: Limits = Limits {
    joined: 4,
    levels: 3,
    dead: DEAD,
    top: TOP,
};

/// The numbers of workers and frames, the base number, which is that of each page, whether a page that is read again has the
/// pairs with which it was saved, the limits, and the pages.
#[derive(Clone, Copy)]
pub struct Opening {
    pub workers: u64,
    pub frames: u64,
    pub base: u64,
    pub faithful: bool,
    pub limits: Limits,
    pub pages: &'static [Contents],
}

/// Page 0 is one empty leaf; page 1 is free.
pub const EMPTY: Opening = Opening {
    workers: 2,
    frames: 2,
    base: 0,
    faithful: true,
    limits: OF_IMAGES,
    pages: &[Contents::Node(0, 0, TOP, &[]), Contents::Free],
};

/// Page 0 is one leaf with key 5; page 1 is free.
pub const LEAF: Opening = Opening {
    workers: 2,
    frames: 2,
    base: 0,
    faithful: true,
    limits: OF_IMAGES,
    pages: &[Contents::Node(0, 0, TOP, &[(5, 50)]), Contents::Free],
};

/// The same with a tombstone of key 3.
pub const SPARSE: Opening = Opening {
    workers: 2,
    frames: 2,
    base: 0,
    faithful: true,
    limits: OF_IMAGES,
    pages: &[
        Contents::Node(0, 0, TOP, &[(3, DEAD), (5, 50)]),
        Contents::Free,
    ],
};

/// Page 0 is one full leaf; pages 1 and 2 are free.
pub const FULL: Opening = Opening {
    workers: 2,
    frames: 3,
    base: 0,
    faithful: true,
    limits: OF_IMAGES,
    pages: &[
        Contents::Node(0, 0, TOP, &[(1, 11), (2, 12), (3, 13), (4, 14)]),
        Contents::Free,
        Contents::Free,
    ],
};

/// Each node but the last has one child: page 0, page 1, and the leaf with key 5, page 2.
pub const CHAIN: Opening = Opening {
    workers: 2,
    frames: 3,
    base: 0,
    faithful: true,
    limits: OF_IMAGES,
    pages: &[
        Contents::Node(2, 0, TOP, &[(0, 1)]),
        Contents::Node(1, 0, TOP, &[(0, 2)]),
        Contents::Node(0, 0, TOP, &[(5, 50)]),
    ],
};

/// A full root with four inner nodes. Of those, 1 has the leaves 3, 4 and 7, of which 3 and 4 are full; 2 has 5 and 6; 9 and 10
/// have one each. Page 8 is free. There are three workers.
pub const WIDE: Opening = Opening {
    workers: 3,
    frames: 9,
    base: 0,
    faithful: true,
    limits: OF_IMAGES,
    pages: &[
        Contents::Node(2, 0, TOP, &[(0, 1), (100, 2), (200, 9), (300, 10)]),
        Contents::Node(1, 0, 100, &[(0, 3), (50, 4), (70, 7)]),
        Contents::Node(1, 100, 200, &[(100, 5), (150, 6)]),
        Contents::Node(0, 0, 50, &[(1, 11), (2, 12), (3, 13), (4, 14)]),
        Contents::Node(0, 50, 70, &[(50, 15), (51, 16), (52, 17), (53, 18)]),
        Contents::Node(0, 100, 150, &[(100, 7)]),
        Contents::Node(0, 150, 200, &[]),
        Contents::Node(0, 70, 100, &[]),
        Contents::Free,
        Contents::Node(1, 200, 300, &[(200, 11)]),
        Contents::Node(1, 300, TOP, &[(300, 12)]),
        Contents::Node(0, 200, 300, &[]),
        Contents::Node(0, 300, TOP, &[]),
    ],
};

/// The state that opening gives. Four pairs a node; a transaction makes at most three changes.
pub fn opened(alloc: Global, opening: Opening) -> Result<Core, AllocError> {
    let settings = Settings {
        faithful: opening.faithful,
        workers: opening.workers,
        frames: opening.frames,
        rows: 0,
        changes: 3,
        joined: opening.limits.joined,
        base: opening.base,
        pages: opening.pages.len() as u64,
        room: 4,
        levels: opening.limits.levels,
        dead: opening.limits.dead,
        top: opening.limits.top,
    };
    let free = page_of(alloc, opening.base, Contents::Free)?;
    let mut pages = Table::new(alloc, free);
    for (place, contents) in opening.pages.iter().enumerate() {
        pages.set(place as u64, page_of(alloc, opening.base, *contents)?)?;
    }
    Core::start(alloc, settings, pages)
}

fn page_of(alloc: Global, number: u64, contents: Contents) -> Result<Page, AllocError> {
    let (live, level, low, high, said): (bool, u64, u64, u64, &[(u64, u64)]) = match contents {
        Contents::Free => (false, 0, 0, 0, &[]),
        Contents::Node(level, low, high, said) => (true, level, low, high, said),
    };
    Ok(Page {
        number,
        log: 0,
        node: Node {
            live,
            level,
            low,
            high,
            pairs: pairs_of(alloc, said)?,
        },
    })
}

/// The pairs that are said.
pub fn pairs_of(alloc: Global, said: &[(u64, u64)]) -> Result<Vec<Pair>, AllocError> {
    let mut pairs = Vec::new(alloc);
    for (key, word) in said {
        pairs.push(Pair {
            key: *key,
            word: *word,
        })?;
    }
    Ok(pairs)
}
