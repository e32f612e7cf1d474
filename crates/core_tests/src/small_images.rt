// Small images written by hand, each by a sentence, with what they stand for.
use crate::maps::are_pairs;
use crate::openings::{DEAD, TOP, pairs_of};
use plain_images::pairs::find;
use plain_images::{
    Damage, Image, Kind, Log, Name, Node, Page, Record, Ref, first_damage, losers, map, reach,
    recovered_page, sorted, value, winners,
};
use std::alloc::{AllocError, Global};

/// A record, by its log, its transaction and its number. A write of page 0 has the page's number before it, the key, and the key's
/// words before and after; a stray one names page 1 as the page that it changes. An end has what it needs.
#[derive(Clone, Copy)]
pub enum Logged {
    Write(u32, u64, u64, u64, u64, u64, u64),
    Stray(u32, u64, u64, u64, u64, u64, u64),
    Commit(u32, u64, u64, u64),
    Abort(u32, u64, u64, u64),
}

/// An image of one leaf with key 7, by the leaf's low fence, its number and the key's word, and of two logs, the newest record of
/// each first. Then: how far the logs reach; the winners and the losers by session and number, the last first; the leaf's number and
/// pairs after recovery; the map; and the rule that is broken.
pub struct Small {
    pub name: &'static str,
    pub low: u64,
    pub number: u64,
    pub word: u64,
    pub logs: [&'static [Logged]; 2],
    pub reach: u64,
    pub winners: &'static [(u32, u64)],
    pub losers: &'static [(u32, u64)],
    pub left: u64,
    pub pairs: &'static [(u64, u64)],
    pub map: &'static [(u64, u64)],
    pub damage: Option<Damage>,
}

// Two sessions change the key in turn: 70, 71, 72, 73.
const IN_TURN: [&[Logged]; 2] = [
    &[
        Logged::Write(1, 1, 3, 2, 7, 72, 73),
        Logged::Write(1, 1, 1, 0, 7, 70, 71),
    ],
    &[Logged::Write(2, 1, 2, 1, 7, 71, 72)],
];

// Session 1 puts key 5 and does not end; session 2 puts 6, and commits if the logs reach 1.
const FIRST: &[Logged] = &[Logged::Write(1, 1, 1, 0, 5, DEAD, 50)];

const SECOND: &[Logged] = &[
    Logged::Commit(2, 1, 3, 1),
    Logged::Write(2, 1, 2, 1, 6, DEAD, 60),
];

// Session 2 puts 6 and aborts, and then commits another transaction.
const ABORTS: &[Logged] = &[
    Logged::Commit(2, 2, 6, 1),
    Logged::Write(2, 2, 5, 3, 6, DEAD, 61),
    Logged::Abort(2, 1, 4, 1),
    Logged::Write(2, 1, 3, 2, 6, 60, DEAD),
    Logged::Write(2, 1, 2, 1, 6, DEAD, 60),
];

pub static SMALL: [Small; 9] = [
    Small {
        name: "writes of two losers are set back, from the page as it was at first",
        low: 0,
        number: 0,
        word: 70,
        logs: IN_TURN,
        reach: 2,
        winners: &[],
        losers: &[(2, 1), (1, 1)],
        left: 3,
        pairs: &[(7, 70)],
        map: &[(7, 70)],
        damage: None,
    },
    Small {
        name: "writes of two losers are set back, from the page in the middle",
        low: 0,
        number: 2,
        word: 72,
        logs: IN_TURN,
        reach: 2,
        winners: &[],
        losers: &[(2, 1), (1, 1)],
        left: 3,
        pairs: &[(7, 70)],
        map: &[(7, 70)],
        damage: None,
    },
    Small {
        name: "writes of two losers are set back, from the page after the last write",
        low: 0,
        number: 3,
        word: 73,
        logs: IN_TURN,
        reach: 2,
        winners: &[],
        losers: &[(2, 1), (1, 1)],
        left: 3,
        pairs: &[(7, 70)],
        map: &[(7, 70)],
        damage: None,
    },
    Small {
        name: "a winner stays and a loser goes",
        low: 0,
        number: 0,
        word: 70,
        logs: [FIRST, SECOND],
        reach: 1,
        winners: &[(2, 1)],
        losers: &[(1, 1)],
        left: 2,
        pairs: &[(5, DEAD), (6, 60), (7, 70)],
        map: &[(6, 60), (7, 70)],
        damage: None,
    },
    Small {
        name: "a write whose prev was lost with its log does not count",
        low: 0,
        number: 0,
        word: 70,
        logs: [&[], SECOND],
        reach: 0,
        winners: &[],
        losers: &[(2, 1)],
        left: 0,
        pairs: &[(7, 70)],
        map: &[(7, 70)],
        damage: None,
    },
    Small {
        name: "the one page is no root",
        low: 1,
        number: 0,
        word: 70,
        logs: [FIRST, SECOND],
        reach: 1,
        winners: &[(2, 1)],
        losers: &[(1, 1)],
        left: 2,
        pairs: &[(5, DEAD), (6, 60), (7, 70)],
        map: &[(6, 60), (7, 70)],
        damage: Some(Damage::Broken { page: 0 }),
    },
    Small {
        name: "a record that names the page behind the last one is the first damage",
        low: 1,
        number: 0,
        word: 70,
        logs: [&[Logged::Stray(1, 1, 1, 0, 5, DEAD, 50)], SECOND],
        reach: 1,
        winners: &[(2, 1)],
        losers: &[(1, 1)],
        left: 0,
        pairs: &[(5, DEAD), (7, 70)],
        map: &[(7, 70)],
        damage: Some(Damage::Undoable { log: 1, number: 1 }),
    },
    Small {
        name: "a commit wins where all logs reach what it needs",
        low: 0,
        number: 0,
        word: 70,
        logs: [FIRST, ABORTS],
        reach: 1,
        winners: &[(2, 2)],
        losers: &[(1, 1)],
        left: 5,
        pairs: &[(5, DEAD), (6, 61), (7, 70)],
        map: &[(6, 61), (7, 70)],
        damage: None,
    },
    Small {
        name: "a commit loses where another log lost what it needs",
        low: 0,
        number: 0,
        word: 70,
        logs: [&[], ABORTS],
        reach: 0,
        winners: &[],
        losers: &[(2, 2), (2, 1)],
        left: 0,
        pairs: &[(7, 70)],
        map: &[(7, 70)],
        damage: None,
    },
];

/// The image is as is written.
pub fn stands(alloc: Global, small: &Small) -> Result<bool, AllocError> {
    let image = image_of(alloc, small)?;
    let records = sorted(alloc, &image.logs)?;
    let far = reach(image.logs.len(), image.floor, &records);
    let page = recovered_page(alloc, &image, 0)?;
    let map = map(alloc, &image)?;
    for key in 5..8 {
        if value(alloc, &image, key)? != find(&map, key) {
            return Ok(false);
        }
    }
    Ok(
        far == small.reach
            && are_named(&winners(alloc, far, &records)?, small.winners)
            && are_named(&losers(alloc, far, &records)?, small.losers)
            && page.number == small.left
            && are_pairs(&page.node.pairs, small.pairs)
            && are_pairs(&map, small.map)
            && first_damage(alloc, &image)? == small.damage,
    )
}

fn image_of(alloc: Global, small: &Small) -> Result<Image, AllocError> {
    let mut logs = Vec::new(alloc);
    for logged in &small.logs {
        let mut records = Vec::new(alloc);
        for one in *logged {
            records.push(record_of(alloc, *one)?)?;
        }
        logs.push(Log { records })?;
    }
    let mut bases = Vec::new(alloc);
    bases.push(Some(Page {
        number: small.number,
        log: 1,
        node: Node {
            live: true,
            level: 0,
            low: small.low,
            high: TOP,
            pairs: pairs_of(alloc, &[(7, small.word)])?,
        },
    }))?;
    Ok(Image {
        floor: 0,
        logs,
        bases,
    })
}

fn record_of(alloc: Global, logged: Logged) -> Result<Record, AllocError> {
    match logged {
        Logged::Write(log, txn, number, prev, key, before, after)
        | Logged::Stray(log, txn, number, prev, key, before, after) => {
            let page = u64::from(matches!(logged, Logged::Stray(..)));
            let mut record = bare(alloc, Kind::Change, log, txn, number);
            record.refs.push(Ref { page, prev })?;
            record.left = Ref { page: 0, prev };
            record.key = key;
            record.before = before;
            record.after = after;
            Ok(record)
        }
        Logged::Commit(log, txn, number, need) => {
            let mut record = bare(alloc, Kind::Commit, log, txn, number);
            record.need = need;
            Ok(record)
        }
        Logged::Abort(log, txn, number, need) => {
            let mut record = bare(alloc, Kind::Abort, log, txn, number);
            record.need = need;
            Ok(record)
        }
    }
}

fn bare(alloc: Global, kind: Kind, log: u32, txn: u64, number: u64) -> Record {
    let nowhere = Ref { page: 0, prev: 0 };
    Record {
        kind,
        log,
        txn,
        number,
        need: 0,
        refs: Vec::new(alloc),
        left: nowhere,
        right: nowhere,
        parent: nowhere,
        key: 0,
        before: 0,
        after: 0,
        sep: 0,
        high: 0,
        level: 0,
        pairs: Vec::new(alloc),
        keys: Vec::new(alloc),
    }
}

fn are_named(names: &[Name], said: &[(u32, u64)]) -> bool {
    for (name, (session, number)) in names.iter().zip(said) {
        if name.session != *session || name.number != *number {
            return false;
        }
    }
    names.len() == said.len()
}

/// A page: whether it is live, its level, its fences and its pairs.
pub struct Shape(
    pub bool,
    pub u64,
    pub u64,
    pub u64,
    pub &'static [(u64, u64)],
);

/// Pages, and the least that breaks the rule of the tree.
pub static TREES: [(&[Shape], Option<usize>); 3] = [
    (
        &[
            Shape(true, 1, 0, TOP, &[(0, 1), (10, 2)]),
            Shape(true, 0, 0, 10, &[]),
            Shape(true, 0, 10, TOP, &[]),
        ],
        None,
    ),
    // the last leaf ends before its parent says so
    (
        &[
            Shape(true, 1, 0, TOP, &[(0, 1), (10, 2)]),
            Shape(true, 0, 0, 10, &[]),
            Shape(true, 0, 10, 20, &[]),
        ],
        Some(0),
    ),
    // a page that is not live has a fence, and the root is a leaf
    (
        &[
            Shape(true, 0, 0, TOP, &[(0, 1), (10, 2)]),
            Shape(false, 0, 0, 10, &[]),
            Shape(true, 0, 10, 20, &[]),
        ],
        Some(1),
    ),
];

/// The pages.
pub fn nodes_of(alloc: Global, shapes: &[Shape]) -> Result<Vec<Node>, AllocError> {
    let mut nodes = Vec::new(alloc);
    for Shape(live, level, low, high, pairs) in shapes {
        nodes.push(Node {
            live: *live,
            level: *level,
            low: *low,
            high: *high,
            pairs: pairs_of(alloc, pairs)?,
        })?;
    }
    Ok(nodes)
}

/// Pages that all have number 0, and one record, by its kind, its separator, its level and its pairs. It has log 1, number 1 and the
/// greatest high fence; its right page is 2. A split and a join have page 1 as left and page 0 as parent. Then: the rule that is broken.
pub struct Redone {
    pub name: &'static str,
    pub pages: &'static [Shape],
    pub kind: Kind,
    pub sep: u64,
    pub level: u32,
    pub pairs: &'static [(u64, u64)],
    pub damage: Option<Damage>,
}

const UNDOABLE: Option<Damage> = Some(Damage::Undoable { log: 1, number: 1 });

// A root over one leaf, and a free page.
const ONE_LEAF: &[Shape] = &[
    Shape(true, 1, 0, TOP, &[(0, 1)]),
    Shape(true, 0, 0, TOP, &[(1, 1), (3, 1), (5, 1)]),
    Shape(false, 0, 0, 0, &[]),
];

const TWO_LEAVES: &[Shape] = &[
    Shape(true, 1, 0, TOP, &[(0, 1), (3, 2)]),
    Shape(true, 0, 0, 3, &[(1, 1)]),
    Shape(true, 0, 3, TOP, &[(5, 1)]),
];

// A root over one leaf, behind a free page.
const LAST_LEAF: &[Shape] = &[
    Shape(true, 1, 0, TOP, &[(0, 2)]),
    Shape(false, 0, 0, 0, &[]),
    Shape(true, 0, 0, TOP, &[(1, 1)]),
];

pub static REDONE: [Redone; 9] = [
    Redone {
        name: "a split",
        pages: ONE_LEAF,
        kind: Kind::Split,
        sep: 3,
        level: 0,
        pairs: &[(3, 1), (5, 1)],
        damage: None,
    },
    Redone {
        name: "a split whose pairs are out of order",
        pages: ONE_LEAF,
        kind: Kind::Split,
        sep: 3,
        level: 0,
        pairs: &[(5, 1), (3, 1)],
        damage: UNDOABLE,
    },
    Redone {
        name: "a split of level 8",
        pages: ONE_LEAF,
        kind: Kind::Split,
        sep: 3,
        level: 8,
        pairs: &[(3, 1), (5, 1)],
        damage: UNDOABLE,
    },
    Redone {
        name: "a lift",
        pages: ONE_LEAF,
        kind: Kind::Lift,
        sep: 0,
        level: 1,
        pairs: &[(0, 1)],
        damage: None,
    },
    Redone {
        name: "a lift over a root whose low fence is not 0",
        pages: &[
            Shape(true, 1, 1, TOP, &[(1, 1)]),
            Shape(true, 0, 1, TOP, &[]),
            Shape(false, 0, 0, 0, &[]),
        ],
        kind: Kind::Lift,
        sep: 0,
        level: 1,
        pairs: &[(1, 1)],
        damage: UNDOABLE,
    },
    Redone {
        name: "a join",
        pages: TWO_LEAVES,
        kind: Kind::Join,
        sep: 3,
        level: 0,
        pairs: &[(5, 1)],
        damage: None,
    },
    Redone {
        name: "a join whose pairs do not follow those of left",
        pages: TWO_LEAVES,
        kind: Kind::Join,
        sep: 3,
        level: 0,
        pairs: &[(1, 1)],
        damage: UNDOABLE,
    },
    Redone {
        name: "a drop",
        pages: LAST_LEAF,
        kind: Kind::Drop,
        sep: 0,
        level: 0,
        pairs: &[(1, 1)],
        damage: None,
    },
    Redone {
        name: "a drop whose pairs pass the root's high fence",
        pages: LAST_LEAF,
        kind: Kind::Drop,
        sep: 0,
        level: 0,
        pairs: &[(1, 1), (TOP, 1)],
        damage: UNDOABLE,
    },
];

/// The record counts, and the rule that is broken is as is written.
pub fn is_redone(alloc: Global, redone: &Redone) -> Result<bool, AllocError> {
    let mut bases = Vec::new(alloc);
    for node in nodes_of(alloc, redone.pages)? {
        bases.push(Some(Page {
            number: 0,
            log: 1,
            node,
        }))?;
    }
    let mut records = Vec::new(alloc);
    records.push(structure_of(alloc, redone)?)?;
    let mut logs = Vec::new(alloc);
    logs.push(Log { records })?;
    let image = Image {
        floor: 0,
        logs,
        bases,
    };
    let root = recovered_page(alloc, &image, 0)?;
    Ok(root.number == 1 && first_damage(alloc, &image)? == redone.damage)
}

fn structure_of(alloc: Global, redone: &Redone) -> Result<Record, AllocError> {
    let root = Ref { page: 0, prev: 0 };
    let left = Ref { page: 1, prev: 0 };
    let right = Ref { page: 2, prev: 0 };
    let mut record = bare(alloc, redone.kind, 1, 1, 1);
    record.right = right;
    if matches!(redone.kind, Kind::Split | Kind::Join) {
        record.refs = Vec::from_slice(alloc, &[left, right, root])?;
        record.left = left;
        record.parent = root;
    } else {
        record.refs = Vec::from_slice(alloc, &[root, right])?;
    }
    record.sep = redone.sep;
    record.high = TOP;
    record.level = redone.level;
    record.pairs = pairs_of(alloc, redone.pairs)?;
    Ok(record)
}
