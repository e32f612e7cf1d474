// What can happen.
use crate::table::Table;
use plain_images::Pair;

/// How a row is held: with others that read, or by one alone.
#[derive(Clone, Copy)]
pub enum Mode {
    Shared,
    Alone,
}

/// What follows a key in a leaf: the least pair at or above it, or that there is none up to the high fence.
#[derive(Clone, Copy)]
pub enum Following {
    Pair { key: u64, value: u64 },
    Gap { high: u64 },
}

/// An event, by its worker, if it has one, and what it names. `flushed` is the least flushed number as the worker found it.
/// `Fetch`: the cold leaf was read, and had these pairs.
#[derive(Drop)]
pub enum Event {
    Enter {
        worker: u64,
        epoch: u64,
    },
    Begin {
        worker: u64,
        flushed: u64,
    },
    Lock {
        worker: u64,
        row: u64,
        mode: Mode,
    },
    Read {
        worker: u64,
        page: u64,
        key: u64,
        answer: Option<u64>,
    },
    Next {
        worker: u64,
        page: u64,
        key: u64,
        answer: Following,
    },
    Peek {
        worker: u64,
        page: u64,
        key: u64,
        answer: Option<u64>,
    },
    Change {
        worker: u64,
        page: u64,
        key: u64,
        word: u64,
    },
    PutBack {
        worker: u64,
        page: u64,
    },
    Split {
        worker: u64,
        left: u64,
        right: u64,
        parent: u64,
        place: u64,
    },
    Lift {
        worker: u64,
        child: u64,
    },
    Join {
        worker: u64,
        left: u64,
        right: u64,
        parent: u64,
    },
    Drop {
        worker: u64,
        child: u64,
    },
    Purge {
        worker: u64,
        page: u64,
        keys: Vec<u64>,
    },
    End {
        worker: u64,
        commit: bool,
        flushed: u64,
    },
    Unlock {
        worker: u64,
        row: u64,
    },
    Flush {
        worker: u64,
        number: u64,
    },
    Sync {
        number: u64,
    },
    Post {
        worker: u64,
        number: u64,
    },
    Fetch {
        page: u64,
        pairs: Vec<Pair>,
    },
    Load {
        page: u64,
        frame: u64,
    },
    Cool {
        page: u64,
    },
    Rescue {
        page: u64,
    },
    Save {
        page: u64,
    },
    Evict {
        page: u64,
    },
    Leave {
        worker: u64,
    },
    Tick,
    Cut {
        number: u64,
        heads: Table<u64>,
    },
    Ask {
        worker: u64,
    },
    Refused {
        worker: u64,
        cause: u64,
        pages: u64,
    },
    Miss {
        worker: u64,
    },
}
