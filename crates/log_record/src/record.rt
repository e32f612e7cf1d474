// What a record says.
use crate::format::MOST;

/// A page that a record changes, and the page's number before it.
#[derive(Clone, Copy, Debug, PartialEq, Eq)]
pub struct PageRef {
    pub page: u32,
    pub prev: u64,
}

/// A key with its word: a value word in a leaf, a page in an inner node.
#[derive(Clone, Copy, Debug, PartialEq, Eq)]
pub struct Pair {
    pub key: u64,
    pub word: u64,
}

/// The first `count` of these pairs, at most `MOST`. The others are 0.
#[derive(Clone, Copy, Debug)]
pub struct Pairs {
    pub count: u8,
    pub pairs: [Pair; MOST],
}

impl Pairs {
    /// No pairs.
    pub const NONE: Pairs = Pairs {
        count: 0,
        pairs: [Pair { key: 0, word: 0 }; MOST],
    };
}

/// The first `count` of these keys, at most `MOST`. The others are 0.
#[derive(Clone, Copy, Debug)]
pub struct Keys {
    pub count: u8,
    pub keys: [u64; MOST],
}

impl Keys {
    /// No keys.
    pub const NONE: Keys = Keys {
        count: 0,
        keys: [0; MOST],
    };
}

/// A record: its transaction, its number, and what it does.
#[derive(Clone, Copy, Debug)]
pub struct Record {
    pub txn: u64,
    pub gsn: u64,
    pub body: Body,
}

/// What a record does. Page 0 is always the root.
#[derive(Clone, Copy, Debug)]
pub enum Body {
    /// The key gets the word `after`, and comes in where it was not there. The word before of a key that was not there
    /// is 2^63.
    Change {
        leaf: PageRef,
        key: u64,
        before: u64,
        after: u64,
    },
    /// The entry that is there gets the word `after`.
    PutBack {
        leaf: PageRef,
        key: u64,
        before: u64,
        after: u64,
    },
    /// `left` loses its pairs from the separator on, which is its high fence then. `right` is a node of this level,
    /// with the fences separator and `high`, and the pairs. `parent` gains the separator with `right`.
    Split {
        left: PageRef,
        right: PageRef,
        parent: PageRef,
        separator: u64,
        high: u64,
        level: u8,
        pairs: Pairs,
    },
    /// `page` is a node of this level with the root's fences and the pairs. The root is one level higher, with the one
    /// pair of key 0 and `page`.
    Lift {
        root_prev: u64,
        page: PageRef,
        level: u8,
        pairs: Pairs,
    },
    /// `left` gains the pairs and the high fence. `right` becomes free. `parent` loses the separator.
    Join {
        left: PageRef,
        right: PageRef,
        parent: PageRef,
        separator: u64,
        high: u64,
        pairs: Pairs,
    },
    /// The root has this level and the pairs. `child` becomes free.
    DropRoot {
        root_prev: u64,
        child: PageRef,
        level: u8,
        pairs: Pairs,
    },
    /// The entries of these keys go.
    Purge {
        leaf: PageRef,
        keys: Keys,
    },
    /// The transaction ends, and is committed where all numbers up to `need` are on disk.
    Commit {
        need: u64,
    },
    /// The transaction ends, and has changed nothing.
    Abort {
        need: u64,
    },
}
