// Pages as the plain program has them.

/// The pairs that a node has room for.
pub(crate) const ROOM: usize = 60;

/// The greatest level of a node.
pub(crate) const LEVELS: u64 = 7;

/// The word of a tombstone.
pub(crate) const DEAD: u64 = 1 << 63;

/// A key and its word.
#[derive(Clone, Copy, Debug, PartialEq, Eq)]
pub struct Pair {
    pub key: u64,
    pub word: u64,
}

/// A node, or a free page, which is not live and has nothing else.
#[derive(Debug, Drop)]
pub struct Node {
    pub live: bool,
    pub level: u64,
    pub low: u64,
    pub high: u64,
    pub pairs: Vec<Pair>,
}
