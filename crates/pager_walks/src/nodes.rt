// Nodes, as the plain programs have them.
use plain_images::{Node, Pair};
use std::alloc::{AllocError, Global};

/// The pairs that a node has room for, and the pair at which a full one is split.
pub const ROOM: usize = 60;

pub const HALF: usize = 30;

/// The word of a key that has no value.
pub const DEAD: u64 = 1 << 63;

pub fn copy_of(alloc: Global, node: &Node) -> Result<Node, AllocError> {
    Ok(Node {
        live: node.live,
        level: node.level,
        low: node.low,
        high: node.high,
        pairs: Vec::from_slice(alloc, &node.pairs)?,
    })
}

/// A node that stands in 126 words.
pub fn node_in(alloc: Global, words: &btree_node::Node) -> Result<Node, AllocError> {
    let mut pairs = Vec::new(alloc);
    for at in 0..words.count() {
        pairs.push(Pair {
            key: words.key_at(at),
            word: words.word_at(at),
        })?;
    }
    Ok(Node {
        live: words.is_live(),
        level: u64::from(words.level()),
        low: words.low(),
        high: words.high(),
        pairs,
    })
}

/// The word of a key, if it has an entry.
pub fn word_in(node: &Node, key: u64) -> Option<u64> {
    for pair in &node.pairs {
        if pair.key == key {
            return Some(pair.word);
        }
    }
    None
}

/// The page of the last pair that is not above the key.
pub fn child_for(node: &Node, key: u64) -> u32 {
    let mut child = 0;
    for pair in &node.pairs {
        if pair.key <= key {
            child = number_of(pair.word);
        }
    }
    child
}

/// The page that a word of an inner node names.
pub fn number_of(word: u64) -> u32 {
    u32::try_from(word).unwrap_or(0)
}
