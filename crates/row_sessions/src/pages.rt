//! Pages of small trees, for tests and measurements.
ghost use Rattle.std.specs.Prelude.{◌≤◌, ◌<◌, ◌^◌};

use btree_descent::BtreeNodeNode as Node;
use std::alloc::{AllocError, Global};

/// A tree of two levels: a root, page 0, over so many leaves. Leaf `i`, page `i + 1`, has the keys from `span * i` on, and that many
/// `entries`: key `span * i + gap * j` has the word `j`, as far as it is among the leaf's keys.
pub fn two_levels(
    alloc: Global,
    leaves: u32,
    span: u64,
    gap: u64,
    entries: u64,
) -> Result<Vec<Node>, AllocError>
    requires leaves { leaves ≤ 60 }
    requires span { span < 2 ^ 32 }
    requires gap { gap < 2 ^ 32 }
    requires entries { entries ≤ 60 }
{
    let mut pages = Vec::new(alloc);
    pages.push(root_over(1, leaves, 1, span))?;
    for leaf in 0..leaves {
        let low = span * u64::from(leaf);
        let high = if leaf + 1 == leaves {
            u64::MAX
        } else {
            low + span
        };
        pages.push(filled(Node::empty_leaf(leaf + 1, low, high), gap, entries))?;
    }
    Ok(pages)
}

/// A tree of one leaf, page 0: key `gap * j` has the word `j`, for so many `entries`. Behind it stand so many free pages.
pub fn one_leaf(alloc: Global, gap: u64, entries: u64, free: u32) -> Result<Vec<Node>, AllocError>
    requires gap { gap < 2 ^ 32 }
    requires entries { entries ≤ 60 }
    requires free { free ≤ 60 }
{
    let mut pages = Vec::new(alloc);
    pages.push(filled(Node::empty_leaf(0, 0, u64::MAX), gap, entries))?;
    for page in 0..free {
        pages.push(Node::free(page + 1))?;
    }
    Ok(pages)
}

/// A tree of all eight levels: a full root over sixty chains of seven nodes, each of which has one child, and an empty leaf at its end. Behind
/// it stands a free page.
pub fn eight_levels(alloc: Global) -> Result<Vec<Node>, AllocError> {
    let mut pages = Vec::new(alloc);
    pages.push(root_over(7, 60, 7, 1))?;
    for chain in 0..60u32 {
        let low = u64::from(chain);
        let high = if chain == 59 { u64::MAX } else { low + 1 };
        for depth in 0..6u32 {
            pages.push(link(1 + 7 * chain + depth, 6 - depth, low, high))?;
        }
        pages.push(Node::empty_leaf(7 + 7 * chain, low, high))?;
    }
    pages.push(Node::free(421))?;
    Ok(pages)
}

// The root over so many subtrees, of so many pages each; a free page where that is none.
fn root_over(level: u32, subtrees: u32, pages: u32, span: u64) -> Node
    requires level { level ≤ 7 }
    requires subtrees { subtrees ≤ 60 }
    requires pages { pages ≤ 7 }
    requires span { span < 2 ^ 32 }
{
    let mut words = [0; 126];
    words[3] = u64::from(subtrees) + (u64::from(level) << 8) + (1 << 24);
    words[5] = u64::MAX;
    for subtree in 0..subtrees as usize {
        words[6 + 2 * subtree] = span * subtree as u64;
        words[7 + 2 * subtree] = u64::from(pages) * subtree as u64 + 1;
    }
    match Node::from_words(words) {
        Some(root) => root,
        None => Node::free(0),
    }
}

// A node with one child, the next page; a free page where that is none.
fn link(page: u32, level: u32, low: u64, high: u64) -> Node
    requires level { level ≤ 7 }
{
    let mut words = [0; 126];
    words[0] = u64::from(page);
    words[3] = 1 + (u64::from(level) << 8) + (1 << 24);
    words[4] = low;
    words[5] = high;
    words[6] = low;
    words[7] = u64::from(page) + 1;
    match Node::from_words(words) {
        Some(node) => node,
        None => Node::free(page),
    }
}

// The leaf with its entries.
fn filled(mut leaf: Node, gap: u64, entries: u64) -> Node
    requires gap { gap < 2 ^ 32 }
    requires entries { entries ≤ 60 }
{
    let low = leaf.low();
    for entry in 0..entries {
        let key = low.saturating_add(gap * entry);
        if leaf.low() <= key && key < leaf.high() {
            let _ = leaf.put(key, entry);
        }
    }
    leaf
}
