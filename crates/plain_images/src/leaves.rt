// Words in leaves.
ghost use Rattle.std.specs.Prelude.{◌≡◌, length, IfOk, if◌then◌else◌};
ghost use Rattle.page_model.specs.Pairs as page_pairs;
ghost use Rattle.page_model.specs.Nodes as nodes;
ghost use Rattle.page_model.specs.Tree as tree;
ghost use Rattle.image_model.specs.Undo as undoing;
ghost use Rattle.plain_images.specs.Pages.{node_of, pairs_of, format_of};
ghost use Rattle.plain_images.specs.Images.{redone_of};

use crate::changes::with_pairs;
use crate::pages::{DEAD, Node};
use crate::pairs::{find, put};
use crate::records::Page;
use crate::redone::{Redone, page_at};
use std::alloc::{AllocError, Global};

// A leaf with the key between its fences.
pub(crate) fn holds(node: &Node, key: u64) -> bool
    ensures { result ≡ nodes.holds (node_of node.now) key }
{
    node.live && node.level == 0 && node.low <= key && key < node.high
}

// The word of the key in the leaf that has it; an absent key has a tombstone's.
pub(crate) fn lookup(
    alloc: Global,
    bases: &[Option<Page>],
    redone: &Redone,
    key: u64,
) -> Result<u64, AllocError>
    ensures { IfOk result (λ w. w ≡ undoing.values (format_of (length bases.now)) (redone_of bases.now redone.now) key) }
{
    match entry(alloc, bases, redone, key)? {
        Some(word) => Ok(word),
        None => Ok(DEAD),
    }
}

pub(crate) fn entry(
    alloc: Global,
    bases: &[Option<Page>],
    redone: &Redone,
    key: u64,
) -> Result<Option<u64>, AllocError>
    ensures { IfOk result (λ o. o ≡ tree.entry (length bases.now) (undoing.nodes_of (redone_of bases.now redone.now)) key) }
{
    let mut found: Option<u64> = None;
    for place in 0..bases.len() {
        let page = page_at(alloc, bases, &redone.placed, place as u64)?;
        found = found_in(&page.node, key, found);
    }
    Ok(found)
}

// What the node has of the key if it holds it, and otherwise what was found before.
fn found_in(node: &Node, key: u64, before: Option<u64>) -> Option<u64>
    ensures { result ≡ (if nodes.holds (node_of node.now) key then page_pairs.find key (pairs_of node.now.pairs.items) else before) }
{
    if holds(node, key) {
        return find(&node.pairs, key);
    }
    before
}

// The node with the key's word, if it holds the key.
pub(crate) fn set_in(alloc: Global, key: u64, word: u64, node: Node) -> Result<Node, AllocError>
    ensures { IfOk result (λ v. node_of v ≡ undoing.set_in key word (node_of node)) }
{
    if holds(&node, key) {
        let pairs = put(alloc, &node.pairs, key, word)?;
        return Ok(with_pairs(&node, pairs));
    }
    Ok(node)
}
