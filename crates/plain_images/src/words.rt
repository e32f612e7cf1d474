// The whole map as a list of pairs.
ghost use Rattle.std.specs.Prelude.{◌≡◌, ℕ, not, length, IfOk};
ghost use Rattle.page_model.specs.Pairs as page_pairs;
ghost use Rattle.page_model.specs.Nodes as nodes;
ghost use Rattle.image_model.specs.Images as images;
ghost use Rattle.image_model.specs.Undo as undoing;
ghost use Rattle.plain_images.specs.Pages.{node_of, pairs_of, format_of};
ghost use Rattle.plain_images.specs.Records.{entries_of};
ghost use Rattle.plain_images.specs.Images.{image_of, redone_of};
ghost use Rattle.plain_images.specs.Replayed.{lost_in};
ghost use Rattle.plain_images.specs.Words as listed;

use crate::leaves::holds;
use crate::pages::{DEAD, Node, Pair};
use crate::pairs::put;
use crate::records::{Image, Page};
use crate::redone::{Redone, page_at};
use crate::replayed::{Replayed, is_lost, replay};
use std::alloc::{AllocError, Global};

/// The map for which the image stands: its keys with their values, in rising order.
///
/// # Errors
/// Where memory runs out.
pub fn map(alloc: Global, image: &Image) -> Result<Vec<Pair>, AllocError>
    ensures values { IfOk result (λ v. (k : ℕ) → page_pairs.find k (pairs_of v.items) ≡ images.map_of (image_of image.now) k) }
    ensures rising { IfOk result (λ v. listed.IsRising 0 (pairs_of v.items)) }
{
    let replayed = replay(alloc, image)?;
    let words = words_in(alloc, &image.bases, &replayed.redone)?;
    let undone = undo_words(alloc, &replayed, words)?;
    let values = values_in(alloc, &undone)?;
    Ok(values)
}

// The words of all keys in leaves.
fn words_in(alloc: Global, bases: &[Option<Page>], redone: &Redone) -> Result<Vec<Pair>, AllocError>
    ensures { IfOk result (λ v. pairs_of v.items ≡ listed.words_in (length bases.now) (undoing.nodes_of (redone_of bases.now redone.now))) }
{
    let mut words = Vec::new(alloc);
    for place in 0..bases.len() {
        let page = page_at(alloc, bases, &redone.placed, place as u64)?;
        words = with_leaf(alloc, &page.node, &words)?;
    }
    Ok(words)
}

// The words with those of a page, which stand for the keys that it holds.
fn with_leaf(alloc: Global, node: &Node, words: &[Pair]) -> Result<Vec<Pair>, AllocError>
    ensures { let n = node_of node.now in IfOk result (λ v. pairs_of v.items ≡ listed.leaf_onto n n.pairs (page_pairs.keep (λ k. not (nodes.holds n k)) (pairs_of words.now))) }
{
    let mut with = beyond(alloc, node, words)?;
    let mut left = node.pairs.len();
    while left > 0 {
        left -= 1;
        let pair = node.pairs[left];
        if holds(node, pair.key) {
            with = put(alloc, &with, pair.key, pair.word)?;
        }
    }
    Ok(with)
}

// The words of the keys that the node does not hold.
fn beyond(alloc: Global, node: &Node, words: &[Pair]) -> Result<Vec<Pair>, AllocError>
    ensures { IfOk result (λ v. pairs_of v.items ≡ page_pairs.keep (λ k. not (nodes.holds (node_of node.now) k)) (pairs_of words.now)) }
{
    let mut beyond = Vec::new(alloc);
    for pair in words {
        if !holds(node, pair.key) {
            beyond.push(*pair)?;
        }
    }
    Ok(beyond)
}

// The words after the lost writes were set back.
fn undo_words(alloc: Global, replayed: &Replayed, words: Vec<Pair>) -> Result<Vec<Pair>, AllocError>
    ensures { IfOk result (λ v. pairs_of v.items ≡ listed.undo_words (lost_in replayed.now) (entries_of replayed.now.records.items) (pairs_of words.items)) }
{
    let mut undone = words;
    for entry in &replayed.records {
        if is_lost(replayed, entry) {
            undone = put(alloc, &undone, entry.key, entry.before)?;
        }
    }
    Ok(undone)
}

// The words that are no tombstones.
fn values_in(alloc: Global, words: &[Pair]) -> Result<Vec<Pair>, AllocError>
    ensures { IfOk result (λ v. pairs_of v.items ≡ listed.values_in (format_of 0) (pairs_of words.now)) }
{
    let mut values = Vec::new(alloc);
    for pair in words {
        if pair.word < DEAD {
            values.push(*pair)?;
        }
    }
    Ok(values)
}
