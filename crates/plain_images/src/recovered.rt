// The recovered pages, and the map.
ghost use Rattle.std.specs.Prelude.{◌≡◌, IfOk};
ghost use Rattle.image_model.specs.Images as images;
ghost use Rattle.image_model.specs.Undo as undoing;
ghost use Rattle.plain_images.specs.Pages.{node_of};
ghost use Rattle.plain_images.specs.Records.{page_of, entries_of};
ghost use Rattle.plain_images.specs.Images.{image_of};
ghost use Rattle.plain_images.specs.Replayed.{lost_in};
ghost use Rattle.plain_images.specs.Undo.{word_undone};

use crate::leaves::{lookup, set_in};
use crate::pages::{DEAD, Node};
use crate::records::{Image, Page};
use crate::redone::page_at;
use crate::replayed::{Replayed, is_lost, replay};
use std::alloc::{AllocError, Global};

/// The page after redo and undo, with the number and the log that redo left. In a sound image it is free where there is no such page.
///
/// # Errors
/// Where memory runs out.
pub fn recovered_page(alloc: Global, image: &Image, page: u64) -> Result<Page, AllocError>
    ensures { IfOk result (λ v. page_of v ≡ images.recovered_page (image_of image.now) page) }
{
    let replayed = replay(alloc, image)?;
    let was = page_at(alloc, &image.bases, &replayed.redone.placed, page)?;
    let node = undo_node(alloc, &replayed, was.node)?;
    Ok(Page {
        number: was.number,
        log: was.log,
        node,
    })
}

/// The key's value in the map for which the image stands.
///
/// # Errors
/// Where memory runs out.
pub fn value(alloc: Global, image: &Image, key: u64) -> Result<Option<u64>, AllocError>
    ensures { IfOk result (λ o. o ≡ images.map_of (image_of image.now) key) }
{
    let word = recovered(alloc, image, key)?;
    if word < DEAD {
        return Ok(Some(word));
    }
    Ok(None)
}

// The key's word after redo and undo; an absent key has a tombstone's.
fn recovered(alloc: Global, image: &Image, key: u64) -> Result<u64, AllocError>
    ensures { IfOk result (λ w. w ≡ images.recovered (image_of image.now) key) }
{
    let replayed = replay(alloc, image)?;
    let word = lookup(alloc, &image.bases, &replayed.redone, key)?;
    Ok(undo_word(&replayed, key, word))
}

// The key's word after the lost writes were set back.
fn undo_word(replayed: &Replayed, key: u64, word: u64) -> u64
    ensures { result ≡ word_undone (lost_in replayed.now) (entries_of replayed.now.records.items) key word }
{
    let mut undone = word;
    for entry in &replayed.records {
        if is_lost(replayed, entry) && key == entry.key {
            undone = entry.before;
        }
    }
    undone
}

// The node after the lost writes were set back in it.
fn undo_node(alloc: Global, replayed: &Replayed, node: Node) -> Result<Node, AllocError>
    ensures { IfOk result (λ v. node_of v ≡ undoing.undo_node (lost_in replayed.now) (entries_of replayed.now.records.items) (node_of node)) }
{
    let mut undone = node;
    for entry in &replayed.records {
        if is_lost(replayed, entry) {
            undone = set_in(alloc, entry.key, entry.before, undone)?;
        }
    }
    Ok(undone)
}
