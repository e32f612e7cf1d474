// Whether a record could be done.
ghost use Rattle.std.specs.Prelude.{◌≡◌, ◌++◌, ◌&&◌, ◌==◌, not, length, IfOk};
ghost use Rattle.page_model.specs.Check as check;
ghost use Rattle.page_model.specs.Records as records;
ghost use Rattle.page_model.specs.Redo as page_redo;
ghost use Rattle.image_model.specs.Entries as entries;
ghost use Rattle.image_model.specs.Redo as redoing;
ghost use Rattle.plain_images.specs.Pages.{node_of, pairs_of, format_of};
ghost use Rattle.plain_images.specs.Records.{kind_of, record_of, entry_of};
ghost use Rattle.plain_images.specs.Images.{pages_of};

use crate::pages::{DEAD, LEVELS, Node, Pair, ROOM};
use crate::pairs::find;
use crate::records::{Kind, Page, Record};
use crate::redone::{Placed, number_of, page_at, stands};
use crate::tree::is_rising;
use std::alloc::{AllocError, Global};

// The record names pages that there are and, if it counts, can be done.
pub(crate) fn passes(
    alloc: Global,
    pages: usize,
    bases: &[Option<Page>],
    placed: &[Placed],
    entry: &Record,
) -> Result<bool, AllocError>
    ensures { IfOk result (λ b. b ≡ redoing.passes (format_of pages) (pages_of bases.now placed.now) (entry_of entry.now)) }
{
    if !names_pages(pages, entry) {
        return Ok(false);
    }
    if !is_page(entry.kind) || !stands(bases, placed, entry) {
        return Ok(true);
    }
    if !is_sayable(entry) {
        return Ok(false);
    }
    can_change(alloc, bases, placed, entry)
}

fn names_pages(pages: usize, entry: &Record) -> bool
    ensures { result ≡ redoing.names_pages (format_of pages) (entry_of entry.now) }
{
    for one in &entry.refs {
        if one.page >= pages as u64 {
            return false;
        }
    }
    true
}

fn is_page(kind: Kind) -> bool
    ensures { result ≡ entries.is_page (kind_of kind) }
{
    !matches!(kind, Kind::Commit | Kind::Abort)
}

// What it asks of itself.
fn is_sayable(entry: &Record) -> bool
    ensures { result ≡ redoing.is_sayable_as (format_of 0) (entries.page_kind (kind_of entry.now.kind)) (record_of entry.now) }
{
    match entry.kind {
        Kind::Change | Kind::PutBack => entry.before <= DEAD && entry.after <= DEAD,
        Kind::Split => are_apart(entry)
            && entry.pairs.len() <= ROOM
            && u64::from(entry.level) <= LEVELS
            && is_ordered(entry.sep, &entry.pairs, entry.high),
        Kind::Join => are_apart(entry) && entry.pairs.len() <= ROOM,
        Kind::Lift => entry.right.page != 0
            && u64::from(entry.level) < LEVELS
            && entry.pairs.len() <= ROOM
            && is_ordered(0, &entry.pairs, entry.high),
        Kind::Drop => entry.right.page != 0
            && entry.pairs.len() <= ROOM
            && u64::from(entry.level) <= LEVELS,
        Kind::Purge | Kind::Commit | Kind::Abort => true,
    }
}

// Of left, right and parent no two are the same page.
fn are_apart(entry: &Record) -> bool
    ensures { result ≡ (not (entry.now.left.page == entry.now.right.page) && (not (entry.now.left.page == entry.now.parent.page) && not (entry.now.right.page == entry.now.parent.page))) }
{
    entry.left.page != entry.right.page
        && entry.left.page != entry.parent.page
        && entry.right.page != entry.parent.page
}

// Keys rise strictly and stand within the fences; without pairs any fences will do.
fn is_ordered(low: u64, pairs: &[Pair], high: u64) -> bool
    ensures { result ≡ page_redo.is_ordered low (pairs_of pairs.now) high }
{
    pairs.is_empty() || is_rising(u128::from(low), pairs, high)
}

// The same of the pairs of two nodes, one behind the other.
fn are_ordered(low: u64, left: &[Pair], right: &[Pair], high: u64) -> bool
    ensures { result ≡ page_redo.is_ordered low (pairs_of left.now ++ pairs_of right.now) high }
{
    match left.first() {
        Some(_) => are_rising(low, left, right, high),
        None => is_ordered(low, right, high),
    }
}

fn are_rising(low: u64, left: &[Pair], right: &[Pair], high: u64) -> bool
    ensures { result ≡ check.is_rising low (pairs_of left.now ++ pairs_of right.now) high }
{
    let mut from = u128::from(low);
    for pair in left {
        if u128::from(pair.key) < from {
            return false;
        }
        from = u128::from(pair.key) + 1;
    }
    is_rising(from, right, high)
}

// What it asks of each page that it changes.
fn can_change(
    alloc: Global,
    bases: &[Option<Page>],
    placed: &[Placed],
    entry: &Record,
) -> Result<bool, AllocError>
    ensures { IfOk result (λ b. b ≡ redoing.can_change (format_of 0) (pages_of bases.now placed.now) (entry_of entry.now)) }
{
    for one in &entry.refs {
        let number = number_of(bases, placed, one.page);
        let page = page_at(alloc, bases, placed, one.page)?;
        if at_prev(entry, one.page, number) && !can_be(entry, one.page, &page.node) {
            return Ok(false);
        }
    }
    Ok(true)
}

// The page stands at its prev.
fn at_prev(entry: &Record, page: u64, number: u64) -> bool
    ensures { (v : entries.Contents) → v.gsn ≡ number → result ≡ redoing.at_prev (entry_of entry.now) page v }
{
    for one in &entry.refs {
        if one.page == page && number == one.prev {
            return true;
        }
    }
    false
}

// What it asks of its page, as it stands.
fn can_be(entry: &Record, page: u64, node: &Node) -> bool
    ensures { result ≡ page_redo.can_be (format_of 0) (entries.page_kind (kind_of entry.now.kind)) (record_of entry.now) page (node_of node.now) }
{
    match entry.kind {
        Kind::Change => node.live
            && node.level == 0
            && within(entry.key, node)
            && (has_key(entry.key, node) || node.pairs.len() < ROOM),
        Kind::PutBack => node.live
            && node.level == 0
            && within(entry.key, node)
            && has_key(entry.key, node),
        Kind::Split => can_split(entry, page, node),
        Kind::Join => can_join(entry, page, node),
        Kind::Lift => page != 0 || (node.live && within(0, node)),
        Kind::Drop => page != 0 || (node.live && is_ordered(node.low, &entry.pairs, node.high)),
        Kind::Purge | Kind::Commit | Kind::Abort => node.live
            && node.level == 0
            && has_keys(&entry.keys, node),
    }
}

fn can_split(entry: &Record, page: u64, node: &Node) -> bool
    ensures { result ≡ page_redo.can_be (format_of 0) records.Kind.Split (record_of entry.now) page (node_of node.now) }
{
    if page == entry.left.page {
        return node.live && inside(entry.sep, node);
    }
    if page == entry.right.page {
        return true;
    }
    node.live && inside(entry.sep, node) && node.pairs.len() < ROOM
}

fn can_join(entry: &Record, page: u64, node: &Node) -> bool
    ensures { result ≡ page_redo.can_be (format_of 0) records.Kind.Join (record_of entry.now) page (node_of node.now) }
{
    if page == entry.left.page {
        return node.live
            && node.pairs.len() <= ROOM
            && entry.pairs.len() <= ROOM - node.pairs.len()
            && are_ordered(node.low, &node.pairs, &entry.pairs, entry.high);
    }
    if page == entry.right.page {
        return true;
    }
    node.live && has_key(entry.sep, node)
}

fn inside(key: u64, node: &Node) -> bool
    ensures { result ≡ page_redo.inside key (node_of node.now) }
{
    node.low < key && key < node.high
}

fn within(key: u64, node: &Node) -> bool
    ensures { result ≡ page_redo.within key (node_of node.now) }
{
    node.low <= key && key < node.high
}

fn has_key(key: u64, node: &Node) -> bool
    ensures { result ≡ page_redo.has_key key (node_of node.now) }
{
    find(&node.pairs, key).is_some()
}

fn has_keys(keys: &[u64], node: &Node) -> bool
    ensures { result ≡ page_redo.all_keys (λ k. page_redo.has_key k (node_of node.now)) keys.now }
{
    for key in keys {
        if !has_key(*key, node) {
            return false;
        }
    }
    true
}
