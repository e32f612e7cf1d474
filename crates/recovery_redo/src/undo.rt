// Undo: the changes of the lost are set back by key.
ghost use Rattle.std.specs.Prelude.{◌≡◌, ◌<◌, ◌||◌, ℕ, not, length, true, OnOk, Err, HoldsAt};
ghost use Rattle.page_model.specs.Page.{with_pairs};
ghost use Rattle.page_model.specs.Pairs.{put};
ghost use Rattle.page_model.specs.Nodes.{holds};
ghost use Rattle.page_model.specs.Tree.{IsTree};
ghost use Rattle.page_model.specs.Redo.{has_key};
ghost use Rattle.disk_image.specs.Formats.{format_of};
ghost use Rattle.node_tree.specs.Nodes.{nodes_of};
ghost use Rattle.record_redo.specs.Pages.{pages_of, Keeps, MarksFor};
ghost use Rattle.recovery_scan.specs.Records.{entry_of, entries_of};
ghost use Rattle.recovery_scan.specs.Scans.{AreOfLogs};
ghost use Rattle.recovery_redo.specs.Inside as inside;

use crate::fields::{before_of, key_of};
use crate::kinds::is_write;
use crate::outcome::head_in;
use crate::recover::{Failed, damaged_by};
use crate::txns::has_txn;
use disk_image::{Node, Record};
use log_index::LogIndex;
use node_tree::leaf_of;
use std::collections::BTreeSet;

/// Sets the words of the lost back, newest first. The first whose key has no entry is told.
pub(crate) fn undo(
    pages: &mut [Node],
    changed: &mut [bool],
    counted: &[bool],
    ended: &[BTreeSet<u64>],
    index: &LogIndex,
    entry: &mut Record,
) -> Result<(), Failed>
    requires tree { IsTree (format_of (length pages.old)) (nodes_of pages.old) }
    requires words { inside.AreWords index.now counted.now }
    requires marks { length changed.old ≡ length pages.old }
    requires flags { length counted.now ≡ length index.now }
    requires of_logs { AreOfLogs (length ended.now) index.now }
    ensures undone { OnOk result (inside.IsUndone pages.old pages.new index.now counted.now ended.now 0) }
    ensures kept { OnOk result (Keeps pages.old pages.new changed.old changed.new) }
    ensures only { OnOk result (MarksFor (inside.is_leaf_of (entries_of index.now) (nodes_of pages.new)) changed.old changed.new) }
    ensures numbers { OnOk result (inside.SameNumbers pages.old pages.new) }
    ensures tree { OnOk result (IsTree (format_of (length pages.new)) (nodes_of pages.new)) }

    ensures cause { (a place : ℕ) → result ≡ Err (Failed.Damaged a place) → inside.LacksAt pages.old index.now counted.now ended.now a place }
{
    let mut left = index.len();
    while left > 0 {
        left -= 1;
        if !undo_one(pages, changed, counted[left], ended, index, left, entry) {
            return Err(damaged_by(index, left));
        }
    }
    Ok(())
}

// Sets the record's word back, if it is lost; false where its key has no entry.
fn undo_one(
    pages: &mut [Node],
    changed: &mut [bool],
    counts: bool,
    ended: &[BTreeSet<u64>],
    index: &LogIndex,
    i: usize,
    entry: &mut Record,
) -> bool
    requires within { i < length index.now }
    requires tree { IsTree (format_of (length pages.old)) (nodes_of pages.old) }
    requires marks { length changed.old ≡ length pages.old }
    requires of_logs { AreOfLogs (length ended.now) index.now }
    ensures answer { HoldsAt (λ x. result ≡ (not (inside.lost_by ended.now counts x) || inside.has pages.old (entry_of x).key)) index.now i }
    ensures after { result ≡ true → HoldsAt (λ x. pages_of pages.new ≡ inside.set_back (inside.lost_by ended.now counts x) (entry_of x).key (entry_of x).before (pages_of pages.old)) index.now i }
    ensures kept { result ≡ true → Keeps pages.old pages.new changed.old changed.new }
    ensures only { result ≡ true → HoldsAt (λ x. MarksFor (λ p. holds (nodes_of pages.old p) (entry_of x).key) changed.old changed.new) index.now i }
{
    if !is_lost(counts, ended, index, i) {
        return true;
    }
    index.read(i, entry);
    put_back(pages, changed, key_of(entry), before_of(entry))
}

// The record is a write that counted, of a transaction that is not ended.
fn is_lost(counts: bool, ended: &[BTreeSet<u64>], index: &LogIndex, i: usize) -> bool
    requires within { i < length index.now }
    requires of_logs { AreOfLogs (length ended.now) index.now }
    ensures { HoldsAt (λ x. result ≡ inside.lost_by ended.now counts x) index.now i }
{
    let head = head_in(ended.len(), index, i);
    is_write(index, i) && counts && !has_txn(ended, head.log, head.txn)
}

// The key's entry gets the word; false where it has none.
fn put_back(pages: &mut [Node], changed: &mut [bool], key: u64, word: u64) -> bool
    requires tree { IsTree (format_of (length pages.old)) (nodes_of pages.old) }
    requires marks { length changed.old ≡ length pages.old }
    ensures answer { result ≡ inside.has pages.old key }
    ensures after { result ≡ true → pages_of pages.new ≡ inside.set_back true key word (pages_of pages.old) }
    ensures kept { result ≡ true → Keeps pages.old pages.new changed.old changed.new }
    ensures only { result ≡ true → MarksFor (λ p. holds (nodes_of pages.old p) key) changed.old changed.new }
{
    if key == u64::MAX {
        return false;
    }
    let at = leaf_of(pages, key);
    if !set_word(&mut pages[at], key, word) {
        return false;
    }
    changed[at] = true;
    true
}

// The key's entry in the leaf gets the word; false where it has none.
fn set_word(node: &mut Node, key: u64, word: u64) -> bool
    requires { holds node.old.node key ≡ true }
    ensures answer { result ≡ has_key key node.old.node }
    ensures after { result ≡ true → node.new ≡ with_pairs node.old (put key word node.old.node.pairs) }
{
    if node.find(key).is_none() {
        return false;
    }
    let _ = node.put(key, word);
    true
}
