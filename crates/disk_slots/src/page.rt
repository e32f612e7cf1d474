// Page slots.
ghost use Rattle.std.specs.Prelude.{◌≡◌, ◌↔◌, ℕ, ◌^◌, ◌<◌, ◌≤◌, length, codes, true, IsTrue, IfOk, IfSome, IfNone};
ghost use Rattle.page_model.specs.Page.{Page, word_at};
ghost use Rattle.btree_node.specs.Words.{words_of, Fits};
ghost use Rattle.lean_bytes.specs.Numbers.{AreWords};
ghost use Rattle.disk_slots.specs.Slots.{IsSealed};
ghost use Rattle.disk_slots.specs.Pages.{page_slot, IsStorable, IsPageSlot, IsValid};

use super::format::PAGE_TAG;
use super::refusal::Refusal;
use super::slot::{put_slot, take_slot};
use btree_node::Node;

/// Writes the slot of a page, 1,024 bytes.
pub fn page_bytes(node: &Node, into: &mut [u8])
    requires { length into.old ≡ 1024 }
    ensures after { into.new ≡ page_slot node.now }
    ensures fits { Fits node.now }
    ensures words { AreWords (words_of node.now) }
{
    put_slot(&PAGE_TAG, node.words(), into);
}

/// Reads a slot of page `page`, of so many pages.
pub fn read_page(page: u32, pages: u32, bytes: &[u8]) -> Result<Node, Refusal>
    ensures answer { IfOk result (IsPageSlot page pages bytes.now) }

    ensures cause_no_seal { result ≡ Err Refusal.NoSeal → IsSealed (codes "LEANPAGE") bytes.now → ⊥ }

    // The seal fits, and no contents of this page have these bytes.
    ensures cause_malformed { result ≡ Err Refusal.Malformed → IsSealed (codes "LEANPAGE") bytes.now × ((contents : Page) → IsPageSlot page pages bytes.now contents → ⊥) }
{
    let Some(words) = take_slot(&PAGE_TAG, bytes) else {
        return Err(Refusal::NoSeal);
    };
    let Some(node) = Node::from_words(words) else {
        return Err(Refusal::Malformed);
    };
    if node.number() != u64::from(page) {
        return Err(Refusal::Malformed);
    }
    if !is_storable(&node, u64::from(pages)) {
        return Err(Refusal::Malformed);
    }
    Ok(node)
}

/// Reads a slot of page `page`, if it is valid for a generation.
pub fn read_valid(page: u32, pages: u32, generation: u64, bytes: &[u8]) -> Option<Node>
    ensures answer { IfSome result (IsValid page pages generation bytes.now) }
    ensures cause { IfNone result ((contents : Page) → IsValid page pages generation bytes.now contents → ⊥) }
{
    let Ok(node) = read_page(page, pages, bytes) else {
        return None;
    };
    if node.generation() > generation {
        return None;
    }
    Some(node)
}

/// Whether the pairs are those of a stored page.
fn is_storable(node: &Node, pages: u64) -> bool
    ensures { IsTrue result ↔ IsStorable pages node.now.node }
{
    if !node.is_live() {
        return is_bare(node);
    }
    if node.level() == 0 {
        return are_values(node);
    }
    if node.count() == 0 {
        return false;
    }
    if node.key_at(0) != node.low() {
        return false;
    }
    are_children(node, pages)
}

/// Whether a free page holds nothing.
fn is_bare(node: &Node) -> bool
    ensures { IsTrue result ↔ (length node.now.node.pairs ≡ 0) × (node.now.node.level ≡ 0) × (node.now.node.low ≡ 0) × (node.now.node.high ≡ 0) }
{
    node.count() == 0 && node.level() == 0 && node.low() == 0 && node.high() == 0
}

/// Whether each word is a value or the tombstone.
fn are_values(node: &Node) -> bool
    ensures { IsTrue result ↔ ((i : ℕ) → i < length node.now.node.pairs → word_at i node.now.node.pairs ≤ 2 ^ 63) }
{
    for i in 0..node.count() {
        if node.word_at(i) > 1 << 63 {
            return false;
        }
    }
    true
}

/// Whether each word is the number of a page that may be a child.
fn are_children(node: &Node, pages: u64) -> bool
    ensures { IsTrue result ↔ ((i : ℕ) → i < length node.now.node.pairs → (0 < word_at i node.now.node.pairs) × (word_at i node.now.node.pairs < pages)) }
{
    for i in 0..node.count() {
        let word = node.word_at(i);
        if word == 0 || word >= pages {
            return false;
        }
    }
    true
}
