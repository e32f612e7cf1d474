// What redo tests of a record before it changes a page.
ghost use Rattle.std.specs.Prelude.{◌≡◌, ◌<◌, ◌≤◌, ◌+◌, ◌*◌, ◌%◌, ◌++◌, ◌&&◌, ◌||◌, ◌==◌, not, leb, ltb, true, length, take};
ghost use Rattle.page_model.specs.Nodes.{is_leaf};
ghost use Rattle.page_model.specs.Redo as asked;
ghost use Rattle.disk_image.specs.btree_node.Words.{pairs_of};
ghost use Rattle.disk_image.specs.log_record.Spelling.{IsCounted};
ghost use Rattle.disk_image.specs.log_record.Model.{model_ref, model_keys};
ghost use Rattle.record_redo.specs.Pages.{pages_of};
ghost use Rattle.record_redo.specs.Inside as inside;
ghost use Rattle.record_redo.specs.Inside.{record_in, AreWordsOf, model_refs};

use disk_image::{Body, Keys, Node, PageRef, are_ordered};

/// The word of a tombstone, which is the greatest word of a leaf.
const DEAD: u64 = 1 << 63;

/// The pairs that a node has room for.
const ROOM: usize = 60;

/// The greatest level.
const LEVELS: u8 = 7;

/// Whether the record counts: each page stands at its prev, or at the record's number or beyond.
pub(crate) fn are_met(pages: &[Node], number: u64, refs: &[PageRef]) -> bool
    requires { inside.are_below (length pages.now) (model_refs refs.now) ≡ true }
    ensures { result ≡ inside.are_met (pages_of pages.now) number (model_refs refs.now) }
{
    for i in 0..refs.len() {
        if !is_met(&pages[refs[i].page as usize], number, refs[i].prev) {
            return false;
        }
    }
    true
}

/// Whether the page stands at its prev, or at the record's number or beyond.
pub(crate) fn is_met(node: &Node, number: u64, prev: u64) -> bool
    ensures { result ≡ ((node.now.gsn == prev) || leb number node.now.gsn) }
{
    node.gsn() == prev || node.gsn() >= number
}

/// Whether each page that stands at its prev can be what the record asks.
pub(crate) fn can_all(pages: &[Node], body: &Body, refs: &[PageRef], words: &[u64]) -> bool
    requires page { inside.is_page body.now ≡ true }
    requires counted { IsCounted body.now }
    requires words { AreWordsOf (record_in body.now).pairs words.now }
    requires below { inside.are_below (length pages.now) (model_refs refs.now) ≡ true }
    ensures { result ≡ inside.can_all body.now (pages_of pages.now) (model_refs refs.now) }
{
    for i in 0..refs.len() {
        if !can_one(&pages[refs[i].page as usize], body, refs[i], words) {
            return false;
        }
    }
    true
}

/// Whether the page, if it stands at its prev, can be what the record asks.
pub(crate) fn can_one(node: &Node, body: &Body, at: PageRef, words: &[u64]) -> bool
    requires page { inside.is_page body.now ≡ true }
    requires counted { IsCounted body.now }
    requires words { AreWordsOf (record_in body.now).pairs words.now }
    ensures { result ≡ (not (node.now.gsn == at.prev) || inside.can_be body.now at.page node.now.node) }
{
    node.gsn() != at.prev || can_be(node, body, at.page, words)
}

/// Whether the record asks nothing of itself that is not so: words that a leaf can have, pages of which no two are the
/// same, a level, and pairs that fit in a node of it.
pub(crate) fn is_sayable(body: &Body, words: &[u64]) -> bool
    requires counted { IsCounted body.now }
    requires words { AreWordsOf (record_in body.now).pairs words.now }
    ensures { result ≡ inside.is_sayable body.now }
{
    match body {
        Body::Change { before, after, .. } | Body::PutBack { before, after, .. } => {
            *before <= DEAD && *after <= DEAD
        }
        Body::Split {
            left,
            right,
            parent,
            separator,
            high,
            level,
            ..
        } => {
            are_apart(left.page, right.page, parent.page)
                && *level <= LEVELS
                && is_ordered(*separator, *high, words)
        }
        Body::Join {
            left,
            right,
            parent,
            ..
        } => are_apart(left.page, right.page, parent.page),
        Body::Lift { page, level, .. } => {
            page.page != 0 && *level < LEVELS && is_ordered(0, u64::MAX, words)
        }
        Body::DropRoot { child, level, .. } => child.page != 0 && *level <= LEVELS,
        Body::Purge { .. } | Body::Commit { .. } | Body::Abort { .. } => true,
    }
}

fn are_apart(left: u32, right: u32, parent: u32) -> bool
    ensures { result ≡ (not (left == right) && (not (left == parent) && not (right == parent))) }
{
    left != right && left != parent && right != parent
}

fn is_ordered(low: u64, high: u64, words: &[u64]) -> bool
    requires { length words.now % 2 ≡ 0 }
    ensures { result ≡ asked.is_ordered low (pairs_of words.now) high }
{
    are_ordered(low, high, words)
}

// The page can be what the record asks of its page.
fn can_be(node: &Node, body: &Body, page: u32, words: &[u64]) -> bool
    requires page { inside.is_page body.now ≡ true }
    requires counted { IsCounted body.now }
    requires words { AreWordsOf (record_in body.now).pairs words.now }
    ensures { result ≡ inside.can_be body.now page node.now.node }
{
    match body {
        Body::Change { key, .. } => {
            may_hold(node, *key) && (node.find(*key).is_some() || node.count() < ROOM)
        }
        Body::PutBack { key, .. } => may_hold(node, *key) && has_key(node, *key),
        Body::Split {
            left,
            right,
            separator,
            ..
        } => {
            if page == left.page {
                is_inside(node, *separator)
            } else {
                page == right.page || is_inside(node, *separator) && node.count() < ROOM
            }
        }
        Body::Join {
            left,
            right,
            separator,
            high,
            ..
        } => {
            if page == left.page {
                can_extend(node, words, *high)
            } else {
                page == right.page || node.is_live() && has_key(node, *separator)
            }
        }
        Body::Lift { .. } => page != 0 || node.covers(0),
        Body::DropRoot { .. } => {
            page != 0 || node.is_live() && is_ordered(node.low(), node.high(), words)
        }
        Body::Purge { keys, .. } => {
            node.is_live() && node.level() == 0 && has_each(node, counted(keys))
        }
        Body::Commit { .. } | Body::Abort { .. } => true,
    }
}

// A leaf with the key within its fences.
fn may_hold(node: &Node, key: u64) -> bool
    ensures { result ≡ (node.now.node.live && ((node.now.node.level == 0) && asked.within key node.now.node)) }
{
    node.level() == 0 && node.covers(key)
}

fn has_key(node: &Node, key: u64) -> bool
    ensures { result ≡ asked.has_key key node.now.node }
{
    node.find(key).is_some()
}

fn has_each(node: &Node, keys: &[u64]) -> bool
    ensures { result ≡ asked.all_keys (λ k. asked.has_key k node.now.node) keys.now }
{
    for i in 0..keys.len() {
        if !has_key(node, keys[i]) {
            return false;
        }
    }
    true
}

// A node with the key between its fences, and on neither.
fn is_inside(node: &Node, key: u64) -> bool
    ensures { result ≡ (node.now.node.live && asked.inside key node.now.node) }
{
    node.is_live() && node.low() < key && key < node.high()
}

// A node with room for these pairs behind its own, in order under this high fence.
fn can_extend(node: &Node, words: &[u64], high: u64) -> bool
    requires whole { length words.now % 2 ≡ 0 }
    ensures { result ≡ (node.now.node.live && (leb (2 * length node.now.node.pairs + length words.now) 120 && asked.is_ordered node.now.node.low (node.now.node.pairs ++ pairs_of words.now) high)) }
{
    node.is_live() && 2 * node.count() + words.len() <= 2 * ROOM && follow(node, words, high)
}

// The pairs may stand behind the node's own, under this high fence.
fn follow(node: &Node, words: &[u64], high: u64) -> bool
    requires { length words.now % 2 ≡ 0 }
    ensures { result ≡ asked.is_ordered node.now.node.low (node.now.node.pairs ++ pairs_of words.now) high }
{
    node.can_append(words, high)
}

/// The keys of a purge.
pub(crate) fn counted(keys: &Keys) -> &[u64]
    requires { keys.now.count ≤ 60 }
    ensures { result.now ≡ model_keys keys.now }
{
    &keys.keys[..keys.count as usize]
}
