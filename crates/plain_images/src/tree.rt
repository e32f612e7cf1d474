// Whether pages form a tree, page by page.
ghost use Rattle.std.specs.Prelude.{◌≡◌, ◌<◌, ◌≤◌, ◌^◌, ℕ, ◌&&◌, List, length, slice_get, Some};
ghost use Rattle.page_model.specs.Pairs as page_pairs;
ghost use Rattle.page_model.specs.Check as check;
ghost use Rattle.plain_images.specs.Pages.{node_of, node_or, pairs_of, nodes, format_of, span, word_fits, pair_of};
ghost use Rattle.plain_images.specs.declared.pages.Node.{Node};

use crate::pages::{DEAD, LEVELS, Node, Pair, ROOM};

/// The least page that breaks the rule of the tree.
pub fn first_break(pages: &[Node]) -> Option<usize>
    ensures { result ≡ check.first_break (format_of (length pages.now)) (nodes pages.now) }
{
    let mut first: Option<usize> = None;
    for page in 0..pages.len() {
        if first.is_none() && !is_page(pages, page) {
            first = Some(page);
        }
    }
    first
}

// The page keeps the rule.
fn is_page(pages: &[Node], page: usize) -> bool
    requires { page < length pages.now }
    ensures { result ≡ check.page_ok (format_of (length pages.now)) (nodes pages.now) page }
{
    match pages.get(page) {
        Some(node) => is_formed(pages.len(), node) && keeps_tree(pages, node, page),
        None => false,
    }
}

fn keeps_tree(pages: &[Node], node: &Node, page: usize) -> bool
    requires within { page < length pages.now }
    requires there { slice_get pages.now page ≡ Some node.now }
    ensures { result ≡ (check.is_root (format_of (length pages.now)) (node_of node.now) page && (check.has_children (nodes pages.now) (node_of node.now) && check.is_named (format_of (length pages.now)) (nodes pages.now) page)) }
{
    if !is_root(pages.len(), node, page) {
        return false;
    }
    if !has_children(pages, node) {
        return false;
    }
    is_named(pages, page)
}

fn is_formed(pages: usize, node: &Node) -> bool
    ensures { result ≡ check.is_formed (format_of pages) (node_of node.now) }
{
    if node.live {
        is_node(pages, node)
    } else {
        node.level == 0 && node.low == 0 && node.high == 0 && node.pairs.is_empty()
    }
}

fn is_node(pages: usize, node: &Node) -> bool
    ensures { result ≡ check.is_node_ok (format_of pages) (node_of node.now) }
{
    node.pairs.len() <= ROOM
        && node.level <= LEVELS
        && is_rising(u128::from(node.low), &node.pairs, node.high)
        && are_words(pages, node.level, &node.pairs)
        && (node.level == 0
            || (!node.pairs.is_empty() && first_key(&node.pairs, node.high) == node.low))
}

pub(crate) fn is_rising(low: u128, pairs: &[Pair], high: u64) -> bool
    ensures { result ≡ check.is_rising low (pairs_of pairs.now) high }
{
    let mut from = low;
    for pair in pairs {
        if u128::from(pair.key) < from {
            return false;
        }
        from = u128::from(pair.key) + 1;
    }
    from <= u128::from(high)
}

fn are_words(pages: usize, level: u64, pairs: &[Pair]) -> bool
    ensures { result ≡ check.all (word_fits pages level) (pairs_of pairs.now) }
{
    for pair in pairs {
        if !is_word(pages, level, *pair) {
            return false;
        }
    }
    true
}

fn is_word(pages: usize, level: u64, pair: Pair) -> bool
    ensures { result ≡ word_fits pages level (pair_of pair) }
{
    if level == 0 {
        pair.word <= DEAD
    } else {
        0 < pair.word && pair.word < pages as u64
    }
}

fn first_key(pairs: &[Pair], high: u64) -> u64
    ensures { result ≡ page_pairs.first_key (pairs_of pairs.now) high }
{
    match pairs.first() {
        Some(pair) => pair.key,
        None => high,
    }
}

fn is_root(pages: usize, node: &Node, page: usize) -> bool
    ensures { result ≡ check.is_root (format_of pages) (node_of node.now) page }
{
    page != 0 || (node.live && node.low == 0 && node.high == u64::MAX)
}

// Each child is one level below, between the fences that its pair gives it.
fn has_children(pages: &[Node], node: &Node) -> bool
    ensures { result ≡ check.has_children (nodes pages.now) (node_of node.now) }
{
    if !node.live || node.level == 0 {
        return true;
    }
    for place in 0..node.pairs.len() {
        let pair = node.pairs[place];
        if !is_child(
            pages,
            node.level,
            pair,
            first_key(&node.pairs[place + 1..], node.high),
        ) {
            return false;
        }
    }
    true
}

fn is_child(pages: &[Node], level: u64, pair: Pair, high: u64) -> bool
    ensures { (v : Node) → v.level ≡ level → result ≡ check.is_child (node_of v) (nodes pages.now pair.word) (span pair high) }
{
    match pages.get(pair.word as usize) {
        Some(child) => child.live
            && u128::from(child.level) + 1 == u128::from(level)
            && child.low == pair.key
            && child.high == high,
        None => false,
    }
}

// Some page names it, if it is a node and not the root.
fn is_named(pages: &[Node], page: usize) -> bool
    requires { page < length pages.now }
    ensures { result ≡ check.is_named (format_of (length pages.now)) (nodes pages.now) page }
{
    match pages.get(page) {
        Some(node) if node.live && page != 0 => is_child_of_some(pages, page),
        _ => true,
    }
}

fn is_child_of_some(pages: &[Node], page: usize) -> bool
    ensures { result ≡ check.some_below (length pages.now) (λ (q : ℕ). check.names_page (nodes pages.now q) page) }
{
    let mut named = false;
    for other in 0..pages.len() {
        named = page_names(pages, other, page) || named;
    }
    named
}

fn page_names(pages: &[Node], other: usize, page: usize) -> bool
    ensures { result ≡ check.names_page (nodes pages.now other) page }
{
    match pages.get(other) {
        Some(node) => names_page(node, page),
        None => false,
    }
}

fn names_page(node: &Node, page: usize) -> bool
    ensures { result ≡ check.names_page (node_of node.now) page }
{
    if !node.live || node.level == 0 {
        return false;
    }
    for pair in &node.pairs {
        if pair.word == page as u64 {
            return true;
        }
    }
    false
}
