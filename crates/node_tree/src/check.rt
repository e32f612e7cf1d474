// The check of the tree's rule: one pass marks the pages that are named, the next tests page by page.
ghost use Rattle.std.specs.Prelude.{◌≡◌, ◌<◌, length, IfOk};
ghost use Rattle.page_model.specs.Needs.{key_at};
ghost use Rattle.page_model.specs.Page.{word_at};
ghost use Rattle.page_model.specs.Pairs.{spans};
ghost use Rattle.page_model.specs.Check as model;
ghost use Rattle.disk_image.specs.Formats.{format_of};
ghost use Rattle.node_tree.specs.Nodes.{nodes_of};
ghost use Rattle.node_tree.specs.Inside.{IsNamedBelow, stands_below, fence_behind};

use crate::form::is_formed;
use crate::marks::named_pages;
use disk_image::Node;
use std::alloc::{AllocError, Global};

/// The least page that breaks the rule of the tree.
pub fn first_break(alloc: Global, pages: &[Node]) -> Result<Option<usize>, AllocError>
    ensures { IfOk result (λ page. page ≡ model.first_break (format_of (length pages.now)) (nodes_of pages.now)) }
{
    let named = named_pages(alloc, pages)?;
    Ok(first_bad(pages, &named))
}

fn first_bad(pages: &[Node], named: &[bool]) -> Option<usize>
    requires { IsNamedBelow pages.now (length pages.now) named.now }
    ensures { result ≡ model.first_break (format_of (length pages.now)) (nodes_of pages.now) }
{
    let mut first: Option<usize> = None;
    for page in 0..pages.len() {
        if first.is_none() && !is_page(pages, named, page) {
            first = Some(page);
        }
    }
    first
}

// The page keeps the rule.
fn is_page(pages: &[Node], named: &[bool], page: usize) -> bool
    requires marks { IsNamedBelow pages.now (length pages.now) named.now }
    requires within { page < length pages.now }
    ensures { result ≡ model.page_ok (format_of (length pages.now)) (nodes_of pages.now) page }
{
    let node = &pages[page];
    is_formed(pages.len(), node)
        && is_root(pages.len(), node, page)
        && has_children(pages, node)
        && is_named(pages, named, page)
}

fn is_root(pages: usize, node: &Node, page: usize) -> bool
    ensures { result ≡ model.is_root (format_of pages) node.now.node page }
{
    page != 0 || (node.is_live() && node.low() == 0 && node.high() == u64::MAX)
}

// Each child is one level below, between the fences that its pair gives it.
fn has_children(pages: &[Node], node: &Node) -> bool
    ensures { result ≡ model.has_children (nodes_of pages.now) node.now.node }
{
    !node.is_live() || node.level() == 0 || are_children(pages, node)
}

fn are_children(pages: &[Node], node: &Node) -> bool
    ensures { result ≡ model.all (λ s. model.is_child node.now.node (nodes_of pages.now s.child) s) (spans node.now.node.pairs node.now.node.high) }
{
    for i in 0..node.count() {
        if !is_child(pages, node, i) {
            return false;
        }
    }
    true
}

fn is_child(pages: &[Node], node: &Node, i: usize) -> bool
    requires { i < length node.now.node.pairs }
    ensures { result ≡ stands_below (nodes_of pages.now (word_at i node.now.node.pairs)) node.now.node.level (key_at i node.now.node.pairs) (fence_behind i node.now.node.pairs node.now.node.high) }
{
    match pages.get(node.word_at(i) as usize) {
        Some(child) => stands_below(child, node.level(), node.key_at(i), fence_behind(node, i)),
        None => false,
    }
}

fn stands_below(child: &Node, level: u8, low: u64, high: u64) -> bool
    ensures { result ≡ stands_below child.now.node level low high }
{
    child.is_live() && child.level() + 1 == level && child.low() == low && child.high() == high
}

fn fence_behind(node: &Node, i: usize) -> u64
    requires { i < length node.now.node.pairs }
    ensures { result ≡ fence_behind i node.now.node.pairs node.now.node.high }
{
    let count = node.count();
    if i + 1 < count {
        node.key_at(i + 1)
    } else {
        node.high()
    }
}

// Some page names it, if it is a node and not the root.
fn is_named(pages: &[Node], named: &[bool], page: usize) -> bool
    requires marks { IsNamedBelow pages.now (length pages.now) named.now }
    requires within { page < length pages.now }
    ensures { result ≡ model.is_named (format_of (length pages.now)) (nodes_of pages.now) page }
{
    page == 0 || !pages[page].is_live() || named[page]
}
