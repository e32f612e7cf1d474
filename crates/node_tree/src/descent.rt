// The way to a key's leaf.
ghost use Rattle.std.specs.Prelude.{◌≡◌, ◌<◌, ◌^◌, ◌-◌, suc, length, true};
ghost use Rattle.page_model.specs.Nodes.{holds};
ghost use Rattle.page_model.specs.Tree.{IsTree};
ghost use Rattle.disk_image.specs.Formats.{format_of};
ghost use Rattle.node_tree.specs.Nodes.{nodes_of};
ghost use Rattle.node_tree.specs.Inside.{IsOnWay};

use disk_image::Node;
use page_model::every_tree;

/// The page of the leaf that has the key within its fences.
pub fn leaf_of(pages: &[Node], key: u64) -> usize
    requires tree { IsTree (format_of (length pages.now)) (nodes_of pages.now) }
    requires key { key < 2 ^ 64 - 1 }
    ensures page { result < length pages.now }
    ensures leaf { holds (nodes_of pages.now result) key ≡ true }
{
    let mut page = 0;
    while level_of(pages, page) > 0 {
        page = child_of(pages, page, key);
    }
    page
}

/// Whether the page is a leaf that may hold the key.
pub fn is_leaf_with(pages: &[Node], page: usize, key: u64) -> bool
    ensures { result ≡ holds (nodes_of pages.now page) key }
{
    match pages.get(page) {
        Some(node) => node.level() == 0 && node.covers(key),
        None => false,
    }
}

fn level_of(pages: &[Node], page: usize) -> u8
    requires { page < length pages.now }
    ensures { result ≡ (nodes_of pages.now page).level }
{
    pages[page].level()
}

/// One step down.
fn child_of(pages: &[Node], page: usize, key: u64) -> usize
    requires tree { IsTree (format_of (length pages.now)) (nodes_of pages.now) }
    requires way { IsOnWay pages.now key page }
    requires inner { 0 < (nodes_of pages.now page).level }
    ensures way { IsOnWay pages.now key result }
    ensures level { suc (nodes_of pages.now result).level ≡ (nodes_of pages.now page).level }
{
    every_tree();
    let node = &pages[page];
    node.route(key) as usize
}
