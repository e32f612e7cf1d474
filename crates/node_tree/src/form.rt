// Whether a page keeps the rule of its own: its words, its fences, and that a free page holds nothing.
// A node's type promises the rest: its room, its level, and the order of the keys of a node with pairs.
ghost use Rattle.std.specs.Prelude.{◌≡◌, ◌<◌, ◌==◌, ◌||◌, ◌&&◌, not, length};
ghost use Rattle.page_model.specs.Page.{word_at};
ghost use Rattle.page_model.specs.Pairs as model_pairs;
ghost use Rattle.page_model.specs.Check as model;
ghost use Rattle.disk_image.specs.Formats.{format_of};
ghost use Rattle.node_tree.specs.Inside.{word_fits};

use disk_image::Node;

/// The word of a tombstone.
const TOMBSTONE: u64 = 1 << 63;

pub(crate) fn is_formed(pages: usize, node: &Node) -> bool
    ensures { result ≡ model.is_formed (format_of pages) node.now.node }
{
    if node.is_live() {
        is_node(pages, node)
    } else {
        is_free(node)
    }
}

fn is_free(node: &Node) -> bool
    ensures { result ≡ model.is_free node.now.node }
{
    !node.is_live() && node.level() == 0 && node.low() == 0 && node.high() == 0 && node.count() == 0
}

// Its words are asked for since their contract says what the type promises.
fn is_node(pages: usize, node: &Node) -> bool
    ensures { result ≡ model.is_node_ok (format_of pages) node.now.node }
{
    let _ = node.words();
    if !is_rising(node) {
        return false;
    }
    if !are_words(pages, node) {
        return false;
    }
    begins_at_low(node)
}

// Only a node without pairs may have crossed fences: the words promise the order of the others.
fn is_rising(node: &Node) -> bool
    ensures { result ≡ model.is_rising node.now.node.low node.now.node.pairs node.now.node.high }
{
    let _ = node.words();
    node.count() > 0 || node.low() <= node.high()
}

fn are_words(pages: usize, node: &Node) -> bool
    ensures { result ≡ model.all (model.word_ok (format_of pages) node.now.node) node.now.node.pairs }
{
    for i in 0..node.count() {
        if !is_word(pages, node, i) {
            return false;
        }
    }
    true
}

fn is_word(pages: usize, node: &Node, i: usize) -> bool
    requires { i < length node.now.node.pairs }
    ensures { result ≡ word_fits pages node.now.node.level (word_at i node.now.node.pairs) }
{
    let word = node.word_at(i);
    if node.level() == 0 {
        word <= TOMBSTONE
    } else {
        0 < word && word < pages as u64
    }
}

// An inner node has pairs, the first at its low fence.
fn begins_at_low(node: &Node) -> bool
    ensures { result ≡ ((node.now.node.level == 0) || (not (model.is_nil node.now.node.pairs) && (model_pairs.first_key node.now.node.pairs node.now.node.high == node.now.node.low))) }
{
    node.level() == 0 || (node.count() > 0 && node.key_at(0) == node.low())
}
