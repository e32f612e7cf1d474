// The pairs of pages, printed leaf by leaf.
ghost use Rattle.std.specs.Prelude.{◌≡◌, ◌<◌, ◌∷◌, [], length};
ghost use Rattle.map_model.specs.Maps.{value_end};
ghost use Rattle.page_model.specs.Needs.{key_at};
ghost use Rattle.page_model.specs.Page.{word_at};
ghost use Rattle.page_model.specs.Tree.{IsTree, value};
ghost use Rattle.buffered_engine.specs.disk_image.Formats.{format_of};
ghost use Rattle.node_tree.specs.Nodes.{nodes_of};
ghost use Rattle.pair_walk.specs.Listings.{live};
ghost use Rattle.lean_shell.specs.Dumps.{pair_lines};
ghost use Rattle.lean_shell.specs.Inside.Puts.{ArePut, PutsMap, PutsPairs};

use crate::lines::{put_end, put_pair};
use buffered_engine::{Node, Put, Sink};
use lean_disk::Disk;
use page_model::limits::TOMBSTONE;
use pair_walk::{every_listing, leaf_from};

// Puts the pair at a place of a leaf, if its word is a value.
fn put_live<K: Sink<D>, D: Disk>(leaf: &Node, at: usize, sink: &mut K, disk: &mut D) -> Put
    requires { at < length leaf.now.node.pairs }
    ensures put { ArePut (pair_lines (live value_end (record { key = key_at at leaf.now.node.pairs; word = word_at at leaf.now.node.pairs } ∷ []))) result (K.held sink.old) (K.held sink.new) (K.faults sink.old) (K.faults sink.new) (D.story disk.old) (D.story disk.new) }
    ensures faults { D.faults disk.new ≡ D.faults disk.old }
{
    let word = leaf.word_at(at);
    if word >= TOMBSTONE {
        return Put::Done;
    }
    put_pair(leaf.key_at(at), word, sink, disk)
}

// Puts the pairs of a leaf.
fn put_leaf<K: Sink<D>, D: Disk>(leaf: &Node, sink: &mut K, disk: &mut D) -> Put
    ensures put { ArePut (pair_lines (live value_end leaf.now.node.pairs)) result (K.held sink.old) (K.held sink.new) (K.faults sink.old) (K.faults sink.new) (D.story disk.old) (D.story disk.new) }
    ensures faults { D.faults disk.new ≡ D.faults disk.old }
{
    for at in 0..leaf.count() {
        let Put::Done = put_live(leaf, at, sink, disk) else {
            return Put::Failed;
        };
    }
    Put::Done
}

// Puts the pairs of all leaves.
fn put_leaves<K: Sink<D>, D: Disk>(pages: &[Node], sink: &mut K, disk: &mut D) -> Put
    requires { IsTree (format_of (length pages.now)) (nodes_of pages.now) }
    ensures put { PutsPairs (value (format_of (length pages.now)) (nodes_of pages.now)) result (K.held sink.old) (K.held sink.new) (K.faults sink.old) (K.faults sink.new) (D.story disk.old) (D.story disk.new) }
    ensures faults { D.faults disk.new ≡ D.faults disk.old }
{
    every_listing();
    let mut fence = 0;
    while fence < u64::MAX {
        let page = leaf_from(pages, fence);
        let leaf = &pages[page];
        let Put::Done = put_leaf(leaf, sink, disk) else {
            return Put::Failed;
        };
        fence = leaf.high();
    }
    Put::Done
}

/// Puts a line for each pair of a tree of pages, in the order of the keys, and `end`.
pub(crate) fn put_map<K: Sink<D>, D: Disk>(pages: &[Node], sink: &mut K, disk: &mut D) -> Put
    requires { IsTree (format_of (length pages.now)) (nodes_of pages.now) }
    ensures put { PutsMap (value (format_of (length pages.now)) (nodes_of pages.now)) result (K.held sink.old) (K.held sink.new) (K.faults sink.old) (K.faults sink.new) (D.story disk.old) (D.story disk.new) }
    ensures faults { D.faults disk.new ≡ D.faults disk.old }
{
    let Put::Done = put_leaves(pages, sink, disk) else {
        return Put::Failed;
    };
    put_end(sink, disk)
}
