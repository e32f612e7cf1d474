//! Pages of fixed nodes, as 126 words: searched and changed in place.
//! A `Node` is seen as the page of page_model; specs/Words.antt says which words spell it.
#![tactic(auto)]

mod change;
mod fields;
mod fill;
mod search;
mod spelling;
mod structure;

ghost use Rattle.btree_node.specs.Redo.{EveryRedo};

pub use change::Put;
pub use spelling::are_ordered;
use std::marker::Model;

/// A page: a node of the tree, or a free page.
#[derive(Drop)]
pub struct Node {
    words: [u64; 126],
}

impl Model for Node {
    ghost use Rattle.page_model.specs.Page.{Page};
    ghost use Rattle.btree_node.specs.Words.{page_of, IsPage};

    ghost Value = { Page };

    ghost view = { λ n. page_of n.words };

    ghost invariant = { λ n. IsPage n.words };
}

/// What each record makes of its pages is what the calls make of them.
pub fn every_redo()
    ensures { EveryRedo }
{}
