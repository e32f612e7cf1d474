//! Changes of the tree's structure over frame rows, each as one event: the lift of the root and the drop of its one child,
//! the split of a page and the join of two, and the purge of a leaf's tombstones.
//!
//! The rows of all pages that a change touches are latched first. Each page is then taken from its held row as a `Node`, with the swips
//! that stand there, and changed as a `Node`; the record of the change is staged; and only then the nodes' words are stored and the event
//! is published. A change that refuses gives up its rows as they stood.
#![tactic(auto)]

pub mod drop_root;
mod events;
mod gather;
mod gathered;
mod held;
mod image;
pub mod join;
mod latch;
mod leading;
pub mod lift;
pub mod outcome;
pub mod purge;
mod quiet;
mod record;
mod release;
pub mod room;
pub mod split;
