//! The pages of a disk in memory, as a tree: whether they are one, and the way to a key's leaf.
#![tactic(auto)]

mod check;
mod descent;
mod form;
mod marks;

pub use check::first_break;
pub use descent::{is_leaf_with, leaf_of};
