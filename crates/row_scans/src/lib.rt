//! What a scan does in one leaf, on rows of words where one thread executes: the rows of the entries that it meets are taken, shared, one after
//! another, tombstones' too; then the walk to the next pair is made, or to the leaf's end.
//!
//! Read specs/Meets, then `meet`.
#![tactic(auto)]

mod keys;
mod looks;
mod meets;

pub use meets::{Met, Unmet, meet};
