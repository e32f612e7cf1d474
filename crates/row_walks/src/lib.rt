//! The tidying of a del, on rows of words where one thread executes, step by step: before the key is changed, each step makes one change of the tree by
//! which space comes back, the next one by the state.
//!
//! Read specs/Stages and specs/Steps; then `tidy_step`. `del_at_once` is for a leaf where there is nothing to tidy.
#![tactic(auto)]

mod at_once;
mod leaves;
mod levels;
mod nexts;
mod steps;
mod ways;

pub use at_once::{AtOnce, del_at_once};
pub use steps::{At, Tidied, tidy_step};
