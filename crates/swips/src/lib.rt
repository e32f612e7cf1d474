//! The words by which frame rows name other pages: those of pairs, and the hint.
//! Read specs/Lib.antt.
#![tactic(auto)]

mod hint;
mod swip;

pub use hint::{MARK, NO_HINT};
pub use swip::{Swip, row_of};
