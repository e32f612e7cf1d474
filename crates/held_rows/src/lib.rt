//! Rows that are held, whatever others do meanwhile: a row is latched, the words of a page are loaded from it and stored in it, and it
//! is given up as it stood, or with an event that changes it.
//! Read specs/Lib.antt.
#![tactic(auto)]

mod latching;
mod publishing;
mod releasing;
mod words;

pub use latching::{Refusal, latch, latch_three, latch_two};
pub use publishing::{publish_one, publish_three, publish_two};
pub use releasing::{give_up_one, give_up_three, give_up_two};
pub use words::{load, set_word, store};
