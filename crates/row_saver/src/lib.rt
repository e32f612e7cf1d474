//! Rows, with what a pager has of them in memory, as a saver of checkpoints: the dirty page of a frame is found, hot or cooling, and
//! is saved where it stands. Read specs/Savers, then `RowSaver`; specs/Laws says what it is to a pager.
#![tactic(auto)]

mod laws;
mod looking;
mod saver;
mod saving;

pub use laws::{every_ready, every_saved};
pub use saver::RowSaver;
