//! A cut of all logs as an event of rows: it is appended, and no word of rows is another one. Read specs/Cuts.
#![tactic(auto)]

mod cuts;

pub use cuts::{WhichCut, note_cut};
