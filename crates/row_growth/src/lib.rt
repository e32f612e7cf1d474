//! Room for a key whose leaf is full, on rows of words where one thread executes, and what a put is made of with it: a try, and where the leaf
//! has no room, one change of the tree, into a free page that was brought into a frame.
//!
//! Each step says which event it was, by its answer, and keeps what session_state's `Holds` says. Read specs/Rooms, then Outcomes.
#![tactic(auto)]

mod room;
mod steps;

pub use room::{Growth, Placed, make_room};
pub use steps::{Stepped, put_step};

// Passed on to the crates above.
pub use row_changes::{
    CLOCK_END, Cold, Path, Rows, Stages, Tried, Unmade, Unserved, Work, clock_refusal, del_held,
    every_room, put_in_leaf, read_held, take_row, unserved_of,
};
