//! Room for the key of a put, on rows of words where one thread executes: the tombstones of the full leaf that nobody can need go first; where there is
//! none, the tree takes a free page. And one step of a put that is made of it.
//!
//! Read specs/Rooms, one change of the tree, and then specs/Outcomes, one step of a put.
#![tactic(auto)]

mod spaces;
mod steps;

pub use row_growth::{Growth, Placed};
pub use spaces::make_space;
pub use steps::{Stepped, put_step};

// Passed on to the crates above.
pub use row_growth::{
    CLOCK_END, Cold, Unmade, clock_refusal, del_held, read_held, take_row, unserved_of,
};
pub use row_tidying::{Ended, call_refusal};
