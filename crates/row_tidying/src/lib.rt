//! How space comes back on rows of words where one thread executes: the purge of a leaf's tombstones that nobody can need, the join of two
//! neighbours, and the drop of the root's one child, each as one event of a session.
//!
//! Each piece says which event it was, by its answer, and what session_state's `Holds` says behind it. Read specs/Changes, then Outcomes.
#![tactic(auto)]

mod drops;
mod ends;
mod floors;
mod joins;
mod purges;

pub use drops::drop_child;
pub use joins::join_pages;
pub use purges::{Cleared, purge_leaf};

// Passed on to the crates above.
pub use row_ends::{Ended, call_refusal};
pub use tidy_rules::{every_purged, every_tidy};
