//! Sessions that take turns on rows of words and a disk, where one thread executes: one has the turn, the others wait at desks; and the sync of
//! all logs.
//!
//! Read specs/Desks and specs/Machines, then `Machine`, `turn_to` and `sync_all`.
#![tactic(auto)]

mod desk;
mod grounds;
mod machine;
mod syncs;

pub use desk::Desk;
pub use grounds::laws;
pub use machine::Machine;
