//! Sessions of several workers on one thread over plain rows: what tests and measurements of rows call.
//!
//! A session begins, locks keys, puts, walks to the next pair, ends and gives up its locks; a find is the main actor's. Each call keeps `Stands`, from which
//! the premises of all that it calls are proved.
#![tactic(auto)]

mod drawing;
mod events;
pub mod locking;
pub mod opening;
pub mod pages;
pub mod puts;
pub mod session;
pub mod sessions;
pub mod structure;
pub mod transaction;
pub mod walks;
