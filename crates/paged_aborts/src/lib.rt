//! The abort of the session whose turn it is, where pages need not be in memory: its changes are put back, the newest first, and where a page of a key's way is not hot, the pages of
//! that way are brought into frames.
//!
//! Read specs/Aborts, then `abort`.
#![tactic(auto)]

mod aborts;
mod backs;
mod laws;
mod leaves;

pub use aborts::abort;
