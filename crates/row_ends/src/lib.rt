//! How the transaction of a session begins and ends, on rows of words and a disk, where one thread executes: what a begin, a commit, and an abort
//! behind its put-backs do behind their tests.
//!
//! Read specs/Begins and specs/Outcomes, then `begin_tested`, `commit_tested` and `end_abort`.
#![tactic(auto)]

mod aborts;
mod begins;
mod commits;
mod ending;
mod latching;
mod tests;

pub use aborts::end_abort;
pub use begins::{begin_tested, least_flushed};
pub use commits::commit_tested;
pub use ending::Ended;
pub use tests::{abort_refusal, begin_refusal, call_refusal, log_refusal};
