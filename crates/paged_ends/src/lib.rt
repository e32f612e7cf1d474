//! How transactions begin and end, and the sync of all logs, where pages need not be in memory: calls of the session whose turn it is, which look at no page.
//!
//! Read specs/Ends, then `begin`, `commit` and `sync`.
#![tactic(auto)]

mod begins;
mod commits;
mod laws;
mod syncs;

pub use begins::begin;
pub use commits::commit;
pub use syncs::sync;
