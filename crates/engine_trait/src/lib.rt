//! An engine of several sessions, as whoever executes a script on it sees it: what may be asked, when a call is refused, and what its events do to the tree
//! and to the logs.
//!
//! Nothing of its inside is named here, and nothing runs but the names of what is answered. Read specs/Limits, specs/Refusals, specs/Rooms, specs/Logs, specs/Areas, specs/Calls and specs/Serving.
#![tactic(auto)]

mod unserved;

pub use unserved::{Unanswered, Unserved};
