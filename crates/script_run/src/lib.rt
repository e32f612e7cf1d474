//! The lines of a script, executed one by one on an engine, and what is printed of them.
#![tactic(auto)]

mod laws;
mod lines;
mod replies;
mod run;
mod stop;

pub use engine_front::Front;
pub use laws::every_script;
pub use lines::LINES;
pub use run::{all_events, execute_line, no_events, run_script};
pub use stop::Stop;
