//! A workload from a number, executed on an engine: its lines are asked by the engine's calls, and what they are answered is counted and not printed.
#![tactic(auto)]

mod plan;
mod quiet_sink;
mod run;
mod tallied;
mod tally;

pub use run::{Made, Ran, make_lines};
