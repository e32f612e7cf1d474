//! A workload from a number: the lines of transactions whose calls are drawn from a generator, one by one.
#![tactic(auto)]

ghost use Rattle.workload.specs.Laws.{EveryLength, EveryLine};

mod draws;
mod lines;
#[cfg(test)]
mod tests;

pub use lines::Workload;

/// There are ten lines for each transaction,
pub fn every_length()
    ensures { EveryLength }
{}

/// and each is the one of its number, and may stand in a script.
pub fn every_line()
    ensures { EveryLine }
{}
