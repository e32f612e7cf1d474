//! Receipts of commits, when they are ripe, and the ends that are not ripe yet.
#![tactic(auto)]

ghost use Rattle.group_commit.specs.Laws.{EveryRipe, EveryStart, EveryEnd, EveryOther, EveryOutcome, EveryTake};

mod queue;
mod receipts;
#[cfg(test)]
mod tests;
mod unripe;

pub use queue::{End, Queue, ROOM};
pub use receipts::{LOGS, Receipt, Ripeness, ripe};
pub use unripe::Unripe;

/// A receipt is durable exactly where the commit of which it tells is ripe; else it waits for a log that is behind.
pub fn every_ripe()
    ensures { EveryRipe }
{}

/// Where nothing has happened and no queue has an end, they have what the core has.
pub fn every_start()
    ensures { EveryStart }
{}

/// A commit or an abort is pushed as it happens.
pub fn every_end()
    ensures { EveryEnd }
{
    core_crash::every_rise();
}

/// Flushes, syncs and what else is no end change nothing of that.
pub fn every_other()
    ensures { EveryOther }
{
    core_crash::every_rise();
}

/// What is taken is the durable line that is due first; where nothing is taken none is due, and each queue has as many ends as wait.
pub fn every_take()
    ensures { EveryTake }
{}

/// Behind each outcome of a run the queues have what the core has, where its end, if it has one, is pushed.
pub fn every_outcome()
    ensures { EveryOutcome }
{
    core_crash::every_rise();
}
