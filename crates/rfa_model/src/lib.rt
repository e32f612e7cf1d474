//! Stamps, what a worker owes to the logs of others, and how far all logs reach.
#![tactic(auto)]

ghost use Rattle.rfa_model.specs.Reaches.{EveryReach};
ghost use Rattle.rfa_model.specs.Knows.{EveryKnown};
ghost use Rattle.rfa_model.specs.Runs.{EveryNeed};

/// The least is at most each and is one of them; the reach is no less than what all logs are flushed to.
pub fn every_reach()
    ensures { EveryReach }
{}

/// Who touches a stamp knows its record, and what is known stays known: at touches, begins, flushes and at the end.
pub fn every_known()
    ensures { EveryKnown }
{}

/// An end needs the greatest number that its worker ever touched as remote and that it did not find flushed everywhere.
pub fn every_need()
    ensures { EveryNeed }
{}
