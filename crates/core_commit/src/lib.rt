//! Laws of records, locks and debts, over every list of events.
//!
//! specs/Past and specs/Invariants have the invariants that every event keeps; the laws above it, on pages in frames, on
//! answers and on crashes, stand on them.
#![tactic(auto)]

ghost use Rattle.core_commit.specs.Debts.{EveryNeed, EveryDebt};
ghost use Rattle.core_commit.specs.Kinds.{EveryKind};
ghost use Rattle.core_commit.specs.Known.{EveryKnown};
ghost use Rattle.core_commit.specs.Rises.{EveryRise};
ghost use Rattle.core_commit.specs.Floors.{EveryFloor};
ghost use Rattle.core_commit.specs.Holders.{EveryHolder};

// Passed on to the crates above.
pub use core_state::every_undone;

/// An end needs the greatest number of another log that its worker ever touched, was remote then, and is above what the
/// worker found flushed everywhere; and nothing where there is none.
pub fn every_need()
    ensures { EveryNeed }
{}

/// Of each record of its own a worker knows what was written on the same page before, and of each row that it holds the
/// ends of those who wrote there: it stands in the worker's own log, or the worker's debt or all logs are as far.
pub fn every_debt()
    ensures { EveryDebt }
{}

/// The start has the invariants, and each kind of event keeps them, from any state that has them: a field for each kind.
pub fn every_kind()
    ensures { EveryKind }
{}

/// In a state that has the invariants each worker knows what was written on the pages of its records before, the ends of those
/// who wrote in its rows, and, from then on, each stamp that it touches; and within a log numbers rise.
pub fn every_known()
    ensures { EveryKnown }
{}

/// Flushed numbers, clocks, last ends, heads, floors and epochs never fall.
pub fn every_rise()
    ensures { EveryRise }
{}

/// Each log is flushed up to each worker's floor, which is what the worker found flushed everywhere when its last transaction
/// began; and floors never fall.
pub fn every_floor()
    ensures { EveryFloor }
{}

/// Whoever holds a lock row, alone or with others, is one of the workers; a row that is held alone has no readers.
pub fn every_holder()
    ensures { EveryHolder }
{}
