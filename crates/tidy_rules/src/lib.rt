//! How space comes back: which tombstones nobody can need, and which purges, joins and drops of the root a put and a del make, by the state alone:
//! definitions and their laws.
#![tactic(auto)]

ghost use Rattle.tidy_rules.specs.Laws.{EveryFreed, EveryPurged, EveryTidy};
ghost use Rattle.tidy_rules.specs.Rows.{WorkedTidying};

/// A purge leaves the free pages as they are; a join and a drop free one page each.
pub fn every_freed()
    ensures { EveryFreed }
{}

/// Behind the purge of all that nobody can need of a leaf no such tombstone is left; if there was one, the leaf has room.
pub fn every_purged()
    ensures { EveryPurged }
{}

/// The state fixes a tidying, each event of it may happen, and it has one purge at most, a join for each level below the greatest one, and one drop.
pub fn every_tidy()
    ensures { EveryTidy }
{}

/// A del of a key whose leaf has sixteen tombstones, by hand: what it does, the numbers of its records, and what is free behind it.
pub fn worked_tidying()
    ensures { WorkedTidying }
{}
