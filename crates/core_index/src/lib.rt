//! The calls of all sessions are a legal history of one map, which the pages hold.
//!
//! Read specs/Answers: the history of a list of events, and the map of a state; specs/Calls: one event's call; specs/Undo: what
//! is still to put back; specs/Walks: which entries a walk meets.
#![tactic(auto)]

ghost use Rattle.core_index.specs.Answers.{EveryLegal, EveryMap, EveryTree};
ghost use Rattle.core_index.specs.Calls.{EveryCall};
ghost use Rattle.core_index.specs.Undo.{EveryUndo};
ghost use Rattle.core_index.specs.Walks.{EveryWalk};

/// Where the opening is faithful, reads, walks, peeks, changes and put-backs, in the order in which they happened, are answered as
/// one map does.
pub fn every_legal()
    ensures { EveryLegal }
{}

/// Where the opening is faithful, each event's call, from any state that has the invariants, is answered by the map that the pages
/// hold then, and leaves that map with what it writes; every other event leaves it.
pub fn every_call()
    ensures { EveryCall }
{}

/// The pages hold a map, the union of all leaf pairs without tombstones; where the opening is faithful, the one after the calls.
pub fn every_map()
    ensures { EveryMap }
{}

/// The pages are a tree, each well formed.
pub fn every_tree()
    ensures { EveryTree }
{}

/// Of what a worker has still to put back it holds each key's row alone; where the opening is faithful, the key has an entry in
/// its leaf.
pub fn every_undo()
    ensures { EveryUndo }
{}

/// A walk from a key on meets each entry of its leaf from there on, up to the pair that follows, and no other.
pub fn every_walk()
    ensures { EveryWalk }
{}
