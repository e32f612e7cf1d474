//! Where pages are, what is saved of them, and the epoch rule, over every list of events.
#![tactic(auto)]

ghost use Rattle.core_paging.specs.Paging.{EveryResidence, EverySaved, EpochRule, EveryWaiting, EveryRipe, EveryHot};
ghost use Rattle.core_paging.specs.Kept.{EveryKind};
ghost use Rattle.core_paging.specs.Logs.{EveryLastLog};
ghost use Rattle.core_paging.specs.Example.{WorkedExample};

// Passed on to the crates above.
pub use core_commit::{every_floor, every_holder, every_need, every_rise, every_undone};

/// A frame has one page and a page one frame; page 0 and the parent of each hot page are hot; the queue has each cooling
/// page once; a cold page is as it was saved.
pub fn every_residence()
    ensures { EveryResidence }
{}

/// The start has what is said of places, saved contents and waits, and each kind of event keeps it, from any state that has it: a
/// field for each kind.
pub fn every_kind()
    ensures { EveryKind }
{}

/// What is saved of a page the page has been, with a number that is flushed everywhere; it holds the page's changes up to
/// the greatest number of a cut; and a page that is not dirty is as it was saved.
pub fn every_saved()
    ensures { EverySaved }
{}

/// From a worker's enter to its leave, a frame that was reachable from page 0 at the enter or at any moment since keeps
/// its page.
pub fn epoch_rule()
    ensures { EpochRule }
{}

/// A worker for whom a cooling page waits is inside, with an epoch that is not above the page's, and no epoch is above the global one.
pub fn every_waiting()
    ensures { EveryWaiting }
{}

/// A cooling page waits for nobody where each worker inside entered at an epoch above the page's.
pub fn every_ripe()
    ensures { EveryRipe }
{}

/// Each hot node is reachable from page 0 by frame swips.
pub fn every_hot()
    ensures { EveryHot }
{}

/// Each page's last log, and that of its saved contents, is at most a number that is so of what opening gives and of the workers.
pub fn every_last_log()
    ensures { EveryLastLog }
{}

/// A run by hand in which each event's need is met: a leaf is lifted, split, evicted and loaded, the leaves are joined, the
/// root is dropped, and the log is cut.
pub fn worked_example()
    ensures { WorkedExample }
{}
