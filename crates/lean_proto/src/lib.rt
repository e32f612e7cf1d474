//! When an event may be published whatever others do meanwhile, and the stores and the publish of a write of an entry.
#![tactic(auto)]

pub mod change;
pub mod new;
pub mod over;
pub mod paging;
pub mod path;
pub mod resident;

ghost use Rattle.lean_proto.specs.Changes.{EveryChange};
ghost use Rattle.lean_proto.specs.Controls.{EveryBegin, EveryEpoch, EveryLoad, EveryTurn};
ghost use Rattle.lean_proto.specs.Kept.{EveryKept};
ghost use Rattle.lean_proto.specs.Paging.{EveryPaged};
ghost use Rattle.lean_proto.specs.Purges.{EveryPurge};
ghost use Rattle.lean_proto.specs.Ready.{EveryReady};
ghost use Rattle.lean_proto.specs.Still.{EveryStood};

// Passed on to the crates above.
pub use core_paging::{every_residence, every_rise, every_undone};
pub use version_latch::events::{Checks, Misses};
pub use version_latch::{
    Glimpse, Hold, LAST, Latched, Moved, Names, Node, Nothing, PlainRows, Rows, Trace, Unheld,
    every_low,
};

/// Who is ready to publish a steady event may publish it: its need is met at the state that the seat has seen, and its rows, all
/// held, have the words that it leaves there. Whatever others did meanwhile, the need is met still, and the words are right. Steady
/// are the lock and the unlock of a row, the change of a key and a change that is put back, the split of a page, the lift of the
/// root, the join of two pages, the drop of the root's one child, and the load, the cooling, the rescue, the save and the eviction of a
/// page.
pub fn every_ready()
    ensures { EveryReady }
{}

/// A purge of tombstones may be published by who is ready and holds the lock rows of its keys besides. Nobody else changes these rows
/// meanwhile, and what logs are flushed up to does not fall; so each key is settled still. Its need follows from the numbers that were
/// loaded of the logs, and from the words of the rows.
pub fn every_purge()
    ensures { EveryPurge }
{}

/// A worker that holds the lock of a key and the row of its leaf may publish the change of the key, or its newest change of it put
/// back, once the words of the changed page are stored in the row. Whatever others did meanwhile, the event makes of the page what the
/// words say.
pub fn every_change()
    ensures { EveryChange }
{}

/// Over a call in which a worker appends nothing, its own record and its locks stay, those that it holds alone and those that it holds
/// with others, whatever others do. So what a change needs can be shown before a descent and used after it.
pub fn every_kept()
    ensures { EveryKept }
{}

/// What a load of a flushed word answers is what its log is flushed up to at that moment, and at each later one no less, unless a sync
/// came. So a worker may load the words of all logs, one by one, and begin at the last load.
pub fn every_load()
    ensures { EveryLoad }
{}

/// A worker that is closed may begin at the load of what a log is flushed up to, with a floor up to which each log is flushed then. The
/// need is met at that moment, and behind it the worker's record is that of one that began, whatever others do.
pub fn every_begin()
    ensures { EveryBegin }
{}

/// A worker may store the number of its end, and up to which number its log is flushed, where the need of the end or of the flush is met
/// at the state that its seat has seen. Whatever others did meanwhile, the need is met still, and the event makes of the word that number.
pub fn every_turn()
    ensures { EveryTurn }
{}

/// The pager may add one to the global epoch; a worker may enter with an epoch that it has loaded, and leave. Whatever others did
/// meanwhile, the need is met when the word is stored. A word that is loaded of a worker tells that no page waits for it which cools since
/// an epoch before that.
pub fn every_epoch()
    ensures { EveryEpoch }
{}

/// While the pager appends nothing, the queue, the global epoch and where pages stand are as they were, and so are a page that is not hot
/// and what is saved of any; and no page waits for a worker anew.
pub fn every_stood()
    ensures { EveryStood }
{}

/// Over a call that brings a page into a frame, a worker's transaction, its changes and its locks stay, and its clock never falls; where
/// nobody else steps no page changes. So a worker that has descended to a page that was not hot may descend again.
pub fn every_paged()
    ensures { EveryPaged }
{}
