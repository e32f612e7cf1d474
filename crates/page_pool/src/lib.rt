//! What a pager knows in memory, in the words of the core: the queue of pages that cool, the frames in which no page
//! stands, and which pages are free and not hot. Read specs/Pools.antt.
#![tactic(auto)]

ghost use Rattle.page_pool.specs.Counts.{EveryFrame};
ghost use Rattle.page_pool.specs.Full.{EveryFull};
ghost use Rattle.page_pool.specs.Pools.{EveryPool, EveryStanding};
ghost use Rattle.page_pool.specs.Queues.{EveryQueue, EveryChill, EveryRescue, EveryTake, EveryPop};

/// Over each of the pager's events what it knows agrees on: a cooling page goes behind the others, one that is rescued
/// or evicted leaves the queue, a page that is loaded takes an empty frame.
pub fn every_pool()
    ensures { EveryPool }
{}

/// While the pager appends nothing all of that stays, whatever workers do.
pub fn every_standing()
    ensures { EveryStanding }
{}

/// What the queue tells: of each page that cools its frame and its epoch, and of no other page. It has fewer pages than
/// there are frames.
pub fn every_queue()
    ensures { EveryQueue }
{}

/// A page that is cooled may be chilled, and the queue behind that is the one behind the event.
pub fn every_chill()
    ensures { EveryChill }
{}

/// A page that is rescued is in the queue, with the frame in which it is hot then; the queue without it is the one
/// behind the event.
pub fn every_rescue()
    ensures { EveryRescue }
{}

/// A page that is evicted is in the queue, with the frame that is empty then; the queue without it is the one behind
/// the event.
pub fn every_take()
    ensures { EveryTake }
{}

/// The empty frames but for the last are those behind a load into the last.
pub fn every_pop()
    ensures { EveryPop }
{}

/// The empty frames, the pages that cool and the hot ones are together as many as there are frames.
pub fn every_frame()
    ensures { EveryFrame }
{}

/// Where a turn has found no page to cool and none of the queue can be evicted, each frame has a page of the way, or one
/// whose number is above what is flushed everywhere, or one that is held back by a worker.
pub fn every_full()
    ensures { EveryFull }
{}
