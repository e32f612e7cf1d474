// What holds of sessions beside each other, and of the room in their logs.
ghost use Rattle.session_state.specs.Others.{EveryOther};
ghost use Rattle.session_state.specs.Reserves.{EveryReserve};
ghost use Rattle.session_state.specs.Syncs.{EveryCut, EveryFlush, EverySynced};

/// What a session has in memory lasts while a call of another session of the same rows goes on, but for the free pages, which are those
/// that the other has left.
pub fn every_other()
    ensures { EveryOther }
{}

/// Behind a sync each session whose log is flushed whole is as between two calls.
pub fn every_synced()
    ensures { EverySynced }
{}

/// Behind a cut of all logs each session is as between two calls.
pub fn every_cut()
    ensures { EveryCut }
{}

/// Which sessions may be flushed, so that what they have still to put back finds room.
pub fn every_flush()
    ensures { EveryFlush }
{}

/// The blocks that are kept back suffice for all that a call stages behind its test, and for all that its transaction puts back.
pub fn every_reserve()
    ensures { EveryReserve }
{}
