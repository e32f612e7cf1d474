// What holds of accounts and of the runs that crashes leave.
ghost use Rattle.worker_log.specs.Laws.{EveryCut, EveryFlushed, EveryPassed, EveryPrefix, EveryKept, EveryRun, EveryStaged};

/// What a crash leaves between two calls.
pub fn every_kept()
    ensures { EveryKept }
{}

/// Blocks that were spelled have the records that were put into them.
pub fn every_run()
    ensures { EveryRun }
{}

/// The run that a crash leaves has a prefix of the account's records, with all that are flushed.
pub fn every_prefix()
    ensures { EveryPrefix }
{}

/// The account after a record is staged.
pub fn every_staged()
    ensures { EveryStaged }
{}

/// A flush leaves the records of an account.
pub fn every_flushed()
    ensures { EveryFlushed }
{}

/// What stands where the head has passed blocks that are synced.
pub fn every_cut()
    ensures { EveryCut }
{}

/// What blocks a head may pass up to a number that is flushed.
pub fn every_passed()
    ensures { EveryPassed }
{}
