//! How many syncs the pages that find no frame can ask for: laws over the events of a call.
//!
//! Read specs/Syncs.
#![tactic(auto)]

ghost use Rattle.sync_counts.specs.Syncs.{EverySyncCount, EveryTight};

/// Where a page finds no frame, all frames but one a level have pages above what is flushed everywhere.
pub fn every_tight()
    ensures { EveryTight }
{
    core_paging::every_residence();
}

/// Each sync that such a page asks for takes so many pages, so there are few of them: at most three in an abort.
pub fn every_sync_count()
    ensures { EverySyncCount }
{
    every_tight();
    core_covers::every_high();
    core_covers::every_sync();
}
