//! Where logs may be cut: what the covers of shards know, the first record of each open transaction, and the number of a cut. And that behind a sync each
//! page may be saved.
//!
//! Read specs/Changes, then Covers, Firsts, Cuts and Lows.
#![tactic(auto)]

ghost use Rattle.core_covers.specs.Changes.{EveryChange};
ghost use Rattle.core_covers.specs.Covers.{EveryBaseCover, EveryCover, EveryIncrement};
ghost use Rattle.core_covers.specs.Cuts.{EveryCutMet, EveryCutNumber};
ghost use Rattle.core_covers.specs.Firsts.{EveryFirst, EveryFirstStep};
ghost use Rattle.core_covers.specs.Highs.{EveryHigh};
ghost use Rattle.core_covers.specs.Lows.{EveryLow, EverySync};

/// Which contents of a page have its changes up to a number, and that they have them from then on.
pub fn every_change()
    ensures { EveryChange }
{
    core_paging::every_residence();
    core_paging::every_rise();
}

/// Covers last, and rise where a shard was saved and the pages were synced.
pub fn every_cover()
    ensures { EveryCover }
{
    every_change();
    core_paging::every_rise();
}

/// Where a run begins, each cover is the base number.
pub fn every_base_cover()
    ensures { EveryBaseCover }
{}

/// Saves of the dirty pages of a shard save the shard.
pub fn every_increment()
    ensures { EveryIncrement }
{
    every_change();
}

/// The first record of a session's open transaction is the least, and there is none at a begin and behind an end.
pub fn every_first()
    ensures { EveryFirst }
{}

/// From one state to the next it stays, or comes with the first record.
pub fn every_first_step()
    ensures { EveryFirstStep }
{}

/// A cut's need is met by what covers know.
pub fn every_cut_met()
    ensures { EveryCutMet }
{
    every_change();
}

/// Behind a sync the number of a cut is the least of covers, what is flushed, and one less than the first record of each open transaction.
pub fn every_cut_number()
    ensures { EveryCutNumber }
{
    every_first();
}

/// Where no clock is above the least flushed number, no page's number is.
pub fn every_low()
    ensures { EveryLow }
{}

/// A sync leaves it so, events that raise no clock keep it, and each page in a frame may be saved then.
pub fn every_sync()
    ensures { EverySync }
{
    every_low();
    core_paging::every_rise();
}

/// No page is above what is flushed everywhere behind a sync, and no more come than are written in.
pub fn every_high()
    ensures { EveryHigh }
{
    every_low();
    core_paging::every_rise();
}
