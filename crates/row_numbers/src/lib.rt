//! That each number that a seat of rows meets, and the next one of its worker, fits its word: what was seen is tame.
#![tactic(auto)]

ghost use Rattle.row_numbers.specs.Views.{EveryBegun, EveryClock, EveryFit, EveryView};

/// Where rows begin, if what happened before is tame and no page's number is above the base.
pub fn every_begun()
    ensures { EveryBegun }
{}

/// Behind what a seat has seen.
pub fn every_view()
    ensures { EveryView }
{}

/// The next number of a worker that is open fits its word: that of an end, and that of a record of whatever page.
pub fn every_fit()
    ensures { EveryFit }
{}

/// The clock of each worker is at the base or below 2^62 and 66 for each worker.
pub fn every_clock()
    ensures { EveryClock }
{}
