//! What memory keeps of the pages that are in no frame, and whether a page that was loaded is as it was kept.
#![tactic(auto)]

mod changes;
mod compare;
mod kept;
mod pages;

ghost use Rattle.cold_pages.specs.Laws.{EveryKept, EveryNew};

pub use kept::Kept;
pub use pages::ColdPages;

/// In a tree, where the table is right, a page that is as it was kept is what left, but for the entries of a leaf; what left passes; and the
/// table stays right as pages leave and come.
pub fn every_kept()
    ensures { EveryKept }
{}

/// Of no page anything is kept, where none is cold.
pub fn every_new()
    ensures { EveryNew }
{}
