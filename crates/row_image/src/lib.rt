//! From a frame row back to the page that stands there, as it is written to the disk: swips become the numbers of pages again.
//!
//! The row is not latched. Its words are loaded, each frame that they name is looked at for the number of the page there, and then
//! the row's own version is checked: so it has been still meanwhile, and a child that it names hot at the end was hot in that frame
//! when the frame was looked at.
#![tactic(auto)]

pub mod children;
pub mod frame;
mod look;
pub mod page;
pub mod refusal;
pub mod sight;

ghost use Rattle.row_image.specs.Images.{EveryStay};
ghost use Rattle.row_image.specs.Sights.{EverySight, EveryPair};

/// A page that stands in a row stays there, whatever others do, where the seat is the pager's: it alone moves pages. Where nobody else
/// steps it stays there by itself.
pub fn every_stay()
    ensures { EveryStay }
{}

/// What is known of a row stays known whatever the seat does, and a row that has the words of a sight has its page.
pub fn every_sight()
    ensures { EverySight }
{}

/// How the pairs of a page that stands in a row name pages: by frames where these are hot.
pub fn every_pair()
    ensures { EveryPair }
{}
