//! The pages of a disk in the words of a run of the core: what is known of each page's slots, a page saved, all saves synced, a page
//! loaded.
//!
//! Read specs/Slots, then specs/Calls; specs/Mirrors says by the bytes alone, with no run, what the slots hold.
#![tactic(auto)]

ghost use Rattle.page_calls.specs.Calls.{EveryHeld, EveryOn};
ghost use Rattle.page_calls.specs.Mirrors.{EveryMirrored, EveryStart};

mod calls;
mod slots;

pub use calls::{load, save, settle};
use lean_disk::{Disk, Part};
pub use slots::{Slot, Slots};

/// What is known of the slots where a run begins.
pub fn every_on<D: Disk>(now: &D)
    ensures { EveryOn (D.story now.now) }
{}

/// Where a run stands, the slot of a page that was written last holds the page as it is saved.
pub fn every_held<P: Part>(now: &P)
    ensures { EveryHeld (P.story now.now) }
{}

/// Where a run stands, the slots that were written last hold what is saved, and are within the area.
pub fn every_mirrored<P: Part>(now: &P)
    ensures { EveryMirrored (P.story now.now) }
{
    disk_runs::every_whole();
}

/// Slots that are made of the numbers of the firm ones hold what these do.
pub fn every_start<P: Part>(now: &P)
    ensures { EveryStart (P.story now.now) }
{}
