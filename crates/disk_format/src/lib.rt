//! A new disk: what `format` writes, and what such a disk stands for.
#![tactic(auto)]

ghost use Rattle.disk_format.specs.Laws.{EveryNewDisk};

mod new_disk;
mod parts;
mod shape;

pub use new_disk::{Formatted, format};
pub use shape::Shape;

/// A disk as `format` leaves it is clean, and stands for the empty map.
pub fn every_new_disk()
    ensures { EveryNewDisk }
{}
