//! Disks of several areas, by what a read gives and what a crash may leave.
#![tactic(auto)]

mod area_log;
mod area_of;
mod bytes;
mod crash;
mod disk;
mod laws;
mod mem_disk;
mod mem_part;
mod order;
mod slot;
mod slots;

pub use area_log::{AreaLog, Call, What};
pub use area_of::AreaOf;
pub use crash::Choice;
pub use disk::{Did, Disk, Part, Read};
pub use laws::{every_area, every_moment};
pub use mem_disk::MemDisk;
pub use mem_part::MemPart;
pub use slot::{Refused, Slot};
