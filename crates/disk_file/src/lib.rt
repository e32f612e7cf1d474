//! A disk of files.
#![tactic(auto)]

mod area_file;
mod area_files;
mod faults;
mod file_disk;
mod file_part;

pub use file_disk::FileDisk;
pub use file_part::FilePart;
