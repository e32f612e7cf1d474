//! A disk of files in the current folder, on which an engine runs: the files of the system that runs the program.
#![tactic(auto)]

mod disk;
mod part;

pub use disk::HostDisk;
pub use part::HostPart;

// Passed on to the crates above.
pub use buffered_engine::{Closed, Engine, Formatted, Next, Opened, Shape, Size, Unopened, format};
