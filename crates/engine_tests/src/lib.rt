//! Tests of the tree in memory, of the log, of the masters, of the opening of a disk, and of the engine's calls.
#![tactic(auto)]

#[cfg(test)]
mod calls;
#[cfg(test)]
mod cases;
#[cfg(test)]
mod disks;
#[cfg(test)]
mod logs;
#[cfg(test)]
mod masters;
#[cfg(test)]
mod openings;
#[cfg(test)]
mod sessions;
#[cfg(test)]
mod stores;
#[cfg(test)]
mod trees;
