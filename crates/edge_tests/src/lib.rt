//! Tests of disks in memory, of sources and sinks, and of the lines of a script.
#![tactic(auto)]

#[cfg(test)]
mod cases;
#[cfg(test)]
mod disks;
#[cfg(test)]
mod edges;
#[cfg(test)]
mod lines;
