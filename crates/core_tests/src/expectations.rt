// What is written by hand of a list: the answers of its events, and what comes of them and of its crashes.
use crate::openings::Opening;
use crate::steps::Step;

/// A list of events by name. An event stands with whether its need is met. Then: the ends that are entered, the first one
/// first; the map of the leaves and that of the committed transactions; how many crashes there are; and some crashes.
pub struct List {
    pub name: &'static str,
    pub opening: Opening,
    pub steps: &'static [(Step, bool)],
    pub ends: &'static [End],
    pub leaves: &'static [(u64, u64)],
    pub committed: &'static [(u64, u64)],
    pub crashes: usize,
    pub told: &'static [Crash],
}

/// An end record: its log, its transaction there, its number, and what it needs.
#[derive(Drop)]
pub struct End(pub u64, pub u64, pub u64, pub u64);

/// A crash by how many records it leaves of each log, and by the number of the contents that it leaves of each page. Then:
/// how far the logs reach, the kept transactions by worker and number, the first one first, and the map.
pub struct Crash {
    pub logs: &'static [usize],
    pub pages: &'static [u64],
    pub reach: u64,
    pub kept: &'static [(u64, u64)],
    pub map: &'static [(u64, u64)],
}

/// The first that is not as it is written, or breaks a rule, and the place, the number or the count that it has.
#[derive(Drop)]
pub struct Findings {
    pub first: &'static str,
    pub number: usize,
}

impl Findings {
    /// There is one, unless it is as is said.
    pub fn unless(&mut self, holds: bool, fault: &'static str, number: usize) {
        if !holds && self.first.is_empty() {
            self.first = fault;
            self.number = number;
        }
    }
}
