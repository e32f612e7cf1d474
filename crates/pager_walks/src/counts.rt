// What was seen in a walk.

/// How often each thing was seen: a cold page came, or one that cooled; a page left clean, or saved; the area was synced before a save;
/// the head of the queue could not go and one behind it did, or none could and one was cooled for it; no frame could be given, so a sync
/// was made; a page cooled that hung under that of the hand's frame; a free page came, and half of a full one went into it; a key lost
/// its value; commits were flushed; a crash was recovered.
#[derive(Clone, Copy, Debug)]
pub struct Counts {
    pub fills: u32,
    pub rescues: u32,
    pub clean: u32,
    pub saves: u32,
    pub settles: u32,
    pub passed: u32,
    pub chilled_for_one: u32,
    pub crowded: u32,
    pub deep: u32,
    pub splits: u32,
    pub dels: u32,
    pub flushes: u32,
    pub crashes: u32,
}

/// One more was seen.
pub fn see(count: &mut u32) {
    *count = count.saturating_add(1);
}

impl Counts {
    /// Nothing was seen yet.
    pub fn new() -> Counts {
        Counts {
            fills: 0,
            rescues: 0,
            clean: 0,
            saves: 0,
            settles: 0,
            passed: 0,
            chilled_for_one: 0,
            crowded: 0,
            deep: 0,
            splits: 0,
            dels: 0,
            flushes: 0,
            crashes: 0,
        }
    }

    /// Those that were seen in another walk too.
    pub fn add(&mut self, other: &Counts) {
        self.fills = self.fills.saturating_add(other.fills);
        self.rescues = self.rescues.saturating_add(other.rescues);
        self.clean = self.clean.saturating_add(other.clean);
        self.saves = self.saves.saturating_add(other.saves);
        self.settles = self.settles.saturating_add(other.settles);
        self.passed = self.passed.saturating_add(other.passed);
        self.chilled_for_one = self.chilled_for_one.saturating_add(other.chilled_for_one);
        self.crowded = self.crowded.saturating_add(other.crowded);
        self.deep = self.deep.saturating_add(other.deep);
        self.splits = self.splits.saturating_add(other.splits);
        self.dels = self.dels.saturating_add(other.dels);
        self.flushes = self.flushes.saturating_add(other.flushes);
        self.crashes = self.crashes.saturating_add(other.crashes);
    }

    /// Each was seen ten times.
    pub fn came_often(&self) -> bool {
        let all = [
            self.fills,
            self.rescues,
            self.clean,
            self.saves,
            self.settles,
            self.passed,
            self.chilled_for_one,
            self.crowded,
            self.deep,
            self.splits,
            self.dels,
            self.flushes,
            self.crashes,
        ];
        let mut least = u32::MAX;
        for count in all {
            least = least.min(count);
        }
        least >= 10
    }
}
