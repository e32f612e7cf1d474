// What a crash leaves of the files by the plain rules.
use crate::rule_files::{Commit, Kind, Left, NEVER, Record, copy_of, is_before, set};
use crate::rule_trees::Tree;
use crate::rules::Rules;
use crate::runs::MEMORY;
use lean_disk::Choice;
use std::collections::BTreeMap;
use std::process::Abort;

/// A crash at a moment. What is not synced of an area is left by one choice, and by the other where the area's bit is set.
#[derive(Clone, Copy)]
pub(crate) struct Crash {
    pub moment: u64,
    pub one: Choice,
    pub other: Choice,
    pub mask: u32,
}

impl Crash {
    // Whether it leaves what was written to an area and synced at these moments.
    fn keeps(&self, area: u32, written: u64, synced: u64) -> bool {
        let bit = if area < 32 { self.mask >> area & 1 } else { 0 };
        let choice = if bit == 1 { self.other } else { self.one };
        synced <= self.moment || written <= self.moment && matches!(choice, Choice::AllBytes)
    }
}

// What a crash leaves: the greatest floor of a master, and up to where each log has all its records.
#[derive(Clone, Copy)]
struct Found {
    crash: Crash,
    floor: u64,
    reach: u64,
}

impl Rules {
    fn is_found(&self, crash: &Crash, record: &Record) -> bool {
        match self.blocks.get(record.block) {
            Some(block) => crash.keeps(
                record.session.saturating_add(1),
                block.written,
                block.synced,
            ),
            None => false,
        }
    }

    // The greatest number of a log that is found, or of all logs.
    fn greatest(&self, crash: &Crash, log: Option<u32>) -> u64 {
        let mut greatest = 0;
        for record in &self.records {
            let is_one = match log {
                Some(log) => record.session == log,
                None => true,
            };
            if is_one && self.is_found(crash, record) {
                greatest = record.number.max(greatest);
            }
        }
        greatest
    }

    // None, if the master of the opening does not count.
    fn found(&self, crash: &Crash) -> Option<Found> {
        let mut floor = None;
        for master in &self.masters {
            if crash.keeps(0, master.written, master.synced) {
                floor = Some(master.floor);
            }
        }
        let floor = floor?;
        let mut reach = NEVER;
        for session in 1..=self.count {
            let greatest = self.greatest(crash, Some(session));
            reach = reach.min(greatest.max(floor));
        }
        let crash = *crash;
        Some(Found {
            crash,
            floor,
            reach,
        })
    }

    // The end of a transaction, where it is found with what it needs.
    fn end_of(&self, found: &Found, session: u32, begun: u64) -> Option<Kind> {
        for record in &self.records {
            if record.session == session && record.begun == begun {
                let is_ended = match record.kind {
                    Kind::Commit { need } | Kind::Abort { need } => need <= found.reach,
                    _ => false,
                };
                if is_ended && self.is_found(&found.crash, record) {
                    return Some(record.kind);
                }
            }
        }
        None
    }

    fn is_winner(&self, found: &Found, session: u32, begun: u64) -> bool {
        matches!(
            self.end_of(found, session, begun),
            Some(Kind::Commit { .. })
        )
    }

    // How many transactions with records that are found have no end.
    fn undone(&self, found: &Found) -> u64 {
        let mut undone = 0u64;
        for session in 1..=self.count {
            let mut last = 0;
            for record in &self.records {
                let is_new = record.session == session && record.begun != last;
                if is_new && self.is_found(&found.crash, record) {
                    last = record.begun;
                    if self.end_of(found, session, last).is_none() {
                        undone = undone.saturating_add(1);
                    }
                }
            }
        }
        undone
    }

    // The first commit behind another, by number and session.
    fn next_commit(&self, behind: Option<Commit>) -> Option<Commit> {
        let mut first = None;
        for commit in &self.commits {
            let is_behind = match behind {
                Some(before) => is_before(before, *commit),
                None => true,
            };
            if is_behind {
                first = match first {
                    Some(other) if is_before(other, *commit) => Some(other),
                    _ => Some(*commit),
                };
            }
        }
        first
    }

    /// Runs the changes of a transaction on a map.
    pub(crate) fn redo<R: Abort>(&self, rt: &R, map: &mut BTreeMap<u64, u64>, commit: Commit) {
        for record in &self.records {
            if let Kind::Change { key, value, .. } = record.kind {
                if record.session == commit.session && record.begun == commit.begun {
                    set(rt, map, key, value);
                }
            }
        }
    }

    // The keys that a purge takes out of its leaf.
    fn purged_by<R: Abort>(&self, rt: &R, place: usize) -> Vec<u64> {
        let mut keys = Vec::new(self.alloc);
        for purged in &self.purged {
            if purged.record == place {
                keys.push(purged.key).expect(rt, MEMORY);
            }
        }
        keys
    }

    // Makes the changes of pages again. Each stands upon the one before it in each of its pages, so in a page none is made again behind the first that is not.
    fn redo_pages<R: Abort>(&self, rt: &R, crash: &Crash, tree: &mut Tree) {
        let mut lost = Vec::new(self.alloc);
        for (place, record) in self.records.iter().enumerate() {
            let mut is_lost = !self.is_found(crash, record);
            for page in record.kind.pages() {
                if let Some(page) = page {
                    is_lost = is_lost || lost.contains(&page);
                }
            }
            if is_lost {
                for page in record.kind.pages() {
                    if let Some(page) = page {
                        lost.push(page).expect(rt, MEMORY);
                    }
                }
            } else if let Kind::Change { page, key, .. } = record.kind {
                tree.add_entry(rt, page, key);
            } else if let Kind::Shape(shape) = record.kind {
                tree.shape(rt, shape, &self.purged_by(rt, place));
            }
        }
    }

    /// What a crash leaves of a disk that was left so before the opening. None, if something that was told durable is not there.
    pub(crate) fn left<R: Abort>(&self, rt: &R, before: &Left, crash: &Crash) -> Option<Left> {
        let Some(found) = self.found(crash) else {
            return Some(before.copied(rt, self.alloc));
        };
        let mut map = copy_of(rt, self.alloc, &before.map);
        let mut winners = 0u64;
        let mut last = None;
        for _ in 0..self.commits.len() {
            let commit = self.next_commit(last)?;
            if self.is_winner(&found, commit.session, commit.begun) {
                winners = winners.saturating_add(1);
                self.redo(rt, &mut map, commit);
            } else if commit.told <= crash.moment {
                return None;
            }
            last = Some(commit);
        }
        let mut tree = before.tree.copied(rt);
        self.redo_pages(rt, crash, &mut tree);
        let mut blocks = 0u64;
        for block in &self.blocks {
            if crash.keeps(block.session.saturating_add(1), block.written, block.synced) {
                blocks = blocks.saturating_add(1);
            }
        }
        Some(Left {
            generation: self.generation,
            winners,
            undone: self.undone(&found),
            blocks,
            base: self.greatest(crash, None).max(found.floor),
            map,
            tree,
        })
    }
}
