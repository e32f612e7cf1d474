// What sessions over rows have to answer: a word for each key, and for each lock row who holds it.
ghost use Rattle.std.specs.Prelude.{◌<◌};

use crate::answers::{Call, Told};
use key_locks::mode::Mode;
use std::alloc::{AllocError, Global};

/// The most entries of a leaf.
const ROOM: usize = 60;

/// The most changes of a transaction.
const CHANGES: u32 = 64;

/// Who holds a lock row: one alone (0 for nobody), or readers, by the number of the worker.
#[derive(Clone, Copy)]
pub struct Holders {
    pub holder: u32,
    pub readers: [bool; 17],
}

/// Words by leaf and slot, lock rows, and by worker whether it has a transaction open and how many changes that has.
#[derive(Drop)]
pub struct Model {
    words: Vec<Option<u64>>,
    slots: usize,
    rows: Vec<Holders>,
    is_open: [bool; 17],
    changes: [u32; 17],
}

/// Where a key has its lock and its word: the lock row, the leaf, and the slot there.
#[derive(Clone, Copy)]
pub struct Place {
    pub row: usize,
    pub leaf: usize,
    pub slot: usize,
}

// The least worker but one that reads.
fn other_reader(readers: &[bool; 17], worker: u32) -> u32 {
    for reader in 1..17u32 {
        if reader != worker && readers[reader as usize] {
            return reader;
        }
    }
    0
}

impl Model {
    /// Leaves of so many slots, of which the first ones have their numbers as words; nobody holds anything.
    pub fn new(
        alloc: Global,
        leaves: usize,
        slots: usize,
        entries: usize,
        locks: usize,
    ) -> Result<Model, AllocError> {
        let mut words = Vec::new(alloc);
        for _ in 0..leaves {
            for slot in 0..slots {
                words.push(if slot < entries {
                    Some(slot as u64)
                } else {
                    None
                })?;
            }
        }
        let mut rows = Vec::new(alloc);
        let nobody = Holders {
            holder: 0,
            readers: [false; 17],
        };
        rows.resize(locks, nobody)?;
        Ok(Model {
            words,
            slots,
            rows,
            is_open: [false; 17],
            changes: [0; 17],
        })
    }

    /// What a worker's call has to answer.
    pub fn answer(&mut self, worker: u32, place: Place, call: Call) -> Told
        requires { worker < 17 }
    {
        match call {
            Call::Begin => Told::Did(self.begin(worker)),
            Call::End => Told::Did(self.end(worker)),
            Call::Find(_) => Told::Word(self.word(place.leaf, place.slot)),
            // It keeps no numbers.
            Call::Stamp(_) => Told::Other,
            // Nor does it walk.
            Call::Next(_, _) => Told::Other,
            Call::Lock(_, mode) => self.lock(worker, place.row, mode),
            Call::Put(_, word) => self.put(worker, place, word),
            Call::Unlock(_) => Told::Did(self.unlock(worker, place.row)),
        }
    }

    fn is_open(&self, worker: u32) -> bool {
        self.is_open.get(worker as usize) == Some(&true)
    }

    // The word of a slot.
    fn word(&self, leaf: usize, slot: usize) -> Option<u64> {
        let at = leaf.saturating_mul(self.slots).saturating_add(slot);
        match self.words.get(at) {
            Some(word) => *word,
            None => None,
        }
    }

    // How many entries a leaf has.
    fn entries(&self, leaf: usize) -> usize {
        let mut count = 0usize;
        for slot in 0..self.slots {
            if self.word(leaf, slot).is_some() {
                count = count.saturating_add(1);
            }
        }
        count
    }

    fn begin(&mut self, worker: u32) -> bool {
        if self.is_open(worker) {
            return false;
        }
        self.set_open(worker, true);
        true
    }

    fn end(&mut self, worker: u32) -> bool {
        if !self.is_open(worker) {
            return false;
        }
        self.set_open(worker, false);
        true
    }

    fn set_open(&mut self, worker: u32, is_open: bool) {
        if let Some(mark) = self.is_open.get_mut(worker as usize) {
            *mark = is_open;
        }
        if let Some(count) = self.changes.get_mut(worker as usize) {
            *count = 0;
        }
    }

    fn holders(&self, row: usize) -> Holders {
        match self.rows.get(row) {
            Some(holders) => *holders,
            None => Holders {
                holder: 0,
                readers: [false; 17],
            },
        }
    }

    fn set_holders(&mut self, row: usize, holders: Holders) {
        if let Some(at) = self.rows.get_mut(row) {
            *at = holders;
        }
    }

    fn lock(&mut self, worker: u32, row: usize, mode: Mode) -> Told
        requires { worker < 17 }
    {
        if !self.is_open(worker) {
            return Told::NotOpen;
        }
        let mut holders = self.holders(row);
        if holders.holder == worker {
            return Told::Locked;
        }
        if holders.holder != 0 {
            return Told::Conflict(holders.holder);
        }
        match mode {
            Mode::Shared => holders.readers[worker as usize] = true,
            Mode::Alone => {
                let other = other_reader(&holders.readers, worker);
                if other != 0 {
                    return Told::Conflict(other);
                }
                holders.holder = worker;
                holders.readers = [false; 17];
            }
        }
        self.set_holders(row, holders);
        Told::Locked
    }

    fn put(&mut self, worker: u32, place: Place, word: u64) -> Told
        requires { worker < 17 }
    {
        if !self.is_open(worker) || self.changes[worker as usize] >= CHANGES {
            return Told::NotOpen;
        }
        let Place { row, leaf, slot } = place;
        let told = self.lock(worker, row, Mode::Alone);
        if told != Told::Locked {
            return told;
        }
        let before = self.word(leaf, slot);
        if before.is_none() && self.entries(leaf) >= ROOM {
            return Told::Full;
        }
        let at = leaf.saturating_mul(self.slots).saturating_add(slot);
        if let Some(here) = self.words.get_mut(at) {
            *here = Some(word);
        }
        self.changes[worker as usize] = self.changes[worker as usize].saturating_add(1);
        Told::Word(before)
    }

    fn unlock(&mut self, worker: u32, row: usize) -> bool
        requires { worker < 17 }
    {
        if self.is_open(worker) {
            return false;
        }
        let mut holders = self.holders(row);
        if holders.holder == worker {
            holders.holder = 0;
        } else if holders.readers[worker as usize] {
            holders.readers[worker as usize] = false;
        } else {
            return false;
        }
        self.set_holders(row, holders);
        true
    }
}
