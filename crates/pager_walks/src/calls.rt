// Calls, as the plain program answers them.
use crate::counts::see;
use crate::nodes::DEAD;
use crate::plain::{Change, GROUP, Plain};
use crate::slots::Slot;
use crate::wrong::Wrong;
use std::alloc::{AllocError, Global};

impl Plain {
    /// All of the log is flushed.
    pub fn flush(&mut self) {
        self.flushed = self.clock;
        self.safe = self.log.len();
        self.kept = self.ends.len();
        self.waiting = 0;
        see(&mut self.counts.flushes);
    }

    // The first page of the way that is not hot, and the pages above it.
    fn gap(&self, way: &[u32]) -> Option<usize> {
        way.iter().position(|page| !self.is_hot(*page))
    }

    /// The pages of a key's way come.
    pub fn warm(&mut self, alloc: Global, key: u64) -> Result<(), Wrong> {
        let way = self.way(key);
        for _page in 0..3 {
            let Some(level) = self.gap(&way) else {
                return Ok(());
            };
            let Some(page) = way.get(level) else {
                return Ok(());
            };
            let above = way.get(..level).unwrap_or(&[]);
            if !self.come(alloc, *page, above)? {
                return Err(Wrong::Plain);
            }
        }
        Ok(())
    }

    /// A transaction begins, behind a sync if one is due. Its number.
    pub fn begin(&mut self, is_long: bool) -> u64 {
        if is_long {
            self.flush();
        }
        self.transaction = self.transaction.saturating_add(1);
        self.is_open = true;
        self.changed = 0;
        self.transaction
    }

    /// It commits; where so many wait as make a group, all is flushed. The number of its end.
    pub fn commit(&mut self, alloc: Global) -> Result<u64, AllocError> {
        self.end(alloc)?;
        self.is_open = false;
        self.ends.push(self.changes.len())?;
        self.waiting = self.waiting.saturating_add(1);
        if self.waiting >= GROUP {
            self.flush();
        }
        Ok(self.clock)
    }

    /// The value of a key, behind the coming of its pages.
    pub fn get(&mut self, alloc: Global, slot: Slot) -> Result<Option<u64>, Wrong> {
        self.warm(alloc, slot.key())?;
        Ok(self.value(slot.at()))
    }

    // A key of the leaf has this value from now on; the one before it.
    fn set(
        &mut self,
        alloc: Global,
        leaf: u32,
        slot: Slot,
        word: Option<u64>,
    ) -> Result<Option<u64>, Wrong> {
        let was = self.value(slot.at());
        self.write(
            alloc,
            leaf,
            slot.key(),
            was.unwrap_or(DEAD),
            word.unwrap_or(DEAD),
        )?;
        if let Some(here) = self.values.get_mut(slot.at()) {
            *here = word;
        }
        self.changes.push(Change {
            at: slot.at(),
            word,
        })?;
        self.changed = self.changed.saturating_add(1);
        Ok(was)
    }

    /// A key gets a value, behind the coming of its pages and of room for it. The one before it.
    pub fn put(&mut self, alloc: Global, slot: Slot, value: u64) -> Result<Option<u64>, Wrong> {
        let key = slot.key();
        self.warm(alloc, key)?;
        for _change in 0..3 {
            let way = self.way(key);
            let [_, _, leaf] = way;
            if self.has_room(leaf, key) {
                return self.set(alloc, leaf, slot, Some(value));
            }
            self.split(alloc, way)?;
        }
        Err(Wrong::Plain)
    }

    /// A key's value is taken away, behind the coming of its pages.
    pub fn del(&mut self, alloc: Global, slot: Slot) -> Result<Option<u64>, Wrong> {
        self.warm(alloc, slot.key())?;
        let was = self.value(slot.at());
        if was.is_none() {
            return Ok(None);
        }
        let [_, _, leaf] = self.way(slot.key());
        see(&mut self.counts.dels);
        self.set(alloc, leaf, slot, None)
    }
}
