// What records make of the tree.
use crate::counts::see;
use crate::nodes::{HALF, ROOM, child_for, word_in};
use crate::plain::Plain;
use crate::wrong::Wrong;
use plain_images::{Kind, Record, Ref, applied};
use std::alloc::{AllocError, Global};

const NOWHERE: Ref = Ref { page: 0, prev: 0 };

impl Plain {
    /// The pages of a key's way, the root first.
    pub fn way(&self, key: u64) -> [u32; 3] {
        let inner = self.child(0, key);
        [0, inner, self.child(inner, key)]
    }

    fn child(&self, page: u32, key: u64) -> u32 {
        match self.node(page) {
            Some(node) => child_for(node, key),
            None => 0,
        }
    }

    // The page, as a record names it.
    fn reference(&self, page: u32) -> Ref {
        let prev = match self.page(page) {
            Some(it) => it.number,
            None => 0,
        };
        Ref {
            page: u64::from(page),
            prev,
        }
    }

    // The next record, which changes these pages.
    fn entry(&self, alloc: Global, kind: Kind, pages: &[u32]) -> Result<Record, AllocError> {
        let mut refs = Vec::new(alloc);
        for page in pages {
            refs.push(self.reference(*page))?;
        }
        Ok(Record {
            kind,
            log: 1,
            txn: self.transaction,
            number: self.clock.saturating_add(1),
            need: 0,
            left: refs.first().copied().unwrap_or(NOWHERE),
            right: refs.get(1).copied().unwrap_or(NOWHERE),
            parent: refs.get(2).copied().unwrap_or(NOWHERE),
            refs,
            key: 0,
            before: 0,
            after: 0,
            sep: 0,
            high: 0,
            level: 0,
            pairs: Vec::new(alloc),
            keys: Vec::new(alloc),
        })
    }

    // The record stands in the log, and its pages are as it makes them.
    fn make(&mut self, alloc: Global, pages: &[u32], entry: Record) -> Result<(), AllocError> {
        for page in pages {
            if let Some(it) = self.pages.get_mut(*page as usize) {
                it.node = applied(alloc, &entry, u64::from(*page), &it.node)?;
                it.number = entry.number;
            }
        }
        self.clock = entry.number;
        self.log.push(entry)?;
        Ok(())
    }

    /// A key of this leaf gets a word.
    pub fn write(
        &mut self,
        alloc: Global,
        leaf: u32,
        key: u64,
        before: u64,
        after: u64,
    ) -> Result<(), AllocError> {
        let pages = [leaf];
        let mut entry = self.entry(alloc, Kind::Change, &pages)?;
        entry.key = key;
        entry.before = before;
        entry.after = after;
        self.make(alloc, &pages, entry)
    }

    /// The open transaction ends.
    pub fn end(&mut self, alloc: Global) -> Result<(), AllocError> {
        let entry = self.entry(alloc, Kind::Commit, &[])?;
        self.make(alloc, &[], entry)
    }

    /// Whether a leaf can take an entry of the key.
    pub fn has_room(&self, leaf: u32, key: u64) -> bool {
        match self.node(leaf) {
            Some(node) => node.pairs.len() < ROOM || word_in(node, key).is_some(),
            None => false,
        }
    }

    fn is_full(&self, page: u32) -> bool {
        match self.node(page) {
            Some(node) => node.pairs.len() >= ROOM,
            None => false,
        }
    }

    /// Half of a full leaf goes into the least free page; if the page above it is full too, half of that does instead.
    pub fn split(&mut self, alloc: Global, way: [u32; 3]) -> Result<(), Wrong> {
        let [root, inner, leaf] = way;
        let (left, parent) = if self.is_full(inner) {
            (inner, root)
        } else {
            (leaf, inner)
        };
        let Some(right) = self.free.last().copied() else {
            return Err(Wrong::Plain);
        };
        if self.is_full(parent) || !self.come(alloc, right, &way)? {
            return Err(Wrong::Plain);
        }
        let pages = [left, right, parent];
        let mut entry = self.entry(alloc, Kind::Split, &pages)?;
        let Some(node) = self.node(left) else {
            return Err(Wrong::Plain);
        };
        entry.high = node.high;
        entry.level = u32::try_from(node.level).unwrap_or(0);
        for pair in node.pairs.iter().skip(HALF) {
            entry.pairs.push(*pair)?;
        }
        entry.sep = match entry.pairs.first() {
            Some(pair) => pair.key,
            None => 0,
        };
        self.make(alloc, &pages, entry)?;
        self.free.pop();
        see(&mut self.counts.splits);
        Ok(())
    }
}
