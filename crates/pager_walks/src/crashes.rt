// What a crash may leave, by the plain program: the oldest records of the log, with all that are flushed, and of each page the node that
// was saved.
use crate::nodes::copy_of;
use crate::plain::{Plain, first_values};
use crate::pool::Page;
use crate::wrong::Wrong;
use plain_images::{Image, Kind, Log, Record, first_damage, value};
use std::alloc::{AllocError, Global};

fn copy_of_record(alloc: Global, entry: &Record) -> Result<Record, AllocError> {
    Ok(Record {
        kind: entry.kind,
        log: entry.log,
        txn: entry.txn,
        number: entry.number,
        need: entry.need,
        refs: Vec::from_slice(alloc, &entry.refs)?,
        left: entry.left,
        right: entry.right,
        parent: entry.parent,
        key: entry.key,
        before: entry.before,
        after: entry.after,
        sep: entry.sep,
        high: entry.high,
        level: entry.level,
        pairs: Vec::from_slice(alloc, &entry.pairs)?,
        keys: Vec::from_slice(alloc, &entry.keys)?,
    })
}

// The page as it was saved. One that no record changed is of no log.
fn base_of(alloc: Global, page: &Page) -> Result<plain_images::Page, AllocError> {
    Ok(plain_images::Page {
        number: page.saved,
        log: if page.saved == 0 { 0 } else { 1 },
        node: copy_of(alloc, &page.base)?,
    })
}

impl Plain {
    // So many records, the newest first.
    fn log_of(&self, alloc: Global, cut: usize) -> Result<Log, AllocError> {
        let mut records = Vec::new(alloc);
        for entry in self.log.iter().take(cut).rev() {
            records.push(copy_of_record(alloc, entry)?)?;
        }
        Ok(Log { records })
    }

    // The image of a disk with so many records.
    fn image(&self, alloc: Global, cut: usize) -> Result<Image, AllocError> {
        let mut logs = Vec::new(alloc);
        logs.push(self.log_of(alloc, cut)?)?;
        let mut bases = Vec::new(alloc);
        for page in &self.pages {
            bases.push(Some(base_of(alloc, page)?))?;
        }
        Ok(Image {
            floor: 0,
            logs,
            bases,
        })
    }

    // How many transactions are committed by so many records.
    fn committed(&self, cut: usize) -> usize {
        let mut count = 0usize;
        for entry in self.log.iter().take(cut) {
            if entry.kind == Kind::Commit {
                count = count.saturating_add(1);
            }
        }
        count
    }

    /// The values of all slots behind so many committed transactions.
    pub fn values_after(
        &self,
        alloc: Global,
        transactions: usize,
    ) -> Result<Vec<Option<u64>>, AllocError> {
        let mut values = first_values(alloc)?;
        let end = match transactions.checked_sub(1) {
            Some(last) => self.ends.get(last).copied().unwrap_or(0),
            None => 0,
        };
        for change in self.changes.iter().take(end) {
            if let Some(value) = values.get_mut(change.at) {
                *value = change.word;
            }
        }
        Ok(values)
    }

    /// The image with so many records breaks no rule, and the key in this slot has the value behind the transactions that they commit.
    pub fn recalls(&self, alloc: Global, cut: usize, at: usize, key: u64) -> Result<(), Wrong> {
        let image = self.image(alloc, cut)?;
        if first_damage(alloc, &image)?.is_some() {
            return Err(Wrong::Lost);
        }
        let values = self.values_after(alloc, self.committed(cut))?;
        if value(alloc, &image, key)? == values.get(at).copied().unwrap_or(None) {
            Ok(())
        } else {
            Err(Wrong::Map)
        }
    }
}
