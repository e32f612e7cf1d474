// The index: one leaf.
use crate::place::MemJournal;
use transactions::{Hindrance, Index};

const TOMBSTONE: u64 = 1 << 63;

impl MemJournal {
    ghost use Rattle.std.specs.Prelude.{◌≡◌};
    ghost use Rattle.page_model.specs.Pairs.{find};
    ghost use Rattle.mem_journal.specs.Views.{view_of};
    ghost use Rattle.transactions.specs.Memory.{live_value};

    // The value of the key.
    fn value(&self, key: u64) -> Option<u64>
        ensures { result ≡ live_value (find key (view_of self.now).pairs) }
    {
        match self.word(key) {
            Some(word) if word < TOMBSTONE => Some(word),
            _ => None,
        }
    }
}

impl Index for MemJournal {
    fn find(&mut self, w: u32, key: u64) -> Result<Option<u64>, Hindrance> {
        if !self.has(w) || self.keys <= key {
            return Err(Hindrance::NoPages);
        }
        let value = self.value(key);
        self.look(w);
        Ok(value)
    }

    fn leaf_put(&mut self, w: u32, key: u64, value: u64) -> Result<Option<u64>, Hindrance> {
        if !self.has(w) || self.keys <= key {
            return Err(Hindrance::NoPages);
        }
        if !self.fits(key) {
            return Err(Hindrance::NoPages);
        }
        let was = self.word(key);
        if self.store(w, key, value) {
            return Ok(was);
        }
        Err(Hindrance::DiskFault)
    }

    fn leaf_del(&mut self, w: u32, key: u64) -> Result<Option<u64>, Hindrance> {
        if !self.has(w) || self.keys <= key {
            return Err(Hindrance::NoPages);
        }
        match self.value(key) {
            Some(value) => {
                if self.store(w, key, TOMBSTONE) {
                    return Ok(Some(value));
                }
                Err(Hindrance::DiskFault)
            }
            None => {
                self.look(w);
                Ok(None)
            }
        }
    }

    fn leaf_put_back(&mut self, w: u32, key: u64, word: u64) -> Result<(), Hindrance> {
        if !self.has(w) || self.keys <= key {
            return Err(Hindrance::NoPages);
        }
        if !self.has_key(key) {
            return Err(Hindrance::NoPages);
        }
        if self.store(w, key, word) {
            return Ok(());
        }
        Err(Hindrance::DiskFault)
    }
}
