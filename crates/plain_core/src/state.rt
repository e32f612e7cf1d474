// One state of the whole engine, as lists.
ghost use Rattle.std.specs.Prelude.{◌≡◌, ◌∷◌, IfOk};
ghost use Rattle.map_model.specs.Lists.{upd};
ghost use Rattle.plain_core.specs.States.{Becomes, place_of, row_of, worker_of, state_of};
ghost use Rattle.plain_core.specs.Records.{page_of, entry_of};

use crate::records::{Entry, Page, copy_entries};
use crate::table::Table;
use std::alloc::{AllocError, Global};

/// The numbers of an opening. Workers and their logs are 1 to `workers`. Key k has the lock row k modulo `rows`, or k where
/// `rows` is 0. A transaction makes at most `changes` changes, and two pages are joined that have at most `joined` pairs
/// together. There are `pages` pages with room for `room` pairs each; `dead` is a tombstone's word. Where it is `faithful`, a page
/// that is read again has the pairs with which it was saved.
#[derive(Clone, Copy)]
pub struct Settings {
    pub faithful: bool,
    pub workers: u64,
    pub frames: u64,
    pub rows: u64,
    pub changes: u64,
    pub joined: u64,
    pub base: u64,
    pub pages: u64,
    pub room: u64,
    pub levels: u64,
    pub dead: u64,
    pub top: u64,
}

/// Where a page stands. A cooling page has the global epoch of its cooling, and the workers that were inside then and have
/// not left since.
#[derive(Drop)]
pub enum Place {
    Hot {
        frame: u64,
    },
    Cooling {
        frame: u64,
        epoch: u64,
        waited: Table<bool>,
    },
    Cold,
}

/// A lock row: who holds it alone, who shares it, the stamp of its last exclusive end, and the greatest end of a reader.
#[derive(Drop)]
pub struct Row {
    pub holder: Option<u64>,
    pub readers: Vec<u64>,
    pub number: u64,
    pub log: u64,
    pub read_end: u64,
}

impl Row {
    /// The row again.
    pub fn copy(&self, alloc: Global) -> Result<Row, AllocError>
        ensures { IfOk result (λ v. row_of v ≡ row_of self.now) }
    {
        Ok(Row {
            holder: self.holder,
            readers: Vec::from_slice(alloc, &self.readers)?,
            number: self.number,
            log: self.log,
            read_end: self.read_end,
        })
    }
}

/// A worker: `end` is the number of its last end record; `changes` are the open transaction's, the newest first.
#[derive(Drop)]
pub struct Worker {
    pub clock: u64,
    pub floor: u64,
    pub debt: u64,
    pub txn: u64,
    pub end: u64,
    pub is_open: bool,
    pub changes: Vec<Entry>,
}

impl Worker {
    /// The worker again.
    pub fn copy(&self, alloc: Global) -> Result<Worker, AllocError>
        ensures { IfOk result (λ v. worker_of v ≡ worker_of self.now) }
    {
        Ok(Worker {
            clock: self.clock,
            floor: self.floor,
            debt: self.debt,
            txn: self.txn,
            end: self.end,
            is_open: self.is_open,
            changes: copy_entries(alloc, &self.changes)?,
        })
    }
}

/// The state. Entries are what happened, the newest first; `flushed` and `heads` are of each log, `floor` the master's, `cut`
/// the greatest number of a cut, `inside` the epoch of each worker that is inside.
#[derive(Drop)]
pub struct Core {
    pub settings: Settings,
    pub entries: Vec<Entry>,
    pub pages: Table<Page>,
    pub saved: Table<Page>,
    pub places: Table<Place>,
    pub queue: Vec<u64>,
    pub rows: Table<Row>,
    pub workers: Table<Worker>,
    pub flushed: Table<u64>,
    pub heads: Table<u64>,
    pub floor: u64,
    pub cut: u64,
    pub posted: u64,
    pub inside: Table<Option<u64>>,
    pub epoch: u64,
}

impl Core {
    pub fn set_worker(&mut self, place: u64, worker: Worker) -> Result<(), AllocError>
        ensures { IfOk result (λ _. Becomes self.old self.new (record (state_of self.old) { worker = upd (state_of self.old).worker place (worker_of worker) })) }
    {
        self.workers.set(place, worker)?;
        Ok(())
    }

    pub fn set_row(&mut self, place: u64, row: Row) -> Result<(), AllocError>
        ensures { IfOk result (λ _. Becomes self.old self.new (record (state_of self.old) { row = upd (state_of self.old).row place (row_of row) })) }
    {
        self.rows.set(place, row)?;
        Ok(())
    }

    pub fn set_page(&mut self, place: u64, page: Page) -> Result<(), AllocError>
        ensures { IfOk result (λ _. Becomes self.old self.new (record (state_of self.old) { page = upd (state_of self.old).page place (page_of page) })) }
    {
        self.pages.set(place, page)?;
        Ok(())
    }

    pub fn set_saved(&mut self, place: u64, page: Page) -> Result<(), AllocError>
        ensures { IfOk result (λ _. Becomes self.old self.new (record (state_of self.old) { saved = upd (state_of self.old).saved place (page_of page) })) }
    {
        self.saved.set(place, page)?;
        Ok(())
    }

    pub fn set_place(&mut self, page: u64, place: Place) -> Result<(), AllocError>
        ensures { IfOk result (λ _. Becomes self.old self.new (record (state_of self.old) { place = upd (state_of self.old).place page (place_of place) })) }
    {
        self.places.set(page, place)?;
        Ok(())
    }

    pub fn enter(&mut self, entry: Entry) -> Result<(), AllocError>
        ensures { IfOk result (λ _. Becomes self.old self.new (record (state_of self.old) { entries = entry_of entry ∷ (state_of self.old).entries })) }
    {
        self.entries.insert(0, entry)?;
        Ok(())
    }

    pub fn set_flushed(&mut self, log: u64, number: u64) -> Result<(), AllocError>
        ensures { IfOk result (λ _. Becomes self.old self.new (record (state_of self.old) { flushed = upd (state_of self.old).flushed log number })) }
    {
        self.flushed.set(log, number)?;
        Ok(())
    }

    pub fn set_inside(&mut self, worker: u64, epoch: Option<u64>) -> Result<(), AllocError>
        ensures { IfOk result (λ _. Becomes self.old self.new (record (state_of self.old) { inside = upd (state_of self.old).inside worker epoch })) }
    {
        self.inside.set(worker, epoch)?;
        Ok(())
    }
}
