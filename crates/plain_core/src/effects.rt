// What each event makes of the state.
ghost use Rattle.std.specs.Prelude.{◌≡◌, ◌==◌, ◌∷◌, [], ℕ, false, None, suc, max, not, map, IfOk, Some, if◌then◌else◌};
ghost use Rattle.map_model.specs.Lists.{upd, keep};
ghost use Rattle.page_model.specs.Pairs as paired;
ghost use Rattle.page_model.specs.Records as model_records;
ghost use Rattle.page_model.specs.Tree.{word_or};
ghost use Rattle.core_state.specs.image_model.Entries as logged;
ghost use Rattle.rfa_model.specs.Stamps as stamps;
ghost use Rattle.core_state.specs.Needs as needs;
ghost use Rattle.core_state.specs.States as states;
ghost use Rattle.core_state.specs.Steps as steps;
ghost use Rattle.core_state.specs.Events as events;
ghost use Rattle.plain_core.specs.Inside.{tail, newest_of, raised, written_in, write_entry_in, write_record_in, write_kind};
ghost use Rattle.plain_core.specs.Tables.{at};
ghost use Rattle.plain_core.specs.Records.{node_of, page_of, ref_of, record_of, kind_of, entry_of, entries_of};
ghost use Rattle.plain_core.specs.States.{place_of, Rest, Becomes, IsStep, format_of, opening, row_at, row_of, worker_of, state_of};
ghost use Rattle.plain_core.specs.Events.{event_of, events_of, mode_of};

use crate::event::{Event, Mode};
use crate::records::{Entry, Kind, Node, Page, PageKind, PageRecord, Ref, copy_entries};
use crate::refusal::Refusal;
use crate::state::{Core, Place, Row, Worker};
use crate::table::{Placed, Table};
use plain_images::pairs::put;
use std::alloc::{AllocError, Global};

pub(crate) fn next(number: u64) -> Result<u64, Refusal>
    ensures { IfOk result (λ n. n ≡ suc number) }
{
    match number.checked_add(1) {
        Some(next) => Ok(next),
        None => Err(Refusal::Number),
    }
}

impl Worker {
    // It met a stamp.
    pub(crate) fn touch(&mut self, own: u64, number: u64, log: u64)
        ensures { worker_of self.new ≡ steps.touch own (worker_of self.old) number log }
    {
        if self.floor < number && (log != own && log != 0) {
            self.debt = self.debt.max(number);
        }
        self.clock = self.clock.max(number);
    }

    // It met a lock row: its clock is above the row's last end, and above its readers' ends.
    fn meet_row(&mut self, own: u64, row: &Row)
        ensures { worker_of self.new ≡ steps.at_row own (worker_of self.old) (row_of row.now) }
    {
        self.touch(own, row.number, row.log);
        self.clock = self.clock.max(row.read_end);
    }

    // The worker, after it met a page.
    pub(crate) fn at_page(&self, alloc: Global, own: u64, page: &Page) -> Result<Worker, AllocError>
        ensures { IfOk result (λ a. worker_of a ≡ steps.touch own (worker_of self.now) page.now.number page.now.log) }
    {
        let mut worker = self.copy(alloc)?;
        worker.touch(own, page.number, page.log);
        Ok(worker)
    }

    // The worker, after it met a lock row.
    fn at_row(&self, alloc: Global, own: u64, row: &Row) -> Result<Worker, AllocError>
        ensures { IfOk result (λ a. worker_of a ≡ steps.at_row own (worker_of self.now) (row_of row.now)) }
    {
        let mut worker = self.copy(alloc)?;
        worker.meet_row(own, row);
        Ok(worker)
    }

    fn begun(&self, alloc: Global, flushed: u64) -> Result<Worker, Refusal>
        ensures { IfOk result (λ a. worker_of a ≡ steps.begun (worker_of self.now) flushed) }
    {
        let txn = next(self.txn)?;
        Ok(Worker {
            clock: self.clock,
            floor: flushed,
            debt: debt_at_begin(self.debt, flushed),
            txn,
            end: self.end,
            is_open: true,
            changes: Vec::new(alloc),
        })
    }

    fn finished(&self, alloc: Global, number: u64) -> Worker
        ensures { worker_of result ≡ steps.finished (worker_of self.now) number }
    {
        let owed = self.debt;
        Worker {
            clock: number,
            floor: self.floor,
            debt: owed,
            txn: self.txn,
            end: number,
            is_open: false,
            changes: Vec::new(alloc),
        }
    }

    // The worker, after it wrote an entry that is listed among its changes.
    fn with_change(&self, alloc: Global, entry: &Entry) -> Result<Worker, AllocError>
        ensures { IfOk result (λ a. worker_of a ≡ record (worker_of self.now) { clock = entry.now.number; changes = entry_of entry.now ∷ (worker_of self.now).changes }) }
    {
        let mut changes = copy_entries(alloc, &self.changes)?;
        changes.insert(0, entry.copy(alloc)?)?;
        Ok(Worker {
            clock: entry.number,
            floor: self.floor,
            debt: self.debt,
            txn: self.txn,
            end: self.end,
            is_open: self.is_open,
            changes,
        })
    }

    // The worker, after it put its newest change back by a record with the number.
    fn without_change(&self, alloc: Global, number: u64) -> Result<Worker, AllocError>
        ensures { IfOk result (λ a. worker_of a ≡ record (worker_of self.now) { clock = number; changes = tail (worker_of self.now).changes }) }
    {
        let changes = copy_tail(alloc, &self.changes)?;
        Ok(Worker {
            clock: number,
            floor: self.floor,
            debt: self.debt,
            txn: self.txn,
            end: self.end,
            is_open: self.is_open,
            changes,
        })
    }

    // The worker, with its clock at the number or above.
    fn raised(&self, alloc: Global, number: u64) -> Result<Worker, AllocError>
        ensures { IfOk result (λ a. worker_of a ≡ raised number (worker_of self.now)) }
    {
        Ok(Worker {
            clock: self.clock.max(number),
            floor: self.floor,
            debt: self.debt,
            txn: self.txn,
            end: self.end,
            is_open: self.is_open,
            changes: copy_entries(alloc, &self.changes)?,
        })
    }
}

// The newest entry's key, and the word before it.
fn newest(entries: &[Entry]) -> Option<(u64, u64)>
    ensures { result ≡ newest_of (entries_of entries.now) }
{
    match entries.first() {
        Some(entry) => Some((entry.key, entry.before)),
        None => None,
    }
}

// All entries but the newest.
fn copy_tail(alloc: Global, entries: &[Entry]) -> Result<Vec<Entry>, AllocError>
    ensures { IfOk result (λ v. entries_of v.items ≡ tail (entries_of entries.now)) }
{
    if entries.is_empty() {
        return Ok(Vec::new(alloc));
    }
    copy_entries(alloc, &entries[1..])
}

fn debt_at_begin(debt: u64, flushed: u64) -> u64
    ensures { result ≡ stamps.debt_at_begin debt flushed }
{
    if debt <= flushed { 0 } else { debt }
}

fn need_of(debt: u64, flushed: u64) -> u64
    ensures { result ≡ stamps.need_of debt flushed }
{
    if flushed < debt { debt } else { 0 }
}

impl Row {
    fn locked(&self, alloc: Global, worker: u64, mode: Mode) -> Result<Row, AllocError>
        ensures { IfOk result (λ o. row_of o ≡ steps.locked (row_of self.now) worker (mode_of mode)) }
    {
        if self.is_held_by(worker) {
            return self.copy(alloc);
        }
        match mode {
            Mode::Shared => self.shared(alloc, worker),
            Mode::Alone => Ok(Row {
                holder: Some(worker),
                readers: Vec::new(alloc),
                number: self.number,
                log: self.log,
                read_end: self.read_end,
            }),
        }
    }

    // The row with the worker among its readers.
    fn shared(&self, alloc: Global, worker: u64) -> Result<Row, AllocError>
        ensures { IfOk result (λ o. row_of o ≡ record (row_of self.now) { readers = if needs.is_reader worker (row_of self.now).readers then (row_of self.now).readers else worker ∷ (row_of self.now).readers }) }
    {
        if self.is_read_by(worker) {
            return self.copy(alloc);
        }
        let mut readers = Vec::from_slice(alloc, &self.readers)?;
        readers.insert(0, worker)?;
        Ok(Row {
            holder: self.holder,
            readers,
            number: self.number,
            log: self.log,
            read_end: self.read_end,
        })
    }

    fn unlocked(&self, alloc: Global, worker: u64, end: u64) -> Result<Row, AllocError>
        ensures { IfOk result (λ o. row_of o ≡ steps.unlocked (row_of self.now) worker end) }
    {
        let readers = others(alloc, &self.readers, worker)?;
        if self.is_held_by(worker) {
            return Ok(Row {
                holder: None,
                readers,
                number: self.number.max(end),
                log: worker,
                read_end: self.read_end,
            });
        }
        Ok(Row {
            holder: self.holder,
            readers,
            number: self.number,
            log: self.log,
            read_end: self.read_end.max(end),
        })
    }
}

// The readers but for the worker.
fn others(alloc: Global, readers: &[u64], worker: u64) -> Result<Vec<u64>, AllocError>
    ensures { IfOk result (λ v. v.items ≡ keep (λ r. not (r == worker)) readers.now) }
{
    let mut others = Vec::new(alloc);
    for reader in readers {
        if *reader != worker {
            others.push(*reader)?;
        }
    }
    Ok(others)
}

impl PageRecord {
    // What stands in an entry that changes no page.
    fn none(alloc: Global) -> PageRecord
        ensures { record_of result ≡ model_records.no_record }
    {
        let nowhere = Ref {
            page: 0,
            previous: 0,
        };
        PageRecord {
            kind: PageKind::Purge,
            left: nowhere,
            right: nowhere,
            parent: nowhere,
            key: 0,
            before: 0,
            after: 0,
            separator: 0,
            high: 0,
            level: 0,
            pairs: Vec::new(alloc),
            keys: Vec::new(alloc),
        }
    }
}

// An end takes the next number, and says what it needs.
fn end_entry(
    alloc: Global,
    own: u64,
    worker: &Worker,
    commit: bool,
    flushed: u64,
) -> Result<Entry, Refusal>
    ensures { IfOk result (λ r. entry_of r ≡ steps.end_entry (if commit then logged.Kind.Commit else logged.Kind.Abort) own (worker_of worker.now) flushed) }
{
    let number = next(worker.clock)?;
    let kind = end_kind(commit);
    Ok(Entry {
        kind,
        log: own,
        txn: worker.txn,
        number,
        key: 0,
        before: 0,
        after: 0,
        need: need_of(worker.debt, flushed),
        refs: Vec::new(alloc),
        page_record: PageRecord::none(alloc),
    })
}

fn end_kind(commit: bool) -> Kind
    ensures { kind_of result ≡ (if commit then logged.Kind.Commit else logged.Kind.Abort) }
{
    if commit { Kind::Commit } else { Kind::Abort }
}

fn read_entry(alloc: Global, own: u64, worker: &Worker, key: u64, word: u64, alone: bool) -> Entry
    ensures { entry_of result ≡ steps.read_entry own (worker_of worker.now) key word alone }
{
    let need = if alone { 1 } else { 0 };
    Entry {
        kind: Kind::Read,
        log: own,
        txn: worker.txn,
        number: worker.clock,
        key,
        before: 0,
        after: word,
        need,
        refs: Vec::new(alloc),
        page_record: PageRecord::none(alloc),
    }
}

impl Node {
    // The word of a key; an absent key has a tombstone's.
    fn word_in(&self, dead: u64, key: u64) -> u64
        ensures { result ≡ word_or dead (paired.find key (node_of self.now).pairs) }
    {
        match self.find(key) {
            Some(word) => word,
            None => dead,
        }
    }
}

impl Page {
    // The page with a key's word, by a record of the log with the number.
    fn written(
        &self,
        alloc: Global,
        log: u64,
        number: u64,
        key: u64,
        word: u64,
    ) -> Result<Page, AllocError>
        ensures { IfOk result (λ p. page_of p ≡ written_in log number (page_of self.now) key word) }
    {
        Ok(Page {
            number,
            log,
            node: Node {
                live: self.node.live,
                level: self.node.level,
                low: self.node.low,
                high: self.node.high,
                pairs: put(alloc, &self.node.pairs, key, word)?,
            },
        })
    }
}

// A write of a key takes the next number, and says the word before and after.
fn write_entry(
    alloc: Global,
    is_change: bool,
    own: u64,
    worker: &Worker,
    page: u64,
    leaf: &Page,
    dead: u64,
    key: u64,
    word: u64,
) -> Result<Entry, Refusal>
    ensures { IfOk result (λ r. entry_of r ≡ write_entry_in (write_kind is_change) own (worker_of worker.now) page (page_of leaf.now) dead key word) }
{
    let number = next(worker.clock)?;
    let before = leaf.node.word_in(dead, key);
    let left = Ref {
        page,
        previous: leaf.number,
    };
    let kind = if is_change {
        Kind::Change
    } else {
        Kind::PutBack
    };
    let refs = Vec::from_slice(alloc, &[left])?;
    Ok(Entry {
        kind,
        log: own,
        txn: worker.txn,
        number,
        key,
        before,
        after: word,
        need: 0,
        refs,
        page_record: write_record(alloc, is_change, left, key, before, word),
    })
}

fn write_record(
    alloc: Global,
    is_change: bool,
    left: Ref,
    key: u64,
    before: u64,
    after: u64,
) -> PageRecord
    ensures { record_of result ≡ write_record_in (write_kind is_change) (ref_of left) key before after }
{
    let nowhere = Ref {
        page: 0,
        previous: 0,
    };
    let kind = if is_change {
        PageKind::Change
    } else {
        PageKind::PutBack
    };
    PageRecord {
        kind,
        left,
        right: nowhere,
        parent: nowhere,
        key,
        before,
        after,
        separator: 0,
        high: 0,
        level: 0,
        pairs: Vec::new(alloc),
        keys: Vec::new(alloc),
    }
}

impl Table<bool> {
    // The same, but false at a number.
    fn without(&self, alloc: Global, place: u64) -> Result<Table<bool>, AllocError>
        ensures { IfOk result (λ t. at t ≡ upd (at self.now) place false) }
    {
        let mut changes = Vec::new(alloc);
        for change in &self.changes {
            changes.push(Placed {
                place: change.place,
                value: change.value,
            })?;
        }
        let mut copy = Table {
            default: self.default,
            changes,
        };
        copy.set(place, false)?;
        Ok(copy)
    }
}

impl Place {
    // The worker left.
    fn left_by(&self, alloc: Global, worker: u64) -> Result<Place, AllocError>
        ensures { IfOk result (λ p. place_of p ≡ states.left_by worker (place_of self.now)) }
    {
        match self {
            Place::Hot { frame } => Ok(Place::Hot { frame: *frame }),
            Place::Cooling {
                frame,
                epoch,
                waited,
            } => {
                let waited = waited.without(alloc, worker)?;
                Ok(Place::Cooling {
                    frame: *frame,
                    epoch: *epoch,
                    waited,
                })
            }
            Place::Cold => Ok(Place::Cold),
        }
    }
}

impl Table<Place> {
    // The worker left.
    fn left_by(&self, alloc: Global, worker: u64) -> Result<Table<Place>, AllocError>
        ensures { IfOk result (λ t. (i : ℕ) → place_of (at t i) ≡ states.left_by worker (place_of (at self.now i))) }
    {
        let mut changes = Vec::new(alloc);
        for change in &self.changes {
            changes.push(Placed {
                place: change.place,
                value: change.value.left_by(alloc, worker)?,
            })?;
        }
        let default = self.default.left_by(alloc, worker)?;
        Ok(Table { default, changes })
    }
}

impl Table<Worker> {
    // Each clock is at the number or above.
    fn raise(&mut self, alloc: Global, number: u64) -> Result<(), AllocError>
        ensures { IfOk result (λ _. (i : ℕ) → worker_of (at self.new i) ≡ raised number (worker_of (at self.old i))) }
    {
        let default = self.default.raised(alloc, number)?;
        let mut changes = Vec::new(alloc);
        for change in &self.changes {
            changes.push(Placed {
                place: change.place,
                value: change.value.raised(alloc, number)?,
            })?;
        }
        *self = Table { default, changes };
        Ok(())
    }
}

impl Core {
    // The record is entered, its page is written, and its worker is this from then on.
    fn write(
        &mut self,
        entry: Entry,
        place: u64,
        page: Page,
        own: u64,
        worker: Worker,
    ) -> Result<(), AllocError>
        ensures { IfOk result (λ _. Becomes self.old self.new (let s = state_of self.old in record s { entries = entry_of entry ∷ s.entries; page = upd s.page place (page_of page); worker = upd s.worker own (worker_of worker) })) }
    {
        self.enter(entry)?;
        self.set_page(place, page)?;
        self.set_worker(own, worker)?;
        Ok(())
    }

    pub(crate) fn change(
        &mut self,
        alloc: Global,
        worker: u64,
        page: u64,
        key: u64,
        word: u64,
    ) -> Result<(), Refusal>
        ensures { IfOk result (λ _. (x : Rest self.old.settings) → Becomes self.old self.new (steps.writes (opening self.old.settings x) (state_of self.old) logged.Kind.Change worker page key word (λ r. r ∷ ((state_of self.old).worker worker).changes))) }
    {
        let met = self
            .workers
            .get(worker)
            .at_page(alloc, worker, self.pages.get(page))?;
        let leaf = self.pages.get(page);
        let entry = write_entry(
            alloc,
            true,
            worker,
            &met,
            page,
            leaf,
            self.settings.dead,
            key,
            word,
        )?;
        let written = leaf.written(alloc, worker, entry.number, key, word)?;
        let writer = met.with_change(alloc, &entry)?;
        self.write(entry, page, written, worker, writer)?;
        Ok(())
    }

    // Puts the newest change back, which was of this key and had this word before.
    fn put_word_back(
        &mut self,
        alloc: Global,
        worker: u64,
        page: u64,
        key: u64,
        word: u64,
    ) -> Result<(), Refusal>
        ensures { IfOk result (λ _. (x : Rest self.old.settings) → Becomes self.old self.new (steps.writes (opening self.old.settings x) (state_of self.old) logged.Kind.Put_back worker page key word (λ _. tail ((state_of self.old).worker worker).changes))) }
    {
        let met = self
            .workers
            .get(worker)
            .at_page(alloc, worker, self.pages.get(page))?;
        let leaf = self.pages.get(page);
        let entry = write_entry(
            alloc,
            false,
            worker,
            &met,
            page,
            leaf,
            self.settings.dead,
            key,
            word,
        )?;
        let written = leaf.written(alloc, worker, entry.number, key, word)?;
        let writer = met.without_change(alloc, entry.number)?;
        self.write(entry, page, written, worker, writer)?;
        Ok(())
    }

    pub(crate) fn put_back(&mut self, alloc: Global, worker: u64, page: u64) -> Result<(), Refusal>
        ensures { IfOk result (λ _. (x : Rest self.old.settings) → Becomes self.old self.new (steps.put_back (opening self.old.settings x) (state_of self.old) worker page ((state_of self.old).worker worker).changes)) }
    {
        let newest = newest(&self.workers.get(worker).changes);
        match newest {
            Some((key, word)) => {
                self.put_word_back(alloc, worker, page, key, word)?;
                Ok(())
            }
            None => Ok(()),
        }
    }

    pub(crate) fn begin(&mut self, alloc: Global, worker: u64, flushed: u64) -> Result<(), Refusal>
        ensures { IfOk result (λ _. Becomes self.old self.new (let s = state_of self.old in record s { worker = upd s.worker worker (steps.begun (s.worker worker) flushed) })) }
    {
        let begun = self.workers.get(worker).begun(alloc, flushed)?;
        self.set_worker(worker, begun)?;
        Ok(())
    }

    pub(crate) fn lock(
        &mut self,
        alloc: Global,
        worker: u64,
        row: u64,
        mode: Mode,
    ) -> Result<(), Refusal>
        ensures { IfOk result (λ _. Becomes self.old self.new (let s = state_of self.old in record s { row = upd s.row row (steps.locked (s.row row) worker (mode_of mode)); worker = upd s.worker worker (steps.at_row worker (s.worker worker) (s.row row)) })) }
    {
        let locked = self.rows.get(row).locked(alloc, worker, mode)?;
        let locker = self
            .workers
            .get(worker)
            .at_row(alloc, worker, self.rows.get(row))?;
        self.set_row(row, locked)?;
        self.set_worker(worker, locker)?;
        Ok(())
    }

    pub(crate) fn unlock(&mut self, alloc: Global, worker: u64, row: u64) -> Result<(), Refusal>
        ensures { IfOk result (λ _. Becomes self.old self.new (let s = state_of self.old in record s { row = upd s.row row (steps.unlocked (s.row row) worker (s.worker worker).end) })) }
    {
        let end = self.workers.get(worker).end;
        let unlocked = self.rows.get(row).unlocked(alloc, worker, end)?;
        self.set_row(row, unlocked)?;
        Ok(())
    }

    pub(crate) fn end(
        &mut self,
        alloc: Global,
        worker: u64,
        commit: bool,
        flushed: u64,
    ) -> Result<(), Refusal>
        ensures { IfOk result (λ _. Becomes self.old self.new (let s = state_of self.old in steps.ends s worker (steps.end_entry (if commit then logged.Kind.Commit else logged.Kind.Abort) worker (s.worker worker) flushed))) }
    {
        let entry = end_entry(alloc, worker, self.workers.get(worker), commit, flushed)?;
        let finished = self.workers.get(worker).finished(alloc, entry.number);
        self.enter(entry)?;
        self.set_worker(worker, finished)?;
        Ok(())
    }

    pub(crate) fn read(
        &mut self,
        alloc: Global,
        worker: u64,
        page: u64,
        key: u64,
    ) -> Result<(), Refusal>
        ensures { IfOk result (λ _. (x : Rest self.old.settings) → Becomes self.old self.new (steps.reads (opening self.old.settings x) (state_of self.old) worker page key)) }
    {
        let reader = self
            .workers
            .get(worker)
            .at_page(alloc, worker, self.pages.get(page))?;
        let word = self.pages.get(page).node.word_in(self.settings.dead, key);
        let alone = self.rows.get(self.settings.row_of(key)).is_held_by(worker);
        let entry = read_entry(alloc, worker, &reader, key, word, alone);
        self.enter(entry)?;
        self.set_worker(worker, reader)?;
        Ok(())
    }

    pub(crate) fn flush(&mut self, log: u64, number: u64) -> Result<(), Refusal>
        ensures { IfOk result (λ _. Becomes self.old self.new (record (state_of self.old) { flushed = upd (state_of self.old).flushed log number })) }
    {
        self.set_flushed(log, number)?;
        Ok(())
    }

    pub(crate) fn sync(&mut self, alloc: Global, number: u64) -> Result<(), Refusal>
        ensures { IfOk result (λ _. Becomes self.old self.new (steps.synced (state_of self.old) number)) }
    {
        self.workers.raise(alloc, number)?;
        self.flushed = Table::new(alloc, number);
        self.floor = number;
        Ok(())
    }

    pub(crate) fn come_in(&mut self, worker: u64, epoch: u64) -> Result<(), Refusal>
        ensures { IfOk result (λ _. Becomes self.old self.new (record (state_of self.old) { inside = upd (state_of self.old).inside worker (Some epoch) })) }
    {
        self.set_inside(worker, Some(epoch))?;
        Ok(())
    }

    pub(crate) fn save(&mut self, alloc: Global, page: u64) -> Result<(), Refusal>
        ensures { IfOk result (λ _. Becomes self.old self.new (record (state_of self.old) { saved = upd (state_of self.old).saved page ((state_of self.old).page page) })) }
    {
        let saved = self.pages.get(page).copy(alloc)?;
        self.set_saved(page, saved)?;
        Ok(())
    }

    pub(crate) fn leave(&mut self, alloc: Global, worker: u64) -> Result<(), Refusal>
        ensures { IfOk result (λ _. Becomes self.old self.new (record (state_of self.old) { inside = upd (state_of self.old).inside worker None; place = λ p. states.left_by worker ((state_of self.old).place p) })) }
    {
        self.places = self.places.left_by(alloc, worker)?;
        self.set_inside(worker, None)?;
        Ok(())
    }

    pub(crate) fn tick(&mut self) -> Result<(), Refusal>
        ensures { IfOk result (λ _. Becomes self.old self.new (record (state_of self.old) { epoch = suc (state_of self.old).epoch })) }
    {
        self.epoch = next(self.epoch)?;
        Ok(())
    }

    pub(crate) fn post(&mut self, number: u64)
        ensures { Becomes self.old self.new (record (state_of self.old) { posted = max (state_of self.old).posted number }) }
    {
        self.posted = self.posted.max(number);
    }
}
