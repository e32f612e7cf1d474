// The place: its parts, and what each event makes of them.
ghost use Rattle.std.specs.Prelude.{◌≡◌, ◌+◌, ◌-◌, ◌<◌, ◌≤◌, ◌^◌, ℕ, suc, length, ltb, ◌||◌, true, IfOk};
ghost use Rattle.rfa_model.specs.Reaches.{least};
ghost use Rattle.core_commit.specs.core_state.States.{start};
ghost use Rattle.core_commit.specs.core_state.Openings.{Opening};
ghost use Rattle.page_model.specs.Pairs.{find};
ghost use Rattle.page_model.specs.Redo.{is_some};
ghost use Rattle.mem_journal.specs.Views.{view_of, worker_at, row_at, used_of, IsSession, after_begin, after_lock, after_read, after_write, after_end, after_unlock, after_flush, receipt_at};
ghost use Rattle.mem_journal.specs.Places.{Pictures, IsEmpty};

use crate::entries::{self, Entry};
use crate::log::{self, Record, What};
use crate::row::Row;
use crate::worker::Worker;
use flush_avoidance::Clock;
use std::alloc::{AllocError, Global};
use transactions::{Mode, Place, Receipt};

/// An index, lock rows, workers and logs of several sessions, and the journal of their committed transactions. The index is one leaf of
/// entries with keys below `keys`, at most `places`, with the stamp of who wrote there last. Workers are 1, 2, .. behind a first one
/// that is nobody's, and so are logs; all numbers began at `base`. A log takes changes while it has fewer than `room` records.
#[derive(Drop)]
pub struct MemJournal {
    pub alloc: Global,
    pub entries: Vec<Entry>,
    pub number: u64,
    pub log: u32,
    pub keys: u64,
    pub places: usize,
    pub rows: Vec<Row>,
    pub workers: Vec<Worker>,
    pub logs: Vec<Vec<Record>>,
    pub base: u64,
    pub journal: Vec<Receipt>,
    pub room: u32,
}

impl Place for MemJournal {
    ghost use Rattle.std.specs.Prelude.{Bool};
    ghost use Rattle.mem_journal.specs.Places.{Stands, Leaves, Alone, Cause};

    ghost stands = { Stands };

    ghost leaves = { Leaves };

    ghost cause = { Cause };

    ghost rows = { λ a. length a.rows.items };

    ghost works = { λ a. true };

    ghost alone = { Alone };

    ghost rests = { λ g es latched a s. tt };

    ghost joins = { λ g es xs ys a b c p q. tt };

    fn is_alone(&self) -> bool {
        true
    }
}

// No more records of a log are counted.
const MOST: usize = 4_294_967_295;

const NO_ROW: Row = Row {
    holder: None,
    readers: [false; 17],
    number: 0,
    log: 0,
    read_end: 0,
};

impl MemJournal {
    /// For so many sessions, lock rows, and entries with keys below `keys`; all numbers start at the base. A log has room for so many
    /// records, and for a call's later ones.
    pub fn new(
        alloc: Global,
        sessions: u32,
        rows: u32,
        keys: u64,
        places: usize,
        base: u64,
        room: u32,
    ) -> Result<MemJournal, AllocError>
        requires { (sessions ≤ 16) × (rows ≤ 4096) }
        ensures rows { IfOk result (λ p. length p.rows.items ≡ rows) }
        ensures stands { IfOk result (λ p. (g : Opening) → IsEmpty g sessions base keys places → Pictures g (start g) (view_of p)) }
    {
        let worker = Worker {
            clock: Clock::new(base),
            txn: 0,
            end: base,
            flushed: base,
        };
        Ok(MemJournal {
            alloc,
            entries: Vec::new(alloc),
            number: 0,
            log: 0,
            keys,
            places,
            rows: vec![in alloc; NO_ROW; rows as usize]?,
            workers: vec![in alloc; worker; sessions as usize + 1]?,
            logs: log::empty_logs(alloc, sessions + 1, room)?,
            base,
            journal: Vec::new(alloc),
            room,
        })
    }

    /// The session is one of the place's.
    pub fn has(&self, w: u32) -> bool
        ensures is { result ≡ true → IsSession (view_of self.now) w }
        ensures is_not { IsSession (view_of self.now) w → result ≡ true }
    {
        0 < w && w < 17 && (w as usize) < self.workers.len() && (w as usize) < self.logs.len()
    }

    /// Up to where all logs are flushed.
    pub fn flushed(&self) -> u64
        requires { 1 < length self.now.workers.items }
        ensures { result ≡ least (λ w. (worker_at (view_of self.now) w).flushed) (length self.now.workers.items - 1) }
    {
        let mut least = self.workers[1].flushed;
        for w in 1..self.workers.len() {
            least = self.workers[w].flushed.min(least);
        }
        least
    }

    // The worker's number of transactions and its clock can go on.
    pub(crate) fn may_go_on(&self, w: u32) -> bool
        requires { w < length self.now.workers.items }
        ensures { result ≡ true → ((worker_at (view_of self.now) w).txn + 1 < 2 ^ 64) × ((worker_at (view_of self.now) w).clock.clock + 1 < 2 ^ 64) × (self.now.number + 1 < 2 ^ 64) }
    {
        let worker = self.workers[w as usize];
        worker.txn < u64::MAX && worker.clock.number() < u64::MAX && self.number < u64::MAX
    }

    // The word of the key.
    pub(crate) fn word(&self, key: u64) -> Option<u64>
        ensures { result ≡ find key (view_of self.now).pairs }
    {
        entries::find(&self.entries, key)
    }

    // The key has an entry.
    pub(crate) fn has_key(&self, key: u64) -> bool
        ensures { result ≡ is_some (find key (view_of self.now).pairs) }
    {
        self.word(key).is_some()
    }

    // The key has an entry, or there is room for one.
    pub(crate) fn fits(&self, key: u64) -> bool
        ensures { result ≡ (is_some (find key (view_of self.now).pairs) || ltb (length (view_of self.now).pairs) (view_of self.now).places) }
    {
        self.has_key(key) || self.entries.len() < self.places
    }

    // How many records stand in the worker's log.
    pub(crate) fn used(&self, w: u32) -> u32
        ensures { result ≡ used_of (view_of self.now) w }
    {
        if (w as usize) < self.logs.len() {
            return self.logs[w as usize].len().min(MOST) as u32;
        }
        0
    }

    // A transaction begins.
    pub(crate) fn begin_at(&mut self, w: u32, flushed: u64)
        requires session { w < length self.old.workers.items }
        requires fits { (worker_at (view_of self.old) w).txn + 1 < 2 ^ 64 }
        ensures { view_of self.new ≡ after_begin (view_of self.old) w flushed }
    {
        let mut worker = self.workers[w as usize];
        worker.clock.begin(flushed);
        worker.txn += 1;
        self.workers[w as usize] = worker;
    }

    // The row is taken.
    pub(crate) fn take(&mut self, w: u32, row: u32, mode: Mode)
        requires session { w < length self.old.workers.items }
        requires few { w < 17 }
        requires row { row < length self.old.rows.items }
        ensures { view_of self.new ≡ after_lock (view_of self.old) w row mode }
    {
        let was = self.rows[row as usize];
        self.rows[row as usize] = was.locked(w, mode);
        let mut worker = self.workers[w as usize];
        worker.clock.touch(w, was.number, was.log);
        worker.clock.raise(was.read_end);
        self.workers[w as usize] = worker;
    }

    // The leaf is looked at.
    pub(crate) fn look(&mut self, w: u32)
        requires { w < length self.old.workers.items }
        ensures { view_of self.new ≡ after_read (view_of self.old) w }
    {
        let mut worker = self.workers[w as usize];
        worker.clock.touch(w, self.number, self.log);
        self.workers[w as usize] = worker;
    }

    // The key gets the word. Where memory was wanting nothing changes.
    pub(crate) fn write(&mut self, w: u32, key: u64, word: u64) -> Result<(), AllocError>
        requires session { w < length self.old.workers.items }
        requires log { w < length self.old.logs.items }
        requires clock { (worker_at (view_of self.old) w).clock.clock + 1 < 2 ^ 64 }
        requires number { self.old.number + 1 < 2 ^ 64 }
        ensures rows { length self.new.rows.items ≡ length self.old.rows.items }
        ensures after { IfOk result (λ _. view_of self.new ≡ after_write (view_of self.old) w key word) }
    {
        let entries = entries::put(self.alloc, &self.entries, key, word)?;
        let mut worker = self.workers[w as usize];
        worker.clock.touch(w, self.number, self.log);
        let number = worker.clock.next();
        let what = What::Wrote {
            key,
            before: self.word(key),
            after: word,
        };
        log::enter(&mut self.logs, w, Record { number, what })?;
        self.workers[w as usize] = worker;
        self.entries = entries;
        self.number = number;
        self.log = w;
        Ok(())
    }

    // The same, where numbers go on and memory is not wanting.
    pub(crate) fn store(&mut self, w: u32, key: u64, word: u64) -> bool
        requires session { w < length self.old.workers.items }
        requires log { w < length self.old.logs.items }
        ensures rows { length self.new.rows.items ≡ length self.old.rows.items }
        ensures after { result ≡ true → view_of self.new ≡ after_write (view_of self.old) w key word }
    {
        if !self.may_go_on(w) {
            return false;
        }
        match self.write(w, key, word) {
            Ok(()) => true,
            Err(_) => false,
        }
    }

    // The transaction ends. A committed one comes into the journal, as a whole.
    pub(crate) fn end_at(
        &mut self,
        w: u32,
        commit: bool,
        flushed: u64,
    ) -> Result<Receipt, AllocError>
        requires session { w < length self.old.workers.items }
        requires log { w < length self.old.logs.items }
        requires clock { (worker_at (view_of self.old) w).clock.clock + 1 < 2 ^ 64 }
        ensures rows { length self.new.rows.items ≡ length self.old.rows.items }
        ensures after { IfOk result (λ r. (r ≡ receipt_at (view_of self.old) w flushed) × (view_of self.new ≡ after_end (view_of self.old) w commit flushed)) }
    {
        let mut worker = self.workers[w as usize];
        let need = worker.clock.need(flushed);
        let gsn = worker.clock.next();
        let receipt = Receipt {
            txn: worker.txn,
            log: w,
            gsn,
            need,
        };
        let what = What::Ended { commit };
        log::enter(&mut self.logs, w, Record { number: gsn, what })?;
        if commit {
            self.journal.push(receipt)?;
        }
        worker.end = gsn;
        self.workers[w as usize] = worker;
        Ok(receipt)
    }

    // The row is given up.
    pub(crate) fn give_up(&mut self, w: u32, row: u32)
        requires session { w < length self.old.workers.items }
        requires few { w < 17 }
        requires row { row < length self.old.rows.items }
        ensures { view_of self.new ≡ after_unlock (view_of self.old) w row }
    {
        let end = self.workers[w as usize].end;
        self.rows[row as usize] = self.rows[row as usize].unlocked(w, end);
    }

    // The log is flushed up to its last end.
    pub(crate) fn flush(&mut self, w: u32)
        requires { w < length self.old.workers.items }
        ensures { view_of self.new ≡ after_flush (view_of self.old) w }
    {
        let mut worker = self.workers[w as usize];
        worker.flushed = worker.end;
        self.workers[w as usize] = worker;
    }
}
