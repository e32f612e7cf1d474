// What each event needs.
ghost use Rattle.std.specs.Prelude.{◌≡◌, ◌<◌, ◌≤◌, ◌==◌, ◌&&◌, ltb, ℕ, not, List, ◌∷◌, [], map, length};
ghost use Rattle.map_model.specs.Lists.{any};
ghost use Rattle.rfa_model.specs.Reaches.{least};
ghost use Rattle.core_state.specs.image_model.Entries as logged;
ghost use Rattle.page_model.specs.Pairs as paired;
ghost use Rattle.page_model.specs.Nodes as nodes;
ghost use Rattle.page_model.specs.Redo as redo;
ghost use Rattle.core_state.specs.Lists.{most, is_empty, count_below};
ghost use Rattle.core_state.specs.States as states;
ghost use Rattle.core_state.specs.Needs as needs;
ghost use Rattle.core_state.specs.Events as events;
ghost use Rattle.plain_core.specs.Inside.{value_at, is_worker_of, may_put_in, may_put_back_in, may_look};
ghost use Rattle.plain_core.specs.Tables.{at};
ghost use Rattle.plain_core.specs.Records.{node_of, page_of, kind_of, entry_of, entries_of};
ghost use Rattle.plain_core.specs.States.{Rest, format_of, opening, row_at, row_of, place_of, worker_of, state_of};
ghost use Rattle.plain_core.specs.Events.{event_of, mode_of};

use crate::event::{Event, Mode};
use crate::records::{Entry, Kind, Node};
use crate::state::{Core, Place, Row, Settings};
use crate::table::Table;
use plain_images::pairs::find;

impl Row {
    pub fn is_held_by(&self, worker: u64) -> bool
        ensures { result ≡ needs.is_held_by (row_of self.now).holder worker }
    {
        match self.holder {
            Some(holder) => holder == worker,
            None => false,
        }
    }

    pub(crate) fn is_free(&self) -> bool
        ensures { result ≡ needs.is_free (row_of self.now).holder }
    {
        match self.holder {
            Some(_) => false,
            None => true,
        }
    }

    pub fn is_read_by(&self, worker: u64) -> bool
        ensures { result ≡ needs.is_reader worker (row_of self.now).readers }
    {
        is_among(&self.readers, worker)
    }

    pub(crate) fn holds(&self, worker: u64) -> bool
        ensures { result ≡ needs.holds_row (row_of self.now) worker }
    {
        self.is_held_by(worker) || self.is_read_by(worker)
    }

    fn may_hold(&self, worker: u64, mode: Mode) -> bool
        ensures { result ≡ needs.may_hold (row_of self.now) worker (mode_of mode) }
    {
        match mode {
            Mode::Shared => self.is_held_by(worker) || self.is_free(),
            Mode::Alone => self.is_held_by(worker)
                || (self.is_free() && !has_other(&self.readers, worker)),
        }
    }
}

fn is_among(readers: &[u64], worker: u64) -> bool
    ensures { result ≡ any (λ v. v == worker) readers.now }
{
    for reader in readers {
        if *reader == worker {
            return true;
        }
    }
    false
}

fn has_other(readers: &[u64], worker: u64) -> bool
    ensures { result ≡ any (λ v. not (v == worker)) readers.now }
{
    for reader in readers {
        if *reader != worker {
            return true;
        }
    }
    false
}

impl Node {
    pub(crate) fn is_leaf_of(&self, key: u64) -> bool
        ensures { result ≡ nodes.holds (node_of self.now) key }
    {
        (self.live && self.level == 0) && (self.live && (self.low <= key && key < self.high))
    }

    /// The word of a key.
    pub fn find(&self, key: u64) -> Option<u64>
        ensures { result ≡ paired.find key (node_of self.now).pairs }
    {
        find(&self.pairs, key)
    }

    fn has_key(&self, key: u64) -> bool
        ensures { result ≡ redo.has_key key (node_of self.now) }
    {
        match self.find(key) {
            Some(_) => true,
            None => false,
        }
    }

    // The value of a key, if it has one.
    fn value_in(&self, dead: u64, key: u64) -> Option<u64>
        ensures { result ≡ value_at dead (paired.find key (node_of self.now).pairs) }
    {
        match self.find(key) {
            Some(word) => value_of(dead, word),
            None => None,
        }
    }

    fn may_put(&self, settings: Settings, page: u64, key: u64, word: u64) -> bool
        ensures { result ≡ may_put_in settings (node_of self.now) page key word }
    {
        page < settings.pages
            && (self.is_leaf_of(key)
                && (word <= settings.dead
                    && (self.has_key(key) || (self.pairs.len() as u64) < settings.room)))
    }
}

fn value_of(dead: u64, word: u64) -> Option<u64>
    ensures { result ≡ value_at dead (Some word) }
{
    if word < dead { Some(word) } else { None }
}

fn is_value(answer: Option<u64>, value: Option<u64>) -> bool
    ensures { result ≡ needs.is_value answer value }
{
    match answer {
        Some(a) => match value {
            Some(b) => a == b,
            None => false,
        },
        None => match value {
            Some(_) => false,
            None => true,
        },
    }
}

impl Place {
    fn is_hot(&self) -> bool
        ensures { result ≡ states.is_hot (place_of self.now) }
    {
        match self {
            Place::Hot { .. } => true,
            _ => false,
        }
    }
}

impl Place {
    pub(crate) fn is_cold(&self) -> bool
        ensures { result ≡ states.is_cold (place_of self.now) }
    {
        match self {
            Place::Cold => true,
            _ => false,
        }
    }
}

impl Settings {
    fn is_worker(&self, worker: u64) -> bool
        ensures { result ≡ is_worker_of self.now worker }
    {
        0 < worker && worker <= self.workers
    }

    /// The lock row of a key.
    pub fn row_of(&self, key: u64) -> u64
        ensures { result ≡ row_at self.now.rows key }
    {
        if self.rows == 0 { key } else { key % self.rows }
    }
}

fn may_put_back(settings: Settings, node: &Node, page: u64, changes: &[Entry]) -> bool
    ensures { result ≡ may_put_back_in settings (node_of node.now) page (entries_of changes.now) }
{
    match changes.first() {
        Some(change) => page < settings.pages
            && (node.is_leaf_of(change.key) && node.has_key(change.key)),
        None => false,
    }
}

// Log `log` has a record with this number.
fn has_record(entries: &[Entry], log: u64, number: u64) -> bool
    ensures { result ≡ any (λ r. logged.is_record r.kind && ((r.log == log) && (r.number == number))) (entries_of entries.now) }
{
    for entry in entries {
        if entry.kind.is_record() && (entry.log == log && entry.number == number) {
            return true;
        }
    }
    false
}

// Some log has a record that is not flushed.
fn is_behind(flushed: &Table<u64>, entries: &[Entry]) -> bool
    ensures { result ≡ any (λ r. logged.is_record r.kind && ltb (at flushed.now r.log) r.number) (entries_of entries.now) }
{
    for entry in entries {
        if entry.kind.is_record() && *flushed.get(entry.log) < entry.number {
            return true;
        }
    }
    false
}

impl Kind {
    pub(crate) fn is_record(self) -> bool
        ensures { result ≡ logged.is_record (kind_of self) }
    {
        match self {
            Kind::Read => false,
            _ => true,
        }
    }
}

impl Core {
    /// The least flushed number over all logs.
    pub fn flushed_by_all(&self) -> u64
        ensures { result ≡ least (at self.now.flushed) self.now.settings.workers }
    {
        least_of(&self.flushed, self.settings.workers)
    }

    fn is_worker(&self, worker: u64) -> bool
        ensures { result ≡ is_worker_of self.now.settings worker }
    {
        self.settings.is_worker(worker)
    }

    pub(crate) fn is_hot(&self, page: u64) -> bool
        ensures { result ≡ states.is_hot ((state_of self.now).place page) }
    {
        self.places.get(page).is_hot()
    }

    fn may_enter(&self, worker: u64, epoch: u64) -> bool
        ensures { (x : Rest self.now.settings) → result ≡ needs.may (opening self.now.settings x) (state_of self.now) (events.Event.Enter worker epoch) }
    {
        self.is_worker(worker) && (!self.is_inside(worker) && epoch <= self.epoch)
    }

    fn is_inside(&self, worker: u64) -> bool
        ensures { result ≡ needs.is_inside ((state_of self.now).inside worker) }
    {
        match *self.inside.get(worker) {
            Some(_) => true,
            None => false,
        }
    }

    fn may_begin(&self, worker: u64, flushed: u64) -> bool
        ensures { (x : Rest self.now.settings) → result ≡ needs.may (opening self.now.settings x) (state_of self.now) (events.Event.Begin worker flushed) }
    {
        let begins = self.workers.get(worker);
        self.is_worker(worker)
            && (!begins.is_open && (begins.floor <= flushed && flushed <= self.flushed_by_all()))
    }

    fn may_lock(&self, worker: u64, row: u64, mode: Mode) -> bool
        ensures { (x : Rest self.now.settings) → result ≡ needs.may (opening self.now.settings x) (state_of self.now) (events.Event.Lock worker row (mode_of mode)) }
    {
        self.workers.get(worker).is_open && self.rows.get(row).may_hold(worker, mode)
    }

    // The worker is open, holds the key's row, and the page is the key's leaf.
    fn may_look(&self, worker: u64, page: u64, key: u64) -> bool
        ensures { result ≡ may_look self.now.settings (state_of self.now) worker page key }
    {
        self.workers.get(worker).is_open
            && (self.rows.get(self.settings.row_of(key)).holds(worker)
                && (page < self.settings.pages && self.pages.get(page).node.is_leaf_of(key)))
    }

    fn may_read(&self, worker: u64, page: u64, key: u64, answer: Option<u64>) -> bool
        ensures { (x : Rest self.now.settings) → result ≡ needs.may (opening self.now.settings x) (state_of self.now) (events.Event.Read worker page key answer) }
    {
        self.is_hot(page)
            && (self.may_look(worker, page, key)
                && is_value(
                    answer,
                    self.pages.get(page).node.value_in(self.settings.dead, key),
                ))
    }

    fn may_peek(&self, worker: u64, page: u64, key: u64, answer: Option<u64>) -> bool
        ensures { (x : Rest self.now.settings) → result ≡ needs.may (opening self.now.settings x) (state_of self.now) (events.Event.Peek worker page key answer) }
    {
        self.is_hot(page)
            && ((page < self.settings.pages && self.pages.get(page).node.is_leaf_of(key))
                && is_value(
                    answer,
                    self.pages.get(page).node.value_in(self.settings.dead, key),
                ))
    }

    fn may_change(&self, worker: u64, page: u64, key: u64, word: u64) -> bool
        ensures { (x : Rest self.now.settings) → result ≡ needs.may (opening self.now.settings x) (state_of self.now) (events.Event.Change worker page key word) }
    {
        let changes = self.workers.get(worker);
        self.is_hot(page)
            && ((changes.changes.len() as u64) < self.settings.changes
                && (changes.is_open
                    && (self.rows.get(self.settings.row_of(key)).is_held_by(worker)
                        && self
                            .pages
                            .get(page)
                            .node
                            .may_put(self.settings, page, key, word))))
    }

    fn may_put_back(&self, worker: u64, page: u64) -> bool
        ensures { (x : Rest self.now.settings) → result ≡ needs.may (opening self.now.settings x) (state_of self.now) (events.Event.Put_back worker page) }
    {
        self.is_hot(page)
            && (self.workers.get(worker).is_open
                && may_put_back(
                    self.settings,
                    &self.pages.get(page).node,
                    page,
                    &self.workers.get(worker).changes,
                ))
    }

    fn may_end(&self, worker: u64, commit: bool, flushed: u64) -> bool
        ensures { (x : Rest self.now.settings) → result ≡ needs.may (opening self.now.settings x) (state_of self.now) (events.Event.End worker commit flushed) }
    {
        let ends = self.workers.get(worker);
        ends.is_open
            && (ends.floor <= flushed
                && (flushed <= self.flushed_by_all() && (commit || has_none(&ends.changes))))
    }

    fn may_unlock(&self, worker: u64, row: u64) -> bool
        ensures { (x : Rest self.now.settings) → result ≡ needs.may (opening self.now.settings x) (state_of self.now) (events.Event.Unlock worker row) }
    {
        !self.workers.get(worker).is_open && self.rows.get(row).holds(worker)
    }

    fn may_flush(&self, worker: u64, number: u64) -> bool
        ensures { (x : Rest self.now.settings) → result ≡ needs.may (opening self.now.settings x) (state_of self.now) (events.Event.Flush worker number) }
    {
        *self.flushed.get(worker) <= number && has_record(&self.entries, worker, number)
    }

    fn may_sync(&self, number: u64) -> bool
        ensures { (x : Rest self.now.settings) → result ≡ needs.may (opening self.now.settings x) (state_of self.now) (events.Event.Sync number) }
    {
        number == self.greatest_clock() && !is_behind(&self.flushed, &self.entries)
    }

    fn greatest_clock(&self) -> u64
        ensures { result ≡ most (λ w. ((state_of self.now).worker w).clock) self.now.settings.workers }
    {
        let workers = self.settings.workers;
        let mut greatest = self.workers.get(1).clock;
        let mut worker = 0;
        while worker < workers {
            worker += 1;
            greatest = self.workers.get(worker).clock.max(greatest);
        }
        greatest
    }

    fn may_save(&self, page: u64) -> bool
        ensures { (x : Rest self.now.settings) → result ≡ needs.may (opening self.now.settings x) (state_of self.now) (events.Event.Save page) }
    {
        !self.places.get(page).is_cold() && self.pages.get(page).number <= self.flushed_by_all()
    }

    fn may_post(&self, worker: u64, number: u64) -> bool
        ensures { (x : Rest self.now.settings) → result ≡ needs.may (opening self.now.settings x) (state_of self.now) (events.Event.Post worker number) }
    {
        number <= self.workers.get(worker).debt
    }

    fn may_refuse(&self, worker: u64, cause: u64, pages: u64) -> bool
        ensures { (x : Rest self.now.settings) → result ≡ needs.may (opening self.now.settings x) (state_of self.now) (events.Event.Refused worker cause pages) }
    {
        cause != 4 || self.free_pages() < pages
    }

    fn free_pages(&self) -> u64
        ensures { result ≡ count_below self.now.settings.pages (λ p. not (page_of (at self.now.pages p)).node.live && not (states.is_hot ((state_of self.now).place p))) }
    {
        let mut free = 0;
        for page in 0..self.settings.pages {
            if !self.pages.get(page).node.live && !self.is_hot(page) {
                free += 1;
            }
        }
        free
    }

    /// Whether an event may happen.
    pub fn may(&self, event: &Event) -> bool
        ensures { (x : Rest self.now.settings) → result ≡ needs.may (opening self.now.settings x) (state_of self.now) (event_of event.now) }
    {
        match *event {
            Event::Enter { worker, epoch } => self.may_enter(worker, epoch),
            Event::Begin { worker, flushed } => self.may_begin(worker, flushed),
            Event::Lock { worker, row, mode } => self.may_lock(worker, row, mode),
            Event::Read {
                worker,
                page,
                key,
                answer,
            } => self.may_read(worker, page, key, answer),
            Event::Next {
                worker,
                page,
                key,
                answer,
            } => self.may_follow(worker, page, key, answer),
            Event::Peek {
                worker,
                page,
                key,
                answer,
            } => self.may_peek(worker, page, key, answer),
            Event::Change {
                worker,
                page,
                key,
                word,
            } => self.may_change(worker, page, key, word),
            Event::PutBack { worker, page } => self.may_put_back(worker, page),
            Event::Split {
                worker,
                left,
                right,
                parent,
                place,
            } => self.may_split(worker, left, right, parent, place),
            Event::Lift { worker, child } => self.may_lift(worker, child),
            Event::Join {
                worker,
                left,
                right,
                parent,
            } => self.may_join(worker, left, right, parent),
            Event::Drop { worker, child } => self.may_drop(worker, child),
            Event::Purge {
                worker,
                page,
                ref keys,
            } => self.may_purge(worker, page, keys),
            Event::End {
                worker,
                commit,
                flushed,
            } => self.may_end(worker, commit, flushed),
            Event::Unlock { worker, row } => self.may_unlock(worker, row),
            Event::Flush { worker, number } => self.may_flush(worker, number),
            Event::Sync { number } => self.may_sync(number),
            Event::Post { worker, number } => self.may_post(worker, number),
            Event::Fetch { page, ref pairs } => self.may_fetch(page, pairs),
            Event::Load { page, frame } => self.may_load(page, frame),
            Event::Cool { page } => self.may_cool(page),
            Event::Rescue { page } => self.may_rescue(page),
            Event::Save { page } => self.may_save(page),
            Event::Evict { page } => self.may_evict(page),
            Event::Leave { worker } => self.is_inside(worker),
            Event::Cut { number, .. } => self.may_cut(number),
            Event::Refused {
                worker,
                cause,
                pages,
            } => self.may_refuse(worker, cause, pages),
            Event::Tick | Event::Ask { .. } | Event::Miss { .. } => true,
        }
    }
}

fn has_none(changes: &[Entry]) -> bool
    ensures { result ≡ is_empty (entries_of changes.now) }
{
    changes.is_empty()
}

// The least of the numbers at 1 to `logs`, and the number at 1 where there are none.
fn least_of(flushed: &Table<u64>, logs: u64) -> u64
    ensures { result ≡ least (at flushed.now) logs }
{
    let mut least = *flushed.get(1);
    let mut log = 0;
    while log < logs {
        log += 1;
        least = (*flushed.get(log)).min(least);
    }
    least
}
