// A plain map of sessions: what each has changed, the keys that it holds, and the commits of a run, with what each held and wrote.
use crate::runs::MEMORY;
use map_model::Call;
use std::alloc::{AllocError, Global};
use std::collections::BTreeMap;
use std::process::Abort;

/// How many sessions there are.
pub(crate) const SESSIONS: u32 = 3;

/// Each session has a key of its own behind this one. Each of its transactions puts its number there first, by which it is known what a crash has kept.
pub(crate) const WITNESS: u64 = 9_000_000;

// How many transactions of a session a run has at most.
const MOST: u64 = 1000;

/// How many lock rows there are. Keys that leave the same rest share one.
pub(crate) const ROWS: u64 = 4096;

// How many pairs a scan tells.
const PAIRS: u64 = 64;

// How many entries a leaf has room for.
const ROOM: u64 = 60;

// A key that a session holds until its transaction ends, alone or beside others that read it; or perhaps holds, since it is not sure that a scan met it.
#[derive(Clone, Copy)]
struct Held {
    session: u32,
    key: u64,
    is_alone: bool,
    is_sure: bool,
}

// An entry that a scan meets, surely or perhaps, and its value.
#[derive(Clone, Copy)]
struct Entry {
    key: u64,
    value: Option<u64>,
    is_sure: bool,
}

/// What a run begins on: a map, and the keys that have an entry in the tree. Each key of the map has one, and so has each that was ever written, but where a crash
/// lost what wrote it, or it was deleted and a put or a del may have taken its tombstone out of its leaf, it is not sure that it has.
#[derive(Drop)]
pub(crate) struct Left {
    pub map: BTreeMap<u64, u64>,
    pub entries: BTreeMap<u64, bool>,
}

// A change of a session: its key, and the value before.
#[derive(Clone, Copy)]
struct Change {
    session: u32,
    key: u64,
    was: Option<u64>,
}

/// What a commit wrote.
#[derive(Clone, Copy)]
pub(crate) struct Write {
    pub key: u64,
    pub value: Option<u64>,
}

/// A commit: of which session, the number of its transaction, the keys that it held, and what it wrote.
#[derive(Drop)]
pub(crate) struct Commit {
    pub session: u32,
    pub number: u64,
    pub held: Vec<u64>,
    pub writes: Vec<Write>,
}

// Whether its transaction is open, and how many it has begun in this run.
#[derive(Clone, Copy)]
struct Session {
    is_open: bool,
    begun: u64,
}

const NEW: Session = Session {
    is_open: false,
    begun: 0,
};

/// A line, and the one that tells the commit durable, if it answers a commit. One that ends in a space goes on with a number.
#[derive(Drop)]
pub(crate) struct Wanted {
    pub line: String,
    pub durable: Option<String>,
}

/// The map as the sessions see it, the keys with an entry, what the sessions have changed, the newest last, what they hold, and the commits of this run.
#[derive(Drop)]
pub(crate) struct Plain {
    pub alloc: Global,
    pub map: BTreeMap<u64, u64>,
    pub entries: BTreeMap<u64, bool>,
    // The keys whose tombstones a put or a del of this run may have taken out of their leaves.
    gone: BTreeMap<u64, bool>,
    changes: Vec<Change>,
    held: Vec<Held>,
    sessions: [Session; 3],
    pub commits: Vec<Commit>,
    // The number of the run.
    pub run: u64,
    pub text: String,
    pub wanted: Vec<Wanted>,
}

/// Gives a key a value, or takes it away.
pub(crate) fn set(
    map: &mut BTreeMap<u64, u64>,
    key: u64,
    value: Option<u64>,
) -> Result<(), AllocError> {
    match value {
        Some(value) => map.insert(key, value)?,
        None => map.remove(&key),
    };
    Ok(())
}

/// A copy of a map.
pub(crate) fn copied(
    alloc: Global,
    map: &BTreeMap<u64, u64>,
) -> Result<BTreeMap<u64, u64>, AllocError> {
    let mut copy = BTreeMap::new(alloc);
    for (key, value) in map {
        copy.insert(*key, *value)?;
    }
    Ok(copy)
}

impl Left {
    /// A map, and no entry else.
    pub(crate) fn of(alloc: Global, map: BTreeMap<u64, u64>) -> Result<Left, AllocError> {
        let mut entries = BTreeMap::new(alloc);
        for (key, _) in &map {
            entries.insert(*key, true)?;
        }
        Ok(Left { map, entries })
    }

    /// The entries, with those that a run wrote: surely the keys of these commits, and perhaps its others.
    pub(crate) fn entries_behind(
        &self,
        plain: &Plain,
        is_kept: &[bool],
    ) -> Result<BTreeMap<u64, bool>, AllocError> {
        let mut entries = BTreeMap::new(plain.alloc);
        for (key, is_sure) in &self.entries {
            entries.insert(*key, *is_sure)?;
        }
        for (place, commit) in plain.commits.iter().enumerate() {
            if is_kept.get(place).copied().unwrap_or(false) {
                for write in &commit.writes {
                    entries.insert(write.key, true)?;
                }
            }
        }
        for (key, _) in &plain.entries {
            if entries.get(key).is_none() {
                entries.insert(*key, false)?;
            }
        }
        for (key, _) in &plain.gone {
            entries.insert(*key, false)?;
        }
        Ok(entries)
    }
}

impl Plain {
    /// A run begins on what was left.
    pub(crate) fn new(alloc: Global, left: &Left, run: u64) -> Result<Plain, AllocError> {
        let mut entries = BTreeMap::new(alloc);
        for (key, is_sure) in &left.entries {
            entries.insert(*key, *is_sure)?;
        }
        Ok(Plain {
            alloc,
            map: copied(alloc, &left.map)?,
            entries,
            gone: BTreeMap::new(alloc),
            changes: Vec::new(alloc),
            held: Vec::new(alloc),
            sessions: [NEW; 3],
            commits: Vec::new(alloc),
            run,
            text: String::new(alloc),
            wanted: Vec::new(alloc),
        })
    }

    fn session(&self, session: u32) -> Session {
        match self.sessions.get(session.saturating_sub(1) as usize) {
            Some(found) => *found,
            None => NEW,
        }
    }

    fn set_session(&mut self, session: u32, to: Session) {
        if let Some(found) = self.sessions.get_mut(session.saturating_sub(1) as usize) {
            *found = to;
        }
    }

    /// Whether its transaction is open.
    pub(crate) fn is_open(&self, session: u32) -> bool {
        self.session(session).is_open
    }

    /// What a transaction of this number puts at the key of its session.
    pub(crate) fn mark(&self, number: u64) -> u64 {
        self.run.saturating_mul(MOST).saturating_add(number)
    }

    // The session that stands in the way: of those that read, the least.
    fn holder(&self, session: u32, key: u64, is_alone: bool) -> Option<u32> {
        let mut least = None;
        for held in &self.held {
            let is_same = held.key % ROWS == key % ROWS;
            let hinders = is_same && held.session != session && (is_alone || held.is_alone);
            if hinders {
                least = match least {
                    Some(other) if other < held.session => Some(other),
                    _ => Some(held.session),
                };
            }
        }
        least
    }

    // How many changes the session's transaction has made.
    fn count(&self, session: u32) -> usize {
        let mut count = 0usize;
        for change in &self.changes {
            if change.session == session {
                count = count.saturating_add(1);
            }
        }
        count
    }

    // The transaction of a session ends: what it changed is put back, the newest first, or stays.
    fn end<R: Abort>(&mut self, rt: &R, session: u32, is_undone: bool) {
        let mut others = Vec::new(self.alloc);
        for _ in 0..self.changes.len() {
            if let Some(change) = self.changes.pop() {
                if change.session != session {
                    others.push(change).expect(rt, MEMORY);
                } else if is_undone {
                    set(&mut self.map, change.key, change.was).expect(rt, MEMORY);
                }
            }
        }
        for _ in 0..others.len() {
            if let Some(change) = others.pop() {
                self.changes.push(change).expect(rt, MEMORY);
            }
        }
        let mut held = Vec::new(self.alloc);
        for one in &self.held {
            if one.session != session {
                held.push(*one).expect(rt, MEMORY);
            }
        }
        self.held = held;
        let begun = self.session(session).begun;
        let is_open = false;
        self.set_session(session, Session { is_open, begun });
    }

    fn want<R: Abort>(&mut self, rt: &R, line: String, durable: Option<String>) {
        self.wanted
            .push(Wanted { line, durable })
            .expect(rt, MEMORY);
    }

    // A line of a session, of words alone.
    fn want_words<R: Abort>(&mut self, rt: &R, session: u32, words: &str) {
        let line = format!(in self.alloc; "{session} {words}").expect(rt, MEMORY);
        self.want(rt, line, None);
    }

    // A word and a value; none where there is no value.
    fn want_value<R: Abort>(&mut self, rt: &R, session: u32, word: &str, value: Option<u64>) {
        let line = match value {
            Some(value) => format!(in self.alloc; "{session} {word}{value}"),
            None => format!(in self.alloc; "{session} {word}none"),
        }
        .expect(rt, MEMORY);
        self.want(rt, line, None);
    }

    // A word and the number of the session's newest transaction.
    fn want_number<R: Abort>(&mut self, rt: &R, session: u32, word: &str) {
        let number = self.session(session).begun;
        let line = format!(in self.alloc; "{session} {word} {session}.{number}").expect(rt, MEMORY);
        self.want(rt, line, None);
    }

    // Whether another session holds the key: then the transaction is aborted. Else this one holds it.
    fn is_hindered<R: Abort>(
        &mut self,
        rt: &R,
        session: u32,
        key: u64,
        is_alone: bool,
        is_sure: bool,
    ) -> bool {
        match self.holder(session, key, is_alone) {
            Some(other) => {
                let line = format!(in self.alloc; "{session} conflict {other}").expect(rt, MEMORY);
                self.want(rt, line, None);
                self.end(rt, session, true);
                self.want_number(rt, session, "aborted");
                true
            }
            None => {
                let held = Held {
                    session,
                    key,
                    is_alone,
                    is_sure,
                };
                self.held.push(held).expect(rt, MEMORY);
                false
            }
        }
    }

    fn begin<R: Abort>(&mut self, rt: &R, session: u32) {
        let Session { is_open, begun } = self.session(session);
        if is_open {
            self.want_words(rt, session, "in-transaction");
            return;
        }
        let begun = begun.saturating_add(1);
        let is_open = true;
        self.set_session(session, Session { is_open, begun });
        self.want_number(rt, session, "begun");
    }

    fn get<R: Abort>(&mut self, rt: &R, session: u32, key: u64) {
        if self.is_hindered(rt, session, key, false, true) {
            return;
        }
        let value = self.map.get(&key).copied();
        let word = if value.is_some() { "value " } else { "" };
        self.want_value(rt, session, word, value);
    }

    // Whether a session surely holds the key's row.
    fn is_held(&self, key: u64) -> bool {
        for held in &self.held {
            if held.is_sure && held.key % ROWS == key % ROWS {
                return true;
            }
        }
        false
    }

    // Whether an entry lacks a value, and nobody surely holds its row: its tombstone may go.
    fn may_go(&self, key: u64) -> bool {
        self.map.get(&key).is_none() && !self.is_held(key)
    }

    // The entries beside a key's that may go with a put or a del of it: so many sure ones lie between at most, since its leaf has room for no more.
    fn going_beside(&self, key: u64) -> Result<Vec<u64>, AllocError> {
        let mut going = Vec::new(self.alloc);
        let mut between = 0u64;
        for (other, is_sure) in self.entries.range(..key).rev() {
            if between >= ROOM {
                break;
            }
            if self.may_go(*other) {
                going.push(*other)?;
            } else if *is_sure {
                between = between.saturating_add(1);
            }
        }
        between = 0;
        for (other, is_sure) in self.entries.range(key..) {
            if between >= ROOM {
                break;
            }
            if self.may_go(*other) {
                going.push(*other)?;
            } else if *is_sure {
                between = between.saturating_add(1);
            }
        }
        Ok(going)
    }

    // A key that is written has an entry. Where it had none, its leaf may have been full, and where it is deleted, thin: then tombstones went that nobody can need.
    fn note_entry(&mut self, key: u64, is_deleted: bool) -> Result<(), AllocError> {
        if is_deleted || self.entries.get(&key).copied() != Some(true) {
            for other in &self.going_beside(key)? {
                self.entries.insert(*other, false)?;
                self.gone.insert(*other, true)?;
            }
        }
        self.entries.insert(key, true)?;
        Ok(())
    }

    // The entries that a scan meets, if no other session hinders it: up to the first pair that is not below its last key, or to the last pair that it tells. One above
    // its last key it meets where the leaf of that key has it, which is not known here.
    fn met_by<R: Abort>(&self, rt: &R, from: u64, to: u64) -> Vec<Entry> {
        let mut met = Vec::new(self.alloc);
        let mut pairs = 0u64;
        if from > to {
            return met;
        }
        for (key, is_sure) in self.entries.range(from..) {
            let entry = Entry {
                key: *key,
                value: self.map.get(key).copied(),
                is_sure: *is_sure && *key <= to,
            };
            met.push(entry).expect(rt, MEMORY);
            if entry.value.is_some() {
                pairs = pairs.saturating_add(1);
                if *key >= to || pairs == PAIRS {
                    return met;
                }
            }
        }
        met
    }

    // It holds each entry that it meets, one without a value too.
    fn scan<R: Abort>(&mut self, rt: &R, session: u32, from: u64, to: u64) {
        let mut pairs = 0u64;
        let mut next = from;
        for entry in &self.met_by(rt, from, to) {
            let Entry {
                key,
                value,
                is_sure,
            } = *entry;
            if self.is_hindered(rt, session, key, false, is_sure) {
                return;
            }
            if let Some(value) = value {
                if key <= to {
                    let line = format!(in self.alloc; "{session} pair {key} {value}").expect(
                        rt, MEMORY,
                    );
                    self.want(rt, line, None);
                    pairs = pairs.saturating_add(1);
                    next = key.saturating_add(1);
                }
            }
        }
        if pairs == PAIRS && next <= to {
            let line = format!(in self.alloc; "{session} more {next}").expect(rt, MEMORY);
            self.want(rt, line, None);
        } else {
            self.want_words(rt, session, "end");
        }
    }

    // Whether a session perhaps holds the key's row, beside which another may not have it alone.
    fn is_perhaps_held(&self, session: u32, key: u64) -> bool {
        for held in &self.held {
            if !held.is_sure && held.session != session && held.key % ROWS == key % ROWS {
                return true;
            }
        }
        false
    }

    /// Whether what the call is answered hangs on an entry of which it is not sure that a scan meets it.
    pub(crate) fn is_doubtful<R: Abort>(&self, rt: &R, session: u32, call: Call) -> bool {
        match call {
            Call::Put { key, .. } | Call::Del { key } => self.is_perhaps_held(session, key),
            Call::Scan { from, to } => {
                for entry in &self.met_by(rt, from, to) {
                    if self.holder(session, entry.key, false).is_some() {
                        return !entry.is_sure;
                    }
                }
                false
            }
            _ => false,
        }
    }

    // A del of an absent key changes nothing.
    fn write<R: Abort>(&mut self, rt: &R, session: u32, key: u64, value: Option<u64>) {
        if self.count(session) >= 64 {
            self.want_words(rt, session, "too-long");
            return;
        }
        if self.is_hindered(rt, session, key, true, true) {
            return;
        }
        let was = self.map.get(&key).copied();
        if was.is_some() || value.is_some() {
            let change = Change { session, key, was };
            self.changes.push(change).expect(rt, MEMORY);
            self.note_entry(key, value.is_none()).expect(rt, MEMORY);
            set(&mut self.map, key, value).expect(rt, MEMORY);
        }
        self.want_value(rt, session, "was ", was);
    }

    // What the session's transaction surely holds, and what it has written by now.
    fn commit_of<R: Abort>(&self, rt: &R, session: u32) -> Commit {
        let mut held = Vec::new(self.alloc);
        for one in &self.held {
            if one.session == session && one.is_sure {
                held.push(one.key).expect(rt, MEMORY);
            }
        }
        let mut writes = Vec::new(self.alloc);
        for change in &self.changes {
            if change.session == session {
                let key = change.key;
                let value = self.map.get(&key).copied();
                writes.push(Write { key, value }).expect(rt, MEMORY);
            }
        }
        let number = self.session(session).begun;
        Commit {
            session,
            number,
            held,
            writes,
        }
    }

    // The number that a commit draws is left out.
    fn commit<R: Abort>(&mut self, rt: &R, session: u32) {
        let commit = self.commit_of(rt, session);
        self.commits.push(commit).expect(rt, MEMORY);
        self.end(rt, session, false);
        let number = self.session(session).begun;
        let line = format!(in self.alloc; "{session} committed {session}.{number} at ").expect(
            rt, MEMORY,
        );
        let durable = format!(in self.alloc; "{session} durable {session}.{number}").expect(
            rt, MEMORY,
        );
        self.want(rt, line, Some(durable));
    }

    // What is wanted of a line in a transaction.
    fn answer<R: Abort>(&mut self, rt: &R, session: u32, call: Call) {
        match call {
            Call::Get { key } => self.get(rt, session, key),
            Call::Put { key, value } => self.write(rt, session, key, Some(value)),
            Call::Del { key } => self.write(rt, session, key, None),
            Call::Scan { from, to } => self.scan(rt, session, from, to),
            Call::Commit => self.commit(rt, session),
            _ => {
                self.end(rt, session, true);
                self.want_number(rt, session, "aborted");
            }
        }
    }

    /// Adds a line to the script; behind a begin a put of the session's own key.
    pub(crate) fn add<R: Abort>(&mut self, rt: &R, session: u32, call: Call) {
        let alloc = self.alloc;
        let text = match call {
            Call::Get { key } => format!(in alloc; "{session} get {key}\n"),
            Call::Put { key, value } => format!(in alloc; "{session} put {key} {value}\n"),
            Call::Del { key } => format!(in alloc; "{session} del {key}\n"),
            Call::Scan { from, to } => format!(in alloc; "{session} scan {from} {to}\n"),
            Call::Commit => format!(in alloc; "{session} commit\n"),
            Call::Abort => format!(in alloc; "{session} abort\n"),
            _ => format!(in alloc; "{session} begin\n"),
        }
        .expect(rt, MEMORY);
        self.text.push_str(&text).expect(rt, MEMORY);
        if let Call::Begin = call {
            self.begin(rt, session);
        } else if self.is_open(session) {
            self.answer(rt, session, call);
        } else {
            self.want_words(rt, session, "no-transaction");
        }
    }

    /// Adds a begin of a session, and the put of its own key, if it is not doubtful how that is answered.
    pub(crate) fn add_begin<R: Abort>(&mut self, rt: &R, session: u32) {
        let key = WITNESS.saturating_add(u64::from(session));
        if self.is_perhaps_held(session, key) {
            return;
        }
        let is_new = !self.is_open(session);
        self.add(rt, session, Call::Begin);
        if is_new {
            let value = self.mark(self.session(session).begun);
            self.add(rt, session, Call::Put { key, value });
        }
    }

    /// Adds a sync.
    pub(crate) fn add_sync<R: Abort>(&mut self, rt: &R) {
        self.text.push_str("sync\n").expect(rt, MEMORY);
        let line = String::from_str(self.alloc, "synced ").expect(rt, MEMORY);
        self.want(rt, line, None);
    }
}
