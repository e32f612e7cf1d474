// Random lines of several sessions, run after run, against a plain map with a list of what to undo and the keys that sessions hold.
use crate::cases::expect;
use crate::runs::{MEMORY, crashed, dumped, formatted, run_command};
use lean_disk::{Choice, MemDisk};
use map_model::Call;
use rand_core::utils::NextWord;
use rand_pcg::Pcg32;
use std::alloc::{AllocError, Global};
use std::collections::{BTreeMap, BTreeSet};
use std::process::Abort;

static THREE: [&str; 8] = [
    "lean",
    "format",
    "--workers",
    "3",
    "--pages",
    "16",
    "--blocks",
    "64",
];

// How many commits of a session are flushed at once.
static GROUPS: [[&str; 4]; 3] = [
    ["lean", "run", "--group", "1"],
    ["lean", "run", "--group", "2"],
    ["lean", "run", "--group", "64"],
];

// How many scripts there are. Behind each the disk is crashed.
const SCRIPTS: u64 = 1000;

// How many lines each has before its last one, which is a sync.
const LINES: u32 = 30;

const SESSIONS: u32 = 3;

const KEYS: u32 = 8;

// A key that a session holds until its transaction ends, alone or beside others that read it.
#[derive(Clone, Copy)]
struct Held {
    session: u32,
    key: u64,
    is_alone: bool,
}

// A change of a session: its key, and the value before.
#[derive(Clone, Copy)]
struct Change {
    session: u32,
    key: u64,
    was: Option<u64>,
}

// Whether its transaction is open, and how many it has begun in this run.
#[derive(Clone, Copy)]
struct Session {
    is_open: bool,
    begun: u64,
}

const NEW: Session = Session {
    is_open: false,
    begun: 0,
};

// A line, and the one that tells the commit durable, if it answers a commit. One that ends in a space goes on with a number.
#[derive(Drop)]
struct Wanted {
    line: String,
    durable: Option<String>,
}

// The map as the sessions see it, the keys that ever had a value, what the sessions have changed, the newest last, and what they hold.
#[derive(Drop)]
struct Plain {
    alloc: Global,
    map: BTreeMap<u64, u64>,
    entries: BTreeSet<u64>,
    changes: Vec<Change>,
    held: Vec<Held>,
    sessions: [Session; 3],
    // How many transactions were committed in this run.
    committed: u64,
    text: String,
    wanted: Vec<Wanted>,
}

fn line<R: Abort>(rt: &R, alloc: Global, text: &str) -> String {
    String::from_str(alloc, text).expect(rt, MEMORY)
}

// What a run tells first.
fn first_of<R: Abort>(rt: &R, alloc: Global, run: u64, winners: u64, undone: u64) -> String {
    format!(in alloc; "open {run} winners {winners} undone {undone}").expect(rt, MEMORY)
}

impl Plain {
    fn new(alloc: Global) -> Plain {
        Plain {
            alloc,
            map: BTreeMap::new(alloc),
            entries: BTreeSet::new(alloc),
            changes: Vec::new(alloc),
            held: Vec::new(alloc),
            sessions: [NEW; 3],
            committed: 0,
            text: String::new(alloc),
            wanted: Vec::new(alloc),
        }
    }

    fn session(&self, session: u32) -> Session {
        match self.sessions.get(session.saturating_sub(1) as usize) {
            Some(found) => *found,
            None => NEW,
        }
    }

    fn set_session(&mut self, session: u32, to: Session) {
        if let Some(found) = self.sessions.get_mut(session.saturating_sub(1) as usize) {
            *found = to;
        }
    }

    fn value(&self, key: u64) -> Option<u64> {
        self.map.get(&key).copied()
    }

    // A key that loses its value keeps its entry.
    fn set(&mut self, key: u64, value: Option<u64>) -> Result<(), AllocError> {
        self.entries.insert(key)?;
        match value {
            Some(value) => self.map.insert(key, value)?,
            None => self.map.remove(&key),
        };
        Ok(())
    }

    // Whether a session has changed something.
    fn has_changed(&self, session: u32) -> bool {
        for change in &self.changes {
            if change.session == session {
                return true;
            }
        }
        false
    }

    // The session that stands in the way: of those that read, the least.
    fn holder(&self, session: u32, key: u64, is_alone: bool) -> Option<u32> {
        let mut least = None;
        for held in &self.held {
            let hinders = held.key == key && held.session != session && (is_alone || held.is_alone);
            if hinders {
                least = match least {
                    Some(other) if other < held.session => Some(other),
                    _ => Some(held.session),
                };
            }
        }
        least
    }

    // The transaction of a session ends: what it changed is put back, the newest first, or stays.
    fn end<R: Abort>(&mut self, rt: &R, session: u32, is_undone: bool) {
        let mut others = Vec::new(self.alloc);
        for _ in 0..self.changes.len() {
            if let Some(change) = self.changes.pop() {
                if change.session != session {
                    others.push(change).expect(rt, MEMORY);
                } else if is_undone {
                    self.set(change.key, change.was).expect(rt, MEMORY);
                }
            }
        }
        for _ in 0..others.len() {
            if let Some(change) = others.pop() {
                self.changes.push(change).expect(rt, MEMORY);
            }
        }
        let mut held = Vec::new(self.alloc);
        for one in &self.held {
            if one.session != session {
                held.push(*one).expect(rt, MEMORY);
            }
        }
        self.held = held;
        let begun = self.session(session).begun;
        let is_open = false;
        self.set_session(session, Session { is_open, begun });
    }

    fn want<R: Abort>(&mut self, rt: &R, line: String) {
        let durable = None;
        self.wanted
            .push(Wanted { line, durable })
            .expect(rt, MEMORY);
    }

    // A line of a session, of words alone.
    fn want_words<R: Abort>(&mut self, rt: &R, session: u32, words: &str) {
        let line = format!(in self.alloc; "{session} {words}").expect(rt, MEMORY);
        self.want(rt, line);
    }

    // A word and a value; none where there is no value.
    fn want_value<R: Abort>(&mut self, rt: &R, session: u32, word: &str, value: Option<u64>) {
        let line = match value {
            Some(value) => format!(in self.alloc; "{session} {word}{value}"),
            None => format!(in self.alloc; "{session} {word}none"),
        }
        .expect(rt, MEMORY);
        self.want(rt, line);
    }

    // A word and the number of the session's newest transaction.
    fn want_number<R: Abort>(&mut self, rt: &R, session: u32, word: &str) {
        let number = self.session(session).begun;
        let line = format!(in self.alloc; "{session} {word} {session}.{number}").expect(rt, MEMORY);
        self.want(rt, line);
    }

    // Whether another session holds the key: then the transaction is aborted. Else this one holds it.
    fn is_hindered<R: Abort>(&mut self, rt: &R, session: u32, key: u64, is_alone: bool) -> bool {
        match self.holder(session, key, is_alone) {
            Some(other) => {
                let line = format!(in self.alloc; "{session} conflict {other}").expect(rt, MEMORY);
                self.want(rt, line);
                self.end(rt, session, true);
                self.want_number(rt, session, "aborted");
                true
            }
            None => {
                let held = Held {
                    session,
                    key,
                    is_alone,
                };
                self.held.push(held).expect(rt, MEMORY);
                false
            }
        }
    }

    fn begin<R: Abort>(&mut self, rt: &R, session: u32) {
        let Session { is_open, begun } = self.session(session);
        if is_open {
            self.want_words(rt, session, "in-transaction");
            return;
        }
        let begun = begun.saturating_add(1);
        let is_open = true;
        self.set_session(session, Session { is_open, begun });
        self.want_number(rt, session, "begun");
    }

    fn get<R: Abort>(&mut self, rt: &R, session: u32, key: u64) {
        if self.is_hindered(rt, session, key, false) {
            return;
        }
        let value = self.value(key);
        let word = if value.is_some() { "value " } else { "" };
        self.want_value(rt, session, word, value);
    }

    // The keys of the entries from a key on, in rising order.
    fn entries_from<R: Abort>(&self, rt: &R, from: u64) -> Vec<u64> {
        let mut keys = Vec::new(self.alloc);
        for key in &self.entries {
            if *key >= from {
                keys.push(*key).expect(rt, MEMORY);
            }
        }
        keys
    }

    // A scan holds the key of each entry that it meets, one without a value too, up to the first pair that is not below its last key. There are too
    // few keys for it to stop before.
    fn scan<R: Abort>(&mut self, rt: &R, session: u32, from: u64, to: u64) {
        if from <= to {
            for key in &self.entries_from(rt, from) {
                if self.is_hindered(rt, session, *key, false) {
                    return;
                }
                if let Some(value) = self.value(*key) {
                    if *key <= to {
                        let line = format!(in self.alloc; "{session} pair {key} {value}").expect(
                            rt, MEMORY,
                        );
                        self.want(rt, line);
                    }
                    if *key >= to {
                        break;
                    }
                }
            }
        }
        self.want_words(rt, session, "end");
    }

    // A del of an absent key changes nothing.
    fn write<R: Abort>(&mut self, rt: &R, session: u32, key: u64, value: Option<u64>) {
        if self.is_hindered(rt, session, key, true) {
            return;
        }
        let was = self.value(key);
        if was.is_some() || value.is_some() {
            let change = Change { session, key, was };
            self.changes.push(change).expect(rt, MEMORY);
            self.set(key, value).expect(rt, MEMORY);
        }
        self.want_value(rt, session, "was ", was);
    }

    // The number that a commit draws is left out.
    fn commit<R: Abort>(&mut self, rt: &R, session: u32) {
        self.end(rt, session, false);
        self.committed = self.committed.saturating_add(1);
        let number = self.session(session).begun;
        let line = format!(in self.alloc; "{session} committed {session}.{number} at ").expect(
            rt, MEMORY,
        );
        let durable = Some(format!(in self.alloc; "{session} durable {session}.{number}").expect(
            rt, MEMORY,
        ));
        self.wanted
            .push(Wanted { line, durable })
            .expect(rt, MEMORY);
    }

    // What is wanted of a line in a transaction.
    fn answer<R: Abort>(&mut self, rt: &R, session: u32, call: Call) {
        match call {
            Call::Get { key } => self.get(rt, session, key),
            Call::Put { key, value } => self.write(rt, session, key, Some(value)),
            Call::Del { key } => self.write(rt, session, key, None),
            Call::Scan { from, to } => self.scan(rt, session, from, to),
            Call::Commit => self.commit(rt, session),
            _ => {
                self.end(rt, session, true);
                self.want_number(rt, session, "aborted");
            }
        }
    }

    // Adds a line to the script.
    fn add<R: Abort>(&mut self, rt: &R, session: u32, call: Call) {
        let alloc = self.alloc;
        let text = match call {
            Call::Get { key } => format!(in alloc; "{session} get {key}\n"),
            Call::Put { key, value } => format!(in alloc; "{session} put {key} {value}\n"),
            Call::Del { key } => format!(in alloc; "{session} del {key}\n"),
            Call::Scan { from, to } => format!(in alloc; "{session} scan {from} {to}\n"),
            Call::Commit => format!(in alloc; "{session} commit\n"),
            Call::Abort => format!(in alloc; "{session} abort\n"),
            _ => format!(in alloc; "{session} begin\n"),
        }
        .expect(rt, MEMORY);
        self.text.push_str(&text).expect(rt, MEMORY);
        if let Call::Begin = call {
            self.begin(rt, session);
        } else if self.session(session).is_open {
            self.answer(rt, session, call);
        } else {
            self.want_words(rt, session, "no-transaction");
        }
    }

    fn add_sync<R: Abort>(&mut self, rt: &R) {
        self.text.push_str("sync\n").expect(rt, MEMORY);
        let line = line(rt, self.alloc, "synced ");
        self.want(rt, line);
    }

    // A run begins, behind one that left so many transactions undone.
    fn restart<R: Abort>(&mut self, rt: &R, run: u64, undone: u64) {
        let winners = self.committed;
        let first = first_of(rt, self.alloc, run, winners, undone);
        self.committed = 0;
        self.sessions = [NEW; 3];
        self.text = String::new(self.alloc);
        self.wanted = Vec::new(self.alloc);
        self.want(rt, first);
    }

    // It ends: each open transaction is undone. How many of these had changed something.
    fn stop<R: Abort>(&mut self, rt: &R) -> u64 {
        let mut undone = 0u64;
        for session in 1..=SESSIONS {
            if self.has_changed(session) {
                undone = undone.saturating_add(1);
            }
            self.end(rt, session, true);
        }
        undone
    }

    // What a dump prints of it.
    fn pairs<R: Abort>(&self, rt: &R) -> String {
        let mut lines = String::new(self.alloc);
        for (key, value) in &self.map {
            let line = format!(in self.alloc; "pair {key} {value}\n").expect(rt, MEMORY);
            lines.push_str(&line).expect(rt, MEMORY);
        }
        lines.push_str("end\n").expect(rt, MEMORY);
        lines
    }
}

// A scan of a few keys, or from a key above its last one.
fn any_scan(random: &mut Pcg32, from: u64) -> Call {
    let to = from
        .saturating_add(u64::from(random.next_word() % KEYS))
        .saturating_sub(1);
    Call::Scan { from, to }
}

// A line of a session.
fn any_call(random: &mut Pcg32, is_open: bool) -> Call {
    let key = u64::from(random.next_word() % KEYS);
    let value = u64::from(random.next_word() % 1000);
    let pick = random.next_word() % 16;
    if !is_open && pick < 15 {
        return Call::Begin;
    }
    match pick {
        0..=2 => Call::Get { key },
        3 => any_scan(random, key),
        4..=9 => Call::Put { key, value },
        10..=11 => Call::Del { key },
        12..=13 => Call::Commit,
        14 => Call::Abort,
        _ => Call::Begin,
    }
}

// A script: a sync in 24 lines, and one at the end.
fn add_lines<R: Abort>(rt: &R, random: &mut Pcg32, plain: &mut Plain) {
    for _ in 0..LINES {
        let pick = random.next_word();
        if pick % 24 == 0 {
            plain.add_sync(rt);
        } else {
            let session = pick % SESSIONS + 1;
            let call = any_call(random, plain.session(session).is_open);
            plain.add(rt, session, call);
        }
    }
    plain.add_sync(rt);
}

// Takes a durable line away from those that are due. Of each session the oldest comes first.
fn is_due<R: Abort>(rt: &R, alloc: Global, due: &mut Vec<String>, line: &str) -> bool {
    let mut rest = Vec::new(alloc);
    let mut is_found = false;
    let mut is_first = true;
    for one in due.as_slice() {
        if !is_found && one.as_str() == line {
            is_found = true;
        } else {
            is_first = is_first && (is_found || one.as_bytes().first() != line.as_bytes().first());
            let copy = String::from_str(alloc, one.as_str()).expect(rt, MEMORY);
            rest.push(copy).expect(rt, MEMORY);
        }
    }
    *due = rest;
    is_found && is_first
}

// Whether further lines answer the same call.
fn goes_on(line: &str) -> bool {
    line.contains(" pair ") || line.contains(" conflict ")
}

// Whether a run printed the lines that are wanted, and among them each commit durable once, behind its answer, and before the line behind
// the next sync; and none stands between the answers to one line.
fn is_printed<R: Abort>(rt: &R, alloc: Global, printed: &str, wanted: &[Wanted]) -> bool {
    let mut wants = wanted.iter();
    let mut due = Vec::new(alloc);
    let mut is_synced = false;
    let mut is_within = false;
    for line in printed.lines() {
        if line.contains(" durable ") {
            if is_within || !is_due(rt, alloc, &mut due, line) {
                return false;
            }
        } else {
            let Some(want) = wants.next() else {
                return false;
            };
            let text = want.line.as_str();
            let is_met = if text.ends_with(' ') {
                line.starts_with(text)
            } else {
                line == text
            };
            if !is_met || is_synced && due.len() > 0 {
                return false;
            }
            is_synced = line.starts_with("synced ");
            is_within = goes_on(line);
            if let Some(durable) = &want.durable {
                let copy = String::from_str(alloc, durable.as_str()).expect(rt, MEMORY);
                due.push(copy).expect(rt, MEMORY);
            }
        }
    }
    wants.next().is_none() && due.len() == 0
}

fn any_choice(random: &mut Pcg32) -> Choice {
    match random.next_word() % 4 {
        0 => Choice::NoBytes,
        1 => Choice::FirstHalf,
        2 => Choice::Zeros,
        _ => Choice::AllBytes,
    }
}

// Behind its sync a run is crashed, and what was committed is there.
#[test]
fn random_lines_of_several_sessions_are_answered_as_by_a_plain_map(rt: HostRuntime) {
    let alloc = rt.alloc();
    let mut random = Pcg32::new(29, 4);
    let mut plain = Plain::new(alloc);
    let mut disk = formatted(&rt, alloc, &THREE);
    let mut undone = 0;
    for run in 1..=SCRIPTS {
        plain.restart(&rt, run, undone);
        add_lines(&rt, &mut random, &mut plain);
        let group = GROUPS.get((run % 3) as usize).unwrap_or(&GROUPS[0]);
        let done = run_command(&rt, alloc, group, plain.text.as_str(), disk);
        let is_met = done.status == 0 && is_printed(&rt, alloc, done.printed(), &plain.wanted);
        expect(&rt, "the lines of a run", is_met);
        undone = plain.stop(&rt);
        disk = crashed(&rt, &done.disk, done.disk.moment(), any_choice(&mut random));
        let copy = crashed(&rt, &disk, disk.moment(), Choice::AllBytes);
        let pairs = plain.pairs(&rt);
        let first = first_of(&rt, alloc, run.saturating_add(1), plain.committed, undone);
        let opened = format!(in alloc; "{first}\n").expect(&rt, MEMORY);
        dumped(&rt, alloc, "the map behind a run", copy, &opened, &pairs);
    }
}
