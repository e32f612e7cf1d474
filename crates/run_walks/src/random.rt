// Random lines of one session, run after run, against a plain map with a list of what to undo.
use crate::cases::expect;
use crate::runs::{MEMORY, at_rest, crashed, dumped, formatted, run_script};
use lean_disk::{Choice, MemDisk};
use map_model::Call;
use rand_core::utils::NextWord;
use rand_pcg::Pcg32;
use std::alloc::{AllocError, Global};
use std::collections::BTreeMap;
use std::process::Abort;
use std::sync::Wait;
use std::thread::Threads;

static LONG: [&str; 8] = [
    "lean",
    "format",
    "--workers",
    "1",
    "--pages",
    "16",
    "--blocks",
    "512",
];

// How many runs there are. Behind each the disk is crashed.
const RUNS: u64 = 50;

// How many lines each has.
const LINES: u32 = 400;

const KEYS: u32 = 12;

// How many changes a transaction makes.
const CHANGES: usize = 64;

// How many keys a scan asks for at most.
const RANGE: u32 = 16;

// A change: its key, and the value before.
#[derive(Clone, Copy)]
struct Change {
    key: u64,
    was: Option<u64>,
}

// The map as the session sees it, and what its transaction has changed, the newest last.
#[derive(Drop)]
struct Plain {
    map: BTreeMap<u64, u64>,
    changes: Vec<Change>,
    is_open: bool,
    // How many transactions were begun and committed in this run.
    begun: u64,
    committed: u64,
}

impl Plain {
    fn new(alloc: Global) -> Plain {
        Plain {
            map: BTreeMap::new(alloc),
            changes: Vec::new(alloc),
            is_open: false,
            begun: 0,
            committed: 0,
        }
    }

    fn value(&self, key: u64) -> Option<u64> {
        self.map.get(&key).copied()
    }

    fn set(&mut self, key: u64, value: Option<u64>) -> Result<(), AllocError> {
        match value {
            Some(value) => self.map.insert(key, value)?,
            None => self.map.remove(&key),
        };
        Ok(())
    }

    // Changes a key. The value before.
    fn change<R: Abort>(&mut self, rt: &R, key: u64, value: Option<u64>) -> Option<u64> {
        let was = self.value(key);
        self.changes.push(Change { key, was }).expect(rt, MEMORY);
        self.set(key, value).expect(rt, MEMORY);
        was
    }

    // Undoes the changes, the newest first.
    fn undo<R: Abort>(&mut self, rt: &R) {
        for _ in 0..self.changes.len() {
            if let Some(Change { key, was }) = self.changes.pop() {
                self.set(key, was).expect(rt, MEMORY);
            }
        }
        self.is_open = false;
    }
}

// A word and a value; none where there is no value.
fn value_line<R: Abort>(rt: &R, alloc: Global, word: &str, value: Option<u64>) -> String {
    match value {
        Some(value) => format!(in alloc; "1 {word}{value}"),
        None => format!(in alloc; "1 {word}none"),
    }
    .expect(rt, MEMORY)
}

fn line<R: Abort>(rt: &R, alloc: Global, text: &str) -> String {
    String::from_str(alloc, text).expect(rt, MEMORY)
}

// The text of a line.
fn text_of<R: Abort>(rt: &R, alloc: Global, call: Call) -> String {
    match call {
        Call::Get { key } => format!(in alloc; "1 get {key}\n").expect(rt, MEMORY),
        Call::Put { key, value } => format!(in alloc; "1 put {key} {value}\n").expect(rt, MEMORY),
        Call::Del { key } => format!(in alloc; "1 del {key}\n").expect(rt, MEMORY),
        Call::Scan { from, to } => format!(in alloc; "1 scan {from} {to}\n").expect(rt, MEMORY),
        Call::Commit => line(rt, alloc, "1 commit\n"),
        Call::Abort => line(rt, alloc, "1 abort\n"),
        _ => line(rt, alloc, "1 begin\n"),
    }
}

impl Plain {
    fn begin<R: Abort>(&mut self, rt: &R, alloc: Global) -> String {
        if self.is_open {
            return line(rt, alloc, "1 in-transaction");
        }
        self.is_open = true;
        self.begun = self.begun.saturating_add(1);
        let number = self.begun;
        format!(in alloc; "1 begun 1.{number}").expect(rt, MEMORY)
    }

    fn get<R: Abort>(&mut self, rt: &R, alloc: Global, key: u64) -> String {
        if !self.is_open {
            return line(rt, alloc, "1 no-transaction");
        }
        let value = self.value(key);
        let word = if value.is_some() { "value " } else { "" };
        value_line(rt, alloc, word, value)
    }

    // A del of an absent key changes nothing.
    fn write<R: Abort>(&mut self, rt: &R, alloc: Global, key: u64, value: Option<u64>) -> String {
        if !self.is_open {
            return line(rt, alloc, "1 no-transaction");
        }
        if self.changes.len() >= CHANGES {
            return line(rt, alloc, "1 too-long");
        }
        let was = self.value(key);
        if was.is_some() || value.is_some() {
            self.change(rt, key, value);
        }
        value_line(rt, alloc, "was ", was)
    }

    // The number that a commit draws is left out.
    fn commit<R: Abort>(&mut self, rt: &R, alloc: Global) -> String {
        if !self.is_open {
            return line(rt, alloc, "1 no-transaction");
        }
        self.is_open = false;
        self.changes.clear();
        self.committed = self.committed.saturating_add(1);
        let number = self.begun;
        format!(in alloc; "1 committed 1.{number} at ").expect(rt, MEMORY)
    }

    fn abort<R: Abort>(&mut self, rt: &R, alloc: Global) -> String {
        if !self.is_open {
            return line(rt, alloc, "1 no-transaction");
        }
        self.undo(rt);
        let number = self.begun;
        format!(in alloc; "1 aborted 1.{number}").expect(rt, MEMORY)
    }

    // What it answers to a scan: each pair from the first key to the last one. There are too few keys for a scan to stop.
    fn scan<R: Abort>(&self, rt: &R, alloc: Global, from: u64, to: u64, printed: &mut Vec<String>) {
        if !self.is_open {
            printed
                .push(line(rt, alloc, "1 no-transaction"))
                .expect(rt, MEMORY);
            return;
        }
        for (key, value) in &self.map {
            if from <= *key && *key <= to {
                let pair = format!(in alloc; "1 pair {key} {value}").expect(rt, MEMORY);
                printed.push(pair).expect(rt, MEMORY);
            }
        }
        printed.push(line(rt, alloc, "1 end")).expect(rt, MEMORY);
    }

    // What it answers to a line that has one answer.
    fn answer<R: Abort>(&mut self, rt: &R, alloc: Global, call: Call) -> String {
        match call {
            Call::Get { key } => self.get(rt, alloc, key),
            Call::Put { key, value } => self.write(rt, alloc, key, Some(value)),
            Call::Del { key } => self.write(rt, alloc, key, None),
            Call::Commit => self.commit(rt, alloc),
            Call::Abort => self.abort(rt, alloc),
            _ => self.begin(rt, alloc),
        }
    }

    // What a dump prints of it.
    fn pairs<R: Abort>(&self, rt: &R, alloc: Global) -> String {
        let mut lines = String::new(alloc);
        for (key, value) in &self.map {
            let line = format!(in alloc; "pair {key} {value}\n").expect(rt, MEMORY);
            lines.push_str(&line).expect(rt, MEMORY);
        }
        lines.push_str("end\n").expect(rt, MEMORY);
        lines
    }
}

// A scan from a key on, or from the one behind its last one.
fn any_scan(random: &mut Pcg32, from: u64) -> Call {
    let to = from
        .saturating_add(u64::from(random.next_word() % RANGE))
        .saturating_sub(1);
    Call::Scan { from, to }
}

// A line, of which so many in a hundred end a transaction.
fn any_call(random: &mut Pcg32, is_open: bool, ends: u32) -> Call {
    let key = u64::from(random.next_word() % KEYS);
    let value = u64::from(random.next_word() % 1000);
    let pick = random.next_word() % 100;
    if !is_open && pick < 80 {
        return Call::Begin;
    }
    if pick < ends {
        return if value < 500 {
            Call::Commit
        } else {
            Call::Abort
        };
    }
    match random.next_word() % 16 {
        0 => Call::Begin,
        1..=3 => Call::Get { key },
        4..=5 => any_scan(random, key),
        6..=10 => Call::Del { key },
        _ => Call::Put { key, value },
    }
}

// What a run tells first, but for a number: how many transactions were undone, of which the last one may have no record.
fn first_of<R: Abort>(rt: &R, alloc: Global, run: u64, winners: u64) -> String {
    format!(in alloc; "open {run} winners {winners} undone ").expect(rt, MEMORY)
}

// The lines of a run, and what each is answered. A line that ends in a space goes on with a number.
#[derive(Drop)]
struct Script {
    text: String,
    printed: Vec<String>,
}

fn script_of<R: Abort>(
    rt: &R,
    alloc: Global,
    random: &mut Pcg32,
    plain: &mut Plain,
    run: u64,
) -> Script {
    let winners = plain.committed;
    plain.begun = 0;
    plain.committed = 0;
    let first = first_of(rt, alloc, run, winners);
    let mut script = Script {
        text: String::new(alloc),
        printed: Vec::new(alloc),
    };
    script.printed.push(first).expect(rt, MEMORY);
    let ends = if run % 2 == 0 { 20 } else { 1 };
    for _ in 0..LINES {
        let call = any_call(random, plain.is_open, ends);
        let text = text_of(rt, alloc, call);
        script.text.push_str(&text).expect(rt, MEMORY);
        let before = plain.committed;
        if let Call::Scan { from, to } = call {
            plain.scan(rt, alloc, from, to, &mut script.printed);
        } else {
            let answer = plain.answer(rt, alloc, call);
            script.printed.push(answer).expect(rt, MEMORY);
        }
        if plain.committed > before {
            let number = plain.begun;
            let durable = format!(in alloc; "1 durable 1.{number}").expect(rt, MEMORY);
            script.printed.push(durable).expect(rt, MEMORY);
        }
    }
    script
}

// Whether a run printed these lines.
fn is_printed(printed: &str, wanted: &[String]) -> bool {
    let mut lines = printed.lines();
    for want in wanted {
        let Some(line) = lines.next() else {
            return false;
        };
        let is_met = if want.ends_with(' ') {
            line.starts_with(want.as_str())
        } else {
            line == want.as_str()
        };
        if !is_met {
            return false;
        }
    }
    lines.next().is_none()
}

fn any_choice(random: &mut Pcg32) -> Choice {
    match random.next_word() % 4 {
        0 => Choice::NoBytes,
        1 => Choice::FirstHalf,
        2 => Choice::Zeros,
        _ => Choice::AllBytes,
    }
}

#[test]
fn random_lines_are_answered_as_by_a_plain_map(rt: HostRuntime) {
    let alloc = rt.alloc();
    let mut random = Pcg32::new(17, 4);
    let mut plain = Plain::new(alloc);
    let mut disk = formatted(&rt, alloc, &LONG);
    for run in 1..=RUNS {
        let script = script_of(&rt, alloc, &mut random, &mut plain, run);
        let done = run_script(&rt, alloc, script.text.as_str(), disk);
        let is_met = done.status == 0 && is_printed(done.printed(), &script.printed);
        expect(&rt, "the lines of a run", is_met);
        // What was not committed is undone.
        plain.undo(&rt);
        disk = crashed(&rt, &done.disk, done.disk.moment(), any_choice(&mut random));
        let opened = run_script(&rt, alloc, "", at_rest(&rt, &disk));
        let first = first_of(&rt, alloc, run.saturating_add(1), plain.committed);
        let is_met = opened.printed().starts_with(first.as_str());
        expect(&rt, "the first line behind a run", is_met);
        let pairs = plain.pairs(&rt, alloc);
        dumped(
            &rt,
            alloc,
            "the map behind a run",
            at_rest(&rt, &disk),
            opened.printed(),
            &pairs,
        );
    }
}
