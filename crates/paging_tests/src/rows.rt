// A script that prints the same in however many frames, and pages that are not to be had any more.
use crate::cases::expect;
use crate::flawed::FlawedDisk;
use crate::found::{number_behind, pairs_of};
use crate::plain::{Left, Plain, copied, set};
use crate::runs::{MEMORY, Open, at_rest, run_command, words_of};
use crate::scripts::{TREES, Tree, behind_first, count_met, grown};
use lean_disk::MemDisk;
use lean_shell::{Ended, MemSink, MemSource, run};
use map_model::Call;
use std::alloc::Global;
use std::process::Abort;
use std::str;
use std::sync::Wait;
use std::thread::Threads;

static FORMAT: [&str; 8] = [
    "lean",
    "format",
    "--workers",
    "1",
    "--pages",
    "512",
    "--blocks",
    "1024",
];

static FRAMES: [&str; 5] = ["32", "64", "100", "256", "4096"];

// The keys are 1 to this.
const KEYS: u64 = 6000;

// How many a transaction puts.
const PUTS: u64 = 60;

// How many pairs a scan tells.
const PAIRS: u64 = 64;

// Each key is put with its own number as its value, and then all are read in one transaction, and read again by scans, one behind another.
fn six_thousand<R: Abort>(rt: &R, alloc: Global) -> String {
    let mut text = String::new(alloc);
    for key in 1..=KEYS {
        if key % PUTS == 1 {
            text.push_str("1 begin\n").expect(rt, MEMORY);
        }
        let line = format!(in alloc; "1 put {key} {key}\n").expect(rt, MEMORY);
        text.push_str(&line).expect(rt, MEMORY);
        if key % PUTS == 0 {
            text.push_str("1 commit\n").expect(rt, MEMORY);
        }
    }
    text.push_str("1 begin\n").expect(rt, MEMORY);
    for key in 1..=KEYS {
        let line = format!(in alloc; "1 get {key}\n").expect(rt, MEMORY);
        text.push_str(&line).expect(rt, MEMORY);
    }
    for place in 0..=KEYS / PAIRS {
        let from = place.saturating_mul(PAIRS).saturating_add(1);
        let line = format!(in alloc; "1 scan {from} {KEYS}\n").expect(rt, MEMORY);
        text.push_str(&line).expect(rt, MEMORY);
    }
    text.push_str("1 commit\n").expect(rt, MEMORY);
    text
}

// Whether the line tells this key, and its own number as its value.
fn is_pair(line: &str, key: u64) -> bool {
    match line.rsplit_once(' ') {
        Some((_, value)) => {
            number_behind(line, "1 pair ") == Some(key) && number_behind(value, "") == Some(key)
        }
        None => false,
    }
}

// Whether each put found no value, each get found its key's number, and the scans met each key once, in rising order.
fn are_six_thousand(printed: &str) -> bool {
    let mut puts = 0u64;
    let mut gets = 0u64;
    let mut pairs = 0u64;
    for line in printed.lines() {
        if line.starts_with("1 pair ") {
            pairs = pairs.saturating_add(1);
            if !is_pair(line, pairs) {
                return false;
            }
        }
        if let Some(next) = number_behind(line, "1 more ") {
            if next != pairs.saturating_add(1) || pairs % PAIRS != 0 {
                return false;
            }
        }
        if line == "1 was none" {
            puts = puts.saturating_add(1);
        }
        if let Some(value) = number_behind(line, "1 value ") {
            gets = gets.saturating_add(1);
            if value != gets {
                return false;
            }
        }
    }
    puts == KEYS && gets == KEYS && pairs == KEYS
}

#[test]
fn six_thousand_keys_print_the_same_in_however_many_frames(rt: HostRuntime) {
    let alloc = rt.alloc();
    let text = six_thousand(&rt, alloc);
    let disk = MemDisk::new(alloc, 3).expect(&rt, MEMORY);
    let new = run_command(&rt, alloc, &FORMAT, "", disk).disk;
    let first = run_command(&rt, alloc, &["lean", "run"], &text, at_rest(&rt, &new));
    expect(
        &rt,
        "six thousand keys",
        first.status == 0 && are_six_thousand(first.printed()),
    );
    for frames in FRAMES {
        let command = ["lean", "run", "--frames", frames];
        let next = run_command(&rt, alloc, &command, &text, at_rest(&rt, &new));
        expect(
            &rt,
            frames,
            next.status == 0 && next.printed() == first.printed(),
        );
    }
}

// So many reads of pages behind the opening are given as they are; behind these the disk shows zeros.
const READS: [u64; 5] = [0, 1, 2, 9, 40];

// A put, and gets and scans of keys in leaves of their own.
fn gets_of<R: Abort>(rt: &R, alloc: Global, before: &Left) -> Plain {
    let mut plain = Plain::new(alloc, before, 1).expect(rt, MEMORY);
    plain.add(rt, 1, Call::Begin);
    plain.add(rt, 1, Call::Put { key: 2, value: 7 });
    plain.add(rt, 1, Call::Commit);
    plain.add(rt, 1, Call::Begin);
    for place in 1..60u64 {
        let key = place.saturating_mul(200);
        if place % 2 == 0 {
            plain.add(rt, 1, Call::Get { key });
        } else {
            let to = key.saturating_add(90);
            plain.add(rt, 1, Call::Scan { from: key, to });
        }
    }
    plain
}

// Status 7 and the page come at the first one that is read so, and behind that nothing; what was durable is there at the next run.
fn show_zeros<R: Threads + Wait + Sync + Abort>(
    rt: &R,
    alloc: Global,
    tree: &Tree,
    disk: &MemDisk,
    before: &Left,
    reads: u64,
) {
    let plain = gets_of(rt, alloc, before);
    let command = ["lean", "run", "--rows", "4096", "--frames", tree.frames];
    let words = words_of(rt, alloc, &command);
    let flawed = FlawedDisk::new(at_rest(rt, disk), tree.reads.saturating_add(reads));
    let text = plain.text.as_bytes();
    let mut source = MemSource::new(alloc, text, 4096).expect(rt, MEMORY);
    let mut sink = MemSink::new(alloc);
    let Ended {
        status,
        disk: left,
        front: _front,
    } = run(rt, alloc, &words, &mut source, &mut sink, flawed, &Open);
    let printed = str::from_utf8(sink.bytes()).unwrap_or("no text");
    expect(rt, "the status of a damaged page", status == 7);
    let (lines, last) = printed
        .trim_end()
        .rsplit_once('\n')
        .expect(rt, "the line of a damaged page");
    expect(
        rt,
        "the line of a damaged page",
        last.starts_with("lean: damaged area 1 place "),
    );
    let met = count_met(rt, alloc, behind_first(lines), &plain.wanted);
    expect(rt, "the lines before a damaged page", met.is_some());
    let mut map = copied(alloc, &before.map).expect(rt, MEMORY);
    if lines.contains("1 durable 1.1") {
        set(&mut map, 2, Some(7)).expect(rt, MEMORY);
    }
    let dump = run_command(rt, alloc, &["lean", "dump"], "", at_rest(rt, &left.disk));
    let pairs = pairs_of(rt, alloc, &map);
    expect(
        rt,
        "the map behind a damaged page",
        dump.status == 0 && dump.printed().ends_with(pairs.as_str()),
    );
}

#[test]
fn a_page_that_is_not_to_be_had_is_named(rt: HostRuntime) {
    let alloc = rt.alloc();
    let tree = TREES.get(0).expect(&rt, "a tree");
    let (disk, before) = grown(&rt, alloc, tree);
    for reads in READS {
        show_zeros(&rt, alloc, tree, &disk, &before, reads);
    }
}
