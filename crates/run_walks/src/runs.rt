// Runs of the program on a disk in memory. Memory that is refused ends the test.
use crate::cases::expect;
use lean_disk::{Choice, MemDisk};
use lean_shell::{Ended, Gate, MemSink, MemSource, run};
use std::alloc::Global;
use std::process::Abort;
use std::str;
use std::sync::Wait;
use std::thread::Threads;

pub(crate) static RUN: [&str; 2] = ["lean", "run"];

static DUMP: [&str; 2] = ["lean", "dump"];

// The areas of a disk of sixteen sessions.
const AREAS: u32 = 18;

/// What refused memory is called.
pub(crate) const MEMORY: &str = "memory";

// Holds no worker.
struct Open;

impl Gate for Open {
    fn pass(&self, _: u32, _: u64) {}

    fn answered(&self, _: u32, _: u64) {}
}

/// A status, a disk, and what was printed.
#[derive(Drop)]
pub(crate) struct Outcome {
    pub status: u8,
    pub disk: MemDisk,
    pub sink: MemSink,
}

impl Outcome {
    pub(crate) fn printed(&self) -> &str {
        str::from_utf8(self.sink.bytes()).unwrap_or("no text")
    }
}

// Copies of texts.
fn copies_of<R: Abort>(rt: &R, alloc: Global, texts: &[&str]) -> Vec<String> {
    let mut copies = Vec::new(alloc);
    for text in texts {
        let copy = String::from_str(alloc, text).expect(rt, MEMORY);
        copies.push(copy).expect(rt, MEMORY);
    }
    copies
}

/// Runs a command that reads this text.
pub(crate) fn run_command<R: Threads + Wait + Sync + Abort>(
    rt: &R,
    alloc: Global,
    command: &[&str],
    text: &str,
    disk: MemDisk,
) -> Outcome {
    let words = copies_of(rt, alloc, command);
    let mut source = MemSource::new(alloc, text.as_bytes(), 7).expect(rt, MEMORY);
    let mut sink = MemSink::new(alloc);
    let Ended {
        status,
        disk,
        front: _front,
    } = run(rt, alloc, &words, &mut source, &mut sink, disk, &Open);
    Outcome { status, disk, sink }
}

/// Runs a script.
pub(crate) fn run_script<R: Threads + Wait + Sync + Abort>(
    rt: &R,
    alloc: Global,
    text: &str,
    disk: MemDisk,
) -> Outcome {
    run_command(rt, alloc, &RUN, text, disk)
}

pub(crate) fn crashed<R: Abort>(rt: &R, disk: &MemDisk, moment: u64, choice: Choice) -> MemDisk {
    disk.crash(moment, choice).expect(rt, MEMORY)
}

/// The disk that a crash leaves by two choices: an area's is the other one where its bit is set.
pub(crate) fn crashed_apart<R: Abort>(
    rt: &R,
    alloc: Global,
    disk: &MemDisk,
    moment: u64,
    one: Choice,
    other: Choice,
    mask: u32,
) -> MemDisk {
    let first = crashed(rt, disk, moment, one);
    let second = crashed(rt, disk, moment, other);
    let mut areas = Vec::new(alloc);
    for area in 0..AREAS {
        let left = if mask >> area & 1 == 1 {
            &second
        } else {
            &first
        };
        let bytes = left.bytes(area).to_vec(alloc).expect(rt, MEMORY);
        areas.push(bytes).expect(rt, MEMORY);
    }
    assert!(rt; areas.len() > 0);
    MemDisk::from_areas(alloc, areas).expect(rt, MEMORY)
}

/// What is on a disk, on which no call was made yet.
pub(crate) fn at_rest<R: Abort>(rt: &R, disk: &MemDisk) -> MemDisk {
    crashed(rt, disk, disk.moment(), Choice::AllBytes)
}

/// The disk that a format makes, for any number of sessions.
pub(crate) fn formatted<R: Threads + Wait + Sync + Abort>(
    rt: &R,
    alloc: Global,
    command: &[&str],
) -> MemDisk {
    let disk = MemDisk::new(alloc, AREAS).expect(rt, MEMORY);
    at_rest(rt, &run_command(rt, alloc, command, "", disk).disk)
}

/// Ends the test where a dump does not print this first line, of its opening, and then these lines. What it leaves.
pub(crate) fn dumped<R: Threads + Wait + Sync + Abort>(
    rt: &R,
    alloc: Global,
    name: &str,
    disk: MemDisk,
    opened: &str,
    lines: &str,
) -> MemDisk {
    let done = run_command(rt, alloc, &DUMP, "", disk);
    let is_met = done.status == 0 && done.printed().strip_prefix(opened) == Some(lines);
    expect(rt, name, is_met);
    done.disk
}
