// Runs of the program on a disk in memory. Memory that is refused ends the test.
use crate::sinks::TimedSink;
use lean_disk::{Choice, MemDisk};
use lean_shell::{Ended, Gate, MemSource, run};
use rand_core::utils::NextWord;
use rand_pcg::Pcg32;
use std::alloc::Global;
use std::process::Abort;
use std::str;
use std::sync::Wait;
use std::thread::Threads;

/// What refused memory is called.
pub(crate) const MEMORY: &str = "memory";

// The areas of a disk of sixteen sessions.
const AREAS: u32 = 18;

/// Holds no worker.
pub(crate) struct Open;

impl Gate for Open {
    fn pass(&self, _: u32, _: u64) {}

    fn answered(&self, _: u32, _: u64) {}
}

/// A status, a disk, and what was printed, with the moment of each line.
#[derive(Drop)]
pub(crate) struct Outcome {
    pub status: u8,
    pub disk: MemDisk,
    pub sink: TimedSink,
}

impl Outcome {
    pub(crate) fn printed(&self) -> &str {
        str::from_utf8(self.sink.sink.bytes()).unwrap_or("no text")
    }
}

/// The words of a command.
pub(crate) fn words_of<R: Abort>(rt: &R, alloc: Global, command: &[&str]) -> Vec<String> {
    let mut words = Vec::new(alloc);
    for word in command {
        let copy = String::from_str(alloc, word).expect(rt, MEMORY);
        words.push(copy).expect(rt, MEMORY);
    }
    words
}

/// Runs a command that reads this text.
pub(crate) fn run_command<R: Threads + Wait + Sync + Abort>(
    rt: &R,
    alloc: Global,
    command: &[&str],
    text: &str,
    disk: MemDisk,
) -> Outcome {
    let words = words_of(rt, alloc, command);
    let mut source = MemSource::new(alloc, text.as_bytes(), 4096).expect(rt, MEMORY);
    let mut sink = TimedSink::new(alloc);
    let Ended {
        status,
        disk,
        front: _front,
    } = run(rt, alloc, &words, &mut source, &mut sink, disk, &Open);
    Outcome { status, disk, sink }
}

/// A crash: at this moment, and of each area by one of two choices: the other one where its bit is set.
#[derive(Clone, Copy)]
pub(crate) struct Crash {
    pub moment: u64,
    pub one: Choice,
    pub other: Choice,
    pub mask: u32,
}

/// What it leaves.
pub(crate) fn crashed<R: Abort>(rt: &R, alloc: Global, disk: &MemDisk, crash: &Crash) -> MemDisk {
    let first = disk.crash(crash.moment, crash.one).expect(rt, MEMORY);
    let second = disk.crash(crash.moment, crash.other).expect(rt, MEMORY);
    let mut areas = Vec::new(alloc);
    for area in 0..AREAS {
        let left = if crash.mask >> area & 1 == 1 {
            &second
        } else {
            &first
        };
        let bytes = left.bytes(area).to_vec(alloc).expect(rt, MEMORY);
        areas.push(bytes).expect(rt, MEMORY);
    }
    assert!(rt; areas.len() > 0);
    MemDisk::from_areas(alloc, areas).expect(rt, MEMORY)
}

/// What is on a disk, on which no call was made yet.
pub(crate) fn at_rest<R: Abort>(rt: &R, disk: &MemDisk) -> MemDisk {
    disk.crash(disk.moment(), Choice::AllBytes)
        .expect(rt, MEMORY)
}

/// The disk that a format makes.
pub(crate) fn formatted<R: Threads + Wait + Sync + Abort>(
    rt: &R,
    alloc: Global,
    pages: &str,
    blocks: &str,
) -> MemDisk {
    let command = [
        "lean",
        "format",
        "--workers",
        "3",
        "--pages",
        pages,
        "--blocks",
        blocks,
    ];
    let disk = MemDisk::new(alloc, AREAS).expect(rt, MEMORY);
    at_rest(rt, &run_command(rt, alloc, &command, "", disk).disk)
}

/// A number below a bound.
pub(crate) fn any_below(random: &mut Pcg32, bound: u64) -> u64 {
    if bound == 0 {
        return 0;
    }
    u64::from(random.next_word()) % bound
}

fn any_choice(random: &mut Pcg32) -> Choice {
    match random.next_word() % 4 {
        0 => Choice::NoBytes,
        1 => Choice::FirstHalf,
        2 => Choice::Zeros,
        _ => Choice::AllBytes,
    }
}

/// A crash at a moment from the first to the last of these.
pub(crate) fn any_crash(random: &mut Pcg32, first: u64, last: u64) -> Crash {
    let many = last.saturating_sub(first).saturating_add(1);
    Crash {
        moment: first.saturating_add(any_below(random, many)),
        one: any_choice(random),
        other: any_choice(random),
        mask: random.next_word(),
    }
}
