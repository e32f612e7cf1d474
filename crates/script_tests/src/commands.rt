// Commands over a disk, a source and a sink in memory. Seals were computed by another SHA-256.
use crate::cases::expect;
use lean_disk::{Choice, MemDisk};
use lean_shell::{Ended, Gate, MemSink, MemSource, run};
use std::alloc::{AllocError, Global};
use std::sync::Wait;
use std::thread::Threads;

/// Sixteen pages, for what is done over and over.
pub(crate) const FORMAT: &str = "lean format --workers 1 --pages 16 --blocks 64";

pub(crate) const RUN: &str = "lean run";

/// Holds no worker.
pub(crate) struct Open;

impl Gate for Open {
    fn pass(&self, _: u32, _: u64) {}

    fn answered(&self, _: u32, _: u64) {}
}

/// The status, the disk and what was printed.
#[derive(Drop)]
pub(crate) struct Outcome {
    pub status: u8,
    pub disk: MemDisk,
    pub sink: MemSink,
}

/// The words of a command line.
pub(crate) fn words_of(alloc: Global, text: &str) -> Result<Vec<String>, AllocError> {
    let mut words = Vec::new(alloc);
    for word in text.split(' ') {
        words.push(String::from_str(alloc, word)?)?;
    }
    Ok(words)
}

/// Runs a command.
pub(crate) fn run_words<R: Threads + Wait + Sync>(
    rt: &R,
    alloc: Global,
    words: &str,
    disk: MemDisk,
    mut source: MemSource,
    mut sink: MemSink,
) -> Result<Outcome, AllocError> {
    let words = words_of(alloc, words)?;
    let Ended {
        status,
        disk,
        front: _front,
    } = run(rt, alloc, &words, &mut source, &mut sink, disk, &Open);
    Ok(Outcome { status, disk, sink })
}

/// Runs a command of these words that reads no script.
pub(crate) fn run_list<R: Threads + Wait + Sync>(
    rt: &R,
    alloc: Global,
    words: &[String],
    disk: MemDisk,
    mut sink: MemSink,
) -> Result<Outcome, AllocError> {
    let mut source = MemSource::new(alloc, b"", 1)?;
    let Ended {
        status,
        disk,
        front: _front,
    } = run(rt, alloc, words, &mut source, &mut sink, disk, &Open);
    Ok(Outcome { status, disk, sink })
}

/// Runs a command that reads no script, into this sink.
pub(crate) fn run_alone<R: Threads + Wait + Sync>(
    rt: &R,
    alloc: Global,
    words: &str,
    disk: MemDisk,
    sink: MemSink,
) -> Result<Outcome, AllocError> {
    run_words(rt, alloc, words, disk, MemSource::new(alloc, b"", 1)?, sink)
}

/// A formatted disk of 16 pages, on which no call was made yet.
pub(crate) fn formatted<R: Threads + Wait + Sync>(
    rt: &R,
    alloc: Global,
) -> Result<MemDisk, AllocError> {
    let disk = MemDisk::new(alloc, 3)?;
    let disk = run_alone(rt, alloc, FORMAT, disk, MemSink::new(alloc))?.disk;
    disk.crash(disk.moment(), Choice::AllBytes)
}

// Whether a format whose line does not go out, and one behind it, end with their statuses.
fn is_unchanged_by_a_line<R: Threads + Wait + Sync>(
    rt: &R,
    alloc: Global,
) -> Result<bool, AllocError> {
    let mut sink = MemSink::new(alloc);
    sink.fail_at([1, 2].to_vec(alloc)?);
    let disk = MemDisk::new(alloc, 3)?;
    let Outcome { status, disk, sink } = run_alone(rt, alloc, FORMAT, disk, sink)?;
    let second = run_alone(rt, alloc, FORMAT, disk, sink)?;
    Ok(status == 5 && second.status == 9 && second.sink.bytes().is_empty())
}

// Whether a crash of a format left a formatted disk, which has all its pages, or no master; none where it left another.
fn is_formatted<R: Threads + Wait + Sync>(
    rt: &R,
    alloc: Global,
    whole: &MemDisk,
    moment: u64,
    choice: Choice,
) -> Result<Option<bool>, AllocError> {
    let left = whole.crash(moment, choice)?;
    let has_pages = left.bytes(1) == whole.bytes(1);
    match run_alone(rt, alloc, FORMAT, left, MemSink::new(alloc))?.status {
        0 => Ok(Some(false)),
        9 if has_pages => Ok(Some(true)),
        _ => Ok(None),
    }
}

// Whether so many crashes of a format leave a formatted disk, and the others no master.
fn is_formatted_by<R: Threads + Wait + Sync>(
    rt: &R,
    alloc: Global,
    choice: Choice,
    count: u32,
) -> Result<bool, AllocError> {
    let disk = MemDisk::new(alloc, 3)?;
    let whole = run_alone(rt, alloc, FORMAT, disk, MemSink::new(alloc))?.disk;
    let mut formatted = 0u32;
    for moment in 0..=whole.moment() {
        match is_formatted(rt, alloc, &whole, moment, choice)? {
            Some(true) => formatted = formatted.saturating_add(1),
            Some(false) => {}
            None => return Ok(false),
        }
    }
    Ok(formatted == count)
}

// All bytes of the master's write, and each choice at its sync and at the line's note.
static FORMATTED: [(&str, Choice, u32); 4] = [
    ("crashes that leave no bytes", Choice::NoBytes, 2),
    ("crashes that leave all bytes", Choice::AllBytes, 3),
    ("crashes that leave halves", Choice::FirstHalf, 2),
    ("crashes that leave zeros", Choice::Zeros, 2),
];

#[test]
fn a_format_that_fails_or_crashes_leaves_no_master_or_a_whole_disk(rt: HostRuntime) {
    let alloc = rt.alloc();
    expect(
        &rt,
        "a line that does not go out",
        is_unchanged_by_a_line(&rt, alloc),
    );
    for (name, choice, count) in &FORMATTED {
        expect(&rt, name, is_formatted_by(&rt, alloc, *choice, *count));
    }
}
