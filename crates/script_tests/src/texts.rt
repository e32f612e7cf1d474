// Lines as a row writes them, a `;` for each newline, and a run on them.
use crate::commands::{FORMAT, Outcome, RUN, run_words};
use itoa::Buffer;
use lean_disk::MemDisk;
use lean_shell::{MemSink, MemSource};
use std::alloc::{AllocError, Global};
use std::sync::Wait;
use std::thread::Threads;

// Text so many times, for each number from the first to the last: `#` stands for it, `@` for its double, `+` for the next one.
pub(crate) struct Text(pub &'static str, pub u32, pub u32);

// A text as it stands, or texts.
pub(crate) enum Lines {
    Once(&'static str),
    Many(&'static [Text]),
}

// A format on so many pages, or for so many sessions; a run, or one that flushes two or 64 commits at once; a dump.
pub(crate) enum Command {
    Format16,
    Format64,
    FormatTwo,
    FormatSixteen,
    Run,
    RunTwo,
    RunMany,
    Dump,
}

pub(crate) const PUT: &str = "1 begin;1 put 5 7;1 commit;";

pub(crate) const PUT_LINES: &str =
    "open 1 winners 0 undone 0;1 begun 1.1;1 was none;1 committed 1.1 at 2;1 durable 1.1;";

fn put_number(all: &mut Vec<u8>, number: u32) -> Result<(), AllocError> {
    let mut digits = Buffer::new();
    all.extend_from_slice(digits.format(number).as_bytes())
}

// Adds the text, with a number, its double and the next one in their places.
fn put_text(all: &mut Vec<u8>, text: &str, number: u32) -> Result<(), AllocError> {
    for letter in text.as_bytes() {
        match *letter {
            b';' => all.push(b'\n')?,
            b'#' => put_number(all, number)?,
            b'@' => put_number(all, number.saturating_mul(2))?,
            b'+' => put_number(all, number.saturating_add(1))?,
            letter => all.push(letter)?,
        }
    }
    Ok(())
}

fn put_texts(all: &mut Vec<u8>, texts: &[Text]) -> Result<(), AllocError> {
    for Text(text, first, last) in texts {
        for number in *first..=*last {
            put_text(all, text, number)?;
        }
    }
    Ok(())
}

pub(crate) fn spelled(alloc: Global, lines: &Lines) -> Result<Vec<u8>, AllocError> {
    let mut all = Vec::new(alloc);
    match lines {
        Lines::Once(text) => put_text(&mut all, text, 1)?,
        Lines::Many(texts) => put_texts(&mut all, texts)?,
    }
    Ok(all)
}

pub(crate) fn words_of(command: &Command) -> &'static str {
    match command {
        Command::Format16 => FORMAT,
        Command::Format64 => "lean format --workers 1 --pages 64 --blocks 64",
        Command::FormatTwo => "lean format --workers 2 --pages 16 --blocks 64",
        Command::FormatSixteen => "lean format --workers 16 --pages 16 --blocks 64",
        Command::Run => RUN,
        Command::RunTwo => "lean run --group 2",
        Command::RunMany => "lean run --group 64",
        Command::Dump => "lean dump",
    }
}

// A run of a command that reads this script.
pub(crate) fn run_text<R: Threads + Wait + Sync>(
    rt: &R,
    alloc: Global,
    command: &Command,
    disk: MemDisk,
    script: &Lines,
    sink: MemSink,
) -> Result<Outcome, AllocError> {
    let source = MemSource::new(alloc, &spelled(alloc, script)?, 7)?;
    run_words(rt, alloc, words_of(command), disk, source, sink)
}
