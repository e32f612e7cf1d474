// Sources and sinks as they are used.
ghost use Rattle.std.specs.Prelude.{◌≤◌, IfOk};

use crate::cases::expect;
use lean_disk::MemDisk;
use lean_edge::{MemSink, MemSource, Next, Put, Sink, Source, StdSink, StdSource};
use std::alloc::{AllocError, Global};
use std::io;
use std::io::{ErrorKind, Read, Write};

// The answers of a source of `abcde` that gives two bytes at a time and fails at calls 2 and 7, and what stands then in four bytes
// that were zeros.
static NEXTS: [(Next, [u8; 4]); 8] = [
    (Next::Got(2), *b"ab\0\0"),
    (Next::Failed, *b"ab\0\0"),
    (Next::Got(2), *b"cd\0\0"),
    (Next::Got(1), *b"ed\0\0"),
    (Next::End, *b"ed\0\0"),
    (Next::End, *b"ed\0\0"),
    (Next::Failed, *b"ed\0\0"),
    (Next::End, *b"ed\0\0"),
];

fn gives<S: Source>(source: &mut S, nexts: &[(Next, [u8; 4])]) -> bool {
    let mut into = [0u8; 4];
    for (want, bytes) in nexts {
        if source.next(&mut into) != *want || into != *bytes {
            return false;
        }
    }
    true
}

// Whether the source in memory gives pieces, and fails where it was told.
fn memory_gives(alloc: Global) -> Result<bool, AllocError> {
    let mut source = MemSource::new(alloc, b"abcde", 2)?;
    source.fail_at([2, 7].to_vec(alloc)?);
    Ok(gives(&mut source, &NEXTS))
}

// Lines that are put into a sink that keeps two bytes where it fails, at calls 2 and 3, and what it holds then.
static PUTS: [(&[u8], Put, &str); 4] = [
    (b"one\n", Put::Done, "one\n"),
    (b"two\n", Put::Failed, "one\ntw"),
    (b"six\n", Put::Failed, "one\ntwsi"),
    (b"ten\n", Put::Done, "one\ntwsiten\n"),
];

// Whether the sink in memory holds the prefix of a piece that failed.
fn memory_holds(alloc: Global) -> Result<bool, AllocError> {
    let mut disk = MemDisk::new(alloc, 1)?;
    let mut sink = MemSink::new(alloc);
    sink.fail_at([2, 3].to_vec(alloc)?);
    sink.keep_prefix(2);
    for (line, want, held) in &PUTS {
        if sink.put(&mut disk, line) != *want || sink.bytes() != held.as_bytes() {
            return Ok(false);
        }
    }
    Ok(true)
}

// What a stream's next call does.
#[derive(Clone, Copy)]
enum Turn {
    Moves(usize),
    IsInterrupted,
    Fails,
}

// A stream that moves as many bytes as it is told, and whose bytes are all `x`.
#[derive(Drop)]
struct Stream<'a> {
    turns: &'a [Turn],
}

impl Stream<'_> {
    fn turn(&mut self, most: usize) -> io::Result<usize>
        ensures { IfOk result (λ count. count ≤ most) }
    {
        let Some((turn, others)) = self.turns.split_first() else {
            return Ok(0);
        };
        self.turns = others;
        match *turn {
            Turn::Moves(count) => Ok(count.min(most)),
            Turn::IsInterrupted => Err(io::Error::from(ErrorKind::Interrupted)),
            Turn::Fails => Err(io::Error::from(ErrorKind::BrokenPipe)),
        }
    }
}

impl Read for Stream<'_> {
    fn read(&mut self, buf: &mut [u8]) -> io::Result<usize> {
        let count = self.turn(buf.len())?;
        for byte in &mut buf[..count] {
            *byte = b'x';
        }
        Ok(count)
    }
}

impl Write for Stream<'_> {
    fn write(&mut self, buf: &[u8]) -> io::Result<usize> {
        self.turn(buf.len())
    }

    fn flush(&mut self) -> io::Result<()> {
        Ok(())
    }
}

static READ_TURNS: [Turn; 8] = [
    Turn::IsInterrupted,
    Turn::Moves(2),
    Turn::Fails,
    Turn::IsInterrupted,
    Turn::IsInterrupted,
    Turn::Moves(9),
    Turn::Moves(0),
    Turn::Moves(1),
];

// The answers, and what stands then in four bytes that were zeros.
static READS: [(Next, [u8; 4]); 5] = [
    (Next::Got(2), *b"xx\0\0"),
    (Next::Failed, *b"xx\0\0"),
    (Next::Got(4), *b"xxxx"),
    (Next::End, *b"xxxx"),
    (Next::End, *b"xxxx"),
];

// Whether a reader is read again where it was interrupted, and ends for good.
fn reader_gives() -> bool {
    let mut source = StdSource::new(Stream { turns: &READ_TURNS });
    source.next(&mut []) == Next::Got(0) && gives(&mut source, &READS)
}

static WRITE_TURNS: [Turn; 8] = [
    Turn::Moves(9),
    Turn::Moves(1),
    Turn::IsInterrupted,
    Turn::Moves(3),
    Turn::Moves(1),
    Turn::Fails,
    Turn::Moves(4),
    Turn::Moves(0),
];

static WRITES: [Put; 5] = [Put::Done, Put::Done, Put::Failed, Put::Done, Put::Failed];

// Whether a writer is written to until it has all.
fn writer_takes(alloc: Global) -> Result<bool, AllocError> {
    let mut disk = MemDisk::new(alloc, 1)?;
    let mut sink = StdSink::new(Stream {
        turns: &WRITE_TURNS,
    });
    for want in &WRITES {
        if sink.put(&mut disk, b"one\n") != *want {
            return Ok(false);
        }
    }
    Ok(true)
}

#[test]
fn sources_and_sinks_answer_as_is_written(rt: HostRuntime) {
    let alloc = rt.alloc();
    expect(&rt, "a source in memory", memory_gives(alloc));
    expect(&rt, "a sink in memory", memory_holds(alloc));
    expect(&rt, "a reader", Ok(reader_gives()));
    expect(&rt, "a writer", writer_takes(alloc));
}
