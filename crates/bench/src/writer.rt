// A plain writer of the blocks of logs: each is sealed and written, and its log is synced where so many commits came since it was last. Before
// that each line of a script on standard input is read and put out again, and a commit twice. Nothing else is done.

use disk_file::FileDisk;
use lean_disk::{Did, Disk, Read};
use lean_edge::StdSource;
use log_block::{BLOCK, block_bytes, open_block};
use log_record::{Body, Record, read_record};
use map_model::Call;
use script_lang::{LineReader, NextLine, read_line};
use std::alloc::Global;
use std::io;
use std::io::Write;
use std::time::Instant;

// How many logs a disk may have, and how many blocks a log.
const LOGS: u32 = 16;

const BLOCKS: u64 = 4096;

// The area of log 1, and that of what is written of it.
const FIRST: u32 = 2;

const COPY: u32 = 18;

// What was written, and the microseconds that it took.
#[derive(Clone, Copy)]
pub(crate) struct Written {
    pub lines: u32,
    pub blocks: u32,
    pub syncs: u32,
    pub took: u128,
}

// A block of a log, the first being log 0, and how many commits it has.
#[derive(Clone, Copy)]
struct Piece {
    log: u32,
    number: u64,
    block: [u8; BLOCK],
    commits: u32,
}

// How many of the records that stand there are commits.
fn commits_in(payload: &[u8]) -> u32 {
    let mut entry = Record {
        txn: 0,
        gsn: 0,
        body: Body::Commit { need: 0 },
    };
    let mut left = payload;
    let mut commits = 0u32;
    for _ in 0..payload.len() {
        let Some(size) = read_record(left, &mut entry) else {
            break;
        };
        if let Body::Commit { .. } = entry.body {
            commits = commits.wrapping_add(1);
        }
        let Some(rest) = left.get(size..) else {
            break;
        };
        left = rest;
    }
    commits
}

// The block of this number of a log, as the first run on a disk wrote it.
fn piece_of<D: Disk>(disk: &mut D, log: u32, number: u64) -> Option<Piece> {
    let mut block = [0u8; BLOCK];
    let place = number.wrapping_mul(BLOCK as u64);
    let Read::Got(_) = disk.read(FIRST.wrapping_add(log), place, &mut block) else {
        return None;
    };
    let Ok((_, payload)) = open_block(1, log.wrapping_add(1), number, &block) else {
        return None;
    };
    let commits = commits_in(payload);
    Some(Piece {
        log,
        number,
        block,
        commits,
    })
}

// The blocks of the logs in the current folder: the first of each log, the second of each, and so on.
fn pieces_of<D: Disk>(disk: &mut D, alloc: Global) -> io::Result<Vec<Piece>> {
    let mut pieces = Vec::new(alloc);
    for number in 0..BLOCKS {
        for log in 0..LOGS {
            if let Some(piece) = piece_of(disk, log, number) {
                pieces.push(piece)?;
            }
        }
    }
    Ok(pieces)
}

// Where a block's records stand in it.
const HEADER: usize = 32;

const SEAL: usize = 16;

// Seals a block and writes it to its place.
fn put<D: Disk>(disk: &mut D, piece: &Piece) -> Did {
    let mut sealed = [0u8; BLOCK];
    let payload = &piece.block[HEADER..BLOCK - SEAL];
    block_bytes(1, piece.log, piece.number, 1, payload, &mut sealed);
    let place = piece.number.wrapping_mul(BLOCK as u64);
    disk.write(COPY.wrapping_add(piece.log), place, &sealed)
}

// Writes the blocks, and syncs a log behind so many of its commits. None where the disk failed.
fn put_all<D: Disk>(disk: &mut D, pieces: &[Piece], group: u32) -> Option<(u32, u32)> {
    let mut waiting = [0u32; LOGS as usize];
    let (mut blocks, mut syncs) = (0u32, 0u32);
    for piece in pieces {
        let Did::Done = put(disk, piece) else {
            return None;
        };
        blocks = blocks.wrapping_add(1);
        let commits = waiting.get_mut(piece.log as usize)?;
        *commits = commits.wrapping_add(piece.commits);
        if group <= *commits {
            *commits = 0;
            let Did::Done = disk.sync(COPY.wrapping_add(piece.log)) else {
                return None;
            };
            syncs = syncs.wrapping_add(1);
        }
    }
    Some((blocks, syncs))
}

// Reads the lines of a script, and puts out as many lines as a run does where all commit, each by a call of its own: one for each line, and one more for
// a commit, which gets durable.
fn put_lines(rt: &HostRuntime, reader: &mut LineReader) -> io::Result<u32> {
    let mut source = StdSource::new(rt.stdin());
    let mut out = rt.stdout();
    for lines in 0..u32::MAX {
        let NextLine::Got = reader.next_line(&mut source) else {
            return Ok(lines);
        };
        let Ok(line) = read_line(LOGS, reader.line()) else {
            return Ok(lines);
        };
        out.write_all(reader.line())?;
        if let Call::Commit = line.call {
            out.write_all(reader.line())?;
        }
    }
    Ok(u32::MAX)
}

// Puts the lines of a script out, and writes the blocks of the logs in the current folder once more, one by one.
pub(crate) fn write_plainly(rt: &HostRuntime, group: u32) -> io::Result<Written> {
    let alloc = rt.alloc();
    let mut disk = FileDisk::new(rt, alloc);
    let pieces = pieces_of(&mut disk, alloc)?;
    let mut reader = LineReader::new(alloc)?;
    let start = Instant::now(rt)?;
    let lines = put_lines(rt, &mut reader)?;
    let (blocks, syncs) = put_all(&mut disk, &pieces, group).unwrap_or((0, 0));
    Ok(Written {
        lines,
        blocks,
        syncs,
        took: start.elapsed(rt)?.as_micros(),
    })
}
