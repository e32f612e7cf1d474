// Rows of openings: what a crash or damage left, and every line that comes of it, written down by hand.
use crate::cases::expect;
use crate::runs::{FORMAT, MEMORY, at_rest, crashed, formatted, run_script};
use crate::scripts::PUT;
use lean_disk::{Choice, Disk, MemDisk};
use lean_shell::block_bytes;
use std::alloc::Global;
use std::process::Abort;
use std::sync::Wait;
use std::thread::Threads;

// What is left.
enum Left {
    /// A put that was crashed at its block's write.
    Block(Choice),
    /// A put, and an opening behind it that was crashed at its master's write.
    Master(Choice),
    /// A put, where at a place of an area stand so many of this byte.
    Bytes(u32, u64, u8, usize),
    /// A put, where a sealed block of this generation and number stands at a place of the log. What it holds are no records.
    Sealed(u64, u64, u64),
    /// A put's pages and log, from the bytes alone, without a master.
    NoMaster,
    Empty,
}

// What is left, and of a run of a get on it the status and the lines.
struct Row {
    name: &'static str,
    left: Left,
    status: u8,
    lines: &'static str,
}

// The put is not found.
macro_rules! lost {
    ($name:expr, $left:expr) => {
        Row {
            name: $name,
            left: $left,
            status: 0,
            lines: "open 2 winners 0 undone 0\n1 begun 1.1\n1 none\n",
        }
    };
}

// The put is found.
macro_rules! kept {
    ($name:expr, $left:expr) => {
        Row {
            name: $name,
            left: $left,
            status: 0,
            lines: "open 2 winners 1 undone 0\n1 begun 1.1\n1 value 7\n",
        }
    };
}

macro_rules! refused {
    ($name:expr, $left:expr, $lines:expr) => {
        Row {
            name: $name,
            left: $left,
            status: 7,
            lines: $lines,
        }
    };
}

static ROWS: [Row; 20] = [
    lost!(
        "a block of which nothing is left",
        Left::Block(Choice::NoBytes)
    ),
    lost!(
        "a block of which the first half is left",
        Left::Block(Choice::FirstHalf)
    ),
    lost!(
        "a block of which zeros are left",
        Left::Block(Choice::Zeros)
    ),
    kept!(
        "a whole block whose sync did not return",
        Left::Block(Choice::AllBytes)
    ),
    kept!(
        "a master of which nothing is left",
        Left::Master(Choice::NoBytes)
    ),
    kept!(
        "a master of which the first half is left",
        Left::Master(Choice::FirstHalf)
    ),
    kept!(
        "a master of which zeros are left",
        Left::Master(Choice::Zeros)
    ),
    Row {
        name: "a whole master whose sync did not return",
        left: Left::Master(Choice::AllBytes),
        status: 0,
        lines: "open 3 winners 0 undone 0\n1 begun 1.1\n1 value 7\n",
    },
    refused!(
        "zeros for both masters",
        Left::Bytes(0, 0, 0, 2048),
        "lean: not formatted\n"
    ),
    refused!(
        "zeros for both masters from the start",
        Left::NoMaster,
        "lean: not formatted\n"
    ),
    refused!("an empty disk", Left::Empty, "lean: not formatted\n"),
    refused!(
        "page 0 damaged in both slots",
        Left::Bytes(1, 0, 0, 2048),
        "lean: damaged area 1 place 0\n"
    ),
    refused!(
        "page 5 damaged in both slots",
        Left::Bytes(1, 10240, 255, 2048),
        "lean: damaged area 1 place 5\n"
    ),
    refused!(
        "page 15 damaged in its only slot",
        Left::Bytes(1, 30720, 0, 1024),
        "lean: damaged area 1 place 15\n"
    ),
    // It is no base, and may hold anything.
    kept!(
        "page 5 damaged in its spare slot",
        Left::Bytes(1, 11264, 255, 1024)
    ),
    refused!(
        "a sealed block of no records for the first one",
        Left::Sealed(1, 0, 0),
        "lean: damaged area 2 place 0\n"
    ),
    refused!(
        "a sealed block of no records behind the first one",
        Left::Sealed(1, 1, 1),
        "lean: damaged area 2 place 1\n"
    ),
    // None of these is of the run.
    kept!(
        "a sealed block behind the end of the run",
        Left::Sealed(1, 2, 2)
    ),
    kept!(
        "a sealed block of another generation",
        Left::Sealed(2, 1, 1)
    ),
    kept!("a sealed block with another number", Left::Sealed(1, 2, 1)),
];

// The moments of the two writes: the block's is the call behind 41 of the opening and three lines, and the master's the last call but
// one of an opening that makes 43.
const BLOCK: u64 = 45;

const MASTER: u64 = 42;

// The disk, where these bytes stand at a place of an area.
fn written<R: Abort>(rt: &R, mut disk: MemDisk, area: u32, at: u64, bytes: &[u8]) -> MemDisk {
    let _ = disk.write(area, at, bytes);
    at_rest(rt, &disk)
}

// A disk of the same pages and log.
fn without_master<R: Abort>(rt: &R, alloc: Global, put: &MemDisk) -> MemDisk {
    let mut areas = Vec::new(alloc);
    areas
        .push(vec![in alloc; 0; 2048].expect(rt, MEMORY))
        .expect(rt, MEMORY);
    areas
        .push(put.bytes(1).to_vec(alloc).expect(rt, MEMORY))
        .expect(rt, MEMORY);
    areas
        .push(put.bytes(2).to_vec(alloc).expect(rt, MEMORY))
        .expect(rt, MEMORY);
    MemDisk::from_areas(alloc, areas).expect(rt, MEMORY)
}

fn disk_of<R: Threads + Wait + Sync + Abort>(rt: &R, alloc: Global, left: &Left) -> MemDisk {
    let ran = run_script(rt, alloc, PUT.text, formatted(rt, alloc, &FORMAT)).disk;
    let put = at_rest(rt, &ran);
    match left {
        Left::Block(choice) => crashed(rt, &ran, BLOCK, *choice),
        Left::Master(choice) => {
            let opened = run_script(rt, alloc, "", put).disk;
            crashed(rt, &opened, MASTER, *choice)
        }
        Left::Bytes(area, at, byte, count) => {
            let bytes = vec![in alloc; *byte; *count].expect(rt, MEMORY);
            written(rt, put, *area, *at, &bytes)
        }
        Left::Sealed(generation, block, place) => {
            let mut bytes = [0; 2048];
            block_bytes(*generation, 1, *block, 1, b"no record", &mut bytes);
            written(rt, put, 2, place.saturating_mul(2048), &bytes)
        }
        Left::NoMaster => without_master(rt, alloc, &put),
        Left::Empty => MemDisk::new(alloc, 3).expect(rt, MEMORY),
    }
}

#[test]
fn each_disk_is_opened_as_is_written(rt: HostRuntime) {
    let alloc = rt.alloc();
    for row in &ROWS {
        let next = run_script(&rt, alloc, PUT.next, disk_of(&rt, alloc, &row.left));
        let is_met = next.status == row.status && next.printed() == row.lines;
        expect(&rt, row.name, is_met);
    }
}
