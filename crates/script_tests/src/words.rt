// Command lines: which are commands, and what comes of each.
use crate::cases::expect;
use crate::commands::{Outcome, formatted, run_alone, run_list};
use lean_disk::{Choice, MemDisk};
use lean_shell::MemSink;
use std::alloc::{AllocError, Global};
use std::sync::Wait;
use std::thread::Threads;

// A command line, its status and what it prints: a format of a new disk, and all else of one of 16 pages that is formatted.
pub(crate) struct Line(
    pub(crate) &'static str,
    pub(crate) u8,
    pub(crate) &'static [u8],
);

pub(crate) const NONE: &[u8] = b"lean: usage\n";

const OPENED: &[u8] = b"open 1 winners 0 undone 0\n";

const DUMPED: &[u8] = b"open 1 winners 0 undone 0\nend\n";

static LINES: [Line; 233] = [
    // No command.
    Line("", 2, NONE),
    Line("lean", 2, NONE),
    Line("lean ", 2, NONE),
    Line("lean Run", 2, NONE),
    Line("lean Dump", 2, NONE),
    Line("lean ru", 2, NONE),
    Line("lean runs", 2, NONE),
    Line("lean  run", 2, NONE),
    Line("lean --", 2, NONE),
    Line("lean -- run", 2, NONE),
    Line("lean --run", 2, NONE),
    Line("lean -run", 2, NONE),
    Line("lean drive", 2, NONE),
    // Help and the version.
    Line("lean --help", 2, NONE),
    Line("lean -h", 2, NONE),
    Line("lean help", 2, NONE),
    Line("lean help run", 2, NONE),
    Line("lean help lean", 2, NONE),
    Line("lean --help run", 2, NONE),
    Line("lean run --help", 2, NONE),
    Line("lean run -h", 2, NONE),
    Line("lean run help", 2, NONE),
    Line("lean run --help=1", 2, NONE),
    Line("lean run --rows 16 --help", 2, NONE),
    Line("lean run --rows --help", 2, NONE),
    Line("lean dump --help", 2, NONE),
    Line("lean format --help", 2, NONE),
    Line("lean --version", 2, NONE),
    Line("lean -V", 2, NONE),
    Line("lean version", 2, NONE),
    Line("lean run --version", 2, NONE),
    Line("lean dump -V", 2, NONE),
    // A run.
    Line("lean run", 0, OPENED),
    Line("lean run --", 0, OPENED),
    Line("other run", 0, OPENED),
    Line(" run", 0, OPENED),
    Line("--help run", 0, OPENED),
    Line("lean run --rows 16", 0, OPENED),
    Line("lean run --rows 17", 0, OPENED),
    Line("lean run --rows 256", 0, OPENED),
    Line("lean run --rows 4096", 0, OPENED),
    Line("lean run --rows=16", 0, OPENED),
    Line("lean run --rows=4096", 0, OPENED),
    Line("lean run --rows 16 --", 0, OPENED),
    Line("lean run --rows 15", 2, NONE),
    Line("lean run --rows=0", 2, NONE),
    Line("lean run --rows 4097", 2, NONE),
    Line("lean run --rows=4097", 2, NONE),
    Line("lean run --rows 4294967552", 2, NONE),
    Line("lean run --rows 18446744073709551872", 2, NONE),
    Line("lean run --rows", 2, NONE),
    Line("lean run --rows ", 2, NONE),
    Line("lean run --rows=", 2, NONE),
    Line("lean run --rows= 16", 2, NONE),
    Line("lean run --rows =16", 2, NONE),
    Line("lean run --rows==16", 2, NONE),
    Line("lean run --rows -- 16", 2, NONE),
    Line("lean run --rows 16 16", 2, NONE),
    Line("lean run --rows 16 --rows 16", 2, NONE),
    Line("lean run --rows 16 --rows=17", 2, NONE),
    Line("lean run --rows=16 --rows=16", 2, NONE),
    Line("lean run --rows +16", 2, NONE),
    Line("lean run --rows -16", 2, NONE),
    Line("lean run --rows=-16", 2, NONE),
    Line("lean run --rows 016", 2, NONE),
    Line("lean run --rows 16.0", 2, NONE),
    Line("lean run --rows 0x10", 2, NONE),
    Line("lean run --rows 1_6", 2, NONE),
    Line("lean run --rows ١٦", 2, NONE),
    Line("lean run --rows x", 2, NONE),
    // How many commits of a session are flushed at once.
    Line("lean run --group 1", 0, OPENED),
    Line("lean run --group 2", 0, OPENED),
    Line("lean run --group 63", 0, OPENED),
    Line("lean run --group 64", 0, OPENED),
    Line("lean run --group=1", 0, OPENED),
    Line("lean run --group=64", 0, OPENED),
    Line("lean run --group 64 --", 0, OPENED),
    Line("lean run --rows 16 --group 64", 0, OPENED),
    Line("lean run --group 64 --rows 16", 0, OPENED),
    Line("lean run --rows=4096 --group=1", 0, OPENED),
    Line("lean run --group 1 --rows=16", 0, OPENED),
    Line("lean run --group 0", 2, NONE),
    Line("lean run --group=0", 2, NONE),
    Line("lean run --group 65", 2, NONE),
    Line("lean run --group=65", 2, NONE),
    Line("lean run --group 4294967297", 2, NONE),
    Line("lean run --group 18446744073709551617", 2, NONE),
    Line("lean run --group", 2, NONE),
    Line("lean run --group ", 2, NONE),
    Line("lean run --group=", 2, NONE),
    Line("lean run --group= 1", 2, NONE),
    Line("lean run --group =1", 2, NONE),
    Line("lean run --group==1", 2, NONE),
    Line("lean run --group -- 1", 2, NONE),
    Line("lean run --group 1 1", 2, NONE),
    Line("lean run --group 1 --group 1", 2, NONE),
    Line("lean run --group 1 --group=2", 2, NONE),
    Line("lean run --group=1 --group=1", 2, NONE),
    Line("lean run --group 1 --rows 16 --group 1", 2, NONE),
    Line("lean run --rows 16 --group 1 --rows 16", 2, NONE),
    Line("lean run --group +1", 2, NONE),
    Line("lean run --group -1", 2, NONE),
    Line("lean run --group=-1", 2, NONE),
    Line("lean run --group 01", 2, NONE),
    Line("lean run --group 1.0", 2, NONE),
    Line("lean run --group 0x1", 2, NONE),
    Line("lean run --group ١", 2, NONE),
    Line("lean run --group x", 2, NONE),
    Line("lean run --group --rows 16", 2, NONE),
    Line("lean run --rows 15 --group 1", 2, NONE),
    Line("lean run --rows 16 --group 65", 2, NONE),
    Line("lean run --group --help", 2, NONE),
    Line("lean run --group 1 --help", 2, NONE),
    Line("lean run --groups 1", 2, NONE),
    Line("lean run --Group 1", 2, NONE),
    Line("lean run -group 1", 2, NONE),
    Line("lean run -g 1", 2, NONE),
    Line("lean --group 1 run", 2, NONE),
    Line("lean run -- --group", 2, NONE),
    Line("lean run --row 16", 2, NONE),
    Line("lean run --Rows 16", 2, NONE),
    Line("lean run -rows 16", 2, NONE),
    Line("lean run -r 16", 2, NONE),
    Line("lean --rows 16 run", 2, NONE),
    // How many frames there are.
    Line("lean run --frames 32", 0, OPENED),
    Line("lean run --frames 33", 0, OPENED),
    Line("lean run --frames 256", 0, OPENED),
    Line("lean run --frames 4096", 0, OPENED),
    Line("lean run --frames=32", 0, OPENED),
    Line("lean run --frames=4096", 0, OPENED),
    Line("lean run --frames 32 --", 0, OPENED),
    Line("lean run --rows 16 --frames 32", 0, OPENED),
    Line("lean run --rows 16 --group 64 --frames 32", 0, OPENED),
    Line("lean run --frames 32 --rows=16 --group 64", 0, OPENED),
    Line("lean run --group=64 --frames=4096 --rows 16", 0, OPENED),
    Line("lean run --frames 31", 2, NONE),
    Line("lean run --frames=31", 2, NONE),
    Line("lean run --frames 0", 2, NONE),
    Line("lean run --frames 4097", 2, NONE),
    Line("lean run --frames=4097", 2, NONE),
    Line("lean run --frames 4294967328", 2, NONE),
    Line("lean run --frames 18446744073709551648", 2, NONE),
    Line("lean run --frames", 2, NONE),
    Line("lean run --frames ", 2, NONE),
    Line("lean run --frames=", 2, NONE),
    Line("lean run --frames 32 32", 2, NONE),
    Line("lean run --frames 32 --frames 32", 2, NONE),
    Line("lean run --frames 32 --frames=33", 2, NONE),
    Line("lean run --frames 32 --rows 16 --frames 32", 2, NONE),
    Line("lean run --frames +32", 2, NONE),
    Line("lean run --frames -32", 2, NONE),
    Line("lean run --frames 032", 2, NONE),
    Line("lean run --frames 0x20", 2, NONE),
    Line("lean run --frames x", 2, NONE),
    Line("lean run --frames --rows 16", 2, NONE),
    Line("lean run --rows 15 --frames 32", 2, NONE),
    Line("lean run --group 65 --frames 32", 2, NONE),
    Line("lean run --group 1 --frames 31", 2, NONE),
    Line("lean run --frames 32 --help", 2, NONE),
    Line("lean run --frame 32", 2, NONE),
    Line("lean run --Frames 32", 2, NONE),
    Line("lean run -frames 32", 2, NONE),
    Line("lean run -f 32", 2, NONE),
    Line("lean --frames 32 run", 2, NONE),
    // No option of a run.
    Line("lean run --workers 1", 2, NONE),
    Line("lean run --sessions 16", 2, NONE),
    Line("lean run 1", 2, NONE),
    Line("lean run ", 2, NONE),
    Line("lean run -", 2, NONE),
    Line("lean run run", 2, NONE),
    Line("lean run dump", 2, NONE),
    Line("lean run -- --rows", 2, NONE),
    Line("lean run -- --", 2, NONE),
    // A dump.
    Line("lean dump", 0, DUMPED),
    Line("lean dump --", 0, DUMPED),
    Line("lean dump x", 2, NONE),
    Line("lean dump ", 2, NONE),
    Line("lean dump dump", 2, NONE),
    Line("lean dump --rows 16", 2, NONE),
    Line("lean dump --group 1", 2, NONE),
    Line("lean dump --frames 32", 2, NONE),
    // A format: its options in any order, apart or with `=`.
    Line(
        "lean format --workers 1 --pages 16 --blocks 64",
        0,
        b"formatted 1 16 64\n",
    ),
    Line(
        "lean format --workers 1 --blocks 64 --pages 17",
        0,
        b"formatted 1 17 64\n",
    ),
    Line(
        "lean format --pages 16 --workers 1 --blocks 65",
        0,
        b"formatted 1 16 65\n",
    ),
    Line(
        "lean format --pages 18 --blocks 66 --workers 1",
        0,
        b"formatted 1 18 66\n",
    ),
    Line(
        "lean format --blocks 67 --pages 19 --workers 1",
        0,
        b"formatted 1 19 67\n",
    ),
    Line(
        "lean format --blocks 68 --workers 1 --pages 20",
        0,
        b"formatted 1 20 68\n",
    ),
    Line(
        "lean format --workers=1 --pages=64 --blocks=64",
        0,
        b"formatted 1 64 64\n",
    ),
    Line(
        "lean format --pages=64 --workers 1 --blocks=64 --",
        0,
        b"formatted 1 64 64\n",
    ),
    Line(
        "lean format --workers 1 --pages 4096 --blocks 4096",
        0,
        b"formatted 1 4096 4096\n",
    ),
    Line(
        "lean format --workers 2 --pages 16 --blocks 64",
        0,
        b"formatted 2 16 64\n",
    ),
    Line(
        "lean format --pages 16 --workers=15 --blocks 64",
        0,
        b"formatted 15 16 64\n",
    ),
    Line(
        "lean format --workers 16 --pages 16 --blocks 64",
        0,
        b"formatted 16 16 64\n",
    ),
    Line(
        "lean format --blocks=64 --pages=16 --workers=16",
        0,
        b"formatted 16 16 64\n",
    ),
    Line("lean format", 2, NONE),
    Line("lean format --pages 64 --blocks 64", 2, NONE),
    Line("lean format --workers 1 --blocks 64", 2, NONE),
    Line("lean format --workers 1 --pages 64", 2, NONE),
    Line("lean format --workers 0 --pages 64 --blocks 64", 2, NONE),
    Line("lean format --workers=0 --pages 64 --blocks 64", 2, NONE),
    Line("lean format --workers 17 --pages 64 --blocks 64", 2, NONE),
    Line("lean format --workers=17 --pages 64 --blocks 64", 2, NONE),
    Line("lean format --workers +1 --pages 64 --blocks 64", 2, NONE),
    Line("lean format --workers -1 --pages 64 --blocks 64", 2, NONE),
    Line("lean format --workers 016 --pages 64 --blocks 64", 2, NONE),
    Line(
        "lean format --workers 4294967297 --pages 64 --blocks 64",
        2,
        NONE,
    ),
    Line("lean format --workers= --pages 64 --blocks 64", 2, NONE),
    Line("lean format --workers 01 --pages 64 --blocks 64", 2, NONE),
    Line("lean format --workers --pages 64 --blocks 64", 2, NONE),
    Line("lean format --workers 1 --pages 15 --blocks 64", 2, NONE),
    Line("lean format --workers 1 --pages=15 --blocks 64", 2, NONE),
    Line(
        "lean format --workers 1 --pages 4097 --blocks 64",
        0,
        b"formatted 1 4097 64\n",
    ),
    Line("lean format --workers 1 --pages 65537 --blocks 64", 2, NONE),
    Line("lean format --workers 1 --pages=65537 --blocks 64", 2, NONE),
    Line("lean format --workers 1 --pages 64 --blocks 63", 2, NONE),
    Line("lean format --workers 1 --pages 64 --blocks 4097", 2, NONE),
    Line("lean format --workers 1 --pages 64 --blocks=4097", 2, NONE),
    Line("lean format --workers 1 --pages +64 --blocks 64", 2, NONE),
    Line("lean format --workers 1 --pages -64 --blocks 64", 2, NONE),
    Line("lean format --workers 1 --pages 064 --blocks 64", 2, NONE),
    Line(
        "lean format --workers 1 --pages 4294967360 --blocks 64",
        2,
        NONE,
    ),
    Line("lean format --workers 1 --pages  --blocks 64", 2, NONE),
    Line("lean format --workers 1 --pages 64 --blocks", 2, NONE),
    Line("lean format --workers 1 --pages 64 --blocks=", 2, NONE),
    Line(
        "lean format --workers 1 --workers 1 --pages 64 --blocks 64",
        2,
        NONE,
    ),
    Line(
        "lean format --workers=1 --pages 64 --workers=16 --blocks 64",
        2,
        NONE,
    ),
    Line(
        "lean format --workers 1 --pages 64 --pages 64 --blocks 64",
        2,
        NONE,
    ),
    Line(
        "lean format --workers 1 --pages 64 --blocks 64 --blocks=64",
        2,
        NONE,
    ),
    Line("lean format --workers 1 --pages 64 --blocks 64 64", 2, NONE),
    Line(
        "lean format --workers 1 --pages 64 --blocks 64 --rows 16",
        2,
        NONE,
    ),
    Line(
        "lean format --workers 1 --pages 64 --blocks 64 --group 1",
        2,
        NONE,
    ),
    Line(
        "lean format --workers 1 --pages 64 --blocks 64 --frames 32",
        2,
        NONE,
    ),
    Line("lean format 1 64 64", 2, NONE),
];

// A new disk for a format, and this one for all else.
fn disk_for(alloc: Global, text: &str, whole: &MemDisk) -> Result<MemDisk, AllocError> {
    if text.starts_with("lean format") {
        MemDisk::new(alloc, 18)
    } else {
        whole.crash(whole.moment(), Choice::AllBytes)
    }
}

// Whether the areas of the disk are as they were.
fn is_same(old: &MemDisk, new: &MemDisk) -> bool {
    old.bytes(0) == new.bytes(0) && old.bytes(1) == new.bytes(1) && old.bytes(2) == new.bytes(2)
}

// Whether the command ends and prints so, and leaves a disk that it refuses as it was.
pub(crate) fn is_met<R: Threads + Wait + Sync>(
    rt: &R,
    alloc: Global,
    line: &Line,
    whole: &MemDisk,
) -> Result<bool, AllocError> {
    let Line(text, wanted, printed) = line;
    let before = disk_for(alloc, *text, whole)?;
    let disk = disk_for(alloc, *text, whole)?;
    let Outcome { status, disk, sink } = run_alone(rt, alloc, *text, disk, MemSink::new(alloc))?;
    Ok(status == *wanted && sink.bytes() == *printed && (status != 2 || is_same(&before, &disk)))
}

// No words at all, as where one of them is no UTF-8.
fn is_usage_of_none<R: Threads + Wait + Sync>(
    rt: &R,
    alloc: Global,
    whole: &MemDisk,
) -> Result<bool, AllocError> {
    let disk = disk_for(alloc, "", whole)?;
    let Outcome { status, disk, sink } = run_list(rt, alloc, &[], disk, MemSink::new(alloc))?;
    Ok(status == 2 && sink.bytes() == NONE && is_same(whole, &disk))
}

#[test]
fn each_command_line_ends_as_it_is_written(rt: HostRuntime) {
    let whole = formatted(&rt, rt.alloc()).expect(&rt, "a formatted disk");
    for line in &LINES {
        expect(&rt, line.0, is_met(&rt, rt.alloc(), line, &whole));
    }
    expect(&rt, "no words", is_usage_of_none(&rt, rt.alloc(), &whole));
}
