// Calls of devices that fail, and crashes, in a run of one put.
use crate::cases::expect;
use crate::commands::{Outcome, formatted, run_words};
use crate::texts::{Command, Lines, PUT, PUT_LINES, run_text, spelled, words_of};
use lean_disk::{Choice, MemDisk};
use lean_shell::{MemSink, MemSource};
use std::alloc::{AllocError, Global};
use std::sync::Wait;
use std::thread::Threads;

// What fails: a call of an area of the disk, of the source, or of the sink.
enum Device {
    Area(u32),
    Source,
    Sink,
}

// A command and its script, on a disk that is formatted or empty, and what is printed. Each call of the device fails once. The
// run ends with this status, and prints whole lines of these and then its last line. There are so many calls.
struct Sweep {
    name: &'static str,
    command: Command,
    script: Lines,
    is_formatted: bool,
    printed: Lines,
    device: Device,
    status: u8,
    before: Lines,
    last: &'static [u8],
    calls: u64,
}

macro_rules! sweep {
    (format, $name:expr, $area:expr, $calls:expr) => {
        Sweep {
            name: $name,
            command: Command::Format16,
            script: Lines::Once(""),
            is_formatted: false,
            printed: Lines::Once("formatted 1 16 64;"),
            device: Device::Area($area),
            status: 6,
            before: Lines::Once(""),
            last: b"lean: disk fault\n",
            calls: $calls,
        }
    };
    (put, $name:expr, $device:expr, $status:expr, $last:expr, $calls:expr) => {
        Sweep {
            name: $name,
            command: Command::Run,
            script: Lines::Once(PUT),
            is_formatted: true,
            printed: Lines::Once(PUT_LINES),
            device: $device,
            status: $status,
            before: Lines::Once(PUT_LINES),
            last: $last,
            calls: $calls,
        }
    };
}

static SWEEPS: [Sweep; 7] = [
    // Two reads of slots, a write and a sync.
    sweep!(format, "the masters at a format", 0, 4),
    sweep!(format, "the pages at a format", 1, 2),
    sweep!(
        put,
        "the masters at a put",
        Device::Area(0),
        6,
        b"lean: disk fault\n",
        5
    ),
    sweep!(
        put,
        "the pages at a put",
        Device::Area(1),
        6,
        b"lean: disk fault\n",
        34
    ),
    sweep!(
        put,
        "the log at a put",
        Device::Area(2),
        6,
        b"lean: disk fault\n",
        4
    ),
    // Four pieces, and the end.
    sweep!(
        put,
        "the source at a put",
        Device::Source,
        4,
        b"lean: read fault\n",
        5
    ),
    sweep!(put, "the sink at a put", Device::Sink, 5, b"", 5),
];

// How many calls of a device a sweep goes through at most.
const MANY: u64 = 2000;

// The disk as it was at first, whose call fails if the device is an area.
fn disk_for(
    alloc: Global,
    sweep: &Sweep,
    disk: &MemDisk,
    call: u64,
) -> Result<MemDisk, AllocError> {
    let mut disk = disk.crash(0, Choice::AllBytes)?;
    if let Device::Area(area) = sweep.device {
        disk.fail_at(area, [call].to_vec(alloc)?);
    }
    Ok(disk)
}

fn source_for(alloc: Global, sweep: &Sweep, call: u64) -> Result<MemSource, AllocError> {
    let mut source = MemSource::new(alloc, &spelled(alloc, &sweep.script)?, 7)?;
    if let Device::Source = sweep.device {
        source.fail_at([call].to_vec(alloc)?);
    }
    Ok(source)
}

fn sink_for(alloc: Global, sweep: &Sweep, call: u64) -> Result<MemSink, AllocError> {
    let mut sink = MemSink::new(alloc);
    if let Device::Sink = sweep.device {
        sink.fail_at([call].to_vec(alloc)?);
    }
    Ok(sink)
}

// A run on the disk as it was at first, in which a call of the device fails.
fn run_failing<R: Threads + Wait + Sync>(
    rt: &R,
    alloc: Global,
    sweep: &Sweep,
    disk: &MemDisk,
    call: u64,
) -> Result<Outcome, AllocError> {
    let disk = disk_for(alloc, sweep, disk, call)?;
    let source = source_for(alloc, sweep, call)?;
    let sink = sink_for(alloc, sweep, call)?;
    run_words(rt, alloc, words_of(&sweep.command), disk, source, sink)
}

// Whether the output is whole lines of these, and then this line.
fn is_cut_off(lines: &[u8], output: &[u8], last: &[u8]) -> bool {
    match output.strip_suffix(last) {
        Some(prefix) => lines.starts_with(prefix) && (prefix.is_empty() || prefix.ends_with(b"\n")),
        None => false,
    }
}

// Whether a run in which the call fails ends as is written, or is a whole one; and which of these.
fn ends_so<R: Threads + Wait + Sync>(
    rt: &R,
    alloc: Global,
    sweep: &Sweep,
    disk: &MemDisk,
    call: u64,
) -> Result<(bool, bool), AllocError> {
    let done = run_failing(rt, alloc, sweep, disk, call)?;
    if done.status == 0 {
        let printed = spelled(alloc, &sweep.printed)?;
        return Ok((done.sink.bytes() == printed.as_slice(), true));
    }
    let before = spelled(alloc, &sweep.before)?;
    let is_cut_off = is_cut_off(&before, done.sink.bytes(), sweep.last);
    Ok((done.status == sweep.status && is_cut_off, false))
}

// Whether each call of the device ends the run, and there are so many.
fn is_ended_by_each<R: Threads + Wait + Sync>(
    rt: &R,
    alloc: Global,
    sweep: &Sweep,
) -> Result<bool, AllocError> {
    let disk = if sweep.is_formatted {
        formatted(rt, alloc)?
    } else {
        MemDisk::new(alloc, 3)?
    };
    for call in 1..MANY {
        let (is_so, is_whole) = ends_so(rt, alloc, sweep, &disk, call)?;
        if !is_so || is_whole {
            return Ok(is_so && call - 1 == sweep.calls);
        }
    }
    Ok(false)
}

#[test]
fn each_call_that_fails_ends_a_run(rt: HostRuntime) {
    for sweep in &SWEEPS {
        expect(&rt, sweep.name, is_ended_by_each(&rt, rt.alloc(), sweep));
    }
}

static PUT_SCRIPT: Lines = Lines::Once(PUT);

static GET_SCRIPT: Lines = Lines::Once("1 begin;1 get 5;");

// Whether a disk is opened, and key 5 has its value or none, and its value where that was told.
fn is_well<R: Threads + Wait + Sync>(
    rt: &R,
    alloc: Global,
    left: MemDisk,
    is_told: bool,
) -> Result<bool, AllocError> {
    let done = run_text(
        rt,
        alloc,
        &Command::Run,
        left,
        &GET_SCRIPT,
        MemSink::new(alloc),
    )?;
    let printed = done.sink.bytes();
    let is_there = printed.ends_with(b"1 begun 1.1\n1 value 7\n");
    let is_none = printed.ends_with(b"1 begun 1.1\n1 none\n");
    Ok(done.status == 0 && (is_there || is_none && !is_told))
}

// The disk of a put whose fifth line, that it is durable, goes out or not.
fn disk_of_put<R: Threads + Wait + Sync>(
    rt: &R,
    alloc: Global,
    is_told: bool,
) -> Result<MemDisk, AllocError> {
    let mut sink = MemSink::new(alloc);
    if !is_told {
        sink.fail_at([5].to_vec(alloc)?);
    }
    let disk = formatted(rt, alloc)?;
    Ok(run_text(rt, alloc, &Command::Run, disk, &PUT_SCRIPT, sink)?.disk)
}

// Whether each crash of a put keeps it or not, and keeps it behind the moment at which it was told; a crash before it does not.
fn is_kept<R: Threads + Wait + Sync>(
    rt: &R,
    alloc: Global,
    choice: Choice,
) -> Result<bool, AllocError> {
    let untold = disk_of_put(rt, alloc, false)?.moment();
    let disk = disk_of_put(rt, alloc, true)?;
    for moment in 0..=disk.moment() {
        let left = disk.crash(moment, choice)?;
        if !is_well(rt, alloc, left, untold < moment)? {
            return Ok(false);
        }
    }
    let before = disk.crash(0, Choice::AllBytes)?;
    Ok(untold < disk.moment() && !is_well(rt, alloc, before, true)?)
}

static CRASHES: [(&str, Choice); 4] = [
    ("crashes that leave no bytes", Choice::NoBytes),
    ("crashes that leave all bytes", Choice::AllBytes),
    ("crashes that leave halves", Choice::FirstHalf),
    ("crashes that leave zeros", Choice::Zeros),
];

#[test]
fn a_crash_keeps_what_was_told(rt: HostRuntime) {
    for (name, choice) in &CRASHES {
        expect(&rt, name, is_kept(&rt, rt.alloc(), *choice));
    }
}
