// How long gets, scans, puts and dels of an engine take, over a tree of three levels. With no argument a handful of each, and what they add up to; with
// a number N, N rounds, with times.
#![tactic(auto)]

ghost use Rattle.std.specs.Prelude.{◌≡◌, ◌≤◌, ◌<◌, ◌^◌, IfOk, IsTrue};
ghost use Rattle.buffered_engine.specs.engine_front.declared.calls.Next.{Next};

use buffered_engine::{
    Closed, Engine, Formatted, Next, Opened, Shape, Size, Step, Unopened, format,
};
use lean_disk::MemDisk;
use std::alloc::Global;
use std::time::Instant;
use std::{env, io};

const SHAPE: Shape = Shape {
    workers: 1,
    pages: 1024,
    blocks: 4096,
};

const SIZE: Size = Size {
    frames: 1024,
    rows: 256,
    group: 1,
    sessions: 1,
};

/// As many keys are put, and as many puts make a transaction.
const KEYS: u64 = 16000;

const PUTS: u64 = 20;

/// Of so many keys one is deleted at first: no leaf gets thin by that.
const APART: u64 = 8;

/// As many pairs as one scan tells, and one call more.
const PAIRS: u64 = 65;

/// No factor in common with the number of keys: the keys come in mixed order.
const STRIDE: u64 = 6007;

// The next of a row of random numbers.
fn next(state: &mut u64) -> u64 {
    *state = state
        .wrapping_mul(6364136223846793005)
        .wrapping_add(1442695040888963407);
    *state >> 33
}

// An engine over a new disk in memory.
fn opened(alloc: Global) -> io::Result<Engine<MemDisk>> {
    let mut disk = MemDisk::new(alloc, 3)?;
    let mut buffer = vec![in alloc; 0; 65536]?;
    match format(&mut disk, SHAPE, &mut buffer) {
        Formatted::Done => {}
        _ => return Err(io::Error::from(io::ErrorKind::Other)),
    }
    match Engine::open(alloc, disk, SIZE) {
        Ok(
            Opened {
                engine,
                generation: _,
                winners: _,
                undone: _,
            },
        ) => Ok(engine),
        Err(Unopened { disk: _, reason: _ }) => Err(io::Error::from(io::ErrorKind::OutOfMemory)),
    }
}

// Takes the commits that have become durable, of which there is one at most.
fn listen(engine: &mut Engine<MemDisk>) {
    for _ in 0..2 {
        if engine.sessions() >= 1 && engine.expects() != Next::Line && engine.half_done(1).is_ok() {
            let _ = engine.next_durable();
        }
    }
}

// Whether a line of session 1 may be asked, behind what the line before it has made durable.
fn is_ready(engine: &mut Engine<MemDisk>) -> bool
    ensures { IsTrue result → (engine.new.next ≡ Next.Line) × (1 ≤ engine.new.sessions) }
{
    listen(engine);
    engine.expects() == Next::Line && engine.sessions() >= 1
}

fn begin(engine: &mut Engine<MemDisk>) {
    if is_ready(engine) {
        let _ = engine.begin(1);
    }
}

fn commit(engine: &mut Engine<MemDisk>) {
    if is_ready(engine) {
        let _ = engine.commit(1);
    }
}

// Puts some of the keys, in order of their turns. How many had no value.
fn puts(engine: &mut Engine<MemDisk>, first: u64) -> u64
    requires { first < 2 ^ 32 }
{
    let mut sum = 0u64;
    for turn in first..first + PUTS {
        if !is_ready(engine) {
            return sum;
        }
        if let Ok(None) = engine.put(1, turn * STRIDE % KEYS, turn) {
            sum = sum.wrapping_add(1);
        }
    }
    sum
}

// Deletes some of the keys, so far apart, in order. How many had a value.
fn dels(engine: &mut Engine<MemDisk>, first: u64, apart: u64) -> u64
    requires first { first < 2 ^ 32 }
    requires apart { apart < 2 ^ 16 }
{
    let mut sum = 0u64;
    for turn in 0..PUTS {
        if !is_ready(engine) {
            return sum;
        }
        if let Ok(Some(_)) = engine.del(1, (first + turn * apart) % KEYS) {
            sum = sum.wrapping_add(1);
        }
    }
    sum
}

// Gets random keys. What they add up to.
fn gets(engine: &mut Engine<MemDisk>, times: u64) -> u64 {
    let mut state = 1u64;
    let mut sum = 0u64;
    for _ in 0..times {
        if !is_ready(engine) {
            return sum;
        }
        if let Ok(Some(value)) = engine.get(1, next(&mut state) % KEYS) {
            sum = sum.wrapping_add(value);
        }
    }
    sum
}

// The pairs from a key on, as many as one scan tells. What their values add up to, and where the next scan goes on.
fn pairs(engine: &mut Engine<MemDisk>, from: u64) -> (u64, u64)
    requires { from < KEYS }
{
    let mut sum = 0u64;
    if !is_ready(engine) {
        return (sum, KEYS);
    }
    let mut step = engine.scan(1, from, KEYS);
    for _ in 0..PAIRS {
        match step {
            Ok(Step::Pair { key: _, value }) if engine.expects() == Next::Scan => {
                sum = sum.wrapping_add(value);
                step = engine.next_pair();
            }
            _ => break,
        }
    }
    match step {
        Ok(Step::More { from }) => (sum, from),
        _ => (sum, KEYS),
    }
}

// All pairs, so many times. What their values add up to.
fn scans(engine: &mut Engine<MemDisk>, times: u64) -> u64 {
    let mut sum = 0u64;
    for _ in 0..times {
        let mut from = 0u64;
        for _ in 0..KEYS {
            if from >= KEYS {
                break;
            }
            let (more, behind) = pairs(engine, from);
            sum = sum.wrapping_add(more);
            from = behind;
        }
    }
    sum
}

// Puts all keys, without the time of begins and commits. How many had no value, and the microseconds.
fn fill(rt: &HostRuntime, engine: &mut Engine<MemDisk>) -> io::Result<(u64, u128)> {
    let mut sum = 0u64;
    let mut took = 0u128;
    for transaction in 0..KEYS / PUTS {
        begin(engine);
        let start = Instant::now(rt)?;
        sum = sum.wrapping_add(puts(engine, transaction * PUTS));
        took = took.wrapping_add(start.elapsed(rt)?.as_nanos());
        commit(engine);
    }
    Ok((sum, took / 1000))
}

// Deletes keys that are so far apart, without the time of begins and commits. How many had a value, and the microseconds.
fn thin(rt: &HostRuntime, engine: &mut Engine<MemDisk>, apart: u64) -> io::Result<(u64, u128)>
    requires apart { apart < 2 ^ 16 }
{
    let mut sum = 0u64;
    let mut took = 0u128;
    let mut first = 0u64;
    for _ in 0..KEYS / PUTS {
        if first >= KEYS {
            break;
        }
        begin(engine);
        let start = Instant::now(rt)?;
        sum = sum.wrapping_add(dels(engine, first, apart));
        took = took.wrapping_add(start.elapsed(rt)?.as_nanos());
        commit(engine);
        first += PUTS * apart;
    }
    Ok((sum, took / 1000))
}

// The argument, up to a thousand.
fn argument(rt: &HostRuntime) -> io::Result<u64>
    ensures { IfOk result (λ times. times ≤ 1000) }
{
    let mut times = 0u64;
    for word in env::args(rt)? {
        times = word.as_str().parse::<u64>().unwrap_or(0);
    }
    Ok(times.min(1000))
}

// Gets in a transaction of their own. What they add up to, and the microseconds.
fn look(rt: &HostRuntime, engine: &mut Engine<MemDisk>, times: u64) -> io::Result<(u64, u128)> {
    begin(engine);
    let start = Instant::now(rt)?;
    let sum = gets(engine, times);
    Ok((sum, start.elapsed(rt)?.as_micros()))
}

// Scans of all pairs, in the same transaction. What they add up to, and the microseconds.
fn walk(rt: &HostRuntime, engine: &mut Engine<MemDisk>, times: u64) -> io::Result<(u64, u128)> {
    let start = Instant::now(rt)?;
    let sum = scans(engine, times);
    Ok((sum, start.elapsed(rt)?.as_micros()))
}

fn round(rt: &HostRuntime, times: u64) -> io::Result<()> {
    let mut engine = opened(rt.alloc())?;
    let filled = fill(rt, &mut engine);
    let looked = look(rt, &mut engine, times);
    let walked = walk(rt, &mut engine, times / KEYS);
    commit(&mut engine);
    let thinned = thin(rt, &mut engine, APART);
    let emptied = thin(rt, &mut engine, 1);
    let Closed {
        disk: _disk,
        front: _,
    } = engine.close();
    let (sum, took) = filled?;
    println!(rt; "new keys {sum} {took} us")?;
    let (sum, took) = looked?;
    println!(rt; "gets {sum} {took} us")?;
    let (sum, took) = walked?;
    println!(rt; "pairs {sum} {took} us")?;
    let (sum, took) = thinned?;
    println!(rt; "keys gone {sum} {took} us")?;
    let (sum, took) = emptied?;
    println!(rt; "all keys gone {sum} {took} us")
}

// A handful, with no times.
fn handful(rt: &HostRuntime) -> io::Result<()> {
    let mut engine = opened(rt.alloc())?;
    begin(&mut engine);
    let new = puts(&mut engine, 0);
    let sum = gets(&mut engine, 1000);
    let pairs = scans(&mut engine, 1);
    let gone = dels(&mut engine, 0, APART);
    let Closed {
        disk: _disk,
        front: _,
    } = engine.close();
    println!(rt; "{new} {sum} {pairs} {gone}")
}

fn main(rt: HostRuntime) -> io::Result<()> {
    let rounds = argument(&rt)?;
    if rounds == 0 {
        return handful(&rt);
    }
    for _ in 0..rounds {
        round(&rt, 1000000)?;
    }
    Ok(())
}
