// What it takes to bring a page into a frame. With no argument a handful of each, and what they add up to; with a number N, N times 10,000
// of each, with times.
#![tactic(auto)]

ghost use Rattle.std.specs.Prelude.{◌≡◌, ◌≤◌, ◌<◌, ◌^◌, IfOk, true};
ghost use Rattle.pager_bench.specs.Rigs.{Stands};

mod dirty;
mod rig;

use lean_bytes::seal;
use lean_disk::{Disk, Read};
use quiet_disk::QuietDisk;
use quiet_disk::trees::{LEAVES, key_of};
use quiet_engine::Engine;
use rig::{Rig, opened};
use std::time::Instant;
use std::{env, io};

// Brings the pages of ways to the leaves in turn: each leaf is cold then, and the page that leaves for it is clean. How many came.
fn faults(rig: &mut Rig, times: u64) -> u64
    requires stands { Stands rig.old }
    ensures stands { Stands rig.new }
{
    let mut came = 0u64;
    for i in 0..times {
        let leaf = (i % u64::from(LEAVES)) as u32;
        if let Some(false) = rig.bring(key_of(leaf, 0)) {
            came = came.wrapping_add(1);
        }
    }
    came
}

// A leaf that cools is asked for again. In how many nanoseconds it came; None: none cools.
fn rescue(rt: &HostRuntime, rig: &mut Rig) -> io::Result<Option<u128>>
    requires stands { Stands rig.old }
    ensures stands { Stands rig.new }
{
    let Some(leaf) = rig.cooling() else {
        return Ok(None);
    };
    let start = Instant::now(rt)?;
    let here = rig.bring(key_of(leaf, 0));
    let took = start.elapsed(rt)?.as_nanos();
    match here {
        Some(false) => Ok(Some(took)),
        _ => Ok(None),
    }
}

// So it is behind each of these calls, which bring leaves in turn. How many came so, and in how many nanoseconds.
fn rescues(rt: &HostRuntime, rig: &mut Rig, times: u64) -> io::Result<(u64, u128)>
    requires stands { Stands rig.old }
    ensures stands { Stands rig.new }
{
    let mut came = 0u64;
    let mut took = 0u128;
    for i in 0..times {
        let _ = rig.bring(key_of((i % u64::from(LEAVES)) as u32, 0));
        if let Some(nanos) = rescue(rt, rig)? {
            came = came.wrapping_add(1);
            took = took.wrapping_add(nanos);
        }
    }
    Ok((came, took))
}

// Goes down a way whose pages are hot. How often they were.
fn descents(rig: &mut Rig, times: u64) -> u64
    requires stands { Stands rig.old }
    ensures stands { Stands rig.new }
{
    let _ = rig.bring(key_of(0, 0));
    let _ = rig.bring(key_of(0, 0));
    let _ = rig.bring(key_of(0, 0));
    let mut hot = 0u64;
    for _i in 0..times {
        if let Some(true) = rig.bring(key_of(0, 0)) {
            hot = hot.wrapping_add(1);
        }
    }
    hot
}

// Seals of as many bytes as a slot has below its seal. What their first bytes add up to.
fn seals(times: u64) -> u64 {
    let mut bytes = [0; 1008];
    let mut sum = 0u64;
    for i in 0..times {
        bytes[0] = (i % 256) as u8;
        sum = sum.wrapping_add(u64::from(seal(b"pageslot", &bytes)[0]));
    }
    sum
}

// Reads of slots of the disk. How many bytes they gave.
fn reads(disk: &mut QuietDisk, times: u64) -> u64 {
    let mut buffer = [0; 1024];
    let mut sum = 0u64;
    for i in 0..times {
        if let Read::Got(count) = disk.read(1, 2048 * (i % 400), &mut buffer) {
            sum = sum.wrapping_add(count as u64);
        }
    }
    sum
}

// The argument, up to a hundred.
fn argument(rt: &HostRuntime) -> io::Result<u64>
    ensures { IfOk result (λ times. times ≤ 100) }
{
    let mut times = 0u64;
    for word in env::args(rt)? {
        times = word.as_str().parse::<u64>().unwrap_or(0);
    }
    Ok(times.min(100))
}

// A handful of what a machine does.
fn few_of(rt: &HostRuntime, engine: &mut Engine) -> io::Result<(u64, u64, u64)> {
    let changed = dirty::changes(engine, 100);
    let (came, _took) = dirty::faults(rt, engine, 20)?;
    Ok((changed, came, dirty::gets(engine, 100)))
}

fn few(rt: &HostRuntime) -> io::Result<(u64, u64, u64)> {
    let mut engine = dirty::machine(rt.alloc())?;
    let few = few_of(rt, &mut engine);
    engine.close();
    few
}

fn handful(rt: &HostRuntime) -> io::Result<()> {
    let mut rig = opened(rt.alloc())?;
    let a = faults(&mut rig, 200);
    let (b, _took) = rescues(rt, &mut rig, 100)?;
    let c = descents(&mut rig, 100);
    let d = seals(100);
    let e = reads(&mut rig.disk, 100);
    let (f, g, h) = few(rt)?;
    println!(rt; "{a} {b} {c} {d} {e} {f} {g} {h}")
}

// What was done, what it adds up to, and its microseconds.
fn report(rt: &HostRuntime, done: &str, sum: u64, start: Instant) -> io::Result<()> {
    let took = start.elapsed(rt)?.as_micros();
    println!(rt; "{done} {sum} {took} us")
}

fn time_seals(rt: &HostRuntime, times: u64) -> io::Result<()> {
    let start = Instant::now(rt)?;
    let sum = seals(times);
    report(rt, "seals", sum, start)
}

fn time_reads(rt: &HostRuntime, disk: &mut QuietDisk, times: u64) -> io::Result<()> {
    let start = Instant::now(rt)?;
    let sum = reads(disk, times);
    report(rt, "reads", sum, start)
}

fn time_faults(rt: &HostRuntime, rig: &mut Rig, times: u64) -> io::Result<()>
    requires { Stands rig.old }
    ensures { Stands rig.new }
{
    let start = Instant::now(rt)?;
    let sum = faults(rig, times);
    report(rt, "faults", sum, start)
}

fn time_rescues(rt: &HostRuntime, rig: &mut Rig, times: u64) -> io::Result<()>
    requires { Stands rig.old }
    ensures { Stands rig.new }
{
    let (sum, took) = rescues(rt, rig, times)?;
    let micros = took / 1000;
    println!(rt; "rescues {sum} {micros} us")
}

fn time_descents(rt: &HostRuntime, rig: &mut Rig, times: u64) -> io::Result<()>
    requires { Stands rig.old }
    ensures { Stands rig.new }
{
    let start = Instant::now(rt)?;
    let sum = descents(rig, times);
    report(rt, "hot descents", sum, start)
}

// Of dirty faults a tenth, and no more than the log has blocks for.
fn time_calls(rt: &HostRuntime, engine: &mut Engine, times: u64) -> io::Result<()> {
    let _ = dirty::changes(engine, 100);
    let (sum, took) = dirty::faults(rt, engine, (times / 10).min(3900))?;
    let micros = took / 1000;
    println!(rt; "dirty faults {sum} {micros} us")?;
    let start = Instant::now(rt)?;
    let sum = dirty::gets(engine, times);
    report(rt, "hot gets", sum, start)
}

fn time_machine(rt: &HostRuntime, times: u64) -> io::Result<()> {
    let mut engine = dirty::machine(rt.alloc())?;
    let timed = time_calls(rt, &mut engine, times);
    engine.close();
    timed
}

// So many of each; the first faults fill the frames.
fn measure(rt: &HostRuntime, times: u64) -> io::Result<()> {
    time_seals(rt, times)?;
    let mut rig = opened(rt.alloc())?;
    time_reads(rt, &mut rig.disk, times)?;
    let _ = faults(&mut rig, 200);
    time_faults(rt, &mut rig, times)?;
    time_rescues(rt, &mut rig, times)?;
    time_descents(rt, &mut rig, times)?;
    time_machine(rt, times)
}

fn main(rt: HostRuntime) -> io::Result<()> {
    match argument(&rt)? {
        0 => handful(&rt),
        times => measure(&rt, times * 10000),
    }
}
