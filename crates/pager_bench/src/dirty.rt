// Pages that come where dirty ones leave, over a machine of one session.
ghost use Rattle.std.specs.Prelude.{◌<◌, ◌^◌};

use quiet_disk::trees::{LEAVES, first_disk, key_of};
use quiet_engine::Engine;
use std::alloc::Global;
use std::io;
use std::time::Instant;

/// How many frames there are, and the blocks of the log: each page that becomes dirty takes one.
const FRAMES: u32 = 32;

const BLOCKS: u32 = 4096;

/// A machine that flushes each commit.
pub fn machine(alloc: Global) -> io::Result<Engine> {
    let Some(disk) = first_disk(alloc, BLOCKS)? else {
        return Err(io::Error::from(io::ErrorKind::Other));
    };
    match Engine::open(alloc, disk, FRAMES, 1) {
        Some(engine) => Ok(engine),
        None => Err(io::Error::from(io::ErrorKind::Other)),
    }
}

// The first key of a leaf, in turn.
fn key(turn: u64) -> u64
    ensures { result < 2 ^ 32 }
{
    key_of((turn % u64::from(LEAVES)) as u32, 0)
}

// Changes the leaf of a key, and flushes that: whether it was done.
fn change(engine: &mut Engine, key: u64, value: u64) -> bool
    requires key { key < 2 ^ 32 }
    requires value { value < 2 ^ 32 }
{
    engine.begin(false).is_ok() && engine.put(key, value).is_ok() && engine.commit().is_ok()
}

/// Each leaf that came is changed, so that it leaves dirty. How many were.
pub fn changes(engine: &mut Engine, times: u64) -> u64 {
    let mut done = 0u64;
    for i in 0..times {
        if change(engine, key(i), i % 1000) {
            done = done.wrapping_add(1);
        }
    }
    done
}

/// The pages of ways to the leaves come in turn, and each leaf is changed behind that. How many came, and in how many nanoseconds.
pub fn faults(rt: &HostRuntime, engine: &mut Engine, times: u64) -> io::Result<(u64, u128)> {
    let mut came = 0u64;
    let mut took = 0u128;
    for i in 0..times {
        let start = Instant::now(rt)?;
        let here = engine.warm(key(i));
        took = took.wrapping_add(start.elapsed(rt)?.as_nanos());
        if here && change(engine, key(i), i % 1000) {
            came = came.wrapping_add(1);
        }
    }
    Ok((came, took))
}

/// Keys of a leaf all of whose way is hot are read in one transaction. What their values add up to.
pub fn gets(engine: &mut Engine, times: u64) -> u64 {
    let _ = engine.begin(false);
    let mut sum = 0u64;
    for i in 0..times {
        if let Ok(Some(value)) = engine.get(key_of(0, (i % 50) as usize)) {
            sum = sum.wrapping_add(value);
        }
    }
    let _ = engine.commit();
    sum
}
