//! Two workers find every key from two threads.
ghost use Rattle.std.specs.Prelude.{◌≡◌, ◌<◌, ◌^◌, ◌-◌, IfOk};
ghost use Rattle.shared_peeks.specs.Peeked.{CanPeek, CanStart, CanShare};

use crate::peeks::{Desk, KEYS, both, counted, gather};
use btree_descent::descent::{Answer, find};
use btree_descent::{PlainRows, RowsTraitTrace as Trace};
use shared_rows::{SharedRef, SharedRows};
use std::alloc::{AllocError, Global};
use std::thread::{Threads, join_mut};

// Whether the key's word was found as its own number.
fn has_own(answer: Answer, key: u64) -> bool {
    match answer {
        Answer::Found(found) => found.word == Some(key),
        _ => false,
    }
}

// A key is looked for.
fn seek(rows: &SharedRows, desk: &mut Desk, frames: u32, key: u64) -> bool
    requires can { CanPeek rows.now frames desk.old }
    requires key { key < 2 ^ 64 - 1 }
    ensures can { CanPeek rows.now frames desk.new }
    ensures same { (desk.new.worker ≡ desk.old.worker) × (desk.new.good ≡ desk.old.good) }
{
    let mut shared = SharedRef(rows);
    let answer = find(&mut shared, &mut desk.seat, desk.worker, frames, key);
    has_own(answer, key)
}

// Each key is looked for once.
fn find_keys(rows: &SharedRows, desk: &mut Desk, frames: u32)
    requires can { CanStart rows.now frames desk.old }
    ensures can { CanPeek rows.now frames desk.new }
    ensures worker { desk.new.worker ≡ desk.old.worker }
{
    for key in 1..KEYS + 1 {
        let found = seek(rows, desk, frames, key);
        desk.good = counted(desk.good, found);
    }
}

// Two workers look for keys, each from a thread of its own.
fn find_both<R: Threads + Sync>(
    rt: &R,
    rows: &SharedRows,
    first: &mut Desk,
    second: &mut Desk,
    frames: u32,
)
    requires first { CanStart rows.now frames first.old }
    requires second { CanStart rows.now frames second.old }
    ensures first { CanPeek rows.now frames first.new × (first.new.worker ≡ first.old.worker) }
    ensures second { CanPeek rows.now frames second.new × (second.new.worker ≡ second.old.worker) }
{
    join_mut(
        rt,
        &mut || find_keys(rows, first, frames),
        &mut || find_keys(rows, second, frames),
    );
}

/// Shares rows among two workers, neither of which is in a transaction, and each of which looks for every key from a thread of its own. Then
/// the rows are plain again. Whether every key was found as its own number is told.
pub fn find_by_two<R: Threads + Sync>(
    rt: &R,
    alloc: Global,
    plain: PlainRows,
    seat: Trace,
) -> Result<(PlainRows, Trace, bool), AllocError>
    requires { CanShare plain seat }
    ensures again { IfOk result (λ r. CanShare r.0 r.1) }
{
    let frames = plain.frames;
    let Ok((rows, mut main)) = SharedRows::share(alloc, plain, seat) else {
        return Err(AllocError);
    };
    let room = rows.room(alloc)?;
    let mut first = Desk {
        seat: rows.seat(&mut main),
        worker: 1,
        good: 0,
    };
    let mut second = Desk {
        seat: rows.seat(&mut main),
        worker: 2,
        good: 0,
    };
    find_both(rt, &rows, &mut first, &mut second, frames);
    let good = both(first.good, second.good);
    let (plain, seat) = gather(rows, main, first.seat, second.seat, room);
    Ok((plain, seat, good))
}
