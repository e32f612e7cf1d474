//! Two workers lock keys from two threads.
ghost use Rattle.std.specs.Prelude.{◌≡◌, ◌<◌, ◌≤◌, ◌^◌, true, IfOk};
ghost use Rattle.shared_peeks.specs.Peeked.{CanPeek, CanShare};
ghost use Rattle.shared_peeks.specs.Locked.{CanLock, CanLockBoth};

use crate::peeks::{Desk, counted, gather};
use btree_descent::{PlainRows, RowsTraitTrace as Trace};
use key_locks::locking::lock;
use key_locks::mode::Mode;
use shared_rows::{SharedRef, SharedRows};
use std::alloc::{AllocError, Global};
use std::thread::{Threads, join_mut};

/// How many keys each worker locks, the first one from 1 on and the second one behind it.
pub const LOCKED: u64 = 30;

// A key is locked alone.
fn take(rows: &SharedRows, desk: &mut Desk, frames: u32, locks: u32, key: u64) -> bool
    requires can { CanLock rows.now frames locks desk.old }
    ensures can { CanPeek rows.now frames desk.new }
    ensures more { result ≡ true → CanLock rows.now frames locks desk.new }
    ensures same { (desk.new.worker ≡ desk.old.worker) × (desk.new.good ≡ desk.old.good) }
{
    let mut shared = SharedRef(rows);
    match lock(
        &mut shared,
        &mut desk.seat,
        desk.worker,
        frames,
        locks,
        key,
        Mode::Alone,
    ) {
        Ok(_) => true,
        Err(_) => false,
    }
}

// Keys are locked one by one, up to the first that is not to be had.
fn lock_keys(rows: &SharedRows, desk: &mut Desk, frames: u32, locks: u32, from: u64)
    requires can { CanLock rows.now frames locks desk.old }
    requires good { desk.old.good ≡ 0 }
    requires from { from < 2 ^ 32 }
    ensures can { CanPeek rows.now frames desk.new }
    ensures worker { desk.new.worker ≡ desk.old.worker }
{
    for i in 0..LOCKED {
        if !take(rows, desk, frames, locks, from + i) {
            return;
        }
        desk.good = counted(desk.good, true);
    }
}

// Two workers lock keys, each from a thread of its own.
fn lock_both<R: Threads + Sync>(
    rt: &R,
    rows: &SharedRows,
    first: &mut Desk,
    second: &mut Desk,
    frames: u32,
    locks: u32,
)
    requires first { CanLock rows.now frames locks first.old × (first.old.good ≡ 0) }
    requires second { CanLock rows.now frames locks second.old × (second.old.good ≡ 0) }
    ensures first { CanPeek rows.now frames first.new × (first.new.worker ≡ first.old.worker) }
    ensures second { CanPeek rows.now frames second.new × (second.new.worker ≡ second.old.worker) }
{
    join_mut(
        rt,
        &mut || lock_keys(rows, first, frames, locks, 1),
        &mut || lock_keys(rows, second, frames, locks, 1 + LOCKED),
    );
}

/// Shares rows among two workers, both of which are in a transaction, and each of which locks keys of its own from a thread of its own.
/// Then the rows are plain again. How many keys each has locked is told.
pub fn lock_by_two<R: Threads + Sync>(
    rt: &R,
    alloc: Global,
    plain: PlainRows,
    seat: Trace,
) -> Result<(PlainRows, Trace, u64, u64), AllocError>
    requires { CanLockBoth plain seat }
    ensures again { IfOk result (λ r. CanShare r.0 r.1) }
{
    let frames = plain.frames;
    let locks = plain.locks;
    let Ok((rows, mut main)) = SharedRows::share(alloc, plain, seat) else {
        return Err(AllocError);
    };
    let room = rows.room(alloc)?;
    let mut first = Desk {
        seat: rows.seat(&mut main),
        worker: 1,
        good: 0,
    };
    let mut second = Desk {
        seat: rows.seat(&mut main),
        worker: 2,
        good: 0,
    };
    lock_both(rt, &rows, &mut first, &mut second, frames, locks);
    let one = first.good;
    let two = second.good;
    let (plain, seat) = gather(rows, main, first.seat, second.seat, room);
    Ok((plain, seat, one, two))
}
