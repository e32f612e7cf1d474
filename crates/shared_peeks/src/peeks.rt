//! Two workers peek every key from two threads.
ghost use Rattle.std.specs.Prelude.{◌≡◌, ◌+◌, ◌<◌, ◌^◌, ◌-◌, ℕ, true, [], ◌∷◌, IfOk, All, length, slice_index_or, vec_capacity};
ghost use Rattle.btree_descent.specs.rows_trait.Plain.{sizes};
ghost use Rattle.btree_descent.specs.rows_trait.Rule.{IsPicture, plan};
ghost use Rattle.shared_rows.specs.Parts.{IsFirst, IsIdle, IsReturned};
ghost use Rattle.shared_rows.specs.Ruled.{IsRoom};
ghost use Rattle.btree_descent.specs.declared.peek.Peeked.{Peeked};
ghost use Rattle.shared_peeks.specs.Peeked.{bit, CanPeek, CanStart, HasLooked, HasPeeked, CanShare, EachPeeked};

use btree_descent::peek::{Peeked, peek};
use btree_descent::{PlainRows, RowsTraitTrace as Trace};
use shared_rows::{SharedRef, SharedRows, Taker};
use std::alloc::{AllocError, Global};
use std::thread;
use std::thread::{Threads, join_mut};

/// How many keys there are, from 1 on.
pub const KEYS: u64 = 60;

/// A worker's seat, and how many keys it found as their own values.
#[derive(Drop)]
pub struct Desk {
    pub seat: Taker,
    pub worker: u32,
    pub good: u64,
}

// Whether the key was found as its own value.
fn is_own(peeked: Peeked, key: u64) -> bool
    ensures { result ≡ true → peeked ≡ Peeked.Found key }
{
    match peeked {
        Peeked::Found(value) => value == key,
        _ => false,
    }
}

// A key is peeked.
fn look_at(rows: &SharedRows, desk: &mut Desk, frames: u32, key: u64) -> bool
    requires can { CanPeek rows.now frames desk.old }
    requires key { key < 2 ^ 64 - 1 }
    ensures can { CanPeek rows.now frames desk.new }
    ensures same { (desk.new.worker ≡ desk.old.worker) × (desk.new.good ≡ desk.old.good) }
    ensures looked { HasLooked desk.old.worker key result desk.old.seat.me.0 desk.new.seat.me.0 }
{
    let mut shared = SharedRef(rows);
    let peeked = peek(&mut shared, &mut desk.seat, desk.worker, frames, key);
    is_own(peeked, key)
}

// One more, if it is so.
pub(crate) fn counted(good: u64, found: bool) -> u64
    requires { good < 2 ^ 32 }
    ensures { result ≡ good + bit found }
{
    if found { good + 1 } else { good }
}

// Each key is peeked once.
fn peek_keys(rows: &SharedRows, desk: &mut Desk, frames: u32)
    requires can { CanStart rows.now frames desk.old }
    ensures peeked { HasPeeked rows.now frames desk.old desk.new }
{
    for key in 1..KEYS + 1 {
        let found = look_at(rows, desk, frames, key);
        desk.good = counted(desk.good, found);
    }
}

/// Each worker peeks from a thread of its own.
pub fn peek_each<R: Threads + Sync>(rt: &R, rows: &SharedRows, desks: &mut [Desk], frames: u32)
    requires can { All (CanStart rows.now frames) desks.old }
    ensures peeked { (i : ℕ) (d : _) → i < length desks.old → HasPeeked rows.now frames (slice_index_or desks.old i d) (slice_index_or desks.new i d) }
{
    thread::for_each_mut(rt, desks, 2, &|_, desk| peek_keys(rows, desk, frames));
}

// Two workers peek, each from a thread of its own.
fn peek_both<R: Threads + Sync>(
    rt: &R,
    rows: &SharedRows,
    first: &mut Desk,
    second: &mut Desk,
    frames: u32,
)
    requires first { CanStart rows.now frames first.old }
    requires second { CanStart rows.now frames second.old }
    ensures first { HasPeeked rows.now frames first.old first.new }
    ensures second { HasPeeked rows.now frames second.old second.new }
{
    join_mut(
        rt,
        &mut || peek_keys(rows, first, frames),
        &mut || peek_keys(rows, second, frames),
    );
}

// Plain rows again, once both have ended.
pub(crate) fn gather(
    rows: SharedRows,
    main: Taker,
    first: Taker,
    second: Taker,
    room: Vec<u64>,
) -> (PlainRows, Trace)
    requires main { IsFirst rows.table.shared.table_id main × (main.me.0.actor ≡ 0) × (main.me.0.made ≡ 3) }
    requires first { IsIdle rows.table.shared.table_id first × (first.me.0.actor ≡ 1) }
    requires second { IsIdle rows.table.shared.table_id second × (second.me.0.actor ≡ 2) }
    requires room { IsRoom (sizes rows.frames rows.locks rows.workers) room.items (vec_capacity room) }
    ensures sizes { (result.0.frames ≡ rows.frames) × (result.0.locks ≡ rows.locks) × (result.0.workers ≡ rows.workers) }
    ensures picture { IsPicture (plan (sizes result.0.frames result.0.locks result.0.workers) result.1.view.given) result.0.words.items result.1.view }
    ensures front { IsReturned main.me.0 (second ∷ first ∷ []) result.1.view }
{
    let mut main = main;
    rows.take_in(&mut main, first);
    rows.take_in(&mut main, second);
    rows.settle(&mut main);
    rows.end(main, room)
}

/// Shares rows among two workers, each of which peeks every key from a thread of its own. Then the rows are plain again. Whether every
/// answer was Found of the key is told: then the front has 120 peeks, each key's once of each worker.
pub fn peek_by_two<R: Threads + Sync>(
    rt: &R,
    alloc: Global,
    plain: PlainRows,
    seat: Trace,
) -> Result<(PlainRows, Trace, bool), AllocError>
    requires { CanShare plain seat }
    ensures sizes { IfOk result (λ r. (r.0.frames ≡ plain.frames) × (r.0.locks ≡ plain.locks) × (r.0.workers ≡ plain.workers)) }
    ensures again { IfOk result (λ r. CanShare r.0 r.1) }
    ensures front { IfOk result (λ r. r.2 ≡ true → EachPeeked seat.view r.1.view) }
{
    let frames = plain.frames;
    let Ok((rows, mut main)) = SharedRows::share(alloc, plain, seat) else {
        return Err(AllocError);
    };
    let room = rows.room(alloc)?;
    let mut first = Desk {
        seat: rows.seat(&mut main),
        worker: 1,
        good: 0,
    };
    let mut second = Desk {
        seat: rows.seat(&mut main),
        worker: 2,
        good: 0,
    };
    peek_both(rt, &rows, &mut first, &mut second, frames);
    let good = both(first.good, second.good);
    let (plain, seat) = gather(rows, main, first.seat, second.seat, room);
    Ok((plain, seat, good))
}

// Whether both found all keys.
pub(crate) fn both(first: u64, second: u64) -> bool
    ensures { result ≡ true → (first ≡ 60) × (second ≡ 60) }
{
    first == KEYS && second == KEYS
}
