//! A look at a key outside any transaction: without a lock, without a wait, and without a device.
ghost use Rattle.std.specs.Prelude.{◌≡◌, ◌<◌, ◌^◌, ◌-◌, true, [], Some};
ghost use Rattle.lean_proto.specs.rows_trait.Views.{latest, may};
ghost use Rattle.lean_proto.specs.rows_trait.Causes.{HasFound};
ghost use Rattle.btree_descent.specs.Inside.{AtLeaf};
ghost use Rattle.btree_descent.specs.Known.{IsSound};
ghost use Rattle.btree_descent.specs.Descents.{Sized};
ghost use Rattle.btree_descent.specs.Peeks.{Went, Caused, IsSettled, peeked_of, seen_as};

use crate::descent::{Leaf, Stop, said, way};
use crate::events::Peeks;
use crate::node::entry;
use crate::trace::Untraced;
use lean_proto::{Latched, Moved, Rows};

/// What a peek found.
#[derive(Clone, Copy)]
pub enum Peeked {
    /// The key's value.
    Found(u64),
    /// The key's leaf has no value of it.
    Absent,
    /// The page on the way that is not hot, by its number.
    Cold(u64),
    /// A row had another version at the second look than at the first.
    Moved(Moved),
    /// A row was held by another seat.
    Latched(Latched),
}

fn peeked_of(stop: Stop) -> Peeked
    ensures { result ≡ peeked_of stop }
{
    match stop {
        Stop::Cold(page) => Peeked::Cold(page),
        Stop::Moved(moved) => Peeked::Moved(moved),
        Stop::Latched(latched) => Peeked::Latched(latched),
    }
}

fn seen_as(value: Option<u64>) -> Peeked
    ensures { result ≡ seen_as value }
{
    match value {
        Some(found) => Peeked::Found(found),
        None => Peeked::Absent,
    }
}

// What the leaf says of the key.
fn look<R: Rows>(
    rows: &mut R,
    seat: &mut R::Seat,
    leaf: &Leaf,
    worker: u32,
    frames: u32,
    key: u64,
) -> Peeked
    requires fits { R.fits rows.old seat.old }
    requires leaf { AtLeaf (R.shape rows.old) (R.view seat.old) worker frames key leaf.now.glimpse leaf.now.head }
    ensures fits { R.fits rows.new seat.new × (R.shape rows.new ≡ R.shape rows.old) × ((R.view seat.new).held ≡ (R.view seat.old).held) }
    ensures went { Went (R.shape rows.old).alone worker key (R.view seat.old) result (R.view seat.new) }
    ensures cause { (u : _) → HasFound leaf.now.glimpse.row leaf.now.glimpse.version u (R.view seat.old) → Caused u result (R.view seat.new) }
    ensures quiet { (R.shape rows.old).alone ≡ true → latest leaf.now.glimpse.row (R.view seat.old).steps ≡ Some leaf.now.glimpse.version → IsSettled result }
{
    let glimpse = leaf.glimpse;
    let head = leaf.head;
    let value = said(entry(rows, seat, &glimpse, (head.packed % 256) as u32, key));
    let peeks = Peeks {
        worker,
        page: head.page as u32,
        key,
        answer: value,
        version: glimpse.version,
    };
    match glimpse.check(rows, seat, &peeks) {
        Ok(()) => seen_as(value),
        Err(moved) => Peeked::Moved(moved),
    }
}

/// What the key's leaf says of it, for `worker`, over rows whose first `frames` are frames. No lock is taken, so what is found may be
/// of a transaction that has not ended.
///
/// Found and Absent append the peek, and say what the leaf says at the last check. Cold names a page on the way that is not hot and
/// appends nothing. Moved and Latched append a miss and say which row, and which numbers of its latch were loaded: try again. Where
/// nobody else steps these two never come.
pub fn peek<R: Rows>(rows: &mut R, seat: &mut R::Seat, worker: u32, frames: u32, key: u64) -> Peeked
    requires fits { R.fits rows.old seat.old }
    requires sized { Sized (R.shape rows.old) (R.view seat.old) frames }
    requires actor { may (R.shape rows.old).alone (R.view seat.old) worker ≡ true }
    requires sound { IsSound (R.view seat.old).given }
    requires key { key < 2 ^ 64 - 1 }
    ensures fits { R.fits rows.new seat.new × (R.shape rows.new ≡ R.shape rows.old) × ((R.view seat.new).held ≡ (R.view seat.old).held) }
    ensures went { Went (R.shape rows.old).alone worker key (R.view seat.old) result (R.view seat.new) }
    ensures cause { Caused (R.view seat.old) result (R.view seat.new) }
    ensures quiet { (R.shape rows.old).alone ≡ true → (R.view seat.old).held ≡ [] → IsSettled result }
{
    match way(rows, seat, worker, frames, key, &mut Untraced) {
        Ok(leaf) => look(rows, seat, &leaf, worker, frames, key),
        Err(stop) => peeked_of(stop),
    }
}
