//! The walk to the pair that follows a key in its leaf, past tombstones, over entries that the worker has locked.
ghost use Rattle.std.specs.Prelude.{◌≡◌, ◌↔◌, ◌<◌, ◌≤◌, ◌^◌, ◌-◌, ◌%◌, ◌/◌, ◌∷◌, ℕ, true, [], Some, IfOk, IfErr};
ghost use Rattle.page_model.specs.Page as stored;
ghost use Rattle.lean_proto.specs.core_state.Needs.{following};
ghost use Rattle.lean_proto.specs.row_words.Moments.{format_of};
ghost use Rattle.lean_proto.specs.row_words.declared.event.Event.TheVariants.{Miss};
ghost use Rattle.lean_proto.specs.rows_trait.Layout.{rows_of, width};
ghost use Rattle.lean_proto.specs.rows_trait.declared.view.View.{View};
ghost use Rattle.lean_proto.specs.rows_trait.Views.{Has, Knows, latest, may};
ghost use Rattle.lean_proto.specs.rows_trait.Causes.{HasFound, HasMoved};
ghost use Rattle.lean_proto.specs.rows_trait.Turns.{Ran};
ghost use Rattle.lean_proto.specs.version_latch.Kept.{Kept};
ghost use Rattle.btree_descent.specs.Known.{IsSound};
ghost use Rattle.btree_descent.specs.Named.{met_or};
ghost use Rattle.btree_descent.specs.Descents.{Sized};
ghost use Rattle.btree_descent.specs.Nexts.{MayWalk, IsWalked, IsMet, WalkCaused};
ghost use Rattle.btree_descent.specs.Inside.{AtLeaf, IsSeen};
ghost use Rattle.btree_descent.specs.Meets.{Meets, HasIts, MayFollow, IsFollowed, answer_with, next_of};

use crate::descent::{Leaf, Stop, TOMBSTONE, last_log, way};
use crate::events::Nexts;
use crate::node::place;
use crate::trace::Untraced;
use lean_proto::{Checks, Glimpse, Latched, Moved, Rows};

/// Which keys a worker has locked, shared or alone.
pub trait Locked {
    // It has locked the key, and so holds its row.
    ghost locked: { Self → ℕ → Type 0 };

    /// Whether it has locked the key.
    fn has(&self, key: u64) -> bool
        ensures { result ≡ true ↔ locked self.now key };
}

/// A leaf's stamp: the number of the last record that changed it, and that record's log.
#[derive(Clone, Copy, Debug, PartialEq, Eq)]
pub struct Stamp {
    pub number: u64,
    pub log: u32,
}

/// What a walk met.
#[derive(Clone, Copy)]
pub enum Following {
    /// The least live pair of the key's leaf at or above the key.
    Pair { key: u64, value: u64, stamp: Stamp },
    /// The leaf has none: up to this high fence there is no live pair.
    Gap { high: u64, stamp: Stamp },
    /// An entry on the way, a tombstone maybe, whose key is not locked: lock it, and walk again.
    Unlocked { key: u64 },
    /// The page on the way that is not hot, by its number.
    Cold(u64),
    Moved(Moved),
    Latched(Latched),
}

// What the leaf's words say.
#[derive(Clone, Copy)]
pub(crate) enum Meet {
    Pair(u64, u64),
    Gap,
    Unlocked(u64),
}

// The first live pair at or above the key, unless an entry before it or it itself is not locked.
fn walk<R: Rows, H: Locked>(
    rows: &mut R,
    seat: &mut R::Seat,
    glimpse: &Glimpse,
    count: u32,
    key: u64,
    locks: &H,
) -> Meet
    requires fits { R.fits rows.old seat.old }
    requires row { (glimpse.now.row < rows_of (R.shape rows.old).sizes) × (width (R.shape rows.old).sizes glimpse.now.row ≡ 128) }
    requires seen { Has glimpse.now.row glimpse.now.version (R.view seat.old).steps }
    requires count { count ≤ 60 }
    ensures fits { R.fits rows.new seat.new × (R.shape rows.new ≡ R.shape rows.old) }
    ensures kept { Kept (R.shape rows.old).alone (R.view seat.old) (R.view seat.new) }
    ensures meets { (p : stored.Page) → IsSeen glimpse.now.row glimpse.now.version count (R.view seat.new).steps p → Meets (H.locked locks.now) key p.node result }
    ensures locked { HasIts (H.locked locks.now) result }
{
    let from = place(rows, seat, glimpse, count, key);
    for i in from..count {
        let at = glimpse.word(rows, seat, 6 + 2 * i);
        if !locks.has(at) {
            return Meet::Unlocked(at);
        }
        let word = glimpse.word(rows, seat, 7 + 2 * i);
        if word < TOMBSTONE {
            return Meet::Pair(at, word);
        }
    }
    Meet::Gap
}

// The way from the key on, as the leaf's last check shows it: the pair that follows, or none.
fn follow<R: Rows>(
    rows: &mut R,
    seat: &mut R::Seat,
    leaf: &Leaf,
    worker: u32,
    frames: u32,
    key: u64,
    pair: Option<(u64, u64)>,
) -> Result<(), Moved>
    requires fits { R.fits rows.old seat.old }
    requires leaf { AtLeaf (R.shape rows.old) (R.view seat.old) worker frames key leaf.now.glimpse leaf.now.head }
    requires may { MayFollow (R.view seat.old) worker pair }
    requires says { (p : stored.Page) → IsSeen leaf.now.glimpse.row leaf.now.glimpse.version (leaf.now.head.packed % 256) (R.view seat.old).steps p → following (format_of 1) key p.node.pairs p.node.high ≡ answer_with pair p.node.high }
    ensures fits { R.fits rows.new seat.new × (R.shape rows.new ≡ R.shape rows.old) × ((R.view seat.new).held ≡ (R.view seat.old).held) }
    ensures ok { IfOk result (λ _. (number : ℕ) → Knows leaf.now.glimpse.row leaf.now.glimpse.version 1 number (R.view seat.old).steps → IsFollowed (R.shape rows.old).alone worker key (met_or pair leaf.now.head.high) leaf.now.glimpse.row leaf.now.glimpse.version (leaf.now.head.packed % 256) number (leaf.now.head.packed / 65536 % 256) leaf.now.head.high (R.view seat.old) (R.view seat.new)) }
    ensures err { IfErr result (λ m. Ran (R.shape rows.old).alone (R.view seat.old) (Miss worker ∷ []) (R.view seat.new)) }
    ensures cause { IfErr result (λ m. (u : View) → HasFound leaf.now.glimpse.row leaf.now.glimpse.version u (R.view seat.old) → HasMoved m.row m.seen m.found u (R.view seat.new)) }
    ensures quiet { IfErr result (λ _. (R.shape rows.old).alone ≡ true → latest leaf.now.glimpse.row (R.view seat.old).steps ≡ Some leaf.now.glimpse.version → ⊥) }
{
    let glimpse = leaf.glimpse;
    let nexts = Nexts {
        worker,
        page: leaf.head.page as u32,
        key,
        pair,
        high: leaf.head.high,
        version: glimpse.version,
    };
    match glimpse.check(rows, seat, &nexts) {
        Ok(()) => Ok(()),
        Err(moved) => Err(moved),
    }
}

// What the leaf says of the way from the key on.
fn tell<R: Rows, H: Locked>(
    rows: &mut R,
    seat: &mut R::Seat,
    leaf: &Leaf,
    worker: u32,
    frames: u32,
    key: u64,
    locks: &H,
) -> Following
    requires fits { R.fits rows.old seat.old }
    requires leaf { AtLeaf (R.shape rows.old) (R.view seat.old) worker frames key leaf.now.glimpse leaf.now.head }
    requires may { MayWalk (R.view seat.old) worker (H.locked locks.now) }
    ensures fits { R.fits rows.new seat.new × (R.shape rows.new ≡ R.shape rows.old) × ((R.view seat.new).held ≡ (R.view seat.old).held) }
    ensures walked { IsWalked (R.shape rows.old).alone worker key (H.locked locks.now) (R.view seat.old) result (R.view seat.new) }
    ensures cause { (u : View) → HasFound leaf.now.glimpse.row leaf.now.glimpse.version u (R.view seat.old) → WalkCaused u result (R.view seat.new) }
    ensures quiet { (R.shape rows.old).alone ≡ true → latest leaf.now.glimpse.row (R.view seat.old).steps ≡ Some leaf.now.glimpse.version → IsMet result }
{
    let glimpse = leaf.glimpse;
    let number = glimpse.word(rows, seat, 1);
    let stamp = Stamp {
        number,
        log: last_log(&leaf.head),
    };
    match walk(
        rows,
        seat,
        &glimpse,
        (leaf.head.packed % 256) as u32,
        key,
        locks,
    ) {
        Meet::Pair(at, value) => {
            match follow(rows, seat, leaf, worker, frames, key, Some((at, value))) {
                Ok(()) => Following::Pair {
                    key: at,
                    value,
                    stamp,
                },
                Err(moved) => Following::Moved(moved),
            }
        }
        Meet::Gap => {
            match follow(rows, seat, leaf, worker, frames, key, None) {
                Ok(()) => Following::Gap {
                    high: leaf.head.high,
                    stamp,
                },
                Err(moved) => Following::Moved(moved),
            }
        }
        Meet::Unlocked(at) => {
            let checks = Checks {
                worker,
                version: glimpse.version,
            };
            match glimpse.check(rows, seat, &checks) {
                Ok(()) => Following::Unlocked { key: at },
                Err(moved) => Following::Moved(moved),
            }
        }
    }
}

fn next_of(stop: Stop) -> Following
    ensures { result ≡ next_of stop }
{
    match stop {
        Stop::Cold(page) => Following::Cold(page),
        Stop::Moved(moved) => Following::Moved(moved),
        Stop::Latched(latched) => Following::Latched(latched),
    }
}

/// The least live pair at or above a key in the key's leaf, for `worker`, in an open transaction, over rows whose first `frames` are
/// frames. `locks` says which keys the worker has locked.
///
/// Pair and Gap append the walk, at the leaf's last check: the pair is the least live one of the leaf at or above the key, or up to the
/// leaf's high fence there is none, and to go on is to walk from there. Each entry that it met, tombstones and the pair, was locked; the
/// stamp is the leaf's, which the worker is to touch. Unlocked appends nothing, and names the first entry on the way that is not locked.
/// Cold names a page that is not hot, and appends nothing. Moved and Latched append a miss: try again. Where nobody else steps these
/// two never come.
pub fn next<R: Rows, H: Locked>(
    rows: &mut R,
    seat: &mut R::Seat,
    worker: u32,
    frames: u32,
    key: u64,
    locks: &H,
) -> Following
    requires fits { R.fits rows.old seat.old }
    requires sized { Sized (R.shape rows.old) (R.view seat.old) frames }
    requires actor { may (R.shape rows.old).alone (R.view seat.old) worker ≡ true }
    requires sound { IsSound (R.view seat.old).given }
    requires key { key < 2 ^ 64 - 1 }
    requires may { MayWalk (R.view seat.old) worker (H.locked locks.now) }
    ensures fits { R.fits rows.new seat.new × (R.shape rows.new ≡ R.shape rows.old) × ((R.view seat.new).held ≡ (R.view seat.old).held) }
    ensures walked { IsWalked (R.shape rows.old).alone worker key (H.locked locks.now) (R.view seat.old) result (R.view seat.new) }
    ensures cause { WalkCaused (R.view seat.old) result (R.view seat.new) }
    ensures quiet { (R.shape rows.old).alone ≡ true → (R.view seat.old).held ≡ [] → IsMet result }
{
    match way(rows, seat, worker, frames, key, &mut Untraced) {
        Ok(leaf) => tell(rows, seat, &leaf, worker, frames, key, locks),
        Err(stop) => next_of(stop),
    }
}
