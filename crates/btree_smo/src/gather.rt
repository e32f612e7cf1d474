// The tombstones of a held leaf that nobody can need, and the latches of their lock rows.
ghost use Rattle.std.specs.Prelude.{◌≡◌, ◌<◌, ◌≤◌, ◌+◌, [], true, length, IfOk, IfErr};
ghost use Rattle.key_locks.specs.Rows as lock_rows;
ghost use Rattle.btree_smo.specs.Purges.{IsFloor};
ghost use Rattle.held_rows.specs.Rows.{HoldsOne};
ghost use Rattle.btree_smo.specs.Inside.Purging.{Holding, CanGo, TookPlace, IsLast};

use crate::gathered::{GoneKeys, Places};
use crate::quiet::{Quiet, latch_quiet};
use btree_descent::descent::TOMBSTONE;
use btree_descent::{Hold, Rows};
use disk_image::Node;

// Latches the lock row of a place, if it is not held yet and nobody can need what it says.
fn take_place<R: Rows>(
    rows: &mut R,
    seat: &mut R::Seat,
    worker: u32,
    frames: u32,
    locks: u32,
    place: u32,
    floor: u64,
    places: &mut Places,
) -> Quiet
    requires fits { R.fits rows.old seat.old }
    requires sized { lock_rows.Sized (R.shape rows.old) (R.view seat.old) worker frames locks }
    requires sound { lock_rows.IsSound (R.view seat.old).given }
    requires place { place < locks }
    requires room { length places.old < 60 }
    ensures fits { R.fits rows.new seat.new × (R.shape rows.new ≡ R.shape rows.old) }
    ensures took { TookPlace (R.shape rows.old) frames place floor places.old (R.view seat.old) result places.new (R.view seat.new) }
{
    if places.has(place) {
        return Quiet::Taken;
    }
    let got = latch_quiet(rows, seat, worker, frames, locks, place, floor);
    if let Quiet::Taken = got {
        places.push(place);
    }
    got
}

// Gathers the keys that can go, and holds their lock rows. An error is a lock row whose version has come to the last one.
pub(crate) fn gather<R: Rows>(
    rows: &mut R,
    seat: &mut R::Seat,
    worker: u32,
    frames: u32,
    locks: u32,
    floor: u64,
    leaf: &Hold,
    node: &Node,
    places: &mut Places,
    keys: &mut GoneKeys,
) -> Result<(), u32>
    requires fits { R.fits rows.old seat.old }
    requires sized { lock_rows.Sized (R.shape rows.old) (R.view seat.old) worker frames locks }
    requires sound { lock_rows.IsSound (R.view seat.old).given }
    requires leaf { HoldsOne (R.shape rows.old) (R.view seat.old) leaf.now.row }
    requires floor { IsFloor (R.shape rows.old) (R.view seat.old) floor }
    requires places { places.old ≡ [] }
    requires keys { keys.old ≡ [] }
    ensures fits { R.fits rows.new seat.new × (R.shape rows.new ≡ R.shape rows.old) }
    ensures holding { Holding (R.shape rows.old) frames floor leaf.now.row places.new (R.view seat.old) (R.view seat.new) }
    ensures gone { IfOk result (λ _. CanGo (R.shape rows.old) locks node.now.node.pairs (length node.now.node.pairs) places.new keys.new (R.view seat.new)) }
    ensures few { length places.new ≤ 60 }
    ensures spent { IfErr result (λ row. IsLast row (R.view seat.old) (R.view seat.new)) }
{
    let _ = node.pairs();
    for i in 0..node.count() {
        if node.word_at(i) == TOMBSTONE {
            let key = node.key_at(i);
            let place = (key % u64::from(locks)) as u32;
            match take_place(rows, seat, worker, frames, locks, place, floor, places) {
                Quiet::Taken => keys.push(key),
                Quiet::Busy => {}
                Quiet::Spent => return Err(frames + place),
            }
        }
    }
    Ok(())
}
