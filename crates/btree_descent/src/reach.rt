//! The way to a key's leaf, with its path and without a read.
ghost use Rattle.std.specs.Prelude.{◌≡◌, ◌<◌, ◌^◌, ◌-◌, true, [], IfOk, IfErr};
ghost use Rattle.lean_proto.specs.rows_trait.Views.{may};
ghost use Rattle.btree_descent.specs.Known.{IsSound};
ghost use Rattle.btree_descent.specs.Descents.{Sized};
ghost use Rattle.btree_descent.specs.Reaches.{CameThere, IsSettledWay, WayCaused, WentThere};

use crate::descent::{Stop, again, way};
use lean_proto::path::Path;
use lean_proto::{Latched, Moved, Rows};

/// What a descent came to that reads nothing.
#[derive(Clone, Copy)]
pub enum Way {
    /// The key's leaf stands hot in this row.
    Leaf { row: u32 },
    /// The page on the way that is not hot, by its number.
    Cold(u64),
    /// A row had another version at the second look than at the first.
    Moved(Moved),
    /// A row was held by another seat.
    Latched(Latched),
}

fn way_of(stop: Stop) -> Way
    ensures { result ≡ Rattle.btree_descent.specs.Reaches.way_of stop }
{
    match stop {
        Stop::Cold(page) => Way::Cold(page),
        Stop::Moved(moved) => Way::Moved(moved),
        Stop::Latched(latched) => Way::Latched(latched),
    }
}

/// The way to a key's leaf, over rows whose first `frames` are frames. `path` has the frames that it came through then, the root's first: to the
/// leaf's, or to that of the node that names the page that is not hot.
///
/// Leaf and Cold append nothing. Moved and Latched append a miss, and say which row, and which numbers of its latch were loaded: try again. Where
/// nobody else steps these two never come.
pub fn reach<R: Rows>(
    rows: &mut R,
    seat: &mut R::Seat,
    worker: u32,
    frames: u32,
    key: u64,
    path: &mut Path,
) -> Way
    requires fits { R.fits rows.old seat.old }
    requires sized { Sized (R.shape rows.old) (R.view seat.old) frames }
    requires actor { may (R.shape rows.old).alone (R.view seat.old) worker ≡ true }
    requires sound { IsSound (R.view seat.old).given }
    requires key { key < 2 ^ 64 - 1 }
    requires path { path.old ≡ [] }
    ensures fits { R.fits rows.new seat.new × (R.shape rows.new ≡ R.shape rows.old) × ((R.view seat.new).held ≡ (R.view seat.old).held) }
    ensures went { WentThere (R.shape rows.old).alone worker key (R.view seat.old) result (R.view seat.new) }
    ensures came { CameThere (R.shape rows.old).alone frames key path.new (R.view seat.old) result (R.view seat.new) }
    ensures cause { WayCaused (R.view seat.old) result (R.view seat.new) }
    ensures quiet { (R.shape rows.old).alone ≡ true → (R.view seat.old).held ≡ [] → IsSettledWay result }
{
    let leaf = match way(rows, seat, worker, frames, key, path) {
        Ok(leaf) => leaf,
        Err(stop) => return way_of(stop),
    };
    match again(rows, seat, &leaf.glimpse, worker, frames, key) {
        Ok(()) => Way::Leaf {
            row: leaf.glimpse.row,
        },
        Err(moved) => Way::Moved(moved),
    }
}
