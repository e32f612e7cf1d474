// Rows that are given up as they stood.
ghost use Rattle.std.specs.Prelude.{◌≡◌, ◌<◌, ◌+◌, ◌^◌, [], length};
ghost use Rattle.btree_descent.specs.rows_trait.Layout.{rows_of};
ghost use Rattle.btree_smo.specs.Outcomes.{MissedUpTo};
ghost use Rattle.btree_smo.specs.Inside.Purging.{KeepsPlaces, KeepsBeside};

use crate::gathered::Places;
use btree_descent::{Hold, Rows};

// Gives up the lock rows of these places, the only rows that are held.
pub(crate) fn release_places<R: Rows>(
    rows: &mut R,
    seat: &mut R::Seat,
    frames: u32,
    places: &Places,
)
    requires fits { R.fits rows.old seat.old }
    requires small { rows_of (R.shape rows.old).sizes < 2 ^ 32 }
    requires places { KeepsPlaces (R.shape rows.old) (R.view seat.old) frames places.now }
    ensures fits { R.fits rows.new seat.new × (R.shape rows.new ≡ R.shape rows.old) × ((R.view seat.new).held ≡ []) }
    ensures missed { MissedUpTo (length places.now) (R.shape rows.old).alone (R.view seat.old) (R.view seat.new) }
{
    let all = places.all();
    for i in 0..all.len() {
        rows.release(seat, frames + all[i]);
    }
}

// Gives up a leaf's row and the lock rows of these places, the only rows that are held.
pub(crate) fn give_up_places<R: Rows>(
    rows: &mut R,
    seat: &mut R::Seat,
    frames: u32,
    first: Hold,
    places: &Places,
)
    requires fits { R.fits rows.old seat.old }
    requires small { rows_of (R.shape rows.old).sizes < 2 ^ 32 }
    requires keeps { KeepsBeside (R.shape rows.old) (R.view seat.old) frames first.row places.now }
    ensures fits { R.fits rows.new seat.new × (R.shape rows.new ≡ R.shape rows.old) × ((R.view seat.new).held ≡ []) }
    ensures missed { MissedUpTo (1 + length places.now) (R.shape rows.old).alone (R.view seat.old) (R.view seat.new) }
{
    first.release(rows, seat);
    release_places(rows, seat, frames, places);
}
