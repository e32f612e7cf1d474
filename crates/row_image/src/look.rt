// A row is looked at: its version is found, and found again.
ghost use Rattle.std.specs.Prelude.{◌≡◌, ◌<◌, true, IfOk, IfErr};
ghost use Rattle.btree_descent.specs.rows_trait.Layout.{rows_of};
ghost use Rattle.btree_descent.specs.rows_trait.Views.{IsEven, may};
ghost use Rattle.row_image.specs.Inside.{Begun, Again, IsMovedSince, Refused};

use crate::refusal::Unseen;
use btree_descent::{Checks, Glimpse, Misses, Rows};

// Begins to look at a row.
pub(crate) fn begin<R: Rows>(
    rows: &mut R,
    seat: &mut R::Seat,
    actor: u32,
    row: u32,
) -> Result<Glimpse, Unseen>
    requires fits { R.fits rows.old seat.old }
    requires row { row < rows_of (R.shape rows.old).sizes }
    requires actor { may (R.shape rows.old).alone (R.view seat.old) actor ≡ true }
    ensures fits { R.fits rows.new seat.new × (R.shape rows.new ≡ R.shape rows.old) × ((R.view seat.new).held ≡ (R.view seat.old).held) }
    ensures ok { IfOk result (λ g. (g.row ≡ row) × Begun (R.shape rows.old).alone row g.version (R.view seat.old) (R.view seat.new)) }
    ensures err { IfErr result (λ why. Refused (R.shape rows.old).alone actor (λ q. q ≡ row) (R.view seat.old) why (R.view seat.new)) }
{
    match Glimpse::start(rows, seat, row, &Misses { worker: actor }) {
        Err(latched) => Err(Unseen::Latched(latched)),
        Ok(glimpse) => Ok(glimpse),
    }
}

// Whether the row still has the version.
pub(crate) fn again<R: Rows>(
    rows: &mut R,
    seat: &mut R::Seat,
    actor: u32,
    glimpse: &Glimpse,
) -> Result<(), Unseen>
    requires fits { R.fits rows.old seat.old }
    requires row { glimpse.now.row < rows_of (R.shape rows.old).sizes }
    requires version { IsEven glimpse.now.version }
    requires actor { may (R.shape rows.old).alone (R.view seat.old) actor ≡ true }
    ensures fits { R.fits rows.new seat.new × (R.shape rows.new ≡ R.shape rows.old) × ((R.view seat.new).held ≡ (R.view seat.old).held) }
    ensures ok { IfOk result (λ _. Again (R.shape rows.old).alone glimpse.now.row glimpse.now.version (R.view seat.old) (R.view seat.new)) }
    ensures err { IfErr result (λ why. IsMovedSince (R.shape rows.old).alone actor glimpse.now.row glimpse.now.version (R.view seat.old) why (R.view seat.new)) }
{
    let checks = Checks {
        worker: actor,
        version: glimpse.version,
    };
    match glimpse.check(rows, seat, &checks) {
        Ok(()) => Ok(()),
        Err(moved) => Err(Unseen::Moved(moved)),
    }
}
