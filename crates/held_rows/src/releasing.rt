// Rows that are given up as they stood.
ghost use Rattle.std.specs.Prelude.{◌≡◌, []};
ghost use Rattle.held_rows.specs.Steps.{MissedUpTo};
ghost use Rattle.held_rows.specs.Rows.{OpensOne, OpensTwo, OpensThree, IsUnchanged};

use lean_proto::Hold;
use rows_trait::rows::Rows;

/// Gives up the only row that is held.
pub fn give_up_one<R: Rows>(rows: &mut R, seat: &mut R::Seat, hold: Hold)
    requires fits { R.fits rows.old seat.old }
    requires one { OpensOne (R.shape rows.old) (R.view seat.old) hold.row }
    requires same { IsUnchanged (R.view seat.old) hold.row }
    ensures fits { R.fits rows.new seat.new × (R.shape rows.new ≡ R.shape rows.old) × ((R.view seat.new).held ≡ []) }
    ensures missed { MissedUpTo 1 (R.shape rows.old).alone (R.view seat.old) (R.view seat.new) }
{
    hold.release(rows, seat);
}

/// Gives up two rows, the only ones that are held.
pub fn give_up_two<R: Rows>(rows: &mut R, seat: &mut R::Seat, first: Hold, second: Hold)
    requires fits { R.fits rows.old seat.old }
    requires two { OpensTwo (R.shape rows.old) (R.view seat.old) first.row second.row }
    requires same { IsUnchanged (R.view seat.old) first.row × IsUnchanged (R.view seat.old) second.row }
    ensures fits { R.fits rows.new seat.new × (R.shape rows.new ≡ R.shape rows.old) × ((R.view seat.new).held ≡ []) }
    ensures missed { MissedUpTo 2 (R.shape rows.old).alone (R.view seat.old) (R.view seat.new) }
{
    second.release(rows, seat);
    give_up_one(rows, seat, first);
}

/// Gives up three rows, the only ones that are held.
pub fn give_up_three<R: Rows>(
    rows: &mut R,
    seat: &mut R::Seat,
    first: Hold,
    second: Hold,
    third: Hold,
)
    requires fits { R.fits rows.old seat.old }
    requires three { OpensThree (R.shape rows.old) (R.view seat.old) first.row second.row third.row }
    requires same { IsUnchanged (R.view seat.old) first.row × IsUnchanged (R.view seat.old) second.row × IsUnchanged (R.view seat.old) third.row }
    ensures fits { R.fits rows.new seat.new × (R.shape rows.new ≡ R.shape rows.old) × ((R.view seat.new).held ≡ []) }
    ensures missed { MissedUpTo 3 (R.shape rows.old).alone (R.view seat.old) (R.view seat.new) }
{
    third.release(rows, seat);
    give_up_two(rows, seat, first, second);
}
