// A free page, which no node names: it changes its own row alone.
ghost use Rattle.std.specs.Prelude.{◌≡◌};
ghost use Rattle.lean_proto.specs.row_words.declared.event.Event.TheVariants.{Cool, Load, Rescue};
ghost use Rattle.held_rows.specs.Rows.{HoldsOne};
ghost use Rattle.held_rows.specs.Publishing.{Went};
ghost use Rattle.page_moves.specs.Moves.{CanChill, CanFillFree, CanRevive};

use crate::events::{Cools, Loads, Rescues};
use held_rows::{publish_one, set_word, store};
use lean_proto::{Hold, Node, Rows};
use swips::{MARK, NO_HINT};

/// The free page in the row cools.
pub fn chill<R: Rows>(rows: &mut R, seat: &mut R::Seat, mut own: Hold, page: u32)
    requires fits { R.fits rows.old seat.old }
    requires one { HoldsOne (R.shape rows.old) (R.view seat.old) own.row }
    requires chills { CanChill (R.shape rows.old) (R.view seat.old) own.row page }
    ensures fits { R.fits rows.new seat.new × (R.shape rows.new ≡ R.shape rows.old) }
    ensures went { Went (R.shape rows.old).alone (R.view seat.old) (Cool page) (R.view seat.new) }
{
    set_word(rows, seat, &mut own, 126, MARK);
    publish_one(rows, seat, own, &Cools { page });
}

/// The free page in the row stays, to be given out.
pub fn revive<R: Rows>(rows: &mut R, seat: &mut R::Seat, mut own: Hold, page: u32)
    requires fits { R.fits rows.old seat.old }
    requires one { HoldsOne (R.shape rows.old) (R.view seat.old) own.row }
    requires revives { CanRevive (R.shape rows.old) (R.view seat.old) own.row page }
    ensures fits { R.fits rows.new seat.new × (R.shape rows.new ≡ R.shape rows.old) }
    ensures went { Went (R.shape rows.old).alone (R.view seat.old) (Rescue page) (R.view seat.new) }
{
    set_word(rows, seat, &mut own, 126, NO_HINT);
    publish_one(rows, seat, own, &Rescues { page });
}

/// The free page, as it was saved, comes into the empty row.
pub fn fill_free<R: Rows>(rows: &mut R, seat: &mut R::Seat, mut own: Hold, page: u32, node: &Node)
    requires fits { R.fits rows.old seat.old }
    requires one { HoldsOne (R.shape rows.old) (R.view seat.old) own.row }
    requires fills { CanFillFree (R.shape rows.old) (R.view seat.old) own.row page node.now }
    ensures fits { R.fits rows.new seat.new × (R.shape rows.new ≡ R.shape rows.old) }
    ensures went { Went (R.shape rows.old).alone (R.view seat.old) (Load page own.row) (R.view seat.new) }
{
    let frame = own.row;
    store(rows, seat, &mut own, node);
    set_word(rows, seat, &mut own, 126, NO_HINT);
    set_word(rows, seat, &mut own, 127, node.gsn());
    publish_one(rows, seat, own, &Loads { page, frame });
}
