// What changes the row of the page and that of the node which names it.
ghost use Rattle.std.specs.Prelude.{◌≡◌};
ghost use Rattle.lean_proto.specs.row_words.declared.event.Event.TheVariants.{Cool, Rescue};
ghost use Rattle.held_rows.specs.Rows.{HoldsTwo};
ghost use Rattle.held_rows.specs.Publishing.{Went};
ghost use Rattle.page_moves.specs.Moves.{CanUnlink, CanRelink};

use crate::events::{Cools, Rescues};
use held_rows::{publish_two, set_word};
use lean_proto::{Hold, Rows};
use swips::{MARK, Swip};

/// The page in the row `own` cools: pair `at` of the node in the row `parent`, which named its frame, names its number.
pub fn unlink<R: Rows>(
    rows: &mut R,
    seat: &mut R::Seat,
    mut parent: Hold,
    mut own: Hold,
    at: u32,
    page: u32,
)
    requires fits { R.fits rows.old seat.old }
    requires two { HoldsTwo (R.shape rows.old) (R.view seat.old) parent.row own.row }
    requires unlinks { CanUnlink (R.shape rows.old) (R.view seat.old) parent.row own.row at page }
    ensures fits { R.fits rows.new seat.new × (R.shape rows.new ≡ R.shape rows.old) }
    ensures went { Went (R.shape rows.old).alone (R.view seat.old) (Cool page) (R.view seat.new) }
{
    set_word(rows, seat, &mut parent, 7 + 2 * at, Swip::Page(page).word());
    set_word(rows, seat, &mut own, 126, MARK);
    publish_two(rows, seat, parent, own, &Cools { page });
}

/// The page in the row `own` stays: pair `at` of the node in the row `parent`, which named its number, names its frame.
pub fn relink<R: Rows>(
    rows: &mut R,
    seat: &mut R::Seat,
    mut parent: Hold,
    mut own: Hold,
    at: u32,
    page: u32,
)
    requires fits { R.fits rows.old seat.old }
    requires two { HoldsTwo (R.shape rows.old) (R.view seat.old) parent.row own.row }
    requires relinks { CanRelink (R.shape rows.old) (R.view seat.old) parent.row own.row at page }
    ensures fits { R.fits rows.new seat.new × (R.shape rows.new ≡ R.shape rows.old) }
    ensures went { Went (R.shape rows.old).alone (R.view seat.old) (Rescue page) (R.view seat.new) }
{
    set_word(
        rows,
        seat,
        &mut parent,
        7 + 2 * at,
        Swip::Frame(own.row).word(),
    );
    set_word(rows, seat, &mut own, 126, u64::from(parent.row));
    publish_two(rows, seat, parent, own, &Rescues { page });
}
