// What changes the row of the page alone.
ghost use Rattle.std.specs.Prelude.{◌≡◌};
ghost use Rattle.lean_proto.specs.row_words.declared.event.Event.TheVariants.{Save, Evict};
ghost use Rattle.held_rows.specs.Rows.{HoldsOne};
ghost use Rattle.held_rows.specs.Publishing.{Went};
ghost use Rattle.page_moves.specs.Moves.{CanEvict, CanSave};

use crate::events::{Evicts, Saves};
use held_rows::{publish_one, set_word};
use lean_proto::{Hold, Rows};

/// Notes that the page in the held row was saved as it stands: its number is that of what is saved, and so the page is clean.
pub fn note_saved<R: Rows>(rows: &mut R, seat: &mut R::Seat, mut hold: Hold, page: u32, number: u64)
    requires fits { R.fits rows.old seat.old }
    requires one { HoldsOne (R.shape rows.old) (R.view seat.old) hold.row }
    requires saves { CanSave (R.shape rows.old) (R.view seat.old) hold.row page number }
    ensures fits { R.fits rows.new seat.new × (R.shape rows.new ≡ R.shape rows.old) }
    ensures went { Went (R.shape rows.old).alone (R.view seat.old) (Save page) (R.view seat.new) }
{
    set_word(rows, seat, &mut hold, 127, number);
    publish_one(rows, seat, hold, &Saves { page });
}

/// The page in the held row leaves it. The row has the mark already, so no word is stored.
pub fn evict<R: Rows>(rows: &mut R, seat: &mut R::Seat, hold: Hold, page: u32)
    requires fits { R.fits rows.old seat.old }
    requires one { HoldsOne (R.shape rows.old) (R.view seat.old) hold.row }
    requires evicts { CanEvict (R.shape rows.old) (R.view seat.old) hold.row page }
    ensures fits { R.fits rows.new seat.new × (R.shape rows.new ≡ R.shape rows.old) }
    ensures went { Went (R.shape rows.old).alone (R.view seat.old) (Evict page) (R.view seat.new) }
{
    publish_one(rows, seat, hold, &Evicts { page });
}
