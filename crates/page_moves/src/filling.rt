// A page comes into an empty row.
ghost use Rattle.std.specs.Prelude.{◌≡◌};
ghost use Rattle.lean_proto.specs.row_words.declared.event.Event.TheVariants.{Load};
ghost use Rattle.held_rows.specs.Rows.{HoldsTwo};
ghost use Rattle.held_rows.specs.Publishing.{Went};
ghost use Rattle.page_moves.specs.Moves.{CanFill};

use crate::events::Loads;
use held_rows::{publish_two, set_word, store};
use lean_proto::{Hold, Node, Rows};
use swips::Swip;

/// The page, as it was saved, comes into the empty row `own`: pair `at` of the node in the row `parent`, which named its number, names
/// that frame.
pub fn fill<R: Rows>(
    rows: &mut R,
    seat: &mut R::Seat,
    mut parent: Hold,
    mut own: Hold,
    at: u32,
    page: u32,
    node: &Node,
)
    requires fits { R.fits rows.old seat.old }
    requires two { HoldsTwo (R.shape rows.old) (R.view seat.old) parent.row own.row }
    requires fills { CanFill (R.shape rows.old) (R.view seat.old) parent.row own.row at page node.now }
    ensures fits { R.fits rows.new seat.new × (R.shape rows.new ≡ R.shape rows.old) }
    ensures went { Went (R.shape rows.old).alone (R.view seat.old) (Load page own.row) (R.view seat.new) }
{
    let frame = own.row;
    store(rows, seat, &mut own, node);
    set_word(rows, seat, &mut own, 126, u64::from(parent.row));
    set_word(rows, seat, &mut own, 127, node.gsn());
    set_word(
        rows,
        seat,
        &mut parent,
        7 + 2 * at,
        Swip::Frame(frame).word(),
    );
    publish_two(rows, seat, parent, own, &Loads { page, frame });
}
