// An event of held rows is published at the first of them, and the others, which it changes too, are given up behind it.
ghost use Rattle.std.specs.Prelude.{◌≡◌, ◌∷◌, []};
ghost use Rattle.row_words.specs.declared.event.Event.{Event};
ghost use Rattle.rows_trait.specs.Turns.{MayPublish};
ghost use Rattle.held_rows.specs.Rows.{OpensOne, OpensTwo, OpensThree};
ghost use Rattle.held_rows.specs.Publishing.{IsChanged, Went};

use lean_proto::Hold;
use rows_trait::names::Names;
use rows_trait::rows::Rows;

/// Publishes an event of the only row that is held.
pub fn publish_one<R: Rows, E: Names>(rows: &mut R, seat: &mut R::Seat, hold: Hold, event: &E)
    requires fits { R.fits rows.old seat.old }
    requires one { OpensOne (R.shape rows.old) (R.view seat.old) hold.row }
    requires event { (e : Event) × (E.names event.now 0 ≡ e ∷ []) × MayPublish (R.shape rows.old) hold.row e (R.view seat.old) }
    ensures fits { R.fits rows.new seat.new × (R.shape rows.new ≡ R.shape rows.old) }
    ensures went { (e : Event) → E.names event.now 0 ≡ e ∷ [] → Went (R.shape rows.old).alone (R.view seat.old) e (R.view seat.new) }
{
    hold.publish_as(rows, seat, event);
}

/// Publishes an event of two rows, the only ones that are held.
pub fn publish_two<R: Rows, E: Names>(
    rows: &mut R,
    seat: &mut R::Seat,
    first: Hold,
    second: Hold,
    event: &E,
)
    requires fits { R.fits rows.old seat.old }
    requires two { OpensTwo (R.shape rows.old) (R.view seat.old) first.row second.row }
    requires event { (e : Event) × (E.names event.now 0 ≡ e ∷ []) × MayPublish (R.shape rows.old) first.row e (R.view seat.old) × IsChanged (R.shape rows.old) (R.view seat.old) e second.row }
    ensures fits { R.fits rows.new seat.new × (R.shape rows.new ≡ R.shape rows.old) }
    ensures went { (e : Event) → E.names event.now 0 ≡ e ∷ [] → Went (R.shape rows.old).alone (R.view seat.old) e (R.view seat.new) }
{
    first.publish_as(rows, seat, event);
    second.release(rows, seat);
}

/// Publishes an event of three rows, the only ones that are held.
pub fn publish_three<R: Rows, E: Names>(
    rows: &mut R,
    seat: &mut R::Seat,
    first: Hold,
    second: Hold,
    third: Hold,
    event: &E,
)
    requires fits { R.fits rows.old seat.old }
    requires three { OpensThree (R.shape rows.old) (R.view seat.old) first.row second.row third.row }
    requires event { (e : Event) × (E.names event.now 0 ≡ e ∷ []) × MayPublish (R.shape rows.old) first.row e (R.view seat.old) × IsChanged (R.shape rows.old) (R.view seat.old) e second.row × IsChanged (R.shape rows.old) (R.view seat.old) e third.row }
    ensures fits { R.fits rows.new seat.new × (R.shape rows.new ≡ R.shape rows.old) }
    ensures went { (e : Event) → E.names event.now 0 ≡ e ∷ [] → Went (R.shape rows.old).alone (R.view seat.old) e (R.view seat.new) }
{
    first.publish_as(rows, seat, event);
    second.release(rows, seat);
    third.release(rows, seat);
}
