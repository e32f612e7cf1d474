// The event of a cut is appended, by a load.
ghost use Rattle.std.specs.Prelude.{◌≡◌, true, slice_index};
ghost use Rattle.rows_trait.specs.core_state.Events as happening;
ghost use Rattle.rows_trait.specs.core_state.Needs.{may};
ghost use Rattle.rows_trait.specs.row_words.Openings.{opening};
ghost use Rattle.rows_trait.specs.Views.{state};
ghost use Rattle.row_cuts.specs.Cuts.{HasCut};

use rows_trait::names::Names;
use rows_trait::rows::Rows;
use std::marker::{Brand, PhantomData};

/// Which cut it is: up to which number, and of each log, at its number, the greatest number that its head passes. No code has
/// these; they stand for the proof alone.
pub trait WhichCut {
    ghost use Rattle.std.specs.Prelude.{ℕ, List};

    ghost number: { ℕ };

    ghost heads: { List ℕ };
}

impl WhichCut for Brand {
    ghost use Rattle.std.specs.Prelude.{[]};

    ghost number = { 0 };

    ghost heads = { [] };
}

// The event of that cut.
#[derive(Drop)]
struct Cuts<K: WhichCut> {
    of: PhantomData<K>,
}

impl<K: WhichCut> Names for Cuts<K> {
    ghost use Rattle.std.specs.Prelude.{[], ◌∷◌};
    ghost use Rattle.rows_trait.specs.row_words.declared.event.Event.TheVariants.{Cut};

    ghost names = { λ _ _. Cut K.number K.heads ∷ [] };
}

/// All logs are cut. Rows say nothing of it: no word of a row and no control word is another one, so the event is appended by a
/// load, of the posted need. A cut is of all sessions, so it is made where nobody else steps.
///
/// `logs` is what number and heads are taken from.
pub fn note_cut<R: Rows, K: WhichCut, L>(rows: &mut R, seat: &mut R::Seat, logs: &L)
    requires fits { R.fits rows.old seat.old }
    requires alone { (R.shape rows.old).alone ≡ true }
    requires met { may (opening (R.view seat.old).given) (state (R.view seat.old)).core (happening.Event.Cut K.number (slice_index K.heads)) ≡ true }
    ensures fits { R.fits rows.new seat.new × (R.shape rows.new ≡ R.shape rows.old) }
    ensures cut { HasCut (R.shape rows.old) (R.view seat.old) K.number K.heads (R.view seat.new) }
{
    rows.load_control(seat, 0, 1, &Cuts::<K> { of: PhantomData });
}
