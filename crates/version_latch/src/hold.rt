//! A row that is held: its words are stored one by one, and then it is given up, with an event or as it stood.
ghost use Rattle.std.specs.Prelude.{◌≡◌, ◌<◌, true, false, ◌∷◌, []};
ghost use Rattle.rows_trait.specs.Layout.{rows_of, width};
ghost use Rattle.rows_trait.specs.Views.{holds, held_at};
ghost use Rattle.rows_trait.specs.Turns.{Stored, MayPublish, Published, Released};

use rows_trait::names::Names;
use rows_trait::rows::Rows;

/// A row that a seat holds. It is no `Drop`: it ends by `publish_as` or by `release`.
pub struct Hold {
    pub row: u32,
}

impl Hold {
    /// Stores a word of the row. Readers see it, but find another version once they check.
    pub fn set<R: Rows>(&mut self, rows: &mut R, seat: &mut R::Seat, word: u32, value: u64)
        requires fits { R.fits rows.old seat.old }
        requires place { (self.old.row < rows_of (R.shape rows.old).sizes) × (word < width (R.shape rows.old).sizes self.old.row) }
        requires held { (holds (R.view seat.old).held self.old.row ≡ true) × ((held_at (R.view seat.old).held self.old.row).done ≡ false) }
        ensures fits { R.fits rows.new seat.new × (R.shape rows.new ≡ R.shape rows.old) × (self.new.row ≡ self.old.row) }
        ensures step { Stored (R.shape rows.old) self.old.row word value (R.view seat.old) (R.view seat.new) }
    {
        rows.store_word(seat, self.row, word, value);
    }

    /// Publishes an event that changes this row and maybe others that are held, and gives this one up.
    pub fn publish_as<R: Rows, E: Names>(self, rows: &mut R, seat: &mut R::Seat, event: &E)
        requires fits { R.fits rows.old seat.old }
        requires row { self.row < rows_of (R.shape rows.old).sizes }
        requires held { (holds (R.view seat.old).held self.row ≡ true) × ((held_at (R.view seat.old).held self.row).done ≡ false) }
        requires event { (e : _) × (E.names event.now 0 ≡ e ∷ []) × MayPublish (R.shape rows.old) self.row e (R.view seat.old) }
        ensures fits { R.fits rows.new seat.new × (R.shape rows.new ≡ R.shape rows.old) }
        ensures step { (e : _) × (E.names event.now 0 ≡ e ∷ []) × Published (R.shape rows.old) self.row e (R.view seat.old) (R.view seat.new) }
    {
        let Hold { row } = self;
        rows.publish(seat, row, event);
    }

    /// Gives the row up with the words that it has in the core state.
    pub fn release<R: Rows>(self, rows: &mut R, seat: &mut R::Seat)
        requires fits { R.fits rows.old seat.old }
        requires row { self.row < rows_of (R.shape rows.old).sizes }
        requires held { (holds (R.view seat.old).held self.row ≡ true) × ((held_at (R.view seat.old).held self.row).now ≡ (held_at (R.view seat.old).held self.row).was) }
        ensures fits { R.fits rows.new seat.new × (R.shape rows.new ≡ R.shape rows.old) }
        ensures step { Released (R.shape rows.old) self.row (R.view seat.old) (R.view seat.new) }
    {
        let Hold { row } = self;
        rows.release(seat, row);
    }
}
