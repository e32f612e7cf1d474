//! A look at a row from an even version on: begun, used, and checked or upgraded.
ghost use Rattle.std.specs.Prelude.{◌≡◌, ◌≢◌, ◌+◌, ◌%◌, ◌<◌, ◌≤◌, ◌^◌, ℕ, true, false, [], IfOk, IfErr, slice_index};
ghost use Rattle.rows_trait.specs.row_words.Sealed.{Shown};
ghost use Rattle.rows_trait.specs.Layout.{rows_of, width};
ghost use Rattle.rows_trait.specs.Views.{IsEven, AreSilent, Has, Since, IsStill, Knows, latest, holds, may, state};
ghost use Rattle.rows_trait.specs.Causes.{HasFound, IsLatched, HasMoved};
ghost use Rattle.rows_trait.specs.declared.view.View.{View};
ghost use Rattle.rows_trait.specs.Turns.{Looked, Loaded, Taken};
ghost use Rattle.version_latch.specs.Unheld.{NotHeld};

use crate::hold::Hold;
use rows_trait::names::Names;
use rows_trait::rows::{Latch, Rows};

/// No row is latched from this version on, so that no latch ever overflows. A row takes 2^61 changes to come there.
pub const LAST: u64 = 1 << 62;

/// A row and the even version that was seen of it. What is loaded through it counts once `check` or `upgrade` has passed.
#[derive(Clone, Copy)]
pub struct Glimpse {
    pub row: u32,
    pub version: u64,
}

/// The latch of the row was odd, `word`: another seat held the row.
#[derive(Clone, Copy)]
pub struct Latched {
    pub row: u32,
    pub word: u64,
}

/// The latch of the row was `found` where it had been `seen`: the row was latched in between, and may have changed.
#[derive(Clone, Copy)]
pub struct Moved {
    pub row: u32,
    pub seen: u64,
    pub found: u64,
}

/// Why a row was not latched.
#[derive(Clone, Copy)]
pub enum Unheld {
    Moved(Moved),
    /// The version has come to `LAST`.
    RowSpent,
}

impl Glimpse {
    /// Begins to look at a row: its version where the row is free, or else the odd word of its latch.
    pub fn start<R: Rows, E: Names>(
        rows: &mut R,
        seat: &mut R::Seat,
        row: u32,
        event: &E,
    ) -> Result<Glimpse, Latched>
        requires fits { R.fits rows.old seat.old }
        requires row { row < rows_of (R.shape rows.old).sizes }
        requires event { (n : ℕ) → AreSilent (may (R.shape rows.old).alone (R.view seat.old)) (R.view seat.old).given (E.names event.now n) }
        ensures fits { R.fits rows.new seat.new × (R.shape rows.new ≡ R.shape rows.old) }
        ensures ok { IfOk result (λ g. (g.row ≡ row) × IsEven g.version × Has row g.version (R.view seat.new).steps × Looked (R.shape rows.old) row (E.names event.now) (R.view seat.old) g.version (R.view seat.new)) }
        ensures err { IfErr result (λ l. (l.row ≡ row) × (l.word % 2 ≡ 1) × Looked (R.shape rows.old) row (E.names event.now) (R.view seat.old) l.word (R.view seat.new)) }
        ensures since { IfOk result (λ g. Since row g.version (R.view seat.new).seen (R.view seat.new).steps × HasFound row g.version (R.view seat.old) (R.view seat.new)) }
        ensures cause { IfErr result (λ l. IsLatched l.row l.word (R.view seat.old) (R.view seat.new)) }
    {
        let version = rows.load_latch(seat, row, event);
        if version % 2 == 0 {
            Ok(Glimpse { row, version })
        } else {
            Err(Latched { row, word: version })
        }
    }

    /// Loads a word of the row. It counts once `check` has answered Ok.
    pub fn word<R: Rows>(&self, rows: &mut R, seat: &mut R::Seat, word: u32) -> u64
        requires fits { R.fits rows.old seat.old }
        requires place { (self.now.row < rows_of (R.shape rows.old).sizes) × (word < width (R.shape rows.old).sizes self.now.row) }
        requires seen { Has self.now.row self.now.version (R.view seat.old).steps }
        ensures fits { R.fits rows.new seat.new × (R.shape rows.new ≡ R.shape rows.old) }
        ensures step { Loaded (R.shape rows.old) self.now.row word (R.view seat.old) result (R.view seat.new) }
        ensures knows { Knows self.now.row self.now.version word result (R.view seat.new).steps }
    {
        rows.load_word(seat, self.row, word)
    }

    /// Sees whether the row still has the version. Then what was loaded of it are its words in the core state at this step, and no
    /// event has changed the row since it was looked at; else it has moved.
    pub fn check<R: Rows, E: Names>(
        &self,
        rows: &mut R,
        seat: &mut R::Seat,
        event: &E,
    ) -> Result<(), Moved>
        requires fits { R.fits rows.old seat.old }
        requires row { self.now.row < rows_of (R.shape rows.old).sizes }
        requires version { IsEven self.now.version }
        requires event { (n : ℕ) → AreSilent (may (R.shape rows.old).alone (R.view seat.old)) (R.view seat.old).given (E.names event.now n) }
        ensures fits { R.fits rows.new seat.new × (R.shape rows.new ≡ R.shape rows.old) }
        ensures ok { IfOk result (λ _. Looked (R.shape rows.old) self.now.row (E.names event.now) (R.view seat.old) self.now.version (R.view seat.new)) }
        ensures valid { IfOk result (λ _. (i x : ℕ) → Knows self.now.row self.now.version i x (R.view seat.old).steps → Shown (R.view seat.new).given (state (R.view seat.new)) self.now.row i x) }
        ensures err { IfErr result (λ m. (m.row ≡ self.now.row) × (m.seen ≡ self.now.version) × (m.found ≢ m.seen) × Looked (R.shape rows.old) self.now.row (E.names event.now) (R.view seat.old) m.found (R.view seat.new)) }
        ensures still { IfOk result (λ _. (at : _) → Since self.now.row self.now.version at (R.view seat.old).steps → IsStill (R.view seat.new).given self.now.row at (R.view seat.new).seen) }
        ensures cause { IfErr result (λ m. (u : View) → HasFound self.now.row self.now.version u (R.view seat.old) → HasMoved m.row m.seen m.found u (R.view seat.new)) }
    {
        let found = rows.load_latch(seat, self.row, event);
        if found == self.version {
            Ok(())
        } else {
            Err(Moved {
                row: self.row,
                seen: self.version,
                found,
            })
        }
    }

    /// Latches the row if it still has the version. Then what was loaded of it are the words that it has now.
    pub fn upgrade<R: Rows, E: Names>(
        &self,
        rows: &mut R,
        seat: &mut R::Seat,
        event: &E,
    ) -> Result<Hold, Unheld>
        requires fits { R.fits rows.old seat.old }
        requires row { self.now.row < rows_of (R.shape rows.old).sizes }
        requires version { IsEven self.now.version }
        requires event { (n : ℕ) → AreSilent (may (R.shape rows.old).alone (R.view seat.old)) (R.view seat.old).given (E.names event.now n) }
        ensures fits { R.fits rows.new seat.new × (R.shape rows.new ≡ R.shape rows.old) }
        ensures ok { IfOk result (λ h. (h.row ≡ self.now.row) × Taken (R.shape rows.old) self.now.row self.now.version (E.names event.now) (R.view seat.old) (R.view seat.new)) }
        ensures err { IfErr result (λ u. NotHeld (R.shape rows.old) self.now.row self.now.version (E.names event.now) (R.view seat.old) u (R.view seat.new)) }
    {
        if self.version >= LAST {
            return Err(Unheld::RowSpent);
        }
        match rows.try_latch(seat, self.row, self.version, event) {
            Latch::Held => Ok(Hold { row: self.row }),
            Latch::Found(found) => Err(Unheld::Moved(Moved {
                row: self.row,
                seen: self.version,
                found,
            })),
        }
    }
}
