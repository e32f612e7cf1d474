//! At the end of a transaction: its lock rows are latched, and once its end record is staged they are given up.
ghost use Rattle.std.specs.Prelude.{◌≡◌, ◌<◌, ◌≤◌, ◌+◌, ◌%◌, ◌^◌, ℕ, Bool, List, true, false, ◌∷◌, [], length, replicate, slice_set, IsOk, IfOk, IfErr, OnOk, OnErr};
ghost use Rattle.lean_proto.specs.core_state.Needs.{holds_row};
ghost use Rattle.lean_proto.specs.row_words.declared.event.Event.TheVariants.{Miss, Unlock};
ghost use Rattle.lean_proto.specs.row_words.Openings.{opening};
ghost use Rattle.lean_proto.specs.rows_trait.Layout.{rows_of, width};
ghost use Rattle.lean_proto.specs.rows_trait.Views.{holds, without, may, state};
ghost use Rattle.lean_proto.specs.rows_trait.Turns.{Ran};
ghost use Rattle.key_locks.specs.Rows.{Spans, Sized};
ghost use Rattle.key_locks.specs.Inside.{IsCaught};
ghost use Rattle.key_locks.specs.Latching.{is_marked, AreLatched, StartsFree, NotLatched, IsAlone, IsGivenUp};

use crate::events::Unlocks;
use crate::held::unlock_row;
use lean_proto::{Checks, Glimpse, Hold, Latched, Misses, Moved, Rows, Unheld};
use std::alloc::{AllocError, Global};
use std::marker::Model;

/// Why a lock row was not latched.
#[derive(Clone, Copy)]
pub enum Unlatched {
    /// The row had another version at a later look.
    Moved(Moved),
    /// Another seat held the row.
    Latched(Latched),
    /// The version of the row has come to the last one.
    RowSpent { row: u32 },
}

/// The lock rows that a session has latched, one mark a row. Two keys of one row are one row: the first call on it does the work,
/// a second does nothing.
#[derive(Drop)]
pub struct Latches {
    marks: Vec<bool>,
}

impl Model for Latches {
    ghost Value = { List Bool };

    ghost view = { λ l. l.marks.items };
}

// Latches a row as it stands.
fn latch_row<R: Rows>(
    rows: &mut R,
    seat: &mut R::Seat,
    worker: u32,
    row: u32,
) -> Result<(), Unlatched>
    requires fits { R.fits rows.old seat.old }
    requires row { row < rows_of (R.shape rows.old).sizes }
    requires actor { may (R.shape rows.old).alone (R.view seat.old) worker ≡ true }
    ensures fits { R.fits rows.new seat.new × (R.shape rows.new ≡ R.shape rows.old) }
    ensures ok { IfOk result (λ _. IsCaught (R.shape rows.old).alone row (width (R.shape rows.old).sizes row) (R.view seat.old) (R.view seat.new)) }
    ensures same { OnErr result ((R.view seat.new).held ≡ (R.view seat.old).held) }
    ensures err { IfErr result (λ e. NotLatched (R.shape rows.old).alone worker row (R.view seat.old) e (R.view seat.new)) }
    ensures quiet { IfErr result (λ e. (R.shape rows.old).alone ≡ true → holds (R.view seat.old).held row ≡ false → IsAlone e) }
{
    let glimpse = match Glimpse::start(rows, seat, row, &Misses { worker }) {
        Ok(glimpse) => glimpse,
        Err(latched) => return Err(Unlatched::Latched(latched)),
    };
    let checks = Checks {
        worker,
        version: glimpse.version,
    };
    match glimpse.upgrade(rows, seat, &checks) {
        Ok(hold) => {
            let Hold { row: _ } = hold;
            Ok(())
        }
        Err(Unheld::Moved(moved)) => Err(Unlatched::Moved(moved)),
        Err(Unheld::RowSpent) => Err(Unlatched::RowSpent { row }),
    }
}

impl Latches {
    /// No latch, of so many lock rows. The one error is that memory is refused.
    pub fn new(alloc: Global, locks: u32) -> Result<Latches, AllocError>
        ensures none { IfOk result (λ l. l ≡ replicate locks false) }
        ensures tied { IfOk result (λ l. StartsFree locks l) }
    {
        let mut marks = Vec::new(alloc);
        marks.resize(locks as usize, false)?;
        Ok(Latches { marks })
    }

    // The place of a key's lock row among the lock rows.
    fn place(&self, key: u64) -> usize
        requires { 0 < length self.now }
        ensures { (result ≡ key % length self.now) × (result < length self.now) }
    {
        let rows = self.marks.len() as u64;
        // A lock row's own number is its place.
        if key < rows {
            return key as usize;
        }
        (key % rows) as usize
    }

    /// Latches the lock row of a key as it stands. Where the row is marked that is Ok at once.
    pub fn latch<R: Rows>(
        &mut self,
        rows: &mut R,
        seat: &mut R::Seat,
        worker: u32,
        frames: u32,
        key: u64,
    ) -> Result<(), Unlatched>
        requires fits { R.fits rows.old seat.old }
        requires sized { Sized (R.shape rows.old) (R.view seat.old) worker frames (length self.old) }
        requires actor { may (R.shape rows.old).alone (R.view seat.old) worker ≡ true }
        requires tied { AreLatched frames self.old (R.view seat.old).held }
        ensures fits { R.fits rows.new seat.new × (R.shape rows.new ≡ R.shape rows.old) }
        ensures tied { AreLatched frames self.new (R.view seat.new).held }
        ensures ok { OnOk result ((self.new ≡ slice_set self.old (key % length self.old) true) × Ran (R.shape rows.old).alone (R.view seat.old) [] (R.view seat.new)) }
        ensures rest { without (R.view seat.new).held (frames + key % length self.old) ≡ without (R.view seat.old).held (frames + key % length self.old) }
        ensures same { OnErr result ((self.new ≡ self.old) × ((R.view seat.new).held ≡ (R.view seat.old).held)) }
        ensures again { is_marked self.old (key % length self.old) ≡ true → IsOk result × (R.view seat.new ≡ R.view seat.old) }
        ensures err { IfErr result (λ e. NotLatched (R.shape rows.old).alone worker (frames + key % length self.old) (R.view seat.old) e (R.view seat.new)) }
        ensures quiet { IfErr result (λ e. (R.shape rows.old).alone ≡ true → IsAlone e) }
    {
        let place = self.place(key);
        if self.marks[place] {
            return Ok(());
        }
        latch_row(rows, seat, worker, frames + place as u32)?;
        self.marks[place] = true;
        Ok(())
    }

    /// Gives the latch of the lock row of a key back, with a miss. Where the row is not marked nothing is done.
    pub fn unlatch<R: Rows>(&mut self, rows: &mut R, seat: &mut R::Seat, frames: u32, key: u64)
        requires fits { R.fits rows.old seat.old }
        requires spans { Spans (R.shape rows.old) frames (length self.old) }
        requires tied { AreLatched frames self.old (R.view seat.old).held }
        ensures fits { R.fits rows.new seat.new × (R.shape rows.new ≡ R.shape rows.old) }
        ensures tied { AreLatched frames self.new (R.view seat.new).held }
        ensures marks { self.new ≡ slice_set self.old (key % length self.old) false }
        ensures rest { without (R.view seat.new).held (frames + key % length self.old) ≡ without (R.view seat.old).held (frames + key % length self.old) }
        ensures ran { is_marked self.old (key % length self.old) ≡ true → Ran (R.shape rows.old).alone (R.view seat.old) (Miss (R.view seat.old).actor ∷ []) (R.view seat.new) }
        ensures nothing { is_marked self.old (key % length self.old) ≡ false → R.view seat.new ≡ R.view seat.old }
    {
        let place = self.place(key);
        if !self.marks[place] {
            return;
        }
        let hold = Hold {
            row: frames + place as u32,
        };
        hold.release(rows, seat);
        self.marks[place] = false;
    }

    /// Gives up the worker's hold of the lock row of a key, and its latch: the transaction has ended, with this number. Where the
    /// row is not marked nothing is done.
    pub fn unlock<R: Rows>(
        &mut self,
        rows: &mut R,
        seat: &mut R::Seat,
        worker: u32,
        frames: u32,
        key: u64,
        end: u64,
    )
        requires fits { R.fits rows.old seat.old }
        requires sized { Sized (R.shape rows.old) (R.view seat.old) worker frames (length self.old) }
        requires actor { may (R.shape rows.old).alone (R.view seat.old) worker ≡ true }
        requires tied { AreLatched frames self.old (R.view seat.old).held }
        requires ended { (((state (R.view seat.old)).core.worker worker).is_open ≡ false) × (end ≡ ((state (R.view seat.old)).core.worker worker).«end») }
        requires holder { is_marked self.old (key % length self.old) ≡ true → holds_row ((state (R.view seat.old)).core.row (key % length self.old)) worker ≡ true }
        ensures fits { R.fits rows.new seat.new × (R.shape rows.new ≡ R.shape rows.old) }
        ensures tied { AreLatched frames self.new (R.view seat.new).held }
        ensures marks { self.new ≡ slice_set self.old (key % length self.old) false }
        ensures rest { without (R.view seat.new).held (frames + key % length self.old) ≡ without (R.view seat.old).held (frames + key % length self.old) }
        ensures given_up { is_marked self.old (key % length self.old) ≡ true → IsGivenUp (R.shape rows.old).alone worker (key % length self.old) end (R.view seat.old) (R.view seat.new) }
        ensures nothing { is_marked self.old (key % length self.old) ≡ false → R.view seat.new ≡ R.view seat.old }
    {
        let place = self.place(key);
        if !self.marks[place] {
            return;
        }
        let row = place as u32;
        unlock_row(rows, seat, frames + row, &Unlocks { worker, row }, end);
        self.marks[place] = false;
    }
}
