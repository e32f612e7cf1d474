//! A held lock row: its words are loaded, those that change are stored, and it is given up with the event.
ghost use Rattle.std.specs.Prelude.{◌≡◌, ◌<◌, ℕ, List, true, false, slice_index, slice_set, length};
ghost use Rattle.lean_proto.specs.core_state.Steps as core;
ghost use Rattle.lean_proto.specs.core_state.Needs as needs;
ghost use Rattle.lean_proto.specs.row_words.declared.event.Event.TheVariants.{Lock, Unlock};
ghost use Rattle.lean_proto.specs.row_words.Moments.{event_of};
ghost use Rattle.lean_proto.specs.row_words.Openings.{opening};
ghost use Rattle.lean_proto.specs.rows_trait.Layout.{rows_of, width};
ghost use Rattle.lean_proto.specs.rows_trait.Views.{holds, held_at, without, may, state};
ghost use Rattle.key_locks.specs.Rows.{IsWorker, core_mode, event_mode};
ghost use Rattle.key_locks.specs.Inside.{list_of, IsSaid, IsAt, IsHeld, Stayed};
ghost use Rattle.key_locks.specs.Locking.{IsPublished};
ghost use Rattle.key_locks.specs.Latching.{IsLatch};

use crate::events::{Locks, Unlocks};
use crate::mode::Mode;
use crate::words::Words;
use lean_proto::{Hold, Rows};

// Stores a word if it is another than it was.
fn store_changed<R: Rows>(
    rows: &mut R,
    seat: &mut R::Seat,
    hold: &mut Hold,
    word: u32,
    was: u64,
    now: u64,
)
    requires fits { R.fits rows.old seat.old }
    requires place { (hold.old.row < rows_of (R.shape rows.old).sizes) × (word < width (R.shape rows.old).sizes hold.old.row) }
    requires held { (holds (R.view seat.old).held hold.old.row ≡ true) × ((held_at (R.view seat.old).held hold.old.row).done ≡ false) }
    requires was { slice_index (held_at (R.view seat.old).held hold.old.row).now word ≡ was }
    ensures fits { R.fits rows.new seat.new × (R.shape rows.new ≡ R.shape rows.old) × (hold.new.row ≡ hold.old.row) }
    ensures stayed { Stayed (R.shape rows.old).alone hold.old.row (R.view seat.old) (R.view seat.new) }
    ensures stored { (words : List ℕ) → IsHeld hold.old.row words (R.view seat.old) → IsHeld hold.old.row (slice_set words word now) (R.view seat.new) }
{
    if now == was {
        return;
    }
    hold.set(rows, seat, word, now);
}

// Stores the words of a lock row that change.
fn store<R: Rows>(rows: &mut R, seat: &mut R::Seat, hold: &mut Hold, was: &Words, now: &Words)
    requires fits { R.fits rows.old seat.old }
    requires place { (hold.old.row < rows_of (R.shape rows.old).sizes) × (width (R.shape rows.old).sizes hold.old.row ≡ 5) }
    requires held { IsHeld hold.old.row (list_of was.now) (R.view seat.old) }
    ensures fits { R.fits rows.new seat.new × (R.shape rows.new ≡ R.shape rows.old) × (hold.new.row ≡ hold.old.row) }
    ensures stayed { Stayed (R.shape rows.old).alone hold.old.row (R.view seat.old) (R.view seat.new) }
    ensures stored { IsHeld hold.old.row (list_of now.now) (R.view seat.new) }
{
    store_changed(rows, seat, hold, 0, was.readers, now.readers);
    store_changed(rows, seat, hold, 1, was.holder, now.holder);
    store_changed(rows, seat, hold, 2, was.number, now.number);
    store_changed(rows, seat, hold, 3, was.log, now.log);
    store_changed(rows, seat, hold, 4, was.ends, now.ends);
}

// The words of a held lock row.
fn load<R: Rows>(rows: &mut R, seat: &mut R::Seat, row: u32, index: u32) -> Words
    requires fits { R.fits rows.old seat.old }
    requires at { IsAt (R.shape rows.old) (R.view seat.old) row index }
    requires held { IsLatch (R.view seat.old).held row }
    ensures fits { R.fits rows.new seat.new × (R.shape rows.new ≡ R.shape rows.old) }
    ensures stayed { Stayed (R.shape rows.old).alone row (R.view seat.old) (R.view seat.new) }
    ensures held { IsHeld row (list_of result) (R.view seat.new) }
    ensures said { IsSaid (opening (R.view seat.new).given).workers ((state (R.view seat.new)).core.row index) result }
{
    let readers = rows.load_word(seat, row, 0);
    let holder = rows.load_word(seat, row, 1);
    let number = rows.load_word(seat, row, 2);
    let log = rows.load_word(seat, row, 3);
    let ends = rows.load_word(seat, row, 4);
    Words {
        readers,
        holder,
        number,
        log,
        ends,
    }
}

// Takes the lock of a held row, and gives the row up.
pub(crate) fn publish_lock<R: Rows>(
    rows: &mut R,
    seat: &mut R::Seat,
    mut hold: Hold,
    locks: &Locks,
    words: &Words,
)
    requires fits { R.fits rows.old seat.old }
    requires at { IsAt (R.shape rows.old) (R.view seat.old) hold.row locks.now.row }
    requires held { IsHeld hold.row (list_of words.now) (R.view seat.old) }
    requires said { IsSaid (opening (R.view seat.old).given).workers ((state (R.view seat.old)).core.row locks.now.row) words.now }
    requires actor { may (R.shape rows.old).alone (R.view seat.old) locks.now.worker ≡ true }
    requires worker { ((opening (R.view seat.old).given).workers < 64) × IsWorker (opening (R.view seat.old).given).workers locks.now.worker }
    requires met { needs.may (opening (R.view seat.old).given) (state (R.view seat.old)).core (event_of (Lock locks.now.worker locks.now.row (event_mode locks.now.mode))) ≡ true }
    ensures fits { R.fits rows.new seat.new × (R.shape rows.new ≡ R.shape rows.old) × ((R.view seat.new).held ≡ without (R.view seat.old).held hold.row) }
    ensures published { let o = (state (R.view seat.old)).core.row locks.now.row in IsPublished (R.shape rows.old).alone (Lock locks.now.worker locks.now.row (event_mode locks.now.mode)) locks.now.row o (core.locked o locks.now.worker (core_mode locks.now.mode)) (R.view seat.old) (R.view seat.new) }
{
    let after = words.locked(locks.worker, locks.mode);
    store(rows, seat, &mut hold, words, &after);
    hold.publish_as(rows, seat, locks);
}

// Gives up the worker's hold of the lock of a held row, and the row.
fn publish_unlock<R: Rows>(
    rows: &mut R,
    seat: &mut R::Seat,
    mut hold: Hold,
    unlocks: &Unlocks,
    words: &Words,
    end: u64,
)
    requires fits { R.fits rows.old seat.old }
    requires at { IsAt (R.shape rows.old) (R.view seat.old) hold.row unlocks.now.row }
    requires held { IsHeld hold.row (list_of words.now) (R.view seat.old) }
    requires said { IsSaid (opening (R.view seat.old).given).workers ((state (R.view seat.old)).core.row unlocks.now.row) words.now }
    requires actor { may (R.shape rows.old).alone (R.view seat.old) unlocks.now.worker ≡ true }
    requires worker { ((opening (R.view seat.old).given).workers < 64) × IsWorker (opening (R.view seat.old).given).workers unlocks.now.worker }
    requires met { needs.may (opening (R.view seat.old).given) (state (R.view seat.old)).core (event_of (Unlock unlocks.now.worker unlocks.now.row)) ≡ true }
    requires end { end ≡ ((state (R.view seat.old)).core.worker unlocks.now.worker).«end» }
    ensures fits { R.fits rows.new seat.new × (R.shape rows.new ≡ R.shape rows.old) × ((R.view seat.new).held ≡ without (R.view seat.old).held hold.row) }
    ensures published { let o = (state (R.view seat.old)).core.row unlocks.now.row in IsPublished (R.shape rows.old).alone (Unlock unlocks.now.worker unlocks.now.row) unlocks.now.row o (core.unlocked o unlocks.now.worker end) (R.view seat.old) (R.view seat.new) }
{
    let after = words.unlocked(unlocks.worker, end);
    store(rows, seat, &mut hold, words, &after);
    hold.publish_as(rows, seat, unlocks);
}

// Gives up the worker's hold of the lock of a latched row, and the row.
pub(crate) fn unlock_row<R: Rows>(
    rows: &mut R,
    seat: &mut R::Seat,
    row: u32,
    unlocks: &Unlocks,
    end: u64,
)
    requires fits { R.fits rows.old seat.old }
    requires at { IsAt (R.shape rows.old) (R.view seat.old) row unlocks.now.row }
    requires held { IsLatch (R.view seat.old).held row }
    requires actor { may (R.shape rows.old).alone (R.view seat.old) unlocks.now.worker ≡ true }
    requires worker { ((opening (R.view seat.old).given).workers < 64) × IsWorker (opening (R.view seat.old).given).workers unlocks.now.worker }
    requires met { needs.may (opening (R.view seat.old).given) (state (R.view seat.old)).core (event_of (Unlock unlocks.now.worker unlocks.now.row)) ≡ true }
    requires end { end ≡ ((state (R.view seat.old)).core.worker unlocks.now.worker).«end» }
    ensures fits { R.fits rows.new seat.new × (R.shape rows.new ≡ R.shape rows.old) × ((R.view seat.new).held ≡ without (R.view seat.old).held row) }
    ensures published { let o = (state (R.view seat.old)).core.row unlocks.now.row in IsPublished (R.shape rows.old).alone (Unlock unlocks.now.worker unlocks.now.row) unlocks.now.row o (core.unlocked o unlocks.now.worker end) (R.view seat.old) (R.view seat.new) }
{
    let words = load(rows, seat, row, unlocks.row);
    publish_unlock(rows, seat, Hold { row }, unlocks, &words, end);
}
