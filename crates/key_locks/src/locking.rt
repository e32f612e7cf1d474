//! The lock of a key is taken, or refused at once.
ghost use Rattle.std.specs.Prelude.{◌≡◌, ◌<◌, ◌≤◌, ◌+◌, ◌%◌, ◌^◌, ℕ, true, false, [], Some, IfOk, IfErr};
ghost use Rattle.lean_proto.specs.core_state.States.{Row};
ghost use Rattle.lean_proto.specs.core_state.Needs.{may_hold};
ghost use Rattle.lean_proto.specs.row_words.Openings.{opening};
ghost use Rattle.lean_proto.specs.rows_trait.declared.view.View.{View};
ghost use Rattle.lean_proto.specs.rows_trait.Layout.{rows_of, width};
ghost use Rattle.lean_proto.specs.rows_trait.Views.{IsEven, Has, latest, holds, may, state};
ghost use Rattle.lean_proto.specs.rows_trait.Causes.{HasFound};
ghost use Rattle.lean_proto.specs.rows_trait.Turns.{Ran};
ghost use Rattle.key_locks.specs.Rows.{IsWorker, IsRow, IsSound, Sized, IsBlocking, core_mode};
ghost use Rattle.lean_proto.specs.version_latch.Kept.{Kept};
ghost use Rattle.key_locks.specs.Inside.{IsSaid, IsAt, AreKnown};
ghost use Rattle.key_locks.specs.Locking.{HasLock, HasAlready, HasAgain, IsSpent, Refuses, IsUnmet};

use crate::events::Locks;
use crate::held::publish_lock;
use crate::mode::Mode;
use crate::words::Words;
use lean_proto::{Checks, Glimpse, Latched, Misses, Moved, Rows, Unheld};

/// What a lock row says to who takes its lock: number and log of its last exclusive end, and the greatest end number of its
/// readers.
#[derive(Clone, Copy)]
pub struct Stamp {
    pub number: u64,
    pub log: u32,
    pub readers: u64,
}

/// Why a lock was not taken.
#[derive(Clone, Copy)]
pub enum Refusal {
    /// Another worker holds the row: the one that holds it alone, else the least of the other readers.
    Conflict { holder: u32 },
    /// The row had another version at a later look.
    Moved(Moved),
    /// Another seat held the row.
    Latched(Latched),
    /// The version of the row has come to the last one.
    RowSpent { row: u32 },
}

/// The version of a lock row has come to the last one.
#[derive(Clone, Copy, Debug)]
pub struct RowSpent;

// The words of a lock row. They count once the version is found again.
pub(crate) fn look<R: Rows>(rows: &mut R, seat: &mut R::Seat, glimpse: &Glimpse) -> Words
    requires fits { R.fits rows.old seat.old }
    requires row { (glimpse.now.row < rows_of (R.shape rows.old).sizes) × (width (R.shape rows.old).sizes glimpse.now.row ≡ 5) }
    requires seen { Has glimpse.now.row glimpse.now.version (R.view seat.old).steps }
    ensures fits { R.fits rows.new seat.new × (R.shape rows.new ≡ R.shape rows.old) }
    ensures kept { Kept (R.shape rows.old).alone (R.view seat.old) (R.view seat.new) }
    ensures known { AreKnown glimpse.now.row glimpse.now.version result (R.view seat.new).steps }
{
    let readers = glimpse.word(rows, seat, 0);
    let holder = glimpse.word(rows, seat, 1);
    let number = glimpse.word(rows, seat, 2);
    let log = glimpse.word(rows, seat, 3);
    let ends = glimpse.word(rows, seat, 4);
    Words {
        readers,
        holder,
        number,
        log,
        ends,
    }
}

// Somebody stands in the way, if the words count.
fn refuse<R: Rows>(
    rows: &mut R,
    seat: &mut R::Seat,
    glimpse: &Glimpse,
    locks: &Locks,
    words: &Words,
    other: u64,
) -> Refusal
    requires fits { R.fits rows.old seat.old }
    requires at { IsAt (R.shape rows.old) (R.view seat.old) glimpse.now.row locks.now.row }
    requires version { IsEven glimpse.now.version }
    requires known { AreKnown glimpse.now.row glimpse.now.version words.now (R.view seat.old).steps }
    requires actor { may (R.shape rows.old).alone (R.view seat.old) locks.now.worker ≡ true }
    requires sound { IsSound (R.view seat.old).given × ((opening (R.view seat.old).given).workers < 64) }
    requires blocked { (o : Row) → IsRow (opening (R.view seat.old).given).workers o → IsSaid (opening (R.view seat.old).given).workers o words.now → IsBlocking o locks.now.worker (core_mode locks.now.mode) other }
    ensures fits { R.fits rows.new seat.new × (R.shape rows.new ≡ R.shape rows.old) × ((R.view seat.new).held ≡ (R.view seat.old).held) }
    ensures refused { (u : View) → Ran (R.shape rows.old).alone u [] (R.view seat.old) → HasFound glimpse.now.row glimpse.now.version u (R.view seat.old) → Refuses (R.shape rows.old).alone locks.now.worker glimpse.now.row locks.now.row locks.now.mode u result (R.view seat.new) }
    ensures quiet { (R.shape rows.old).alone ≡ true → latest glimpse.now.row (R.view seat.old).steps ≡ Some glimpse.now.version → IsUnmet result }
{
    let checks = Checks {
        worker: locks.worker,
        version: glimpse.version,
    };
    match glimpse.check(rows, seat, &checks) {
        Ok(()) => Refusal::Conflict {
            holder: other as u32,
        },
        Err(moved) => Refusal::Moved(moved),
    }
}

// Nobody stands in the way, if the words count.
fn take<R: Rows>(
    rows: &mut R,
    seat: &mut R::Seat,
    glimpse: &Glimpse,
    locks: &Locks,
    words: &Words,
) -> Result<Stamp, Refusal>
    requires fits { R.fits rows.old seat.old }
    requires at { IsAt (R.shape rows.old) (R.view seat.old) glimpse.now.row locks.now.row }
    requires version { IsEven glimpse.now.version }
    requires known { AreKnown glimpse.now.row glimpse.now.version words.now (R.view seat.old).steps }
    requires actor { may (R.shape rows.old).alone (R.view seat.old) locks.now.worker ≡ true }
    requires sound { IsSound (R.view seat.old).given × ((opening (R.view seat.old).given).workers < 64) }
    requires worker { IsWorker (opening (R.view seat.old).given).workers locks.now.worker × (((state (R.view seat.old)).core.worker locks.now.worker).is_open ≡ true) }
    requires free { (o : Row) → IsRow (opening (R.view seat.old).given).workers o → IsSaid (opening (R.view seat.old).given).workers o words.now → may_hold o locks.now.worker (core_mode locks.now.mode) ≡ true }
    ensures fits { R.fits rows.new seat.new × (R.shape rows.new ≡ R.shape rows.old) × ((R.view seat.new).held ≡ (R.view seat.old).held) }
    ensures ok { IfOk result (λ s. (u : View) → Ran (R.shape rows.old).alone u [] (R.view seat.old) → HasLock (R.shape rows.old).alone locks.now.worker locks.now.row locks.now.mode u s (R.view seat.new)) }
    ensures err { IfErr result (λ r. (u : View) → Ran (R.shape rows.old).alone u [] (R.view seat.old) → HasFound glimpse.now.row glimpse.now.version u (R.view seat.old) → Refuses (R.shape rows.old).alone locks.now.worker glimpse.now.row locks.now.row locks.now.mode u r (R.view seat.new)) }
    ensures quiet { IfErr result (λ r. (R.shape rows.old).alone ≡ true → latest glimpse.now.row (R.view seat.old).steps ≡ Some glimpse.now.version → IsUnmet r) }
{
    let checks = Checks {
        worker: locks.worker,
        version: glimpse.version,
    };
    match glimpse.upgrade(rows, seat, &checks) {
        Ok(hold) => {
            publish_lock(rows, seat, hold, locks, words);
            Ok(Stamp {
                number: words.number,
                log: words.log as u32,
                readers: words.ends,
            })
        }
        Err(Unheld::Moved(moved)) => Err(Refusal::Moved(moved)),
        Err(Unheld::RowSpent) => Err(Refusal::RowSpent { row: glimpse.row }),
    }
}

// How many lock rows the program has.
const USUAL: u32 = 256;

/// The lock row of a key, of so many. Where they are as many as usual nothing is divided.
#[inline(always)]
pub fn row_of(key: u64, locks: u32) -> u32
    requires { 0 < locks }
    ensures { result ≡ key % locks }
{
    if locks == USUAL {
        return (key % u64::from(USUAL)) as u32;
    }
    unusual_row_of(key, locks)
}

// A call, since the compiler makes two remainders that agree one, and that one divides.
#[inline(never)]
fn unusual_row_of(key: u64, locks: u32) -> u32
    requires { 0 < locks }
    ensures { result ≡ key % locks }
{
    (key % u64::from(locks)) as u32
}

/// Takes the lock of lock row `row` for `worker`, in an open transaction, over rows with `frames` frame rows and `locks` lock rows
/// behind them. Nobody waits. A sole reader may become the holder, and a holder who asks for a shared lock keeps it alone.
///
/// Ok appends the lock, and says what the row told at that moment. Conflict and RowSpent append nothing, Moved and Latched a miss:
/// try again. Where nobody else steps these two never come, unless the seat holds the row itself.
pub fn lock_row<R: Rows>(
    rows: &mut R,
    seat: &mut R::Seat,
    worker: u32,
    frames: u32,
    locks: u32,
    row: u32,
    mode: Mode,
) -> Result<Stamp, Refusal>
    requires fits { R.fits rows.old seat.old }
    requires sized { Sized (R.shape rows.old) (R.view seat.old) worker frames locks }
    requires actor { may (R.shape rows.old).alone (R.view seat.old) worker ≡ true }
    requires row { row < locks }
    requires sound { IsSound (R.view seat.old).given }
    requires open_is { ((state (R.view seat.old)).core.worker worker).is_open ≡ true }
    ensures fits { R.fits rows.new seat.new × (R.shape rows.new ≡ R.shape rows.old) × ((R.view seat.new).held ≡ (R.view seat.old).held) }
    ensures ok { IfOk result (λ s. HasLock (R.shape rows.old).alone worker row mode (R.view seat.old) s (R.view seat.new)) }
    ensures err { IfErr result (λ r. Refuses (R.shape rows.old).alone worker (frames + row) row mode (R.view seat.old) r (R.view seat.new)) }
    ensures quiet { IfErr result (λ r. (R.shape rows.old).alone ≡ true → holds (R.view seat.old).held (frames + row) ≡ false → IsUnmet r) }
{
    let glimpse = match Glimpse::start(rows, seat, frames + row, &Misses { worker }) {
        Ok(glimpse) => glimpse,
        Err(latched) => return Err(Refusal::Latched(latched)),
    };
    let locks = Locks { worker, row, mode };
    let words = look(rows, seat, &glimpse);
    match words.blocker(worker, mode) {
        None => take(rows, seat, &glimpse, &locks, &words),
        Some(other) => Err(refuse(rows, seat, &glimpse, &locks, &words, other)),
    }
}

/// Takes the lock of a key, as `lock_row` does: keys that are alike modulo `locks` have one lock row.
pub fn lock<R: Rows>(
    rows: &mut R,
    seat: &mut R::Seat,
    worker: u32,
    frames: u32,
    locks: u32,
    key: u64,
    mode: Mode,
) -> Result<Stamp, Refusal>
    requires fits { R.fits rows.old seat.old }
    requires sized { Sized (R.shape rows.old) (R.view seat.old) worker frames locks }
    requires actor { may (R.shape rows.old).alone (R.view seat.old) worker ≡ true }
    requires sound { IsSound (R.view seat.old).given }
    requires open_is { ((state (R.view seat.old)).core.worker worker).is_open ≡ true }
    ensures fits { R.fits rows.new seat.new × (R.shape rows.new ≡ R.shape rows.old) × ((R.view seat.new).held ≡ (R.view seat.old).held) }
    ensures ok { IfOk result (λ s. HasLock (R.shape rows.old).alone worker (key % locks) mode (R.view seat.old) s (R.view seat.new)) }
    ensures err { IfErr result (λ r. Refuses (R.shape rows.old).alone worker (frames + key % locks) (key % locks) mode (R.view seat.old) r (R.view seat.new)) }
    ensures quiet { IfErr result (λ r. (R.shape rows.old).alone ≡ true → holds (R.view seat.old).held (frames + key % locks) ≡ false → IsUnmet r) }
{
    lock_row(rows, seat, worker, frames, locks, row_of(key, locks), mode)
}

/// Takes a lock again that `worker` has in this mode, in an open transaction, over rows on which nobody else steps: lock row `row`
/// behind `frames` frame rows. No word of the row changes, so it is latched and given up, and not looked at.
///
/// Ok appends the lock. The one error is that the version of the row has come to the last one, and appends nothing.
pub fn lock_again<R: Rows>(
    rows: &mut R,
    seat: &mut R::Seat,
    worker: u32,
    frames: u32,
    locks: u32,
    row: u32,
    mode: Mode,
) -> Result<(), RowSpent>
    requires fits { R.fits rows.old seat.old }
    requires sized { Sized (R.shape rows.old) (R.view seat.old) worker frames locks }
    requires row { row < locks }
    requires alone { (R.shape rows.old).alone ≡ true }
    requires free { holds (R.view seat.old).held (frames + row) ≡ false }
    requires open_is { ((state (R.view seat.old)).core.worker worker).is_open ≡ true }
    requires has { HasAlready ((state (R.view seat.old)).core.row row) worker (core_mode mode) }
    ensures fits { R.fits rows.new seat.new × (R.shape rows.new ≡ R.shape rows.old) × ((R.view seat.new).held ≡ (R.view seat.old).held) }
    ensures ok { IfOk result (λ _. HasAgain (R.shape rows.old).alone worker row mode (R.view seat.old) (R.view seat.new)) }
    ensures spent { IfErr result (λ _. IsSpent (R.shape rows.old).alone (frames + row) (frames + row) (R.view seat.old) (R.view seat.new)) }
{
    let Ok(glimpse) = Glimpse::start(rows, seat, frames + row, &Misses { worker }) else {
        // Nobody holds the row.
        unreachable!()
    };
    let checks = Checks {
        worker,
        version: glimpse.version,
    };
    match glimpse.upgrade(rows, seat, &checks) {
        Ok(hold) => {
            hold.publish_as(rows, seat, &Locks { worker, row, mode });
            Ok(())
        }
        // Nobody else steps.
        Err(Unheld::Moved(_)) => unreachable!(),
        Err(Unheld::RowSpent) => Err(RowSpent),
    }
}
