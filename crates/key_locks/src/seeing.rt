//! Whether a worker holds a lock row.
ghost use Rattle.std.specs.Prelude.{◌≡◌, ◌<◌, ◌+◌, ◌%◌, true, false, [], Some, IfOk, IfErr};
ghost use Rattle.lean_proto.specs.row_words.Openings.{opening};
ghost use Rattle.lean_proto.specs.rows_trait.declared.view.View.{View};
ghost use Rattle.lean_proto.specs.rows_trait.Views.{IsEven, latest, holds, may};
ghost use Rattle.lean_proto.specs.rows_trait.Causes.{HasFound};
ghost use Rattle.lean_proto.specs.rows_trait.Turns.{Ran};
ghost use Rattle.key_locks.specs.Rows.{IsWorker, Sized};
ghost use Rattle.key_locks.specs.Inside.{IsAt, AreKnown};
ghost use Rattle.key_locks.specs.Seeing.{Sees, NotSeen};

use crate::locking::look;
use crate::words::Words;
use lean_proto::{Checks, Glimpse, Latched, Misses, Moved, Rows};

/// Why a lock row was not seen.
#[derive(Clone, Copy)]
pub enum Unseen {
    /// The row had another version at a later look.
    Moved(Moved),
    /// Another seat held the row.
    Latched(Latched),
}

// What the words say, if they count.
fn answer<R: Rows>(
    rows: &mut R,
    seat: &mut R::Seat,
    glimpse: &Glimpse,
    worker: u32,
    index: u32,
    words: &Words,
) -> Result<bool, Unseen>
    requires fits { R.fits rows.old seat.old }
    requires at { IsAt (R.shape rows.old) (R.view seat.old) glimpse.now.row index }
    requires version { IsEven glimpse.now.version }
    requires known { AreKnown glimpse.now.row glimpse.now.version words.now (R.view seat.old).steps }
    requires actor { may (R.shape rows.old).alone (R.view seat.old) worker ≡ true }
    requires worker { ((opening (R.view seat.old).given).workers < 64) × IsWorker (opening (R.view seat.old).given).workers worker }
    ensures fits { R.fits rows.new seat.new × (R.shape rows.new ≡ R.shape rows.old) × ((R.view seat.new).held ≡ (R.view seat.old).held) }
    ensures ok { IfOk result (λ b. (u : View) → Ran (R.shape rows.old).alone u [] (R.view seat.old) → Sees (R.shape rows.old).alone worker index b u (R.view seat.new)) }
    ensures err { IfErr result (λ e. (u : View) → Ran (R.shape rows.old).alone u [] (R.view seat.old) → HasFound glimpse.now.row glimpse.now.version u (R.view seat.old) → NotSeen (R.shape rows.old).alone worker glimpse.now.row u e (R.view seat.new)) }
    ensures quiet { IfErr result (λ _. (R.shape rows.old).alone ≡ true → latest glimpse.now.row (R.view seat.old).steps ≡ Some glimpse.now.version → ⊥) }
{
    let checks = Checks {
        worker,
        version: glimpse.version,
    };
    let says = words.say_held_by(worker);
    match glimpse.check(rows, seat, &checks) {
        Ok(()) => Ok(says),
        Err(moved) => Err(Unseen::Moved(moved)),
    }
}

/// Whether `worker` holds the lock row of a key, alone or with others, at the last check. Nothing is appended; Moved and Latched
/// append a miss: try again. Where nobody else steps these two never come, unless the seat holds the row itself.
pub fn holds<R: Rows>(
    rows: &mut R,
    seat: &mut R::Seat,
    worker: u32,
    frames: u32,
    locks: u32,
    key: u64,
) -> Result<bool, Unseen>
    requires fits { R.fits rows.old seat.old }
    requires sized { Sized (R.shape rows.old) (R.view seat.old) worker frames locks }
    requires actor { may (R.shape rows.old).alone (R.view seat.old) worker ≡ true }
    ensures fits { R.fits rows.new seat.new × (R.shape rows.new ≡ R.shape rows.old) × ((R.view seat.new).held ≡ (R.view seat.old).held) }
    ensures ok { IfOk result (λ b. Sees (R.shape rows.old).alone worker (key % locks) b (R.view seat.old) (R.view seat.new)) }
    ensures err { IfErr result (λ e. NotSeen (R.shape rows.old).alone worker (frames + key % locks) (R.view seat.old) e (R.view seat.new)) }
    ensures quiet { IfErr result (λ _. (R.shape rows.old).alone ≡ true → holds (R.view seat.old).held (frames + key % locks) ≡ false → ⊥) }
{
    let row = (key % locks as u64) as u32;
    let glimpse = match Glimpse::start(rows, seat, frames + row, &Misses { worker }) {
        Ok(glimpse) => glimpse,
        Err(latched) => return Err(Unseen::Latched(latched)),
    };
    let words = look(rows, seat, &glimpse);
    answer(rows, seat, &glimpse, worker, row, &words)
}
