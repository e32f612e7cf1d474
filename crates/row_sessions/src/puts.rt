//! Puts of keys.
ghost use Rattle.std.specs.Prelude.{◌≡◌, ◌-◌, ◌<◌, ◌≤◌, ◌^◌, true};
ghost use Rattle.row_sessions.specs.Standing.{Stands, HoldsAlone, IsPutter};

use crate::locking::Unlocked;
use crate::session::{CLOCK_END, Session, session_of, set_session};
use crate::sessions::Sessions;
use btree_descent::Path;
use btree_descent::put::{Put, leaf_put};
use key_locks::mode::Mode;

/// How many changes a transaction makes at most.
pub const CHANGES: u32 = 64;

/// Why a key got no word.
#[derive(Clone, Copy)]
pub enum Unput {
    /// The worker has no transaction open, or one with `CHANGES` changes, or its clock has come to `CLOCK_END`.
    Spent,
    /// The lock of the key was not taken.
    Unlocked(Unlocked),
    /// The leaf did not take it.
    Refused(Put),
}

// The session may make a change.
fn may_put(session: &Session) -> bool
    ensures { result ≡ true → IsPutter session.now }
{
    session.is_open && session.changes < CHANGES && session.clock < CLOCK_END
}

impl Sessions {
    /// Locks a key alone and gives it a word in its leaf. The answer is the word that it had.
    pub fn put(&mut self, worker: u32, key: u64, word: u64) -> Result<Option<u64>, Unput>
        requires stands { Stands self.old }
        requires worker { (0 < worker) × (worker ≤ self.old.rows.workers) }
        requires key { key < 2 ^ 64 - 1 }
        requires word { word ≤ 2 ^ 63 }
        ensures stands { Stands self.new }
        ensures same { self.new.rows.workers ≡ self.old.rows.workers }
    {
        if !may_put(&session_of(&self.sessions, worker)) {
            return Err(Unput::Spent);
        }
        if let Err(unlocked) = self.lock(worker, key, Mode::Alone) {
            return Err(Unput::Unlocked(unlocked));
        }
        self.put_locked(worker, key, word)
    }

    // The worker holds the key's row alone.
    fn put_locked(&mut self, worker: u32, key: u64, word: u64) -> Result<Option<u64>, Unput>
        requires stands { Stands self.old }
        requires worker { (0 < worker) × (worker ≤ self.old.rows.workers) }
        requires key { key < 2 ^ 64 - 1 }
        requires word { word ≤ 2 ^ 63 }
        requires held { HoldsAlone self.old worker key }
        ensures stands { Stands self.new }
        ensures same { self.new.rows.workers ≡ self.old.rows.workers }
    {
        let session = session_of(&self.sessions, worker);
        if !may_put(&session) {
            return Err(Unput::Spent);
        }
        self.drawing.start(worker, &session);
        let mut path = Path::new();
        match leaf_put(
            &mut self.rows,
            &mut self.seat,
            worker,
            self.frames,
            key,
            word,
            &mut path,
            &mut self.drawing,
        ) {
            Put::Done(before) => {
                let changed = session.changed(&self.drawing.session);
                set_session(&mut self.sessions, worker, changed);
                Ok(before)
            }
            put => Err(Unput::Refused(put)),
        }
    }
}
