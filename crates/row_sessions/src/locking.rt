//! Locks of keys, and how they are given up.
ghost use Rattle.std.specs.Prelude.{◌≡◌, ◌<◌, ◌≤◌, ℕ, true, IfOk};
ghost use Rattle.row_sessions.specs.Standing.{Stands, HoldsAlone, HoldsRow};

use crate::session::{session_of, set_session};
use crate::sessions::Sessions;
use key_locks::locking::{Refusal, lock};
use key_locks::mode::Mode;
use key_locks::seeing::holds;

/// Why a lock was not taken.
#[derive(Clone, Copy)]
pub enum Unlocked {
    /// The worker has no transaction open.
    NotOpen,
    Refused(Refusal),
}

impl Sessions {
    /// Takes the lock of a key, if nobody else holds it so that the worker may not.
    pub fn lock(&mut self, worker: u32, key: u64, mode: Mode) -> Result<(), Unlocked>
        requires stands { Stands self.old }
        requires worker { (0 < worker) × (worker ≤ self.old.rows.workers) }
        ensures stands { Stands self.new }
        ensures same { self.new.rows.workers ≡ self.old.rows.workers }
        ensures held { IfOk result (λ _. mode ≡ Mode.Alone → HoldsAlone self.new worker key) }
    {
        let session = session_of(&self.sessions, worker);
        if !session.is_open {
            return Err(Unlocked::NotOpen);
        }
        match lock(
            &mut self.rows,
            &mut self.seat,
            worker,
            self.frames,
            self.locks,
            key,
            mode,
        ) {
            Ok(stamp) => {
                set_session(&mut self.sessions, worker, session.met(worker, &stamp));
                Ok(())
            }
            Err(refusal) => Err(Unlocked::Refused(refusal)),
        }
    }

    // Whether a worker holds the lock row of a key.
    pub(crate) fn holds(&mut self, worker: u32, key: u64) -> bool
        requires stands { Stands self.old }
        requires worker { (0 < worker) × (worker ≤ self.old.rows.workers) }
        ensures stands { Stands self.new }
        ensures same { self.new.rows.workers ≡ self.old.rows.workers }
        ensures held { result ≡ true → HoldsRow self.new worker key }
        ensures still { (k : ℕ) → HoldsRow self.old worker k → HoldsRow self.new worker k }
    {
        match holds(
            &mut self.rows,
            &mut self.seat,
            worker,
            self.frames,
            self.locks,
            key,
        ) {
            Ok(held) => held,
            Err(_) => false,
        }
    }

    /// Gives up the lock row of a key, of which the worker's last transaction tells its end. False where a transaction is open, or
    /// where the worker does not hold the row.
    pub fn unlock(&mut self, worker: u32, key: u64) -> bool
        requires stands { Stands self.old }
        requires worker { (0 < worker) × (worker ≤ self.old.rows.workers) }
        ensures stands { Stands self.new }
        ensures same { self.new.rows.workers ≡ self.old.rows.workers }
    {
        if !self.holds(worker, key) {
            return false;
        }
        let session = session_of(&self.sessions, worker);
        if session.is_open {
            return false;
        }
        match self
            .latches
            .latch(&mut self.rows, &mut self.seat, worker, self.frames, key)
        {
            Ok(()) => {}
            Err(_) => return false,
        }
        self.latches.unlock(
            &mut self.rows,
            &mut self.seat,
            worker,
            self.frames,
            key,
            session.end,
        );
        true
    }
}
