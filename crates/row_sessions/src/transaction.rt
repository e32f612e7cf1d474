//! Begin, find and end.
ghost use Rattle.std.specs.Prelude.{◌≡◌, ◌-◌, ◌<◌, ◌≤◌, ◌^◌};
ghost use Rattle.row_sessions.specs.Standing.{Stands};

use crate::events::{Begins, Ends};
use crate::session::{CLOCK_END, session_of, set_session};
use crate::sessions::Sessions;
use btree_descent::Rows;
use btree_descent::descent::{Answer, find};

impl Sessions {
    /// Begins a transaction of a worker. False where it has one open, where its clock has come to `CLOCK_END`, or where its
    /// transactions' numbers have come to an end.
    pub fn begin(&mut self, worker: u32) -> bool
        requires stands { Stands self.old }
        requires worker { (0 < worker) × (worker ≤ self.old.rows.workers) }
        ensures stands { Stands self.new }
        ensures same { self.new.rows.workers ≡ self.old.rows.workers }
    {
        let session = session_of(&self.sessions, worker);
        if session.is_open || session.clock >= CLOCK_END || session.txn == u64::MAX {
            return false;
        }
        let begins = Begins {
            worker,
            floor: self.base,
        };
        let _ = self.rows.load_control(&mut self.seat, worker, 0, &begins);
        set_session(&mut self.sessions, worker, session.begun(self.base));
        true
    }

    /// What a key's leaf says of it, seen by the main actor. Of its answers Moved and Latched never come.
    pub fn find(&mut self, key: u64) -> Answer
        requires stands { Stands self.old }
        requires key { key < 2 ^ 64 - 1 }
        ensures stands { Stands self.new }
        ensures same { self.new.rows.workers ≡ self.old.rows.workers }
    {
        find(&mut self.rows, &mut self.seat, 0, self.frames, key)
    }

    /// Commits a worker's transaction: the number of its end becomes its last end number. False where it has none open, or where
    /// numbers have come to an end.
    pub fn end(&mut self, worker: u32) -> bool
        requires stands { Stands self.old }
        requires worker { (0 < worker) × (worker ≤ self.old.rows.workers) }
        ensures stands { Stands self.new }
        ensures same { self.new.rows.workers ≡ self.old.rows.workers }
    {
        let session = session_of(&self.sessions, worker);
        if !session.is_open || session.clock == u64::MAX {
            return false;
        }
        let ends = Ends {
            worker,
            floor: self.base,
        };
        self.rows
            .store_control(&mut self.seat, worker, 1, session.clock + 1, &ends);
        set_session(&mut self.sessions, worker, session.ended(self.base));
        true
    }
}
