//! What one worker knows of itself.
ghost use Rattle.std.specs.Prelude.{◌≡◌, ◌+◌, ◌<◌, ◌≤◌, ◌^◌, ℕ, suc, max, length, slice_set};
ghost use Rattle.btree_descent.specs.core_state.States.{Worker, Row};
ghost use Rattle.btree_descent.specs.core_state.Steps.{begun, finished, at_row};
ghost use Rattle.row_sessions.specs.Standing.{IsOf, first_session, touched_session, changed_session, drawn_session, session_at};
ghost use Rattle.key_locks.specs.Locking.{IsStamp};

use key_locks::locking::Stamp;

/// Where a worker's clock ends: from here on it begins no transaction and changes no page. An end still has its number.
pub const CLOCK_END: u64 = 1 << 62;

/// What the core's worker has. `last` is the number of the last record of its log, and `changes` counts those of its transaction.
#[derive(Clone, Copy, Debug, PartialEq, Eq)]
pub struct Session {
    pub is_open: bool,
    pub clock: u64,
    pub floor: u64,
    pub debt: u64,
    pub txn: u64,
    pub end: u64,
    pub last: u64,
    pub changes: u32,
}

// The greater of two numbers.
fn greater(a: u64, b: u64) -> u64
    ensures { result ≡ max a b }
{
    if a < b { b } else { a }
}

impl Session {
    // That of a worker at the beginning.
    pub(crate) fn first(base: u64) -> Session
        ensures { result ≡ first_session base }
    {
        Session {
            is_open: false,
            clock: base,
            floor: base,
            debt: 0,
            txn: 0,
            end: base,
            last: base,
            changes: 0,
        }
    }

    // After it met the stamp of a lock row.
    pub(crate) fn met(&self, worker: u32, stamp: &Stamp) -> Session
        ensures { (base : ℕ) (a : Worker) (o : Row) → IsOf base self.now a → IsStamp o stamp.now → IsOf base result (at_row worker a o) }
    {
        let touched = self.touched(worker, stamp.number, stamp.log);
        Session {
            clock: greater(touched.clock, stamp.readers),
            ..touched
        }
    }

    // After it met a stamp.
    pub(crate) fn touched(&self, worker: u32, number: u64, log: u32) -> Session
        ensures { result ≡ touched_session worker self.now number log }
    {
        let remote = self.floor < number && log != worker && log != 0;
        Session {
            clock: greater(self.clock, number),
            debt: if remote {
                greater(self.debt, number)
            } else {
                self.debt
            },
            ..*self
        }
    }

    // After a change, for which this was drawn.
    pub(crate) fn changed(&self, drawn: &Session) -> Session
        requires room { self.now.changes + 1 < 2 ^ 32 }
        ensures { result ≡ changed_session self.now drawn.now }
    {
        Session {
            clock: drawn.clock,
            debt: drawn.debt,
            last: drawn.last,
            changes: self.changes + 1,
            ..*self
        }
    }

    // After a change of the tree's structure, for which this was drawn.
    pub(crate) fn drew(&self, drawn: &Session) -> Session
        ensures { result ≡ drawn_session self.now drawn.now }
    {
        Session {
            clock: drawn.clock,
            debt: drawn.debt,
            last: drawn.last,
            ..*self
        }
    }

    // After a begin that found all logs flushed up to the base.
    pub(crate) fn begun(&self, base: u64) -> Session
        requires room { self.now.txn + 1 < 2 ^ 64 }
        ensures { (a : Worker) → IsOf base self.now a → IsOf base result (begun a base) }
    {
        Session {
            is_open: true,
            floor: base,
            debt: if self.debt <= base { 0 } else { self.debt },
            txn: self.txn + 1,
            changes: 0,
            ..*self
        }
    }

    // After an end with the next number.
    pub(crate) fn ended(&self, base: u64) -> Session
        requires room { self.now.clock + 1 < 2 ^ 64 }
        ensures { (a : Worker) → IsOf base self.now a → IsOf base result (finished a (suc a.clock)) }
    {
        let number = self.clock + 1;
        Session {
            is_open: false,
            clock: number,
            end: number,
            last: number,
            changes: 0,
            ..*self
        }
    }
}

/// The session of a worker.
pub(crate) fn session_of(sessions: &Vec<Session>, worker: u32) -> Session
    requires among { worker < length sessions.now.items }
    ensures { result ≡ session_at sessions.now.items worker }
{
    sessions[worker as usize]
}

/// Sets the session of a worker.
pub(crate) fn set_session(sessions: &mut Vec<Session>, worker: u32, session: Session)
    requires among { worker < length sessions.old.items }
    ensures { sessions.new.items ≡ slice_set sessions.old.items worker session }
{
    sessions[worker as usize] = session;
}
