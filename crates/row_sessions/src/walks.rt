//! Walks to the pair that follows a key.
ghost use Rattle.std.specs.Prelude.{◌≡◌, ◌-◌, ◌<◌, ◌≤◌, ◌^◌, ℕ, length, slice_index};
ghost use Rattle.row_sessions.specs.Standing.{Stands, HoldsRow};

use crate::session::{session_of, set_session};
use crate::sessions::Sessions;
use btree_descent::next::{Following, Locked, Stamp, next};

// Keys that a worker has locked.
#[derive(Drop)]
struct Listed<'a> {
    keys: &'a [u64],
}

impl Locked for Listed<'_> {
    ghost use Rattle.std.specs.Prelude.{◌≡◌, ◌==◌, true};
    ghost use Rattle.std.specs.List.{list_any};

    ghost locked = { λ l k. list_any (λ y. y == k) l.keys.now ≡ true };

    fn has(&self, key: u64) -> bool {
        self.keys.contains(&key)
    }
}

/// Why a walk was not made.
#[derive(Clone, Copy)]
pub enum Unwalked {
    /// The worker has no transaction open.
    NotOpen,
    /// The worker does not hold the row of this key.
    NotHeld(u64),
}

impl Sessions {
    /// Walks from a key on in its leaf, for a worker that is to hold the rows of these keys. Of its answers Moved and Latched never
    /// come.
    pub fn next(&mut self, worker: u32, key: u64, keys: &[u64]) -> Result<Following, Unwalked>
        requires stands { Stands self.old }
        requires worker { (0 < worker) × (worker ≤ self.old.rows.workers) }
        requires key { key < 2 ^ 64 - 1 }
        ensures stands { Stands self.new }
        ensures same { self.new.rows.workers ≡ self.old.rows.workers }
    {
        for taken in keys {
            if !self.holds(worker, *taken) {
                return Err(Unwalked::NotHeld(*taken));
            }
        }
        self.walk(worker, key, keys)
    }

    // The worker holds the rows of the keys.
    fn walk(&mut self, worker: u32, key: u64, keys: &[u64]) -> Result<Following, Unwalked>
        requires stands { Stands self.old }
        requires worker { (0 < worker) × (worker ≤ self.old.rows.workers) }
        requires key { key < 2 ^ 64 - 1 }
        requires held { (i : ℕ) → i < length keys.now → HoldsRow self.old worker (slice_index keys.now i) }
        ensures stands { Stands self.new }
        ensures same { self.new.rows.workers ≡ self.old.rows.workers }
    {
        let session = session_of(&self.sessions, worker);
        if !session.is_open {
            return Err(Unwalked::NotOpen);
        }
        let listed = Listed { keys };
        match next(
            &mut self.rows,
            &mut self.seat,
            worker,
            self.frames,
            key,
            &listed,
        ) {
            Following::Pair { key, value, stamp } => {
                let met = session.touched(worker, stamp.number, stamp.log);
                set_session(&mut self.sessions, worker, met);
                Ok(Following::Pair { key, value, stamp })
            }
            Following::Gap { high, stamp } => {
                let met = session.touched(worker, stamp.number, stamp.log);
                set_session(&mut self.sessions, worker, met);
                Ok(Following::Gap { high, stamp })
            }
            other => Ok(other),
        }
    }
}
