// Calls of sessions, and what they answer, as far as it is compared.
ghost use Rattle.std.specs.Prelude.{◌≡◌, ◌<◌, ◌≤◌};
ghost use Rattle.row_sessions.specs.Standing.{Stands, workers_of};

use btree_descent::descent::Answer;
use btree_descent::next::Following;
use btree_descent::put::Put;
use key_locks::locking::Refusal;
use key_locks::mode::Mode;
use row_sessions::locking::Unlocked;
use row_sessions::puts::Unput;
use row_sessions::sessions::Sessions;
use row_sessions::walks::Unwalked;

/// The word of a tombstone, the greatest that there is.
pub const TOMBSTONE: u64 = 1 << 63;

/// What a worker calls, with a key and a word.
#[derive(Clone, Copy)]
pub enum Call {
    Begin,
    End,
    /// By the main actor, whoever the worker is.
    Find(u32),
    /// A find too, of which the leaf's stamp is told.
    Stamp(u32),
    Lock(u32, Mode),
    Put(u32, u64),
    /// A walk from a key on, over these keys, whose rows the worker is to hold.
    Next(u32, &'static [u64]),
    Unlock(u32),
}

/// What came of a call.
#[derive(Clone, Copy, PartialEq, Eq)]
pub enum Told {
    /// Whether it was done.
    Did(bool),
    /// The lock was taken.
    Locked,
    /// The key's word, or the word that it had.
    Word(Option<u64>),
    /// Number and log of the last record that changed the key's leaf.
    Stamp(u64, u32),
    /// The pair that follows.
    Pair(u64, u64),
    /// None up to this key.
    Gap(u64),
    /// This key is on the way, and not among those of the walk.
    Unlocked(u64),
    /// The worker has no transaction open, or one with no change left.
    NotOpen,
    /// This worker is in the way.
    Conflict(u32),
    /// The leaf is full.
    Full,
    /// What nobody expects.
    Other,
}

/// Makes a worker's call.
pub fn answer(sessions: &mut Sessions, worker: u32, call: Call) -> Told
    requires stands { Stands sessions.old }
    requires worker { (0 < worker) × (worker ≤ workers_of sessions.old) }
    ensures stands { Stands sessions.new }
    ensures same { workers_of sessions.new ≡ workers_of sessions.old }
{
    match call {
        Call::Begin => Told::Did(sessions.begin(worker)),
        Call::End => Told::Did(sessions.end(worker)),
        Call::Find(key) => found(sessions.find(u64::from(key))),
        Call::Stamp(key) => stamped(sessions.find(u64::from(key))),
        Call::Lock(key, mode) => locked(sessions.lock(worker, u64::from(key), mode)),
        Call::Put(key, word) => put(sessions.put(worker, u64::from(key), word.min(TOMBSTONE))),
        Call::Next(key, keys) => walked(sessions.next(worker, u64::from(key), keys)),
        Call::Unlock(key) => Told::Did(sessions.unlock(worker, u64::from(key))),
    }
}

fn found(answer: Answer) -> Told {
    match answer {
        Answer::Found(found) => Told::Word(found.word),
        _ => Told::Other,
    }
}

fn stamped(answer: Answer) -> Told {
    match answer {
        Answer::Found(found) => Told::Stamp(found.number, found.log),
        _ => Told::Other,
    }
}

fn refused(unlocked: Unlocked) -> Told {
    match unlocked {
        Unlocked::NotOpen => Told::NotOpen,
        Unlocked::Refused(Refusal::Conflict { holder }) => Told::Conflict(holder),
        Unlocked::Refused(_) => Told::Other,
    }
}

fn locked(outcome: Result<(), Unlocked>) -> Told {
    match outcome {
        Ok(()) => Told::Locked,
        Err(unlocked) => refused(unlocked),
    }
}

fn put(outcome: Result<Option<u64>, Unput>) -> Told {
    match outcome {
        Ok(before) => Told::Word(before),
        Err(Unput::Spent) => Told::NotOpen,
        Err(Unput::Unlocked(unlocked)) => refused(unlocked),
        Err(Unput::Refused(Put::Full { row: _ })) => Told::Full,
        Err(Unput::Refused(_)) => Told::Other,
    }
}

fn walked(outcome: Result<Following, Unwalked>) -> Told {
    match outcome {
        Ok(Following::Pair { key, value, .. }) => Told::Pair(key, value),
        Ok(Following::Gap { high, .. }) => Told::Gap(high),
        Ok(Following::Unlocked { key }) => Told::Unlocked(key),
        Ok(_) => Told::Other,
        Err(Unwalked::NotOpen) => Told::NotOpen,
        Err(Unwalked::NotHeld(_)) => Told::Other,
    }
}
