//! The words of a lock row, and what they say to a worker.
ghost use Rattle.std.specs.Prelude.{◌≡◌, ◌<◌, ◌≤◌, ◌∷◌, [], ℕ, true, List, max, MatchOption, if◌then◌else◌};
ghost use Rattle.lean_proto.specs.core_state.States.{Row};
ghost use Rattle.lean_proto.specs.core_state.Needs.{is_reader, may_hold, holds_row};
ghost use Rattle.lean_proto.specs.core_state.Steps as core;
ghost use Rattle.lean_proto.specs.row_words.Words.{mask};
ghost use Rattle.key_locks.specs.Rows.{IsWorker, IsRow, core_mode, IsBlocking};
ghost use Rattle.key_locks.specs.Inside.{others, list_of, IsSaid};

use crate::mode::Mode;

/// Which workers read (bit w of worker w), who holds it alone or 0, number and log of its last exclusive end, and the greatest end
/// number of its readers.
#[derive(Clone, Copy)]
pub(crate) struct Words {
    pub readers: u64,
    pub holder: u64,
    pub number: u64,
    pub log: u64,
    pub ends: u64,
}

// The readers with one more.
fn with(readers: u64, worker: u32) -> u64
    requires { worker < 64 }
    ensures { (n : ℕ) (l : List ℕ) → n < 64 → IsWorker n worker → readers ≡ mask n l → result ≡ mask n (if is_reader worker l then l else worker ∷ l) }
{
    readers | 1 << worker
}

// The readers but one.
fn without(readers: u64, worker: u32) -> u64
    requires { worker < 64 }
    ensures { (n : ℕ) (l : List ℕ) → n < 64 → readers ≡ mask n l → result ≡ mask n (others worker l) }
{
    readers & !(1 << worker)
}

// The least of the readers.
fn least(readers: u64) -> Option<u64>
    ensures { (n : ℕ) (l : List ℕ) → n < 64 → ((u : ℕ) → is_reader u l ≡ true → IsWorker n u) → readers ≡ mask n l → MatchOption result (l ≡ []) (λ b. (is_reader b l ≡ true) × ((u : ℕ) → is_reader u l ≡ true → b ≤ u)) }
{
    if readers == 0 {
        None
    } else {
        Some(u64::from(readers.trailing_zeros()))
    }
}

fn greater(a: u64, b: u64) -> u64
    ensures { result ≡ max a b }
{
    if a < b { b } else { a }
}

impl Words {
    // Who keeps the worker from a lock: the holder, else the least other reader; none where it may have the lock.
    pub fn blocker(&self, worker: u32, mode: Mode) -> Option<u64>
        requires { (0 < worker) × (worker < 64) }
        ensures { (n : ℕ) (o : Row) → n < 64 → IsWorker n worker → IsRow n o → IsSaid n o self.now → MatchOption result (may_hold o worker (core_mode mode) ≡ true) (λ b. IsBlocking o worker (core_mode mode) b) }
    {
        if self.holder == u64::from(worker) {
            return None;
        }
        if self.holder != 0 {
            return Some(self.holder);
        }
        match mode {
            Mode::Shared => None,
            Mode::Alone => least(without(self.readers, worker)),
        }
    }

    // Whether the worker holds the row, alone or with others.
    pub fn say_held_by(&self, worker: u32) -> bool
        requires { worker < 64 }
        ensures { (n : ℕ) (o : Row) → IsWorker n worker → IsSaid n o self.now → result ≡ holds_row o worker }
    {
        self.holder == u64::from(worker) || (self.readers >> worker) % 2 == 1
    }

    // The words once the worker has the lock.
    pub fn locked(&self, worker: u32, mode: Mode) -> Words
        requires { worker < 64 }
        ensures { (n : ℕ) (o : Row) → n < 64 → IsWorker n worker → IsSaid n o self.now → IsSaid n (core.locked o worker (core_mode mode)) result }
    {
        let word = u64::from(worker);
        let mut words = *self;
        if self.holder == word {
            return words;
        }
        match mode {
            Mode::Shared => words.readers = with(self.readers, worker),
            Mode::Alone => {
                words.readers = 0;
                words.holder = word;
            }
        }
        words
    }

    // The words once the worker's hold is gone, at the end with this number.
    pub fn unlocked(&self, worker: u32, end: u64) -> Words
        requires { worker < 64 }
        ensures { (n : ℕ) (o : Row) → n < 64 → IsWorker n worker → IsSaid n o self.now → IsSaid n (core.unlocked o worker end) result }
    {
        let mut words = *self;
        words.readers = without(self.readers, worker);
        if self.holder == u64::from(worker) {
            words.holder = 0;
            words.number = greater(self.number, end);
            words.log = u64::from(worker);
        } else {
            words.ends = greater(self.ends, end);
        }
        words
    }
}
