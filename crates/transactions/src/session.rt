// A session: one transaction after another.
ghost use Rattle.std.specs.Prelude.{◌≡◌, ◌≤◌, ◌<◌, ℕ, List, [], length, true, false, IfOk};

use std::alloc::{AllocError, Global};

/// How many changes a transaction may make.
pub const CHANGES: usize = 64;

/// Where the clock ends.
pub const CLOCK_END: u64 = 1 << 62;

/// The word of a tombstone, which an absent key has too where a change says its word.
pub const TOMBSTONE: u64 = 1 << 63;

/// What a change was made of: its key, and the word before.
#[derive(Clone, Copy)]
pub struct Undo {
    pub key: u64,
    pub word: u64,
}

/// A session. `is_half` says that its abort has put back some changes and was hindered. `held` says of each lock row whether it is
/// held. The first `count` of `undo` are what the transaction's changes were made of, the oldest first. Room for both is reserved
/// when it is made, so that no call takes memory.
#[derive(Drop)]
pub struct Session {
    pub session: u32,
    pub is_open: bool,
    pub is_half: bool,
    pub held: Vec<bool>,
    pub undo: Vec<Undo>,
    pub count: usize,
    ghost sized: { (length undo.items ≡ 64) × (count ≤ 64) × (0 < length held.items) × (length held.items ≤ 4096) },
}

impl Session {
    ghost use Rattle.std.specs.Prelude.{replicate};
    ghost use Rattle.core_state.specs.Openings.{Opening};
    ghost use Rattle.core_state.specs.Needs.{is_worker};
    ghost use Rattle.transactions.specs.Memory.{memory_of, IsUsual, Knows};

    /// A session of so many lock rows, with no transaction open. Where nothing has happened yet, it knows what the core has of its worker.
    pub fn new(alloc: Global, session: u32, rows: u32) -> Result<Session, AllocError>
        requires { (0 < rows) × (rows ≤ 4096) }
        ensures rows { IfOk result (λ s. length s.held.items ≡ rows) }
        ensures memory { IfOk result (λ s. memory_of s ≡ record { session = session; is_open = false; is_half = false; held = replicate rows false; undo = [] }) }
        ensures knows { IfOk result (λ s. (g : Opening) → IsUsual g rows → is_worker g session ≡ true → Knows g [] (memory_of s)) }
    {
        Ok(Session {
            session,
            is_open: false,
            is_half: false,
            held: vec![in alloc; false; rows as usize]?,
            undo: vec![in alloc; Undo { key: 0, word: 0 }; CHANGES]?,
            count: 0,
        })
    }
}
