// The numbers that bound pages, sessions and transactions. specs/Limits.antt has them for contracts.

/// How many pairs a node has at most, so how many keys a leaf.
pub const LEAF_ROOM: usize = 60;

/// The greatest level of a node. A leaf is of level 0.
pub const TOP_LEVEL: u8 = 7;

/// The word of a key that has no value. A value is below it.
pub const TOMBSTONE: u64 = 1 << 63;

/// The bit that tells the word of a frame from the number of a page.
pub const FRAME_BIT: u64 = 1 << 63;

/// How many sessions there are at most, so how many logs.
pub const SESSIONS: u32 = 16;

/// How many changes a transaction has at most.
pub const TRANSACTION_CHANGES: usize = 64;

/// How many ends of a session wait at most where it begins a transaction.
pub const WAITING_ENDS: usize = 256;
