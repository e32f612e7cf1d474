// What stands on disk: never renumber.

/// The bytes of a slot: its words, then a seal over them.
pub const SLOT: usize = 1024;

/// The words of a slot.
pub const WORDS: usize = 126;

/// The tag of a page slot's seal.
pub const PAGE_TAG: [u8; 8] = *b"LEANPAGE";

/// The tag of a master slot's seal.
pub const MASTER_TAG: [u8; 8] = *b"LEANMAST";

/// The number of the format, the first word of a master.
pub const FORMAT: u64 = 1;
