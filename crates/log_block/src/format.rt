// The places of a block. They stand on disks: never move them.

/// The bytes of a block.
pub const BLOCK: usize = 2048;
/// The most bytes of records in a block.
pub const PAYLOAD: usize = 2000;

/// The tag under which a block is sealed.
pub const TAG: [u8; 8] = *b"LEANLOGB";
/// Where the records begin, behind generation, log, number, length and count.
pub const HEADER: usize = 32;
/// The bytes of a seal, which stands last.
pub const SEAL: usize = 16;
