// The kinds and sizes of records. They stand on disks: never renumber.

/// The most pairs or keys of a record.
pub const MOST: usize = 60;

pub const CHANGE: u8 = 1;

pub const PUT_BACK: u8 = 2;

pub const SPLIT: u8 = 3;

pub const LIFT: u8 = 4;

pub const JOIN: u8 = 5;

pub const DROP_ROOT: u8 = 6;

pub const PURGE: u8 = 7;

pub const COMMIT: u8 = 8;

pub const ABORT: u8 = 9;

/// The bytes of kind, transaction and number.
pub const HEAD_SIZE: usize = 17;

/// The bytes of a pair.
pub const PAIR_SIZE: usize = 16;

/// The bytes of a key.
pub const KEY_SIZE: usize = 8;

/// The bytes of a change or a put-back: the head, page, key, the key's words before and after.
pub const CHANGE_SIZE: usize = 53;

/// The bytes of a split without its pairs: the head, three pages, separator, high fence, level, how many pairs.
pub const SPLIT_SIZE: usize = 71;

/// The bytes of a lift or a drop without its pairs: the head, the root's number before, page, level, how many pairs.
pub const ROOT_CHANGE_SIZE: usize = 39;

/// The bytes of a join without its pairs: a split's without the level.
pub const JOIN_SIZE: usize = 70;

/// The bytes of a purge without its keys: the head, page, how many keys.
pub const PURGE_SIZE: usize = 30;

/// The bytes of a commit or an abort: the head, need.
pub const END_SIZE: usize = 25;

/// The most bytes of a record: those of a split of `MOST` pairs.
pub const LARGEST: usize = 1031;
