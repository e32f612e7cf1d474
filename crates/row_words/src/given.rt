//! What rows begin with, as plain data. No value of these types is made.
use crate::event::Event;
use std::collections::LinkedList;

/// A key and its word: a value or a tombstone in a leaf, a child's page number in an inner node.
pub struct Entry {
    pub key: u64,
    pub word: u64,
}

/// A page as recovery leaves it: the number and the log of its last change, and its node (`live` is false where the page is
/// free). Keys from `low` on and below `high` belong to it; a leaf has level 0.
pub struct Page {
    pub gsn: u64,
    pub last: u32,
    pub live: bool,
    pub level: u32,
    pub low: u64,
    pub high: u64,
    pub pairs: LinkedList<Entry>,
}

/// Whether a page that is read again has the pairs with which it was saved; how many workers, frames and lock rows there are
/// (no workers, frames or pages count as one); the base number, above which numbers are drawn; the pages, page 0 first; and what
/// happened up to the moment at which the rows begin, the first event first.
pub struct Given {
    pub faithful: bool,
    pub workers: u32,
    pub frames: u32,
    pub rows: u32,
    pub base: u64,
    pub pages: LinkedList<Page>,
    pub before: LinkedList<Event>,
}
