//! The records of a log, and their bytes.
#![tactic(auto)]

mod bodies;
mod format;
mod head;
mod items;
mod kinds;
mod laws;
mod parts;
mod pieces;
mod read;
mod record;
mod set;
mod write;

pub use format::{CHANGE_SIZE, END_SIZE, LARGEST, MOST};
pub use head::{RecordHead, record_head};
pub use laws::{every_longer, every_record_in};
pub use pieces::{put_short, put_word, split_short, split_word};
pub use read::read_record;
pub use record::{Body, Keys, PageRef, Pair, Pairs, Record};
pub use write::{record_bytes, record_size};
