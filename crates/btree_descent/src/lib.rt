//! The way from the root to a key's leaf over frame rows, what the leaf says of the key and of the next pair, and how the key gets a word
//! there or loses it.
//!
//! It is optimistic lock coupling: no row is latched on the way. At each node the words that are needed are loaded, the child's version
//! is loaded, and then the node's own version is checked; so the child's version is one of a time at which the node led there.
#![tactic(auto)]

pub mod del;
pub mod descent;
pub mod events;
pub mod next;
mod node;
pub mod peek;
pub mod put;
pub mod reach;
mod trace;

// Passed on to the crates above.
pub use draw_trait::draw::{Draw, Unstaged};
pub use draw_trait::staged::{Staged, one_more};
pub use lean_proto::path::{DEEPEST, Path};
pub use lean_proto::{
    Checks, Glimpse, Hold, LAST, Latched, Misses, Moved, Names, Node as BtreeNodeNode, Nothing,
    PlainRows, Rows, Trace as RowsTraitTrace, Unheld, every_begin, every_load, every_low,
    every_residence, every_rise, every_stood, every_turn, every_undone,
};
pub use log_record::{Body, LARGEST, PageRef, Record, record_bytes};
pub use swips::{MARK, Swip, row_of};
