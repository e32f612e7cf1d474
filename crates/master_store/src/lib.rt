//! The masters of a disk: two slots that hold them by turns, and the one that counts.
#![tactic(auto)]

ghost use Rattle.master_store.specs.Laws.{EverySettled};

mod choice;
mod writing;

pub use choice::{DiskFault, choose};
pub use writing::write_next;

// Passed on to the crates above.
pub use page_store::{
    Base, Body, Bounds, DiskFault as PageStoreDiskFault, Heads, Held, Keys, Lost, Master, Node,
    PageRef, Pairs, Record, Seal, Seen, Unread, block_bytes, every_agreement, every_block_in,
    every_master_in, every_page, every_read, every_seal, every_sealed, every_whole, fetch,
    fetch_at, fetch_known, fetch_seen, master_bytes, page_bytes, save, spare,
};

/// An account begins with an area that is settled.
pub fn every_settled()
    ensures { EverySettled }
{}
