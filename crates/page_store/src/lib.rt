//! The pages of a disk: their bases are fetched, and they are saved in their spare slots.
//! specs/Bases.antt says what a base is, specs/Saved.antt what stands in the slots while pages are saved.
#![tactic(auto)]

ghost use Rattle.page_store.specs.Laws.{EveryFewer, EveryLeft, EveryReach, EveryRead, EveryWhole};
ghost use Rattle.page_store.specs.Slots.{EverySeal};

mod base;
mod known;
mod saving;
mod slot;

pub use base::{Base, Seen, Unread, fetch, fetch_seen};
pub use known::{Lost, fetch_known};
pub use saving::{save, spare};
pub use slot::{Bounds, DiskFault, Held, Seal, fetch_at};

// Passed on to the crates above.
pub use disk_image::{
    Body, Heads, Keys, Master, Node, PageRef, Pairs, Record, block_bytes, every_agreement,
    every_block_in, every_master, every_master_in, every_page, every_sealed, master_bytes,
    page_bytes, read_master,
};

/// The bytes of a slot are one thing: without a seal, malformed, of a later generation, or valid.
pub fn every_seal()
    ensures { EverySeal }
{}

/// A slot that holds a page is whole.
pub fn every_whole()
    ensures { EveryWhole }
{}

/// Where the last page has its base, the pages' slots are within the area.
pub fn every_reach()
    ensures { EveryReach }
{}

/// Pages that were saved stand in their slots, as a read gives them, and the other slots are as they were.
pub fn every_read()
    ensures { EveryRead }
{}

/// What a crash leaves of an area over which pages are saved.
pub fn every_left()
    ensures { EveryLeft }
{}

/// It may leave as much of more pages.
pub fn every_fewer()
    ensures { EveryFewer }
{}
