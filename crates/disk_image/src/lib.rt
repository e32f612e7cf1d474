//! What the bytes of a disk show, and what they stand for: definitions and their laws.
#![tactic(auto)]

ghost use Rattle.disk_image.specs.Laws.{EveryAgreement, EveryBelongs, EveryBlockIn, EveryBreak, EveryMasterIn, EveryPageIn, EverySealed};

// Passed on to the crates above.
pub use btree_node::{Node, Put, are_ordered};
pub use disk_slots::{
    Heads, Master, Refusal, every_master, every_page, master_bytes, page_bytes, read_master,
    read_page,
};
pub use log_block::{BLOCK, PAYLOAD, Refusal as LogBlockRefusal, block_bytes, open_block};
pub use log_record::{Body, Keys, PageRef, Pair, Pairs, Record, record_bytes, record_size};

/// A slot holds the page that the grammar says, or none.
pub fn every_page_in()
    ensures { EveryPageIn }
{}

/// So it does with masters.
pub fn every_master_in()
    ensures { EveryMasterIn }
{}

/// The test of a seal.
pub fn every_sealed()
    ensures { EverySealed }
{}

/// The test whether a block is the one that is looked for.
pub fn every_belongs()
    ensures { EveryBelongs }
{}

/// A block holds the records that the grammar says, or none.
pub fn every_block_in()
    ensures { EveryBlockIn }
{}

/// A disk with a place that breaks a rule is not sound.
pub fn every_break()
    ensures { EveryBreak }
{}

/// Images that agree as far as logs and pages go stand for the same.
pub fn every_agreement()
    ensures { EveryAgreement }
{}
