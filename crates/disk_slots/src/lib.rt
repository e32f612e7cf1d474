//! Page slots and master slots: words as bytes, and a seal over them, both ways.
//! What each slot holds is named in specs/Pages.antt and specs/Masters.antt, over specs/Slots.antt.
#![tactic(auto)]

ghost use Rattle.disk_slots.specs.Laws.{EveryPage, EveryMaster};

mod format;
mod heads;
mod master;
mod page;
mod refusal;
mod slot;

pub use format::{FORMAT, MASTER_TAG, PAGE_TAG, SLOT, WORDS};
pub use heads::Heads;
pub use master::{Master, master_bytes, read_master};
pub use page::{page_bytes, read_page, read_valid};
pub use refusal::Refusal;

/// A page slot is one page's, and is sealed; zeros are none. A stored page is well formed.
pub fn every_page()
    ensures { EveryPage }
{}

/// A master slot is one master's, and is sealed; zeros are none.
pub fn every_master()
    ensures { EveryMaster }
{}
