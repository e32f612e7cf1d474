// Which slot of each page is firm, and whether the other one was written since the last sync.
ghost use Rattle.std.specs.Prelude.{◌≡◌, ◌<◌, ◌≤◌, ◌^◌, List, length, map, slice_get, vec_len, Some, IfOk};
ghost use Rattle.page_calls.specs.Slots.{last_slot, opened_slot, saved_slot, settled_slot};
ghost use Rattle.page_calls.specs.declared.slots.Slot.{Slot};

use std::alloc::{AllocError, Global};
use std::marker::Model;

/// The slot of a page that is synced, the first or the second one, and whether the page was saved to the other one since.
#[derive(Clone, Copy)]
pub struct Slot {
    pub second: bool,
    pub late: bool,
}

/// The slots of all pages. No call but `new` takes memory.
#[derive(Drop)]
pub struct Slots {
    slots: Vec<Slot>,
}

impl Model for Slots {
    ghost Value = { List Slot };

    ghost view = { λ s. s.slots.items };

    ghost invariant = { λ s. vec_len s.slots < 2 ^ 32 };
}

// The slot behind an opening, which leaves nothing unsynced.
fn opened(slot: u32) -> Slot
    ensures { result ≡ opened_slot slot }
{
    Slot {
        second: slot == 1,
        late: false,
    }
}

// The slot after a sync.
fn settled(slot: Slot) -> Slot
    ensures { result ≡ settled_slot slot }
{
    if slot.late {
        return Slot {
            second: !slot.second,
            late: false,
        };
    }
    slot
}

// Which slot holds the page as it was saved last.
pub(crate) fn last_slot(slot: Slot) -> u32
    ensures answer { result ≡ last_slot slot }
    ensures half { result < 2 }
{
    if slot.late {
        return if slot.second { 0 } else { 1 };
    }
    if slot.second { 1 } else { 0 }
}

impl Slots {
    /// The slots of all pages behind an opening, by the number of each page's firm one.
    pub fn new(alloc: Global, firm: &[u32]) -> Result<Self, AllocError>
        requires { length firm.now < 2 ^ 32 }
        ensures { IfOk result (λ slots. slots ≡ map opened_slot firm.now) }
    {
        let mut slots = Vec::with_capacity(alloc, firm.len())?;
        for page in 0..firm.len() {
            slots.push_reserved(opened(firm[page]));
        }
        Ok(Slots { slots })
    }

    /// How many pages there are.
    pub fn len(&self) -> u32
        ensures { result ≡ length self.now }
    {
        self.slots.len() as u32
    }

    /// What is known of a page's slots.
    pub fn of(&self, page: u32) -> Slot
        requires { page < length self.now }
        ensures { slice_get self.now page ≡ Some result }
    {
        self.slots[page as usize]
    }

    // The page was saved to its other slot.
    pub(crate) fn note(&mut self, page: u32)
        requires { page < length self.old }
        ensures { self.new ≡ saved_slot page self.old }
    {
        let slot = self.slots[page as usize];
        self.slots[page as usize] = Slot {
            second: slot.second,
            late: true,
        };
    }

    // All that was saved is synced.
    pub(crate) fn settle(&mut self)
        ensures { self.new ≡ map settled_slot self.old }
    {
        for page in 0..self.slots.len() {
            self.slots[page] = settled(self.slots[page]);
        }
    }
}
