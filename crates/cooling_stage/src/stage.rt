// The queue as its callers see it.
ghost use Rattle.std.specs.Prelude.{◌≡◌, ◌≤◌, ◌<◌, ◌+◌, ◌*◌, ◌^◌, ◌++◌, ◌∷◌, [], length, slice_get, None, IsSome, IfOk};

use super::index::{index_anew, note, slot_of};
use super::slots::{close_gaps, next_live, next_used};
use indexmap::IndexMap;
use std::alloc::{AllocError, Global};
use std::marker::Model;

/// A page that cools, the frame in which it stands, and the global epoch of its cooling.
#[derive(Clone, Copy, Debug, PartialEq, Eq)]
pub struct Cooling {
    pub page: u32,
    pub frame: u32,
    pub epoch: u64,
}

/// The queue. A page is put into the slot behind the others, and its slot is emptied when it leaves.
/// When two slots for each frame are used, the gaps are closed and the index is made anew.
/// All memory is reserved when the queue is made.
#[derive(Drop)]
pub struct CoolingStage {
    frames: u32,
    slots: Vec<Option<Cooling>>,
    table: IndexMap<u32, usize>,
    // all slots below it are empty
    first: usize,
    count: usize,
}

impl Model for CoolingStage {
    ghost use Rattle.cooling_stage.specs.Queue.{Stage};
    ghost use Rattle.std.specs.Prelude.{vec_capacity};
    ghost use Rattle.cooling_stage.specs.Inside.{live, IsKept};

    ghost Value = { Stage };

    ghost view = { λ s. record { frames = s.frames; queue = live s.slots.items } };

    ghost invariant = { λ s. IsKept s.frames s.slots.items (vec_capacity s.slots) s.table s.first s.count };
}

impl CoolingStage {
    ghost use Rattle.cooling_stage.specs.Queue.{Stage, IsOnce, found, without, behind, stage};

    /// An empty queue, for the pages in so many frames. It can be refused memory, and no later call can.
    pub fn new(alloc: Global, frames: u32) -> Result<CoolingStage, AllocError>
        ensures { IfOk result (λ it. it ≡ stage frames []) }
    {
        let room = 2 * frames as usize;
        Ok(CoolingStage {
            frames,
            slots: Vec::with_capacity(alloc, room)?,
            table: IndexMap::with_capacity(alloc, room)?,
            first: 0,
            count: 0,
        })
    }

    /// For how many frames it was made.
    pub fn frames(&self) -> u32
        ensures { result ≡ self.now.frames }
    {
        self.frames
    }

    /// How many pages it holds.
    pub fn len(&self) -> usize
        ensures answer { result ≡ length self.now.queue }
        ensures once { IsOnce self.now.queue }
    {
        self.count
    }

    /// What it holds of a page: None where the page is not in it.
    pub fn find(&self, page: u32) -> Option<Cooling>
        ensures { result ≡ found page self.now.queue }
    {
        let Some((_, cooling)) = slot_of(&self.table, &self.slots, page) else {
            return None;
        };
        Some(cooling)
    }

    /// The first page, which has cooled longest: None where the queue is empty.
    pub fn head(&self) -> Option<Cooling>
        ensures { result ≡ slice_get self.now.queue 0 }
    {
        next_live(&self.slots, self.first)
    }

    /// The page that stands behind this one: None behind the last.
    pub fn behind(&self, page: u32) -> Option<Cooling>
        requires { IsSome (found page self.now.queue) }
        ensures { result ≡ slice_get (behind page self.now.queue) 0 }
    {
        let Some((slot, _)) = slot_of(&self.table, &self.slots, page) else {
            return None;
        };
        next_live(&self.slots, slot + 1)
    }

    /// Puts a page at the end, with its frame and its epoch. It makes the index anew at most once in as many calls as
    /// there are frames.
    pub fn chill(&mut self, page: u32, frame: u32, epoch: u64)
        requires absent { found page self.old.queue ≡ None }
        requires room { length self.old.queue < self.old.frames }
        ensures { self.new ≡ stage self.old.frames (self.old.queue ++ record { page = page; frame = frame; epoch = epoch } ∷ []) }
    {
        if self.slots.len() == 2 * self.frames as usize {
            close_gaps(&mut self.slots);
            index_anew(&mut self.table, &self.slots);
            self.first = 0;
        }
        note(&mut self.table, page, self.slots.len());
        self.slots
            .push_reserved(Some(Cooling { page, frame, epoch }));
        self.count += 1;
    }

    /// Takes a page out, wherever it stands, and tells what stood there: None where the page is not in it.
    pub fn rescue(&mut self, page: u32) -> Option<Cooling>
        ensures answer { result ≡ found page self.old.queue }
        ensures after { self.new ≡ stage self.old.frames (without page self.old.queue) }
    {
        let Some((slot, cooling)) = slot_of(&self.table, &self.slots, page) else {
            return None;
        };
        self.slots[slot] = None;
        self.first = next_used(&self.slots, self.first);
        self.count -= 1;
        Some(cooling)
    }

    /// Takes a page out that is there.
    pub fn take(&mut self, page: u32)
        requires { IsSome (found page self.old.queue) }
        ensures { self.new ≡ stage self.old.frames (without page self.old.queue) }
    {
        self.rescue(page);
    }
}
