// A disk in memory, which keeps each of its calls and tells everything.
ghost use Rattle.std.specs.Prelude.{◌≡◌, ◌<◌, ◌+◌, ◌-◌, ◌^◌, ℕ, min, [], vec_len, IfOk, true};
ghost use Rattle.std.proofs.Props.{props};
ghost use Rattle.lean_disk.specs.Memory.{AreDated, AreInStep, all_own, areas_story, late, view_at};
ghost use Rattle.lean_disk.specs.Inside.Laws.{areas_lawful, areas_whole};

use crate::order::stays_own;
use crate::slots::{is_told, newest};
use crate::{AreaLog, Choice, Did, Disk, MemPart, Read, Slot};
use std::alloc::{AllocError, Global};
use std::mem;

/// Its areas, whether they are its own as far as their calls show, how many calls were made, how often it was noted, and how often it failed.
/// While an area is split off, all calls until it is back are the next call. A part of another disk may come back in place of the disk's own:
/// where its calls and the others can't be calls of one disk, no crash is told of any more.
#[derive(Drop)]
pub struct MemDisk {
    alloc: Global,
    areas: Vec<Slot>,
    own: bool,
    made: u64,
    notes: u64,
    faults: u64,
    ghost some: { 0 < vec_len areas },
    ghost dated: { AreDated own areas.items made notes } by { Prim.hlevel props },
    ghost in_step: { own ≡ true → AreInStep (view_at areas.items) } by { Prim.hlevel props },
}

impl MemDisk {
    ghost use Rattle.lean_disk.specs.MemDisk.{bytes_at, crashed_bytes, disk_story};
    ghost use Rattle.lean_disk.specs.Told.{Begins, BeginsAfter, TellsSame};

    /// A disk of so many areas, all of them empty.
    pub fn new(alloc: Global, areas: u32) -> Result<MemDisk, AllocError>
        requires { 0 < areas }
        ensures { IfOk result (λ disk. Begins areas (λ a. []) (disk_story disk)) }
    {
        let mut list = Vec::new(alloc);
        for _ in 0..areas {
            match list.push(Slot::Here(AreaLog::new(alloc))) {
                Ok(()) => {}
                Err(_) => return Err(AllocError),
            }
        }
        Ok(MemDisk {
            alloc,
            areas: list,
            own: true,
            made: 0,
            notes: 0,
            faults: 0,
        })
    }

    /// A disk that holds these bytes, synced.
    pub fn from_areas(alloc: Global, areas: Vec<Vec<u8>>) -> Result<MemDisk, AllocError>
        requires { 0 < vec_len areas }
        ensures { IfOk result (λ disk. Begins (vec_len areas) (bytes_at areas.items) (disk_story disk)) }
    {
        let mut list = Vec::new(alloc);
        for bytes in areas {
            let log = AreaLog::from_bytes(alloc, bytes)?;
            match list.push(Slot::Here(log)) {
                Ok(()) => {}
                Err(_) => return Err(AllocError),
            }
        }
        Ok(MemDisk {
            alloc,
            areas: list,
            own: true,
            made: 0,
            notes: 0,
            faults: 0,
        })
    }

    /// The calls of an area that are to fail, by their numbers, from 1.
    pub fn fail_at(&mut self, area: u32, list: Vec<u64>)
        ensures { TellsSame (disk_story self.old) (disk_story self.new) }
    {
        if (area as usize) < self.areas.len() {
            self.areas[area as usize].set_fails(list);
        }
    }

    /// An area's bytes as a read gives them; none if it is split off.
    pub fn bytes(&self, area: u32) -> &[u8]
        ensures { result.now ≡ ((disk_story self.now).area area).bytes }
    {
        if (area as usize) < self.areas.len() {
            self.areas[area as usize].bytes()
        } else {
            &[]
        }
    }

    /// The clock.
    pub fn moment(&self) -> u64
        ensures { result ≡ min (disk_story self.now).moment (2 ^ 64 - 1) }
    {
        let called = self.made.saturating_add(self.notes);
        if is_told(self.own, &self.areas) {
            called
        } else {
            called.saturating_add(1)
        }
    }

    /// The disk that a crash at a moment leaves. Where an area is split off it begins with none of it.
    pub fn crash(&self, moment: u64, choice: Choice) -> Result<MemDisk, AllocError>
        ensures after { IfOk result (λ disk. BeginsAfter moment (disk_story self.now) (disk_story disk)) }
        ensures left { IfOk result (λ disk. (a : ℕ) → ((disk_story disk).area a).bytes ≡ crashed_bytes self.now moment choice a) }
    {
        let mut list = Vec::new(self.alloc);
        for slot in &self.areas {
            let log = slot.crashed(self.alloc, moment, choice)?;
            match list.push(Slot::Here(log)) {
                Ok(()) => {}
                Err(_) => return Err(AllocError),
            }
        }
        Ok(MemDisk {
            alloc: self.alloc,
            areas: list,
            own: true,
            made: 0,
            notes: 0,
            faults: 0,
        })
    }

    // How many calls there are after the next one.
    fn next_made(&self) -> u64
        requires { self.now.made + 1 < 2 ^ 64 }
        ensures { result + late (all_own self.now.own self.now.areas.items) ≡ self.now.made + 1 }
    {
        if is_told(self.own, &self.areas) {
            self.made + 1
        } else {
            self.made
        }
    }
}

impl Disk for MemDisk {
    type Part = MemPart;

    ghost story = { λ d. areas_story d.own d.areas.items d.made d.notes };

    ghost faults = { λ d. d.faults };

    ghost lawful = { λ d. areas_lawful d.own d.areas.items d.made d.notes d.dated };

    ghost whole = { λ d a counts. areas_whole d.own d.areas.items d.made d.notes a counts };

    fn read(&mut self, area: u32, at: u64, into: &mut [u8]) -> Read {
        if area as usize >= self.areas.len() || self.made == u64::MAX {
            self.faults = self.faults.saturating_add(1);
            return Read::Failed;
        }
        let after = self.next_made();
        match self.areas[area as usize].read(self.made + 1, self.notes, at, into) {
            Ok(Read::Got(n)) => {
                self.made = after;
                Read::Got(n)
            }
            Ok(Read::Failed) => {
                self.made = after;
                self.faults = self.faults.saturating_add(1);
                Read::Failed
            }
            Err(_) => {
                self.faults = self.faults.saturating_add(1);
                Read::Failed
            }
        }
    }

    fn write(&mut self, area: u32, at: u64, bytes: &[u8]) -> Did {
        if area as usize >= self.areas.len() || self.made == u64::MAX {
            self.faults = self.faults.saturating_add(1);
            return Did::Failed;
        }
        let after = self.next_made();
        match self.areas[area as usize].write(self.alloc, self.made + 1, self.notes, at, bytes) {
            Ok(Did::Done) => {
                self.made = after;
                Did::Done
            }
            Ok(Did::Failed) => {
                self.made = after;
                self.faults = self.faults.saturating_add(1);
                Did::Failed
            }
            Err(_) => {
                self.faults = self.faults.saturating_add(1);
                Did::Failed
            }
        }
    }

    fn sync(&mut self, area: u32) -> Did {
        if area as usize >= self.areas.len() || self.made == u64::MAX {
            self.faults = self.faults.saturating_add(1);
            return Did::Failed;
        }
        let after = self.next_made();
        match self.areas[area as usize].sync(self.made + 1, self.notes) {
            Ok(Did::Done) => {
                self.made = after;
                Did::Done
            }
            Ok(Did::Failed) => {
                self.made = after;
                self.faults = self.faults.saturating_add(1);
                Did::Failed
            }
            Err(_) => {
                self.faults = self.faults.saturating_add(1);
                Did::Failed
            }
        }
    }

    /// While an area is split off it counts for nothing.
    fn note(&mut self) {
        if is_told(self.own, &self.areas) {
            self.notes = self.notes.saturating_add(1);
        }
    }

    fn split(&mut self, area: u32) -> MemPart {
        match mem::replace(&mut self.areas[area as usize], Slot::Out) {
            Slot::Here(log) => MemPart {
                alloc: self.alloc,
                area,
                log,
                made: self.made,
                notes: self.notes,
                faults: 0,
            },
            Slot::Out => unreachable!(),
        }
    }

    /// The round ends with the last area that comes back. If a call was made in it, it was the next call.
    fn rejoin(&mut self, area: u32, part: MemPart) {
        self.faults = self.faults.saturating_add(part.faults);
        self.own = stays_own(self.own, &part.log.calls, &self.areas);
        self.areas[area as usize] = Slot::Here(part.log);
        if !is_told(self.own, &self.areas) {
            return;
        }
        self.made = newest(&self.areas, self.made);
    }
}
