// An area of a disk in memory that is split off.
ghost use Rattle.std.proofs.Props.{props};
ghost use Rattle.std.specs.List.{AllByRecursion};
ghost use Rattle.lean_disk.specs.Memory.{IsDated, part_story};
ghost use Rattle.lean_disk.specs.Inside.Laws.{part_lawful, part_seated};
ghost use Rattle.std.specs.Prelude.{◌+◌};

use crate::{AreaLog, Did, Part, Read};
use std::alloc::Global;

/// The area, with the disk's count of calls and notes when it was split off: all its calls until it is back are the next call.
#[derive(Drop)]
pub struct MemPart {
    pub alloc: Global,
    pub area: u32,
    pub log: AreaLog,
    pub made: u64,
    pub notes: u64,
    pub faults: u64,
    ghost dated: { AllByRecursion (IsDated made 1 notes) log.calls.items } by { Prim.hlevel props },
}

impl Part for MemPart {
    ghost story = { λ p. part_story p.area p.log p.made p.notes };

    ghost seat = { λ p. record { area = p.area; loan = 0; since = p.made + p.notes } };

    ghost faults = { λ p. p.faults };

    ghost lawful = { λ p. part_lawful p.area p.log p.made p.notes p.dated };

    ghost seated = { λ p counts. part_seated p.area p.log p.made p.notes counts };

    fn read(&mut self, at: u64, into: &mut [u8]) -> Read {
        if self.made == u64::MAX {
            self.faults = self.faults.saturating_add(1);
            return Read::Failed;
        }
        match self.log.read(self.made + 1, self.notes, at, into) {
            Ok(Read::Got(n)) => Read::Got(n),
            Ok(Read::Failed) => {
                self.faults = self.faults.saturating_add(1);
                Read::Failed
            }
            Err(_) => {
                self.faults = self.faults.saturating_add(1);
                Read::Failed
            }
        }
    }

    fn write(&mut self, at: u64, bytes: &[u8]) -> Did {
        if self.made == u64::MAX {
            self.faults = self.faults.saturating_add(1);
            return Did::Failed;
        }
        match self
            .log
            .write(self.alloc, self.made + 1, self.notes, at, bytes)
        {
            Ok(Did::Done) => Did::Done,
            Ok(Did::Failed) => {
                self.faults = self.faults.saturating_add(1);
                Did::Failed
            }
            Err(_) => {
                self.faults = self.faults.saturating_add(1);
                Did::Failed
            }
        }
    }

    fn sync(&mut self) -> Did {
        if self.made == u64::MAX {
            self.faults = self.faults.saturating_add(1);
            return Did::Failed;
        }
        match self.log.sync(self.made + 1, self.notes) {
            Ok(Did::Done) => Did::Done,
            Ok(Did::Failed) => {
                self.faults = self.faults.saturating_add(1);
                Did::Failed
            }
            Err(_) => {
                self.faults = self.faults.saturating_add(1);
                Did::Failed
            }
        }
    }
}
