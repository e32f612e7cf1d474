// An engine and the plain program, which go the same way.
ghost use Rattle.std.specs.Prelude.{◌<◌, ◌^◌};

use crate::counts::{Counts, see};
use crate::images::left_by;
use crate::plain::{FRAMES, GROUP, Plain};
use crate::slots::{Slot, choose};
use crate::wrong::Wrong;
use lean_disk::{Choice, MemDisk};
use map_model::Refusal;
use page_model::limits::TRANSACTION_CHANGES;
use quiet_engine::{Engine, Unserved};
use rand_pcg::Pcg32;
use std::alloc::Global;

/// Both, and the moment of the disk behind the last flush.
pub struct Walk {
    engine: Engine,
    plain: Plain,
    flushed_at: u64,
    random: Pcg32,
}

/// What was seen, or at which step what was wrong.
pub type Seen = Result<Counts, (u32, Wrong)>;

fn same<T: PartialEq + Copy>(answer: Result<T, Unserved>, wanted: T) -> Result<(), Wrong> {
    match answer {
        Ok(answer) if answer == wanted => Ok(()),
        Ok(_) => Err(Wrong::Answer),
        Err(_) => Err(Wrong::Refused),
    }
}

impl Walk {
    pub fn new(alloc: Global, disk: MemDisk, seed: u64) -> Result<Walk, Wrong> {
        let plain = Plain::new(alloc)?;
        let Some(engine) = Engine::open(alloc, disk, FRAMES, GROUP) else {
            return Err(Wrong::Opening);
        };
        let flushed_at = engine.disk().moment();
        Ok(Walk {
            engine,
            plain,
            flushed_at,
            random: Pcg32::new(seed, 54),
        })
    }

    // A transaction is open. Each fourth that begins makes a sync first.
    fn begin(&mut self) -> Result<(), Wrong> {
        if self.plain.is_open {
            return Ok(());
        }
        let is_long = choose(&mut self.random, 4) == 0;
        same(self.engine.begin(is_long), self.plain.begin(is_long))
    }

    fn commit(&mut self, alloc: Global) -> Result<(), Wrong> {
        self.begin()?;
        same(self.engine.commit(), self.plain.commit(alloc)?)
    }

    fn sync(&mut self) -> Result<(), Wrong> {
        self.plain.flush();
        same(self.engine.sync(), self.plain.clock)
    }

    fn get(&mut self, alloc: Global, slot: Slot) -> Result<(), Wrong> {
        self.begin()?;
        same(self.engine.get(slot.key()), self.plain.get(alloc, slot)?)
    }

    // The transaction has room for a change; one that has none is refused it, and commits.
    fn room(&mut self, alloc: Global, slot: Slot) -> Result<(), Wrong> {
        self.begin()?;
        if self.plain.changed as usize != TRANSACTION_CHANGES {
            return Ok(());
        }
        if !matches!(
            self.engine.put(slot.key(), 0),
            Err(Unserved::Refused(Refusal::TooLong))
        ) {
            return Err(Wrong::Refused);
        }
        self.commit(alloc)?;
        self.begin()
    }

    fn put(&mut self, alloc: Global, slot: Slot, value: u64) -> Result<(), Wrong>
        requires { value < 2 ^ 63 }
    {
        self.room(alloc, slot)?;
        same(
            self.engine.put(slot.key(), value),
            self.plain.put(alloc, slot, value)?,
        )
    }

    fn del(&mut self, alloc: Global, slot: Slot) -> Result<(), Wrong> {
        self.room(alloc, slot)?;
        same(self.engine.del(slot.key()), self.plain.del(alloc, slot)?)
    }

    fn warm(&mut self, alloc: Global, slot: Slot) -> Result<(), Wrong> {
        if !self.engine.warm(slot.key()) {
            return Err(Wrong::Refused);
        }
        self.plain.warm(alloc, slot.key())
    }

    // One call; of a hundred, so many are puts.
    fn call(&mut self, alloc: Global, puts: u32) -> Result<(), Wrong> {
        let slot = Slot::any(&mut self.random);
        let value = u64::from(choose(&mut self.random, 1 << 30));
        match choose(&mut self.random, 100) {
            0..20 => self.get(alloc, slot),
            20..44 => self.warm(alloc, slot),
            44 => self.sync(),
            45..52 => {
                let slot = Slot::apart(&mut self.random);
                self.del(alloc, slot)
            }
            kind if kind - 52 < puts => self.put(alloc, slot, value),
            _ => self.commit(alloc),
        }
    }

    /// One call, behind which both agree.
    pub fn step(&mut self, alloc: Global, puts: u32) -> Result<(), Wrong> {
        let flushes = self.plain.counts.flushes;
        self.call(alloc, puts)?;
        if self.plain.counts.flushes != flushes {
            self.flushed_at = self.engine.disk().moment();
        }
        self.plain.agrees(&self.engine)
    }

    /// A crash now, by the plain program: of the records that are not flushed the first ones are left.
    pub fn recalls(&mut self, alloc: Global) -> Result<(), Wrong> {
        let slot = Slot::any(&mut self.random);
        let late = self.plain.log.len().saturating_sub(self.plain.safe);
        let late = u32::try_from(late).unwrap_or(0);
        let more = choose(&mut self.random, late.saturating_add(1)) as usize;
        let cut = self.plain.safe.saturating_add(more);
        self.plain.recalls(alloc, cut, slot.at(), slot.key())
    }

    /// A crash at a moment since the last flush: what it leaves is recovered to the map behind so many committed transactions.
    pub fn survives(&mut self, alloc: Global, choice: Choice) -> Result<(), Wrong> {
        let disk = self.engine.disk();
        let span = disk.moment().saturating_sub(self.flushed_at);
        let span = u32::try_from(span).unwrap_or(0);
        let since = choose(&mut self.random, span.saturating_add(1));
        let moment = self.flushed_at.saturating_add(u64::from(since));
        let left = left_by(alloc, disk, moment, choice)?;
        let winners = usize::try_from(left.winners).unwrap_or(usize::MAX);
        if winners < self.plain.kept || winners > self.plain.ends.len() {
            return Err(Wrong::Winners);
        }
        if left.values != self.plain.values_after(alloc, winners)? {
            return Err(Wrong::Map);
        }
        see(&mut self.plain.counts.crashes);
        Ok(())
    }

    /// The walk ends. What was seen in it.
    pub fn end(self) -> Counts {
        let Walk {
            engine,
            plain,
            flushed_at: _,
            random: _random,
        } = self;
        engine.close();
        plain.counts
    }
}
