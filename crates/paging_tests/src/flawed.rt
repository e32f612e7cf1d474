// A disk in memory that shows zeros in place of pages from some read on. It tells contracts nothing.
ghost use Rattle.disk_file.specs.Untold.{untold, untold_lawful, untold_whole};

use lean_disk::{Did, Disk, MemDisk, Read};
use lean_shell::{
    DiskFault, Durable, Engine, Hosts, Record, Stages, Unanswered, WorkerLog, stage_end,
};
use map_model::{Answer, Call};
use quiet_disk::QuietPart;

// The area of the pages.
const PAGES: u32 = 1;

/// The disk, how often it has failed, and how many reads of pages it still gives as they are.
#[derive(Drop)]
pub(crate) struct FlawedDisk {
    pub disk: MemDisk,
    faults: u64,
    reads: u64,
}

impl FlawedDisk {
    pub(crate) fn new(disk: MemDisk, reads: u64) -> FlawedDisk {
        FlawedDisk {
            disk,
            faults: 0,
            reads,
        }
    }
}

impl Disk for FlawedDisk {
    type Part = QuietPart;

    ghost story = { λ d. untold };

    ghost faults = { λ d. d.faults };

    ghost lawful = { λ d. untold_lawful };

    ghost whole = { λ d. untold_whole };

    fn read(&mut self, area: u32, at: u64, into: &mut [u8]) -> Read {
        let read = self.disk.read(area, at, into);
        if read == Read::Failed {
            self.faults = self.faults.saturating_add(1);
        }
        if area == PAGES {
            if self.reads == 0 {
                into.fill(0);
            }
            self.reads = self.reads.saturating_sub(1);
        }
        read
    }

    fn write(&mut self, area: u32, at: u64, bytes: &[u8]) -> Did {
        let did = self.disk.write(area, at, bytes);
        if did == Did::Failed {
            self.faults = self.faults.saturating_add(1);
        }
        did
    }

    fn sync(&mut self, area: u32) -> Did {
        let did = self.disk.sync(area);
        if did == Did::Failed {
            self.faults = self.faults.saturating_add(1);
        }
        did
    }

    fn note(&mut self) {
        self.disk.note();
    }

    fn split(&mut self, area: u32) -> QuietPart {
        QuietPart { area, faults: 0 }
    }

    fn rejoin(&mut self, _area: u32, part: QuietPart) {
        self.faults = self.faults.saturating_add(part.faults);
    }
}

impl Stages for FlawedDisk {
    fn stage_on(&mut self, log: &mut WorkerLog, own: u32, entry: &Record) -> Result<(), DiskFault> {
        stage_end(self, log, own, entry)
    }
}

impl Hosts for FlawedDisk {
    fn answer_on(
        engine: &mut Engine<FlawedDisk>,
        session: u32,
        call: &Call,
    ) -> Result<Answer, Unanswered> {
        engine.answer(session, call)
    }

    fn abort_on(engine: &mut Engine<FlawedDisk>) -> Result<Answer, Unanswered> {
        engine.answer_abort()
    }

    fn scan_on(engine: &mut Engine<FlawedDisk>) -> Result<Answer, Unanswered> {
        engine.answer_scan()
    }

    fn durable_on(engine: &mut Engine<FlawedDisk>) -> Option<Durable> {
        engine.next_durable()
    }
}
