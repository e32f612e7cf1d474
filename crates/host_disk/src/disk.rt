// The files of the system, as a disk on which an engine runs.
ghost use Rattle.std.specs.Prelude.{◌≡◌};
ghost use Rattle.disk_file.specs.Untold.{untold, untold_lawful, untold_whole};

use crate::part::HostPart;
use buffered_engine::{
    DiskFault, Durable, Engine, Hosts, Record, Stages, Unanswered, WorkerLog, stage_end,
};
use disk_file::FileDisk;
use lean_disk::{Did, Disk, Read};
use map_model::{Answer, Call};
use std::alloc::Global;

/// A `FileDisk` of the system that runs the program.
#[derive(Drop)]
pub struct HostDisk<'a> {
    files: FileDisk<'a, HostRuntime>,
}

impl<'a> HostDisk<'a> {
    /// A disk that has not failed.
    pub fn new(rt: &'a HostRuntime, alloc: Global) -> HostDisk<'a>
        ensures { ⟦<HostDisk<'a> as Disk>⟧.faults result ≡ 0 }
    {
        HostDisk {
            files: FileDisk::new(rt, alloc),
        }
    }
}

impl<'a> Disk for HostDisk<'a> {
    type Part = HostPart<'a>;

    ghost story = { λ d. untold };

    ghost faults = { λ d. ⟦<FileDisk<'a, HostRuntime> as Disk>⟧.faults d.files };

    ghost lawful = { λ d. untold_lawful };

    ghost whole = { λ d. untold_whole };

    fn read(&mut self, area: u32, at: u64, into: &mut [u8]) -> Read {
        self.files.read(area, at, into)
    }

    fn write(&mut self, area: u32, at: u64, bytes: &[u8]) -> Did {
        self.files.write(area, at, bytes)
    }

    fn sync(&mut self, area: u32) -> Did {
        self.files.sync(area)
    }

    fn note(&mut self) {
        self.files.note();
    }

    fn split(&mut self, area: u32) -> HostPart<'a> {
        HostPart {
            part: self.files.split(area),
        }
    }

    fn rejoin(&mut self, area: u32, part: HostPart<'a>) {
        self.files.rejoin(area, part.part);
    }
}

impl<'a> Stages for HostDisk<'a> {
    fn stage_on(&mut self, log: &mut WorkerLog, own: u32, entry: &Record) -> Result<(), DiskFault> {
        stage_end(self, log, own, entry)
    }
}

impl<'a> Hosts for HostDisk<'a> {
    fn answer_on(
        engine: &mut Engine<HostDisk<'a>>,
        session: u32,
        call: &Call,
    ) -> Result<Answer, Unanswered> {
        engine.answer(session, call)
    }

    fn abort_on(engine: &mut Engine<HostDisk<'a>>) -> Result<Answer, Unanswered> {
        engine.answer_abort()
    }

    fn scan_on(engine: &mut Engine<HostDisk<'a>>) -> Result<Answer, Unanswered> {
        engine.answer_scan()
    }

    fn durable_on(engine: &mut Engine<HostDisk<'a>>) -> Option<Durable> {
        engine.next_durable()
    }
}
