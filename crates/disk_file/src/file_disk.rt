// A disk whose areas are files in the current folder.
ghost use Rattle.std.specs.Prelude.{◌≡◌, ◌+◌};
ghost use Rattle.lean_disk.specs.Calls.{Split};
ghost use Rattle.lean_disk.specs.Story.{Tells};
ghost use Rattle.disk_file.specs.Untold.{untold, untold_lawful, untold_whole};

use crate::area_files::AreaFiles;
use crate::faults::Faults;
use crate::file_part::FilePart;
use lean_disk::{Did, Disk, Part, Read};
use std::alloc::Global;
use std::fs::File;
use std::rt::Files;

/// A disk of the files `lean.master` (area 0), `lean.pages` (area 1) and `lean.log.S` (area 1 + S) in the
/// current folder. It tells nothing of what they hold.
///
/// A file is made when it is first written, and opened once. Each read and write is one call of the
/// system where the system does it whole. There are 66 areas; a call on another one fails.
#[derive(Drop)]
pub struct FileDisk<'a, R: Files<File = File> + Sync> {
    rt: &'a R,
    files: AreaFiles,
    faults: Faults,
}

impl<'a, R: Files<File = File> + Sync> FileDisk<'a, R> {
    /// A disk that has not failed.
    pub fn new(rt: &'a R, alloc: Global) -> FileDisk<'a, R>
        ensures { ⟦<FileDisk<'a, R> as Disk>⟧.faults result ≡ 0 }
    {
        FileDisk {
            rt,
            files: AreaFiles::new(alloc),
            faults: Faults::none(),
        }
    }
}

impl<'a, R: Files<File = File> + Sync> Disk for FileDisk<'a, R> {
    type Part = FilePart<'a, R>;

    ghost story = { λ d. untold };

    ghost faults = { λ d. d.faults.count };

    ghost lawful = { λ d. untold_lawful };

    ghost whole = { λ d. untold_whole };

    fn read(&mut self, area: u32, at: u64, into: &mut [u8]) -> Read {
        let outcome = self.files.read(self.rt, area, at, into);
        self.faults.of_read(outcome)
    }

    fn write(&mut self, area: u32, at: u64, bytes: &[u8]) -> Did {
        let outcome = self.files.write(self.rt, area, at, bytes);
        self.faults.of_call(outcome)
    }

    fn sync(&mut self, area: u32) -> Did {
        let outcome = self.files.sync(self.rt, area);
        self.faults.of_call(outcome)
    }

    fn note(&mut self) {}

    fn split(&mut self, area: u32) -> FilePart<'a, R>
        ensures split { Split area untold untold untold }
        ensures seat { (⟦<FilePart<'a, R> as Part>⟧.seat result).area ≡ area }
        ensures since { Tells untold area → (⟦<FilePart<'a, R> as Part>⟧.seat result).since + 1 ≡ untold.moment }
        ensures faults { self.new.faults.count ≡ self.old.faults.count }

        // The part counts its own.
        ensures none { ⟦<FilePart<'a, R> as Part>⟧.faults result ≡ 0 }
    {
        FilePart {
            rt: self.rt,
            area,
            file: self.files.take(area),
            faults: Faults::none(),
        }
    }

    fn rejoin(&mut self, area: u32, part: FilePart<'a, R>) {
        self.faults.add(part.faults);
        self.files.put_back(area, part.file);
    }
}
