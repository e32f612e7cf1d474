// One of the files, for a worker of its own.
ghost use Rattle.disk_file.specs.Untold.{untold, untold_lawful, untold_whole};

use crate::area_file::AreaFile;
use crate::faults::Faults;
use lean_disk::{Did, Part, Read};
use std::fs::File;
use std::rt::Files;

/// The file of one area, handed out by a `FileDisk`.
#[derive(Drop)]
pub struct FilePart<'a, R: Files<File = File> + Sync> {
    pub(crate) rt: &'a R,
    pub(crate) area: u32,
    pub(crate) file: AreaFile,
    pub(crate) faults: Faults,
}

impl<'a, R: Files<File = File> + Sync> Part for FilePart<'a, R> {
    ghost story = { λ p. untold };

    ghost seat = { λ p. record { area = p.area; loan = 0; since = 0 } };

    ghost faults = { λ p. p.faults.count };

    ghost lawful = { λ p. untold_lawful };

    ghost seated = { λ p. untold_whole p.area };

    fn read(&mut self, at: u64, into: &mut [u8]) -> Read {
        let outcome = self.file.read(self.rt, self.area, at, into);
        self.faults.of_read(outcome)
    }

    fn write(&mut self, at: u64, bytes: &[u8]) -> Did {
        let outcome = self.file.write(self.rt, self.area, at, bytes);
        self.faults.of_call(outcome)
    }

    fn sync(&mut self) -> Did {
        let outcome = self.file.sync(self.rt, self.area);
        self.faults.of_call(outcome)
    }
}
