// One of the files, for a worker of its own.
ghost use Rattle.disk_file.specs.Untold.{untold, untold_lawful, untold_whole};

use disk_file::FilePart;
use lean_disk::{Did, Part, Read};

/// The file of one area, handed out by a `HostDisk`.
#[derive(Drop)]
pub struct HostPart<'a> {
    pub(crate) part: FilePart<'a, HostRuntime>,
}

impl<'a> Part for HostPart<'a> {
    ghost story = { λ p. untold };

    ghost seat = { λ p. ⟦<FilePart<'a, HostRuntime> as Part>⟧.seat p.part };

    ghost faults = { λ p. ⟦<FilePart<'a, HostRuntime> as Part>⟧.faults p.part };

    ghost lawful = { λ p. untold_lawful };

    ghost seated = { λ p. untold_whole (⟦<FilePart<'a, HostRuntime> as Part>⟧.seat p.part).area };

    fn read(&mut self, at: u64, into: &mut [u8]) -> Read {
        self.part.read(at, into)
    }

    fn write(&mut self, at: u64, bytes: &[u8]) -> Did {
        self.part.write(at, bytes)
    }

    fn sync(&mut self) -> Did {
        self.part.sync()
    }
}
