// A disk in memory that tells nothing to contracts, as files do: rows over it need not begin as it is known.
ghost use Rattle.disk_file.specs.Untold.{untold, untold_lawful, untold_whole};

use lean_disk::{Did, Disk, MemDisk, Part, Read};
use session_state::{DiskFault, Record, Stages, WorkerLog, stage_end};

/// The disk, and how often it has failed.
#[derive(Drop)]
pub struct QuietDisk {
    pub disk: MemDisk,
    faults: u64,
}

impl QuietDisk {
    /// A disk that has not failed.
    pub fn new(disk: MemDisk) -> QuietDisk {
        QuietDisk { disk, faults: 0 }
    }
}

/// An area of it that was handed out. It fails: no walk hands one out.
#[derive(Drop)]
pub struct QuietPart {
    pub area: u32,
    pub faults: u64,
}

impl Part for QuietPart {
    ghost use Rattle.std.specs.Prelude.{◌≡◌};

    ghost story = { λ p. untold };

    ghost seat = { λ p. record { area = p.area; loan = 0; since = 0 } };

    ghost faults = { λ p. p.faults };

    ghost lawful = { λ p. untold_lawful };

    ghost seated = { λ p. untold_whole p.area };

    fn read(&mut self, _at: u64, _into: &mut [u8]) -> Read {
        self.faults = self.faults.saturating_add(1);
        Read::Failed
    }

    fn write(&mut self, _at: u64, _bytes: &[u8]) -> Did {
        self.faults = self.faults.saturating_add(1);
        Did::Failed
    }

    fn sync(&mut self) -> Did {
        self.faults = self.faults.saturating_add(1);
        Did::Failed
    }
}

impl Disk for QuietDisk {
    type Part = QuietPart;

    ghost story = { λ d. untold };

    ghost faults = { λ d. d.faults };

    ghost lawful = { λ d. untold_lawful };

    ghost whole = { λ d. untold_whole };

    fn read(&mut self, area: u32, at: u64, into: &mut [u8]) -> Read {
        let read = self.disk.read(area, at, into);
        if read == Read::Failed {
            self.faults = self.faults.saturating_add(1);
        }
        read
    }

    fn write(&mut self, area: u32, at: u64, bytes: &[u8]) -> Did {
        let did = self.disk.write(area, at, bytes);
        if did == Did::Failed {
            self.faults = self.faults.saturating_add(1);
        }
        did
    }

    fn sync(&mut self, area: u32) -> Did {
        let did = self.disk.sync(area);
        if did == Did::Failed {
            self.faults = self.faults.saturating_add(1);
        }
        did
    }

    fn note(&mut self) {
        self.disk.note();
    }

    fn split(&mut self, area: u32) -> QuietPart {
        QuietPart { area, faults: 0 }
    }

    fn rejoin(&mut self, _area: u32, part: QuietPart) {
        self.faults = self.faults.saturating_add(part.faults);
    }
}

impl Stages for QuietDisk {
    fn stage_on(&mut self, log: &mut WorkerLog, own: u32, entry: &Record) -> Result<(), DiskFault> {
        stage_end(self, log, own, entry)
    }
}
