// Masters that are written to a disk in memory and chosen again.
use crate::cases::expect;
use buffered_engine::{Heads, Master, MasterStoreDiskFault as DiskFault, choose, write_next};
use lean_disk::{AreaOf, Did, Disk, MemDisk};
use std::alloc::{AllocError, Global};

enum Step {
    /// A master of this sequence number is written.
    Write(u64, Did),
    /// Zeros are put over a hundred bytes from this place on.
    Tear(u64),
    /// The sequence number of the master that counts.
    Choose(Result<Option<u64>, DiskFault>),
}

struct Case {
    name: &'static str,
    /// The calls of the area that fail.
    failing: &'static [u64],
    steps: &'static [Step],
    bytes: usize,
}

static CASES: [Case; 5] = [
    Case {
        name: "an empty area has no master",
        failing: &[],
        steps: &[Step::Choose(Ok(None))],
        bytes: 0,
    },
    Case {
        name: "one in slot 1 counts",
        failing: &[],
        steps: &[Step::Write(7, Did::Done), Step::Choose(Ok(Some(7)))],
        bytes: 2048,
    },
    Case {
        name: "of two the greater counts, which stands in slot 0",
        failing: &[],
        steps: &[
            Step::Write(7, Did::Done),
            Step::Write(8, Did::Done),
            Step::Choose(Ok(Some(8))),
        ],
        bytes: 2048,
    },
    Case {
        name: "a torn one does not count",
        failing: &[],
        steps: &[
            Step::Write(7, Did::Done),
            Step::Write(8, Did::Done),
            Step::Tear(0),
            Step::Choose(Ok(Some(7))),
            Step::Tear(1024),
            Step::Choose(Ok(None)),
        ],
        bytes: 2048,
    },
    Case {
        name: "a call that fails is a fault of the disk",
        failing: &[3, 6, 8],
        steps: &[
            Step::Write(7, Did::Done),
            Step::Write(8, Did::Failed),
            Step::Choose(Ok(Some(7))),
            Step::Choose(Err(DiskFault)),
            Step::Write(8, Did::Failed),
            Step::Choose(Ok(Some(8))),
        ],
        bytes: 2048,
    },
];

fn write_at(disk: &mut MemDisk, sequence: u64) -> Did {
    let master = Master {
        sequence,
        generation: 3,
        floor: 5,
        pages: 16,
        blocks: 64,
        heads: Heads::new(1),
    };
    write_next(&mut AreaOf::new(disk, 0), &master)
}

fn chosen(disk: &mut MemDisk) -> Result<Option<u64>, DiskFault> {
    match choose(&mut AreaOf::new(disk, 0))? {
        Some(master) => Ok(Some(master.sequence)),
        None => Ok(None),
    }
}

// Whether a step is answered as is written.
fn is_done(disk: &mut MemDisk, step: &Step) -> bool {
    match step {
        Step::Write(sequence, did) => write_at(disk, *sequence) == *did,
        Step::Tear(at) => disk.write(0, *at, &[0; 100]) == Did::Done,
        Step::Choose(want) => chosen(disk) == *want,
    }
}

fn is_met(alloc: Global, case: &Case) -> Result<bool, AllocError> {
    let mut disk = MemDisk::new(alloc, 1)?;
    disk.fail_at(0, Vec::from_slice(alloc, case.failing)?);
    for step in case.steps {
        if !is_done(&mut disk, step) {
            return Ok(false);
        }
    }
    Ok(disk.bytes(0).len() == case.bytes)
}

#[test]
fn the_greater_of_two_valid_masters_counts(rt: HostRuntime) {
    for case in &CASES {
        expect(&rt, case.name, is_met(rt.alloc(), case));
    }
}
