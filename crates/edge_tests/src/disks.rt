// Disks in memory, called through their traits.
use crate::cases::expect;
use lean_disk::{AreaOf, Choice, Did, Disk, MemDisk, Part, Read};
use std::alloc::{AllocError, Global};

// What a disk begins with: so many empty areas, or areas of these bytes.
enum First {
    Empty(u32),
    Areas(&'static [&'static [u8]]),
}

// A call, and its answer; or what is seen of the disk.
enum Step {
    Write(u32, u64, &'static [u8], Did),
    /// It and the sync go through a part.
    WriteByPart(u32, &'static [u8], Did),
    Sync(u32, Did),
    /// Into four zeros.
    Read(u32, u64, Read, [u8; 4]),
    Note,
    Moment(u64),
    Bytes(u32, &'static [u8]),
    /// The first bytes of an area, read into four nines after a crash at a moment.
    Crash(u64, Choice, u32, [u8; 4]),
}

struct Case {
    name: &'static str,
    first: First,
    /// The calls of area 1 that fail.
    failing: &'static [u64],
    steps: &'static [Step],
}

static CASES: [Case; 5] = [
    Case {
        name: "a crash leaves what was synced and the choice of the rest",
        first: First::Empty(2),
        failing: &[],
        steps: &[
            Step::Write(1, 0, b"abcd", Did::Done),
            Step::Sync(1, Did::Done),
            Step::Note,
            Step::Write(1, 0, b"wxyz", Did::Done),
            Step::Moment(4),
            Step::Crash(4, Choice::NoBytes, 1, *b"abcd"),
            Step::Crash(4, Choice::AllBytes, 1, *b"wxyz"),
            Step::Crash(4, Choice::FirstHalf, 1, *b"wxcd"),
            Step::Crash(4, Choice::Zeros, 1, [0; 4]),
            Step::Crash(3, Choice::Zeros, 1, *b"abcd"),
            Step::Crash(1, Choice::NoBytes, 1, [9; 4]),
        ],
    },
    Case {
        name: "a write behind the end is filled up with zeros",
        first: First::Empty(1),
        failing: &[],
        steps: &[
            Step::Write(0, 2, b"abcd", Did::Done),
            Step::Write(0, 3, b"x", Did::Done),
            Step::Bytes(0, b"\0\0axcd"),
            Step::Read(0, 4, Read::Got(2), *b"cd\0\0"),
        ],
    },
    Case {
        name: "a listed call fails and the one after it does not",
        first: First::Empty(2),
        failing: &[2],
        steps: &[
            Step::Write(1, 0, b"abcd", Did::Done),
            Step::Sync(1, Did::Failed),
            Step::Sync(1, Did::Done),
            Step::Write(5, 0, b"abcd", Did::Failed),
        ],
    },
    Case {
        name: "a disk begins with the bytes that it is given",
        first: First::Areas(&[b"head", b"page"]),
        failing: &[],
        steps: &[
            Step::Bytes(0, b"head"),
            Step::Bytes(1, b"page"),
            Step::Bytes(2, b""),
            Step::Crash(0, Choice::Zeros, 1, *b"page"),
        ],
    },
    Case {
        name: "an area of a borrowed disk is the disk's",
        first: First::Empty(2),
        failing: &[],
        steps: &[
            Step::WriteByPart(1, b"part", Did::Done),
            Step::Bytes(1, b"part"),
        ],
    },
];

fn disk_of(alloc: Global, first: &First) -> Result<MemDisk, AllocError> {
    match first {
        First::Empty(areas) => MemDisk::new(alloc, (*areas).max(1)),
        First::Areas(all) => {
            let mut areas = Vec::new(alloc);
            for bytes in *all {
                areas.push(bytes.to_vec(alloc)?)?;
            }
            if areas.is_empty() {
                return MemDisk::new(alloc, 1);
            }
            MemDisk::from_areas(alloc, areas)
        }
    }
}

fn read_into(disk: &mut MemDisk, area: u32, at: u64, into: [u8; 4]) -> (Read, [u8; 4]) {
    let mut into = into;
    let read = disk.read(area, at, &mut into);
    (read, into)
}

fn has_bytes(disk: &MemDisk, area: u32, wanted: &[u8]) -> bool {
    disk.bytes(area) == wanted
}

fn write_by_area(disk: &mut MemDisk, area: u32, bytes: &[u8]) -> Did {
    let mut part = AreaOf::new(disk, area);
    match part.write(0, bytes) {
        Did::Done => part.sync(),
        Did::Failed => Did::Failed,
    }
}

// Whether a step goes as is written.
fn goes(disk: &mut MemDisk, step: &Step) -> Result<bool, AllocError> {
    let goes = match step {
        Step::Write(area, at, bytes, wanted) => disk.write(*area, *at, bytes) == *wanted,
        Step::WriteByPart(area, bytes, wanted) => write_by_area(disk, *area, bytes) == *wanted,
        Step::Sync(area, wanted) => disk.sync(*area) == *wanted,
        Step::Read(area, at, wanted, bytes) => {
            read_into(disk, *area, *at, [0; 4]) == (*wanted, *bytes)
        }
        Step::Note => {
            disk.note();
            true
        }
        Step::Moment(wanted) => disk.moment() == *wanted,
        Step::Bytes(area, wanted) => has_bytes(disk, *area, wanted),
        Step::Crash(moment, choice, area, wanted) => {
            let mut left = disk.crash(*moment, *choice)?;
            read_into(&mut left, *area, 0, [9; 4]).1 == *wanted
        }
    };
    Ok(goes)
}

fn all_go(disk: &mut MemDisk, steps: &[Step]) -> Result<bool, AllocError> {
    for step in steps {
        if !goes(disk, step)? {
            return Ok(false);
        }
    }
    Ok(true)
}

fn is_met(alloc: Global, case: &Case) -> Result<bool, AllocError> {
    let mut disk = disk_of(alloc, &case.first)?;
    disk.fail_at(1, case.failing.to_vec(alloc)?);
    all_go(&mut disk, case.steps)
}

// What is seen of the disk behind a write and a sync of a part.
static BEHIND_A_PART: [Step; 3] = [
    Step::Moment(1),
    Step::Crash(0, Choice::NoBytes, 1, [9; 4]),
    Step::Crash(1, Choice::NoBytes, 1, *b"part"),
];

// A disk to which a part was lent, and the answers of the part's write and of its sync.
fn lent(alloc: Global) -> Result<(MemDisk, Did, Did), AllocError> {
    lean_disk::every_area();
    let mut disk = MemDisk::new(alloc, 2)?;
    let mut part = disk.split(1);
    let wrote = part.write(0, b"part");
    let synced = part.sync();
    disk.rejoin(1, part);
    Ok((disk, wrote, synced))
}

fn is_the_disks(alloc: Global) -> Result<bool, AllocError> {
    let (mut disk, wrote, synced) = lent(alloc)?;
    Ok(wrote == Did::Done && synced == Did::Done && all_go(&mut disk, &BEHIND_A_PART)?)
}

#[test]
fn disks_in_memory_go_as_is_written(rt: HostRuntime) {
    let alloc = rt.alloc();
    for case in &CASES {
        expect(&rt, case.name, is_met(alloc, case));
    }
    expect(
        &rt,
        "what a part wrote is the disk's when it is back",
        is_the_disks(alloc),
    );
}
