// A disk of files, called through its traits.
use crate::files::{FileRow, is_so, is_there};
use disk_file::FileDisk;
use lean_disk::{Did, Disk, Part, Read};
use std::{fs, io};

// A call and its answer, or what is seen of a file.
enum Step {
    /// Into four nines.
    Read(u32, u64, Read, [u8; 4]),
    Write(u32, u64, &'static [u8], Did),
    Sync(u32, Did),
    /// These bytes are written to a place of a part, which is synced, and read from its beginning.
    Part(u32, u64, &'static [u8], [u8; 4]),
    IsThere(&'static str, bool),
    Holds(&'static str, &'static [u8]),
    Remove(&'static str),
}

/// Calls of one disk.
pub struct Case {
    pub name: &'static str,
    steps: &'static [Step],
}

pub static CASES: [Case; 4] = [
    Case {
        name: "a file is made when it is first written",
        steps: &[
            Step::Read(0, 0, Read::Got(0), [9; 4]),
            Step::Sync(0, Did::Done),
            Step::IsThere("lean.master", false),
            Step::Write(0, 0, b"a", Did::Done),
            Step::Holds("lean.master", b"a"),
            Step::Remove("lean.master"),
            Step::Read(1, 0, Read::Got(0), [9; 4]),
            Step::Sync(1, Did::Done),
            Step::IsThere("lean.pages", false),
            Step::Write(1, 0, b"a", Did::Done),
            Step::Holds("lean.pages", b"a"),
            Step::Remove("lean.pages"),
            Step::Read(4, 0, Read::Got(0), [9; 4]),
            Step::Sync(4, Did::Done),
            Step::IsThere("lean.log.3", false),
            Step::Write(4, 0, b"a", Did::Done),
            Step::Holds("lean.log.3", b"a"),
            Step::Remove("lean.log.3"),
            Step::Read(65, 0, Read::Got(0), [9; 4]),
            Step::Sync(65, Did::Done),
            Step::IsThere("lean.log.64", false),
            Step::Write(65, 0, b"a", Did::Done),
            Step::Holds("lean.log.64", b"a"),
            Step::Remove("lean.log.64"),
        ],
    },
    Case {
        name: "what was written is read",
        steps: &[
            Step::Write(2, 1, b"abcd", Did::Done),
            Step::Sync(2, Did::Done),
            Step::Read(2, 0, Read::Got(4), [0, 97, 98, 99]),
            Step::Read(2, 3, Read::Got(2), [99, 100, 9, 9]),
            Step::Read(2, 5, Read::Got(0), [9; 4]),
            Step::Read(66, 0, Read::Failed, [9; 4]),
        ],
    },
    Case {
        name: "another disk reads it too",
        steps: &[
            Step::Sync(2, Did::Done),
            Step::Read(2, 1, Read::Got(4), *b"abcd"),
            Step::Remove("lean.log.1"),
        ],
    },
    Case {
        name: "a part writes the file that the disk reads",
        steps: &[
            Step::Write(3, 0, b"ab", Did::Done),
            Step::Part(3, 2, b"cd", *b"abcd"),
            Step::Sync(3, Did::Done),
            Step::Read(3, 0, Read::Got(4), *b"abcd"),
            Step::Remove("lean.log.2"),
        ],
    },
];

fn read_into(disk: &mut FileDisk<'_, HostRuntime>, area: u32, at: u64) -> (Read, [u8; 4]) {
    let mut into = [9; 4];
    let read = disk.read(area, at, &mut into);
    (read, into)
}

fn goes_by_part(
    disk: &mut FileDisk<'_, HostRuntime>,
    area: u32,
    at: u64,
    bytes: &[u8],
    wanted: [u8; 4],
) -> bool {
    let mut into = [9; 4];
    let mut part = disk.split(area);
    let wrote = part.write(at, bytes);
    let synced = part.sync();
    let read = part.read(0, &mut into);
    disk.rejoin(area, part);
    wrote == Did::Done && synced == Did::Done && read == Read::Got(4) && into == wanted
}

// Whether a step goes as is written.
fn goes(rt: &HostRuntime, disk: &mut FileDisk<'_, HostRuntime>, step: &Step) -> bool {
    match step {
        Step::Read(area, at, wanted, bytes) => read_into(disk, *area, *at) == (*wanted, *bytes),
        Step::Write(area, at, bytes, wanted) => disk.write(*area, *at, bytes) == *wanted,
        Step::Sync(area, wanted) => disk.sync(*area) == *wanted,
        Step::Part(area, at, bytes, wanted) => goes_by_part(disk, *area, *at, bytes, *wanted),
        Step::IsThere(name, wanted) => is_there(rt, name, *wanted),
        Step::Holds(name, bytes) => is_so(rt, &FileRow(name, bytes.len(), 0, bytes)),
        Step::Remove(name) => fs::remove_file(rt, *name).is_ok(),
    }
}

/// Whether each step goes as is written, on a disk of its own.
pub fn all_go(rt: &HostRuntime, case: &Case) -> bool {
    let mut disk = FileDisk::new(rt, rt.alloc());
    for step in case.steps {
        if !goes(rt, &mut disk, step) {
            return false;
        }
    }
    true
}
