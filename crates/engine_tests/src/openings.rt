// Disks in memory that are opened, and opened again after each crash and each failed call.
ghost use Rattle.std.specs.Prelude.{◌≤◌, length};

use crate::cases::expect;
use crate::disks::{formatted, put_master, put_pages, unused};
use buffered_engine::{Recovered, Unrecovered, block_bytes, recover};
use lean_disk::{Choice, Did, Disk, MemDisk};
use std::alloc::{AllocError, Global};

// A change of key 5 in page 0, from none to 7, and its commit.
const RECORDS: [u8; 78] = [
    1, 1, 0, 0, 0, 0, 0, 0, 0, 1, 0, 0, 0, 0, 0, 0, 0, 0, 0, 0, 0, 0, 0, 0, 0, 0, 0, 0, 0, 5, 0, 0,
    0, 0, 0, 0, 0, 0, 0, 0, 0, 0, 0, 0, 128, 7, 0, 0, 0, 0, 0, 0, 0, 8, 1, 0, 0, 0, 0, 0, 0, 0, 2,
    0, 0, 0, 0, 0, 0, 0, 0, 0, 0, 0, 0, 0, 0, 0,
];

// The change alone.
const CHANGE: [u8; 53] = [
    1, 1, 0, 0, 0, 0, 0, 0, 0, 1, 0, 0, 0, 0, 0, 0, 0, 0, 0, 0, 0, 0, 0, 0, 0, 0, 0, 0, 0, 5, 0, 0,
    0, 0, 0, 0, 0, 0, 0, 0, 0, 0, 0, 0, 128, 7, 0, 0, 0, 0, 0, 0, 0,
];

// What is done with a disk.
enum Step {
    /// So many pages are written into their first slots.
    Pages(u32),
    Master,
    /// A block with a change, or with the change and its commit.
    Change,
    Transaction,
    /// It is opened: winners, undone, sequence number, generation, floor, and the value of key 5.
    Open(Result<([u64; 5], Option<u64>), Unrecovered>),
}

// Each on an empty disk.
struct Case {
    name: &'static str,
    steps: &'static [Step],
}

static CASES: [Case; 4] = [
    Case {
        name: "a formatted disk opens with generation 1",
        steps: &[
            Step::Pages(16),
            Step::Master,
            Step::Open(Ok(([0, 0, 1, 1, 0], None))),
            Step::Open(Ok(([0, 0, 2, 2, 0], None))),
        ],
    },
    Case {
        name: "a committed transaction is there from then on",
        steps: &[
            Step::Pages(16),
            Step::Master,
            Step::Transaction,
            Step::Open(Ok(([1, 0, 1, 1, 2], Some(7)))),
            Step::Open(Ok(([0, 0, 2, 2, 2], Some(7)))),
        ],
    },
    Case {
        name: "a transaction without an end is undone",
        steps: &[
            Step::Pages(16),
            Step::Master,
            Step::Change,
            Step::Open(Ok(([0, 1, 1, 1, 1], Some(9223372036854775808)))),
            Step::Open(Ok(([0, 0, 2, 2, 1], Some(9223372036854775808)))),
        ],
    },
    Case {
        name: "a disk without a master or a page is refused",
        steps: &[
            Step::Open(Err(Unrecovered::NotFormatted)),
            Step::Pages(15),
            Step::Open(Err(Unrecovered::NotFormatted)),
            Step::Master,
            Step::Open(Err(Unrecovered::Damaged { area: 1, place: 15 })),
            Step::Pages(16),
            Step::Open(Ok(([0, 0, 1, 1, 0], None))),
        ],
    },
];

fn put_block(disk: &mut MemDisk, count: u32, records: &[u8])
    requires { length records.now ≤ 2000 }
{
    let mut bytes = [0; 2048];
    block_bytes(0, 1, 0, count, records, &mut bytes);
    disk.write(2, 0, &bytes);
}

// With one transaction that is committed, and no call made yet.
fn used(alloc: Global) -> Result<MemDisk, AllocError> {
    let mut disk = formatted(alloc, 0)?;
    put_block(&mut disk, 2, &RECORDS);
    unused(&disk)
}

// The value of key 5.
fn value(it: &Recovered) -> Option<u64> {
    match it.pages.get(0) {
        Some(node) => node.find(5),
        None => None,
    }
}

fn value_on(alloc: Global, disk: &mut MemDisk) -> Result<Option<u64>, Unrecovered> {
    Ok(value(&recover(alloc, disk, 1)?))
}

fn opened(alloc: Global, disk: &mut MemDisk) -> Result<([u64; 5], Option<u64>), Unrecovered> {
    let it = recover(alloc, disk, 1)?;
    let master = &it.master;
    let counts = [
        it.winners,
        it.undone,
        master.sequence,
        master.generation,
        master.floor,
    ];
    Ok((counts, value(&it)))
}

// Whether an opening finds what is written; what else is done is not answered.
fn is_done(alloc: Global, disk: &mut MemDisk, step: &Step) -> bool {
    match step {
        Step::Pages(count) => put_pages(disk, *count),
        Step::Master => put_master(disk, 0),
        Step::Change => put_block(disk, 1, &CHANGE),
        Step::Transaction => put_block(disk, 2, &RECORDS),
        Step::Open(want) => return opened(alloc, disk) == *want,
    }
    true
}

fn is_met(alloc: Global, case: &Case) -> Result<bool, AllocError> {
    let mut disk = MemDisk::new(alloc, 3)?;
    for step in case.steps {
        if !is_done(alloc, &mut disk, step) {
            return Ok(false);
        }
    }
    Ok(true)
}

// Whether it opens with the same map after each call of an area that failed.
fn is_same_after_faults(alloc: Global, area: u32) -> Result<bool, AllocError> {
    let used = used(alloc)?;
    for call in 1..40 {
        let mut disk = unused(&used)?;
        disk.fail_at(area, vec![in alloc; call]?);
        let found = value_on(alloc, &mut disk);
        if found != Ok(Some(7)) && found != Err(Unrecovered::DiskFault) {
            return Ok(false);
        }
        disk.fail_at(area, Vec::new(alloc));
        if value_on(alloc, &mut disk) != Ok(Some(7)) {
            return Ok(false);
        }
    }
    Ok(true)
}

// Whether it opens with the same map after a crash of an opening at each moment.
fn is_same_after_crashes(alloc: Global, choice: Choice) -> Result<bool, AllocError> {
    let mut disk = used(alloc)?;
    if value_on(alloc, &mut disk) != Ok(Some(7)) {
        return Ok(false);
    }
    for moment in 0..disk.moment() {
        let mut left = disk.crash(moment, choice)?;
        if value_on(alloc, &mut left) != Ok(Some(7)) {
            return Ok(false);
        }
    }
    Ok(true)
}

static FAULTS: [(&str, u32); 3] = [
    ("calls on the masters fail", 0),
    ("calls on the pages fail", 1),
    ("calls on the log fail", 2),
];

static CRASHES: [(&str, Choice); 4] = [
    ("crashes leave no bytes", Choice::NoBytes),
    ("crashes leave all bytes", Choice::AllBytes),
    ("crashes leave halves", Choice::FirstHalf),
    ("crashes leave zeros", Choice::Zeros),
];

#[test]
fn each_disk_opens_with_the_map_of_its_log(rt: HostRuntime) {
    let alloc = rt.alloc();
    for case in &CASES {
        expect(&rt, case.name, is_met(alloc, case));
    }
    for (name, area) in &FAULTS {
        expect(&rt, name, is_same_after_faults(alloc, *area));
    }
    for (name, choice) in &CRASHES {
        expect(&rt, name, is_same_after_crashes(alloc, *choice));
    }
}
