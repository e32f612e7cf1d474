// Pages that are saved on a disk in memory and fetched again.
ghost use Rattle.std.specs.Prelude.{◌≡◌, ◌<◌};

use crate::cases::expect;
use buffered_engine::{Heads, Master, Node, Unread, fetch, save, spare};
use lean_disk::{AreaOf, Did, Disk, MemDisk};
use std::alloc::{AllocError, Global};

// What is done with page 3.
enum Step {
    /// Saved into this slot, the first or its spare, with this number and generation.
    First(u64, u64, Did),
    Spare(u64, u64, Did),
    /// Fetched by a master of this generation: its number and its slot.
    Fetch(u64, Result<(u64, u32), Unread>),
}

struct Case {
    name: &'static str,
    /// The first slot, and the calls of the pages' area that fail.
    slot: u32,
    failing: &'static [u64],
    steps: &'static [Step],
    bytes: usize,
}

static CASES: [Case; 3] = [
    Case {
        name: "the newest slot up to the master's generation is the base",
        slot: 0,
        failing: &[],
        steps: &[
            Step::Fetch(9, Err(Unread::Damaged)),
            Step::First(5, 1, Did::Done),
            Step::Fetch(9, Ok((5, 0))),
            Step::Spare(4, 2, Did::Done),
            Step::Fetch(2, Ok((4, 1))),
            Step::Fetch(1, Ok((5, 0))),
            Step::Fetch(0, Err(Unread::Damaged)),
        ],
        bytes: 8192,
    },
    Case {
        name: "of one generation the greater number counts",
        slot: 1,
        failing: &[],
        steps: &[
            Step::First(7, 1, Did::Done),
            Step::Spare(6, 1, Did::Done),
            Step::Fetch(1, Ok((7, 1))),
        ],
        bytes: 8192,
    },
    Case {
        name: "a failed call is a fault of the disk",
        slot: 0,
        failing: &[1, 3],
        steps: &[
            Step::First(5, 1, Did::Failed),
            Step::First(5, 1, Did::Done),
            Step::Fetch(1, Err(Unread::DiskFault)),
            Step::Fetch(1, Ok((5, 0))),
        ],
        bytes: 7168,
    },
];

fn save_at(disk: &mut MemDisk, slot: u32, gsn: u64, generation: u64) -> Did
    requires { slot < 2 }
{
    let mut node = Node::empty_leaf(3, 0, u64::MAX);
    node.set_gsn(gsn);
    node.set_generation(generation);
    let mut buffer = [0; 1024];
    save(&mut AreaOf::new(disk, 1), slot, &node, &mut buffer)
}

fn fetch_by(disk: &mut MemDisk, generation: u64) -> Result<(u64, u32), Unread> {
    let master = Master {
        sequence: 0,
        generation,
        floor: 0,
        pages: 16,
        blocks: 64,
        heads: Heads::new(1),
    };
    let base = fetch(&mut AreaOf::new(disk, 1), &master, 3)?;
    Ok((base.node.gsn(), base.slot))
}

// Whether a step is answered as is written.
fn is_done(disk: &mut MemDisk, slot: u32, step: &Step) -> bool
    requires { slot < 2 }
{
    match step {
        Step::First(gsn, generation, did) => save_at(disk, slot, *gsn, *generation) == *did,
        Step::Spare(gsn, generation, did) => save_at(disk, spare(slot), *gsn, *generation) == *did,
        Step::Fetch(generation, want) => fetch_by(disk, *generation) == *want,
    }
}

fn is_met(alloc: Global, case: &Case) -> Result<bool, AllocError> {
    let mut disk = MemDisk::new(alloc, 2)?;
    disk.fail_at(1, Vec::from_slice(alloc, case.failing)?);
    if case.slot > 1 {
        return Ok(false);
    }
    for step in case.steps {
        if !is_done(&mut disk, case.slot, step) {
            return Ok(false);
        }
    }
    Ok(disk.bytes(1).len() == case.bytes)
}

#[test]
fn a_page_is_fetched_from_its_newest_slot(rt: HostRuntime) {
    for case in &CASES {
        expect(&rt, case.name, is_met(rt.alloc(), case));
    }
}
