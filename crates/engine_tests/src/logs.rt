// A log over a disk in memory. The bytes of blocks are Python's, by struct.pack and hashlib.
use crate::cases::expect;
use buffered_engine::{Body, DiskFault, PageRef, Record, Staging, WorkerLog};
use lean_disk::{AreaOf, Disk, MemDisk, Part};
use std::alloc::{AllocError, Global};
use std::process::Abort;

enum Step {
    /// A change of key 5 from none to 7 of this number.
    Change(u64, Result<(), Staging>),
    /// The changes of these numbers.
    Changes(u64, u64),
    /// The same, each flushed.
    Flushes(u64, u64),
    Commit(u64, Result<(), DiskFault>),
    Flush(Result<u64, DiskFault>),
    /// The clock takes the number of a sync.
    Mark(u64),
    /// The first block with a record above this number.
    Above(u64, u64),
    /// The head passes the blocks before this one.
    Pass(u64),
    Room(Result<(), Staging>),
    /// So many blocks are used, and up to this number it is flushed.
    Stands(u32, u64),
    Last(u64),
    /// The first block of the run, and the block in hand.
    Blocks(u64, u64),
}

// Bytes of the log's area at a place, and so many zeros behind them.
struct Bytes {
    at: usize,
    bytes: &'static [u8],
    zeros: usize,
}

struct Case {
    name: &'static str,
    generation: u64,
    log: u32,
    /// The first block.
    head: u64,
    /// The calls of the log's area that fail.
    failing: &'static [u64],
    steps: &'static [Step],
    /// The number up to which it is flushed when it is closed.
    flushed: u64,
    /// How many bytes are there then, and how many calls were made.
    len: usize,
    moment: u64,
    bytes: &'static [Bytes],
}

static CASES: [Case; 6] = [
    Case {
        name: "a change and its commit are one block",
        generation: 1,
        log: 1,
        head: 0,
        failing: &[],
        steps: &[
            Step::Change(1, Ok(())),
            Step::Commit(2, Ok(())),
            Step::Stands(1, 0),
            Step::Flush(Ok(2)),
            Step::Stands(1, 2),
            Step::Flush(Ok(2)),
        ],
        flushed: 2,
        len: 2048,
        moment: 2,
        // Generation 1, log 1, number 0; the change and the commit; the seal.
        bytes: &[
            Bytes {
                at: 0,
                bytes: &[
                    1, 0, 0, 0, 0, 0, 0, 0, 1, 0, 0, 0, 0, 0, 0, 0, 0, 0, 0, 0, 0, 0, 0, 0, 78, 0,
                    0, 0, 2, 0, 0, 0,
                ],
                zeros: 0,
            },
            Bytes {
                at: 32,
                bytes: &[
                    1, 1, 0, 0, 0, 0, 0, 0, 0, 1, 0, 0, 0, 0, 0, 0, 0, 0, 0, 0, 0, 0, 0, 0, 0, 0,
                    0, 0, 0, 5, 0, 0, 0, 0, 0, 0, 0, 0, 0, 0, 0, 0, 0, 0, 128, 7, 0, 0, 0, 0, 0, 0,
                    0, 8, 1, 0, 0, 0, 0, 0, 0, 0, 2, 0, 0, 0, 0, 0, 0, 0, 0, 0, 0, 0, 0, 0, 0, 0,
                ],
                zeros: 1922,
            },
            Bytes {
                at: 2032,
                bytes: &[
                    102, 226, 156, 186, 148, 31, 161, 121, 19, 173, 224, 181, 88, 18, 40, 45,
                ],
                zeros: 0,
            },
        ],
    },
    Case {
        name: "a record that does not fit begins the next block",
        generation: 3,
        log: 2,
        head: 63,
        failing: &[],
        steps: &[
            Step::Changes(1, 37),
            Step::Stands(1, 0),
            Step::Change(38, Ok(())),
            Step::Stands(2, 0),
            Step::Flush(Ok(38)),
        ],
        flushed: 38,
        len: 131072,
        moment: 3,
        // Block 64 with one change, and block 63 with 37: number, bytes and records, and the seal.
        bytes: &[
            Bytes {
                at: 16,
                bytes: &[64, 0, 0, 0, 0, 0, 0, 0, 53, 0, 0, 0, 1, 0, 0, 0],
                zeros: 0,
            },
            Bytes {
                at: 2032,
                bytes: &[
                    23, 254, 194, 241, 95, 131, 195, 47, 170, 85, 12, 210, 16, 183, 155, 198,
                ],
                zeros: 0,
            },
            Bytes {
                at: 129040,
                bytes: &[63, 0, 0, 0, 0, 0, 0, 0, 169, 7, 0, 0, 37, 0, 0, 0],
                zeros: 0,
            },
            Bytes {
                at: 131056,
                bytes: &[
                    71, 137, 228, 79, 3, 225, 81, 106, 171, 26, 178, 98, 105, 27, 233, 52,
                ],
                zeros: 0,
            },
        ],
    },
    Case {
        name: "changes leave sixteen blocks to ends",
        generation: 1,
        log: 1,
        head: 0,
        failing: &[],
        steps: &[
            Step::Flushes(1, 48),
            Step::Room(Err(Staging::LogFull {
                used: 48,
                limit: 48,
            })),
            Step::Change(
                49,
                Err(Staging::LogFull {
                    used: 48,
                    limit: 48,
                }),
            ),
            Step::Last(48),
            Step::Commit(49, Ok(())),
            Step::Stands(49, 48),
            Step::Flush(Ok(49)),
        ],
        flushed: 49,
        len: 100352,
        moment: 98,
        bytes: &[],
    },
    Case {
        name: "the clock goes on from a mark, and the head passes a block",
        generation: 1,
        log: 1,
        head: 0,
        failing: &[],
        steps: &[
            Step::Change(1, Ok(())),
            Step::Flush(Ok(1)),
            Step::Mark(5),
            Step::Stands(1, 5),
            Step::Last(5),
            Step::Change(6, Ok(())),
            Step::Flush(Ok(6)),
            Step::Stands(2, 6),
            Step::Above(0, 0),
            Step::Above(5, 1),
            Step::Above(6, 2),
            Step::Pass(1),
            Step::Above(0, 1),
            Step::Stands(1, 6),
            Step::Blocks(1, 2),
        ],
        flushed: 6,
        len: 4096,
        moment: 4,
        // Block 1 with one change, of number 6.
        bytes: &[Bytes {
            at: 2064,
            bytes: &[
                1, 0, 0, 0, 0, 0, 0, 0, 53, 0, 0, 0, 1, 0, 0, 0, 1, 1, 0, 0, 0, 0, 0, 0, 0, 6, 0,
                0, 0, 0, 0, 0, 0,
            ],
            zeros: 0,
        }],
    },
    Case {
        name: "blocks that the head has passed leave their places",
        generation: 1,
        log: 1,
        head: 0,
        failing: &[],
        steps: &[
            Step::Flushes(1, 48),
            Step::Pass(48),
            Step::Stands(0, 48),
            Step::Room(Ok(())),
            Step::Flushes(49, 80),
            Step::Above(60, 60),
            Step::Above(1000, 80),
            Step::Stands(32, 80),
            Step::Blocks(48, 80),
        ],
        flushed: 80,
        len: 131072,
        moment: 160,
        // Block 79 at place 15, and block 16 at place 16.
        bytes: &[
            Bytes {
                at: 30736,
                bytes: &[79, 0, 0, 0, 0, 0, 0, 0, 53, 0, 0, 0, 1, 0, 0, 0],
                zeros: 0,
            },
            Bytes {
                at: 32784,
                bytes: &[16, 0, 0, 0, 0, 0, 0, 0, 53, 0, 0, 0, 1, 0, 0, 0],
                zeros: 0,
            },
        ],
    },
    Case {
        name: "a flush that fails leaves the number",
        generation: 1,
        log: 1,
        head: 0,
        failing: &[2],
        steps: &[
            Step::Change(1, Ok(())),
            Step::Flush(Err(DiskFault)),
            Step::Stands(1, 0),
        ],
        flushed: 0,
        len: 2048,
        moment: 2,
        bytes: &[],
    },
];

fn change<P: Part>(
    rt: &impl Abort,
    log: &mut WorkerLog,
    dev: &mut P,
    gsn: u64,
) -> Result<(), Staging> {
    assert!(rt; log.last() < gsn);
    let leaf = PageRef { page: 0, prev: 0 };
    let body = Body::Change {
        leaf,
        key: 5,
        before: 9223372036854775808,
        after: 7,
    };
    log.stage(dev, &Record { txn: 1, gsn, body })
}

fn commit<P: Part>(
    rt: &impl Abort,
    log: &mut WorkerLog,
    dev: &mut P,
    gsn: u64,
) -> Result<(), DiskFault> {
    assert!(rt; log.last() < gsn);
    let above = log.used().saturating_sub(16);
    assert!(rt; above < log.limit());
    let body = Body::Commit { need: 0 };
    log.stage_end(dev, &Record { txn: 1, gsn, body })
}

fn mark(rt: &impl Abort, log: &mut WorkerLog, number: u64) {
    assert!(rt; log.flushed() == log.last());
    assert!(rt; log.last() <= number);
    log.mark(number);
}

fn pass(rt: &impl Abort, log: &mut WorkerLog, head: u64) {
    assert!(rt; log.head() <= head);
    assert!(rt; head <= log.next());
    assert!(rt; head <= 4096);
    log.pass(head);
}

// Whether a step is answered as is written.
fn is_done<P: Part>(rt: &impl Abort, log: &mut WorkerLog, dev: &mut P, step: &Step) -> bool {
    match step {
        Step::Change(gsn, want) => change(rt, log, dev, *gsn) == *want,
        Step::Changes(first, last) => {
            for gsn in *first..=*last {
                if change(rt, log, dev, gsn).is_err() {
                    return false;
                }
            }
            true
        }
        Step::Flushes(first, last) => {
            for gsn in *first..=*last {
                if log.room().is_err()
                    || change(rt, log, dev, gsn).is_err()
                    || log.flush(dev) != Ok(gsn)
                {
                    return false;
                }
            }
            true
        }
        Step::Commit(gsn, want) => commit(rt, log, dev, *gsn) == *want,
        Step::Flush(want) => log.flush(dev) == *want,
        Step::Mark(number) => {
            mark(rt, log, *number);
            true
        }
        Step::Above(number, block) => log.head_above(*number) == *block,
        Step::Pass(head) => {
            pass(rt, log, *head);
            true
        }
        Step::Room(want) => log.room() == *want,
        Step::Stands(used, flushed) => log.used() == *used && log.flushed() == *flushed,
        Step::Last(last) => log.last() == *last,
        Step::Blocks(head, next) => log.head() == *head && log.next() == *next,
    }
}

// Whether the bytes stand at their place, and the zeros behind them.
fn holds(area: &[u8], part: &Bytes) -> bool {
    let Some(rest) = area.get(part.at..) else {
        return false;
    };
    let Some(behind) = rest.strip_prefix(part.bytes) else {
        return false;
    };
    for byte in behind.iter().take(part.zeros) {
        if *byte != 0 {
            return false;
        }
    }
    true
}

fn is_met(rt: &impl Abort, alloc: Global, case: &Case) -> Result<bool, AllocError> {
    let mut disk = MemDisk::new(alloc, 3)?;
    disk.fail_at(2, Vec::from_slice(alloc, case.failing)?);
    let mut dev = AreaOf::new(&mut disk, 2);
    if case.log < 1 || case.log > 16 || case.head > 63 {
        return Ok(false);
    }
    let mut log = WorkerLog::new(alloc, case.generation, case.log, 64, case.head, 0)?;
    for step in case.steps {
        if !is_done(rt, &mut log, &mut dev, step) {
            return Ok(false);
        }
    }
    for part in case.bytes {
        if !holds(disk.bytes(2), part) {
            return Ok(false);
        }
    }
    Ok(
        log.close() == case.flushed
            && disk.bytes(2).len() == case.len
            && disk.moment() == case.moment,
    )
}

#[test]
fn a_log_stages_records_and_writes_blocks(rt: HostRuntime) {
    for case in &CASES {
        expect(&rt, case.name, is_met(&rt, rt.alloc(), case));
    }
}
