// An engine's calls by their types, on a disk in memory that `format` made. The expected results were written down by hand.
use crate::cases::expect;
use crate::disks::unused;
use buffered_engine::{
    Aborted, Began, Broken, Closed, Engine, Formatted, Next, Opened, Receipt, Ripeness, Shape,
    Size, Synced, Unanswered, Unopened, Unserved, choose, format,
};
use lean_disk::{AreaOf, MemDisk};
use map_model::{Answer, Refusal};
use std::alloc::{AllocError, Global};

// A call of a session, and what it gives.
#[derive(Drop)]
enum Step {
    Begin(Result<Began, Unserved>),
    Get(u32, Result<Option<u64>, Unserved>),
    Put(u32, u32, Result<Option<u64>, Unserved>),
    Del(u32, Result<Option<u64>, Unserved>),
    /// A put of 7 at each key from one up to another, which have no value.
    Keys(u32, u32),
    Scan(u32, u32, Result<buffered_engine::Step, Unserved>),
    /// What follows a pair of a scan.
    Next(Result<buffered_engine::Step, Unserved>),
    /// Pairs of 7 follow, of each key from one up to another.
    Pairs(u32, u32),
    Commit(Result<Receipt, Unserved>),
    Abort(Result<Aborted, Unserved>),
    /// The abort of a call that met a conflict.
    Hindered(u64),
    Sync(Result<Synced, Unserved>),
    /// The next commit that has become durable, by session and number.
    Durable(u32, u64),
    /// No further one has.
    NoDurable,
    Ripe(Receipt, Result<Ripeness, Broken>),
    HalfDone(Result<bool, Broken>),
    Tend(Result<(), Broken>),
}

struct Case {
    name: &'static str,
    sessions: u32,
    /// How many commits of a session are flushed at once.
    group: u32,
    /// The calls of the first log's area that fail. The opening makes the first two.
    failing: &'static [u64],
    /// Each with its session.
    steps: &'static [(u32, Step)],
}

macro_rules! receipt {
    ($txn:expr, $log:expr, $gsn:expr, $need:expr) => {
        Receipt {
            txn: $txn,
            log: $log,
            gsn: $gsn,
            need: $need,
        }
    };
}

macro_rules! pair {
    ($key:expr, $value:expr) => {
        Ok(buffered_engine::Step::Pair {
            key: $key,
            value: $value,
        })
    };
}

const END: Result<buffered_engine::Step, Unserved> = Ok(buffered_engine::Step::End);

const FIRST: Receipt = receipt!(1, 1, 2, 0);

// Of a commit to come.
const LATER: Receipt = receipt!(2, 1, 3, 0);

// Of one that needs more of another log than is flushed.
const NEEDY: Receipt = receipt!(1, 1, 2, 3);

static CASES: [Case; 11] = [
    Case {
        name: "a receipt is ripe at once",
        sessions: 1,
        group: 1,
        failing: &[],
        steps: &[
            (1, Step::Begin(Ok(Began { number: 1 }))),
            (1, Step::Get(5, Ok(None))),
            (1, Step::Put(5, 7, Ok(None))),
            (1, Step::Get(5, Ok(Some(7)))),
            (1, Step::HalfDone(Ok(false))),
            (
                1,
                Step::Ripe(FIRST, Ok(Ripeness::Waits { log: 1, flushed: 0 })),
            ),
            (1, Step::Commit(Ok(FIRST))),
            (1, Step::Ripe(FIRST, Ok(Ripeness::Durable))),
            (
                1,
                Step::Ripe(LATER, Ok(Ripeness::Waits { log: 1, flushed: 2 })),
            ),
            (
                1,
                Step::Ripe(NEEDY, Ok(Ripeness::Waits { log: 1, flushed: 2 })),
            ),
            (1, Step::Tend(Ok(()))),
            (1, Step::Durable(1, 1)),
            (1, Step::NoDurable),
            (1, Step::Begin(Ok(Began { number: 2 }))),
            (1, Step::Get(5, Ok(Some(7)))),
            (1, Step::Commit(Ok(LATER))),
            (1, Step::Durable(1, 2)),
        ],
    },
    Case {
        name: "an abort puts back what its transaction changed",
        sessions: 1,
        group: 1,
        failing: &[],
        steps: &[
            (1, Step::Begin(Ok(Began { number: 1 }))),
            (1, Step::Put(5, 7, Ok(None))),
            (1, Step::Commit(Ok(FIRST))),
            (1, Step::Begin(Ok(Began { number: 2 }))),
            (1, Step::Put(6, 8, Ok(None))),
            (1, Step::Del(5, Ok(Some(7)))),
            (1, Step::Del(5, Ok(None))),
            (1, Step::Get(5, Ok(None))),
            (1, Step::HalfDone(Ok(false))),
            (1, Step::Abort(Ok(Aborted { number: 2 }))),
            (1, Step::HalfDone(Ok(false))),
            (1, Step::Begin(Ok(Began { number: 3 }))),
            (1, Step::Get(5, Ok(Some(7)))),
            (1, Step::Get(6, Ok(None))),
            // behind two changes that were put back
            (1, Step::Commit(Ok(receipt!(3, 1, 8, 0)))),
        ],
    },
    Case {
        name: "calls want a transaction and begin wants none",
        sessions: 1,
        group: 1,
        failing: &[],
        steps: &[
            (
                1,
                Step::Get(5, Err(Unserved::Refused(Refusal::NoTransaction))),
            ),
            (
                1,
                Step::Put(5, 7, Err(Unserved::Refused(Refusal::NoTransaction))),
            ),
            (
                1,
                Step::Del(5, Err(Unserved::Refused(Refusal::NoTransaction))),
            ),
            (
                1,
                Step::Scan(5, 9, Err(Unserved::Refused(Refusal::NoTransaction))),
            ),
            (
                1,
                Step::Commit(Err(Unserved::Refused(Refusal::NoTransaction))),
            ),
            (
                1,
                Step::Abort(Err(Unserved::Refused(Refusal::NoTransaction))),
            ),
            (1, Step::Begin(Ok(Began { number: 1 }))),
            (
                1,
                Step::Begin(Err(Unserved::Refused(Refusal::InTransaction))),
            ),
        ],
    },
    Case {
        name: "behind a fault nothing is answered",
        sessions: 1,
        group: 1,
        failing: &[4],
        steps: &[
            (1, Step::Begin(Ok(Began { number: 1 }))),
            (1, Step::Put(5, 7, Ok(None))),
            (
                1,
                Step::Commit(Err(Unserved::Unanswered(Unanswered::DiskFault))),
            ),
            (
                1,
                Step::Begin(Err(Unserved::Unanswered(Unanswered::Broken))),
            ),
            (
                1,
                Step::Get(5, Err(Unserved::Unanswered(Unanswered::Broken))),
            ),
            (
                1,
                Step::Put(5, 7, Err(Unserved::Unanswered(Unanswered::Broken))),
            ),
            (
                1,
                Step::Del(5, Err(Unserved::Unanswered(Unanswered::Broken))),
            ),
            (
                1,
                Step::Scan(5, 9, Err(Unserved::Unanswered(Unanswered::Broken))),
            ),
            (
                1,
                Step::Commit(Err(Unserved::Unanswered(Unanswered::Broken))),
            ),
            (
                1,
                Step::Abort(Err(Unserved::Unanswered(Unanswered::Broken))),
            ),
            (1, Step::Sync(Err(Unserved::Unanswered(Unanswered::Broken)))),
            (1, Step::Ripe(FIRST, Err(Broken))),
            (1, Step::HalfDone(Err(Broken))),
            (1, Step::Tend(Err(Broken))),
        ],
    },
    Case {
        name: "a sync whose flush fails is a disk fault",
        sessions: 2,
        group: 4,
        failing: &[4],
        steps: &[
            (1, Step::Begin(Ok(Began { number: 1 }))),
            (1, Step::Put(5, 7, Ok(None))),
            (1, Step::Commit(Ok(FIRST))),
            (1, Step::NoDurable),
            (
                1,
                Step::Sync(Err(Unserved::Unanswered(Unanswered::DiskFault))),
            ),
            (
                2,
                Step::Begin(Err(Unserved::Unanswered(Unanswered::Broken))),
            ),
        ],
    },
    Case {
        name: "a reader of what is not flushed owes the other log",
        sessions: 2,
        group: 2,
        failing: &[],
        steps: &[
            (1, Step::Begin(Ok(Began { number: 1 }))),
            (1, Step::Put(5, 7, Ok(None))),
            (1, Step::Commit(Ok(FIRST))),
            (1, Step::NoDurable),
            (2, Step::Begin(Ok(Began { number: 1 }))),
            (2, Step::Get(5, Ok(Some(7)))),
            (2, Step::Commit(Ok(receipt!(1, 2, 3, 2)))),
            (2, Step::Begin(Ok(Began { number: 2 }))),
            // the second commit of the group is flushed, but what it needs is not
            (2, Step::Commit(Ok(receipt!(2, 2, 4, 2)))),
            (
                2,
                Step::Ripe(
                    receipt!(1, 2, 3, 2),
                    Ok(Ripeness::Waits { log: 1, flushed: 0 }),
                ),
            ),
            (2, Step::NoDurable),
            (1, Step::Sync(Ok(Synced { at: 4 }))),
            (1, Step::Durable(1, 1)),
            (1, Step::Durable(2, 1)),
            (1, Step::Durable(2, 2)),
            (1, Step::NoDurable),
        ],
    },
    Case {
        name: "an abort leaves its debt",
        sessions: 2,
        group: 1,
        failing: &[],
        steps: &[
            (1, Step::Begin(Ok(Began { number: 1 }))),
            (1, Step::Put(5, 7, Ok(None))),
            (2, Step::Begin(Ok(Began { number: 1 }))),
            (2, Step::Put(6, 1, Ok(None))),
            (2, Step::Abort(Ok(Aborted { number: 1 }))),
            (2, Step::Begin(Ok(Began { number: 2 }))),
            (2, Step::Put(6, 2, Ok(None))),
            (2, Step::Commit(Ok(receipt!(2, 2, 6, 1)))),
            (2, Step::NoDurable),
            (1, Step::Sync(Ok(Synced { at: 6 }))),
            (1, Step::Durable(2, 2)),
            (1, Step::NoDurable),
            // nothing is new
            (1, Step::Sync(Ok(Synced { at: 6 }))),
            (1, Step::Commit(Ok(receipt!(1, 1, 7, 0)))),
            (1, Step::Durable(1, 1)),
        ],
    },
    Case {
        name: "who meets a conflict is aborted",
        sessions: 3,
        group: 1,
        failing: &[],
        steps: &[
            (1, Step::Begin(Ok(Began { number: 1 }))),
            (1, Step::Put(5, 7, Ok(None))),
            (3, Step::Begin(Ok(Began { number: 1 }))),
            (3, Step::Put(6, 8, Ok(None))),
            (
                3,
                Step::Get(5, Err(Unserved::Refused(Refusal::Conflict { holder: 1 }))),
            ),
            (3, Step::Hindered(1)),
            (1, Step::Get(6, Ok(None))),
            (2, Step::Begin(Ok(Began { number: 1 }))),
            (2, Step::Get(6, Ok(None))),
            (
                1,
                Step::Put(
                    6,
                    9,
                    Err(Unserved::Refused(Refusal::Conflict { holder: 2 })),
                ),
            ),
            (1, Step::Hindered(1)),
            (2, Step::Get(5, Ok(None))),
        ],
    },
    Case {
        name: "a scan tells the pairs from one key up to another",
        sessions: 1,
        group: 1,
        failing: &[],
        steps: &[
            (1, Step::Begin(Ok(Began { number: 1 }))),
            (1, Step::Put(5, 7, Ok(None))),
            (1, Step::Put(9, 1, Ok(None))),
            (1, Step::Put(6, 8, Ok(None))),
            (1, Step::Put(7, 8, Ok(None))),
            (1, Step::Del(6, Ok(Some(8)))),
            (1, Step::Scan(5, 8, pair!(5, 7))),
            (1, Step::Next(pair!(7, 8))),
            (1, Step::Next(END)),
            (1, Step::Scan(6, 9, pair!(7, 8))),
            (1, Step::Next(pair!(9, 1))),
            (1, Step::Next(END)),
            (1, Step::Scan(6, 6, END)),
            (1, Step::Scan(10, 1000, END)),
            // the first key is above the last one
            (1, Step::Scan(9, 5, END)),
            (1, Step::Get(9, Ok(Some(1)))),
            (1, Step::Abort(Ok(Aborted { number: 1 }))),
            (1, Step::Begin(Ok(Began { number: 2 }))),
            (1, Step::Scan(0, 1000, END)),
        ],
    },
    Case {
        name: "a scan stops behind sixty-four pairs",
        sessions: 1,
        group: 1,
        failing: &[],
        steps: &[
            (1, Step::Begin(Ok(Began { number: 1 }))),
            (1, Step::Keys(0, 59)),
            (1, Step::Commit(Ok(receipt!(1, 1, 61, 0)))),
            (1, Step::Durable(1, 1)),
            (1, Step::NoDurable),
            (1, Step::Begin(Ok(Began { number: 2 }))),
            (1, Step::Keys(60, 65)),
            (1, Step::Scan(0, 1000, pair!(0, 7))),
            (1, Step::Pairs(1, 63)),
            (1, Step::Next(Ok(buffered_engine::Step::More { from: 64 }))),
            (1, Step::NoDurable),
            (1, Step::Scan(64, 1000, pair!(64, 7))),
            (1, Step::Next(pair!(65, 7))),
            (1, Step::Next(END)),
            // the sixty-fourth pair has the last key
            (1, Step::Scan(2, 65, pair!(2, 7))),
            (1, Step::Pairs(3, 65)),
            (1, Step::Next(END)),
        ],
    },
    Case {
        name: "a scan that meets a conflict is aborted behind its pairs",
        sessions: 2,
        group: 1,
        failing: &[],
        steps: &[
            (1, Step::Begin(Ok(Began { number: 1 }))),
            (1, Step::Put(5, 7, Ok(None))),
            (1, Step::Put(6, 7, Ok(None))),
            (1, Step::Commit(Ok(receipt!(1, 1, 3, 0)))),
            (1, Step::Durable(1, 1)),
            (2, Step::Begin(Ok(Began { number: 1 }))),
            (2, Step::Del(6, Ok(Some(7)))),
            (1, Step::Begin(Ok(Began { number: 2 }))),
            (1, Step::Scan(5, 9, pair!(5, 7))),
            (
                1,
                Step::Next(Err(Unserved::Refused(Refusal::Conflict { holder: 2 }))),
            ),
            (1, Step::Hindered(2)),
            (1, Step::Begin(Ok(Began { number: 3 }))),
            (
                1,
                Step::Scan(
                    6,
                    9,
                    Err(Unserved::Refused(Refusal::Conflict { holder: 2 })),
                ),
            ),
            (1, Step::Hindered(3)),
            // and its own rows are in nobody's way then
            (2, Step::Put(5, 8, Ok(Some(7)))),
            (2, Step::Scan(5, 6, pair!(5, 8))),
            (2, Step::Next(END)),
        ],
    },
];

// Syncs, where these calls of the masters' area fail. The opening makes the first five, and each master takes two, a write and a sync.
static SYNCS: [(&[u64], Case); 6] = [
    (
        &[6],
        Case {
            name: "a sync of one log writes no master",
            sessions: 1,
            group: 2,
            failing: &[],
            steps: &[
                (1, Step::Begin(Ok(Began { number: 1 }))),
                (1, Step::Put(5, 7, Ok(None))),
                (1, Step::Commit(Ok(FIRST))),
                (1, Step::NoDurable),
                (1, Step::Sync(Ok(Synced { at: 2 }))),
                (1, Step::Durable(1, 1)),
                // nothing is new
                (1, Step::Sync(Ok(Synced { at: 2 }))),
            ],
        },
    ),
    (
        &[6],
        Case {
            name: "a sync of two logs that end at one number writes no master",
            sessions: 2,
            group: 2,
            failing: &[],
            steps: &[
                (1, Step::Begin(Ok(Began { number: 1 }))),
                (1, Step::Put(5, 7, Ok(None))),
                (1, Step::Commit(Ok(FIRST))),
                (2, Step::Begin(Ok(Began { number: 1 }))),
                (2, Step::Get(6, Ok(None))),
                (2, Step::Commit(Ok(receipt!(1, 2, 2, 1)))),
                (1, Step::Sync(Ok(Synced { at: 2 }))),
                (1, Step::Durable(1, 1)),
                (1, Step::Durable(2, 1)),
                (1, Step::NoDurable),
            ],
        },
    ),
    (
        &[6],
        Case {
            name: "a sync on a new disk writes no master",
            sessions: 2,
            group: 1,
            failing: &[],
            steps: &[(1, Step::Sync(Ok(Synced { at: 0 })))],
        },
    ),
    (
        &[6],
        Case {
            name: "a sync writes a master where one log ends below the other",
            sessions: 2,
            group: 1,
            failing: &[],
            steps: &[
                (1, Step::Begin(Ok(Began { number: 1 }))),
                (1, Step::Put(5, 7, Ok(None))),
                (1, Step::Commit(Ok(FIRST))),
                (
                    1,
                    Step::Sync(Err(Unserved::Unanswered(Unanswered::DiskFault))),
                ),
            ],
        },
    ),
    (
        &[7],
        Case {
            name: "a sync syncs the master that it writes",
            sessions: 2,
            group: 1,
            failing: &[],
            steps: &[
                (1, Step::Begin(Ok(Began { number: 1 }))),
                (1, Step::Put(5, 7, Ok(None))),
                (1, Step::Commit(Ok(FIRST))),
                (
                    1,
                    Step::Sync(Err(Unserved::Unanswered(Unanswered::DiskFault))),
                ),
            ],
        },
    ),
    (
        &[8],
        Case {
            name: "a sync behind which nothing is new writes no second master",
            sessions: 2,
            group: 1,
            failing: &[],
            steps: &[
                (1, Step::Begin(Ok(Began { number: 1 }))),
                (1, Step::Put(5, 7, Ok(None))),
                (1, Step::Commit(Ok(FIRST))),
                (1, Step::Sync(Ok(Synced { at: 2 }))),
                // nothing is new
                (1, Step::Sync(Ok(Synced { at: 2 }))),
                // the first log ends below the second
                (2, Step::Begin(Ok(Began { number: 1 }))),
                (2, Step::Put(6, 8, Ok(None))),
                (2, Step::Commit(Ok(receipt!(1, 2, 4, 0)))),
                (
                    1,
                    Step::Sync(Err(Unserved::Unanswered(Unanswered::DiskFault))),
                ),
            ],
        },
    ),
];

// Whether a call of a session that there is gives what is written.
fn is_called(engine: &mut Engine<MemDisk>, session: u32, step: &Step) -> bool {
    if engine.expects() != Next::Line || session < 1 || session > engine.sessions() {
        return false;
    }
    match step {
        Step::Begin(want) => engine.begin(session) == *want,
        Step::Get(key, want) => engine.get(session, u64::from(*key)) == *want,
        Step::Put(key, value, want) => {
            engine.put(session, u64::from(*key), u64::from(*value)) == *want
        }
        Step::Del(key, want) => engine.del(session, u64::from(*key)) == *want,
        Step::Scan(from, to, want) => {
            engine.scan(session, u64::from(*from), u64::from(*to)) == *want
        }
        Step::Commit(want) => engine.commit(session) == *want,
        Step::Abort(want) => engine.abort(session) == *want,
        Step::Sync(want) => engine.sync() == *want,
        _ => false,
    }
}

// Whether this follows a pair of a scan.
fn is_next(engine: &mut Engine<MemDisk>, want: &Result<buffered_engine::Step, Unserved>) -> bool {
    engine.expects() == Next::Scan && engine.next_pair() == *want
}

// Whether pairs of 7 follow, of each key from one up to another.
fn are_next(engine: &mut Engine<MemDisk>, from: u32, to: u32) -> bool {
    for key in from..=to {
        if !is_next(engine, &pair!(u64::from(key), 7)) {
            return false;
        }
    }
    true
}

// Whether 7 is put at each key from one up to another, which have no value.
fn are_put(engine: &mut Engine<MemDisk>, session: u32, from: u32, to: u32) -> bool {
    for key in from..=to {
        take_rest(engine);
        if !is_called(engine, session, &Step::Put(key, 7, Ok(None))) {
            return false;
        }
    }
    true
}

// Whether the commit that is durable next is this one.
fn is_told(engine: &mut Engine<MemDisk>, want: Option<(u32, u64)>) -> bool {
    if engine.tend().is_err() {
        return false;
    }
    let durable = engine.next_durable();
    durable.map(|d| (d.session, d.number)) == want
}

// Whether a step gives what is written.
fn is_done(engine: &mut Engine<MemDisk>, session: u32, step: &Step) -> bool {
    match step {
        Step::Durable(of, number) => is_told(engine, Some((*of, *number))),
        Step::NoDurable => is_told(engine, None),
        Step::Hindered(number) => {
            engine.expects() == Next::Abort
                && engine.answer_abort() == Ok(Answer::Aborted { number: *number })
        }
        Step::Next(want) => is_next(engine, want),
        Step::Pairs(from, to) => are_next(engine, *from, *to),
        Step::Keys(from, to) => are_put(engine, session, *from, *to),
        Step::Ripe(receipt, want) => {
            receipt.log > 0 && receipt.log <= engine.sessions() && engine.ripe(receipt) == *want
        }
        Step::HalfDone(want) => {
            session > 0 && session <= engine.sessions() && engine.half_done(session) == *want
        }
        Step::Tend(want) => engine.tend() == *want,
        step => {
            take_rest(engine);
            is_called(engine, session, step)
        }
    }
}

// Takes the durable lines that no step takes. No case has more.
pub(crate) fn take_rest(engine: &mut Engine<MemDisk>) {
    for _ in 0..1000 {
        if engine.expects() == Next::Line
            || engine.tend().is_err()
            || engine.next_durable().is_none()
        {
            return;
        }
    }
}

fn are_done(engine: &mut Engine<MemDisk>, steps: &[(u32, Step)]) -> bool {
    for (session, step) in steps {
        if !is_done(engine, *session, step) {
            return false;
        }
    }
    true
}

fn formats(alloc: Global, disk: &mut MemDisk, workers: u32) -> Result<Formatted, AllocError> {
    let shape = Shape {
        workers: workers.min(16),
        pages: 16,
        blocks: 64,
    };
    let mut buffer = vec![in alloc; 0; 65536]?;
    Ok(format(disk, shape, &mut buffer))
}

// Whether the master has so many logs, each of which begins with block 0.
fn has_logs(disk: &mut MemDisk, workers: u32) -> bool {
    let Ok(Some(master)) = choose(&mut AreaOf::new(disk, 0)) else {
        return false;
    };
    let logs = master.heads.logs();
    for log in 0..logs {
        if master.heads.head(log + 1) != 0 {
            return false;
        }
    }
    logs == workers
}

// Whether a disk is formatted so for so many workers, once and again, where these calls of its pages fail.
fn is_formatted(
    alloc: Global,
    disk: &mut MemDisk,
    workers: u32,
    failing: &[u64],
    wants: &[Formatted],
) -> Result<bool, AllocError> {
    disk.fail_at(1, Vec::from_slice(alloc, failing)?);
    for want in wants {
        if formats(alloc, disk, workers)? != *want {
            return Ok(false);
        }
    }
    Ok(has_logs(disk, workers))
}

static FORMATS: [(&str, u32, &[u64], &[Formatted]); 4] = [
    (
        "a disk is formatted once",
        1,
        &[],
        &[Formatted::Done, Formatted::AlreadyFormatted],
    ),
    (
        "a disk for two workers is formatted once",
        2,
        &[],
        &[Formatted::Done, Formatted::AlreadyFormatted],
    ),
    (
        "a disk for sixteen workers is formatted once",
        16,
        &[],
        &[Formatted::Done, Formatted::AlreadyFormatted],
    ),
    (
        "a disk whose pages failed is formatted later",
        1,
        &[1],
        &[
            Formatted::DiskFault,
            Formatted::Done,
            Formatted::AlreadyFormatted,
        ],
    ),
];

fn is_as_told(
    alloc: Global,
    workers: u32,
    failing: &[u64],
    wants: &[Formatted],
) -> Result<bool, AllocError> {
    let mut disk = MemDisk::new(alloc, 2 + workers.min(16))?;
    is_formatted(alloc, &mut disk, workers, failing, wants)
}

// A new disk for so many sessions, with no call made yet.
fn new_disk(alloc: Global, sessions: u32) -> Result<MemDisk, AllocError> {
    let mut disk = MemDisk::new(alloc, 2 + sessions.min(16))?;
    is_formatted(alloc, &mut disk, sessions, &[], &[Formatted::Done])?;
    unused(&disk)
}

fn is_met(alloc: Global, masters: &[u64], case: &Case) -> Result<bool, AllocError> {
    let mut disk = new_disk(alloc, case.sessions)?;
    disk.fail_at(0, Vec::from_slice(alloc, masters)?);
    disk.fail_at(2, Vec::from_slice(alloc, case.failing)?);
    let size = Size {
        frames: 32,
        rows: 64,
        group: case.group.max(1),
        sessions: 16,
    };
    let mut engine = match Engine::open(alloc, disk, size) {
        Ok(
            Opened {
                engine,
                generation: _,
                winners: _,
                undone: _,
            },
        ) => engine,
        Err(Unopened { disk: _, reason: _ }) => return Ok(false),
    };
    let are_done = are_done(&mut engine, case.steps);
    let Closed {
        disk: _disk,
        front: _,
    } = engine.close();
    Ok(are_done)
}

#[test]
fn each_call_gives_what_is_written(rt: HostRuntime) {
    let alloc = rt.alloc();
    for (name, workers, failing, wants) in &FORMATS {
        expect(&rt, name, is_as_told(alloc, *workers, failing, wants));
    }
    for case in &CASES {
        expect(&rt, case.name, is_met(alloc, &[], case));
    }
    for (masters, case) in &SYNCS {
        expect(&rt, case.name, is_met(alloc, masters, case));
    }
}
