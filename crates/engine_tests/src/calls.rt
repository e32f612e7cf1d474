// An engine on a formatted disk in memory. The expected answers were written down by hand.
ghost use Rattle.std.specs.Prelude.{◌≡◌, ◌<◌, ◌≤◌, ℕ, true};
ghost use Rattle.buffered_engine.specs.engine_trait.Calls.{IsAsked};
ghost use Rattle.buffered_engine.specs.engine_front.declared.calls.Next.{Next};

use crate::cases::expect;
use crate::disks::formatted;
use crate::sessions::take_rest;
use buffered_engine::{Closed, Engine, Next, Opened, Size, Unanswered, Unopened};
use lean_disk::MemDisk;
use map_model::{Answer, Call, Refusal};
use std::alloc::{AllocError, Global};

// What is asked.
#[derive(Drop)]
enum Asked {
    Begin,
    Get(u32),
    Put(u32, u32),
    Del(u32),
    Scan(u32, u32),
    Commit,
    Abort,
}

// Calls, and what each is answered.
enum Step {
    Begun(u64),
    Call(Asked, Result<Answer, Unanswered>),
    /// What follows a pair of a scan.
    Next(Result<Answer, Unanswered>),
    /// The same call so many times.
    Again(u32, Asked, Result<Answer, Unanswered>),
    /// A put of 7 at each of the first so many keys, which have no value.
    Keys(u32),
    /// So many transactions that change nothing, the first ones of all.
    Transactions(u64),
}

struct Case {
    name: &'static str,
    /// What the clock shows at first.
    clock: u64,
    /// The calls of the log's area that fail. The opening makes the first two.
    failing: &'static [u64],
    steps: &'static [Step],
    /// How many bytes are in the log's area then, and how many calls were made behind the opening.
    bytes: usize,
    moment: u64,
}

const WAS_NONE: Result<Answer, Unanswered> = Ok(Answer::Was(None));

const WAS_7: Result<Answer, Unanswered> = Ok(Answer::Was(Some(7)));

const VALUE_8: Result<Answer, Unanswered> = Ok(Answer::Value(Some(8)));

const NO_VALUE: Result<Answer, Unanswered> = Ok(Answer::Value(None));

const NO_TRANSACTION: Result<Answer, Unanswered> = Ok(Answer::Refused(Refusal::NoTransaction));

const CLOCK_SPENT: Result<Answer, Unanswered> = Ok(Answer::Refused(Refusal::ClockSpent));

macro_rules! refused {
    ($refusal:expr) => {
        Ok(Answer::Refused($refusal))
    };
}

macro_rules! committed {
    ($number:expr, $at:expr) => {
        Step::Call(
            Asked::Commit,
            Ok(Answer::Committed {
                number: $number,
                at: $at,
            }),
        )
    };
}

static CASES: [Case; 10] = [
    Case {
        name: "a put is read and committed",
        clock: 0,
        failing: &[],
        steps: &[
            Step::Begun(1),
            Step::Call(Asked::Get(5), NO_VALUE),
            Step::Call(Asked::Put(5, 7), WAS_NONE),
            Step::Call(Asked::Put(5, 8), WAS_7),
            Step::Call(Asked::Get(5), VALUE_8),
            Step::Call(Asked::Get(6), NO_VALUE),
            committed!(1, 3),
            Step::Begun(2),
            Step::Call(Asked::Get(5), VALUE_8),
        ],
        // One block, one sync.
        bytes: 2048,
        moment: 2,
    },
    Case {
        name: "a key that is deleted has no value",
        clock: 0,
        failing: &[],
        steps: &[
            Step::Begun(1),
            Step::Call(Asked::Del(5), WAS_NONE),
            Step::Call(Asked::Put(5, 7), WAS_NONE),
            Step::Call(Asked::Del(5), WAS_7),
            Step::Call(Asked::Del(5), WAS_NONE),
            Step::Call(Asked::Get(5), NO_VALUE),
            committed!(1, 3),
        ],
        bytes: 2048,
        moment: 2,
    },
    Case {
        name: "an abort puts changes back and flushes nothing",
        clock: 0,
        failing: &[],
        steps: &[
            Step::Begun(1),
            Step::Call(Asked::Put(5, 7), WAS_NONE),
            committed!(1, 2),
            Step::Begun(2),
            Step::Call(Asked::Put(5, 8), WAS_7),
            Step::Call(Asked::Del(5), Ok(Answer::Was(Some(8)))),
            Step::Call(Asked::Abort, Ok(Answer::Aborted { number: 2 })),
            Step::Call(Asked::Abort, NO_TRANSACTION),
            Step::Begun(3),
            Step::Call(Asked::Put(5, 9), WAS_7),
        ],
        bytes: 2048,
        moment: 2,
    },
    Case {
        name: "a scan is answered pair by pair",
        clock: 0,
        failing: &[],
        steps: &[
            Step::Begun(1),
            Step::Call(Asked::Put(5, 7), WAS_NONE),
            Step::Call(Asked::Put(6, 8), WAS_NONE),
            Step::Call(Asked::Scan(0, 9), Ok(Answer::Pair { key: 5, value: 7 })),
            Step::Next(Ok(Answer::Pair { key: 6, value: 8 })),
            Step::Next(Ok(Answer::End)),
            committed!(1, 3),
            Step::Call(Asked::Scan(0, 9), NO_TRANSACTION),
        ],
        bytes: 2048,
        moment: 2,
    },
    Case {
        name: "calls want a transaction and begin wants none",
        clock: 0,
        failing: &[],
        steps: &[
            Step::Call(Asked::Get(5), NO_TRANSACTION),
            Step::Call(Asked::Put(5, 7), NO_TRANSACTION),
            Step::Call(Asked::Del(5), NO_TRANSACTION),
            Step::Call(Asked::Commit, NO_TRANSACTION),
            Step::Call(Asked::Abort, NO_TRANSACTION),
            Step::Begun(1),
            Step::Call(Asked::Begin, refused!(Refusal::InTransaction)),
            committed!(1, 1),
            Step::Call(Asked::Commit, NO_TRANSACTION),
        ],
        bytes: 2048,
        moment: 2,
    },
    Case {
        name: "the sixty-fifth change is too long",
        clock: 0,
        failing: &[],
        steps: &[
            Step::Begun(1),
            Step::Call(Asked::Put(5, 7), WAS_NONE),
            Step::Again(63, Asked::Put(5, 7), WAS_7),
            Step::Call(Asked::Put(5, 7), refused!(Refusal::TooLong)),
            Step::Call(Asked::Del(5), refused!(Refusal::TooLong)),
            committed!(1, 65),
        ],
        // 37 changes in the first block.
        bytes: 4096,
        moment: 3,
    },
    Case {
        name: "the log is full after forty-eight commits",
        clock: 0,
        failing: &[],
        steps: &[
            Step::Transactions(48),
            Step::Call(
                Asked::Begin,
                refused!(Refusal::LogFull {
                    used: 48,
                    limit: 48,
                }),
            ),
            Step::Call(Asked::Put(5, 7), NO_TRANSACTION),
        ],
        bytes: 98304,
        moment: 96,
    },
    Case {
        name: "a leaf has room for sixty keys and the next one makes room",
        clock: 0,
        failing: &[],
        steps: &[
            Step::Begun(1),
            Step::Keys(60),
            // The root is lifted and the leaf is split: numbers 61 and 62.
            Step::Call(Asked::Put(60, 7), WAS_NONE),
            Step::Call(Asked::Put(59, 8), WAS_7),
            Step::Call(Asked::Get(59), VALUE_8),
            committed!(1, 65),
        ],
        // 37 changes in the first block and 23 in the second one, which has no room for the 999 bytes of the lift. The two pages that the tree takes are read.
        bytes: 6144,
        moment: 6,
    },
    Case {
        name: "the clock ends",
        clock: 4611686018427387903,
        failing: &[],
        steps: &[
            Step::Begun(1),
            Step::Call(Asked::Put(5, 7), WAS_NONE),
            Step::Call(Asked::Put(5, 7), CLOCK_SPENT),
            Step::Call(Asked::Del(5), CLOCK_SPENT),
            committed!(1, 4611686018427387905),
            Step::Call(Asked::Begin, CLOCK_SPENT),
        ],
        bytes: 2048,
        moment: 2,
    },
    Case {
        name: "a commit whose sync fails is a disk fault",
        clock: 0,
        failing: &[4],
        steps: &[
            Step::Begun(1),
            Step::Call(Asked::Put(5, 7), WAS_NONE),
            Step::Call(Asked::Commit, Err(Unanswered::DiskFault)),
        ],
        bytes: 2048,
        moment: 2,
    },
];

fn call_of(asked: &Asked) -> Call
    ensures { (sessions : ℕ) → 1 ≤ sessions → IsAsked sessions 1 result }
{
    match asked {
        Asked::Begin => Call::Begin,
        Asked::Get(key) => Call::Get { key: *key as u64 },
        Asked::Put(key, value) => Call::Put {
            key: *key as u64,
            value: *value as u64,
        },
        Asked::Del(key) => Call::Del { key: *key as u64 },
        Asked::Scan(from, to) => Call::Scan {
            from: *from as u64,
            to: *to as u64,
        },
        Asked::Commit => Call::Commit,
        Asked::Abort => Call::Abort,
    }
}

// Whether a call of session 1 is answered so. Behind it the durable lines are taken.
fn answers(engine: &mut Engine<MemDisk>, asked: &Asked, want: &Result<Answer, Unanswered>) -> bool {
    if engine.expects() != Next::Line || engine.sessions() < 1 {
        return false;
    }
    let answer = engine.answer(1, &call_of(asked));
    if answer.is_ok() {
        take_rest(engine);
    }
    answer == *want
}

// Whether this follows a pair of a scan.
fn goes_on(engine: &mut Engine<MemDisk>, want: &Result<Answer, Unanswered>) -> bool {
    if engine.expects() != Next::Scan {
        return false;
    }
    let answer = engine.answer_scan();
    if answer.is_ok() {
        take_rest(engine);
    }
    answer == *want
}

// Whether the calls of a step are answered as is written.
fn is_done(engine: &mut Engine<MemDisk>, step: &Step) -> bool {
    match step {
        Step::Begun(number) => {
            let want = Ok(Answer::Begun { number: *number });
            answers(engine, &Asked::Begin, &want)
        }
        Step::Call(asked, want) => answers(engine, asked, want),
        Step::Next(want) => goes_on(engine, want),
        Step::Again(count, asked, want) => {
            for _ in 0..*count {
                if !answers(engine, asked, want) {
                    return false;
                }
            }
            true
        }
        Step::Keys(count) => {
            for key in 0..*count {
                if !answers(engine, &Asked::Put(key, 7), &WAS_NONE) {
                    return false;
                }
            }
            true
        }
        Step::Transactions(count) => {
            for number in 1..=*count {
                let begun = Ok(Answer::Begun { number });
                let committed = Ok(Answer::Committed { number, at: number });
                if !answers(engine, &Asked::Begin, &begun)
                    || !answers(engine, &Asked::Commit, &committed)
                {
                    return false;
                }
            }
            true
        }
    }
}

// Whether all steps are done so.
fn are_done(engine: &mut Engine<MemDisk>, steps: &[Step]) -> bool {
    for step in steps {
        if !is_done(engine, step) {
            return false;
        }
    }
    true
}

const SIZE: Size = Size {
    frames: 32,
    rows: 64,
    group: 1,
    sessions: 1,
};

// Five calls of the masters, 34 of the pages and two of the log.
const OPENING: u64 = 41;

fn is_met(alloc: Global, case: &Case) -> Result<bool, AllocError> {
    let mut disk = formatted(alloc, case.clock)?;
    disk.fail_at(2, Vec::from_slice(alloc, case.failing)?);
    let mut engine = match Engine::open(alloc, disk, SIZE) {
        Ok(
            Opened {
                engine,
                generation: _,
                winners: _,
                undone: _,
            },
        ) => engine,
        Err(Unopened { disk: _, reason: _ }) => return Ok(false),
    };
    let are_done = are_done(&mut engine, case.steps);
    let Closed { disk, front: _ } = engine.close();
    let moment = disk.moment().checked_sub(OPENING);
    Ok(are_done && disk.bytes(2).len() == case.bytes && moment == Some(case.moment))
}

#[test]
fn each_call_is_answered_as_is_written(rt: HostRuntime) {
    for case in &CASES {
        expect(&rt, case.name, is_met(rt.alloc(), case));
    }
}
