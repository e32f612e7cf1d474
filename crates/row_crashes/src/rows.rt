// Worker 1 changes key 5 and stays open. Worker 2 changes key 6, puts it back and aborts, changes it again and commits: its
// ends need log 1, whose number 1 its leaf had. The records are those of the events of core_crash's example, by hand.
ghost use Rattle.disk_runs.specs.log_record.Spelling.{BodyFits, Fits};

use crate::carry;
use crate::disks::{fresh_disk, read_back};
use disk_runs::{Body, PageRef, Record, WorkerLog};
use lean_disk::{AreaOf, Choice, MemDisk, Part};
use std::alloc::{AllocError, Global};
use std::process::Abort;

const TOMBSTONE: u64 = 9223372036854775808;

// What is called on a log.
enum Call {
    /// A change in page 0: transaction and number, the page's number before, key, words before and after.
    Change([u64; 2], u64, [u64; 3]),
    PutBack([u64; 2], u64, [u64; 3]),
    /// Transaction and number, and the need.
    Abort([u64; 2], u64),
    Commit([u64; 2], u64),
    /// The number up to which it is flushed then.
    Flush(u64),
}

// On this log, 1 or 2.
struct Step(u32, Call);

// What is recovered: how many records the logs have, the winners, the undone, the greatest number, and the map.
struct Left {
    counts: [u64; 4],
    map: &'static [u64],
}

// What a crash leaves that has no record,
const NOTHING: Left = Left {
    counts: [0, 0, 0, 0],
    map: &[],
};

// log 1's change alone,
const ONE: Left = Left {
    counts: [1, 0, 1, 1],
    map: &[],
};

// log 2 alone, which reaches 0, so none of its ends counts,
const TWO: Left = Left {
    counts: [5, 0, 2, 6],
    map: &[],
};

// and both: the logs reach 1, and the second transaction of worker 2 is kept alone.
const BOTH: Left = Left {
    counts: [6, 1, 1, 6],
    map: &[6, 2],
};

// Both where worker 1 has committed too.
const ALL: Left = Left {
    counts: [7, 2, 0, 6],
    map: &[5, 7, 6, 2],
};

// On a fresh disk.
struct Case {
    name: &'static str,
    /// Behind the records of the row.
    steps: &'static [Step],
    /// By moment, what is recovered where a crash leaves none of the unsynced bytes, all, halves, zeros.
    left: &'static [[Left; 4]],
}

// The row up to its flush.
static ROW: [Step; 6] = [
    Step(1, Call::Change([1, 1], 0, [5, TOMBSTONE, 7])),
    Step(2, Call::Change([1, 2], 1, [6, TOMBSTONE, 1])),
    Step(2, Call::PutBack([1, 3], 2, [6, 1, TOMBSTONE])),
    Step(2, Call::Abort([1, 4], 1)),
    Step(2, Call::Change([2, 5], 3, [6, TOMBSTONE, 2])),
    Step(2, Call::Commit([2, 6], 1)),
];

static CHOICES: [Choice; 4] = [
    Choice::NoBytes,
    Choice::AllBytes,
    Choice::FirstHalf,
    Choice::Zeros,
];

static CASES: [Case; 4] = [
    Case {
        name: "log 2 is flushed alone",
        steps: &[Step(2, Call::Flush(6))],
        left: &[
            [NOTHING, NOTHING, NOTHING, NOTHING],
            [NOTHING, TWO, NOTHING, NOTHING],
            [TWO, TWO, TWO, TWO],
        ],
    },
    Case {
        name: "log 2 is flushed and then log 1",
        steps: &[Step(2, Call::Flush(6)), Step(1, Call::Flush(1))],
        left: &[
            [NOTHING, NOTHING, NOTHING, NOTHING],
            [NOTHING, TWO, NOTHING, NOTHING],
            [TWO, TWO, TWO, TWO],
            [TWO, BOTH, TWO, TWO],
            [BOTH, BOTH, BOTH, BOTH],
        ],
    },
    Case {
        name: "log 1 is flushed first",
        steps: &[Step(1, Call::Flush(1)), Step(2, Call::Flush(6))],
        left: &[
            [NOTHING, NOTHING, NOTHING, NOTHING],
            [NOTHING, ONE, NOTHING, NOTHING],
            [ONE, ONE, ONE, ONE],
            [ONE, BOTH, ONE, ONE],
            [BOTH, BOTH, BOTH, BOTH],
        ],
    },
    Case {
        name: "worker 1 commits and all is ripe",
        steps: &[
            Step(2, Call::Flush(6)),
            Step(1, Call::Flush(1)),
            Step(1, Call::Commit([1, 2], 0)),
            Step(1, Call::Flush(2)),
        ],
        left: &[
            [NOTHING, NOTHING, NOTHING, NOTHING],
            [NOTHING, TWO, NOTHING, NOTHING],
            [TWO, TWO, TWO, TWO],
            [TWO, BOTH, TWO, TWO],
            [BOTH, BOTH, BOTH, BOTH],
            [BOTH, ALL, BOTH, BOTH],
            [ALL, ALL, ALL, ALL],
        ],
    },
];

// Behind the row as `carry` puts it into the logs, log 2 flushed.
static CARRIED: [Case; 2] = [
    Case {
        name: "the row is carried",
        steps: &[],
        left: &[
            [NOTHING, NOTHING, NOTHING, NOTHING],
            [NOTHING, TWO, NOTHING, NOTHING],
            [TWO, TWO, TWO, TWO],
        ],
    },
    Case {
        name: "the row is carried and log 1 is flushed",
        steps: &[Step(1, Call::Flush(1))],
        left: &[
            [NOTHING, NOTHING, NOTHING, NOTHING],
            [NOTHING, TWO, NOTHING, NOTHING],
            [TWO, TWO, TWO, TWO],
            [TWO, BOTH, TWO, TWO],
            [BOTH, BOTH, BOTH, BOTH],
        ],
    },
];

// A disk and its two logs.
#[derive(Drop)]
struct Run {
    disk: MemDisk,
    first: WorkerLog,
    second: WorkerLog,
}

fn new_run(alloc: Global) -> Result<Option<Run>, AllocError> {
    let Some(disk) = fresh_disk(alloc)? else {
        return Ok(None);
    };
    Ok(Some(Run {
        disk,
        first: WorkerLog::new(alloc, 0, 1, 64, 0, 0)?,
        second: WorkerLog::new(alloc, 0, 2, 64, 0, 0)?,
    }))
}

fn change_of(at: &[u64; 2], prev: u64, change: &[u64; 3]) -> Record
    ensures { Fits result }
{
    let body = Body::Change {
        leaf: PageRef { page: 0, prev },
        key: change[0],
        before: change[1],
        after: change[2],
    };
    record_of(at, body)
}

fn put_back_of(at: &[u64; 2], prev: u64, change: &[u64; 3]) -> Record
    ensures { Fits result }
{
    let body = Body::PutBack {
        leaf: PageRef { page: 0, prev },
        key: change[0],
        before: change[1],
        after: change[2],
    };
    record_of(at, body)
}

fn record_of(at: &[u64; 2], body: Body) -> Record
    requires { BodyFits body }
    ensures { Fits result }
{
    Record {
        txn: at[0],
        gsn: at[1],
        body,
    }
}

// Whether a change or a put-back was staged.
fn stages<P: Part>(log: &mut WorkerLog, dev: &mut P, entry: &Record) -> bool
    requires { Fits entry.now }
{
    log.last() < entry.gsn && log.stage(dev, entry) == Ok(())
}

// Whether an end was.
fn stages_end<P: Part>(log: &mut WorkerLog, dev: &mut P, entry: &Record) -> bool
    requires { Fits entry.now }
{
    log.last() < entry.gsn && log.room().is_ok() && log.stage_end(dev, entry) == Ok(())
}

// Whether a step is answered as is written.
fn is_done<P: Part>(log: &mut WorkerLog, dev: &mut P, call: &Call) -> bool {
    match call {
        Call::Change(at, prev, change) => stages(log, dev, &change_of(at, *prev, change)),
        Call::PutBack(at, prev, change) => stages(log, dev, &put_back_of(at, *prev, change)),
        Call::Abort(at, need) => stages_end(log, dev, &record_of(at, Body::Abort { need: *need })),
        Call::Commit(at, need) => {
            let entry = record_of(at, Body::Commit { need: *need });
            stages_end(log, dev, &entry)
        }
        Call::Flush(number) => log.flush(dev) == Ok(*number),
    }
}

fn are_done(run: &mut Run, steps: &[Step]) -> bool {
    for Step(log, call) in steps {
        let done = if *log == 1 {
            is_done(&mut run.first, &mut AreaOf::new(&mut run.disk, 2), call)
        } else {
            is_done(&mut run.second, &mut AreaOf::new(&mut run.disk, 3), call)
        };
        if !done {
            return false;
        }
    }
    true
}

// Whether a crash at a moment, by a choice, leaves what is written.
fn leaves(
    alloc: Global,
    disk: &MemDisk,
    moment: u64,
    choice: Choice,
    left: &Left,
) -> Result<bool, AllocError> {
    let mut crashed = disk.crash(moment, choice)?;
    match read_back(alloc, &mut crashed) {
        Ok(it) => Ok(it.counts == left.counts && it.map.as_slice() == left.map),
        Err(_) => Ok(false),
    }
}

// Whether each crash at a moment does.
fn all_leave(
    alloc: Global,
    disk: &MemDisk,
    moment: u64,
    left: &[Left; 4],
) -> Result<bool, AllocError> {
    for (choice, left) in CHOICES.iter().zip(left) {
        if !leaves(alloc, disk, moment, *choice, left)? {
            return Ok(false);
        }
    }
    Ok(true)
}

// Whether each crash at each moment does, and there is no moment beyond.
fn are_left(alloc: Global, disk: &MemDisk, left: &[[Left; 4]]) -> Result<bool, AllocError> {
    let mut moment = 0;
    for left in left {
        if !all_leave(alloc, disk, moment, left)? {
            return Ok(false);
        }
        moment = moment.saturating_add(1);
    }
    Ok(moment == disk.moment().saturating_add(1))
}

fn is_met(alloc: Global, case: &Case) -> Result<bool, AllocError> {
    let Some(mut run) = new_run(alloc)? else {
        return Ok(false);
    };
    if !are_done(&mut run, &ROW) || !are_done(&mut run, case.steps) {
        return Ok(false);
    }
    are_left(alloc, &run.disk, case.left)
}

// The same of the row as it is carried, with these steps behind it.
fn is_carried(alloc: Global, case: &Case) -> Result<bool, AllocError> {
    let Some(mut run) = new_run(alloc)? else {
        return Ok(false);
    };
    if run.first.last() != 0 || run.second.last() != 0 {
        return Ok(false);
    }
    if carry(&mut run.disk, &mut run.first, &mut run.second).is_err() {
        return Ok(false);
    }
    if !are_done(&mut run, case.steps) {
        return Ok(false);
    }
    are_left(alloc, &run.disk, case.left)
}

#[test]
fn each_crash_of_the_row_leaves_what_is_written(rt: HostRuntime) {
    let alloc = rt.alloc();
    for case in &CASES {
        expect(&rt, case.name, is_met(alloc, case));
    }
    for case in &CARRIED {
        expect(&rt, case.name, is_carried(alloc, case));
    }
}

// Ends the test where the case of this name is not met, or memory was refused.
fn expect(rt: &impl Abort, name: &str, is_met: Result<bool, AllocError>) {
    assert!(rt; matches!(is_met, Ok(true)), "{name}");
}
