// The bytes of the blocks are Python's, by struct.pack and hashlib.
ghost use Rattle.std.specs.Prelude.{◌≤◌, length};

use log_block::{Refusal, block_bytes, read_block, valid_run};
use std::alloc::{AllocError, Global};

// A change of key 5 from none to 7 and its commit.
const PAYLOAD: [u8; 78] = [
    1, 1, 0, 0, 0, 0, 0, 0, 0, 1, 0, 0, 0, 0, 0, 0, 0, 0, 0, 0, 0, 0, 0, 0, 0, 0, 0, 0, 0, 5, 0, 0,
    0, 0, 0, 0, 0, 0, 0, 0, 0, 0, 0, 0, 128, 7, 0, 0, 0, 0, 0, 0, 0, 8, 1, 0, 0, 0, 0, 0, 0, 0, 2,
    0, 0, 0, 0, 0, 0, 0, 0, 0, 0, 0, 0, 0, 0, 0,
];

// The same without its last byte.
const CUT_PAYLOAD: [u8; 77] = [
    1, 1, 0, 0, 0, 0, 0, 0, 0, 1, 0, 0, 0, 0, 0, 0, 0, 0, 0, 0, 0, 0, 0, 0, 0, 0, 0, 0, 0, 5, 0, 0,
    0, 0, 0, 0, 0, 0, 0, 0, 0, 0, 0, 0, 128, 7, 0, 0, 0, 0, 0, 0, 0, 8, 1, 0, 0, 0, 0, 0, 0, 0, 2,
    0, 0, 0, 0, 0, 0, 0, 0, 0, 0, 0, 0, 0, 0,
];

fn block_in(generation: u64, log: u32, block: u64, count: u32, payload: &[u8]) -> [u8; 2048] {
    let mut into = [b'x'; 2048];
    if payload.len() <= 2000 {
        block_bytes(generation, log, block, count, payload, &mut into);
    }
    into
}

// A block, and its bytes: the header, the payload, zeros, and the seal.
struct Written {
    name: &'static str,
    generation: u64,
    log: u32,
    block: u64,
    count: u32,
    payload: &'static [u8],
    header: [u8; 32],
    seal: [u8; 16],
}

static WRITTEN: [Written; 2] = [
    Written {
        name: "a change and its commit",
        generation: 1,
        log: 1,
        block: 0,
        count: 2,
        payload: &PAYLOAD,
        header: [
            1, 0, 0, 0, 0, 0, 0, 0, 1, 0, 0, 0, 0, 0, 0, 0, 0, 0, 0, 0, 0, 0, 0, 0, 78, 0, 0, 0, 2,
            0, 0, 0,
        ],
        seal: [
            102, 226, 156, 186, 148, 31, 161, 121, 19, 173, 224, 181, 88, 18, 40, 45,
        ],
    },
    Written {
        name: "no record, and the greatest number",
        generation: 7,
        log: 16,
        block: 9223372036854775807,
        count: 0,
        payload: &[],
        header: [
            7, 0, 0, 0, 0, 0, 0, 0, 16, 0, 0, 0, 0, 0, 0, 0, 255, 255, 255, 255, 255, 255, 255,
            127, 0, 0, 0, 0, 0, 0, 0, 0,
        ],
        seal: [
            221, 77, 101, 134, 34, 171, 41, 198, 174, 137, 59, 166, 25, 210, 222, 131,
        ],
    },
];

fn wanted_of(row: &Written) -> [u8; 2048] {
    let mut bytes = [0; 2048];
    bytes[..32].copy_from_slice(&row.header);
    let n = row.payload.len();
    if n <= 2000 {
        bytes[32..32 + n].copy_from_slice(row.payload);
    }
    bytes[2032..].copy_from_slice(&row.seal);
    bytes
}

#[test]
fn blocks_stand_byte_for_byte(rt: HostRuntime) {
    for row in &WRITTEN {
        let block = block_in(row.generation, row.log, row.block, row.count, row.payload);
        assert!(rt; block == wanted_of(row), "{}", row.name);
    }
}

#[derive(Clone, Copy, PartialEq, Eq)]
enum Outcome {
    /// Its payload is read.
    Read,
    /// Something else is.
    Other,
    NoRun,
    Malformed,
}

// A block of generation 1, log 1, number 0, cut off behind `end` bytes, with another last byte maybe; and as what it is
// read: a generation, a log, a number.
struct ReadRow {
    name: &'static str,
    count: u32,
    payload: &'static [u8],
    last: Option<u8>,
    end: usize,
    asked: (u64, u32, u64),
    outcome: Outcome,
}

static READS: [ReadRow; 12] = [
    ReadRow {
        name: "where it belongs",
        count: 2,
        payload: &PAYLOAD,
        last: None,
        end: 2048,
        asked: (1, 1, 0),
        outcome: Outcome::Read,
    },
    ReadRow {
        name: "another generation",
        count: 2,
        payload: &PAYLOAD,
        last: None,
        end: 2048,
        asked: (2, 1, 0),
        outcome: Outcome::NoRun,
    },
    ReadRow {
        name: "another log",
        count: 2,
        payload: &PAYLOAD,
        last: None,
        end: 2048,
        asked: (1, 2, 0),
        outcome: Outcome::NoRun,
    },
    ReadRow {
        name: "another number",
        count: 2,
        payload: &PAYLOAD,
        last: None,
        end: 2048,
        asked: (1, 1, 1),
        outcome: Outcome::NoRun,
    },
    ReadRow {
        name: "the last byte of its seal",
        count: 2,
        payload: &PAYLOAD,
        last: Some(45),
        end: 2048,
        asked: (1, 1, 0),
        outcome: Outcome::Read,
    },
    ReadRow {
        name: "without its last byte",
        count: 2,
        payload: &PAYLOAD,
        last: None,
        end: 2047,
        asked: (1, 1, 0),
        outcome: Outcome::NoRun,
    },
    ReadRow {
        name: "with another last byte",
        count: 2,
        payload: &PAYLOAD,
        last: Some(1),
        end: 2048,
        asked: (1, 1, 0),
        outcome: Outcome::NoRun,
    },
    ReadRow {
        name: "one record of two",
        count: 1,
        payload: &PAYLOAD,
        last: None,
        end: 2048,
        asked: (1, 1, 0),
        outcome: Outcome::Malformed,
    },
    ReadRow {
        name: "three records of two",
        count: 3,
        payload: &PAYLOAD,
        last: None,
        end: 2048,
        asked: (1, 1, 0),
        outcome: Outcome::Malformed,
    },
    ReadRow {
        name: "two records without the last byte",
        count: 2,
        payload: &CUT_PAYLOAD,
        last: None,
        end: 2048,
        asked: (1, 1, 0),
        outcome: Outcome::Malformed,
    },
    ReadRow {
        name: "more records than there are bytes",
        count: 4294967295,
        payload: &[],
        last: None,
        end: 2048,
        asked: (1, 1, 0),
        outcome: Outcome::Malformed,
    },
    ReadRow {
        name: "no record",
        count: 0,
        payload: &[],
        last: None,
        end: 2048,
        asked: (1, 1, 0),
        outcome: Outcome::Read,
    },
];

fn outcome_of(row: &ReadRow) -> Outcome {
    let mut bytes = block_in(1, 1, 0, row.count, row.payload);
    if let Some(last) = row.last {
        bytes[2047] = last;
    }
    let (generation, log, block) = row.asked;
    match read_block(generation, log, block, bytes.get(..row.end).unwrap_or(&[])) {
        Ok(payload) if payload == row.payload => Outcome::Read,
        Ok(_) => Outcome::Other,
        Err(Refusal::NoRun) => Outcome::NoRun,
        Err(Refusal::Malformed) => Outcome::Malformed,
    }
}

#[test]
fn a_block_is_read_where_it_belongs_and_holds_records_alone(rt: HostRuntime) {
    for row in &READS {
        assert!(rt; outcome_of(row) == row.outcome, "{}", row.name);
    }
}

// How long a run is: its generation, its log, its first block, the blocks of the ring, and the answer.
struct Run(u64, u32, u64, u32, u32);

// An area with four blocks of log 1, each of a generation and a number, without its last bytes.
struct RunRow {
    name: &'static str,
    blocks: [(u64, u64); 4],
    lacks: usize,
    runs: &'static [Run],
}

static RUNS: [RunRow; 5] = [
    RunRow {
        name: "one behind the other",
        blocks: [(1, 0), (1, 1), (1, 2), (1, 3)],
        lacks: 0,
        runs: &[
            Run(1, 1, 0, 4, 4),
            Run(1, 1, 2, 4, 2),
            Run(1, 1, 0, 3, 3),
            Run(2, 1, 0, 4, 0),
            Run(1, 2, 0, 4, 0),
        ],
    },
    RunRow {
        name: "the last one is cut off",
        blocks: [(1, 0), (1, 1), (1, 2), (1, 3)],
        lacks: 1,
        runs: &[Run(1, 1, 0, 4, 3)],
    },
    RunRow {
        name: "the second one has another number",
        blocks: [(1, 0), (1, 5), (1, 2), (1, 3)],
        lacks: 0,
        runs: &[Run(1, 1, 0, 4, 1)],
    },
    RunRow {
        name: "the third one is older",
        blocks: [(1, 0), (1, 1), (0, 2), (1, 3)],
        lacks: 0,
        runs: &[Run(1, 1, 0, 4, 2)],
    },
    RunRow {
        name: "round the ring",
        blocks: [(3, 4), (3, 5), (3, 6), (3, 3)],
        lacks: 0,
        runs: &[Run(3, 1, 3, 4, 4), Run(3, 1, 4, 4, 3), Run(3, 1, 0, 4, 0)],
    },
];

fn area_of(alloc: Global, blocks: &[(u64, u64)]) -> Result<Vec<u8>, AllocError> {
    let mut area = Vec::new(alloc);
    for (generation, block) in blocks {
        area.extend_from_slice(&block_in(*generation, 1, *block, 2, &PAYLOAD))?;
    }
    Ok(area)
}

fn are_long(runs: &[Run], area: &[u8]) -> bool {
    for Run(generation, log, head, blocks, wanted) in runs {
        if *head >= 1 << 63 || valid_run(*generation, *log, *head, *blocks, area) != *wanted {
            return false;
        }
    }
    true
}

#[test]
fn a_run_ends_before_the_first_place_that_fails(rt: HostRuntime) -> Result<(), AllocError> {
    let alloc = rt.alloc();
    for row in &RUNS {
        let mut area = area_of(alloc, &row.blocks)?;
        area.truncate(area.len().saturating_sub(row.lacks));
        assert!(rt; are_long(row.runs, &area), "{}", row.name);
    }
    assert!(rt; valid_run(1, 1, 0, 4, &[0; 8192]) == 0);
    Ok(())
}
