// The bytes are Python's, by struct.pack.
use log_block::{block_bytes, open_block};
use log_index::{Head, LogIndex, PushError};
use log_record::{Body, Record, record_bytes};
use std::alloc::AllocError;

const CHANGE: [u8; 53] = *b"\x01\x01\x00\x00\x00\x00\x00\x00\x00\x03\x00\x00\x00\x00\x00\x00\x00\
    \x00\x00\x00\x00\x00\x00\x00\x00\x00\x00\x00\x00\x05\x00\x00\x00\x00\x00\x00\x00\
    \x00\x00\x00\x00\x00\x00\x00\x80\x07\x00\x00\x00\x00\x00\x00\x00";

const PURGE: [u8; 38] = *b"\x07\x04\x00\x00\x00\x00\x00\x00\x00\x01\x00\x00\x00\x00\x00\x00\x00\
    \x06\x00\x00\x00\x02\x00\x00\x00\x00\x00\x00\x00\x01\t\x00\x00\x00\x00\x00\x00\x00";

const COMMIT: [u8; 25] =
    *b"\x08\x02\x00\x00\x00\x00\x00\x00\x00\x04\x00\x00\x00\x00\x00\x00\x00\x03\x00\x00\x00\x00\x00\x00\x00";

const ABORT: [u8; 25] =
    *b"\t\x03\x00\x00\x00\x00\x00\x00\x00\x05\x00\x00\x00\x00\x00\x00\x00\x00\x00\x00\x00\x00\x00\x00\x00";

// Blocks, in the order in which they are pushed.
struct Block {
    log: u8,
    place: u16,
    count: u32,
    payload: &'static [u8],
}

static BLOCKS: [Block; 3] = [
    Block {
        log: 2,
        place: 70,
        count: 2,
        payload: b"\x01\x01\x00\x00\x00\x00\x00\x00\x00\x03\x00\x00\x00\x00\x00\x00\x00\
                      \x00\x00\x00\x00\x00\x00\x00\x00\x00\x00\x00\x00\x05\x00\x00\x00\x00\x00\x00\x00\
                      \x00\x00\x00\x00\x00\x00\x00\x80\x07\x00\x00\x00\x00\x00\x00\x00\
                      \t\x03\x00\x00\x00\x00\x00\x00\x00\x05\x00\x00\x00\x00\x00\x00\x00\x00\x00\x00\x00\x00\x00\x00\x00",
    },
    Block {
        log: 1,
        place: 0,
        count: 2,
        payload: b"\x08\x02\x00\x00\x00\x00\x00\x00\x00\x04\x00\x00\x00\x00\x00\x00\x00\x03\x00\x00\x00\x00\x00\x00\x00\
                      \t\x03\x00\x00\x00\x00\x00\x00\x00\x05\x00\x00\x00\x00\x00\x00\x00\x00\x00\x00\x00\x00\x00\x00\x00",
    },
    Block {
        log: 2,
        place: 90,
        count: 1,
        payload: &PURGE,
    },
];

// The records of these blocks in their order.
struct Row {
    head: Head,
    bytes: &'static [u8],
}

static SORTED: [Row; 5] = [
    Row {
        head: Head {
            number: 1,
            txn: 4,
            log: 2,
            place: 90,
            kind: 7,
        },
        bytes: &PURGE,
    },
    Row {
        head: Head {
            number: 3,
            txn: 1,
            log: 2,
            place: 70,
            kind: 1,
        },
        bytes: &CHANGE,
    },
    Row {
        head: Head {
            number: 4,
            txn: 2,
            log: 1,
            place: 0,
            kind: 8,
        },
        bytes: &COMMIT,
    },
    Row {
        head: Head {
            number: 5,
            txn: 3,
            log: 1,
            place: 0,
            kind: 9,
        },
        bytes: &ABORT,
    },
    Row {
        head: Head {
            number: 5,
            txn: 3,
            log: 2,
            place: 70,
            kind: 9,
        },
        bytes: &ABORT,
    },
];

// The blocks are pushed so often, each time at the next places: more records than a sort puts in order without memory.
const ROUNDS: u16 = 5;

// Whether the block is one, and was pushed.
fn is_pushed(index: &mut LogIndex, block: &Block, round: u16) -> Result<bool, PushError> {
    let mut bytes = [0u8; 2048];
    if block.payload.len() > 2000 || block.place > 100 || round > 100 || index.bytes() > 4096 {
        return Ok(false);
    }
    block_bytes(1, 1, 0, block.count, block.payload, &mut bytes);
    let Ok((count, payload)) = open_block(1, 1, 0, &bytes) else {
        return Ok(false);
    };
    index.push_block(block.log, block.place + round, count, payload)?;
    Ok(true)
}

// A block that was refused for want of memory is pushed again.
fn is_pushed_at_last(index: &mut LogIndex, block: &Block, round: u16) -> bool {
    match is_pushed(index, block, round) {
        Ok(pushed) => pushed,
        Err(PushError::Memory) => is_pushed(index, block, round) == Ok(true),
        Err(PushError::Malformed) => false,
    }
}

// Payloads that are not as many records as is said.
struct Wrong {
    name: &'static str,
    count: u32,
    payload: &'static [u8],
}

static WRONGS: [Wrong; 5] = [
    Wrong {
        name: "a record less",
        count: 2,
        payload: &COMMIT,
    },
    Wrong {
        name: "a record more",
        count: 0,
        payload: &COMMIT,
    },
    Wrong {
        name: "a byte less",
        count: 1,
        payload: b"\x08\x02\x00\x00\x00\x00\x00\x00\x00\x04\x00\x00\x00\x00\x00\x00\x00\x03\x00\x00\x00\x00\x00\x00",
    },
    Wrong {
        name: "a byte more",
        count: 1,
        payload: b"\x08\x02\x00\x00\x00\x00\x00\x00\x00\x04\x00\x00\x00\x00\x00\x00\x00\x03\x00\x00\x00\x00\x00\x00\x00\x00",
    },
    Wrong {
        name: "more records than there is memory for",
        count: u32::MAX,
        payload: &CHANGE,
    },
];

// Whether item i is this one, at the place of a round.
fn is_there(index: &LogIndex, i: usize, row: &Row, round: u16) -> bool {
    let mut lent = Record {
        txn: 0,
        gsn: 0,
        body: Body::Commit { need: 0 },
    };
    let mut bytes = [0u8; 2048];
    if i >= index.len() || row.head.place > 100 || round > 100 {
        return false;
    }
    let mut head = row.head;
    head.place += round;
    index.read(i, &mut lent);
    let size = record_bytes(&lent, &mut bytes);
    index.head(i) == head && &bytes[..size] == row.bytes
}

#[test]
fn blocks_of_two_logs_are_read_in_the_order_of_their_records(
    rt: HostRuntime,
) -> Result<(), AllocError> {
    let mut index = LogIndex::new(rt.alloc());
    let mut is_as_written = true;
    for round in 0..ROUNDS {
        for block in &BLOCKS {
            is_as_written = is_pushed_at_last(&mut index, block, round) && is_as_written;
        }
    }
    is_as_written = is_as_written && index.len() == 25 && index.bytes() == 5 * 166;
    if index.sort().is_err() {
        index.sort()?;
    }
    for (i, row) in SORTED.iter().enumerate() {
        for round in 0..ROUNDS {
            let place = 5 * i + round as usize;
            is_as_written = is_there(&index, place, row, round) && is_as_written;
        }
    }
    assert!(rt; is_as_written);
    Ok(())
}

#[test]
fn a_payload_that_is_no_such_records_leaves_the_index(rt: HostRuntime) {
    let mut index = LogIndex::new(rt.alloc());
    let is_first_pushed = is_pushed_at_last(&mut index, &BLOCKS[0], 0);
    let (len, bytes) = (index.len(), index.bytes());
    for wrong in &WRONGS {
        if index.bytes() > 4096 || wrong.payload.len() > 2000 {
            break;
        }
        let pushed = index.push_block(1, 0, wrong.count, wrong.payload);
        let is_refused = pushed == Err(PushError::Malformed)
            || wrong.count <= 2 && pushed == Err(PushError::Memory);
        let is_left = index.len() == len && index.bytes() == bytes;
        assert!(rt; is_first_pushed && is_refused && is_left, "{}", wrong.name);
    }
}
