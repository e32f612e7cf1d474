// The bytes and seals are Python's, by struct and hashlib.
use btree_node::Node;
use disk_slots::{
    Heads, Master, Refusal, SLOT, master_bytes, page_bytes, read_master, read_page, read_valid,
};

const TOP: u64 = 18446744073709551615;

// Page 5: GSN 77, generation 3, a leaf with two pairs, log 2, all keys; the pairs (1, 10) and (9, a tombstone).
const PAGE: [u8; 80] = [
    5, 0, 0, 0, 0, 0, 0, 0, 77, 0, 0, 0, 0, 0, 0, 0, 3, 0, 0, 0, 0, 0, 0, 0, 2, 0, 2, 1, 0, 0, 0,
    0, 0, 0, 0, 0, 0, 0, 0, 0, 255, 255, 255, 255, 255, 255, 255, 255, 1, 0, 0, 0, 0, 0, 0, 0, 10,
    0, 0, 0, 0, 0, 0, 0, 9, 0, 0, 0, 0, 0, 0, 0, 0, 0, 0, 0, 0, 0, 0, 128,
];

const PAGE_SEAL: [u8; 16] = [
    108, 182, 236, 232, 234, 228, 24, 143, 94, 2, 67, 45, 26, 160, 0, 59,
];

// Sequence number 12, generation 3, floor 400, 32 pages, 64 blocks, two logs with the heads 70 and 71.
const MASTER: [u8; 72] = [
    1, 0, 0, 0, 0, 0, 0, 0, 12, 0, 0, 0, 0, 0, 0, 0, 3, 0, 0, 0, 0, 0, 0, 0, 144, 1, 0, 0, 0, 0, 0,
    0, 32, 0, 0, 0, 0, 0, 0, 0, 64, 0, 0, 0, 0, 0, 0, 0, 2, 0, 0, 0, 0, 0, 0, 0, 70, 0, 0, 0, 0, 0,
    0, 0, 71, 0, 0, 0, 0, 0, 0, 0,
];

const MASTER_SEAL: [u8; 16] = [
    169, 220, 125, 107, 174, 61, 4, 203, 114, 183, 116, 244, 69, 67, 163, 198,
];

// The bytes of a slot: these, zeros, and the seal.
fn slot_of(prefix: &[u8], seal: &[u8; 16]) -> [u8; 1024] {
    let mut bytes = [0; 1024];
    if prefix.len() <= 1008 {
        let n = prefix.len();
        bytes[..n].copy_from_slice(prefix);
    }
    bytes[1008..].copy_from_slice(seal);
    bytes
}

// A page, and its slot.
struct PageRow {
    name: &'static str,
    number: u32,
    gsn: u64,
    generation: u64,
    last_log: u32,
    is_live: bool,
    level: u8,
    low: u64,
    high: u64,
    pairs: &'static [(u64, u64)],
    prefix: &'static [u8],
    seal: &'static [u8; 16],
}

static PAGES: [PageRow; 5] = [
    PageRow {
        name: "a leaf with an entry and a tombstone",
        number: 5,
        gsn: 77,
        generation: 3,
        last_log: 2,
        is_live: true,
        level: 0,
        low: 0,
        high: TOP,
        pairs: &[(1, 10), (9, 9223372036854775808)],
        prefix: &PAGE,
        seal: &PAGE_SEAL,
    },
    PageRow {
        name: "a leaf with two entries and a tombstone",
        number: 5,
        gsn: 77,
        generation: 3,
        last_log: 2,
        is_live: true,
        level: 0,
        low: 0,
        high: TOP,
        pairs: &[(1, 10), (5, 7), (9, 9223372036854775808)],
        prefix: &[
            5, 0, 0, 0, 0, 0, 0, 0, 77, 0, 0, 0, 0, 0, 0, 0, 3, 0, 0, 0, 0, 0, 0, 0, 3, 0, 2, 1, 0,
            0, 0, 0, 0, 0, 0, 0, 0, 0, 0, 0, 255, 255, 255, 255, 255, 255, 255, 255, 1, 0, 0, 0, 0,
            0, 0, 0, 10, 0, 0, 0, 0, 0, 0, 0, 5, 0, 0, 0, 0, 0, 0, 0, 7, 0, 0, 0, 0, 0, 0, 0, 9, 0,
            0, 0, 0, 0, 0, 0, 0, 0, 0, 0, 0, 0, 0, 128,
        ],
        seal: &[
            43, 15, 3, 237, 39, 123, 27, 144, 99, 18, 169, 242, 76, 44, 220, 110,
        ],
    },
    PageRow {
        name: "an inner page",
        number: 0,
        gsn: 77,
        generation: 3,
        last_log: 2,
        is_live: true,
        level: 1,
        low: 0,
        high: TOP,
        pairs: &[(0, 4), (100, 9), (200, 2)],
        prefix: &[
            0, 0, 0, 0, 0, 0, 0, 0, 77, 0, 0, 0, 0, 0, 0, 0, 3, 0, 0, 0, 0, 0, 0, 0, 3, 1, 2, 1, 0,
            0, 0, 0, 0, 0, 0, 0, 0, 0, 0, 0, 255, 255, 255, 255, 255, 255, 255, 255, 0, 0, 0, 0, 0,
            0, 0, 0, 4, 0, 0, 0, 0, 0, 0, 0, 100, 0, 0, 0, 0, 0, 0, 0, 9, 0, 0, 0, 0, 0, 0, 0, 200,
            0, 0, 0, 0, 0, 0, 0, 2, 0, 0, 0, 0, 0, 0, 0,
        ],
        seal: &[
            48, 188, 88, 130, 169, 205, 99, 38, 117, 163, 174, 13, 206, 49, 67, 185,
        ],
    },
    PageRow {
        name: "a free page of a new disk",
        number: 15,
        gsn: 0,
        generation: 0,
        last_log: 0,
        is_live: false,
        level: 0,
        low: 0,
        high: 0,
        pairs: &[],
        prefix: &[
            15, 0, 0, 0, 0, 0, 0, 0, 0, 0, 0, 0, 0, 0, 0, 0, 0, 0, 0, 0, 0, 0, 0, 0, 0, 0, 0, 2, 0,
            0, 0, 0, 0, 0, 0, 0, 0, 0, 0, 0, 0, 0, 0, 0, 0, 0, 0, 0,
        ],
        seal: &[
            201, 49, 23, 16, 42, 13, 98, 182, 219, 180, 251, 161, 186, 253, 214, 229,
        ],
    },
    PageRow {
        name: "page 0 of a new disk",
        number: 0,
        gsn: 0,
        generation: 0,
        last_log: 0,
        is_live: true,
        level: 0,
        low: 0,
        high: TOP,
        pairs: &[],
        prefix: &[
            0, 0, 0, 0, 0, 0, 0, 0, 0, 0, 0, 0, 0, 0, 0, 0, 0, 0, 0, 0, 0, 0, 0, 0, 0, 0, 0, 1, 0,
            0, 0, 0, 0, 0, 0, 0, 0, 0, 0, 0, 255, 255, 255, 255, 255, 255, 255, 255,
        ],
        seal: &[
            70, 195, 208, 9, 61, 252, 124, 71, 33, 181, 53, 161, 93, 140, 52, 243,
        ],
    },
];

fn is_page(node: &Node, row: &PageRow) -> bool {
    for (key, word) in row.pairs {
        if node.find(*key) != Some(*word) {
            return false;
        }
    }
    node.count() == row.pairs.len()
        && node.number() == row.number as u64
        && node.gsn() == row.gsn
        && node.generation() == row.generation
        && node.last_log() == row.last_log
        && node.is_live() == row.is_live
        && node.level() == row.level
        && node.low() == row.low
        && node.high() == row.high
}

fn is_read_and_written(row: &PageRow) -> bool {
    let bytes = slot_of(row.prefix, row.seal);
    let Ok(node) = read_page(row.number, 32, &bytes) else {
        return false;
    };
    let mut written = [7; SLOT];
    page_bytes(&node, &mut written);
    is_page(&node, row) && written == bytes
}

#[test]
fn page_slots_are_read_and_written_to_the_byte(rt: HostRuntime) {
    for row in &PAGES {
        assert!(rt; is_read_and_written(row), "{}", row.name);
    }
}

// A master, and its slot.
struct MasterRow {
    name: &'static str,
    sequence: u64,
    generation: u64,
    floor: u64,
    pages: u32,
    blocks: u32,
    heads: &'static [u64],
    prefix: &'static [u8],
    seal: &'static [u8; 16],
}

static MASTERS: [MasterRow; 2] = [
    MasterRow {
        name: "a master of two logs",
        sequence: 12,
        generation: 3,
        floor: 400,
        pages: 32,
        blocks: 64,
        heads: &[70, 71],
        prefix: &MASTER,
        seal: &MASTER_SEAL,
    },
    MasterRow {
        name: "the first master of a new disk",
        sequence: 0,
        generation: 0,
        floor: 0,
        pages: 16,
        blocks: 64,
        heads: &[0],
        prefix: &[
            1, 0, 0, 0, 0, 0, 0, 0, 0, 0, 0, 0, 0, 0, 0, 0, 0, 0, 0, 0, 0, 0, 0, 0, 0, 0, 0, 0, 0,
            0, 0, 0, 16, 0, 0, 0, 0, 0, 0, 0, 64, 0, 0, 0, 0, 0, 0, 0, 1, 0, 0, 0, 0, 0, 0, 0, 0,
            0, 0, 0, 0, 0, 0, 0,
        ],
        seal: &[
            79, 87, 210, 244, 236, 251, 97, 254, 91, 105, 225, 125, 41, 116, 104, 134,
        ],
    },
];

fn heads_of(blocks: &[u64]) -> Heads {
    let mut heads = Heads::new(blocks.len().min(16) as u32);
    let mut logs = 0;
    for block in blocks {
        if logs < heads.logs() {
            logs += 1;
            heads.set_head(logs, *block);
        }
    }
    heads
}

fn is_master(master: &Master, row: &MasterRow) -> bool {
    let mut logs = 0;
    for block in row.heads {
        if logs >= master.heads.logs() || master.heads.head(logs + 1) != *block {
            return false;
        }
        logs += 1;
    }
    master.heads.logs() == logs
        && master.sequence == row.sequence
        && master.generation == row.generation
        && master.floor == row.floor
        && master.pages == row.pages
        && master.blocks == row.blocks
}

fn is_master_read_and_written(row: &MasterRow) -> bool {
    let bytes = slot_of(row.prefix, row.seal);
    let master = Master {
        sequence: row.sequence,
        generation: row.generation,
        floor: row.floor,
        pages: row.pages,
        blocks: row.blocks,
        heads: heads_of(row.heads),
    };
    let mut written = [7; SLOT];
    master_bytes(&master, &mut written);
    match read_master(0, &bytes) {
        Ok(read) => is_master(&read, row) && written == bytes,
        Err(_) => false,
    }
}

#[test]
fn master_slots_are_read_and_written_to_the_byte(rt: HostRuntime) {
    for row in &MASTERS {
        assert!(rt; is_master_read_and_written(row), "{}", row.name);
    }
}

// As what bytes are read: page n of 32, page n of a generation, master slot n.
enum Reading {
    Page(u32),
    Valid(u32, u64),
    Master(u32),
}

#[derive(Clone, Copy, PartialEq, Eq)]
enum Outcome {
    Read,
    NoSeal,
    Malformed,
    NotValid,
}

fn outcome_of(refused: Option<Refusal>) -> Outcome {
    match refused {
        None => Outcome::Read,
        Some(Refusal::NoSeal) => Outcome::NoSeal,
        Some(Refusal::Malformed) => Outcome::Malformed,
    }
}

// A slot in which byte 1,007 is another one and from which the first bytes are gone, and as what it is read.
struct ReadRow {
    name: &'static str,
    prefix: &'static [u8],
    seal: &'static [u8; 16],
    last: u8,
    from: usize,
    reading: Reading,
    outcome: Outcome,
}

static READS: [ReadRow; 9] = [
    ReadRow {
        name: "another page",
        prefix: &PAGE,
        seal: &PAGE_SEAL,
        last: 0,
        from: 0,
        reading: Reading::Page(6),
        outcome: Outcome::Malformed,
    },
    ReadRow {
        name: "without its first byte",
        prefix: &PAGE,
        seal: &PAGE_SEAL,
        last: 0,
        from: 1,
        reading: Reading::Page(5),
        outcome: Outcome::NoSeal,
    },
    ReadRow {
        name: "zeros",
        prefix: &[],
        seal: &[0; 16],
        last: 0,
        from: 0,
        reading: Reading::Page(5),
        outcome: Outcome::NoSeal,
    },
    ReadRow {
        name: "of its own generation",
        prefix: &PAGE,
        seal: &PAGE_SEAL,
        last: 0,
        from: 0,
        reading: Reading::Valid(5, 3),
        outcome: Outcome::Read,
    },
    ReadRow {
        name: "of the generation before",
        prefix: &PAGE,
        seal: &PAGE_SEAL,
        last: 0,
        from: 0,
        reading: Reading::Valid(5, 2),
        outcome: Outcome::NotValid,
    },
    ReadRow {
        name: "with another byte",
        prefix: &PAGE,
        seal: &PAGE_SEAL,
        last: 1,
        from: 0,
        reading: Reading::Page(5),
        outcome: Outcome::NoSeal,
    },
    ReadRow {
        name: "a master in the other place",
        prefix: &MASTER,
        seal: &MASTER_SEAL,
        last: 0,
        from: 0,
        reading: Reading::Master(1),
        outcome: Outcome::Malformed,
    },
    ReadRow {
        name: "a master as a page",
        prefix: &MASTER,
        seal: &MASTER_SEAL,
        last: 0,
        from: 0,
        reading: Reading::Page(0),
        outcome: Outcome::NoSeal,
    },
    ReadRow {
        name: "no byte as a master",
        prefix: &[],
        seal: &[0; 16],
        last: 0,
        from: 1024,
        reading: Reading::Master(0),
        outcome: Outcome::NoSeal,
    },
];

fn read_row(row: &ReadRow) -> Outcome {
    let mut slot = slot_of(row.prefix, row.seal);
    slot[1007] = row.last;
    let bytes = slot.get(row.from..).unwrap_or(&[]);
    match row.reading {
        Reading::Page(page) => outcome_of(read_page(page, 32, bytes).err()),
        Reading::Master(place) => outcome_of(read_master(place, bytes).err()),
        Reading::Valid(page, generation) => match read_valid(page, 32, generation, bytes) {
            Some(_) => Outcome::Read,
            None => Outcome::NotValid,
        },
    }
}

#[test]
fn slots_are_refused_where_a_byte_differs_or_the_place_is_another(rt: HostRuntime) {
    for row in &READS {
        assert!(rt; read_row(row) == row.outcome, "{}", row.name);
    }
}
