// The bytes are Python's, by struct.pack.
ghost use Rattle.std.specs.Prelude.{IsTrue};
ghost use Rattle.log_record.specs.Spelling.{IsCounted};

use log_record::{
    Body, CHANGE_SIZE, END_SIZE, Keys, PageRef, Pair, Pairs, Record, RecordHead, read_record,
    record_bytes, record_head, record_size,
};

// A record of each kind, and a change of other numbers.
#[derive(Clone, Copy)]
enum Said {
    Change,
    Wide,
    PutBack,
    Split,
    Lift,
    Join,
    DropRoot,
    Purge,
    Commit,
    Abort,
}

const LEFT: PageRef = PageRef {
    page: 336794129,
    prev: 2025241152513840661,
};

const RIGHT: PageRef = PageRef {
    page: 606282273,
    prev: 3182683917923067429,
};

const PARENT: PageRef = PageRef {
    page: 875770417,
    prev: 4340126683332294197,
};

const SEPARATOR: u64 = 5208208757389214273;

const HIGH: u64 = 6365651522798441041;

const LEVEL: u8 = 97;

// So many pairs, of the keys 1001, 2001 ..
fn pairs_of(count: u8) -> Pairs {
    let mut pairs = Pairs::NONE;
    pairs.count = count;
    for i in 0..60u64 {
        if i < count as u64 {
            pairs.pairs[i as usize] = Pair {
                key: 1000 * i + 1001,
                word: 9223372036854775808 + i,
            };
        }
    }
    pairs
}

// So many keys, of 2^40 and 7 ..
fn keys_of(count: u8) -> Keys {
    let mut keys = Keys::NONE;
    keys.count = count;
    for i in 0..60u64 {
        if i < count as u64 {
            keys.keys[i as usize] = 1099511627776 * i + 1099511627783;
        }
    }
    keys
}

fn body_of(said: Said) -> Body {
    match said {
        Said::Change => Body::Change {
            leaf: PageRef { page: 0, prev: 0 },
            key: 5,
            before: 9223372036854775808,
            after: 7,
        },
        Said::Wide => Body::Change {
            leaf: PageRef {
                page: 336794129,
                prev: 2025524839466146837,
            },
            key: 2604246222170760229,
            before: 3182967604875373621,
            after: 3761688987579987013,
        },
        Said::PutBack => Body::PutBack {
            leaf: LEFT,
            key: SEPARATOR,
            before: HIGH,
            after: 7523094288207667809,
        },
        Said::Split => Body::Split {
            left: LEFT,
            right: RIGHT,
            parent: PARENT,
            separator: SEPARATOR,
            high: HIGH,
            level: LEVEL,
            pairs: pairs_of(30),
        },
        Said::Lift => Body::Lift {
            root_prev: LEFT.prev,
            page: RIGHT,
            level: LEVEL,
            pairs: pairs_of(60),
        },
        Said::Join => Body::Join {
            left: LEFT,
            right: RIGHT,
            parent: PARENT,
            separator: SEPARATOR,
            high: HIGH,
            pairs: pairs_of(2),
        },
        Said::DropRoot => Body::DropRoot {
            root_prev: LEFT.prev,
            child: RIGHT,
            level: LEVEL,
            pairs: pairs_of(0),
        },
        Said::Purge => Body::Purge {
            leaf: LEFT,
            keys: keys_of(3),
        },
        Said::Commit => Body::Commit { need: 0 },
        Said::Abort => Body::Abort { need: SEPARATOR },
    }
}

// The transaction and the number of a record.
fn numbers_of(said: Said) -> (u64, u64) {
    match said {
        Said::Change => (1, 1),
        Said::Commit => (1, 2),
        _ => (578437695752307201, 1157159078456920585),
    }
}

fn record_of(said: Said) -> Record {
    let (txn, gsn) = numbers_of(said);
    Record {
        txn,
        gsn,
        body: body_of(said),
    }
}

// A record, its kind, its size and its bytes.
struct Row {
    name: &'static str,
    said: Said,
    kind: u8,
    size: usize,
    bytes: &'static [u8],
}

static ROWS: [Row; 10] = [
    Row {
        name: "a change",
        said: Said::Change,
        kind: 1,
        size: CHANGE_SIZE,
        bytes: &[
            1, 1, 0, 0, 0, 0, 0, 0, 0, 1, 0, 0, 0, 0, 0, 0, 0, 0, 0, 0, 0, 0, 0, 0, 0, 0, 0, 0, 0,
            5, 0, 0, 0, 0, 0, 0, 0, 0, 0, 0, 0, 0, 0, 0, 128, 7, 0, 0, 0, 0, 0, 0, 0,
        ],
    },
    Row {
        name: "a change whose fields have no byte twice at first",
        said: Said::Wide,
        kind: 1,
        size: CHANGE_SIZE,
        bytes: &[
            1, 1, 2, 3, 4, 5, 6, 7, 8, 9, 10, 11, 12, 13, 14, 15, 16, 17, 18, 19, 20, 21, 28, 28,
            28, 28, 28, 28, 28, 37, 36, 36, 36, 36, 36, 36, 36, 53, 44, 44, 44, 44, 44, 44, 44, 69,
            52, 52, 52, 52, 52, 52, 52,
        ],
    },
    Row {
        name: "a put-back",
        said: Said::PutBack,
        kind: 2,
        size: CHANGE_SIZE,
        bytes: &[
            2, 1, 2, 3, 4, 5, 6, 7, 8, 9, 10, 11, 12, 13, 14, 15, 16, 17, 18, 19, 20, 21, 22, 23,
            24, 25, 26, 27, 28, 65, 66, 67, 68, 69, 70, 71, 72, 81, 82, 83, 84, 85, 86, 87, 88, 97,
            98, 99, 100, 101, 102, 103, 104,
        ],
    },
    Row {
        name: "a split of 30 pairs",
        said: Said::Split,
        kind: 3,
        size: 551,
        bytes: &[
            3, 1, 2, 3, 4, 5, 6, 7, 8, 9, 10, 11, 12, 13, 14, 15, 16, 17, 18, 19, 20, 21, 22, 23,
            24, 25, 26, 27, 28, 33, 34, 35, 36, 37, 38, 39, 40, 41, 42, 43, 44, 49, 50, 51, 52, 53,
            54, 55, 56, 57, 58, 59, 60, 65, 66, 67, 68, 69, 70, 71, 72, 81, 82, 83, 84, 85, 86, 87,
            88, 97, 30, 233, 3, 0, 0, 0, 0, 0, 0, 0, 0, 0, 0, 0, 0, 0, 128, 209, 7, 0, 0, 0, 0, 0,
            0, 1, 0, 0, 0, 0, 0, 0, 128, 185, 11, 0, 0, 0, 0, 0, 0, 2, 0, 0, 0, 0, 0, 0, 128, 161,
            15, 0, 0, 0, 0, 0, 0, 3, 0, 0, 0, 0, 0, 0, 128, 137, 19, 0, 0, 0, 0, 0, 0, 4, 0, 0, 0,
            0, 0, 0, 128, 113, 23, 0, 0, 0, 0, 0, 0, 5, 0, 0, 0, 0, 0, 0, 128, 89, 27, 0, 0, 0, 0,
            0, 0, 6, 0, 0, 0, 0, 0, 0, 128, 65, 31, 0, 0, 0, 0, 0, 0, 7, 0, 0, 0, 0, 0, 0, 128, 41,
            35, 0, 0, 0, 0, 0, 0, 8, 0, 0, 0, 0, 0, 0, 128, 17, 39, 0, 0, 0, 0, 0, 0, 9, 0, 0, 0,
            0, 0, 0, 128, 249, 42, 0, 0, 0, 0, 0, 0, 10, 0, 0, 0, 0, 0, 0, 128, 225, 46, 0, 0, 0,
            0, 0, 0, 11, 0, 0, 0, 0, 0, 0, 128, 201, 50, 0, 0, 0, 0, 0, 0, 12, 0, 0, 0, 0, 0, 0,
            128, 177, 54, 0, 0, 0, 0, 0, 0, 13, 0, 0, 0, 0, 0, 0, 128, 153, 58, 0, 0, 0, 0, 0, 0,
            14, 0, 0, 0, 0, 0, 0, 128, 129, 62, 0, 0, 0, 0, 0, 0, 15, 0, 0, 0, 0, 0, 0, 128, 105,
            66, 0, 0, 0, 0, 0, 0, 16, 0, 0, 0, 0, 0, 0, 128, 81, 70, 0, 0, 0, 0, 0, 0, 17, 0, 0, 0,
            0, 0, 0, 128, 57, 74, 0, 0, 0, 0, 0, 0, 18, 0, 0, 0, 0, 0, 0, 128, 33, 78, 0, 0, 0, 0,
            0, 0, 19, 0, 0, 0, 0, 0, 0, 128, 9, 82, 0, 0, 0, 0, 0, 0, 20, 0, 0, 0, 0, 0, 0, 128,
            241, 85, 0, 0, 0, 0, 0, 0, 21, 0, 0, 0, 0, 0, 0, 128, 217, 89, 0, 0, 0, 0, 0, 0, 22, 0,
            0, 0, 0, 0, 0, 128, 193, 93, 0, 0, 0, 0, 0, 0, 23, 0, 0, 0, 0, 0, 0, 128, 169, 97, 0,
            0, 0, 0, 0, 0, 24, 0, 0, 0, 0, 0, 0, 128, 145, 101, 0, 0, 0, 0, 0, 0, 25, 0, 0, 0, 0,
            0, 0, 128, 121, 105, 0, 0, 0, 0, 0, 0, 26, 0, 0, 0, 0, 0, 0, 128, 97, 109, 0, 0, 0, 0,
            0, 0, 27, 0, 0, 0, 0, 0, 0, 128, 73, 113, 0, 0, 0, 0, 0, 0, 28, 0, 0, 0, 0, 0, 0, 128,
            49, 117, 0, 0, 0, 0, 0, 0, 29, 0, 0, 0, 0, 0, 0, 128,
        ],
    },
    Row {
        name: "a lift of 60 pairs",
        said: Said::Lift,
        kind: 4,
        size: 999,
        bytes: &[
            4, 1, 2, 3, 4, 5, 6, 7, 8, 9, 10, 11, 12, 13, 14, 15, 16, 21, 22, 23, 24, 25, 26, 27,
            28, 33, 34, 35, 36, 37, 38, 39, 40, 41, 42, 43, 44, 97, 60, 233, 3, 0, 0, 0, 0, 0, 0,
            0, 0, 0, 0, 0, 0, 0, 128, 209, 7, 0, 0, 0, 0, 0, 0, 1, 0, 0, 0, 0, 0, 0, 128, 185, 11,
            0, 0, 0, 0, 0, 0, 2, 0, 0, 0, 0, 0, 0, 128, 161, 15, 0, 0, 0, 0, 0, 0, 3, 0, 0, 0, 0,
            0, 0, 128, 137, 19, 0, 0, 0, 0, 0, 0, 4, 0, 0, 0, 0, 0, 0, 128, 113, 23, 0, 0, 0, 0, 0,
            0, 5, 0, 0, 0, 0, 0, 0, 128, 89, 27, 0, 0, 0, 0, 0, 0, 6, 0, 0, 0, 0, 0, 0, 128, 65,
            31, 0, 0, 0, 0, 0, 0, 7, 0, 0, 0, 0, 0, 0, 128, 41, 35, 0, 0, 0, 0, 0, 0, 8, 0, 0, 0,
            0, 0, 0, 128, 17, 39, 0, 0, 0, 0, 0, 0, 9, 0, 0, 0, 0, 0, 0, 128, 249, 42, 0, 0, 0, 0,
            0, 0, 10, 0, 0, 0, 0, 0, 0, 128, 225, 46, 0, 0, 0, 0, 0, 0, 11, 0, 0, 0, 0, 0, 0, 128,
            201, 50, 0, 0, 0, 0, 0, 0, 12, 0, 0, 0, 0, 0, 0, 128, 177, 54, 0, 0, 0, 0, 0, 0, 13, 0,
            0, 0, 0, 0, 0, 128, 153, 58, 0, 0, 0, 0, 0, 0, 14, 0, 0, 0, 0, 0, 0, 128, 129, 62, 0,
            0, 0, 0, 0, 0, 15, 0, 0, 0, 0, 0, 0, 128, 105, 66, 0, 0, 0, 0, 0, 0, 16, 0, 0, 0, 0, 0,
            0, 128, 81, 70, 0, 0, 0, 0, 0, 0, 17, 0, 0, 0, 0, 0, 0, 128, 57, 74, 0, 0, 0, 0, 0, 0,
            18, 0, 0, 0, 0, 0, 0, 128, 33, 78, 0, 0, 0, 0, 0, 0, 19, 0, 0, 0, 0, 0, 0, 128, 9, 82,
            0, 0, 0, 0, 0, 0, 20, 0, 0, 0, 0, 0, 0, 128, 241, 85, 0, 0, 0, 0, 0, 0, 21, 0, 0, 0, 0,
            0, 0, 128, 217, 89, 0, 0, 0, 0, 0, 0, 22, 0, 0, 0, 0, 0, 0, 128, 193, 93, 0, 0, 0, 0,
            0, 0, 23, 0, 0, 0, 0, 0, 0, 128, 169, 97, 0, 0, 0, 0, 0, 0, 24, 0, 0, 0, 0, 0, 0, 128,
            145, 101, 0, 0, 0, 0, 0, 0, 25, 0, 0, 0, 0, 0, 0, 128, 121, 105, 0, 0, 0, 0, 0, 0, 26,
            0, 0, 0, 0, 0, 0, 128, 97, 109, 0, 0, 0, 0, 0, 0, 27, 0, 0, 0, 0, 0, 0, 128, 73, 113,
            0, 0, 0, 0, 0, 0, 28, 0, 0, 0, 0, 0, 0, 128, 49, 117, 0, 0, 0, 0, 0, 0, 29, 0, 0, 0, 0,
            0, 0, 128, 25, 121, 0, 0, 0, 0, 0, 0, 30, 0, 0, 0, 0, 0, 0, 128, 1, 125, 0, 0, 0, 0, 0,
            0, 31, 0, 0, 0, 0, 0, 0, 128, 233, 128, 0, 0, 0, 0, 0, 0, 32, 0, 0, 0, 0, 0, 0, 128,
            209, 132, 0, 0, 0, 0, 0, 0, 33, 0, 0, 0, 0, 0, 0, 128, 185, 136, 0, 0, 0, 0, 0, 0, 34,
            0, 0, 0, 0, 0, 0, 128, 161, 140, 0, 0, 0, 0, 0, 0, 35, 0, 0, 0, 0, 0, 0, 128, 137, 144,
            0, 0, 0, 0, 0, 0, 36, 0, 0, 0, 0, 0, 0, 128, 113, 148, 0, 0, 0, 0, 0, 0, 37, 0, 0, 0,
            0, 0, 0, 128, 89, 152, 0, 0, 0, 0, 0, 0, 38, 0, 0, 0, 0, 0, 0, 128, 65, 156, 0, 0, 0,
            0, 0, 0, 39, 0, 0, 0, 0, 0, 0, 128, 41, 160, 0, 0, 0, 0, 0, 0, 40, 0, 0, 0, 0, 0, 0,
            128, 17, 164, 0, 0, 0, 0, 0, 0, 41, 0, 0, 0, 0, 0, 0, 128, 249, 167, 0, 0, 0, 0, 0, 0,
            42, 0, 0, 0, 0, 0, 0, 128, 225, 171, 0, 0, 0, 0, 0, 0, 43, 0, 0, 0, 0, 0, 0, 128, 201,
            175, 0, 0, 0, 0, 0, 0, 44, 0, 0, 0, 0, 0, 0, 128, 177, 179, 0, 0, 0, 0, 0, 0, 45, 0, 0,
            0, 0, 0, 0, 128, 153, 183, 0, 0, 0, 0, 0, 0, 46, 0, 0, 0, 0, 0, 0, 128, 129, 187, 0, 0,
            0, 0, 0, 0, 47, 0, 0, 0, 0, 0, 0, 128, 105, 191, 0, 0, 0, 0, 0, 0, 48, 0, 0, 0, 0, 0,
            0, 128, 81, 195, 0, 0, 0, 0, 0, 0, 49, 0, 0, 0, 0, 0, 0, 128, 57, 199, 0, 0, 0, 0, 0,
            0, 50, 0, 0, 0, 0, 0, 0, 128, 33, 203, 0, 0, 0, 0, 0, 0, 51, 0, 0, 0, 0, 0, 0, 128, 9,
            207, 0, 0, 0, 0, 0, 0, 52, 0, 0, 0, 0, 0, 0, 128, 241, 210, 0, 0, 0, 0, 0, 0, 53, 0, 0,
            0, 0, 0, 0, 128, 217, 214, 0, 0, 0, 0, 0, 0, 54, 0, 0, 0, 0, 0, 0, 128, 193, 218, 0, 0,
            0, 0, 0, 0, 55, 0, 0, 0, 0, 0, 0, 128, 169, 222, 0, 0, 0, 0, 0, 0, 56, 0, 0, 0, 0, 0,
            0, 128, 145, 226, 0, 0, 0, 0, 0, 0, 57, 0, 0, 0, 0, 0, 0, 128, 121, 230, 0, 0, 0, 0, 0,
            0, 58, 0, 0, 0, 0, 0, 0, 128, 97, 234, 0, 0, 0, 0, 0, 0, 59, 0, 0, 0, 0, 0, 0, 128,
        ],
    },
    Row {
        name: "a join of two pairs",
        said: Said::Join,
        kind: 5,
        size: 102,
        bytes: &[
            5, 1, 2, 3, 4, 5, 6, 7, 8, 9, 10, 11, 12, 13, 14, 15, 16, 17, 18, 19, 20, 21, 22, 23,
            24, 25, 26, 27, 28, 33, 34, 35, 36, 37, 38, 39, 40, 41, 42, 43, 44, 49, 50, 51, 52, 53,
            54, 55, 56, 57, 58, 59, 60, 65, 66, 67, 68, 69, 70, 71, 72, 81, 82, 83, 84, 85, 86, 87,
            88, 2, 233, 3, 0, 0, 0, 0, 0, 0, 0, 0, 0, 0, 0, 0, 0, 128, 209, 7, 0, 0, 0, 0, 0, 0, 1,
            0, 0, 0, 0, 0, 0, 128,
        ],
    },
    Row {
        name: "a drop of a root of no pairs",
        said: Said::DropRoot,
        kind: 6,
        size: 39,
        bytes: &[
            6, 1, 2, 3, 4, 5, 6, 7, 8, 9, 10, 11, 12, 13, 14, 15, 16, 21, 22, 23, 24, 25, 26, 27,
            28, 33, 34, 35, 36, 37, 38, 39, 40, 41, 42, 43, 44, 97, 0,
        ],
    },
    Row {
        name: "a purge of three keys",
        said: Said::Purge,
        kind: 7,
        size: 54,
        bytes: &[
            7, 1, 2, 3, 4, 5, 6, 7, 8, 9, 10, 11, 12, 13, 14, 15, 16, 17, 18, 19, 20, 21, 22, 23,
            24, 25, 26, 27, 28, 3, 7, 0, 0, 0, 0, 1, 0, 0, 7, 0, 0, 0, 0, 2, 0, 0, 7, 0, 0, 0, 0,
            3, 0, 0,
        ],
    },
    Row {
        name: "a commit",
        said: Said::Commit,
        kind: 8,
        size: END_SIZE,
        bytes: &[
            8, 1, 0, 0, 0, 0, 0, 0, 0, 2, 0, 0, 0, 0, 0, 0, 0, 0, 0, 0, 0, 0, 0, 0, 0,
        ],
    },
    Row {
        name: "an abort",
        said: Said::Abort,
        kind: 9,
        size: END_SIZE,
        bytes: &[
            9, 1, 2, 3, 4, 5, 6, 7, 8, 9, 10, 11, 12, 13, 14, 15, 16, 65, 66, 67, 68, 69, 70, 71,
            72,
        ],
    },
];

fn is_counted(body: &Body) -> bool
    ensures { IsTrue result → IsCounted body.now }
{
    match body {
        Body::Split { pairs, .. } => pairs.count <= 60,
        Body::Lift { pairs, .. } => pairs.count <= 60,
        Body::Join { pairs, .. } => pairs.count <= 60,
        Body::DropRoot { pairs, .. } => pairs.count <= 60,
        Body::Purge { keys, .. } => keys.count <= 60,
        _ => true,
    }
}

// The bytes, with sevens behind them.
fn with_more(bytes: &[u8]) -> [u8; 1100] {
    let mut more = [7u8; 1100];
    for (place, byte) in more.iter_mut().zip(bytes) {
        *place = *byte;
    }
    more
}

// Whether the record is written so, and nothing is written behind it.
fn is_written(record: &Record, row: &Row) -> bool {
    let mut into = [7u8; 1100];
    if !is_counted(&record.body) || record_size(record) != row.size || row.size > into.len() {
        return false;
    }
    record_bytes(record, &mut into) == row.size && into == with_more(row.bytes)
}

// What held another record, of more pairs than all others.
fn lent() -> Record {
    Record {
        txn: 3,
        gsn: 4,
        body: Body::Lift {
            root_prev: 5,
            page: LEFT,
            level: 6,
            pairs: pairs_of(60),
        },
    }
}

// Whether the record is read, with more behind it too, and not without its last byte.
fn is_read(row: &Row) -> bool {
    let mut entry = lent();
    let mut other = lent();
    read_record(row.bytes, &mut entry) == Some(row.size)
        && is_written(&entry, row)
        && read_record(&with_more(row.bytes), &mut other) == Some(row.size)
        && is_written(&other, row)
        && read_record(&row.bytes[..row.bytes.len().saturating_sub(1)], &mut other).is_none()
}

// Whether the record is passed over, with more behind it too, and not without its last byte.
fn is_passed_over(row: &Row) -> bool {
    let (txn, gsn) = numbers_of(row.said);
    let head = RecordHead {
        kind: row.kind,
        txn,
        gsn,
        size: row.size,
    };
    record_head(row.bytes) == Some(head)
        && record_head(&with_more(row.bytes)) == Some(head)
        && record_head(&row.bytes[..row.bytes.len().saturating_sub(1)]).is_none()
}

#[test]
fn records_stand_byte_for_byte(rt: HostRuntime) {
    for row in &ROWS {
        let is_made = is_written(&record_of(row.said), row);
        assert!(rt;
            is_made && is_read(row) && is_passed_over(row),
            "{}",
            row.name
        );
    }
}

// The first byte of a hundred, the others 0, and how many a record takes there.
static KINDS: [(u8, Option<usize>); 12] = [
    (0, None),
    (1, Some(53)),
    (2, Some(53)),
    (3, Some(71)),
    (4, Some(39)),
    (5, Some(70)),
    (6, Some(39)),
    (7, Some(30)),
    (8, Some(25)),
    (9, Some(25)),
    (10, None),
    (255, None),
];

// Whether a record takes so many of the bytes, read or passed over.
fn takes(bytes: &[u8], size: Option<usize>) -> bool {
    let passed = match record_head(bytes) {
        Some(head) => Some(head.size),
        None => None,
    };
    read_record(bytes, &mut lent()) == size && passed == size
}

#[test]
fn each_kind_has_its_size(rt: HostRuntime) {
    assert!(rt; takes(&[], None));
    for (kind, size) in &KINDS {
        let mut bytes = [0u8; 100];
        bytes[0] = *kind;
        assert!(rt; takes(&bytes, *size), "kind {kind}");
    }
}

// A kind, the place of its count, and what it takes with 60 pairs or keys.
static COUNTS: [(u8, usize, usize); 5] = [
    (3, 70, 1031),
    (4, 38, 999),
    (5, 69, 1030),
    (6, 38, 999),
    (7, 29, 510),
];

#[test]
fn at_most_60_pairs_or_keys_are_read(rt: HostRuntime) {
    for (kind, place, size) in &COUNTS {
        let mut bytes = [0u8; 1100];
        bytes[0] = *kind;
        if let Some(count) = bytes.get_mut(*place) {
            *count = 60;
        }
        let is_read = takes(&bytes, Some(*size));
        if let Some(count) = bytes.get_mut(*place) {
            *count = 61;
        }
        assert!(rt; is_read && takes(&bytes, None), "kind {kind}");
    }
}
