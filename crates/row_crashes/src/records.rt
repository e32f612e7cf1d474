// The records of the row, by hand from its events. A leaf has the number of the change before; the ends of worker 2 need log 1's
// number, which its leaf had.
use disk_runs::{Body, PageRef, Record};

/// The word of an absent key.
pub(crate) const TOMBSTONE: u64 = 9223372036854775808;

pub(crate) const CHANGE_5: Record = Record {
    txn: 1,
    gsn: 1,
    body: Body::Change {
        leaf: PageRef { page: 0, prev: 0 },
        key: 5,
        before: TOMBSTONE,
        after: 7,
    },
};

pub(crate) const CHANGE_6: Record = Record {
    txn: 1,
    gsn: 2,
    body: Body::Change {
        leaf: PageRef { page: 0, prev: 1 },
        key: 6,
        before: TOMBSTONE,
        after: 1,
    },
};

pub(crate) const PUT_BACK_6: Record = Record {
    txn: 1,
    gsn: 3,
    body: Body::PutBack {
        leaf: PageRef { page: 0, prev: 2 },
        key: 6,
        before: 1,
        after: TOMBSTONE,
    },
};

pub(crate) const ABORT: Record = Record {
    txn: 1,
    gsn: 4,
    body: Body::Abort { need: 1 },
};

pub(crate) const CHANGE_6_AGAIN: Record = Record {
    txn: 2,
    gsn: 5,
    body: Body::Change {
        leaf: PageRef { page: 0, prev: 3 },
        key: 6,
        before: TOMBSTONE,
        after: 2,
    },
};

pub(crate) const COMMIT: Record = Record {
    txn: 2,
    gsn: 6,
    body: Body::Commit { need: 1 },
};
