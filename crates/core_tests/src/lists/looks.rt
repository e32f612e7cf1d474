// What is looked at with a lock and without.
use crate::expectations::{Crash, End, List};
use crate::openings::{DEAD, LEAF, SPARSE, TOP};
use crate::steps::Step::{Begin, Change, Commit, Gap, Lock, Pair, Peek, Unlock};
use plain_core::Mode::{Alone, Shared};

pub static PAIR_UNDER_A_LOCK: List = List {
    name: "a pair that follows is read under its row's lock",
    opening: SPARSE,
    steps: &[
        (Begin(2, 0), true),
        (Lock(2, 6, Alone), true),
        (Change(2, 0, 6, 8), true),
        (Commit(2, 0), true),
        (Unlock(2, 6), true),
        (Pair(1, 0, 0, 5, 50), false),
        (Begin(1, 0), true),
        (Pair(1, 0, 0, 5, 50), false),
        (Lock(1, 5, Shared), true),
        (Pair(1, 0, 0, 3, DEAD), false),
        (Pair(1, 0, 0, 5, 50), true),
        (Commit(1, 0), true),
        (Unlock(1, 5), true),
        (Begin(1, 0), true),
        (Pair(1, 0, 6, 6, 8), false),
        (Lock(1, 6, Shared), true),
        (Pair(1, 0, 6, 6, 9), false),
        (Pair(1, 0, 6, 6, 8), true),
        (Gap(1, 0, 6, TOP), false),
        (Gap(1, 0, 7, 9), false),
        (Gap(1, 0, 7, TOP), true),
        (Lock(1, 7, Alone), true),
        (Change(1, 0, 7, 9), true),
        (Commit(1, 0), true),
    ],
    ends: &[End(2, 1, 2, 0), End(1, 1, 2, 1), End(1, 2, 4, 2)],
    leaves: &[(5, 50), (6, 8), (7, 9)],
    committed: &[(5, 50), (6, 8), (7, 9)],
    crashes: 12,
    told: &[
        Crash {
            logs: &[1, 0],
            pages: &[0, 0],
            reach: 0,
            kept: &[],
            map: &[(5, 50)],
        },
        Crash {
            logs: &[3, 1],
            pages: &[0, 0],
            reach: 1,
            kept: &[(1, 1)],
            map: &[(5, 50)],
        },
        Crash {
            logs: &[0, 2],
            pages: &[0, 0],
            reach: 0,
            kept: &[(2, 1)],
            map: &[(5, 50), (6, 8)],
        },
        Crash {
            logs: &[3, 2],
            pages: &[0, 0],
            reach: 2,
            kept: &[(1, 1), (2, 1), (1, 2)],
            map: &[(5, 50), (6, 8), (7, 9)],
        },
    ],
};

pub static PEEK_WITHOUT_A_LOCK: List = List {
    name: "a peek needs no lock and leaves no trace",
    opening: LEAF,
    steps: &[
        (Begin(1, 0), true),
        (Lock(1, 5, Alone), true),
        (Change(1, 0, 5, 7), true),
        (Peek(2, 0, 5, Some(50)), false),
        (Peek(2, 0, 5, Some(7)), true),
        (Peek(2, 0, 6, None), true),
        (Peek(2, 1, 6, None), false),
        (Begin(2, 0), true),
        (Peek(2, 0, 5, Some(7)), true),
        (Commit(2, 0), true),
    ],
    ends: &[End(2, 1, 1, 0)],
    leaves: &[(5, 7)],
    committed: &[(5, 50)],
    crashes: 4,
    told: &[Crash {
        logs: &[0, 1],
        pages: &[0, 0],
        reach: 0,
        kept: &[(2, 1)],
        map: &[(5, 50)],
    }],
};
