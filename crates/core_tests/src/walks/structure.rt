// A small tree that grows and shrinks again.
use super::Turn::{Event, Heat, Is, Newest, Page};
use super::{Walk, Word};
use crate::openings::Contents::{Free, Node};
use crate::openings::{Limits, Opening};
use crate::steps::Step::{
    Begin, Commit, Drop, Flush, Join, Lift, Lock, Purge, Split, Sync, Unlock,
};
use plain_core::Kind;
use plain_core::Mode::Alone;

// Two workers, a full leaf that is page 0, with a tombstone, and two free pages; a tombstone is 100, and two pages are joined that
// have at most three pairs together.
const FULL_LEAF: Opening = Opening {
    workers: 2,
    frames: 3,
    base: 0,
    faithful: true,
    limits: Limits {
        joined: 3,
        levels: 1,
        dead: 100,
        top: 100,
    },
    pages: &[
        Node(0, 0, 100, &[(10, 1), (20, 2), (30, 100), (40, 4)]),
        Free,
        Free,
    ],
};

pub static FULL_ROOT_GROWS: Walk = Walk {
    name: "a full root is lifted and its child is split",
    opening: FULL_LEAF,
    turns: &[
        Heat(1, 1),
        Heat(2, 2),
        Event(Lift(1, 1), false),
        Event(Begin(1, 0), true),
        Event(Lift(1, 0), false),
        Event(Lift(1, 1), true),
        Newest(Kind::Lift, 1, 0, &[(0, 0), (1, 0)]),
        Page(0, 1, Node(1, 0, 100, &[(0, 1)])),
        Event(Lift(1, 2), false),
        Event(Split(1, 1, 2, 0, 0), false),
        Event(Split(1, 1, 2, 0, 4), false),
        Event(Split(1, 1, 2, 0, 2), true),
        Newest(Kind::Split, 2, 30, &[(1, 1), (2, 0), (0, 1)]),
        Page(0, 2, Node(1, 0, 100, &[(0, 1), (30, 2)])),
        Page(1, 2, Node(0, 0, 30, &[(10, 1), (20, 2)])),
        Page(2, 2, Node(0, 30, 100, &[(30, 100), (40, 4)])),
    ],
};

pub static PURGE_WAITS: Walk = Walk {
    name: "a purge waits until the last end of its row is flushed",
    opening: FULL_LEAF,
    turns: &[
        Heat(1, 1),
        Heat(2, 2),
        Event(Begin(1, 0), true),
        Event(Lift(1, 1), true),
        Event(Split(1, 1, 2, 0, 2), true),
        Event(Begin(2, 0), true),
        Event(Lock(1, 30, Alone), true),
        Event(Purge(2, 2, &[30]), false),
        Event(Commit(1, 0), true),
        Event(Unlock(1, 30), true),
        Event(Purge(2, 2, &[30]), false),
        Event(Flush(1, 3), true),
        Event(Sync(3), true),
        Event(Purge(2, 2, &[30, 40]), false),
        Event(Purge(2, 2, &[30]), true),
        Newest(Kind::Purge, 4, 0, &[(2, 2)]),
        Page(2, 4, Node(0, 30, 100, &[(40, 4)])),
        Is(Word::Clock(2), 4),
        Is(Word::Debt(2), 2),
    ],
};

pub static TREE_SHRINKS: Walk = Walk {
    name: "two leaves are joined and the root is dropped",
    opening: FULL_LEAF,
    turns: &[
        Heat(1, 1),
        Heat(2, 2),
        Event(Begin(1, 0), true),
        Event(Lift(1, 1), true),
        Event(Split(1, 1, 2, 0, 2), true),
        Event(Begin(2, 0), true),
        Event(Join(2, 1, 2, 0), false),
        Event(Purge(2, 2, &[30]), true),
        Event(Join(2, 2, 1, 0), false),
        Event(Drop(2, 1), false),
        Event(Join(2, 1, 2, 0), true),
        Newest(Kind::Join, 4, 30, &[(1, 2), (2, 3), (0, 2)]),
        Page(0, 4, Node(1, 0, 100, &[(0, 1)])),
        Page(1, 4, Node(0, 0, 100, &[(10, 1), (20, 2), (40, 4)])),
        Page(2, 4, Free),
        Event(Drop(2, 1), true),
        Page(0, 5, Node(0, 0, 100, &[(10, 1), (20, 2), (40, 4)])),
        Page(1, 5, Free),
        Event(Drop(2, 1), false),
    ],
};
