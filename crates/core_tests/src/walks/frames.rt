// Pages that come into frames and go out of them.
use super::Turn::{AllCold, Event, Is, Page};
use super::{Walk, Word};
use crate::openings::{Contents, Limits, Opening};
use crate::steps::Step::{
    Begin, Change, Cool, Enter, Evict, Fetch, Flush, Leave, Load, Lock, Peek, Read, Rescue, Save,
    Sync, Tick,
};
use plain_core::Mode::Alone;

// Two workers, two frames; page 0, in frame 0, is the parent of the leaves 1 and 2, which are cold.
const TWO_LEAVES: Opening = Opening {
    workers: 2,
    frames: 2,
    base: 0,
    faithful: true,
    limits: Limits {
        joined: 2,
        levels: 2,
        dead: 100,
        top: 100,
    },
    pages: &[
        Contents::Node(1, 0, 100, &[(0, 1), (50, 2)]),
        Contents::Node(0, 0, 50, &[(10, 7)]),
        Contents::Node(0, 50, 100, &[(60, 8)]),
    ],
};

pub static LOADED_UNDER_A_HOT_PARENT: Walk = Walk {
    name: "a page is loaded under a hot parent into an empty frame",
    opening: TWO_LEAVES,
    turns: &[
        Event(Load(1, 0), false),
        Event(Load(1, 2), false),
        Event(Load(0, 1), false),
        Event(Load(3, 1), false),
        Event(Rescue(1), false),
        Event(Load(1, 1), true),
        Event(Load(2, 1), false),
        Event(Cool(0), false),
        Event(Evict(1), false),
        Is(Word::HotIn(1), 1),
        Is(Word::Cold(2), 1),
        AllCold,
        Event(Load(1, 1), false),
    ],
};

pub static EVICTION_WAITS: Walk = Walk {
    name: "an eviction waits for the workers that were inside",
    opening: TWO_LEAVES,
    turns: &[
        Event(Load(1, 1), true),
        Event(Enter(1, 0), true),
        Event(Cool(1), true),
        Event(Cool(1), false),
        Event(Tick, true),
        Event(Evict(1), false),
        Event(Rescue(1), true),
        Event(Rescue(1), false),
        Event(Cool(1), true),
        Is(Word::CoolingIn(1), 1),
        Is(Word::CoolingSince(1), 1),
        Is(Word::Queued, 1),
        Event(Evict(1), false),
        Event(Leave(1), true),
        Event(Evict(1), true),
        Event(Evict(1), false),
        Event(Load(2, 1), true),
        Is(Word::Queued, 0),
        Is(Word::Cold(1), 1),
    ],
};

pub static SAVED_BEFORE_EVICTED: Walk = Walk {
    name: "a dirty page is saved before it is evicted",
    opening: TWO_LEAVES,
    turns: &[
        Event(Load(2, 1), true),
        Event(Begin(1, 0), true),
        Event(Lock(1, 60, Alone), true),
        Event(Change(1, 2, 60, 9), true),
        Event(Cool(2), true),
        Event(Evict(2), false),
        Event(Save(2), false),
        Event(Flush(1, 1), true),
        Event(Sync(1), true),
        Event(Save(2), true),
        Event(Evict(2), true),
        Event(Load(2, 1), true),
        Is(Word::PageNumber(2), 1),
        Is(Word::PageLog(2), 1),
        Is(Word::Found(2, 60), 9),
    ],
};

// Page 0 has the child 1, which has the leaves 2 and 3; page 4 is free.
const FIVE_PAGES: &'static [Contents] = &[
    Contents::Node(2, 0, 100, &[(0, 1)]),
    Contents::Node(1, 0, 100, &[(0, 2), (50, 3)]),
    Contents::Node(0, 0, 50, &[(10, 7)]),
    Contents::Node(0, 50, 100, &[(60, 8)]),
    Contents::Free,
];

// Two workers, three frames; page 0 is in frame 0, and the others are cold.
const FAITHFUL: Opening = Opening {
    workers: 2,
    frames: 3,
    base: 0,
    faithful: true,
    limits: Limits {
        joined: 2,
        levels: 2,
        dead: 100,
        top: 100,
    },
    pages: FIVE_PAGES,
};

// The same, but a leaf that is read may have other pairs.
const UNFAITHFUL: Opening = Opening {
    workers: 2,
    frames: 3,
    base: 0,
    faithful: false,
    limits: Limits {
        joined: 2,
        levels: 2,
        dead: 100,
        top: 100,
    },
    pages: FIVE_PAGES,
};

pub static FETCHED_AS_SAVED: Walk = Walk {
    name: "where the opening is faithful a cold leaf is read with its own pairs alone",
    opening: FAITHFUL,
    turns: &[
        Event(Fetch(2, &[(10, 8)]), false),
        Event(Fetch(2, &[(11, 7)]), false),
        Event(Fetch(2, &[]), false),
        Event(Fetch(2, &[(10, 7), (11, 1)]), false),
        Event(Fetch(1, &[(0, 2), (50, 3)]), false),
        Event(Fetch(4, &[]), false),
        Event(Fetch(2, &[(10, 7)]), true),
        Page(2, 0, Contents::Node(0, 0, 50, &[(10, 7)])),
        Is(Word::Cold(2), 1),
        Is(Word::Entries, 0),
        Event(Load(1, 1), true),
        Event(Load(2, 2), true),
        Event(Fetch(2, &[(10, 7)]), false),
        Event(Begin(1, 0), true),
        Event(Lock(1, 10, Alone), true),
        Event(Read(1, 2, 10, Some(7)), true),
        Event(Change(1, 2, 10, 9), true),
        Event(Flush(1, 1), true),
        Event(Sync(1), true),
        Event(Save(2), true),
        Event(Cool(2), true),
        Event(Fetch(2, &[(10, 9)]), false),
        Event(Evict(2), true),
        Event(Fetch(2, &[(10, 7)]), false),
        Event(Fetch(2, &[(10, 9)]), true),
        Event(Load(2, 2), true),
        Is(Word::PageNumber(2), 1),
        Is(Word::PageLog(2), 1),
        Event(Read(1, 2, 10, Some(9)), true),
    ],
};

pub static FETCHED_WITH_OTHER_PAIRS: Walk = Walk {
    name: "where the opening is not faithful a cold leaf is read with any well formed pairs",
    opening: UNFAITHFUL,
    turns: &[
        Event(Fetch(0, &[(0, 1)]), false),
        Event(Fetch(1, &[(0, 2), (50, 3)]), false),
        Event(Fetch(4, &[]), false),
        Event(Fetch(5, &[]), false),
        Event(Fetch(2, &[(1, 1), (2, 1), (3, 1), (4, 1), (5, 1)]), false),
        Event(Fetch(2, &[(11, 1), (10, 2)]), false),
        Event(Fetch(2, &[(10, 1), (10, 2)]), false),
        Event(Fetch(2, &[(50, 1)]), false),
        Event(Fetch(3, &[(49, 1)]), false),
        Event(Fetch(2, &[(10, 101)]), false),
        Is(Word::Found(2, 10), 7),
        Event(Fetch(2, &[(0, 1), (10, 9), (11, 100), (49, 2)]), true),
        Page(
            2,
            0,
            Contents::Node(0, 0, 50, &[(0, 1), (10, 9), (11, 100), (49, 2)]),
        ),
        Page(3, 0, Contents::Node(0, 50, 100, &[(60, 8)])),
        Is(Word::Cold(2), 1),
        Is(Word::Entries, 0),
        Event(Load(1, 1), true),
        Event(Load(2, 2), true),
        Event(Begin(1, 0), true),
        Event(Lock(1, 10, Alone), true),
        Event(Read(1, 2, 10, Some(7)), false),
        Event(Read(1, 2, 10, Some(9)), true),
        Event(Peek(1, 2, 11, None), true),
        Event(Fetch(2, &[(10, 7)]), false),
        Event(Change(1, 2, 10, 5), true),
        Event(Flush(1, 1), true),
        Event(Sync(1), true),
        Event(Save(2), true),
        Event(Cool(2), true),
        Event(Fetch(2, &[(10, 7)]), false),
        Event(Evict(2), true),
        Event(Fetch(2, &[(10, 7)]), true),
        Is(Word::PageNumber(2), 1),
        Is(Word::PageLog(2), 1),
        Event(Load(2, 2), true),
        Event(Read(1, 2, 10, Some(5)), false),
        Event(Read(1, 2, 10, Some(7)), true),
    ],
};
