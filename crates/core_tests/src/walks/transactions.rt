// Locks, changes, ends, scans and cuts on one leaf.
use super::Turn::{Entry, Event, Is, SetEpoch, TooGreat};
use super::{Turn, Walk, Word};
use crate::openings::{Contents, Limits, Opening};
use crate::steps::Step::{
    Abort, Ask, Begin, Change, Commit, Cut, Enter, Flush, Gap, Leave, Lock, Pair, Post, PutBack,
    Read, Refused, Save, Sync, Tick, Unlock,
};
use plain_core::Kind;
use plain_core::Mode::{Alone, Shared};

// Two workers, one empty leaf that is page 0, and a free page; a tombstone is 100.
const ONE_LEAF: Opening = Opening {
    workers: 2,
    frames: 2,
    base: 0,
    faithful: true,
    limits: Limits {
        joined: 2,
        levels: 2,
        dead: 100,
        top: 100,
    },
    pages: &[Contents::Node(0, 0, 100, &[]), Contents::Free],
};

// Worker 1 changes the leaf, and stays open; worker 2 changes it too, and aborts; then it changes it again, and commits.
pub static END_NEEDS: Walk = Walk {
    name: "an end needs what its worker touched of another log",
    opening: ONE_LEAF,
    turns: &[
        Event(Begin(1, 0), true),
        Event(Lock(1, 5, Alone), true),
        Event(Change(1, 0, 5, 7), true),
        Event(Begin(2, 0), true),
        Event(Lock(2, 6, Alone), true),
        Event(Change(2, 0, 6, 1), true),
        Event(PutBack(2, 0), true),
        Event(Abort(2, 0), true),
        Event(Unlock(2, 6), true),
        Event(Begin(2, 0), true),
        Event(Lock(2, 6, Alone), true),
        Event(Change(2, 0, 6, 2), true),
        Event(Commit(2, 0), true),
        Event(Unlock(2, 6), true),
        Event(Flush(2, 6), true),
        Is(Word::Clock(2), 6),
        Is(Word::End(2), 6),
        Is(Word::Debt(2), 1),
        Is(Word::Transaction(2), 2),
        Is(Word::Clock(1), 1),
        Is(Word::Open(1), 1),
        Is(Word::Changes(1), 1),
        Is(Word::RowNumber(6), 6),
        Is(Word::RowLog(6), 2),
        Is(Word::Holder(6), 0),
        Is(Word::PageNumber(0), 5),
        Is(Word::PageLog(0), 2),
        Is(Word::Found(0, 5), 7),
        Is(Word::Found(0, 6), 2),
        Is(Word::Entries, 6),
        Entry(0, Kind::Commit, 6, 1),
        Entry(2, Kind::Abort, 4, 1),
        Is(Word::Flushed(2), 6),
        Is(Word::FlushedByAll, 0),
    ],
};

pub static CHANGE_NEEDS: Walk = Walk {
    name: "a change needs a lock and an end its changes",
    opening: ONE_LEAF,
    turns: &[
        Event(Save(0), true),
        Event(Begin(3, 0), false),
        Event(Begin(0, 0), false),
        Event(Begin(1, 1), false),
        Event(Lock(1, 5, Alone), false),
        Event(Begin(1, 0), true),
        Event(Begin(1, 0), false),
        Event(Change(1, 0, 5, 7), false),
        Event(Lock(1, 5, Shared), true),
        Event(Change(1, 0, 5, 7), false),
        Event(Begin(2, 0), true),
        Event(Lock(2, 5, Shared), true),
        Event(Lock(1, 5, Alone), false),
        Event(Read(2, 0, 5, Some(7)), false),
        Event(Read(2, 0, 5, None), true),
        Event(Abort(2, 0), true),
        Event(Unlock(1, 5), false),
        Event(Unlock(2, 5), true),
        Event(Lock(1, 5, Alone), true),
        Event(Change(1, 0, 5, 101), false),
        Event(Change(1, 0, 5, 7), true),
        Event(Abort(1, 0), false),
        Event(Flush(1, 1), false),
        Event(Sync(2), false),
        Event(Flush(1, 2), true),
        Event(Commit(1, 0), true),
        Event(Save(0), false),
        Is(Word::Entries, 4),
        Is(Word::Clock(1), 3),
        Is(Word::PageNumber(0), 2),
    ],
};

pub static EPOCH_TO_COME: Walk = Walk {
    name: "a worker enters no epoch to come",
    opening: ONE_LEAF,
    turns: &[
        Event(Post(1, 1), false),
        Event(Post(1, 0), true),
        Event(Tick, true),
        Event(Enter(1, 2), false),
        Event(Enter(1, 1), true),
        Event(Enter(1, 1), false),
        Event(Leave(2), false),
        Event(Leave(1), true),
        Event(Leave(1), false),
        Event(Save(0), true),
        Event(Save(1), false),
        Event(Refused(1, 4, 1), false),
        Event(Refused(1, 4, 2), true),
        Is(Word::Epoch, 1),
        Is(Word::Posted, 0),
        Is(Word::Entries, 0),
    ],
};

pub static LEAST_LIVE_PAIR: Walk = Walk {
    name: "what follows is the least live pair and its row is held",
    opening: ONE_LEAF,
    turns: &[
        Event(Begin(1, 0), true),
        Event(Lock(1, 5, Alone), true),
        Event(Gap(1, 0, 3, 100), true),
        Event(Change(1, 0, 5, 7), true),
        Event(Begin(2, 0), true),
        Event(Gap(1, 0, 3, 100), false),
        Event(Pair(1, 0, 3, 5, 8), false),
        Event(Pair(1, 0, 3, 5, 7), true),
        Event(Pair(2, 0, 3, 5, 7), false),
        Event(Gap(2, 0, 6, 100), true),
        Event(Gap(2, 0, 100, 100), false),
        Event(Change(1, 0, 5, 100), true),
        Event(Gap(1, 0, 3, 100), true),
        // a read of the pair by who holds its row alone
        Is(Word::Entries, 3),
        Turn::Read(1, 5, 7, 1),
        Is(Word::Clock(2), 1),
        Is(Word::Debt(2), 1),
    ],
};

// A cut asks that log 1 begins behind number 5. Only log 1 is cut, up to the cut's number.
pub static CUT_NEEDS: Walk = Walk {
    name: "a cut needs ripe ends and saved pages",
    opening: ONE_LEAF,
    turns: &[
        Event(Begin(1, 0), true),
        Event(Lock(1, 5, Alone), true),
        Event(Change(1, 0, 5, 7), true),
        Event(Flush(1, 1), true),
        Event(Sync(1), true),
        Event(Cut(1, &[5]), false),
        Event(Commit(1, 0), true),
        Event(Cut(1, &[5]), false),
        Event(Flush(1, 2), true),
        Event(Cut(1, &[5]), false),
        Event(Save(0), true),
        Event(Cut(2, &[5]), false),
        Event(Cut(1, &[5]), true),
        Is(Word::Head(1), 1),
        Is(Word::Head(2), 0),
        Is(Word::Cut, 1),
        Is(Word::Floor, 1),
        Event(Cut(0, &[5]), true),
        Is(Word::Head(1), 1),
        Is(Word::Head(2), 0),
        Is(Word::Cut, 1),
    ],
};

pub static EPOCH_AT_ITS_END: Walk = Walk {
    name: "an epoch at its end is refused",
    opening: ONE_LEAF,
    turns: &[SetEpoch(u64::MAX), TooGreat(Tick), Event(Ask(1), true)],
};
