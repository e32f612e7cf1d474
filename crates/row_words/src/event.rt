//! The core's events as plain data, so that what a seat has seen can be data too. No value of these types is made.
use crate::given::Entry;
use std::collections::LinkedList;

/// How a lock row is held: with others that read, or by one alone.
pub enum Mode {
    Shared,
    Alone,
}

/// What a walk meets: a key and its value, or a gap up to a bound.
pub enum Met {
    Pair(u64, u64),
    Gap(u64),
}

/// One atomic action. Its fields are those of the core's event of the same name (core_state, specs/Events): mostly the worker
/// first, then pages, a lock row or a frame, then keys, words and numbers.
pub enum Event {
    Enter(u32, u64),
    Leave(u32),
    Begin(u32, u64),
    Lock(u32, u32, Mode),
    Read(u32, u32, u64, Option<u64>),
    Next(u32, u32, u64, Met),
    Peek(u32, u32, u64, Option<u64>),
    Change(u32, u32, u64, u64),
    PutBack(u32, u32),
    Split(u32, u32, u32, u32, u32),
    Lift(u32, u32),
    Join(u32, u32, u32, u32),
    Drop(u32, u32),
    Purge(u32, u32, LinkedList<u64>),
    End(u32, bool, u64),
    Unlock(u32, u32),
    Flush(u32, u64),
    Sync(u64),
    Post(u32, u64),
    Fetch(u32, LinkedList<Entry>),
    Load(u32, u32),
    Cool(u32),
    Rescue(u32),
    Save(u32),
    Evict(u32),
    Tick,
    Cut(u64, LinkedList<u64>),
    Ask(u32),
    Refused(u32, u32, u32),
    Miss(u32),
}
