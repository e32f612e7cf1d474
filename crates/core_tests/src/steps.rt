// What a list of events is written in.
use crate::openings::pairs_of;
use plain_core::{Event, Following, Mode, Table};
use std::alloc::{AllocError, Global};

/// An event, by its worker, if it has one, and what it names. `Pair` and `Gap` are the two answers of `Next`, `Commit` and
/// `Abort` the two ends. The heads of a cut are those of the logs in turn.
#[derive(Clone, Copy)]
pub enum Step {
    Enter(u64, u64),
    Leave(u64),
    Begin(u64, u64),
    Lock(u64, u64, Mode),
    Read(u64, u64, u64, Option<u64>),
    Pair(u64, u64, u64, u64, u64),
    Gap(u64, u64, u64, u64),
    Peek(u64, u64, u64, Option<u64>),
    Change(u64, u64, u64, u64),
    PutBack(u64, u64),
    Split(u64, u64, u64, u64, u64),
    Lift(u64, u64),
    Join(u64, u64, u64, u64),
    Drop(u64, u64),
    Purge(u64, u64, &'static [u64]),
    Commit(u64, u64),
    Abort(u64, u64),
    Unlock(u64, u64),
    Flush(u64, u64),
    Sync(u64),
    Post(u64, u64),
    Fetch(u64, &'static [(u64, u64)]),
    Load(u64, u64),
    Cool(u64),
    Rescue(u64),
    Save(u64),
    Evict(u64),
    Tick,
    Cut(u64, &'static [u64]),
    Ask(u64),
    Refused(u64, u64, u64),
}

/// The event.
pub fn event_of(alloc: Global, step: Step) -> Result<Event, AllocError> {
    match step {
        Step::Enter(worker, epoch) => Ok(Event::Enter { worker, epoch }),
        Step::Leave(worker) => Ok(Event::Leave { worker }),
        Step::Begin(worker, flushed) => Ok(Event::Begin { worker, flushed }),
        Step::Lock(worker, row, mode) => Ok(Event::Lock { worker, row, mode }),
        Step::Read(worker, page, key, answer) => Ok(Event::Read {
            worker,
            page,
            key,
            answer,
        }),
        Step::Pair(worker, page, key, next, value) => Ok(Event::Next {
            worker,
            page,
            key,
            answer: Following::Pair { key: next, value },
        }),
        Step::Gap(worker, page, key, high) => Ok(Event::Next {
            worker,
            page,
            key,
            answer: Following::Gap { high },
        }),
        Step::Peek(worker, page, key, answer) => Ok(Event::Peek {
            worker,
            page,
            key,
            answer,
        }),
        Step::Change(worker, page, key, word) => Ok(Event::Change {
            worker,
            page,
            key,
            word,
        }),
        Step::PutBack(worker, page) => Ok(Event::PutBack { worker, page }),
        Step::Split(worker, left, right, parent, place) => Ok(Event::Split {
            worker,
            left,
            right,
            parent,
            place,
        }),
        Step::Lift(worker, child) => Ok(Event::Lift { worker, child }),
        Step::Join(worker, left, right, parent) => Ok(Event::Join {
            worker,
            left,
            right,
            parent,
        }),
        Step::Drop(worker, child) => Ok(Event::Drop { worker, child }),
        Step::Purge(worker, page, keys) => Ok(Event::Purge {
            worker,
            page,
            keys: Vec::from_slice(alloc, keys)?,
        }),
        Step::Commit(worker, flushed) => Ok(Event::End {
            worker,
            commit: true,
            flushed,
        }),
        Step::Abort(worker, flushed) => Ok(Event::End {
            worker,
            commit: false,
            flushed,
        }),
        Step::Unlock(worker, row) => Ok(Event::Unlock { worker, row }),
        Step::Flush(worker, number) => Ok(Event::Flush { worker, number }),
        Step::Sync(number) => Ok(Event::Sync { number }),
        Step::Post(worker, number) => Ok(Event::Post { worker, number }),
        Step::Fetch(page, pairs) => Ok(Event::Fetch {
            page,
            pairs: pairs_of(alloc, pairs)?,
        }),
        Step::Load(page, frame) => Ok(Event::Load { page, frame }),
        Step::Cool(page) => Ok(Event::Cool { page }),
        Step::Rescue(page) => Ok(Event::Rescue { page }),
        Step::Save(page) => Ok(Event::Save { page }),
        Step::Evict(page) => Ok(Event::Evict { page }),
        Step::Tick => Ok(Event::Tick),
        Step::Cut(number, heads) => Ok(Event::Cut {
            number,
            heads: heads_of(alloc, heads)?,
        }),
        Step::Ask(worker) => Ok(Event::Ask { worker }),
        Step::Refused(worker, cause, pages) => Ok(Event::Refused {
            worker,
            cause,
            pages,
        }),
    }
}

// The head of each log, from log 1 on.
fn heads_of(alloc: Global, said: &[u64]) -> Result<Table<u64>, AllocError> {
    let mut heads = Table::new(alloc, 0);
    let mut log: u64 = 0;
    for head in said {
        log = log.saturating_add(1);
        heads.set(log, *head)?;
    }
    Ok(heads)
}
