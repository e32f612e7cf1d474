// Lists of events with looks at the state on the way, each by a sentence.
mod frames;
mod structure;
mod transactions;

use crate::maps::are_pairs;
use crate::openings::{Contents, Opening, opened};
use crate::steps::{Step, event_of};
use plain_core::{Core, Entry, Kind, Page, Place, Refusal, Table};
use std::alloc::Global;

/// What is done or looked at in turn, after an opening.
pub struct Walk {
    pub name: &'static str,
    pub opening: Opening,
    pub turns: &'static [Turn],
}

/// An event, with whether its need is met, or one that is refused for its number; something that no event does; or what is so then.
#[derive(Clone, Copy)]
pub enum Turn {
    Event(Step, bool),
    TooGreat(Step),
    /// A page is put into a frame; all pages are cold; the epoch is set.
    Heat(u64, u64),
    AllCold,
    SetEpoch(u64),
    /// A number of the state.
    Is(Word, u64),
    /// A page's number and contents.
    Page(u64, u64, Contents),
    /// The entry at a place, the newest at 0, by its kind, its number, and what it needs.
    Entry(usize, Kind, u64, u64),
    /// The read at a place, by its key and the word that it found, with what it needs.
    Read(usize, u64, u64, u64),
    /// The newest entry by its kind, its number, its separator, and its pages with their numbers before.
    Newest(Kind, u64, u64, &'static [(u64, u64)]),
}

/// A number of the state: of a worker, a row, a page, a log, or of all.
#[derive(Clone, Copy)]
pub enum Word {
    Clock(u64),
    End(u64),
    Debt(u64),
    Transaction(u64),
    /// 1 where it is open.
    Open(u64),
    /// How many changes it has made.
    Changes(u64),
    RowNumber(u64),
    RowLog(u64),
    /// The worker that holds it alone, or 0.
    Holder(u64),
    PageNumber(u64),
    PageLog(u64),
    /// The word of a key on a page, or `NO_WORD`.
    Found(u64, u64),
    /// The frame of a hot page, or that of a cooling one and its epoch, or `NO_FRAME`.
    HotIn(u64),
    CoolingIn(u64),
    CoolingSince(u64),
    /// 1 where the page is cold.
    Cold(u64),
    Flushed(u64),
    Head(u64),
    FlushedByAll,
    Cut,
    Floor,
    Epoch,
    Posted,
    /// How many there are.
    Entries,
    Queued,
}

/// A page has no such key.
pub const NO_WORD: u64 = u64::MAX;

/// A page is in no frame, or not in that way.
pub const NO_FRAME: u64 = u64::MAX;

/// All walks.
pub fn walks() -> [&'static Walk; 14] {
    [
        &transactions::END_NEEDS,
        &transactions::CHANGE_NEEDS,
        &transactions::EPOCH_TO_COME,
        &transactions::LEAST_LIVE_PAIR,
        &transactions::CUT_NEEDS,
        &transactions::EPOCH_AT_ITS_END,
        &structure::FULL_ROOT_GROWS,
        &structure::PURGE_WAITS,
        &structure::TREE_SHRINKS,
        &frames::LOADED_UNDER_A_HOT_PARENT,
        &frames::EVICTION_WAITS,
        &frames::SAVED_BEFORE_EVICTED,
        &frames::FETCHED_AS_SAVED,
        &frames::FETCHED_WITH_OTHER_PAIRS,
    ]
}

/// The place of the first turn that is not as is said.
pub fn first_wrong(alloc: Global, walk: &Walk) -> Result<Option<usize>, Refusal> {
    let mut core = opened(alloc, walk.opening)?;
    for (place, turn) in walk.turns.iter().enumerate() {
        if !goes(&mut core, alloc, *turn)? {
            return Ok(Some(place));
        }
    }
    Ok(None)
}

// The turn is as is said.
fn goes(core: &mut Core, alloc: Global, turn: Turn) -> Result<bool, Refusal> {
    match turn {
        Turn::Event(step, is_met) => {
            let event = event_of(alloc, step)?;
            Ok(core.step(alloc, &event)? == is_met)
        }
        Turn::TooGreat(step) => {
            let event = event_of(alloc, step)?;
            Ok(matches!(core.step(alloc, &event), Err(Refusal::Number)))
        }
        Turn::Heat(page, frame) => {
            core.places.set(page, Place::Hot { frame })?;
            Ok(true)
        }
        Turn::AllCold => {
            core.places = Table::new(alloc, Place::Cold);
            Ok(true)
        }
        Turn::SetEpoch(epoch) => {
            core.epoch = epoch;
            Ok(true)
        }
        _ => Ok(is_so(core, turn)),
    }
}

// It is so of the state.
fn is_so(core: &Core, turn: Turn) -> bool {
    match turn {
        Turn::Is(word, value) => word_of(core, word) == value,
        Turn::Page(page, number, contents) => is_page(core.pages.get(page), number, contents),
        Turn::Entry(place, kind, number, need) => match core.entries.get(place) {
            Some(entry) => entry.kind == kind && entry.number == number && entry.need == need,
            None => false,
        },
        Turn::Read(place, key, word, need) => match core.entries.get(place) {
            Some(entry) => {
                entry.kind == Kind::Read
                    && entry.key == key
                    && entry.after == word
                    && entry.need == need
            }
            None => false,
        },
        Turn::Newest(kind, number, separator, refs) => match core.entries.first() {
            Some(entry) => {
                entry.kind == kind
                    && entry.number == number
                    && entry.page_record.separator == separator
                    && has_refs(entry, refs)
            }
            None => false,
        },
        _ => false,
    }
}

fn has_refs(entry: &Entry, refs: &[(u64, u64)]) -> bool {
    for (one, (page, previous)) in entry.refs.iter().zip(refs) {
        if one.page != *page || one.previous != *previous {
            return false;
        }
    }
    entry.refs.len() == refs.len()
}

// A free page has no pairs.
fn is_page(page: &Page, number: u64, contents: Contents) -> bool {
    let node = &page.node;
    match contents {
        Contents::Free => page.number == number && !node.live && node.pairs.is_empty(),
        Contents::Node(level, low, high, pairs) => {
            page.number == number
                && node.live
                && node.level == level
                && node.low == low
                && node.high == high
                && are_pairs(&node.pairs, pairs)
        }
    }
}

fn word_of(core: &Core, word: Word) -> u64 {
    match word {
        Word::Clock(worker) => core.workers.get(worker).clock,
        Word::End(worker) => core.workers.get(worker).end,
        Word::Debt(worker) => core.workers.get(worker).debt,
        Word::Transaction(worker) => core.workers.get(worker).txn,
        Word::Open(worker) => u64::from(core.workers.get(worker).is_open),
        Word::Changes(worker) => core.workers.get(worker).changes.len() as u64,
        Word::RowNumber(row) => core.rows.get(row).number,
        Word::RowLog(row) => core.rows.get(row).log,
        Word::Holder(row) => core.rows.get(row).holder.unwrap_or(0),
        Word::PageNumber(page) => core.pages.get(page).number,
        Word::PageLog(page) => core.pages.get(page).log,
        Word::Found(page, key) => core.pages.get(page).node.find(key).unwrap_or(NO_WORD),
        Word::HotIn(page) => match core.places.get(page) {
            Place::Hot { frame } => *frame,
            _ => NO_FRAME,
        },
        Word::CoolingIn(page) => match core.places.get(page) {
            Place::Cooling { frame, .. } => *frame,
            _ => NO_FRAME,
        },
        Word::CoolingSince(page) => match core.places.get(page) {
            Place::Cooling { epoch, .. } => *epoch,
            _ => NO_FRAME,
        },
        Word::Cold(page) => u64::from(matches!(core.places.get(page), Place::Cold)),
        Word::Flushed(log) => *core.flushed.get(log),
        Word::Head(log) => *core.heads.get(log),
        Word::FlushedByAll => core.flushed_by_all(),
        Word::Cut => core.cut,
        Word::Floor => core.floor,
        Word::Epoch => core.epoch,
        Word::Posted => core.posted,
        Word::Entries => core.entries.len() as u64,
        Word::Queued => core.queue.len() as u64,
    }
}
