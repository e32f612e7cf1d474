// What is compared of rows behind each step.
use crate::nodes::number_of;
use crate::plain::{FRAMES, Plain};
use crate::pool::{Page, Place};
use crate::wrong::Wrong;
use quiet_engine::Engine;

const FRAME: u64 = 1 << 63;

const MARK: u64 = FRAME + 1;

// Words of a row: the page's number among pages, that of its last change, its kind with level and count, its fences, its pairs; the hint,
// and the number that was saved.
const NUMBER: u32 = 1;

const CHANGED: u32 = 2;

const KIND: u32 = 4;

const LOW: u32 = 5;

const HIGH: u32 = 6;

const PAIRS: u32 = 7;

const HINT: u32 = 127;

const SAVED: u32 = 128;

// The kind of a node, and that of a free page, above the log of the last change, above level and count.
const NODE: u64 = 1 << 24;

const FREE: u64 = 2 << 24;

const LOG: u64 = 1 << 16;

// The frame has the page, its numbers and its hint.
fn has_page(engine: &Engine, frame: u32, page: u32, it: &Page) -> bool {
    let is_hot = matches!(it.place, Place::Hot(_));
    engine.word(frame, NUMBER) == u64::from(page)
        && engine.word(frame, CHANGED) == it.number
        && engine.word(frame, SAVED) == it.saved
        && (engine.word(frame, HINT) != MARK) == is_hot
}

// The word that packs the kind of the page's node, the log of its last change, its level and its count.
fn kind_of(it: &Page) -> u64 {
    let kind = if it.node.live { NODE } else { FREE };
    let log = if it.number == 0 { 0 } else { LOG };
    let level = it.node.level.min(8) << 8;
    let count = it.node.pairs.len() as u64;
    (kind + log + level).saturating_add(count)
}

// The frame has it, and the node's fences.
fn has_head(engine: &Engine, frame: u32, it: &Page) -> bool {
    engine.word(frame, KIND) == kind_of(it)
        && engine.word(frame, LOW) == it.node.low
        && engine.word(frame, HIGH) == it.node.high
}

impl Plain {
    // The word by which a node in a frame names a child, or gives a key's value.
    fn shown(&self, level: u64, word: u64) -> u64 {
        if level == 0 {
            return word;
        }
        match self.place(number_of(word)) {
            Place::Hot(frame) => FRAME + u64::from(frame),
            _ => word,
        }
    }

    // The frame has the pairs of the page's node.
    fn has_pairs(&self, engine: &Engine, frame: u32, it: &Page) -> bool {
        let mut at = PAIRS;
        for pair in &it.node.pairs {
            if engine.word(frame, at) != pair.key
                || engine.word(frame, at.saturating_add(1))
                    != self.shown(it.node.level, pair.word)
            {
                return false;
            }
            at = at.saturating_add(2);
        }
        true
    }

    // The frame is as it is here.
    fn agrees_in(&self, engine: &Engine, frame: u32) -> Result<(), Wrong> {
        let Some(page) = self.page_in(frame as usize) else {
            return if engine.word(frame, HINT) == MARK {
                Ok(())
            } else {
                Err(Wrong::Frame(frame))
            };
        };
        let Some(it) = self.page(page) else {
            return Err(Wrong::Plain);
        };
        if !has_page(engine, frame, page, it) {
            return Err(Wrong::Frame(frame));
        }
        if !has_head(engine, frame, it) || !self.has_pairs(engine, frame, it) {
            return Err(Wrong::Node(frame));
        }
        Ok(())
    }

    // No page was saved before the record of its last change was flushed.
    fn is_flushed_first(&self) -> bool {
        for it in &self.pages {
            if it.saved > self.flushed {
                return false;
            }
        }
        true
    }

    /// The rows and the session are as they are here.
    pub fn agrees(&self, engine: &Engine) -> Result<(), Wrong> {
        if !self.is_flushed_first() {
            return Err(Wrong::Early);
        }
        if engine.flushed() != self.flushed || engine.waiting() != self.waiting {
            return Err(Wrong::Flushed);
        }
        for frame in 0..FRAMES {
            self.agrees_in(engine, frame)?;
        }
        Ok(())
    }
}
