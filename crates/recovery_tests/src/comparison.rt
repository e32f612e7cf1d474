// Whether the plain program tells of an image what recovery gave.
use crate::engine::{Opened, Stop};
use crate::plain::page_of;
use log_index::LogIndex;
use master_store::Node;
use plain_images::{
    Damage, Image, Page, first_damage, losers, reach, recovered_page, sorted, winners,
};
use recovery_redo::Outcome;
use std::alloc::{AllocError, Global};

/// Whether what recovery gave is what the plain program tells of the image.
pub fn agrees(
    alloc: Global,
    image: &Image,
    opened: &Opened,
    recovered: &Result<Outcome, Stop>,
) -> Result<bool, AllocError> {
    match (recovered, first_damage(alloc, image)?) {
        (Ok(outcome), None) => Ok(
            has_counts(alloc, image, outcome)? && has_pages(alloc, image, &opened.pages)?,
        ),
        (Err(stop), Some(damage)) => Ok(is_at(&opened.index, damage, stop)),
        _ => Ok(false),
    }
}

// So many won and so many were undone.
fn has_counts(alloc: Global, image: &Image, outcome: &Outcome) -> Result<bool, AllocError> {
    let records = sorted(alloc, &image.logs)?;
    let far = reach(image.logs.len(), image.floor, &records);
    let won = winners(alloc, far, &records)?;
    let lost = losers(alloc, far, &records)?;
    Ok(won.len() as u64 == outcome.winners && lost.len() as u64 == outcome.undone)
}

// These are the recovered pages.
fn has_pages(alloc: Global, image: &Image, nodes: &[Node]) -> Result<bool, AllocError> {
    for (page, node) in nodes.iter().enumerate() {
        let plain = recovered_page(alloc, image, page as u64)?;
        if node.number() != page as u64 || !is_same(&page_of(alloc, node)?, &plain) {
            return Ok(false);
        }
    }
    Ok(true)
}

/// Whether they are the same page.
pub fn is_same(a: &Page, b: &Page) -> bool {
    a.number == b.number
        && a.log == b.log
        && a.node.live == b.node.live
        && a.node.level == b.node.level
        && a.node.low == b.node.low
        && a.node.high == b.node.high
        && a.node.pairs.as_slice() == b.node.pairs.as_slice()
}

// It stopped at the place of the damage.
fn is_at(index: &LogIndex, damage: Damage, stop: &Stop) -> bool {
    let (at_area, at_place) = match damage {
        Damage::NoBase { page } | Damage::Broken { page } => (1, Some(page as u64)),
        Damage::Unordered { log, number }
        | Damage::Undoable { log, number }
        | Damage::NoEntry { log, number } => (log.saturating_add(1), place_of(index, log, number)),
    };
    match stop {
        Stop::Damaged { area, place } => *area == at_area && Some(*place) == at_place,
        _ => false,
    }
}

// The place of the block in which the record of this log and number stands.
fn place_of(index: &LogIndex, log: u32, number: u64) -> Option<u64> {
    for i in 0..index.len() {
        let head = index.head(i);
        if u32::from(head.log) == log && head.number == number {
            return Some(u64::from(head.place));
        }
    }
    None
}
