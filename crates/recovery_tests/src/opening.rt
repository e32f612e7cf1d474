// The opening of a disk by recovery's one call.
use crate::comparison::is_same;
use crate::engine::Stop;
use crate::plain::page_of;
use lean_disk::{AreaOf, Choice, MemDisk};
use master_store::{Node, fetch_seen};
use recovery::{Recovered, Unrecovered, recover};
use recovery_redo::Outcome;
use std::alloc::{AllocError, Global};

/// The most logs that a disk can have.
const MOST: u32 = 16;

/// Whether the disk, which has so many logs, is not opened for one who can write one less, and is left as it was.
pub fn is_left(alloc: Global, disk: &mut MemDisk, logs: u32) -> Result<bool, AllocError> {
    let before = disk.crash(disk.moment(), Choice::AllBytes)?;
    match recover(alloc, disk, logs.saturating_sub(1)) {
        Err(Unrecovered::NotFormatted) => Ok(has_bytes(disk, &before)),
        _ => Ok(false),
    }
}

fn has_bytes(disk: &MemDisk, other: &MemDisk) -> bool {
    for area in 0..2 + MOST {
        if disk.bytes(area) != other.bytes(area) {
            return false;
        }
    }
    true
}

/// Whether the disk opens with these pages, this base number and these counts of transactions, and its slots are as it says.
pub fn opens_so(
    alloc: Global,
    disk: &mut MemDisk,
    outcome: &Outcome,
    pages: &[Node],
) -> Result<bool, AllocError> {
    let Ok(it) = recover(alloc, disk, MOST) else {
        return Ok(false);
    };
    let counts = [it.winners, it.undone, it.master.floor];
    let wanted = [outcome.winners, outcome.undone, outcome.base];
    Ok(counts == wanted && are_same(alloc, &it.pages, pages)? && do_count(alloc, disk, &it)?)
}

// Whether of each page the slot that is given counts by the new master, holds the page, and has no later version beside it.
fn do_count(alloc: Global, disk: &mut MemDisk, it: &Recovered) -> Result<bool, AllocError> {
    for page in 0..it.master.pages {
        let Ok(seen) = fetch_seen(&mut AreaOf::new(disk, 1), &it.master, page) else {
            return Ok(false);
        };
        let (Some(slot), Some(node)) = (it.slots.get(page as usize), it.pages.get(page as usize))
        else {
            return Ok(false);
        };
        let is_held = is_same(&page_of(alloc, &seen.base.node)?, &page_of(alloc, node)?);
        if seen.ahead || seen.base.slot != *slot || !is_held {
            return Ok(false);
        }
    }
    Ok(true)
}

fn are_same(alloc: Global, some: &[Node], others: &[Node]) -> Result<bool, AllocError> {
    if some.len() != others.len() {
        return Ok(false);
    }
    for (one, other) in some.iter().zip(others) {
        let is_own = one.number() == other.number();
        if !is_own || !is_same(&page_of(alloc, one)?, &page_of(alloc, other)?) {
            return Ok(false);
        }
    }
    Ok(true)
}

/// Whether the opening of the disk stops there.
pub fn stops_so(alloc: Global, disk: &mut MemDisk, stop: &Stop) -> bool {
    match (recover(alloc, disk, MOST), stop) {
        (
            Err(Unrecovered::Damaged { area, place }),
            Stop::Damaged {
                area: at,
                place: of,
            },
        ) => { area == *at && place == *of }
        (Err(Unrecovered::NotFormatted), Stop::NoMaster)
        | (Err(Unrecovered::DiskFault), Stop::DiskFault)
        | (Err(Unrecovered::Memory), Stop::Memory) => true,
        _ => false,
    }
}
