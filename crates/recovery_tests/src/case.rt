// What comes of a disk, in words.
use crate::comparison::agrees;
use crate::engine::{Opened, Stop, read_disk, recover};
use crate::opening::{is_left, opens_so, stops_so};
use crate::plain::image_of;
use lean_disk::MemDisk;
use master_store::Node;
use recovery_redo::Outcome;
use std::alloc::{AllocError, Global};

// The end of a line where the opening of the disk gave something else than its parts.
const OTHERWISE: &str = " differs from recover";

/// What comes of the disk with these areas.
pub fn line_of(alloc: Global, areas: Vec<Vec<u8>>) -> Result<String, AllocError> {
    if areas.is_empty() {
        return stop_line(alloc, &Stop::NoMaster);
    }
    let mut disk = MemDisk::from_areas(alloc, areas)?;
    match read_disk(alloc, &mut disk) {
        Ok(opened) => recovered_line(alloc, opened, &mut disk),
        Err(stop) => stopped_line(alloc, &stop, &mut disk),
    }
}

// What comes of a disk that was not read, and whether its opening tells otherwise.
fn stopped_line(alloc: Global, stop: &Stop, disk: &mut MemDisk) -> Result<String, AllocError> {
    let mut line = stop_line(alloc, stop)?;
    if !stops_so(alloc, disk, stop) {
        line.push_str(OTHERWISE)?;
    }
    Ok(line)
}

// What comes of what was read of the disk, and whether the plain program or the disk's opening tells otherwise.
fn recovered_line(
    alloc: Global,
    mut opened: Opened,
    disk: &mut MemDisk,
) -> Result<String, AllocError> {
    let image = image_of(alloc, &opened)?;
    let recovered = recover(alloc, &mut opened);
    let mut line = match &recovered {
        Ok(outcome) => outcome_line(alloc, &opened.pages, outcome)?,
        Err(stop) => stop_line(alloc, stop)?,
    };
    if !agrees(alloc, &image, &opened, &recovered)? {
        line.push_str(" differs from plain_images")?;
    }
    if !is_left(alloc, disk, opened.logs)? || !is_opened(alloc, disk, &opened.pages, &recovered)? {
        line.push_str(OTHERWISE)?;
    }
    Ok(line)
}

// Whether its opening gives what its parts gave.
fn is_opened(
    alloc: Global,
    disk: &mut MemDisk,
    pages: &[Node],
    recovered: &Result<Outcome, Stop>,
) -> Result<bool, AllocError> {
    match recovered {
        Ok(outcome) => opens_so(alloc, disk, outcome, pages),
        Err(stop) => Ok(stops_so(alloc, disk, stop)),
    }
}

fn stop_line(alloc: Global, stop: &Stop) -> Result<String, AllocError> {
    match stop {
        Stop::Damaged { area, place } => format!(in alloc; "damaged {area} {place}"),
        Stop::NoMaster => "no master".to_string(alloc),
        Stop::DiskFault => "disk fault".to_string(alloc),
        Stop::Memory => "no memory".to_string(alloc),
    }
}

// The counts, and the pages that are not free.
fn outcome_line(alloc: Global, pages: &[Node], outcome: &Outcome) -> Result<String, AllocError> {
    let mut line = String::new(alloc);
    line.push_str("winners")?;
    put_number(&mut line, outcome.winners)?;
    line.push_str(" undone")?;
    put_number(&mut line, outcome.undone)?;
    line.push_str(" base")?;
    put_number(&mut line, outcome.base)?;
    for page in pages {
        if page.is_live() {
            put_page(&mut line, page)?;
        }
    }
    Ok(line)
}

fn put_page(line: &mut String, page: &Node) -> Result<(), AllocError> {
    line.push_str(" page")?;
    let numbers = [
        page.number(),
        page.gsn(),
        u64::from(page.last_log()),
        u64::from(page.level()),
        page.low(),
        page.high(),
        page.count() as u64,
    ];
    for number in numbers.iter().chain(page.pairs()) {
        put_number(line, *number)?;
    }
    Ok(())
}

fn put_number(line: &mut String, number: u64) -> Result<(), AllocError> {
    write!(line, " {number}")
}
