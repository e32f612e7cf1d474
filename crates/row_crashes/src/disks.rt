// Disks in memory with two logs: a fresh one, and what is recovered of one.
ghost use Rattle.std.specs.Prelude.{◌≡◌, ◌<◌, ◌≤◌, ◌^◌, length, IfOk};
ghost use Rattle.recovery_scan.specs.Scans.{AreOfLogs};
ghost use Rattle.disk_runs.specs.master_store.Masters.{IsOfSlot};

use disk_runs::{Heads, Master, Node, choose, fetch, save, write_next};
use lean_disk::{AreaOf, Did, Disk, MemDisk};
use log_index::LogIndex;
use recovery_redo::{Failed, Outcome, recover_pages};
use recovery_scan::scan_logs;
use std::alloc::{AllocError, Global};

const TOMBSTONE: u64 = 9223372036854775808;

/// What is recovered: how many records the logs have, the winners, the undone, the greatest number, and the map, key and
/// value in turn.
#[derive(Drop)]
pub(crate) struct Recovered {
    pub(crate) counts: [u64; 4],
    pub(crate) map: Vec<u64>,
}

/// Why a disk was not recovered.
#[derive(Clone, Copy, Debug, PartialEq, Eq)]
pub(crate) enum Stop {
    NoMaster,
    Damaged,
    DiskFault,
    Memory,
}

/// A disk of sixteen pages and two logs of 64 blocks, of which no call has been made yet.
pub(crate) fn fresh_disk(alloc: Global) -> Result<Option<MemDisk>, AllocError> {
    let mut disk = MemDisk::new(alloc, 4)?;
    if !put_pages(&mut disk) || disk.sync(1) != Did::Done || !put_master(&mut disk) {
        return Ok(None);
    }
    Ok(Some(disk.crash(disk.moment(), lean_disk::Choice::NoBytes)?))
}

fn put_master(disk: &mut MemDisk) -> bool {
    let master = Master {
        sequence: 0,
        generation: 0,
        floor: 0,
        pages: 16,
        blocks: 64,
        heads: Heads::new(2),
    };
    write_next(&mut AreaOf::new(disk, 0), &master) == Did::Done
}

// Page 0 is an empty leaf with all keys, and the others are free.
fn put_pages(disk: &mut MemDisk) -> bool {
    if !put_page(disk, &Node::empty_leaf(0, 0, u64::MAX)) {
        return false;
    }
    for number in 1..16 {
        if !put_page(disk, &Node::free(number)) {
            return false;
        }
    }
    true
}

fn put_page(disk: &mut MemDisk, node: &Node) -> bool
    requires { node.now.number < 2 ^ 32 }
{
    let mut buffer = [0; 1024];
    save(&mut AreaOf::new(disk, 1), 0, node, &mut buffer) == Did::Done
}

/// Recovers the disk in memory.
pub(crate) fn read_back(alloc: Global, disk: &mut MemDisk) -> Result<Recovered, Stop> {
    let master = master_of(disk)?;
    let mut pages = pages_of(alloc, disk, &master)?;
    let index = records_of(alloc, disk, &master)?;
    let outcome = redone(alloc, &master, &mut pages, &index)?;
    let Ok(map) = map_of(alloc, &pages) else {
        return Err(Stop::Memory);
    };
    Ok(Recovered {
        counts: [
            index.len() as u64,
            outcome.winners,
            outcome.undone,
            outcome.base,
        ],
        map,
    })
}

fn master_of<D: Disk>(disk: &mut D) -> Result<Master, Stop>
    ensures slot { IfOk result IsOfSlot }
    ensures some { IfOk result (λ master. 0 < length master.heads) }
{
    match choose(&mut AreaOf::new(disk, 0)) {
        Ok(Some(master)) => {
            if master.heads.logs() == 0 {
                return Err(Stop::NoMaster);
            }
            Ok(master)
        }
        Ok(None) => Err(Stop::NoMaster),
        Err(_) => Err(Stop::DiskFault),
    }
}

// The base of each page.
fn pages_of<D: Disk>(alloc: Global, disk: &mut D, master: &Master) -> Result<Vec<Node>, Stop> {
    let mut pages = Vec::new(alloc);
    for page in 0..master.pages {
        let node = page_of(disk, master, page)?;
        match pages.push(node) {
            Ok(()) => {}
            Err(_) => return Err(Stop::Memory),
        }
    }
    Ok(pages)
}

fn page_of<D: Disk>(disk: &mut D, master: &Master, page: u32) -> Result<Node, Stop>
    requires { page < master.now.pages }
{
    match fetch(&mut AreaOf::new(disk, 1), master, page) {
        Ok(base) => Ok(base.node),
        Err(disk_runs::Unread::Damaged) => Err(Stop::Damaged),
        Err(disk_runs::Unread::DiskFault) => Err(Stop::DiskFault),
    }
}

fn records_of<D: Disk>(alloc: Global, disk: &mut D, master: &Master) -> Result<LogIndex, Stop>
    requires { IsOfSlot master.now }
    ensures { IfOk result (AreOfLogs (length master.now.heads)) }
{
    match scan_logs(alloc, disk, master) {
        Ok(index) => Ok(index),
        Err(recovery_scan::Unread::Damaged { .. }) => Err(Stop::Damaged),
        Err(recovery_scan::Unread::DiskFault) => Err(Stop::DiskFault),
        Err(recovery_scan::Unread::Memory) => Err(Stop::Memory),
    }
}

fn redone(
    alloc: Global,
    master: &Master,
    pages: &mut [Node],
    index: &LogIndex,
) -> Result<Outcome, Stop>
    requires some { 0 < length master.now.heads }
    requires of_logs { AreOfLogs (length master.now.heads) index.now }
{
    match recover_pages(alloc, pages, index, master.heads.logs(), master.floor) {
        Ok(outcome) => Ok(outcome),
        Err(Failed::Damaged { .. }) => Err(Stop::Damaged),
        Err(Failed::Memory) => Err(Stop::Memory),
    }
}

// The keys with a value in live leaves, each with its value.
fn map_of(alloc: Global, pages: &[Node]) -> Result<Vec<u64>, AllocError> {
    let mut map = Vec::new(alloc);
    for node in pages {
        if node.is_live() && node.level() == 0 {
            put_values(&mut map, node)?;
        }
    }
    Ok(map)
}

fn put_values(map: &mut Vec<u64>, node: &Node) -> Result<(), AllocError> {
    for i in 0..node.count() {
        let word = node.word_at(i);
        if word != TOMBSTONE {
            map.push(node.key_at(i))?;
            map.push(word)?;
        }
    }
    Ok(())
}
