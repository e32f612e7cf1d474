// The scan of logs in memory, and redo and undo of what they tell.
ghost use Rattle.std.specs.Prelude.{◌≤◌, ◌<◌, ℕ, IfOk, IfSome, length};
ghost use Rattle.disk_slots.specs.Masters.{IsMaster};
ghost use Rattle.recovery_scan.specs.Scans.{AreOfLogs};

use crate::history::{GENERATION, PAGES, areas, pages};
use btree_node::Node;
use disk_slots::{Heads, Master, master_bytes, read_master};
use lean_disk::MemDisk;
use log_block::valid_run;
use log_index::LogIndex;
use recovery_redo::recover_pages;
use recovery_scan::scan_logs;
use std::alloc::Global;
use std::io;
use std::time::Instant;

/// What was found and made of the pages, and the microseconds that the seals alone, the scan, and redo and undo took.
#[derive(Drop)]
pub struct Recovered {
    pub blocks: u64,
    pub records: usize,
    pub undone: u64,
    pub words: u64,
    pub seals: u128,
    pub scan: u128,
    pub redo: u128,
}

/// The recovery of so many logs of so many blocks, half of whose transactions are undone.
pub fn recovery(rt: &HostRuntime, logs: u32, blocks: u32) -> io::Result<Recovered>
    requires logs { (0 < logs) × (logs ≤ 16) }
{
    let alloc = rt.alloc();
    let Some(master) = master_of(logs, blocks) else {
        return Err(io::Error::from(io::ErrorKind::InvalidInput));
    };
    let mut disk = MemDisk::from_areas(alloc, areas(alloc, logs, blocks)?)?;
    let mut pages = pages(alloc)?;

    let (sealed, seals) = seals(rt, &disk, logs, blocks)?;
    let (index, scan) = scan(rt, &mut disk, &master)?;
    let (undone, redo) = redo(rt, &mut pages, &index, &master)?;
    Ok(Recovered {
        blocks: sealed,
        records: index.len(),
        undone,
        words: words_of(&pages),
        seals,
        scan,
        redo,
    })
}

// How many blocks the runs of the logs have, and how long their seals take.
fn seals(rt: &HostRuntime, disk: &MemDisk, logs: u32, blocks: u32) -> io::Result<(u64, u128)>
    requires { logs ≤ 16 }
{
    let start = Instant::now(rt)?;
    let sealed = sealed_blocks(disk, logs, blocks);
    Ok((sealed, start.elapsed(rt)?.as_micros()))
}

// The records of the logs, and how long their scan takes.
fn scan(rt: &HostRuntime, disk: &mut MemDisk, master: &Master) -> io::Result<(LogIndex, u128)>
    requires { IsMaster 0 master.now }
    ensures { IfOk result (λ found. AreOfLogs (length master.now.heads) found.0) }
{
    let start = Instant::now(rt)?;
    let Ok(index) = scan_logs(rt.alloc(), disk, master) else {
        return Err(io::Error::from(io::ErrorKind::InvalidData));
    };
    Ok((index, start.elapsed(rt)?.as_micros()))
}

// How many transactions were undone, and how long redo and undo take.
fn redo(
    rt: &HostRuntime,
    pages: &mut [Node],
    index: &LogIndex,
    master: &Master,
) -> io::Result<(u64, u128)>
    requires logs { 0 < length master.now.heads }
    requires of_logs { AreOfLogs (length master.now.heads) index.now }
{
    let logs = master.heads.logs();
    let start = Instant::now(rt)?;
    let Ok(outcome) = recover_pages(rt.alloc(), pages, index, logs, master.floor) else {
        return Err(io::Error::from(io::ErrorKind::InvalidData));
    };
    Ok((outcome.undone, start.elapsed(rt)?.as_micros()))
}

// A master of so many logs, which have this room each.
fn master_of(logs: u32, blocks: u32) -> Option<Master>
    requires { logs ≤ 16 }
    ensures { IfSome result (IsMaster 0) }
{
    let master = Master {
        sequence: 2,
        generation: GENERATION,
        floor: 0,
        pages: PAGES as u32,
        blocks,
        heads: Heads::new(logs),
    };
    let mut slot = [0; 1024];
    master_bytes(&master, &mut slot);
    read_master(0, &slot).ok()
}

// How many blocks the runs of the logs have: the seals alone.
fn sealed_blocks(disk: &MemDisk, logs: u32, blocks: u32) -> u64
    requires { logs ≤ 16 }
{
    let mut sum = 0u64;
    for log in 1..logs + 1 {
        let run = valid_run(GENERATION, log, 0, blocks, disk.bytes(1 + log));
        sum = sum.wrapping_add(u64::from(run));
    }
    sum
}

// What the words of all pages add up to, each page's number counting by its last change.
fn words_of(pages: &[Node]) -> u64 {
    let mut sum = 0u64;
    for page in pages {
        sum = sum.wrapping_mul(31).wrapping_add(page.gsn());
        for word in page.pairs() {
            sum = sum.wrapping_add(*word);
        }
    }
    sum
}
