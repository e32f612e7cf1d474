// Recovery by the engine's parts, on a disk in memory.
ghost use Rattle.std.specs.Prelude.{◌≡◌, ◌<◌, ◌≤◌, length, IfOk};
ghost use Rattle.std.proofs.Props.{props};
ghost use Rattle.recovery_scan.specs.Scans.{AreOfLogs};
ghost use Rattle.master_store.specs.Masters.{IsOfSlot};

use lean_disk::{AreaOf, Disk};
use log_index::LogIndex;
use master_store::{Master, Node, choose, fetch};
use recovery_redo::{Failed, Outcome, recover_pages};
use recovery_scan::{Unread, scan_logs};
use std::alloc::Global;

/// Why a disk was not recovered.
#[derive(Drop)]
pub enum Stop {
    Damaged { area: u32, place: u64 },
    NoMaster,
    DiskFault,
    Memory,
}

/// What was read of a disk: the floor and how many logs there are, the bases of the pages, and the records of the logs.
#[derive(Drop)]
pub struct Opened {
    pub floor: u64,
    pub logs: u32,
    pub pages: Vec<Node>,
    pub index: LogIndex,
    ghost some: { (0 < logs) × (logs ≤ 16) },
    ghost of_logs: { AreOfLogs logs index } by { Prim.hlevel props },
}

/// Reads the master, the pages and the logs of a disk.
pub fn read_disk<D: Disk>(alloc: Global, disk: &mut D) -> Result<Opened, Stop> {
    let master = read_master(disk)?;
    let pages = read_pages(alloc, disk, &master)?;
    let index = read_logs(alloc, disk, &master)?;
    Ok(Opened {
        floor: master.floor,
        logs: master.heads.logs(),
        pages,
        index,
    })
}

/// Recovers the pages in place.
pub fn recover(alloc: Global, opened: &mut Opened) -> Result<Outcome, Stop> {
    match recover_pages(
        alloc,
        &mut opened.pages,
        &opened.index,
        opened.logs,
        opened.floor,
    ) {
        Ok(outcome) => Ok(outcome),
        Err(Failed::Damaged { area, place }) => Err(Stop::Damaged { area, place }),
        Err(Failed::Memory) => Err(Stop::Memory),
    }
}

fn read_master<D: Disk>(disk: &mut D) -> Result<Master, Stop>
    ensures slot { IfOk result IsOfSlot }
    ensures some { IfOk result (λ master. 0 < length master.heads) }
{
    match choose(&mut AreaOf::new(disk, 0)) {
        Ok(Some(master)) => {
            if master.heads.logs() == 0 {
                return Err(Stop::NoMaster);
            }
            Ok(master)
        }
        Ok(None) => Err(Stop::NoMaster),
        Err(_) => Err(Stop::DiskFault),
    }
}

// The base of each page.
fn read_pages<D: Disk>(alloc: Global, disk: &mut D, master: &Master) -> Result<Vec<Node>, Stop> {
    let mut pages = Vec::new(alloc);
    for page in 0..master.pages {
        let node = read_page(disk, master, page)?;
        match pages.push(node) {
            Ok(()) => {}
            Err(_) => return Err(Stop::Memory),
        }
    }
    Ok(pages)
}

fn read_page<D: Disk>(disk: &mut D, master: &Master, page: u32) -> Result<Node, Stop>
    requires { page < master.now.pages }
{
    match fetch(&mut AreaOf::new(disk, 1), master, page) {
        Ok(base) => Ok(base.node),
        Err(master_store::Unread::Damaged) => Err(Stop::Damaged {
            area: 1,
            place: u64::from(page),
        }),
        Err(master_store::Unread::DiskFault) => Err(Stop::DiskFault),
    }
}

fn read_logs<D: Disk>(alloc: Global, disk: &mut D, master: &Master) -> Result<LogIndex, Stop>
    requires { IsOfSlot master.now }
    ensures { IfOk result (AreOfLogs (length master.now.heads)) }
{
    match scan_logs(alloc, disk, master) {
        Ok(index) => Ok(index),
        Err(Unread::Damaged { log, place }) => Err(Stop::Damaged {
            area: log.saturating_add(1),
            place: u64::from(place),
        }),
        Err(Unread::DiskFault) => Err(Stop::DiskFault),
        Err(Unread::Memory) => Err(Stop::Memory),
    }
}
