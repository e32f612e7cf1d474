// The scan of the logs, log by log and block by block.
ghost use Rattle.std.specs.Prelude.{◌≡◌, ◌<◌, ◌≤◌, ◌+◌, ◌*◌, ◌^◌, [], ℕ, suc, Err, IfOk, OnOk, length};
ghost use Rattle.lean_disk.specs.Faults.{HasCause};
ghost use Rattle.lean_disk.specs.Moments.{OnlyReads};
ghost use Rattle.lean_disk.specs.Story.{Tells, areas_of};
ghost use Rattle.disk_image.specs.disk_slots.Masters.{IsMaster};
ghost use Rattle.log_index.specs.Items.{held};
ghost use Rattle.recovery_scan.specs.Scans.{AreOfLogs, IsBadLog, IsScanned, TellsLogs};
ghost use Rattle.recovery_scan.specs.Inside.{IsGathered, IsScan, Joined};

use crate::block::{Stop, take_block};
use disk_image::Master;
use lean_disk::{AreaOf, Disk, Part, Read};
use log_index::LogIndex;
use std::alloc::Global;

/// Why the logs could not be read.
#[derive(Clone, Copy, Debug, PartialEq, Eq)]
pub enum Unread {
    /// The block at this place of this log is the block of no records, or holds a record whose number is not above those before it.
    Damaged { log: u32, place: u32 },
    DiskFault,
    Memory,
}

// Adds the records of the longest run of a log behind the others, the oldest first.
fn scan_log<P: Part>(
    dev: &mut P,
    master: &Master,
    log: u32,
    buffer: &mut [u8],
    index: &mut LogIndex,
) -> Result<(), Unread>
    requires some { 0 < log }
    requires log { log ≤ length master.now.heads }
    requires master { (slot : ℕ) × IsMaster slot master.now }
    requires seat { (P.seat dev.old).area ≡ suc log }
    requires buffer { length buffer.old ≡ 2048 }
    requires room { held index.old + 2000 * 4096 < 2 ^ 32 }
    ensures found { OnOk result (Joined log index.old index.new (λ added. Tells (P.story dev.old) (suc log) → IsScan master.now log (areas_of (P.story dev.old)) added)) }
    ensures size { OnOk result (held index.new ≤ held index.old + 2000 * 4096) }
    ensures reads { OnlyReads (P.story dev.old) (P.story dev.new) }
    ensures seat { P.seat dev.new ≡ P.seat dev.old }

    ensures cause_damaged { (w place : ℕ) → result ≡ Err (Unread.Damaged w place) → (w ≡ log) × (Tells (P.story dev.old) (suc w) → IsBadLog master.now w (areas_of (P.story dev.old)) place) }
    ensures cause_disk_fault { HasCause (P.faults dev.old) (P.faults dev.new) (result ≡ Err Unread.DiskFault) }
{
    let start = index.len();
    let head = master.heads.head(log);
    let mut count = 0;
    while count < master.blocks {
        let number = head + count as u64;
        let place = (number % master.blocks as u64) as u32;
        let Read::Got(n) = dev.read(2048 * place as u64, buffer) else {
            return Err(Unread::DiskFault);
        };
        match take_block(
            index,
            start,
            master.generation,
            log,
            number,
            place,
            &buffer[..n],
        ) {
            Ok(()) => count += 1,
            Err(Stop::RunEnds) => return Ok(()),
            Err(Stop::Damaged) => return Err(Unread::Damaged { log, place }),
            Err(Stop::Memory) => return Err(Unread::Memory),
        }
    }
    Ok(())
}

fn scan_area<D: Disk>(
    disk: &mut D,
    master: &Master,
    log: u32,
    buffer: &mut [u8],
    index: &mut LogIndex,
) -> Result<(), Unread>
    requires some { 0 < log }
    requires log { log ≤ length master.now.heads }
    requires master { (slot : ℕ) × IsMaster slot master.now }
    requires buffer { length buffer.old ≡ 2048 }
    requires room { held index.old + 2000 * 4096 < 2 ^ 32 }
    ensures found { OnOk result (Joined log index.old index.new (λ added. Tells (D.story disk.old) (suc log) → IsScan master.now log (areas_of (D.story disk.old)) added)) }
    ensures size { OnOk result (held index.new ≤ held index.old + 2000 * 4096) }
    ensures reads { OnlyReads (D.story disk.old) (D.story disk.new) }

    ensures cause_damaged { (w place : ℕ) → result ≡ Err (Unread.Damaged w place) → (w ≡ log) × (Tells (D.story disk.old) (suc w) → IsBadLog master.now w (areas_of (D.story disk.old)) place) }
    ensures cause_disk_fault { HasCause (D.faults disk.old) (D.faults disk.new) (result ≡ Err Unread.DiskFault) }
{
    scan_log(&mut AreaOf::new(disk, 1 + log), master, log, buffer, index)
}

// Adds the records of all logs, one log behind the other.
fn gather_logs<D: Disk>(disk: &mut D, master: &Master, index: &mut LogIndex) -> Result<(), Unread>
    requires master { (slot : ℕ) × IsMaster slot master.now }
    requires empty { index.old ≡ [] }
    ensures found { OnOk result (TellsLogs master.now (D.story disk.old) → IsGathered master.now (areas_of (D.story disk.old)) (length master.now.heads) index.new) }
    ensures logs { OnOk result (AreOfLogs (length master.now.heads) index.new) }
    ensures reads { OnlyReads (D.story disk.old) (D.story disk.new) }

    ensures cause_damaged { (log place : ℕ) → result ≡ Err (Unread.Damaged log place) → (0 < log) × (log ≤ length master.now.heads) × (Tells (D.story disk.old) (suc log) → IsBadLog master.now log (areas_of (D.story disk.old)) place) }
    ensures cause_disk_fault { HasCause (D.faults disk.old) (D.faults disk.new) (result ≡ Err Unread.DiskFault) }
{
    let mut buffer = [0; 2048];
    let mut log = 0;
    while log < master.heads.logs() {
        match scan_area(disk, master, log + 1, &mut buffer, index) {
            Ok(()) => log += 1,
            Err(unread) => return Err(unread),
        }
    }
    Ok(())
}

/// The records of the longest run of each log, by number and then by log. The logs are read in turn, block by block, up to the
/// first one that is damaged.
pub fn scan_logs<D: Disk>(alloc: Global, disk: &mut D, master: &Master) -> Result<LogIndex, Unread>
    requires master { (slot : ℕ) × IsMaster slot master.now }
    ensures found { IfOk result (λ index. TellsLogs master.now (D.story disk.old) → IsScanned master.now (areas_of (D.story disk.old)) index) }
    ensures logs { IfOk result (AreOfLogs (length master.now.heads)) }
    ensures reads { OnlyReads (D.story disk.old) (D.story disk.new) }

    ensures cause_damaged { (log place : ℕ) → result ≡ Err (Unread.Damaged log place) → (0 < log) × (log ≤ length master.now.heads) × (Tells (D.story disk.old) (suc log) → IsBadLog master.now log (areas_of (D.story disk.old)) place) }
    ensures cause_disk_fault { HasCause (D.faults disk.old) (D.faults disk.new) (result ≡ Err Unread.DiskFault) }
{
    let mut index = LogIndex::new(alloc);
    match gather_logs(disk, master, &mut index) {
        Ok(()) => {}
        Err(unread) => return Err(unread),
    }
    match index.sort() {
        Ok(()) => Ok(index),
        Err(_) => Err(Unread::Memory),
    }
}
