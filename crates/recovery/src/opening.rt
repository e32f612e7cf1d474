// The opening of a disk.
ghost use Rattle.std.specs.Prelude.{◌≡◌, ◌<◌, ◌≤◌, ◌+◌, ◌*◌, ◌%◌, ◌^◌, ℕ, Err, IfErr, IfOk, Some, length, slice_index};
ghost use Rattle.lean_disk.specs.Area.{synced, written};
ghost use Rattle.lean_disk.specs.Faults.{HasCause};
ghost use Rattle.lean_disk.specs.Moments.{CrashIn, Framed, LeavesOnly};
ghost use Rattle.lean_disk.specs.Story.{Tells, areas_of};
ghost use Rattle.master_store.specs.disk_slots.Masters.{master_slot};
ghost use Rattle.master_store.specs.disk_slots.declared.master.Master.{Master};
ghost use Rattle.master_store.specs.disk_image.MasterSlots.{master_on};
ghost use Rattle.master_store.specs.disk_image.Shown.{IsCleanDisk};
ghost use Rattle.master_store.specs.page_store.Runs.{IsReady};
ghost use Rattle.recovery.specs.Crashes.{RecoveryLeaves};
ghost use Rattle.recovery.specs.Masters.{HasOpenable, IsOpenable};
ghost use Rattle.recovery.specs.Installed.{HasInstalled};
ghost use Rattle.recovery.specs.Opened.{HasSlots, IsOpened, IsRecovered, IsRefusal, IsUntouched, IsWhole, Keeps};
ghost use Rattle.master_store.specs.disk_image.Breaks.{IsDamaged};
ghost use Rattle.recovery.specs.Telling.{TellsAll};
ghost use Rattle.recovery.specs.Inside.{AreFormed, AreOwn, IsReadied, SavesAll, SavesEach, saves_to};
ghost use Rattle.master_store.specs.Masters.{WritesOnce};

use crate::master::next_master;
use crate::pages::{save_pages, turn};
use crate::prepare::{Prepared, prepare};
use lean_disk::{AreaOf, Did, Disk};
use master_store::{Master, Node};
use std::alloc::Global;

/// What recovery gives: all pages, by their numbers, and which slot of each counts; how many transactions are committed by the log, and how many were
/// undone; and the master that was written. Its floor is the base number, above which no record and no page is.
#[derive(Drop)]
pub struct Recovered {
    pub pages: Vec<Node>,
    pub slots: Vec<u32>,
    pub winners: u64,
    pub undone: u64,
    pub master: Master,
}

/// Why a disk was not opened.
#[derive(Clone, Copy, Debug, PartialEq, Eq)]
pub enum Unrecovered {
    /// It has no valid master, or one of more logs than the caller can write, or whose numbers are spent.
    NotFormatted,
    /// This place of the area breaks a rule: a page of area 1, a block of log w in area 1 + w.
    Damaged { area: u32, place: u64 },
    DiskFault,
    Memory,
}

fn save_on<D: Disk>(
    disk: &mut D,
    pages: &[Node],
    slots: &[u32],
    marks: &[bool],
    buffer: &mut [u8],
) -> Did
    requires count { length pages.now < 2 ^ 32 }
    requires own { AreOwn pages.now }
    requires slots { length slots.now ≡ length pages.now }
    requires halves { (p : ℕ) → p < length slots.now → slice_index slots.now p < 2 }
    requires marks { length marks.now ≡ length pages.now }
    requires room { length buffer.old ≡ 1024 }
    ensures saves { IsReady 1 (D.story disk.old) → AreFormed pages.now → SavesEach (length pages.now) (D.story disk.old) (saves_to pages.now slots.now marks.now (length pages.now)) result (D.story disk.new) }
    ensures frame { Framed 1 (D.story disk.old) (D.story disk.new) }
    ensures cause { HasCause (D.faults disk.old) (D.faults disk.new) (result ≡ Did.Failed) }
{
    save_pages(&mut AreaOf::new(disk, 1), pages, slots, marks, buffer)
}

// Saves the marked pages to their spare slots and syncs them.
fn save_changed<D: Disk>(disk: &mut D, it: &Prepared) -> Did
    requires { IsReadied it.now }
    ensures saves { IsReady 1 (D.story disk.old) → SavesAll it.now.master.pages (D.story disk.old) (saves_to it.now.pages.items it.now.slots.items it.now.marks.items it.now.master.pages) result (D.story disk.new) }
    ensures frame { Framed 1 (D.story disk.old) (D.story disk.new) }
    ensures cause { HasCause (D.faults disk.old) (D.faults disk.new) (result ≡ Did.Failed) }
{
    let mut buffer = [0; 1024];
    let Did::Done = save_on(disk, &it.pages, &it.slots, &it.marks, &mut buffer) else {
        return Did::Failed;
    };
    disk.sync(1)
}

// Writes the next master and syncs it.
fn write_next<D: Disk>(disk: &mut D, master: &Master) -> Did
    ensures any_moment { LeavesOnly (D.story disk.old) (D.story disk.new) (CrashIn (D.story disk.old) 0
        (WritesOnce (1024 * (master.now.sequence % 2)) (master_slot master.now) ((D.story disk.old).area 0))) }
    ensures frame { Framed 0 (D.story disk.old) (D.story disk.new) }
    ensures done { result ≡ Did.Done → Tells (D.story disk.old) 0 →
        (D.story disk.new).area 0 ≡ synced (written (1024 * (master.now.sequence % 2)) (master_slot master.now) ((D.story disk.old).area 0)) }
    ensures cause { HasCause (D.faults disk.old) (D.faults disk.new) (result ≡ Did.Failed) }
{
    master_store::write_next(&mut AreaOf::new(disk, 0), master)
}

/// Opens a disk: syncs and reads the master, the pages and the logs; redoes and undoes; saves the pages to their spare slots
/// under the next generation; and then writes the next master. The caller can write `most` logs, so a disk of more is not opened.
pub fn recover<D: Disk>(alloc: Global, disk: &mut D, most: u32) -> Result<Recovered, Unrecovered>
    ensures answer { IfOk result (λ r. TellsAll most (D.story disk.old) → (m : Master) × IsOpenable most m × IsRecovered m (areas_of (D.story disk.old)) r) }
    ensures opened { IfOk result (λ r. TellsAll most (D.story disk.old) → (m : Master) → IsCleanDisk m (areas_of (D.story disk.old))
        → IsOpened m (areas_of (D.story disk.old)) r (D.story disk.new)) }
    ensures installed { IfOk result (λ r. TellsAll most (D.story disk.old) → (m : Master) → master_on (areas_of (D.story disk.old) 0) ≡ Some m
        → HasInstalled m r (D.story disk.old) (D.story disk.new)) }
    // Also of a disk that is not clean, and whatever else it tells.
    ensures slots { IfOk result (λ r. Tells (D.story disk.old) 1 → HasSlots r (D.story disk.new)) }
    ensures whole { IfOk result IsWhole }
    ensures few { IfOk result (λ r. length r.master.heads ≤ most) }
    ensures sequence { IfOk result (λ r. r.master.sequence < 2 ^ 61) }
    ensures logs { (a : ℕ) → 1 < a → IsUntouched ((D.story disk.old).area a) ((D.story disk.new).area a) }
    ensures others { (a : ℕ) → 1 + most < a → (D.story disk.new).area a ≡ (D.story disk.old).area a }
    ensures beyond { IfOk result (λ r. (a : ℕ) → 1 + length r.master.heads < a → (D.story disk.new).area a ≡ (D.story disk.old).area a) }
    ensures keeps { Keeps (D.story disk.old) (D.story disk.new) }

    // A disk that is refused is left as it was.
    ensures left { IfErr result (λ why. IsRefusal why → (a : ℕ) → IsUntouched ((D.story disk.old).area a) ((D.story disk.new).area a)) }

    // NotFormatted is answered exactly where no master is there by which it can be opened, whatever else is wrong with it.
    ensures cause_not_formatted { result ≡ Err Unrecovered.NotFormatted → TellsAll most (D.story disk.old) → HasOpenable most (areas_of (D.story disk.old)) → ⊥ }
    ensures formatted { (area place : ℕ) → result ≡ Err (Unrecovered.Damaged area place) → TellsAll most (D.story disk.old) → HasOpenable most (areas_of (D.story disk.old)) }
    ensures cause_damaged { (area place : ℕ) → result ≡ Err (Unrecovered.Damaged area place) → TellsAll most (D.story disk.old) → IsDamaged (areas_of (D.story disk.old)) area place }
    ensures cause_disk_fault { HasCause (D.faults disk.old) (D.faults disk.new) (result ≡ Err Unrecovered.DiskFault) }

    // Whenever it stops, a clean disk stands for the same map.
    ensures any_moment { (m : Master) → TellsAll most (D.story disk.old) → IsCleanDisk m (areas_of (D.story disk.old)) → LeavesOnly (D.story disk.old) (D.story disk.new) (RecoveryLeaves m (D.story disk.old)) }
{
    let it = match prepare(alloc, disk, most) {
        Ok(it) => it,
        Err(error) => return Err(error),
    };
    let Did::Done = save_changed(disk, &it) else {
        return Err(Unrecovered::DiskFault);
    };
    let master = next_master(&it.master, it.base);
    let Did::Done = write_next(disk, &master) else {
        return Err(Unrecovered::DiskFault);
    };
    let slots = turn(it.slots, &it.marks, &it.ahead);
    Ok(Recovered {
        pages: it.pages,
        slots,
        winners: it.winners,
        undone: it.undone,
        master,
    })
}
