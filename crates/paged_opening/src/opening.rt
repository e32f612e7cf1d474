// An opening of which page 0 alone is in a frame.
ghost use Rattle.std.specs.Prelude.{◌≡◌, ◌<◌, ◌≤◌, ◌+◌, ◌^◌, ℕ, Err, IfErr, IfOk, length};
ghost use Rattle.lean_disk.specs.Faults.{HasCause};
ghost use Rattle.lean_disk.specs.Moments.{LeavesOnly};
ghost use Rattle.lean_disk.specs.Story.{Tells, areas_of};
ghost use Rattle.session_state.specs.disk_slots.declared.master.Master.{Master};
ghost use Rattle.session_state.specs.disk_image.Breaks.{IsDamaged};
ghost use Rattle.session_state.specs.disk_image.Shown.{IsCleanDisk};
ghost use Rattle.session_state.specs.rows_trait.Views.{state};
ghost use Rattle.page_calls.specs.Mirrors.{IsMirror};
ghost use Rattle.recovery.specs.Crashes.{RecoveryLeaves};
ghost use Rattle.recovery.specs.Masters.{HasOpenable};
ghost use Rattle.recovery.specs.Opened.{IsRefusal, IsUntouched, IsWhole, Keeps};
ghost use Rattle.recovery.specs.Telling.{TellsAll};
ghost use Rattle.recovery.specs.declared.opening.Unrecovered.{Unrecovered};
ghost use Rattle.paged_opening.specs.Opened.{HasOpened, IsPaged};

use crate::cold::cold_pages_of;
use crate::free::free_pages_of;
use crate::pages::are_pages;
use lean_disk::Disk;
use page_calls::Slots;
use page_provider::Pager;
use recovery::{Recovered, Unrecovered, recover};
use session_state::{Faith, FreePages, Master, PlainRows, Trace, open_root};
use std::alloc::{AllocError, Global};
use std::marker::Brand;

/// Rows of which page 0 alone is in a frame, their seat, and the pager that brings the others in from the disk; the pages that are
/// free, as a session has them; the master that recovery wrote, and its counts of transactions.
#[derive(Drop)]
pub struct Opened {
    pub rows: PlainRows,
    pub seat: Trace,
    pub pager: Pager,
    pub free: FreePages,
    pub master: Master,
    pub winners: u64,
    pub undone: u64,
}

// Rows and their pager from what recovery gave. The pages are let go: but for page 0 they are on the disk alone. The disk
// stands here for the proof alone.
fn page_in<D: Disk, F: Faith>(
    alloc: Global,
    disk: &D,
    recovered: Recovered,
    frames: u32,
    locks: u32,
) -> Result<Opened, AllocError>
    requires whole { IsWhole recovered }
    requires frames { 1 ≤ frames }
    requires few { frames + locks + length recovered.master.heads < 2 ^ 32 }
    ensures { IfOk result (IsPaged F.faithful frames locks recovered) }
{
    session_state::every_opened();
    page_provider::every_fresh();
    cold_pages::every_new();
    cold_pages::every_kept();
    are_pages(&recovered);
    let Recovered {
        pages,
        slots,
        winners,
        undone,
        master,
    } = recovered;
    let workers = master.heads.logs();
    let (rows, seat) = open_root::<F>(
        alloc,
        pages.as_slice(),
        frames,
        locks,
        workers,
        master.floor,
    )?;
    let marks = free_pages_of(alloc, pages.as_slice())?;
    let slots = Slots::new(alloc, slots.as_slice())?;
    let kept = cold_pages_of(alloc, pages.as_slice())?;
    let generation = master.generation;
    let pager = Pager::new(alloc, frames, workers, generation, marks, slots, kept)?;
    let free = FreePages::new(alloc, pages.as_slice())?;
    Ok(Opened {
        rows,
        seat,
        pager,
        free,
        master,
        winners,
        undone,
    })
}

/// Opens a disk for rows with so many frames and lock rows, and a log for each of at most so many sessions: recovers it, and
/// leaves all pages but page 0 on it. What is refused is recovery's to refuse, and memory.
pub fn open<D: Disk>(
    alloc: Global,
    disk: &mut D,
    frames: u32,
    locks: u32,
    sessions: u32,
) -> Result<Opened, Unrecovered>
    requires frames { 1 ≤ frames }
    requires few { frames + locks + sessions < 2 ^ 32 }
    ensures opened { IfOk result (HasOpened frames locks sessions (D.story disk.old) (D.story disk.new)) }
    // Also of a disk that is not clean: wherever the rows begin faithful.
    ensures mirrors { IfOk result (λ o. Tells (D.story disk.old) 1 → IsMirror o.pager.slots o.pager.generation (state o.seat.view).core.saved (D.story disk.new)) }
    ensures logs { (a : ℕ) → 1 < a → IsUntouched ((D.story disk.old).area a) ((D.story disk.new).area a) }
    ensures others { (a : ℕ) → 1 + sessions < a → (D.story disk.new).area a ≡ (D.story disk.old).area a }
    ensures keeps { Keeps (D.story disk.old) (D.story disk.new) }

    // A disk that is refused is left as it was.
    ensures left { IfErr result (λ why. IsRefusal why → (a : ℕ) → IsUntouched ((D.story disk.old).area a) ((D.story disk.new).area a)) }

    // What recovery says of each refusal.
    ensures cause_not_formatted { result ≡ Err Unrecovered.NotFormatted → TellsAll sessions (D.story disk.old) → HasOpenable sessions (areas_of (D.story disk.old)) → ⊥ }
    ensures formatted { (area place : ℕ) → result ≡ Err (Unrecovered.Damaged area place) → TellsAll sessions (D.story disk.old) → HasOpenable sessions (areas_of (D.story disk.old)) }
    ensures cause_damaged { (area place : ℕ) → result ≡ Err (Unrecovered.Damaged area place) → TellsAll sessions (D.story disk.old) → IsDamaged (areas_of (D.story disk.old)) area place }
    ensures cause_disk_fault { HasCause (D.faults disk.old) (D.faults disk.new) (result ≡ Err Unrecovered.DiskFault) }

    // Whenever it stops, a clean disk stands for the same map.
    ensures any_moment { (m : Master) → TellsAll sessions (D.story disk.old) → IsCleanDisk m (areas_of (D.story disk.old)) → LeavesOnly (D.story disk.old) (D.story disk.new) (RecoveryLeaves m (D.story disk.old)) }
{
    session_state::every_whole();
    let recovered = match recover(alloc, disk, sessions) {
        Ok(recovered) => recovered,
        Err(reason) => return Err(reason),
    };
    let Ok(opened) = page_in::<D, Brand>(alloc, disk, recovered, frames, locks) else {
        return Err(Unrecovered::Memory);
    };
    Ok(opened)
}
