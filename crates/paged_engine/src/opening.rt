// The opening of a machine with its pager.
ghost use Rattle.std.specs.Prelude.{◌≡◌, ◌≤◌, ℕ, IfErr, IfOk, MatchResult};
ghost use Rattle.page_model.specs.Limits.{most_sessions};
ghost use Rattle.lean_disk.specs.Faults.{HasCause};
ghost use Rattle.recovery.specs.Opened.{IsRefusal, IsUntouched};
ghost use Rattle.recovery.specs.declared.opening.Unrecovered.{Unrecovered};
ghost use Rattle.paged_desks.specs.Machines.{IsReady};
ghost use Rattle.paged_engine.specs.Openings.{HasOpened, OpenKeeps, Shows};

use crate::seats::{Seats, seat_sessions};
use lean_disk::Disk;
use paged_desks::{Desk, PagedMachine, SessionDesksMachine as Machine, Staged, Work};
use recovery::Unrecovered;
use std::alloc::Global;
use std::marker::Brand;

/// How large a machine is: how many frames there are for its pages; how many lock rows, which keys share; how many commits of a session are flushed at
/// once; and how many sessions there may be, one for each log of the disk.
#[derive(Clone, Copy, Debug, PartialEq, Eq)]
pub struct Size {
    pub frames: u32,
    pub rows: u32,
    pub group: u32,
    pub sessions: u32,
}

/// A machine on a disk that was opened, and the counts of recovery.
pub struct Opened<D> {
    pub machine: PagedMachine<D>,
    pub winners: u64,
    pub undone: u64,
}

/// A disk that was not opened, and why.
pub struct Unopened<D> {
    pub disk: D,
    pub reason: Unrecovered,
}

/// Opens a disk, for a machine so large: recovers it, and leaves all pages but page 0 on it.
pub fn open<D: Disk>(alloc: Global, mut disk: D, size: Size) -> Result<Opened<D>, Unopened<D>>
    requires frames { (32 ≤ size.frames) × (size.frames ≤ 4096) }
    requires rows { (1 ≤ size.rows) × (size.rows ≤ 65536) }
    requires group { 1 ≤ size.group }
    requires sessions { size.sessions ≤ most_sessions }
    ensures opened { IfOk result (λ o. HasOpened D.story size (D.story disk) o.machine o.winners o.undone) }
    ensures ready { IfOk result (λ o. IsReady D.story o.machine) }
    ensures keeps { MatchResult result (λ o. OpenKeeps size.sessions (D.story disk) (D.story o.machine.machine.work.disk)) (λ u. OpenKeeps size.sessions (D.story disk) (D.story u.disk)) }

    // A disk that is refused is left as it was.
    ensures left { IfErr result (λ u. IsRefusal u.reason → (a : ℕ) → IsUntouched ((D.story disk).area a) ((D.story u.disk).area a)) }
    ensures shown { IfErr result (λ u. Shows size.sessions (D.story disk) u.reason) }
    ensures cause_disk_fault { IfErr result (λ u. HasCause (D.faults disk) (D.faults u.disk) (u.reason ≡ Unrecovered.DiskFault)) }
    ensures no_fault { IfOk result (λ o. D.faults o.machine.machine.work.disk ≡ D.faults disk) }
{
    paged_desks::every_undone();
    recovery::every_own();
    paged_desks::every_opened();
    paged_desks::every_reached();
    paged_desks::every_sound();
    paged_desks::every_begun();
    let opened = match paged_opening::open(
        alloc,
        &mut disk,
        size.frames,
        size.rows,
        size.sessions,
    ) {
        Ok(opened) => opened,
        Err(reason) => return Err(Unopened { disk, reason }),
    };
    paged_desks::disk_runs_every_opened(&disk);
    let paged_opening::Opened {
        rows,
        seat,
        pager,
        free,
        master,
        winners,
        undone,
    } = opened;
    let Ok(made) = seat_sessions(alloc, &master, free, size) else {
        return Err(Unopened {
            disk,
            reason: Unrecovered::Memory,
        });
    };
    let Seats {
        first,
        desks,
        latches,
    } = made;
    let Desk { session, log } = first;
    let work = Work {
        disk,
        log,
        session,
        staged: Staged::of::<Brand>(),
    };
    let machine = Machine {
        rows,
        seat,
        work,
        desks,
        latches,
        master,
    };
    Ok(Opened {
        machine: PagedMachine { machine, pager },
        winners,
        undone,
    })
}
