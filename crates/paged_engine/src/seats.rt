// The sessions of a machine that is opened, each with its empty log.
ghost use Rattle.std.specs.Prelude.{◌≡◌, ◌≤◌, [], IfOk};
ghost use Rattle.page_model.specs.Limits.{most_sessions};
ghost use Rattle.paged_desks.specs.master_store.Masters.{IsOfSlot};
ghost use Rattle.paged_engine.specs.Openings.{AreFurther, IsFurther, IsMadeBy};
ghost use Rattle.paged_engine.specs.Inside.{HasSeats, IsFirstOf};

use crate::opening::Size;
use paged_desks::{
    Clock, Desk, FreePages, HeldRows, Latches, Master, Session, UndoList, WorkerLog,
    further_session,
};
use std::alloc::{AllocError, Global};

/// The first session with its log, those at the other desks, and the marks of latched lock rows.
#[derive(Drop)]
pub(crate) struct Seats {
    pub first: Desk,
    pub desks: Vec<Desk>,
    pub latches: Latches,
}

// The empty log of this number.
fn new_log(alloc: Global, master: &Master, number: u32) -> Result<WorkerLog, AllocError>
    requires valid { IsOfSlot master.now }
    requires number { (1 ≤ number) × (number ≤ most_sessions) }
    ensures { IfOk result (IsMadeBy master.now number) }
{
    WorkerLog::new(
        alloc,
        master.generation,
        number,
        master.blocks,
        0,
        master.floor,
    )
}

// The first session, which has done nothing, where all is flushed up to the master's floor.
fn first_session(
    alloc: Global,
    master: &Master,
    free: FreePages,
    size: Size,
) -> Result<Session, AllocError>
    requires group { 1 ≤ size.group }
    ensures { IfOk result (IsFirstOf size master.now free) }
{
    Ok(Session {
        own: 1,
        workers: master.heads.logs(),
        group: size.group,
        works: true,
        is_open: false,
        is_half_aborted: false,
        txn: 0,
        clock: Clock::new(master.floor),
        end: master.floor,
        unflushed: 0,
        frames: size.frames,
        first: None,
        undo: UndoList::new(alloc)?,
        held: HeldRows::new(alloc, size.rows)?,
        free,
    })
}

// The desk of a further session.
fn further_desk(
    alloc: Global,
    master: &Master,
    first: &Session,
    number: u32,
) -> Result<Desk, AllocError>
    requires valid { IsOfSlot master.now }
    requires number { (1 ≤ number) × (number ≤ most_sessions) }
    requires undo { first.now.undo ≡ [] }
    requires held { first.now.held.rows ≡ [] }
    ensures { IfOk result (IsFurther master.now first.now number) }
{
    Ok(Desk {
        session: further_session(alloc, number, first)?,
        log: new_log(alloc, master, number)?,
    })
}

// A desk for each further session.
fn further_desks(alloc: Global, master: &Master, first: &Session) -> Result<Vec<Desk>, AllocError>
    requires valid { IsOfSlot master.now }
    requires workers { (1 ≤ first.now.workers) × (first.now.workers ≤ most_sessions) }
    requires undo { first.now.undo ≡ [] }
    requires held { first.now.held.rows ≡ [] }
    ensures { IfOk result (λ desks. AreFurther master.now first.now desks.items) }
{
    let mut desks = Vec::with_capacity(alloc, first.workers as usize)?;
    for number in 2..first.workers + 1 {
        desks.push_reserved(further_desk(alloc, master, first, number)?);
    }
    Ok(desks)
}

/// A session for each log of the master, the first of which has the turn and these free pages.
pub(crate) fn seat_sessions(
    alloc: Global,
    master: &Master,
    free: FreePages,
    size: Size,
) -> Result<Seats, AllocError>
    requires valid { IsOfSlot master.now }
    requires group { 1 ≤ size.group }
    ensures { IfOk result (HasSeats size master.now free) }
{
    let session = first_session(alloc, master, free, size)?;
    let desks = further_desks(alloc, master, &session)?;
    let log = new_log(alloc, master, 1)?;
    let latches = Latches::new(alloc, size.rows)?;
    Ok(Seats {
        first: Desk { session, log },
        desks,
        latches,
    })
}
