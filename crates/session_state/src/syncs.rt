// What a sync does to a session: its log is flushed whole, and then its clock is raised.
ghost use Rattle.std.specs.Prelude.{◌≡◌, ◌↔◌, ◌<◌, ◌+◌, IsErr, IsOk, OnOk, true};
ghost use Rattle.btree_descent.specs.core_state.Events as happening;
ghost use Rattle.btree_descent.specs.core_state.Needs.{may};
ghost use Rattle.lean_disk.specs.Faults.{HasCause};
ghost use Rattle.engine_calls.specs.log_calls.Wholes.{EndsInRecord};
ghost use Rattle.btree_descent.specs.row_words.Openings.{opening};
ghost use Rattle.btree_descent.specs.rows_trait.Views.{state};
ghost use Rattle.session_state.specs.Holds.{Holds, IsSameSession};
ghost use Rattle.session_state.specs.Staging.{KeepsLog};
ghost use Rattle.session_state.specs.Syncs.{FlushesOwn, HasNoneBehind, HasSynced, MayFlush, finds_room, synced_session};

use crate::session::Session;
use crate::work::Work;
use btree_descent::{Names, Rows};
use engine_calls::{DiskFault, RESERVE, WorkerLog, flush_whole};
use lean_disk::Disk;

/// The event of a flush of a session's log up to this number.
#[derive(Drop)]
pub struct Flushes {
    pub own: u32,
    pub number: u64,
}

impl Names for Flushes {
    ghost use Rattle.std.specs.Prelude.{[], ◌∷◌};
    ghost use Rattle.btree_descent.specs.row_words.declared.event.Event.TheVariants.{Flush};

    ghost names = { λ s _. Flush s.own s.number ∷ [] };
}

// The event of a sync up to this number.
#[derive(Drop)]
struct Syncs {
    number: u64,
}

impl Names for Syncs {
    ghost use Rattle.std.specs.Prelude.{[], ◌∷◌};
    ghost use Rattle.btree_descent.specs.row_words.declared.event.Event.TheVariants.{Sync};

    ghost names = { λ s _. Sync s.number ∷ [] };
}

/// One more commit of the session's log waits for a flush.
pub fn wait_for_flush(session: &mut Session)
    requires room { session.old.unflushed < session.old.group }
    ensures { session.new ≡ record session.old { unflushed = session.old.unflushed + 1 } }
{
    session.unflushed += 1;
}

/// No commit of it waits any more.
pub fn settle(session: &mut Session)
    ensures { session.new ≡ record session.old { unflushed = 0 } }
{
    session.unflushed = 0;
}

/// Whether all that a session has still to put back finds room behind a flush of its log.
pub fn may_flush(session: &Session, log: &WorkerLog) -> bool
    ensures { result ≡ finds_room session.now log.now }
{
    // The numbers are in their ranges.
    log.last();
    session.undo.few();
    let many = session.undo.len() as u32;
    many == 0 || 1900 * log.used() + (64 * many + 2064) <= 1900 * (log.limit() + RESERVE)
}

/// Flushes all that the session's log has, if something of it is not flushed yet. The last of it is a record then. The flush may take a block, so what the
/// session has still to put back has to find room behind it.
pub fn flush_own<R: Rows, D: Disk>(
    rows: &mut R,
    seat: &mut R::Seat,
    work: &mut Work<D>,
) -> Result<(), DiskFault>
    requires fits { R.fits rows.old seat.old }
    requires holds { Holds (R.shape rows.old) (R.view seat.old) work.old.session work.old.log }
    requires works { work.old.session.works ≡ true }
    requires ends { EndsInRecord (state (R.view seat.old)).core work.old.session.own work.old.log }
    requires last { HasNoneBehind (state (R.view seat.old)).core work.old.session.own work.old.log }
    requires room { MayFlush work.old.session work.old.log }
    ensures fits { R.fits rows.new seat.new × (R.shape rows.new ≡ R.shape rows.old) }
    ensures holds { OnOk result (Holds (R.shape rows.new) (R.view seat.new) work.new.session work.new.log) }
    // Also where the device failed.
    ensures session { IsSameSession work.old.session work.new.session }
    ensures flushes { OnOk result (FlushesOwn (R.view seat.old) (R.view seat.new) work.old.session work.new.session work.old.log work.new.log (D.story work.old.disk) (D.story work.new.disk)) }
    ensures keeps { KeepsLog work.old.session.own work.old.log (D.story work.old.disk) (D.story work.new.disk) }
    ensures works { (work.new.session.works ≡ true) ↔ IsOk result }

    ensures cause_disk_fault { HasCause (D.faults work.old.disk) (D.faults work.new.disk) (IsErr result) }
{
    btree_descent::every_turn();
    let own = work.session.own;
    let number = work.log.last();
    let flushed = work.log.flushed();
    if let Err(fault) = flush_whole(&mut work.disk, &mut work.log, own) {
        work.session.works = false;
        return Err(fault);
    }
    if number == flushed {
        return Ok(());
    }
    rows.store_control(seat, own, 0, number, &Flushes { own, number });
    settle(&mut work.session);
    Ok(())
}

/// All logs are synced up to this number: it is stored as what each has flushed.
pub fn store_synced<R: Rows>(rows: &mut R, seat: &mut R::Seat, number: u64)
    requires fits { R.fits rows.old seat.old }
    requires alone { (R.shape rows.old).alone ≡ true }
    requires met { may (opening (R.view seat.old).given) (state (R.view seat.old)).core (happening.Event.Sync number) ≡ true }
    ensures fits { R.fits rows.new seat.new × (R.shape rows.new ≡ R.shape rows.old) }
    ensures synced { HasSynced (R.view seat.old) (R.view seat.new) number }
{
    rows.store_flushed(seat, number, &Syncs { number });
}

impl Session {
    /// All logs were synced up to this number.
    pub fn synced(&mut self, number: u64)
        ensures { self.new ≡ synced_session self.old number }
    {
        self.clock.clock = number;
        self.unflushed = 0;
    }
}
