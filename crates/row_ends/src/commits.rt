// A commit, behind its tests.
ghost use Rattle.std.specs.Prelude.{◌≡◌, ◌↔◌, ◌<◌, ◌+◌, Err, IsErr, IsOk, IfErr, IfOk, OnOk, true, false, length, replicate};
ghost use Rattle.lean_disk.specs.Faults.{HasCause};
ghost use Rattle.session_state.specs.engine_trait.Serving.{disk_fault};
ghost use Rattle.row_ends.specs.Ends.{HasFlushed, Latched, MayFlush, waiting_session};
ghost use Rattle.row_ends.specs.Outcomes.{Commits, CommitsLatched};
ghost use Rattle.row_ends.specs.Receipts.{IsEnded};
ghost use Rattle.session_state.specs.Holds.{Holds, IsSameSession};
ghost use Rattle.session_state.specs.Others.{Steps};
ghost use Rattle.session_state.specs.Staging.{KeepsLog};

use crate::begins::least_flushed;
use crate::ending::{Ended, close, end_rows};
use crate::latching::latch_held;
use lean_disk::Disk;
use map_model::Refusal;
use session_state::{
    Body, DiskFault, Flushes, Latches, Record, Rows, Session, Unanswered, Unserved, Work, settle,
    wait_for_flush,
};

// It has ended by a commit, which waits for a flush.
fn close_by_commit(session: &mut Session, number: u64)
    requires room { session.old.unflushed < session.old.group }
    ensures { session.new ≡ waiting_session session.old number (session.old.unflushed + 1) }
{
    close(session, number);
    wait_for_flush(session);
}

// Flushes the session's log, up to its clock, which is the number of its last record.
fn flush_log<R: Rows, D: Disk>(
    rows: &mut R,
    seat: &mut R::Seat,
    work: &mut Work<D>,
) -> Result<(), DiskFault>
    requires fits { R.fits rows.old seat.old }
    requires may { MayFlush (R.shape rows.old) (R.view seat.old) work.old.session work.old.log }
    requires works { work.old.session.works ≡ true }
    ensures fits { R.fits rows.new seat.new × (R.shape rows.new ≡ R.shape rows.old) }
    ensures session { IsSameSession work.old.session work.new.session }
    ensures flushed { OnOk result (HasFlushed (R.view seat.old) (R.view seat.new) work.old.session work.new.session work.old.log work.new.log (D.story work.old.disk) (D.story work.new.disk)) }
    ensures keeps { KeepsLog work.old.session.own work.old.log (D.story work.old.disk) (D.story work.new.disk) }
    ensures works { (work.new.session.works ≡ true) ↔ IsOk result }

    ensures cause_disk_fault { HasCause (D.faults work.old.disk) (D.faults work.new.disk) (IsErr result) }
{
    session_state::every_turn();
    let own = work.session.own;
    let number = work.session.clock.clock;
    if let Err(fault) = session_state::flush(&mut work.disk, &mut work.log, own) {
        work.session.works = false;
        return Err(fault);
    }
    rows.store_control(seat, own, 0, number, &Flushes { own, number });
    settle(&mut work.session);
    Ok(())
}

// The commit of a session whose rows are latched: its end, and the flush of its log where it fills the group.
fn finish<R: Rows, D: Disk>(
    rows: &mut R,
    seat: &mut R::Seat,
    work: &mut Work<D>,
    latches: &mut Latches,
) -> Result<Ended, DiskFault>
    requires fits { R.fits rows.old seat.old }
    requires latched { Latched (R.shape rows.old) (R.view seat.old) work.old.session work.old.log latches.old }
    requires is_open { work.old.session.is_open ≡ true }
    requires works { work.old.session.works ≡ true }
    ensures fits { R.fits rows.new seat.new × (R.shape rows.new ≡ R.shape rows.old) }
    ensures holds { work.new.session.works ≡ true → Holds (R.shape rows.new) (R.view seat.new) work.new.session work.new.log }
    ensures session { IsSameSession work.old.session work.new.session }
    ensures unmarked { work.new.session.works ≡ true → latches.new ≡ replicate work.old.session.held.count false }
    ensures commits { CommitsLatched D.story result (R.view seat.old) (R.view seat.new) work.old.session work.new.session work.old.log work.new.log work.old.disk work.new.disk }
    ensures receipt { IfOk result (IsEnded (R.view seat.old) work.new.session) }
    ensures works { (work.new.session.works ≡ true) ↔ IsOk result }

    ensures cause_disk_fault { HasCause (D.faults work.old.disk) (D.faults work.new.disk) (IsErr result) }
{
    session_state::every_turn();
    let own = work.session.own;
    let txn = work.session.txn;
    let number = work.session.clock.clock + 1;
    let floor = least_flushed(rows, seat, work.session.workers);
    let need = work.session.clock.need(floor);
    let entry = Record {
        txn,
        gsn: number,
        body: Body::Commit { need },
    };
    if let Err(fault) = session_state::stage_end(&mut work.disk, &mut work.log, own, &entry) {
        work.session.works = false;
        return Err(fault);
    }
    end_rows(rows, seat, &work.session, latches, true, floor, number);
    close_by_commit(&mut work.session, number);
    let ended = Ended {
        number: txn,
        at: number,
        need,
    };
    if work.session.unflushed < work.session.group {
        return Ok(ended);
    }
    if let Err(fault) = flush_log(rows, seat, work) {
        return Err(fault);
    }
    Ok(ended)
}

/// What a commit does behind its tests: the lock rows that the session holds are latched, its end is staged, the end's number is stored, and the rows are given
/// back. Where so many of its commits wait as make a group, its log is flushed. Where a latch has come to its end, the commit is refused, and all is as it was.
#[inline(never)]
pub fn commit_tested<R: Rows, D: Disk>(
    rows: &mut R,
    seat: &mut R::Seat,
    work: &mut Work<D>,
    latches: &mut Latches,
) -> Result<Ended, Unserved>
    requires fits { R.fits rows.old seat.old }
    requires holds { Holds (R.shape rows.old) (R.view seat.old) work.old.session work.old.log }
    requires unmarked { latches.old ≡ replicate work.old.session.held.count false }
    requires works { work.old.session.works ≡ true }
    requires is_open { work.old.session.is_open ≡ true }
    ensures fits { R.fits rows.new seat.new × (R.shape rows.new ≡ R.shape rows.old) }
    ensures holds { work.new.session.works ≡ true → Holds (R.shape rows.new) (R.view seat.new) work.new.session work.new.log }
    ensures session { IsSameSession work.old.session work.new.session }
    // Whatever happened is of this session.
    ensures steps { work.new.session.works ≡ true → Steps work.old.session.own (R.view seat.old) (R.view seat.new) }
    ensures unmarked { work.new.session.works ≡ true → latches.new ≡ latches.old }
    ensures commits { Commits D.story result (R.view seat.old) (R.view seat.new) work.old.session work.new.session work.old.log work.new.log work.old.disk work.new.disk }
    ensures receipt { IfOk result (IsEnded (R.view seat.old) work.new.session) }
    ensures works { (work.new.session.works ≡ true) ↔ (result ≡ Err disk_fault → ⊥) }

    ensures cause_disk_fault { HasCause (D.faults work.old.disk) (D.faults work.new.disk) (result ≡ Err disk_fault) }
{
    if !latch_held(rows, seat, &work.session, latches, &work.log) {
        return Err(Unserved::Refused(Refusal::RowSpent));
    }
    match finish(rows, seat, work, latches) {
        Ok(ended) => Ok(ended),
        Err(DiskFault) => Err(Unserved::Unanswered(Unanswered::DiskFault)),
    }
}
