// The end of an abort, behind all that it puts back.
ghost use Rattle.std.specs.Prelude.{◌≡◌, ◌↔◌, Err, IsErr, IsOk, IfOk, true, false, [], replicate};
ghost use Rattle.lean_disk.specs.Faults.{HasCause};
ghost use Rattle.session_state.specs.engine_trait.Serving.{disk_fault};
ghost use Rattle.row_ends.specs.Ends.{Latched};
ghost use Rattle.row_ends.specs.Outcomes.{Aborts, AbortsLatched};
ghost use Rattle.row_ends.specs.Receipts.{IsEnded};
ghost use Rattle.session_state.specs.Holds.{Holds, IsSameSession};
ghost use Rattle.session_state.specs.Others.{Steps};

use crate::begins::least_flushed;
use crate::ending::{Ended, close, end_rows};
use crate::latching::latch_held;
use lean_disk::Disk;
use map_model::Refusal;
use session_state::{Body, DiskFault, Latches, Record, Rows, Unanswered, Unserved, Work};

// The end of a session whose changes are put back and whose rows are latched.
fn finish<R: Rows, D: Disk>(
    rows: &mut R,
    seat: &mut R::Seat,
    work: &mut Work<D>,
    latches: &mut Latches,
) -> Result<Ended, DiskFault>
    requires fits { R.fits rows.old seat.old }
    requires latched { Latched (R.shape rows.old) (R.view seat.old) work.old.session work.old.log latches.old }
    requires is_open { work.old.session.is_open ≡ true }
    requires works { work.old.session.works ≡ true }
    requires left { work.old.session.undo ≡ [] }
    ensures fits { R.fits rows.new seat.new × (R.shape rows.new ≡ R.shape rows.old) }
    ensures holds { work.new.session.works ≡ true → Holds (R.shape rows.new) (R.view seat.new) work.new.session work.new.log }
    ensures session { IsSameSession work.old.session work.new.session }
    ensures unmarked { work.new.session.works ≡ true → latches.new ≡ replicate work.old.session.held.count false }
    ensures aborts { AbortsLatched result (R.view seat.old) (R.view seat.new) work.old.session work.new.session work.old.log work.new.log (D.story work.old.disk) (D.story work.new.disk) }
    ensures receipt { IfOk result (IsEnded (R.view seat.old) work.new.session) }
    ensures works { (work.new.session.works ≡ true) ↔ IsOk result }

    ensures cause_disk_fault { HasCause (D.faults work.old.disk) (D.faults work.new.disk) (IsErr result) }
{
    session_state::every_turn();
    let own = work.session.own;
    let txn = work.session.txn;
    let number = work.session.clock.clock + 1;
    let floor = least_flushed(rows, seat, work.session.workers);
    let need = work.session.clock.need(floor);
    let entry = Record {
        txn,
        gsn: number,
        body: Body::Abort { need },
    };
    if let Err(fault) = session_state::stage_end(&mut work.disk, &mut work.log, own, &entry) {
        work.session.works = false;
        return Err(fault);
    }
    end_rows(rows, seat, &work.session, latches, false, floor, number);
    close(&mut work.session, number);
    Ok(Ended {
        number: txn,
        at: number,
        need,
    })
}

/// What an abort does behind its put-backs: the lock rows that the session holds are latched, its end is staged, the end's number is stored, and the rows are given
/// back. Nothing is flushed. Where a latch has come to its end, the abort is refused, and all is as it was.
#[inline(never)]
pub fn end_abort<R: Rows, D: Disk>(
    rows: &mut R,
    seat: &mut R::Seat,
    work: &mut Work<D>,
    latches: &mut Latches,
) -> Result<Ended, Unserved>
    requires fits { R.fits rows.old seat.old }
    requires holds { Holds (R.shape rows.old) (R.view seat.old) work.old.session work.old.log }
    requires unmarked { latches.old ≡ replicate work.old.session.held.count false }
    requires works { work.old.session.works ≡ true }
    requires is_open { work.old.session.is_open ≡ true }
    requires left { work.old.session.undo ≡ [] }
    ensures fits { R.fits rows.new seat.new × (R.shape rows.new ≡ R.shape rows.old) }
    ensures holds { work.new.session.works ≡ true → Holds (R.shape rows.new) (R.view seat.new) work.new.session work.new.log }
    ensures session { IsSameSession work.old.session work.new.session }
    // Whatever happened is of this session.
    ensures steps { work.new.session.works ≡ true → Steps work.old.session.own (R.view seat.old) (R.view seat.new) }
    ensures unmarked { work.new.session.works ≡ true → latches.new ≡ latches.old }
    ensures aborts { Aborts D.story result (R.view seat.old) (R.view seat.new) work.old.session work.new.session work.old.log work.new.log work.old.disk work.new.disk }
    ensures receipt { IfOk result (IsEnded (R.view seat.old) work.new.session) }
    ensures works { (work.new.session.works ≡ true) ↔ (result ≡ Err disk_fault → ⊥) }

    ensures cause_disk_fault { HasCause (D.faults work.old.disk) (D.faults work.new.disk) (result ≡ Err disk_fault) }
{
    if !latch_held(rows, seat, &work.session, latches, &work.log) {
        return Err(Unserved::Refused(Refusal::RowSpent));
    }
    match finish(rows, seat, work, latches) {
        Ok(ended) => Ok(ended),
        Err(DiskFault) => Err(Unserved::Unanswered(Unanswered::DiskFault)),
    }
}
