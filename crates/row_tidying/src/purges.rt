// The tombstones of a leaf that nobody can need go.
ghost use Rattle.std.specs.Prelude.{◌≡◌, Err, true, false};
ghost use Rattle.row_changes.specs.session_state.engine_trait.Serving.{disk_fault};
ghost use Rattle.lean_disk.specs.Faults.{HasCause};
ghost use Rattle.row_changes.specs.session_state.Holds.{Holds, IsSameSession};
ghost use Rattle.row_changes.specs.Puts.{works_after};
ghost use Rattle.btree_smo.specs.Purges.{IsFloor};
ghost use Rattle.row_tidying.specs.Changes.{CanPurge, MayTidy};
ghost use Rattle.row_tidying.specs.Outcomes.{Clears};

use crate::ends::finish_purge;
use crate::floors::floor_of;
use btree_smo::purge::purge;
use row_changes::{Rows, Stages, Unserved, Work, next_fits};
use tidy_rules::every_freed;

/// What came of a purge.
#[derive(Clone, Copy)]
pub enum Cleared {
    /// All tombstones that nobody can need went.
    Done,
    /// Nothing went: there is none, or more entries than was asked would be left. So many would be.
    Spared { left: usize },
}

// Purges the tombstones that nobody can need of the leaf in the frame, where `floor` is the least flushed number.
fn purge_up_to<R: Rows, D: Stages>(
    rows: &mut R,
    seat: &mut R::Seat,
    work: &mut Work<D>,
    frame: u32,
    floor: u64,
    most: usize,
) -> Result<Cleared, Unserved>
    requires fits { R.fits rows.old seat.old }
    requires holds { Holds (R.shape rows.old) (R.view seat.old) work.old.session work.old.log }
    requires may { MayTidy work.old.session work.old.log }
    requires floor { IsFloor (R.shape rows.old) (R.view seat.old) floor }
    requires can { CanPurge (R.view seat.old) frame }
    ensures fits { R.fits rows.new seat.new × (R.shape rows.new ≡ R.shape rows.old) }
    ensures holds { work.new.session.works ≡ true → Holds (R.shape rows.new) (R.view seat.new) work.new.session work.new.log }
    ensures session { IsSameSession work.old.session work.new.session }
    ensures clears { Clears result frame most (R.view seat.old) (R.view seat.new) work.old.session work.new.session work.old.log work.new.log (D.story work.old.disk) (D.story work.new.disk) (work.new ≡ work.old) (work.new.session.works ≡ false) }
    ensures works { work.new.session.works ≡ works_after result }
    ensures cause_disk_fault { HasCause (D.faults work.old.disk) (D.faults work.new.disk) (result ≡ Err disk_fault) }
{
    row_changes::every_low();
    every_freed();
    next_fits(rows, seat);
    let frames = work.session.frames;
    let locks = work.session.held.count();
    let purged = purge(
        rows,
        seat,
        work.session.own,
        frames,
        locks,
        floor,
        most,
        frame,
        work,
    );
    rows.versions(seat);
    finish_purge(&mut work.session, purged)
}

/// Purges the tombstones that nobody can need of the leaf in the frame, with one record, where at most so many entries are left then.
pub fn purge_leaf<R: Rows, D: Stages>(
    rows: &mut R,
    seat: &mut R::Seat,
    work: &mut Work<D>,
    frame: u32,
    most: usize,
) -> Result<Cleared, Unserved>
    requires fits { R.fits rows.old seat.old }
    requires holds { Holds (R.shape rows.old) (R.view seat.old) work.old.session work.old.log }
    requires may { MayTidy work.old.session work.old.log }
    requires can { CanPurge (R.view seat.old) frame }
    ensures fits { R.fits rows.new seat.new × (R.shape rows.new ≡ R.shape rows.old) }
    ensures holds { work.new.session.works ≡ true → Holds (R.shape rows.new) (R.view seat.new) work.new.session work.new.log }
    ensures session { IsSameSession work.old.session work.new.session }
    ensures clears { Clears result frame most (R.view seat.old) (R.view seat.new) work.old.session work.new.session work.old.log work.new.log (D.story work.old.disk) (D.story work.new.disk) (work.new ≡ work.old) (work.new.session.works ≡ false) }
    ensures works { work.new.session.works ≡ works_after result }
    ensures cause_disk_fault { HasCause (D.faults work.old.disk) (D.faults work.new.disk) (result ≡ Err disk_fault) }
{
    let floor = floor_of(rows, seat, &work.session, &work.log);
    purge_up_to(rows, seat, work, frame, floor, most)
}
