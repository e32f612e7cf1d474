// The root takes the contents of its one child.
ghost use Rattle.std.specs.Prelude.{◌≡◌, Err, true, false};
ghost use Rattle.row_changes.specs.session_state.engine_trait.Serving.{disk_fault};
ghost use Rattle.lean_disk.specs.Faults.{HasCause};
ghost use Rattle.row_changes.specs.session_state.Holds.{Holds, IsSameSession};
ghost use Rattle.row_changes.specs.Puts.{works_after};
ghost use Rattle.row_tidying.specs.Changes.{CanDrop, MayTidy};
ghost use Rattle.row_tidying.specs.Outcomes.{Drops};

use crate::ends::finish;
use btree_smo::drop_root::drop_root;
use row_changes::{Rows, Stages, Unserved, Work, next_fits};
use tidy_rules::every_freed;

/// Puts the contents of the root's one child, `page`, which stands in the frame, into the root. It is answered as the page that is free then.
pub fn drop_child<R: Rows, D: Stages>(
    rows: &mut R,
    seat: &mut R::Seat,
    work: &mut Work<D>,
    frame: u32,
    page: u32,
) -> Result<u32, Unserved>
    requires fits { R.fits rows.old seat.old }
    requires holds { Holds (R.shape rows.old) (R.view seat.old) work.old.session work.old.log }
    requires may { MayTidy work.old.session work.old.log }
    requires can { CanDrop (R.view seat.old) frame page }
    ensures fits { R.fits rows.new seat.new × (R.shape rows.new ≡ R.shape rows.old) }
    ensures holds { work.new.session.works ≡ true → Holds (R.shape rows.new) (R.view seat.new) work.new.session work.new.log }
    ensures session { IsSameSession work.old.session work.new.session }
    ensures drops { Drops result frame page (R.view seat.old) (R.view seat.new) work.old.session work.new.session work.old.log work.new.log (D.story work.old.disk) (D.story work.new.disk) (work.new ≡ work.old) (work.new.session.works ≡ false) }
    ensures works { work.new.session.works ≡ works_after result }
    ensures cause_disk_fault { HasCause (D.faults work.old.disk) (D.faults work.new.disk) (result ≡ Err disk_fault) }
{
    row_changes::every_low();
    every_freed();
    next_fits(rows, seat);
    let frames = work.session.frames;
    let outcome = drop_root(rows, seat, work.session.own, frames, frame, work);
    rows.versions(seat);
    finish(&mut work.session, outcome, page)
}
