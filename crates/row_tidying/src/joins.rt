// Two neighbours become one page.
ghost use Rattle.std.specs.Prelude.{◌≡◌, Err, true, false};
ghost use Rattle.row_changes.specs.session_state.engine_trait.Serving.{disk_fault};
ghost use Rattle.lean_disk.specs.Faults.{HasCause};
ghost use Rattle.row_changes.specs.session_state.Holds.{Holds, IsSameSession};
ghost use Rattle.row_changes.specs.Puts.{works_after};
ghost use Rattle.row_tidying.specs.Changes.{CanJoin, MayTidy};
ghost use Rattle.row_tidying.specs.Outcomes.{Joins};

use crate::ends::finish;
use btree_smo::join::join;
use row_changes::{Rows, Stages, Unserved, Work, next_fits};
use tidy_rules::every_freed;

/// Joins the page in the frame `right`, which is `page`, to its left neighbour, under the one in the frame `parent`. It is answered as the page that
/// is free then.
pub fn join_pages<R: Rows, D: Stages>(
    rows: &mut R,
    seat: &mut R::Seat,
    work: &mut Work<D>,
    left: u32,
    right: u32,
    parent: u32,
    page: u32,
) -> Result<u32, Unserved>
    requires fits { R.fits rows.old seat.old }
    requires holds { Holds (R.shape rows.old) (R.view seat.old) work.old.session work.old.log }
    requires may { MayTidy work.old.session work.old.log }
    requires can { CanJoin (R.view seat.old) left right parent page }
    ensures fits { R.fits rows.new seat.new × (R.shape rows.new ≡ R.shape rows.old) }
    ensures holds { work.new.session.works ≡ true → Holds (R.shape rows.new) (R.view seat.new) work.new.session work.new.log }
    ensures session { IsSameSession work.old.session work.new.session }
    ensures joins { Joins result left right parent page (R.view seat.old) (R.view seat.new) work.old.session work.new.session work.old.log work.new.log (D.story work.old.disk) (D.story work.new.disk) (work.new ≡ work.old) (work.new.session.works ≡ false) }
    ensures works { work.new.session.works ≡ works_after result }
    ensures cause_disk_fault { HasCause (D.faults work.old.disk) (D.faults work.new.disk) (result ≡ Err disk_fault) }
{
    row_changes::every_low();
    every_freed();
    next_fits(rows, seat);
    let frames = work.session.frames;
    let outcome = join(
        rows,
        seat,
        work.session.own,
        frames,
        left,
        right,
        parent,
        work,
    );
    rows.versions(seat);
    finish(&mut work.session, outcome, page)
}
