// Room for a further key in a full leaf.
ghost use Rattle.std.specs.Prelude.{◌≡◌, ◌<◌, length, Some, Err, true, false};
ghost use Rattle.row_growth.specs.session_state.engine_trait.Serving.{disk_fault};
ghost use Rattle.row_growth.specs.session_state.lean_proto.Paths.{above};
ghost use Rattle.lean_disk.specs.Faults.{HasCause};
ghost use Rattle.row_growth.specs.session_state.Holds.{Holds, IsSameSession};
ghost use Rattle.row_growth.specs.row_changes.Paths.{LeadsToFull};
ghost use Rattle.row_growth.specs.row_changes.Puts.{MayChange, works_after};
ghost use Rattle.row_growth.specs.Rooms.{IsPlaced};
ghost use Rattle.row_room.specs.Rooms.{MadeSpace};

use page_model::limits::LEAF_ROOM;
use row_growth::{Growth, Path, Placed, Rows, Stages, Unserved, Work, make_room};
use row_tidying::{Cleared, every_purged, purge_leaf};

// The last frame of a path.
fn end_of(path: &Path) -> u32
    requires some { 0 < length path.now }
    ensures { above path.now 0 ≡ Some result }
{
    let frames = path.frames();
    frames[frames.len() - 1]
}

/// One change of the tree on the way to room for a key whose leaf, at the end of the path, is full. The leaf's tombstones that nobody can need go, all with one record;
/// only where there is none a page is split or the root is lifted, as `make_room` does it.
pub fn make_space<R: Rows, D: Stages>(
    rows: &mut R,
    seat: &mut R::Seat,
    work: &mut Work<D>,
    key: u64,
    path: &Path,
    placed: Option<Placed>,
) -> Result<Growth, Unserved>
    requires fits { R.fits rows.old seat.old }
    requires holds { Holds (R.shape rows.old) (R.view seat.old) work.old.session work.old.log }
    requires may { MayChange (R.view seat.old) work.old.session work.old.log key }
    requires leads { LeadsToFull (R.view seat.old) work.old.session.frames key path.now }
    requires placed { IsPlaced (R.view seat.old) placed }
    ensures fits { R.fits rows.new seat.new × (R.shape rows.new ≡ R.shape rows.old) }
    ensures holds { work.new.session.works ≡ true → Holds (R.shape rows.new) (R.view seat.new) work.new.session work.new.log }
    ensures session { IsSameSession work.old.session work.new.session }
    ensures space { MadeSpace result key placed (R.view seat.old) (R.view seat.new) work.old.session work.new.session work.old.log work.new.log (D.story work.old.disk) (D.story work.new.disk) (work.new ≡ work.old) (work.new.session.works ≡ false) }
    ensures works { work.new.session.works ≡ works_after result }
    ensures cause_disk_fault { HasCause (D.faults work.old.disk) (D.faults work.new.disk) (result ≡ Err disk_fault) }
{
    every_purged();
    row_growth::every_room();
    let leaf = end_of(path);
    match purge_leaf(rows, seat, work, leaf, LEAF_ROOM) {
        Err(why) => Err(why),
        Ok(Cleared::Done) => Ok(Growth::Grown),
        Ok(Cleared::Spared { left: _ }) => make_room(rows, seat, work, key, path, placed),
    }
}
