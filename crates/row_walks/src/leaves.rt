// What a tidying does to the leaf before all else.
ghost use Rattle.std.specs.Prelude.{◌≡◌, Err, true};
ghost use Rattle.row_changes.specs.session_state.engine_trait.Serving.{disk_fault};
ghost use Rattle.lean_disk.specs.Faults.{HasCause};
ghost use Rattle.row_changes.specs.session_state.Holds.{Holds, IsSameSession};
ghost use Rattle.row_changes.specs.Puts.{works_after};
ghost use Rattle.row_tidying.specs.row_ends.Flushed.{Looked};
ghost use Rattle.row_tidying.specs.Changes.{MayTidy};
ghost use Rattle.row_walks.specs.Inside.Ways.{IsWayIn};
ghost use Rattle.row_walks.specs.Inside.Leaves.{LeafDoes, MayBeThin, is_value};

use crate::levels::{THIN, see};
use row_changes::{Path, Rows, Session, Stages, TOMBSTONE, Unserved, Work, WorkerLog};
use row_tidying::{Cleared, purge_leaf};

/// What came of the leaf.
#[derive(Clone, Copy)]
pub(crate) enum Leaf {
    /// Nothing was done: it is the root, or has no value for the key, or more entries than a thin leaf would be left.
    Thick,
    /// Nothing was done: it is thin, and none of its tombstones can go.
    Thin,
    /// Its tombstones that nobody can need went, and it is thin.
    Purged,
}

// Whether an entry has a value, and no tombstone.
pub(crate) fn is_value(entry: Option<u64>) -> bool
    ensures { result ≡ is_value entry }
{
    match entry {
        Some(word) => word < TOMBSTONE,
        None => false,
    }
}

// Whether the leaf is not the root, and has a value for the key.
fn may_be_thin<R: Rows>(
    rows: &mut R,
    seat: &mut R::Seat,
    session: &Session,
    log: &WorkerLog,
    key: u64,
    path: &Path,
) -> bool
    requires fits { R.fits rows.old seat.old }
    requires holds { Holds (R.shape rows.old) (R.view seat.old) session.now log.now }
    requires way { IsWayIn (R.view seat.old) key path.now }
    ensures fits { R.fits rows.new seat.new × (R.shape rows.new ≡ R.shape rows.old) }
    ensures holds { Holds (R.shape rows.new) (R.view seat.new) session.now log.now }
    ensures looked { Looked (R.view seat.old) (R.view seat.new) }
    ensures thin { MayBeThin result (R.view seat.old) key path.now }
{
    let frames = path.frames();
    let tall = frames.len();
    if tall < 2 {
        return false;
    }
    let frame = frames[tall - 1];
    let leaf = see(rows, seat, session, log, frame);
    is_value(leaf.node.find(key))
}

// Purges the leaf where it is thin then.
pub(crate) fn tidy_leaf<R: Rows, D: Stages>(
    rows: &mut R,
    seat: &mut R::Seat,
    work: &mut Work<D>,
    key: u64,
    path: &Path,
) -> Result<Leaf, Unserved>
    requires fits { R.fits rows.old seat.old }
    requires holds { Holds (R.shape rows.old) (R.view seat.old) work.old.session work.old.log }
    requires may { MayTidy work.old.session work.old.log }
    requires way { IsWayIn (R.view seat.old) key path.now }
    ensures fits { R.fits rows.new seat.new × (R.shape rows.new ≡ R.shape rows.old) }
    ensures holds { work.new.session.works ≡ true → Holds (R.shape rows.new) (R.view seat.new) work.new.session work.new.log }
    ensures session { IsSameSession work.old.session work.new.session }
    ensures leaf { LeafDoes result key (R.view seat.old) (R.view seat.new) work.old.session work.new.session work.old.log work.new.log (D.story work.old.disk) (D.story work.new.disk) (work.new ≡ work.old) }
    ensures works { work.new.session.works ≡ works_after result }
    ensures cause_disk_fault { HasCause (D.faults work.old.disk) (D.faults work.new.disk) (result ≡ Err disk_fault) }
{
    if !may_be_thin(rows, seat, &work.session, &work.log, key, path) {
        return Ok(Leaf::Thick);
    }
    let frames = path.frames();
    let frame = frames[frames.len() - 1];
    match purge_leaf(rows, seat, work, frame, THIN) {
        Err(why) => Err(why),
        Ok(Cleared::Done) => Ok(Leaf::Purged),
        Ok(Cleared::Spared { left }) => {
            if THIN < left {
                return Ok(Leaf::Thick);
            }
            Ok(Leaf::Thin)
        }
    }
}
