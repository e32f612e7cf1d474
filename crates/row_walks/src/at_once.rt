// A del at once, where its leaf is not thin or has no value for the key.
ghost use Rattle.std.specs.Prelude.{◌≡◌, ◌≤◌, ◌<◌, ◌%◌, ◌^◌, ℕ, None, Err, IsErrAnd, true, false};
ghost use Rattle.page_model.specs.Page as stored;
ghost use Rattle.lean_disk.specs.Faults.{HasCause};
ghost use Rattle.row_changes.specs.session_state.btree_descent.Inside.{IsSeen};
ghost use Rattle.row_changes.specs.session_state.engine_trait.Serving.{disk_fault};
ghost use Rattle.row_changes.specs.session_state.row_words.Openings.{opening};
ghost use Rattle.row_changes.specs.session_state.rows_trait.Layout.{rows_of, width};
ghost use Rattle.row_changes.specs.session_state.rows_trait.Views.{Has, state};
ghost use Rattle.row_changes.specs.session_state.btree_descent.version_latch.Kept.{Kept};
ghost use Rattle.row_changes.specs.session_state.Holds.{Holds, IsSameSession};
ghost use Rattle.row_changes.specs.Puts.{MayWrite, works_behind};
ghost use Rattle.row_changes.specs.Spots.{HasSpot, IsSpotFor};
ghost use Rattle.row_changes.specs.Ways.{IsCut, IsWarm};
ghost use Rattle.row_changes.specs.declared.ways.Unmade.{Unmade};
ghost use Rattle.row_tidying.specs.tidy_rules.Tidying.{Stage, next_tidy};
ghost use Rattle.row_walks.specs.AtOnce.{DelsAtOnce};
ghost use Rattle.row_walks.specs.Inside.Values.{values_of};

use crate::leaves::is_value;
use crate::levels::THIN;
use row_changes::{
    Rows, Session, Spot, Stages, TOMBSTONE, Unmade, Work, WorkerLog, again, del_at_spot,
    every_room, find_spot,
};

/// What came of a try to delete before any tidying.
#[derive(Clone, Copy)]
pub enum AtOnce {
    /// No change of the tree was left to make, and the key has no value now; it had this one, or none.
    Done(Option<u64>),
    /// Nothing was done: the key's leaf may be thin.
    MayBeThin,
}

// Whether the leaf at the spot has more values than a thin page has pairs, as the words say that are loaded. A leaf that is not thin mostly has them in front.
#[inline(always)]
fn has_many<R: Rows>(rows: &mut R, seat: &mut R::Seat, spot: &Spot) -> bool
    requires fits { R.fits rows.old seat.old }
    requires row { (spot.now.leaf.glimpse.row < rows_of (R.shape rows.old).sizes) × (width (R.shape rows.old).sizes spot.now.leaf.glimpse.row ≡ 128) }
    requires seen { Has spot.now.leaf.glimpse.row spot.now.leaf.glimpse.version (R.view seat.old).steps }
    requires count { spot.now.leaf.head.packed % 256 ≤ 60 }
    ensures fits { R.fits rows.new seat.new × (R.shape rows.new ≡ R.shape rows.old) }
    ensures kept { Kept (R.shape rows.old).alone (R.view seat.old) (R.view seat.new) }
    ensures many { result ≡ true → (p : stored.Page) → IsSeen spot.now.leaf.glimpse.row spot.now.leaf.glimpse.version (spot.now.leaf.head.packed % 256) (R.view seat.new).steps p → (n : ℕ) × (15 < values_of n p.node.pairs) }
{
    let count = (spot.leaf.head.packed % 256) as u32;
    let glimpse = spot.leaf.glimpse;
    let mut values = 0;
    for at in 0..count {
        if glimpse.word(rows, seat, 7 + 2 * at) < TOMBSTONE {
            values += 1;
            if THIN < values {
                return true;
            }
        }
    }
    false
}

// Whether the leaf at the spot is the root, or has no value for the key, or more values than a thin page has pairs: then nothing is to be tidied.
fn is_thick<R: Rows>(
    rows: &mut R,
    seat: &mut R::Seat,
    session: &Session,
    log: &WorkerLog,
    key: u64,
    spot: &Spot,
) -> bool
    requires fits { R.fits rows.old seat.old }
    requires holds { Holds (R.shape rows.old) (R.view seat.old) session.now log.now }
    requires spot { HasSpot (R.shape rows.old) (R.view seat.old) session.now key spot.now }
    ensures fits { R.fits rows.new seat.new × (R.shape rows.new ≡ R.shape rows.old) }
    ensures holds { Holds (R.shape rows.new) (R.view seat.new) session.now log.now }
    ensures spot { IsSpotFor (R.shape rows.old) (R.view seat.old) (R.view seat.new) session.now key spot.now }
    ensures thick { result ≡ true → (own : ℕ) → next_tidy own (opening (R.view seat.old).given) (state (R.view seat.old)).core key Stage.Before ≡ None }
{
    every_room();
    let many = has_many(rows, seat, spot);
    match again(
        rows,
        seat,
        &spot.leaf.glimpse,
        session.own,
        session.frames,
        key,
    ) {
        Ok(()) => many || spot.leaf.head.page == 0 || !is_value(spot.before),
        // Nobody else steps.
        Err(_) => unreachable!(),
    }
}

/// Takes the value of the key, whose row is held, away at once, if its leaf is the root, or has no value for it, or has more values than a thin page has pairs: one
/// descent, and a look at the leaf in its frame. Else nothing is done: tidy first, by `tidy_step`.
pub fn del_at_once<R: Rows, D: Stages>(
    rows: &mut R,
    seat: &mut R::Seat,
    work: &mut Work<D>,
    key: u64,
) -> Result<AtOnce, Unmade>
    requires fits { R.fits rows.old seat.old }
    requires holds { Holds (R.shape rows.old) (R.view seat.old) work.old.session work.old.log }
    requires may { MayWrite 0 (R.view seat.old) work.old.session work.old.log key }
    ensures fits { R.fits rows.new seat.new × (R.shape rows.new ≡ R.shape rows.old) }
    ensures holds { work.new.session.works ≡ true → Holds (R.shape rows.new) (R.view seat.new) work.new.session work.new.log }
    ensures session { IsSameSession work.old.session work.new.session }
    ensures is_half_aborted { work.new.session.works ≡ true → work.new.session.is_half_aborted ≡ work.old.session.is_half_aborted }
    ensures dels { DelsAtOnce result key (R.view seat.old) (R.view seat.new) work.old.session work.old.log work.new.log (D.story work.old.disk) (D.story work.new.disk) (work.new ≡ work.old) (work.new.disk ≡ work.old.disk) }
    ensures works { work.new.session.works ≡ works_behind result }

    ensures cause_cold { IsWarm (R.view seat.old) key → IsErrAnd result IsCut → ⊥ }
    ensures cause_disk_fault { HasCause (D.faults work.old.disk) (D.faults work.new.disk) (result ≡ Err (Unmade.Unserved disk_fault)) }
{
    let spot = match find_spot(rows, seat, &work.session, &work.log, key) {
        Ok(spot) => spot,
        Err(cold) => return Err(Unmade::Cold(cold)),
    };
    if !is_thick(rows, seat, &work.session, &work.log, key, &spot) {
        return Ok(AtOnce::MayBeThin);
    }
    match del_at_spot(rows, seat, work, key, &spot) {
        Ok(was) => Ok(AtOnce::Done(was)),
        Err(unmade) => Err(unmade),
    }
}
