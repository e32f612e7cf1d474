// One step of a tidying.
ghost use Rattle.std.specs.Prelude.{◌≡◌, ◌≤◌, ◌<◌, ◌-◌, ◌^◌, ℕ, None, Ok, Err, IsErrAnd, true};
ghost use Rattle.row_changes.specs.session_state.engine_trait.Serving.{disk_fault};
ghost use Rattle.row_changes.specs.session_state.engine_trait.Refusals.{clock_refusal};
ghost use Rattle.lean_disk.specs.Faults.{HasCause};
ghost use Rattle.row_changes.specs.session_state.row_words.Openings.{opening};
ghost use Rattle.row_changes.specs.session_state.rows_trait.Views.{state};
ghost use Rattle.row_changes.specs.session_state.Holds.{Holds, IsSameSession};
ghost use Rattle.row_changes.specs.Puts.{works_behind};
ghost use Rattle.row_changes.specs.Ways.{IsCut, IsWarm};
ghost use Rattle.row_changes.specs.declared.ways.Unmade.{Unmade};
ghost use Rattle.row_tidying.specs.Changes.{CanDrop, CanJoin, MayTidy};
ghost use Rattle.row_walks.specs.Inside.Climbs.{Climbs, answer_to};
ghost use Rattle.row_walks.specs.Inside.Nexts.{IsNextDrop, IsNextJoin};
ghost use Rattle.row_walks.specs.Inside.Ways.{IsWayIn};
ghost use Rattle.row_walks.specs.Stages.{IsPassed, MayShrink};
ghost use Rattle.row_walks.specs.Steps.{TidySteps};
ghost use Rattle.row_walks.specs.declared.steps.At.TheVariants as at;
ghost use Rattle.row_walks.specs.declared.steps.Tidied.TheVariants as tidied;

use crate::leaves::{Leaf, tidy_leaf};
use crate::nexts::{Next, look_up};
use crate::ways::reach_leaf;
use row_changes::{
    Path, Rows, Session, Stages, Unmade, Unserved, Work, clock_refusal, every_room, every_warm,
};
use row_tidying::{drop_child, join_pages};

/// How far a tidying has come.
#[derive(Clone, Copy)]
pub enum At {
    /// Nothing was done.
    Before,
    /// The leaf was thin, and all below this level is done.
    From { level: usize },
    /// It is over.
    Over,
}

/// What one step of a tidying did.
#[derive(Clone, Copy)]
pub enum Tidied {
    /// Nothing: no change of the tree is left.
    Clean,
    /// One change of the tree was made, and so far the tidying has come.
    Changed { at: At },
    /// Nothing was done: all below this level is passed, and there this page, a neighbour, is to be brought into a frame first.
    Needs { page: u32, level: usize },
}

// Answers a change of the tree, behind which so far the tidying has come: whether a further one may come, or that of the key.
fn changed(session: &Session, at: At) -> Result<Tidied, Unmade>
    ensures { result ≡ answer_to (clock_refusal session.now.clock.clock None) at }
{
    match clock_refusal(session) {
        Some(why) => Err(Unmade::Unserved(Unserved::Refused(why))),
        None => Ok(Tidied::Changed { at }),
    }
}

// Joins two pages at this level, where that is next.
fn join_at<R: Rows, D: Stages>(
    rows: &mut R,
    seat: &mut R::Seat,
    work: &mut Work<D>,
    left: u32,
    right: u32,
    parent: u32,
    page: u32,
    level: usize,
) -> Result<Tidied, Unmade>
    requires fits { R.fits rows.old seat.old }
    requires holds { Holds (R.shape rows.old) (R.view seat.old) work.old.session work.old.log }
    requires may { MayTidy work.old.session work.old.log }
    requires can { CanJoin (R.view seat.old) left right parent page }
    requires level { level < 7 }
    ensures fits { R.fits rows.new seat.new × (R.shape rows.new ≡ R.shape rows.old) }
    ensures holds { work.new.session.works ≡ true → Holds (R.shape rows.new) (R.view seat.new) work.new.session work.new.log }
    ensures session { IsSameSession work.old.session work.new.session }
    ensures climbs { (key from : ℕ) → IsNextJoin work.old.session.own (R.view seat.old) key from left right parent page level → Climbs result key from (R.view seat.old) (R.view seat.new) work.old.session work.new.session work.old.log work.new.log (D.story work.old.disk) (D.story work.new.disk) (work.new ≡ work.old) }
    ensures works { work.new.session.works ≡ works_behind result }
    ensures cause_disk_fault { HasCause (D.faults work.old.disk) (D.faults work.new.disk) (result ≡ Err (Unmade.Unserved disk_fault)) }
{
    match join_pages(rows, seat, work, left, right, parent, page) {
        Ok(_) => changed(&work.session, At::From { level: level + 1 }),
        Err(why) => Err(Unmade::Unserved(why)),
    }
}

// Drops the root's one child, where that is next.
fn drop_at<R: Rows, D: Stages>(
    rows: &mut R,
    seat: &mut R::Seat,
    work: &mut Work<D>,
    frame: u32,
    page: u32,
) -> Result<Tidied, Unmade>
    requires fits { R.fits rows.old seat.old }
    requires holds { Holds (R.shape rows.old) (R.view seat.old) work.old.session work.old.log }
    requires may { MayTidy work.old.session work.old.log }
    requires can { CanDrop (R.view seat.old) frame page }
    ensures fits { R.fits rows.new seat.new × (R.shape rows.new ≡ R.shape rows.old) }
    ensures holds { work.new.session.works ≡ true → Holds (R.shape rows.new) (R.view seat.new) work.new.session work.new.log }
    ensures session { IsSameSession work.old.session work.new.session }
    ensures climbs { (key from : ℕ) → IsNextDrop work.old.session.own (R.view seat.old) key from frame page → Climbs result key from (R.view seat.old) (R.view seat.new) work.old.session work.new.session work.old.log work.new.log (D.story work.old.disk) (D.story work.new.disk) (work.new ≡ work.old) }
    ensures works { work.new.session.works ≡ works_behind result }
    ensures cause_disk_fault { HasCause (D.faults work.old.disk) (D.faults work.new.disk) (result ≡ Err (Unmade.Unserved disk_fault)) }
{
    match drop_child(rows, seat, work, frame, page) {
        Ok(_) => changed(&work.session, At::Over),
        Err(why) => Err(Unmade::Unserved(why)),
    }
}

// Makes the change of the tree that is next from this level on.
fn go_up<R: Rows, D: Stages>(
    rows: &mut R,
    seat: &mut R::Seat,
    work: &mut Work<D>,
    key: u64,
    path: &Path,
    from: usize,
) -> Result<Tidied, Unmade>
    requires fits { R.fits rows.old seat.old }
    requires holds { Holds (R.shape rows.old) (R.view seat.old) work.old.session work.old.log }
    requires may { MayTidy work.old.session work.old.log }
    requires way { IsWayIn (R.view seat.old) key path.now }
    requires from { from ≤ 7 }
    ensures fits { R.fits rows.new seat.new × (R.shape rows.new ≡ R.shape rows.old) }
    ensures holds { work.new.session.works ≡ true → Holds (R.shape rows.new) (R.view seat.new) work.new.session work.new.log }
    ensures session { IsSameSession work.old.session work.new.session }
    ensures climbs { Climbs result key from (R.view seat.old) (R.view seat.new) work.old.session work.new.session work.old.log work.new.log (D.story work.old.disk) (D.story work.new.disk) (work.new ≡ work.old) }
    ensures higher { (page l : ℕ) → result ≡ Ok (tidied.Needs page l) → from ≤ l }
    ensures works { work.new.session.works ≡ works_behind result }
    ensures cause_disk_fault { HasCause (D.faults work.old.disk) (D.faults work.new.disk) (result ≡ Err (Unmade.Unserved disk_fault)) }
{
    match look_up(rows, seat, &work.session, &work.log, key, path, from) {
        Next::Nothing => Ok(Tidied::Clean),
        Next::Needs { page, level } => Ok(Tidied::Needs { page, level }),
        Next::Joins {
            left,
            right,
            parent,
            page,
            level,
        } => join_at(rows, seat, work, left, right, parent, page, level),
        Next::Drops { frame, page } => drop_at(rows, seat, work, frame, page),
    }
}

// The first step: the leaf is purged; where none of its tombstones can go, it goes up from this level.
fn begin<R: Rows, D: Stages>(
    rows: &mut R,
    seat: &mut R::Seat,
    work: &mut Work<D>,
    key: u64,
    path: &Path,
    level: usize,
) -> Result<Tidied, Unmade>
    requires fits { R.fits rows.old seat.old }
    requires holds { Holds (R.shape rows.old) (R.view seat.old) work.old.session work.old.log }
    requires may { MayShrink work.old.session work.old.log (opening (R.view seat.old).given).format.levels at.Before }
    requires way { IsWayIn (R.view seat.old) key path.now }
    requires passed { IsPassed work.old.session.own (opening (R.view seat.old).given) (state (R.view seat.old)).core key at.Before level }
    ensures fits { R.fits rows.new seat.new × (R.shape rows.new ≡ R.shape rows.old) }
    ensures holds { work.new.session.works ≡ true → Holds (R.shape rows.new) (R.view seat.new) work.new.session work.new.log }
    ensures session { IsSameSession work.old.session work.new.session }
    ensures tidies { TidySteps result key at.Before (R.view seat.old) (R.view seat.new) work.old.session work.new.session work.old.log work.new.log (D.story work.old.disk) (D.story work.new.disk) (work.new ≡ work.old) }
    ensures higher { (page l : ℕ) → result ≡ Ok (tidied.Needs page l) → level ≤ l }
    ensures works { work.new.session.works ≡ works_behind result }

    ensures cause_cold { IsErrAnd result IsCut → ⊥ }
    ensures cause_disk_fault { HasCause (D.faults work.old.disk) (D.faults work.new.disk) (result ≡ Err (Unmade.Unserved disk_fault)) }
{
    match tidy_leaf(rows, seat, work, key, path) {
        Err(why) => Err(Unmade::Unserved(why)),
        Ok(Leaf::Thick) => Ok(Tidied::Clean),
        Ok(Leaf::Purged) => changed(&work.session, At::From { level: 0 }),
        Ok(Leaf::Thin) => go_up(rows, seat, work, key, path, level),
    }
}

/// One step of the tidying of a del: the next change of the tree by which space comes back, if one is left. `level` is that of the last answer Needs, or the
/// stage's own: all below it is passed. Each step descends anew. A neighbour that is not hot is named, and nothing is done: bring it into a frame, and ask again.
pub fn tidy_step<R: Rows, D: Stages>(
    rows: &mut R,
    seat: &mut R::Seat,
    work: &mut Work<D>,
    key: u64,
    at: At,
    level: usize,
) -> Result<Tidied, Unmade>
    requires fits { R.fits rows.old seat.old }
    requires holds { Holds (R.shape rows.old) (R.view seat.old) work.old.session work.old.log }
    requires may { MayShrink work.old.session work.old.log (opening (R.view seat.old).given).format.levels at }
    requires key { key < 2 ^ 64 - 1 }
    requires passed { IsPassed work.old.session.own (opening (R.view seat.old).given) (state (R.view seat.old)).core key at level }
    ensures fits { R.fits rows.new seat.new × (R.shape rows.new ≡ R.shape rows.old) }
    ensures holds { work.new.session.works ≡ true → Holds (R.shape rows.new) (R.view seat.new) work.new.session work.new.log }
    ensures session { IsSameSession work.old.session work.new.session }
    ensures tidies { TidySteps result key at (R.view seat.old) (R.view seat.new) work.old.session work.new.session work.old.log work.new.log (D.story work.old.disk) (D.story work.new.disk) (work.new ≡ work.old) }
    ensures higher { (page l : ℕ) → result ≡ Ok (tidied.Needs page l) → level ≤ l }
    ensures works { work.new.session.works ≡ works_behind result }

    // Where it was not cut off, the key's way is hot.
    ensures warm { (IsErrAnd result IsCut → ⊥) → IsWarm (R.view seat.old) key }

    ensures cause_cold { IsWarm (R.view seat.old) key → IsErrAnd result IsCut → ⊥ }
    ensures cause_disk_fault { HasCause (D.faults work.old.disk) (D.faults work.new.disk) (result ≡ Err (Unmade.Unserved disk_fault)) }
{
    every_room();
    every_warm();
    let mut path = Path::new();
    if let Err(cold) = reach_leaf(rows, seat, &work.session, &work.log, key, &mut path) {
        return Err(Unmade::Cold(cold));
    }
    match at {
        At::Over => Ok(Tidied::Clean),
        At::Before => begin(rows, seat, work, key, &path, level),
        At::From { level: _ } => go_up(rows, seat, work, key, &path, level),
    }
}
