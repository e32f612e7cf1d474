// Room for a further key in a full leaf.
ghost use Rattle.std.specs.Prelude.{◌≡◌, ◌≤◌, ◌<◌, length, Err, true, false};
ghost use Rattle.row_changes.specs.session_state.engine_trait.Serving.{disk_fault};
ghost use Rattle.lean_disk.specs.Faults.{HasCause};
ghost use Rattle.row_changes.specs.session_state.Holds.{Holds, IsSameSession};
ghost use Rattle.row_changes.specs.Paths.{LeadsToFull};
ghost use Rattle.row_changes.specs.Puts.{MayChange, works_after};
ghost use Rattle.row_growth.specs.Rooms.{CanGrow, CanLift, CanSplit, Grew, IsExpected, IsPlaced, Made, Takes, answer_of, frame_among, next_of, page_of, session_after};

use btree_smo::lift::lift;
use btree_smo::outcome::Outcome;
use btree_smo::room::full_run;
use btree_smo::split::split;
use lean_disk::Disk;
use map_model::Refusal;
use row_changes::{
    DEEPEST, FreePages, Path, Rows, Session, Stages, Unanswered, Unserved, Unstaged, Work,
    next_fits,
};

/// A free page that was brought into a frame: it stands hot there.
#[derive(Clone, Copy)]
pub struct Placed {
    pub page: u32,
    pub frame: u32,
}

/// What came of making room.
#[derive(Clone, Copy)]
pub enum Growth {
    /// The tree was changed on the way to room for the key.
    Grown,
    /// Nothing was done: a change takes this free page, which is to be brought into a frame first.
    Needs { page: u32 },
}

// What room for a key takes next.
#[derive(Clone, Copy)]
enum Next {
    // The root's contents go into this free page.
    Lift { page: u32 },
    // Half of the page in the frame `left` goes into this free page, under the one in the frame `parent`.
    Split { left: u32, page: u32, parent: u32 },
}

// What comes next, where the last `run` nodes of the path are full.
fn next_room(path: &Path, run: usize, free: &FreePages) -> Result<Next, Refusal>
    requires some { 0 < run }
    requires run { run ≤ length path.now }
    ensures { result ≡ next_of path.now run free.now }
{
    let frames = path.frames();
    if run == frames.len() {
        if run == DEEPEST {
            return Err(Refusal::TooTall);
        }
        let Some(page) = free.least() else {
            return Err(Refusal::NoPages);
        };
        if free.len() < run + 1 {
            return Err(Refusal::NoPages);
        }
        return Ok(Next::Lift { page });
    }
    let Some(page) = free.least() else {
        return Err(Refusal::NoPages);
    };
    if free.len() < run {
        return Err(Refusal::NoPages);
    }
    Ok(Next::Split {
        left: frames[frames.len() - run],
        page,
        parent: frames[frames.len() - run - 1],
    })
}

// The free page that it takes.
fn page_of(next: Next) -> u32
    ensures { result ≡ page_of next }
{
    match next {
        Next::Lift { page } => page,
        Next::Split { page, .. } => page,
    }
}

// The frame of this page, if it is the one that was brought into a frame.
fn frame_among(placed: Option<Placed>, page: u32) -> Option<u32>
    ensures { result ≡ frame_among placed page }
{
    let Some(at) = placed else {
        return None;
    };
    if at.page == page {
        return Some(at.frame);
    }
    None
}

// Answers what came of a change of the tree. Where it was made, its page is free no more.
fn finish(session: &mut Session, outcome: Outcome) -> Result<(), Unserved>
    requires { IsExpected outcome }
    ensures answer { result ≡ answer_of outcome }
    ensures after { session.new ≡ session_after outcome session.old }
{
    match outcome {
        Outcome::Done => {
            session.free.take();
            Ok(())
        }
        Outcome::RowSpent { row: _ } => Err(Unserved::Refused(Refusal::RowSpent)),
        Outcome::Unstaged(Unstaged::DiskFault) => {
            session.works = false;
            Err(Unserved::Unanswered(Unanswered::DiskFault))
        }
        // The pages are as the path says, the log has a block, no number is above the clock, and nobody else steps.
        Outcome::Unstaged(Unstaged::LogFull { .. }) => unreachable!(),
        Outcome::Full { row: _ } => unreachable!(),
        Outcome::TooTall => unreachable!(),
        Outcome::Stale { row: _ } => unreachable!(),
        Outcome::Moved(_) => unreachable!(),
        Outcome::Latched(_) => unreachable!(),
        Outcome::ClockSpent => unreachable!(),
    }
}

// The root's contents go into the page in the frame.
fn lift_root<R: Rows, D: Stages>(
    rows: &mut R,
    seat: &mut R::Seat,
    work: &mut Work<D>,
    key: u64,
    frame: u32,
) -> Result<(), Unserved>
    requires fits { R.fits rows.old seat.old }
    requires holds { Holds (R.shape rows.old) (R.view seat.old) work.old.session work.old.log }
    requires may { MayChange (R.view seat.old) work.old.session work.old.log key }
    requires can { CanLift (R.view seat.old) work.old.session key frame }
    ensures fits { R.fits rows.new seat.new × (R.shape rows.new ≡ R.shape rows.old) }
    ensures holds { work.new.session.works ≡ true → Holds (R.shape rows.new) (R.view seat.new) work.new.session work.new.log }
    ensures session { IsSameSession work.old.session work.new.session }
    ensures grew { Made result key (R.view seat.old) (R.view seat.new) work.old.session work.new.session work.old.log work.new.log (D.story work.old.disk) (D.story work.new.disk) (work.new ≡ work.old) (work.new.session.works ≡ false) }
    ensures works { work.new.session.works ≡ works_after result }
    ensures cause_disk_fault { HasCause (D.faults work.old.disk) (D.faults work.new.disk) (result ≡ Err disk_fault) }
{
    row_changes::every_low();
    row_changes::every_room();
    next_fits(rows, seat);
    let frames = work.session.frames;
    let outcome = lift(rows, seat, work.session.own, frames, frame, work);
    rows.versions(seat);
    finish(&mut work.session, outcome)
}

// Half of the page in the frame `left` goes into the one in the frame `right`, under the one in the frame `parent`.
fn split_page<R: Rows, D: Stages>(
    rows: &mut R,
    seat: &mut R::Seat,
    work: &mut Work<D>,
    key: u64,
    left: u32,
    right: u32,
    parent: u32,
) -> Result<(), Unserved>
    requires fits { R.fits rows.old seat.old }
    requires holds { Holds (R.shape rows.old) (R.view seat.old) work.old.session work.old.log }
    requires may { MayChange (R.view seat.old) work.old.session work.old.log key }
    requires can { CanSplit (R.view seat.old) work.old.session key left right parent }
    ensures fits { R.fits rows.new seat.new × (R.shape rows.new ≡ R.shape rows.old) }
    ensures holds { work.new.session.works ≡ true → Holds (R.shape rows.new) (R.view seat.new) work.new.session work.new.log }
    ensures session { IsSameSession work.old.session work.new.session }
    ensures grew { Made result key (R.view seat.old) (R.view seat.new) work.old.session work.new.session work.old.log work.new.log (D.story work.old.disk) (D.story work.new.disk) (work.new ≡ work.old) (work.new.session.works ≡ false) }
    ensures works { work.new.session.works ≡ works_after result }
    ensures cause_disk_fault { HasCause (D.faults work.old.disk) (D.faults work.new.disk) (result ≡ Err disk_fault) }
{
    row_changes::every_low();
    row_changes::every_room();
    next_fits(rows, seat);
    let frames = work.session.frames;
    let outcome = split(
        rows,
        seat,
        work.session.own,
        frames,
        left,
        right,
        parent,
        work,
    );
    rows.versions(seat);
    finish(&mut work.session, outcome)
}

// Makes the change, into the page in the frame, and takes it.
fn change_tree<R: Rows, D: Stages>(
    rows: &mut R,
    seat: &mut R::Seat,
    work: &mut Work<D>,
    key: u64,
    next: Next,
    frame: u32,
) -> Result<(), Unserved>
    requires fits { R.fits rows.old seat.old }
    requires holds { Holds (R.shape rows.old) (R.view seat.old) work.old.session work.old.log }
    requires may { MayChange (R.view seat.old) work.old.session work.old.log key }
    requires can { CanGrow (R.view seat.old) work.old.session key frame next }
    ensures fits { R.fits rows.new seat.new × (R.shape rows.new ≡ R.shape rows.old) }
    ensures holds { work.new.session.works ≡ true → Holds (R.shape rows.new) (R.view seat.new) work.new.session work.new.log }
    ensures session { IsSameSession work.old.session work.new.session }
    ensures grew { Made result key (R.view seat.old) (R.view seat.new) work.old.session work.new.session work.old.log work.new.log (D.story work.old.disk) (D.story work.new.disk) (work.new ≡ work.old) (work.new.session.works ≡ false) }
    ensures works { work.new.session.works ≡ works_after result }
    ensures cause_disk_fault { HasCause (D.faults work.old.disk) (D.faults work.new.disk) (result ≡ Err disk_fault) }
{
    match next {
        Next::Lift { page: _ } => lift_root(rows, seat, work, key, frame),
        Next::Split { left, parent, .. } => {
            split_page(rows, seat, work, key, left, frame, parent)
        }
    }
}

// Makes the change, if the free page that it takes is in a frame.
fn change_into<R: Rows, D: Stages>(
    rows: &mut R,
    seat: &mut R::Seat,
    work: &mut Work<D>,
    key: u64,
    next: Next,
    placed: Option<Placed>,
) -> Result<Growth, Unserved>
    requires fits { R.fits rows.old seat.old }
    requires holds { Holds (R.shape rows.old) (R.view seat.old) work.old.session work.old.log }
    requires may { MayChange (R.view seat.old) work.old.session work.old.log key }
    requires takes { Takes (R.view seat.old) work.old.session key next }
    requires placed { IsPlaced (R.view seat.old) placed }
    ensures fits { R.fits rows.new seat.new × (R.shape rows.new ≡ R.shape rows.old) }
    ensures holds { work.new.session.works ≡ true → Holds (R.shape rows.new) (R.view seat.new) work.new.session work.new.log }
    ensures session { IsSameSession work.old.session work.new.session }
    ensures grew { Grew result key placed (R.view seat.old) (R.view seat.new) work.old.session work.new.session work.old.log work.new.log (D.story work.old.disk) (D.story work.new.disk) (work.new ≡ work.old) (work.new.session.works ≡ false) }
    ensures works { work.new.session.works ≡ works_after result }
    ensures cause_disk_fault { HasCause (D.faults work.old.disk) (D.faults work.new.disk) (result ≡ Err disk_fault) }
{
    let page = page_of(next);
    match frame_among(placed, page) {
        Some(frame) => match change_tree(rows, seat, work, key, next, frame) {
            Ok(()) => Ok(Growth::Grown),
            Err(why) => Err(why),
        },
        None => Ok(Growth::Needs { page }),
    }
}

/// One change of the tree on the way to room for a key whose leaf, at the end of the path, is full. It takes the least free page, which is to stand in a
/// frame: `placed` is a free page that was brought into one, if one was. Where it is another page that is taken, the answer names that, and nothing was done.
pub fn make_room<R: Rows, D: Stages>(
    rows: &mut R,
    seat: &mut R::Seat,
    work: &mut Work<D>,
    key: u64,
    path: &Path,
    placed: Option<Placed>,
) -> Result<Growth, Unserved>
    requires fits { R.fits rows.old seat.old }
    requires holds { Holds (R.shape rows.old) (R.view seat.old) work.old.session work.old.log }
    requires may { MayChange (R.view seat.old) work.old.session work.old.log key }
    requires leads { LeadsToFull (R.view seat.old) work.old.session.frames key path.now }
    requires placed { IsPlaced (R.view seat.old) placed }
    ensures fits { R.fits rows.new seat.new × (R.shape rows.new ≡ R.shape rows.old) }
    ensures holds { work.new.session.works ≡ true → Holds (R.shape rows.new) (R.view seat.new) work.new.session work.new.log }
    ensures session { IsSameSession work.old.session work.new.session }
    ensures grew { Grew result key placed (R.view seat.old) (R.view seat.new) work.old.session work.new.session work.old.log work.new.log (D.story work.old.disk) (D.story work.new.disk) (work.new ≡ work.old) (work.new.session.works ≡ false) }
    ensures works { work.new.session.works ≡ works_after result }
    ensures cause_disk_fault { HasCause (D.faults work.old.disk) (D.faults work.new.disk) (result ≡ Err disk_fault) }
{
    row_changes::every_room();
    let frames = work.session.frames;
    let run = match full_run(rows, seat, work.session.own, frames, path) {
        Ok(run) => run,
        Err(_) => unreachable!(),
    };
    match next_room(path, run, &work.session.free) {
        Ok(next) => change_into(rows, seat, work, key, next, placed),
        Err(why) => Err(Unserved::Refused(why)),
    }
}
