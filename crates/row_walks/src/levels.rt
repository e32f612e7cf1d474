// What is found of one level of a key's way.
ghost use Rattle.std.specs.Prelude.{◌≡◌, ◌≤◌, ◌<◌, ℕ, suc, length, true};
ghost use Rattle.row_tidying.specs.row_ends.Flushed.{Looked};
ghost use Rattle.row_changes.specs.session_state.rows_trait.Views.{state};
ghost use Rattle.row_changes.specs.session_state.core_state.States.{Place};
ghost use Rattle.row_changes.specs.session_state.Holds.{Holds};
ghost use Rattle.row_walks.specs.Inside.Ways.{IsSeen, IsWayIn};
ghost use Rattle.row_walks.specs.Inside.Levels.{IsFound};

use page_model::limits::FRAME_BIT;
use row_changes::{Path, Rows, Session, WorkerLog, every_room};
use row_image::every_pair;
use row_image::frame::sight;
use row_image::sight::Sight;
use row_tidying::every_tidy;

/// How many pairs a thin page has at most.
pub(crate) const THIN: usize = 15;

/// How many pairs two pages that are joined have together at most.
pub(crate) const JOINED: usize = 45;

/// What a tidying finds of one level.
#[derive(Clone, Copy)]
pub(crate) enum Level {
    /// Its page has more pairs than a thin one, or is the root.
    Thick,
    /// It is thin, and has no neighbour with which it is joined.
    Single,
    /// It is thin, and its neighbour is not hot: this page is to be brought into a frame first.
    Needs {
        page: u32,
    },
    /// It is thin, and the page in the frame `right`, `page`, is joined to its left neighbour, under the one in the frame `parent`.
    Joins {
        left: u32,
        right: u32,
        parent: u32,
        page: u32,
    },
}

// The page that stands hot in the frame.
pub(crate) fn see<R: Rows>(
    rows: &mut R,
    seat: &mut R::Seat,
    session: &Session,
    log: &WorkerLog,
    frame: u32,
) -> Sight
    requires fits { R.fits rows.old seat.old }
    requires holds { Holds (R.shape rows.old) (R.view seat.old) session.now log.now }
    requires hot { (p : _) × ((state (R.view seat.old)).core.place p ≡ Place.Hot frame) }
    ensures fits { R.fits rows.new seat.new × (R.shape rows.new ≡ R.shape rows.old) }
    ensures holds { Holds (R.shape rows.new) (R.view seat.new) session.now log.now }
    ensures looked { Looked (R.view seat.old) (R.view seat.new) }
    ensures seen { IsSeen (R.view seat.old) frame result }
{
    match sight(rows, seat, session.own, session.frames, frame) {
        Ok(Some(seen)) => seen,
        // A page stands hot there, and nobody else steps.
        Ok(None) => unreachable!(),
        Err(_) => unreachable!(),
    }
}

// The pair with which pair `at` of so many is joined: the next one, or the one before the last.
fn beside(at: usize, count: usize) -> usize
    requires within { at < count }
    requires two { 2 ≤ count }
    ensures within { result < count }
    ensures next { suc at < count → result ≡ suc at }
    ensures last { suc at ≡ count → suc result ≡ at }
{
    if at + 1 == count { at - 1 } else { at + 1 }
}

// What is found of a level below the root's.
pub(crate) fn look_level<R: Rows>(
    rows: &mut R,
    seat: &mut R::Seat,
    session: &Session,
    log: &WorkerLog,
    key: u64,
    path: &Path,
    level: usize,
) -> Level
    requires fits { R.fits rows.old seat.old }
    requires holds { Holds (R.shape rows.old) (R.view seat.old) session.now log.now }
    requires open_is { session.now.is_open ≡ true }
    requires way { IsWayIn (R.view seat.old) key path.now }
    requires level { suc level < length path.now }
    ensures fits { R.fits rows.new seat.new × (R.shape rows.new ≡ R.shape rows.old) }
    ensures holds { Holds (R.shape rows.new) (R.view seat.new) session.now log.now }
    ensures looked { Looked (R.view seat.old) (R.view seat.new) }
    ensures found { IsFound result session.now.own (R.view seat.old) key level }
{
    every_pair();
    every_room();
    every_tidy();
    let frames = path.frames();
    let frame = frames[frames.len() - (level + 1)];
    let parent = frames[frames.len() - (level + 2)];
    let child = see(rows, seat, session, log, frame);
    let pairs = child.node.count();
    if THIN < pairs {
        return Level::Thick;
    }
    let above = see(rows, seat, session, log, parent);
    let Some(at) = above.pair_with(FRAME_BIT + u64::from(frame)) else {
        // The parent names it.
        unreachable!()
    };
    let at = at as usize;
    let count = above.node.count();
    if count < 2 {
        return Level::Single;
    }
    let other = beside(at, count);
    let word = above.node.word_at(other);
    if word < FRAME_BIT {
        return Level::Needs { page: word as u32 };
    }
    let neighbour = (word - FRAME_BIT) as u32;
    let sister = see(rows, seat, session, log, neighbour);
    if JOINED < pairs + sister.node.count() {
        return Level::Single;
    }
    if other < at {
        return Level::Joins {
            left: neighbour,
            right: frame,
            parent,
            page: child.node.number() as u32,
        };
    }
    Level::Joins {
        left: frame,
        right: neighbour,
        parent,
        page: sister.node.number() as u32,
    }
}
