// What is next from a level of a key's way on, where all below it is done.
ghost use Rattle.std.specs.Prelude.{◌≡◌, ◌≤◌, ◌<◌, ℕ, true, false};
ghost use Rattle.row_tidying.specs.row_ends.Flushed.{Looked};
ghost use Rattle.row_changes.specs.session_state.Holds.{Holds};
ghost use Rattle.row_walks.specs.Inside.Ways.{IsWayIn};
ghost use Rattle.row_walks.specs.Inside.Nexts.{IsNext, IsNoSingle, IsRootNext, IsStop};
ghost use Rattle.row_walks.specs.declared.levels.Level.TheVariants as level;

use crate::levels::{Level, look_level, see};
use row_changes::{Path, Rows, Session, WorkerLog, every_room, every_warm};

/// The next change of the tree.
#[derive(Clone, Copy)]
pub(crate) enum Next {
    /// None is left.
    Nothing,
    /// All below this level is passed, and there this page, a neighbour, is not hot.
    Needs {
        page: u32,
        level: usize,
    },
    /// At this level the page in the frame `right`, `page`, is joined to its left neighbour, under the one in the frame `parent`.
    Joins {
        left: u32,
        right: u32,
        parent: u32,
        page: u32,
        level: usize,
    },
    /// The root's one child, this page, which stands in the frame, is dropped.
    Drops {
        frame: u32,
        page: u32,
    },
}

/// Where the walk up stops, and what it finds there.
#[derive(Clone, Copy)]
struct Stop {
    level: usize,
    found: Level,
}

// Whether the walk passes this level.
fn is_single(found: Level) -> bool
    ensures single { result ≡ true → found ≡ level.Single }
    ensures other { result ≡ false → IsNoSingle found }
{
    match found {
        Level::Single => true,
        Level::Thick => false,
        Level::Needs { page: _ } => false,
        Level::Joins {
            left: _,
            right: _,
            parent: _,
            page: _,
        } => false,
    }
}

// The higher of two levels.
fn higher(a: usize, b: usize) -> usize
    ensures least { (a ≤ result) × (b ≤ result) }
    ensures high { b ≤ a → result ≡ a }
    ensures low { a ≤ b → result ≡ b }
{
    if a < b { b } else { a }
}

// Goes up from this level, to the first one that the walk does not pass.
fn climb<R: Rows>(
    rows: &mut R,
    seat: &mut R::Seat,
    session: &Session,
    log: &WorkerLog,
    key: u64,
    path: &Path,
    from: usize,
) -> Stop
    requires fits { R.fits rows.old seat.old }
    requires holds { Holds (R.shape rows.old) (R.view seat.old) session.now log.now }
    requires open_is { session.now.is_open ≡ true }
    requires way { IsWayIn (R.view seat.old) key path.now }
    requires from { from ≤ 7 }
    ensures fits { R.fits rows.new seat.new × (R.shape rows.new ≡ R.shape rows.old) }
    ensures holds { Holds (R.shape rows.new) (R.view seat.new) session.now log.now }
    ensures looked { Looked (R.view seat.old) (R.view seat.new) }
    ensures stops { IsStop session.now.own (R.view seat.old) key from result.level result.found }
{
    every_warm();
    let top = path.len() - 1;
    for at in from..top {
        let found = look_level(rows, seat, session, log, key, path, at);
        if !is_single(found) {
            return Stop { level: at, found };
        }
    }
    // The root is not joined.
    Stop {
        level: higher(from, top),
        found: Level::Thick,
    }
}

// Whether the root's one child is dropped.
fn look_root<R: Rows>(
    rows: &mut R,
    seat: &mut R::Seat,
    session: &Session,
    log: &WorkerLog,
    path: &Path,
) -> Next
    requires fits { R.fits rows.old seat.old }
    requires holds { Holds (R.shape rows.old) (R.view seat.old) session.now log.now }
    requires way { (key : ℕ) × IsWayIn (R.view seat.old) key path.now }
    ensures fits { R.fits rows.new seat.new × (R.shape rows.new ≡ R.shape rows.old) }
    ensures holds { Holds (R.shape rows.new) (R.view seat.new) session.now log.now }
    ensures looked { Looked (R.view seat.old) (R.view seat.new) }
    ensures drops { IsRootNext result (R.view seat.old) }
{
    let frames = path.frames();
    let tall = frames.len();
    if tall < 2 {
        return Next::Nothing;
    }
    let root = see(rows, seat, session, log, 0);
    let pairs = root.node.count();
    if pairs != 1 {
        return Next::Nothing;
    }
    let frame = frames[1];
    let child = see(rows, seat, session, log, frame);
    Next::Drops {
        frame,
        page: child.node.number() as u32,
    }
}

// What is next from this level on.
pub(crate) fn look_up<R: Rows>(
    rows: &mut R,
    seat: &mut R::Seat,
    session: &Session,
    log: &WorkerLog,
    key: u64,
    path: &Path,
    from: usize,
) -> Next
    requires fits { R.fits rows.old seat.old }
    requires holds { Holds (R.shape rows.old) (R.view seat.old) session.now log.now }
    requires open_is { session.now.is_open ≡ true }
    requires way { IsWayIn (R.view seat.old) key path.now }
    requires from { from ≤ 7 }
    ensures fits { R.fits rows.new seat.new × (R.shape rows.new ≡ R.shape rows.old) }
    ensures holds { Holds (R.shape rows.new) (R.view seat.new) session.now log.now }
    ensures looked { Looked (R.view seat.old) (R.view seat.new) }
    ensures next { IsNext result session.now.own (R.view seat.old) key from }
{
    let stop = climb(rows, seat, session, log, key, path, from);
    match stop.found {
        Level::Thick => look_root(rows, seat, session, log, path),
        Level::Needs { page } => Next::Needs {
            page,
            level: stop.level,
        },
        Level::Joins {
            left,
            right,
            parent,
            page,
        } => Next::Joins {
            left,
            right,
            parent,
            page,
            level: stop.level,
        },
        // The walk passes it.
        Level::Single => unreachable!(),
    }
}
