//! Changes of the tree's structure, purges, and runs of full nodes.
ghost use Rattle.std.specs.Prelude.{◌≡◌, ◌<◌, ◌≤◌, true, IsTrue, EachIndex, slice_index};
ghost use Rattle.row_sessions.specs.Standing.{Stands, IsDrawer};

use crate::session::{CLOCK_END, Session, session_of, set_session};
use crate::sessions::Sessions;
use btree_descent::Path;
use btree_smo::drop_root::drop_root;
use btree_smo::join::join;
use btree_smo::lift::lift;
use btree_smo::outcome::Outcome;
use btree_smo::purge::{Purged, purge};
use btree_smo::room::full_run;
use btree_smo::split::split;

/// Why the tree stayed as it was.
#[derive(Clone, Copy)]
pub enum Unchanged {
    /// The worker has no transaction open, or its clock has come to `CLOCK_END`.
    Spent,
    /// There are fewer frames.
    NoFrame,
    /// The pages did not take it.
    Refused(Outcome),
}

/// Why a leaf kept its tombstones.
#[derive(Clone, Copy)]
pub enum Unpurged {
    /// The worker has no transaction open, or its clock has come to `CLOCK_END`.
    Spent,
    /// There are fewer frames.
    NoFrame,
    /// No tombstone can go, or more entries than asked would be left: so many.
    Spared(usize),
    /// The leaf did not take it.
    Refused(Outcome),
}

// The session may draw a number.
fn may_draw(session: &Session) -> bool
    ensures { result ≡ true → IsDrawer session.now }
{
    session.is_open && session.clock < CLOCK_END
}

// Each frame of the path is one of so many.
fn are_frames(path: &Path, frames: u32) -> bool
    ensures { IsTrue result → EachIndex path.now (λ k. slice_index path.now k < frames) }
{
    path.frames().iter().all(|frame| *frame < frames)
}

impl Sessions {
    /// Lifts the root into the free page of a frame.
    pub fn lift(&mut self, worker: u32, frame: u32) -> Result<(), Unchanged>
        requires stands { Stands self.old }
        requires worker { (0 < worker) × (worker ≤ self.old.rows.workers) }
        ensures stands { Stands self.new }
        ensures same { self.new.rows.workers ≡ self.old.rows.workers }
    {
        if frame >= self.frames {
            return Err(Unchanged::NoFrame);
        }
        let session = session_of(&self.sessions, worker);
        if !may_draw(&session) {
            return Err(Unchanged::Spent);
        }
        self.drawing.start(worker, &session);
        match lift(
            &mut self.rows,
            &mut self.seat,
            worker,
            self.frames,
            frame,
            &mut self.drawing,
        ) {
            Outcome::Done => {
                let drew = session.drew(&self.drawing.session);
                set_session(&mut self.sessions, worker, drew);
                Ok(())
            }
            outcome => Err(Unchanged::Refused(outcome)),
        }
    }

    /// Drops the root's one child, the page of a frame, and gives the root its contents.
    pub fn drop_root(&mut self, worker: u32, frame: u32) -> Result<(), Unchanged>
        requires stands { Stands self.old }
        requires worker { (0 < worker) × (worker ≤ self.old.rows.workers) }
        ensures stands { Stands self.new }
        ensures same { self.new.rows.workers ≡ self.old.rows.workers }
    {
        if frame >= self.frames {
            return Err(Unchanged::NoFrame);
        }
        let session = session_of(&self.sessions, worker);
        if !may_draw(&session) {
            return Err(Unchanged::Spent);
        }
        self.drawing.start(worker, &session);
        match drop_root(
            &mut self.rows,
            &mut self.seat,
            worker,
            self.frames,
            frame,
            &mut self.drawing,
        ) {
            Outcome::Done => {
                let drew = session.drew(&self.drawing.session);
                set_session(&mut self.sessions, worker, drew);
                Ok(())
            }
            outcome => Err(Unchanged::Refused(outcome)),
        }
    }

    /// Splits the page of frame `left` into the free one of frame `right`, under the page of frame `parent`.
    pub fn split(
        &mut self,
        worker: u32,
        left: u32,
        right: u32,
        parent: u32,
    ) -> Result<(), Unchanged>
        requires stands { Stands self.old }
        requires worker { (0 < worker) × (worker ≤ self.old.rows.workers) }
        ensures stands { Stands self.new }
        ensures same { self.new.rows.workers ≡ self.old.rows.workers }
    {
        if left >= self.frames || right >= self.frames || parent >= self.frames {
            return Err(Unchanged::NoFrame);
        }
        let session = session_of(&self.sessions, worker);
        if !may_draw(&session) {
            return Err(Unchanged::Spent);
        }
        self.drawing.start(worker, &session);
        match split(
            &mut self.rows,
            &mut self.seat,
            worker,
            self.frames,
            left,
            right,
            parent,
            &mut self.drawing,
        ) {
            Outcome::Done => {
                let drew = session.drew(&self.drawing.session);
                set_session(&mut self.sessions, worker, drew);
                Ok(())
            }
            outcome => Err(Unchanged::Refused(outcome)),
        }
    }

    /// Joins the page of frame `left` with its right neighbour, that of frame `right`, under the page of frame `parent`.
    pub fn join(&mut self, worker: u32, left: u32, right: u32, parent: u32) -> Result<(), Unchanged>
        requires stands { Stands self.old }
        requires worker { (0 < worker) × (worker ≤ self.old.rows.workers) }
        ensures stands { Stands self.new }
        ensures same { self.new.rows.workers ≡ self.old.rows.workers }
    {
        if left >= self.frames || right >= self.frames || parent >= self.frames {
            return Err(Unchanged::NoFrame);
        }
        let session = session_of(&self.sessions, worker);
        if !may_draw(&session) {
            return Err(Unchanged::Spent);
        }
        self.drawing.start(worker, &session);
        match join(
            &mut self.rows,
            &mut self.seat,
            worker,
            self.frames,
            left,
            right,
            parent,
            &mut self.drawing,
        ) {
            Outcome::Done => {
                let drew = session.drew(&self.drawing.session);
                set_session(&mut self.sessions, worker, drew);
                Ok(())
            }
            outcome => Err(Unchanged::Refused(outcome)),
        }
    }

    /// Purges the tombstones that nobody can need of the leaf of a frame, where at most `most` entries are left then.
    pub fn purge(&mut self, worker: u32, leaf: u32, most: usize) -> Result<(), Unpurged>
        requires stands { Stands self.old }
        requires worker { (0 < worker) × (worker ≤ self.old.rows.workers) }
        ensures stands { Stands self.new }
        ensures same { self.new.rows.workers ≡ self.old.rows.workers }
    {
        if leaf >= self.frames {
            return Err(Unpurged::NoFrame);
        }
        let session = session_of(&self.sessions, worker);
        if !may_draw(&session) {
            return Err(Unpurged::Spent);
        }
        self.drawing.start(worker, &session);
        match purge(
            &mut self.rows,
            &mut self.seat,
            worker,
            self.frames,
            self.locks,
            self.base,
            most,
            leaf,
            &mut self.drawing,
        ) {
            Purged::Done => {
                let drew = session.drew(&self.drawing.session);
                set_session(&mut self.sessions, worker, drew);
                Ok(())
            }
            Purged::Spared { left } => Err(Unpurged::Spared(left)),
            Purged::Refused(outcome) => Err(Unpurged::Refused(outcome)),
        }
    }

    /// How many nodes at the end of a path are full, seen by the main actor. None where a frame of the path is none of these.
    pub fn full_run(&mut self, path: &Path) -> Option<usize>
        requires stands { Stands self.old }
        ensures stands { Stands self.new }
        ensures same { self.new.rows.workers ≡ self.old.rows.workers }
    {
        if !are_frames(path, self.frames) {
            return None;
        }
        match full_run(&mut self.rows, &mut self.seat, 0, self.frames, path) {
            Ok(run) => Some(run),
            Err(_) => None,
        }
    }

    /// From now on the log takes no record.
    pub fn fill_log(&mut self)
        requires stands { Stands self.old }
        ensures stands { Stands self.new }
        ensures same { self.new.rows.workers ≡ self.old.rows.workers }
    {
        self.drawing.is_full = true;
    }
}
