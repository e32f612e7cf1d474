//! Rows in plain memory and the sessions of all workers on them.
ghost use Rattle.std.specs.Prelude.{◌≡◌, ◌+◌, ◌<◌, ◌≤◌, ◌^◌, true, [], IfOk, replicate};
ghost use Rattle.btree_descent.specs.row_words.Openings.{opening};
ghost use Rattle.btree_descent.specs.rows_trait.Plain.{sizes};
ghost use Rattle.btree_descent.specs.rows_trait.Rule.{IsPicture, plan};
ghost use Rattle.btree_descent.specs.rows_trait.Views.{state};
ghost use Rattle.btree_descent.specs.Known.{IsSound};
ghost use Rattle.key_locks.specs.Rows as locks;
ghost use Rattle.row_sessions.specs.Standing.{Stands, first_session};

use crate::drawing::Drawing;
use crate::opening::are_pages;
use crate::session::{Session, session_of};
use btree_descent::{BtreeNodeNode as Node, PlainRows, RowsTraitTrace as Trace};
use key_locks::latches::Latches;
use row_opening::open_rows;
use std::alloc::{AllocError, Global};

/// Rows, their seat, and the sessions by worker; the first one is of the main actor, which finds and never begins.
#[derive(Drop)]
pub struct Sessions {
    pub(crate) rows: PlainRows,
    pub(crate) seat: Trace,
    pub(crate) sessions: Vec<Session>,
    pub(crate) latches: Latches,
    pub(crate) drawing: Drawing,
    pub(crate) frames: u32,
    pub(crate) locks: u32,
    pub(crate) base: u64,
}

/// Why sessions were not opened.
#[derive(Clone, Copy, Debug, PartialEq, Eq)]
pub enum Unopened {
    Memory,
    /// There is no worker, there are more than sixteen, or there is no lock row.
    Sizes,
    /// The pages are no tree, too many for the frames, of other numbers, or last changed by the log of no worker.
    Pages,
}

// So many sessions as they are at the beginning.
fn first_sessions(alloc: Global, workers: u32, base: u64) -> Result<Vec<Session>, AllocError>
    ensures { IfOk result (λ sessions. sessions.items ≡ replicate (workers + 1) (first_session base)) }
{
    let mut sessions = Vec::new(alloc);
    sessions.resize(workers as usize + 1, Session::first(base))?;
    Ok(sessions)
}

impl Sessions {
    /// Sessions on rows that begin with these pages, all flushed up to `base`.
    pub fn open(
        alloc: Global,
        pages: &[Node],
        frames: u32,
        locks: u32,
        workers: u32,
        base: u64,
    ) -> Result<Sessions, Unopened>
        ensures stands { IfOk result Stands }
        ensures sizes { IfOk result (λ s. s.rows.workers ≡ workers) }
    {
        if workers == 0 || workers > 16 || locks == 0 || frames >= 1 << 30 || locks >= 1 << 30 {
            return Err(Unopened::Sizes);
        }
        if pages.len() > frames as usize {
            return Err(Unopened::Pages);
        }
        match are_pages(alloc, pages, workers, base) {
            Ok(true) => {}
            Ok(false) => return Err(Unopened::Pages),
            Err(_) => return Err(Unopened::Memory),
        }
        let Ok((rows, seat)) = open_rows(alloc, pages, frames, locks, workers, base) else {
            return Err(Unopened::Memory);
        };
        let Ok(sessions) = first_sessions(alloc, workers, base) else {
            return Err(Unopened::Memory);
        };
        let Ok(latches) = Latches::new(alloc, locks) else {
            return Err(Unopened::Memory);
        };
        Ok(Sessions {
            rows,
            seat,
            sessions,
            latches,
            drawing: Drawing::new(),
            frames,
            locks,
            base,
        })
    }

    /// Whether a worker has a transaction open.
    pub fn is_open(&self, worker: u32) -> bool
        requires stands { Stands self.now }
        requires worker { worker ≤ self.now.rows.workers }
        ensures { result ≡ true → ((state self.now.seat.view).core.worker worker).is_open ≡ true }
    {
        session_of(&self.sessions, worker).is_open
    }

    /// The rows and their seat, without the sessions.
    pub fn into_rows(self) -> (PlainRows, Trace)
        requires stands { Stands self }
        ensures picture { IsPicture (plan (sizes result.0.frames result.0.locks result.0.workers) result.1.view.given) result.0.words.items result.1.view }
        ensures held { result.1.view.held ≡ [] }
        ensures sized { (0 < result.0.frames) × ((opening result.1.view.given).frames ≡ result.0.frames) }
        ensures sound { IsSound result.1.view.given }
        ensures locks { (0 < result.0.locks) × (result.1.view.given.rows ≡ result.0.locks) × locks.IsSound result.1.view.given }
        ensures workers { ((opening result.1.view.given).workers ≡ result.0.workers) × (result.0.workers ≡ self.rows.workers) × (result.0.workers ≤ 16) }
        ensures small { result.0.frames + result.0.locks < 2 ^ 32 }
        ensures seat { result.1.view ≡ self.seat.view }
    {
        let Sessions {
            rows,
            seat,
            sessions: _,
            latches: _,
            drawing: _,
            frames: _,
            locks: _,
            base: _,
        } = self;
        (rows, seat)
    }

    /// The words of the rows.
    pub fn words(&self) -> &[u64] {
        self.rows.words.as_slice()
    }
}
