//! What a change draws from its session: numbers, and a record that is written to a buffer.
ghost use Rattle.std.specs.Prelude.{◌≡◌};
ghost use Rattle.row_sessions.specs.Drawn.{clock_of};

use crate::session::Session;
use btree_descent::{Draw, LARGEST, Record, Staged, Unstaged, one_more, record_bytes};
use std::marker::Brand;

/// A worker's session as its change goes on, and the bytes of the last record. The log takes no record where it is full.
#[derive(Drop)]
pub struct Drawing {
    pub worker: u32,
    pub session: Session,
    pub buffer: [u8; LARGEST],
    pub staged: Staged,
    pub is_full: bool,
}

impl Drawing {
    /// Of no worker yet.
    pub fn new() -> Drawing {
        Drawing {
            worker: 0,
            session: Session::first(0),
            buffer: [0; LARGEST],
            staged: Staged::of::<Brand>(),
            is_full: false,
        }
    }

    /// Begins with a worker's session.
    pub fn start(&mut self, worker: u32, session: &Session)
        ensures worker { self.new.worker ≡ worker }
        ensures session { self.new.session ≡ session.now }
    {
        self.worker = worker;
        self.session = *session;
    }
}

impl Draw for Drawing {
    ghost use Rattle.row_sessions.specs.Drawn.{clock_of};

    ghost log_of = { λ d. d.worker };

    ghost txn_of = { λ d. d.session.txn };

    ghost clock_of = { λ d. clock_of d.session };

    ghost last_of = { λ d. d.session.last };

    ghost staged_of = { λ d. d.staged.list };

    fn log(&self) -> u32 {
        self.worker
    }

    fn txn(&self) -> u64 {
        self.session.txn
    }

    fn touch(&mut self, number: u64, log: u32) {
        self.session = self.session.touched(self.worker, number, log);
    }

    fn next(&mut self) -> u64 {
        let number = self.session.clock + 1;
        self.session.clock = number;
        number
    }

    fn stage(&mut self, entry: &Record) -> Result<(), Unstaged> {
        if self.is_full {
            return Err(Unstaged::LogFull { used: 1, limit: 1 });
        }
        let _ = record_bytes(entry, &mut self.buffer);
        self.staged = one_more::<Brand>(&self.staged, entry);
        self.session.last = entry.gsn;
        Ok(())
    }
}
