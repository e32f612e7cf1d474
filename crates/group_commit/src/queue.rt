// The ends of one session that wait, the oldest first.
ghost use Rattle.std.specs.Prelude.{◌≡◌, ◌<◌, ◌≤◌, [], ◌∷◌, ◌++◌, length, drop, slice_get, IfOk};
ghost use Rattle.group_commit.specs.Queues.{is_ripe_at, begins_done, begins_ripe, ripe_first, settled};

use circular_buffer::HeapCircularBuffer;
use std::alloc::{AllocError, Global};
use std::marker::Model;

/// For how many ends of a session there is room: fewer than 256 wait where a transaction begins, and it has one.
pub const ROOM: usize = 257;

/// An end of a session's transaction, as its queue has it: the transaction's number, the end's, up to which number all logs are to be
/// flushed for it, and whether it is a commit.
#[derive(Clone, Copy, Debug, PartialEq, Eq)]
pub struct End {
    pub txn: u64,
    pub gsn: u64,
    pub need: u64,
    pub is_commit: bool,
}

/// The ends of one session that wait, the oldest first. Room for all is reserved when it is made.
#[derive(Drop)]
pub struct Queue {
    ends: HeapCircularBuffer<End>,
}

impl Model for Queue {
    ghost use Rattle.std.specs.Prelude.{◌≡◌, List};
    ghost use Rattle.group_commit.specs.declared.queue.End.{End};
    ghost use Rattle.group_commit.specs.declared.queue.TheConstants.{ROOM};

    ghost Value = { List End };

    ghost view = { λ q. q.ends.items };

    ghost invariant = { λ q. q.ends.capacity ≡ ROOM };
}

// Its log is flushed up to one number, and all logs up to another.
fn is_ripe_at(flushed: u64, all: u64, end: &End) -> bool
    ensures { result ≡ is_ripe_at flushed all end.now }
{
    end.gsn <= flushed && end.need <= all
}

impl Queue {
    /// A queue of no ends. The one error is that memory is refused.
    pub fn new(alloc: Global) -> Result<Queue, AllocError>
        ensures { IfOk result (λ q. q ≡ []) }
    {
        Ok(Queue {
            ends: HeapCircularBuffer::with_capacity(alloc, ROOM)?,
        })
    }

    /// How many ends there are.
    pub fn len(&self) -> usize
        ensures { result ≡ length self.now }
    {
        self.ends.len()
    }

    /// An end is put behind the others.
    pub fn push(&mut self, end: End)
        requires { length self.old < ROOM }
        ensures { self.new ≡ self.old ++ end ∷ [] }
    {
        let _ = self.ends.try_push_back(end);
    }

    /// The oldest end, if there is one.
    pub fn first(&self) -> Option<End>
        ensures { result ≡ slice_get self.now 0 }
    {
        self.ends.front().copied()
    }

    /// The oldest end goes.
    pub fn drop_first(&mut self)
        ensures { self.new ≡ drop 1 self.old }
    {
        let _ = self.ends.pop_front();
    }

    // The oldest end is a ripe abort.
    fn begins_done(&self, flushed: u64, all: u64) -> bool
        ensures { result ≡ begins_done flushed all self.now }
    {
        match self.first() {
            Some(end) => !end.is_commit && is_ripe_at(flushed, all, &end),
            None => false,
        }
    }

    /// Ripe aborts go, up to the first end that is none.
    pub fn settle(&mut self, flushed: u64, all: u64)
        ensures { self.new ≡ settled flushed all self.old }
    {
        while self.begins_done(flushed, all) {
            self.drop_first();
        }
    }

    /// Whether the oldest end is ripe.
    pub fn begins_ripe(&self, flushed: u64, all: u64) -> bool
        ensures { result ≡ begins_ripe flushed all self.now }
    {
        match self.first() {
            Some(end) => is_ripe_at(flushed, all, &end),
            None => false,
        }
    }

    /// The oldest end, if it is a ripe commit.
    pub fn ripe_first(&self, flushed: u64, all: u64) -> Option<End>
        ensures { result ≡ ripe_first flushed all self.now }
    {
        match self.first() {
            Some(end) => {
                if end.is_commit && is_ripe_at(flushed, all, &end) {
                    Some(end)
                } else {
                    None
                }
            }
            None => None,
        }
    }
}
