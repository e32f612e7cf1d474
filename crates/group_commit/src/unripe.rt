// The ends of all sessions that wait, and the next commit that is durable.
ghost use Rattle.std.specs.Prelude.{◌≡◌, ◌<◌, ◌≤◌, ◌-◌, ◌+◌, ℕ, length, drop, IfOk, IfSome, List, None, false, true};
ghost use Rattle.rfa_model.specs.Reaches.{least};
ghost use Rattle.group_commit.specs.Ripeness.{flushed_of};
ghost use Rattle.group_commit.specs.Queues.{queue_of, AreNew, begins_ripe, pushed, receipt_of, sooner, IsSettled, IsSoonest, Takes, next_of, queued, without_first};

use crate::queue::{End, Queue, ROOM};
use crate::receipts::{LOGS, Receipt, least_of};
use std::alloc::{AllocError, Global};
use std::marker::Model;

/// A queue for each of sessions 1, 2, ..: its ends that are not known to be ripe, but for commits that were taken, the oldest first. Room
/// for all is reserved when it is made, so that no call takes memory.
#[derive(Drop)]
pub struct Unripe {
    queues: Vec<Queue>,
}

impl Model for Unripe {
    ghost use Rattle.std.specs.Prelude.{List, ◌≤◌, vec_len};
    ghost use Rattle.group_commit.specs.declared.queue.End.{End};
    ghost use Rattle.group_commit.specs.declared.receipts.TheConstants.{LOGS};

    ghost Value = { List (List End) };

    ghost view = { λ u. u.queues.items };

    ghost invariant = { λ u. vec_len u.queues ≤ LOGS };
}

// The receipt of an end of the session's.
fn receipt_of(log: u32, end: &End) -> Receipt
    ensures { result ≡ receipt_of log end.now }
{
    Receipt {
        txn: end.txn,
        log,
        gsn: end.gsn,
        need: end.need,
    }
}

// The second where its number is less, else the first.
fn sooner(first: Option<Receipt>, second: Receipt) -> Option<Receipt>
    ensures { result ≡ sooner first second }
{
    match first {
        Some(receipt) if receipt.gsn <= second.gsn => first,
        _ => Some(second),
    }
}

impl Unripe {
    /// For so many sessions, of which none has ended a transaction. The one error is that memory is refused.
    pub fn new(alloc: Global, workers: u32) -> Result<Unripe, AllocError>
        requires { workers ≤ LOGS }
        ensures { IfOk result (AreNew workers) }
    {
        let mut queues = Vec::with_capacity(alloc, workers as usize)?;
        for _ in 0..workers {
            queues.push_reserved(Queue::new(alloc)?);
        }
        Ok(Unripe { queues })
    }

    /// How many sessions there are.
    pub fn len(&self) -> usize
        ensures { result ≡ length self.now }
    {
        self.queues.len()
    }

    /// The session of the receipt's log has ended a transaction, by a commit or by an abort.
    pub fn push(&mut self, receipt: Receipt, is_commit: bool)
        requires log { (0 < receipt.log) × (receipt.log ≤ length self.old) }
        requires room { length (queue_of self.old receipt.log) < ROOM }
        ensures { self.new ≡ pushed receipt is_commit self.old }
    {
        let queue = &mut self.queues[receipt.log as usize - 1];
        queue.push(End {
            txn: receipt.txn,
            gsn: receipt.gsn,
            need: receipt.need,
            is_commit,
        });
    }

    /// How many ends the session's queue has. Where a take finds none, they are those that are not ripe.
    pub fn waiting(&self, w: u32) -> usize
        requires { (0 < w) × (w ≤ length self.now) }
        ensures { result ≡ length (queue_of self.now w) }
    {
        self.queues[w as usize - 1].len()
    }

    // Whether no session's oldest end is ripe.
    fn is_calm(&self, flushed: &[u64], all: u64) -> bool
        requires { length flushed.now ≡ length self.now }
        ensures { result ≡ true → (w : ℕ) → 0 < w → w ≤ length self.now → begins_ripe (flushed_of flushed.now w) all (queue_of self.now w) ≡ false }
    {
        for i in 0..flushed.len() {
            if self.queues[i].begins_ripe(flushed[i], all) {
                return false;
            }
        }
        true
    }

    // Ripe aborts go from the head of each queue.
    fn settle(&mut self, flushed: &[u64], all: u64)
        requires { length flushed.now ≡ length self.old }
        ensures { IsSettled flushed.now all self.old self.new }
    {
        for i in 0..flushed.len() {
            let queue = &mut self.queues[i];
            queue.settle(flushed[i], all);
        }
    }

    // The receipt of the session's oldest end, if it is a ripe commit.
    fn next_of(&self, w: u32, flushed: &[u64], all: u64) -> Option<Receipt>
        requires own { (0 < w) × (w ≤ length self.now) }
        requires same { length flushed.now ≡ length self.now }
        ensures { result ≡ next_of flushed.now all self.now w }
    {
        let at = w as usize - 1;
        match self.queues[at].ripe_first(flushed[at], all) {
            Some(end) => Some(receipt_of(w, &end)),
            None => None,
        }
    }

    // The first of them by number, ties by session.
    fn soonest(&self, flushed: &[u64], all: u64) -> Option<Receipt>
        requires { length flushed.now ≡ length self.now }
        ensures { IsSoonest (next_of flushed.now all self.now) (length self.now) result }
    {
        let mut found: Option<Receipt> = None;
        for i in 0..self.queues.len() {
            if let Some(receipt) = self.next_of(i as u32 + 1, flushed, all) {
                found = sooner(found, receipt);
            }
        }
        found
    }

    // The oldest end of the session goes.
    fn drop_first(&mut self, w: u32)
        requires { (0 < w) × (w ≤ length self.old) }
        ensures { self.new ≡ without_first w self.old }
    {
        let queue = &mut self.queues[w as usize - 1];
        queue.drop_first();
    }

    /// The ripe commit that comes first by number, ties by session, where log w is flushed up to `flushed[w - 1]`; it goes. Of a session
    /// the oldest end alone is looked at, since its ends get ripe in turn.
    pub fn take(&mut self, flushed: &[u64]) -> Option<Receipt>
        requires { length flushed.now ≡ length self.old }
        ensures takes { Takes flushed.now self.old result self.new }
        ensures fewer { IfSome result (λ r. queued self.new < queued self.old) }
        // Where it found none, it finds none again.
        ensures again { result ≡ None → Takes flushed.now self.new None self.new }
    {
        let all = least_of(flushed);
        if self.is_calm(flushed, all) {
            return None;
        }
        self.settle(flushed, all);
        let found = self.soonest(flushed, all);
        if let Some(receipt) = found {
            self.drop_first(receipt.log);
        }
        found
    }
}
