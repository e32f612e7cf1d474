// The calls of sessions, by their types.
ghost use Rattle.std.specs.Prelude.{◌≡◌, ◌↔◌, ◌<◌, Err, IfNone, IfOk, IfSome, false, true};
ghost use Rattle.map_model.specs.declared.call.Call.TheVariants as calls;
ghost use Rattle.lean_disk.specs.Faults.{HasCause};
ghost use Rattle.paged_scans.specs.engine_trait.Calls.{IsAsked};
ghost use Rattle.paged_scans.specs.engine_trait.Serving.{broken, disk_fault, unserved_answer};
ghost use Rattle.engine_front.specs.declared.calls.Next.{Next};
ghost use Rattle.paged_scans.specs.Calls.{step_answer};
ghost use Rattle.buffered_engine.specs.Calls.{Asked, AskedScan, IsStep, IsTo, IsValue, IsWas, TellsFewer, aborted_answer, began_answer, receipt_answer, synced_answer, value_answer, was_answer};
ghost use Rattle.buffered_engine.specs.Inside.Asks.{IsServed};
ghost use Rattle.buffered_engine.specs.Receipts.{IsReceipt, flushed_in};

use crate::engine::Engine;
use group_commit::Receipt;
use map_model::{Answer, Call};
use paged_scans::{Stages, Step, Unanswered, Unserved};

/// A transaction has begun, with this number.
#[derive(Clone, Copy, Debug, PartialEq, Eq)]
pub struct Began {
    pub number: u64,
}

/// The transaction with this number was aborted.
#[derive(Clone, Copy, Debug, PartialEq, Eq)]
pub struct Aborted {
    pub number: u64,
}

/// All logs are synced up to this number.
#[derive(Clone, Copy, Debug, PartialEq, Eq)]
pub struct Synced {
    pub at: u64,
}

// The step that is the answer to a scan.
fn step_in(answer: Result<Answer, Unanswered>) -> Result<Step, Unserved>
    requires { IsStep answer }
    ensures { answer ≡ step_answer result }
{
    match answer {
        Ok(Answer::Pair { key, value }) => Ok(Step::Pair { key, value }),
        Ok(Answer::More { from }) => Ok(Step::More { from }),
        Ok(Answer::End) => Ok(Step::End),
        Ok(Answer::Refused(why)) => Err(Unserved::Refused(why)),
        Err(why) => Err(Unserved::Unanswered(why)),
        _ => unreachable!(),
    }
}

// The transaction that the answer to a begin tells.
fn begun_in(answer: Result<Answer, Unanswered>) -> Result<Began, Unserved>
    requires { IsTo calls.Begin answer }
    ensures { answer ≡ began_answer result }
{
    match answer {
        Ok(Answer::Begun { number }) => Ok(Began { number }),
        Ok(Answer::Refused(why)) => Err(Unserved::Refused(why)),
        Err(why) => Err(Unserved::Unanswered(why)),
        _ => unreachable!(),
    }
}

// The value that the answer to a get tells.
fn value_in(answer: Result<Answer, Unanswered>) -> Result<Option<u64>, Unserved>
    requires { IsValue answer }
    ensures { answer ≡ value_answer result }
{
    match answer {
        Ok(Answer::Value(value)) => Ok(value),
        Ok(Answer::Refused(why)) => Err(Unserved::Refused(why)),
        Err(why) => Err(Unserved::Unanswered(why)),
        _ => unreachable!(),
    }
}

// What the answer to a put or a del tells.
fn was_in(answer: Result<Answer, Unanswered>) -> Result<Option<u64>, Unserved>
    requires { IsWas answer }
    ensures { answer ≡ was_answer result }
{
    match answer {
        Ok(Answer::Was(was)) => Ok(was),
        Ok(Answer::Refused(why)) => Err(Unserved::Refused(why)),
        Err(why) => Err(Unserved::Unanswered(why)),
        _ => unreachable!(),
    }
}

// The transaction that the answer to an abort tells.
fn aborted_in(answer: Result<Answer, Unanswered>) -> Result<Aborted, Unserved>
    requires { IsTo calls.Abort answer }
    ensures { answer ≡ aborted_answer result }
{
    match answer {
        Ok(Answer::Aborted { number }) => Ok(Aborted { number }),
        Ok(Answer::Refused(why)) => Err(Unserved::Refused(why)),
        Err(why) => Err(Unserved::Unanswered(why)),
        _ => unreachable!(),
    }
}

// The number that the answer to a sync tells.
fn synced_in(answer: Result<Answer, Unanswered>) -> Result<Synced, Unserved>
    requires { IsTo calls.Sync answer }
    ensures { answer ≡ synced_answer result }
{
    match answer {
        Ok(Answer::Synced { at }) => Ok(Synced { at }),
        Ok(Answer::Refused(why)) => Err(Unserved::Refused(why)),
        Err(why) => Err(Unserved::Unanswered(why)),
        _ => unreachable!(),
    }
}

// Why it was not served, if it was not.
fn unserved_in(answer: Result<Answer, Unanswered>) -> Option<Unserved>
    ensures served { IfNone result (IsServed answer) }
    ensures unserved { IfSome result (λ why. answer ≡ unserved_answer why) }
{
    match answer {
        Ok(Answer::Refused(why)) => Some(Unserved::Refused(why)),
        Err(why) => Some(Unserved::Unanswered(why)),
        Ok(_) => None,
    }
}

impl<D: Stages> Engine<D> {
    /// A session's transaction begins. Where `WAITING_ENDS` of its ends wait, a sync is made first.
    pub fn begin(&mut self, session: u32) -> Result<Began, Unserved>
        requires asked { IsAsked self.old.sessions session (calls.Begin) }
        requires next { self.old.next ≡ Next.Line }
        ensures asked { Asked D.story session (calls.Begin) (began_answer result) self.old self.new }

        ensures cause_broken { (result ≡ Err broken) ↔ (self.old.works ≡ false) }
        ensures cause_disk_fault { HasCause (D.faults self.old.disk) (D.faults self.new.disk) (result ≡ Err disk_fault) }
    {
        begun_in(self.ask(session, &Call::Begin).answer)
    }

    /// The value that a key has.
    pub fn get(&mut self, session: u32, key: u64) -> Result<Option<u64>, Unserved>
        requires asked { IsAsked self.old.sessions session (calls.Get key) }
        requires next { self.old.next ≡ Next.Line }
        ensures asked { Asked D.story session (calls.Get key) (value_answer result) self.old self.new }

        ensures cause_broken { (result ≡ Err broken) ↔ (self.old.works ≡ false) }
        ensures cause_disk_fault { HasCause (D.faults self.old.disk) (D.faults self.new.disk) (result ≡ Err disk_fault) }
    {
        value_in(self.ask(session, &Call::Get { key }).answer)
    }

    /// Gives a key a value. The answer is the value that it had.
    pub fn put(&mut self, session: u32, key: u64, value: u64) -> Result<Option<u64>, Unserved>
        requires asked { IsAsked self.old.sessions session (calls.Put key value) }
        requires next { self.old.next ≡ Next.Line }
        ensures asked { Asked D.story session (calls.Put key value) (was_answer result) self.old self.new }

        ensures cause_broken { (result ≡ Err broken) ↔ (self.old.works ≡ false) }
        ensures cause_disk_fault { HasCause (D.faults self.old.disk) (D.faults self.new.disk) (result ≡ Err disk_fault) }
    {
        was_in(self.ask(session, &Call::Put { key, value }).answer)
    }

    /// Takes a key away. The answer is the value that it had, if it had one.
    pub fn del(&mut self, session: u32, key: u64) -> Result<Option<u64>, Unserved>
        requires asked { IsAsked self.old.sessions session (calls.Del key) }
        requires next { self.old.next ≡ Next.Line }
        ensures asked { Asked D.story session (calls.Del key) (was_answer result) self.old self.new }

        ensures cause_broken { (result ≡ Err broken) ↔ (self.old.works ≡ false) }
        ensures cause_disk_fault { HasCause (D.faults self.old.disk) (D.faults self.new.disk) (result ≡ Err disk_fault) }
    {
        was_in(self.ask(session, &Call::Del { key }).answer)
    }

    /// The pairs from a key up to another, the least first: the first of them, or that there is none. Behind a pair the scan goes on by `next_pair`, until a step
    /// is no pair, and no other call may come before that.
    pub fn scan(&mut self, session: u32, from: u64, to: u64) -> Result<Step, Unserved>
        requires asked { IsAsked self.old.sessions session (calls.Scan from to) }
        requires next { self.old.next ≡ Next.Line }
        ensures asked { Asked D.story session (calls.Scan from to) (step_answer result) self.old self.new }

        ensures cause_broken { (result ≡ Err broken) ↔ (self.old.works ≡ false) }
        ensures cause_disk_fault { HasCause (D.faults self.old.disk) (D.faults self.new.disk) (result ≡ Err disk_fault) }
    {
        step_in(self.ask(session, &Call::Scan { from, to }).answer)
    }

    /// What follows a pair of a scan: the next pair, or from which key on it is to be asked again since it has told as many pairs as one scan does, or that there is
    /// no further one.
    pub fn next_pair(&mut self) -> Result<Step, Unserved>
        requires next { self.old.next ≡ Next.Scan }
        ensures asked { AskedScan D.story (step_answer result) self.old self.new }
        // So a scan ends.
        ensures fewer { self.new.works ≡ true → TellsFewer self.old self.new }

        ensures cause_broken { (result ≡ Err broken) ↔ (self.old.works ≡ false) }
        ensures cause_disk_fault { HasCause (D.faults self.old.disk) (D.faults self.new.disk) (result ≡ Err disk_fault) }
    {
        step_in(self.ask_scan())
    }

    /// A session's transaction commits. It is durable once its receipt is ripe.
    pub fn commit(&mut self, session: u32) -> Result<Receipt, Unserved>
        requires asked { IsAsked self.old.sessions session (calls.Commit) }
        requires next { self.old.next ≡ Next.Line }
        ensures asked { Asked D.story session (calls.Commit) (receipt_answer result) self.old self.new }
        ensures receipt { IfOk result (IsReceipt session (flushed_in self.old.view) self.new.view) }

        ensures cause_broken { (result ≡ Err broken) ↔ (self.old.works ≡ false) }
        ensures cause_disk_fault { HasCause (D.faults self.old.disk) (D.faults self.new.disk) (result ≡ Err disk_fault) }
    {
        let response = self.ask(session, &Call::Commit);
        if let Some(why) = unserved_in(response.answer) {
            return Err(why);
        }
        match response.receipt {
            Some(receipt) => Ok(receipt),
            None => unreachable!(),
        }
    }

    /// A session's transaction is aborted: its changes are put back. One that is refused may have put some back; then the next abort goes on.
    pub fn abort(&mut self, session: u32) -> Result<Aborted, Unserved>
        requires asked { IsAsked self.old.sessions session (calls.Abort) }
        requires next { self.old.next ≡ Next.Line }
        ensures asked { Asked D.story session (calls.Abort) (aborted_answer result) self.old self.new }

        ensures cause_broken { (result ≡ Err broken) ↔ (self.old.works ≡ false) }
        ensures cause_disk_fault { HasCause (D.faults self.old.disk) (D.faults self.new.disk) (result ≡ Err disk_fault) }
    {
        aborted_in(self.ask(session, &Call::Abort).answer)
    }

    /// Flushes every log, and raises every clock, and what is flushed of every log, to the greatest clock.
    pub fn sync(&mut self) -> Result<Synced, Unserved>
        requires next { self.old.next ≡ Next.Line }
        ensures asked { Asked D.story 0 calls.Sync (synced_answer result) self.old self.new }

        ensures cause_broken { (result ≡ Err broken) ↔ (self.old.works ≡ false) }
        ensures cause_disk_fault { HasCause (D.faults self.old.disk) (D.faults self.new.disk) (result ≡ Err disk_fault) }
    {
        synced_in(self.ask(0, &Call::Sync).answer)
    }
}
