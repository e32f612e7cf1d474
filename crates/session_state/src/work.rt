// What a session works on beside its rows.
ghost use Rattle.std.specs.Prelude.{◌≡◌, ◌≤◌, ◌<◌, ◌+◌, OnOk, IsErr, true, false};
ghost use Rattle.page_model.specs.Limits.{most_sessions};
ghost use Rattle.lean_disk.specs.Faults.{HasCause};
ghost use Rattle.lean_disk.specs.Moments.{Framed};
ghost use Rattle.btree_descent.specs.log_record.Spelling.{Fits};
ghost use Rattle.engine_calls.specs.worker_log.Calls.{After};
ghost use Rattle.engine_calls.specs.worker_log.Kept.{IsInRange};
ghost use Rattle.engine_calls.specs.worker_log.Logs.{used};
ghost use Rattle.engine_calls.specs.log_calls.Calls.{KeepsMoments, KeepsNotes, KeepsWithin, StagesOn};

use crate::session::Session;
use btree_descent::{Draw, Record, Staged, Unstaged, one_more};
use engine_calls::{DiskFault, RESERVE, WorkerLog};
use lean_disk::{Disk, MemDisk};
use std::marker::Brand;

/// Its disk and its log, and what it has in memory.
pub struct Work<D> {
    pub disk: D,
    pub log: WorkerLog,
    pub session: Session,
    pub staged: Staged,
}

/// A disk on which a log stages. Each disk writes it as `log_calls::stage_end(self, log, own, entry)`: the method of an impl may not call
/// what is generic over its disk.
pub trait Stages: Disk {
    /// Puts a record into log `own`, in the blocks that are kept back too.
    fn stage_on(&mut self, log: &mut WorkerLog, own: u32, entry: &Record) -> Result<(), DiskFault>
        requires number { own ≤ most_sessions }
        requires fits { Fits entry.now }
        requires rises { log.old.last < entry.now.gsn }
        requires room { used log.old + 1 ≤ log.old.blocks }
        ensures ranges { IsInRange log.new }
        ensures after { OnOk result (After entry.now log.old log.new) }
        ensures last { OnOk result (log.new.last ≡ entry.now.gsn) }
        ensures failed { IsErr result → log.new ≡ log.old }
        ensures stands { OnOk result (StagesOn own entry.now log.old log.new (Self.story self.old) (Self.story self.new)) }
        ensures any_moment { KeepsMoments own log.old (Self.story self.old) (Self.story self.new) }
        ensures told { KeepsNotes own log.old (Self.story self.old) (Self.story self.new) }
        ensures within { KeepsWithin own log.old (Self.story self.old) (Self.story self.new) }
        ensures frame { Framed (own + 1) (Self.story self.old) (Self.story self.new) }
        ensures same_notes { (Self.story self.new).notes ≡ (Self.story self.old).notes }

        ensures cause_disk_fault { HasCause (Self.faults self.old) (Self.faults self.new) (IsErr result) };
}

impl Stages for MemDisk {
    fn stage_on(&mut self, log: &mut WorkerLog, own: u32, entry: &Record) -> Result<(), DiskFault> {
        engine_calls::stage_end(self, log, own, entry)
    }
}

// Whether the log has no block for a further record, not even one that is kept back.
fn is_used_up(log: &WorkerLog) -> bool
    ensures full { result ≡ true → log.now.blocks ≤ used log.now }
    ensures room { result ≡ false → used log.now + 1 ≤ log.now.blocks }
{
    // The log is in its ranges.
    log.last();
    log.limit() + RESERVE <= log.used()
}

impl<D: Stages> Draw for Work<D> {
    ghost use Rattle.std.specs.Prelude.{◌≡◌};
    ghost use Rattle.flush_avoidance.specs.Clocks.{risen};
    ghost use Rattle.session_state.specs.Staging.{Staging};

    ghost log_of = { λ s. s.session.own };

    ghost txn_of = { λ s. s.session.txn };

    ghost clock_of = { λ s. s.session.clock };

    ghost last_of = { λ s. s.log.last };

    ghost staged_of = { λ s. s.staged.list };

    ghost touches = { λ s t. t ≡ record s { session = record s.session { clock = risen s.session.clock t.session.clock } } };

    ghost stages = { λ s r t. Staging r s.session t.session s.staged.list t.staged.list s.log t.log (D.story s.disk) (D.story t.disk) (t.disk ≡ s.disk) (D.faults s.disk) (D.faults t.disk) };

    fn log(&self) -> u32 {
        self.session.own
    }

    fn txn(&self) -> u64 {
        self.session.txn
    }

    fn touch(&mut self, number: u64, log: u32) {
        self.session.clock.touch(self.session.own, number, log);
    }

    fn next(&mut self) -> u64 {
        self.session.clock.next()
    }

    fn stage(&mut self, entry: &Record) -> Result<(), Unstaged> {
        // The call that stages tested its log before, and counted what it may stage.
        if is_used_up(&self.log) {
            return Err(Unstaged::LogFull {
                used: self.log.used(),
                limit: self.log.limit(),
            });
        }
        match self.disk.stage_on(&mut self.log, self.session.own, entry) {
            Ok(()) => {
                // The first record of a transaction keeps logs from being cut behind it.
                self.session.first = self.session.first.or(Some(entry.gsn));
                self.staged = one_more::<Brand>(&self.staged, entry);
                Ok(())
            }
            Err(DiskFault) => Err(Unstaged::DiskFault),
        }
    }
}
