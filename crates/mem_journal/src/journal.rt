// The workers' logs and clocks, and the journal.
use crate::place::MemJournal;
use transactions::{Hindrance, Journal, Receipt, Refusal};

impl Journal for MemJournal {
    ghost use Rattle.std.specs.Prelude.{ℕ, false};
    ghost use Rattle.mem_journal.specs.Views.{view_of, used_of, clock_at};
    ghost use Rattle.mem_journal.specs.Places.{Waits};
    ghost use Rattle.mem_journal.specs.Laws.{clock_law};

    ghost used = { λ a w. used_of (view_of a) w };

    ghost limit = { λ a w. a.room };

    ghost clock_of = { λ a w. clock_at (view_of a) w };

    ghost is_due = { λ a w. false };

    ghost group_waits = { Waits };

    ghost clock_is = { clock_law };

    fn room(&self, w: u32) -> Result<(), Refusal> {
        let used = self.used(w);
        if self.room <= used {
            return Err(Refusal::LogFull {
                used,
                limit: self.room,
            });
        }
        Ok(())
    }

    fn clock(&self, w: u32) -> u64 {
        if (w as usize) < self.workers.len() {
            return self.workers[w as usize].clock.number();
        }
        self.base
    }

    fn ready(&mut self, _w: u32) -> Result<(), Hindrance> {
        Ok(())
    }

    fn begin(&mut self, w: u32) -> Result<u64, Hindrance> {
        if !self.has(w) || !self.may_go_on(w) {
            return Err(Hindrance::DiskFault);
        }
        let worker = self.workers[w as usize];
        let flushed = self.flushed();
        self.begin_at(w, flushed);
        Ok(worker.txn + 1)
    }

    fn end(&mut self, w: u32, commit: bool) -> Result<Receipt, Hindrance> {
        if !self.has(w) || !self.may_go_on(w) {
            return Err(Hindrance::DiskFault);
        }
        let flushed = self.flushed();
        match self.end_at(w, commit, flushed) {
            Ok(receipt) => Ok(receipt),
            Err(_) => Err(Hindrance::DiskFault),
        }
    }

    fn flush_group(&mut self, w: u32) -> Result<(), Hindrance> {
        if !self.has(w) {
            return Err(Hindrance::DiskFault);
        }
        let worker = self.workers[w as usize];
        if worker.flushed < worker.end {
            self.flush(w);
        }
        Ok(())
    }
}
