// A clock that is copied in, beside a log that is lent and has room for one record: the trait can be met over fields of an engine.
ghost use Rattle.std.specs.Prelude.{◌≡◌, ◌≤◌, ◌<◌, suc, ℕ, List, [], ◌∷◌, Some, None, IsErr, IfErr, OnOk};
ghost use Rattle.btree_descent.specs.log_record.declared.record.Record.{Record};
ghost use Rattle.btree_descent.specs.draw_trait.Clocks.{Clock};

use btree_descent::{Body, Draw, Record, Unstaged};

// The last number of a log, and its one record.
#[derive(Drop)]
struct OneRecord {
    last: u64,
    entry: Option<Record>,
}

// A worker's clock, with its log.
#[derive(Drop)]
struct Drawing<'a> {
    worker: u32,
    txn: u64,
    clock: u64,
    floor: u64,
    debt: u64,
    log: &'a mut OneRecord,
}

impl<'a> Draw for Drawing<'a> {
    ghost log_of = { λ s. s.worker };

    ghost txn_of = { λ s. s.txn };

    ghost clock_of = { λ s. record { clock = s.clock; floor = s.floor; debt = s.debt } };

    ghost last_of = { λ s. s.log.now.last };

    ghost staged_of = { λ s. elim (s.log.now.entry) [ None ↦ [] | Some r ↦ r ∷ [] ] };

    ghost loans_of = { λ s. s.log.ghost_name ∷ [] };

    ghost stages = { λ s r t. IsErr r → s.log.now ≡ t.log.now };

    fn log(&self) -> u32 {
        self.worker
    }

    fn txn(&self) -> u64 {
        self.txn
    }

    fn touch(&mut self, number: u64, log: u32) {
        if self.floor < number && log != self.worker && log != 0 {
            self.debt = self.debt.max(number);
        }
        self.clock = self.clock.max(number);
    }

    fn next(&mut self) -> u64 {
        self.clock += 1;
        self.clock
    }

    fn stage(&mut self, entry: &Record) -> Result<(), Unstaged> {
        if self.log.entry.is_some() {
            return Err(Unstaged::LogFull { used: 1, limit: 1 });
        }
        self.log.entry = Some(*entry);
        self.log.last = entry.gsn;
        Ok(())
    }
}

// The page's number 9 is of log 2 and above the floor, so the worker of log 1 owes it, and draws 10; there is room for one record.
#[test]
fn a_change_is_drawn(rt: HostRuntime) {
    let mut log = OneRecord {
        last: 4,
        entry: None,
    };
    let mut draw = Drawing {
        worker: 1,
        txn: 3,
        clock: 4,
        floor: 5,
        debt: 0,
        log: &mut log,
    };
    draw.touch(9, 2);
    let debt = draw.debt;
    let number = draw.next();
    let entry = Record {
        txn: draw.txn(),
        gsn: number,
        body: Body::Commit { need: 9 },
    };
    let staged = draw.stage(&entry).is_ok();
    assert!(rt; debt == 9 && number == 10 && staged && log.last == 10);
}

// Stages an end through anything to draw from.
fn end<D: Draw>(draw: &mut D) -> Result<(), Unstaged>
    requires last { D.last_of draw.old ≤ (D.clock_of draw.old).clock }
    requires room { (D.clock_of draw.old).clock < 1000 }
    ensures last { OnOk result (D.last_of draw.new ≡ suc (D.clock_of draw.old).clock) }
    ensures loans { D.loans_of draw.new ≡ D.loans_of draw.old }
    ensures stages { IfErr result (λ u. D.stages draw.old (Err u) draw.new) }
{
    let gsn = draw.next();
    let entry = Record {
        txn: draw.txn(),
        gsn,
        body: Body::Commit { need: 0 },
    };
    draw.stage(&entry)
}

// What comes back in the log is what was staged, and what staging makes of it.
fn end_in(log: &mut OneRecord, clock: u64) -> Result<(), Unstaged>
    requires last { log.old.last ≤ clock }
    requires room { clock < 1000 }
    ensures last { OnOk result (log.new.last ≡ suc clock) }
    ensures same { IfErr result (λ _. log.old ≡ log.new) }
{
    let mut draw = Drawing {
        worker: 1,
        txn: 3,
        clock,
        floor: 5,
        debt: 0,
        log,
    };
    end(&mut draw)
}
