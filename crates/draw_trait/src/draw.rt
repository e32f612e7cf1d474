//! The clock and the log of one worker, as a change uses them.
ghost use Rattle.std.specs.Prelude.{◌≡◌, ◌+◌, ◌<◌, ◌≤◌, ◌^◌, ℕ, suc, List, [], ◌∷◌, Result, OnOk, OnErr};
ghost use Rattle.log_record.specs.Spelling.{Fits};
ghost use Rattle.log_record.specs.declared.record.Record.{Record};
ghost use Rattle.draw_trait.specs.declared.draw.Unstaged.{Unstaged};
ghost use Rattle.draw_trait.specs.Clocks.{Clock, touched, drawn};

use log_record::Record;

/// Why a record was not staged.
#[derive(Clone, Copy, Debug, PartialEq, Eq)]
pub enum Unstaged {
    /// The log has `used` of its `limit` blocks.
    LogFull { used: u32, limit: u32 },
    /// A write to the disk failed.
    DiskFault,
}

/// What a change of pages draws from its worker's clock and log: between its last latch and its first publish it touches each page
/// that its record changes, draws the number of the record and stages it.
pub trait Draw {
    // The number of the log, which is the worker's.
    ghost log_of: { Self → ℕ };

    // The worker's transaction.
    ghost txn_of: { Self → ℕ };

    // The worker's clock, its floor and its debt.
    ghost clock_of: { Self → Clock };

    // The number of the log's last record.
    ghost last_of: { Self → ℕ };

    // What was staged through it, the newest first.
    ghost staged_of: { Self → List Record };

    // The loans over which it reaches its log. No call changes them, so what was lent comes back as the last call left it.
    ghost loans_of: { Self → List ℕ } = { λ _. [] };

    // What touching makes of it beyond its clock, as the implementation says it.
    ghost touches: { Self → Self → Type 0 } = { λ _ _. Unit {0} };

    // When staging has this outcome, and what it makes of the log and its disk beyond that, as the implementation says it. Touching and
    // drawing have no part in it.
    ghost stages: { Self → Result (Unit {0}) Unstaged → Self → Type 0 } = { λ _ _ _. Unit {0} };

    /// The number of the log.
    fn log(&self) -> u32
        ensures { result ≡ log_of self.now };

    /// The worker's transaction.
    fn txn(&self) -> u64
        ensures { result ≡ txn_of self.now };

    /// Touches a page, or what else has a stamp: the number and the log of the last record that changed it.
    fn touch(&mut self, number: u64, log: u32)
        ensures same { (log_of self.new ≡ log_of self.old) × (txn_of self.new ≡ txn_of self.old) × (loans_of self.new ≡ loans_of self.old) }
        ensures clock { clock_of self.new ≡ touched (log_of self.old) (clock_of self.old) number log }
        ensures last { last_of self.new ≡ last_of self.old }
        ensures staged { staged_of self.new ≡ staged_of self.old }
        ensures touches { touches self.old self.new }
        ensures stages { (r : _) (s : Self) → stages self.new r s → stages self.old r s };

    /// Draws the next number, which is above that of the log's last record.
    fn next(&mut self) -> u64
        requires room { (clock_of self.old).clock + 1 < 2 ^ 64 }
        requires last { last_of self.old ≤ (clock_of self.old).clock }
        ensures answer { result ≡ suc (clock_of self.old).clock }
        ensures same { (log_of self.new ≡ log_of self.old) × (txn_of self.new ≡ txn_of self.old) × (loans_of self.new ≡ loans_of self.old) }
        ensures clock { clock_of self.new ≡ drawn (clock_of self.old) }
        ensures last { last_of self.new ≡ last_of self.old }
        ensures staged { staged_of self.new ≡ staged_of self.old }
        ensures stages { (r : _) (s : Self) → stages self.new r s → stages self.old r s }
        ensures rises { last_of self.old < result };

    /// Stages the record of the number that was drawn. A refusal leaves the log as it was.
    fn stage(&mut self, entry: &Record) -> Result<(), Unstaged>
        requires number { entry.now.gsn ≡ (clock_of self.old).clock }
        requires rises { last_of self.old < entry.now.gsn }
        requires txn { entry.now.txn ≡ txn_of self.old }
        requires fits { Fits entry.now }
        ensures same { (log_of self.new ≡ log_of self.old) × (txn_of self.new ≡ txn_of self.old) × (loans_of self.new ≡ loans_of self.old) }
        ensures clock { clock_of self.new ≡ clock_of self.old }
        ensures stages { stages self.old result self.new }
        ensures last { OnOk result (last_of self.new ≡ entry.now.gsn) }
        ensures staged { OnOk result (staged_of self.new ≡ entry.now ∷ staged_of self.old) }
        ensures same_last { OnErr result (last_of self.new ≡ last_of self.old) }
        ensures same_staged { OnErr result (staged_of self.new ≡ staged_of self.old) };
}
