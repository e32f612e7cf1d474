//! The numbers that a worker draws, and what it owes to the logs of others.
#![tactic(auto)]

ghost use Rattle.std.specs.Prelude.{◌≡◌, ◌+◌, ◌<◌, ◌^◌, suc};
ghost use Rattle.rfa_model.specs.Stamps.{is_remote, owed, debt_at_begin, need_of};
ghost use Rattle.flush_avoidance.specs.Clocks.{new_clock, after_touch, after_raise, after_begin, after_next};
ghost use Rattle.flush_avoidance.specs.Laws.{EveryClock};

/// A worker's clock: `clock` is the greatest number that it has drawn or met, `floor` up to where it found all logs flushed at its last
/// begin, and `debt` the greatest number of another log that it touched and that may not be flushed yet.
#[derive(Clone, Copy, PartialEq, Eq)]
pub struct Clock {
    pub clock: u64,
    pub floor: u64,
    pub debt: u64,
}

/// The stamp is above the floor, and of the log of another; log 0 is none.
fn is_remote(own: u32, floor: u64, number: u64, log: u32) -> bool
    ensures { result ≡ is_remote own floor number log }
{
    floor < number && log != own && log != 0
}

impl Clock {
    /// A clock, where all numbers start at the base.
    pub fn new(base: u64) -> Clock
        ensures { result ≡ new_clock base }
    {
        Clock {
            clock: base,
            floor: base,
            debt: 0,
        }
    }

    /// A stamp is met by the worker of log `own`: of a page, or of the last exclusive end of a lock row.
    pub fn touch(&mut self, own: u32, number: u64, log: u32)
        ensures { self.new ≡ after_touch own self.old number log }
    {
        if is_remote(own, self.floor, number, log) {
            self.debt = self.debt.max(number);
        }
        self.raise(number);
    }

    /// A number is met for which nothing is owed: of a reader's end, or of a sync of all.
    pub fn raise(&mut self, number: u64)
        ensures { self.new ≡ after_raise self.old number }
    {
        self.clock = self.clock.max(number);
    }

    /// A transaction begins, and finds all logs flushed up to this number. The debt is forgotten where it is flushed.
    pub fn begin(&mut self, flushed: u64)
        ensures { self.new ≡ after_begin self.old flushed }
    {
        self.floor = flushed;
        if self.debt <= flushed {
            self.debt = 0;
        }
    }

    /// Draws the next number.
    pub fn next(&mut self) -> u64
        requires { self.old.clock + 1 < 2 ^ 64 }
        ensures number { result ≡ suc self.old.clock }
        ensures after { self.new ≡ after_next self.old }
    {
        self.clock += 1;
        self.clock
    }

    /// The greatest number that was drawn or met.
    pub fn number(&self) -> u64
        ensures { result ≡ self.now.clock }
    {
        self.clock
    }

    /// Up to where all logs were found flushed at the last begin.
    pub fn floor(&self) -> u64
        ensures { result ≡ self.now.floor }
    {
        self.floor
    }

    /// The greatest number of another log that was touched and that may not be flushed yet.
    pub fn debt(&self) -> u64
        ensures { result ≡ self.now.debt }
    {
        self.debt
    }

    /// Up to which number all logs have to be flushed for an end, where they are found flushed up to this one.
    pub fn need(&self, flushed: u64) -> u64
        ensures { result ≡ need_of self.now.debt flushed }
    {
        if flushed < self.debt { self.debt } else { 0 }
    }
}

/// Over begins, touches and ends a clock goes as the model's worker does.
pub fn every_clock()
    ensures { EveryClock }
{}

#[cfg(test)]
mod tests {
    use super::*;

    enum Step {
        Touch(u64, u32),
        Raise(u64),
        Begin(u64),
        Next,
    }

    // A step; then the number, the debt, and the need where all logs are found flushed up to 2.
    static STEPS: [(Step, u64, u64, u64); 13] = [
        (Step::Begin(0), 0, 0, 0),
        // page 0 as worker 1 left it
        (Step::Touch(1, 1), 1, 1, 0),
        (Step::Next, 2, 1, 0),
        // its own page, and a stamp of no log
        (Step::Touch(2, 2), 2, 1, 0),
        (Step::Touch(3, 0), 3, 1, 0),
        (Step::Next, 4, 1, 0),
        // no log is flushed up to its debt yet
        (Step::Begin(0), 4, 1, 0),
        (Step::Touch(9, 1), 9, 9, 9),
        // a lesser one, and a reader's end
        (Step::Touch(5, 3), 9, 9, 9),
        (Step::Raise(12), 12, 9, 9),
        (Step::Begin(9), 12, 0, 0),
        // not above what was found flushed
        (Step::Touch(9, 1), 12, 0, 0),
        (Step::Touch(10, 1), 12, 10, 10),
    ];

    #[test]
    fn debts_follow_touches_and_begins(rt: HostRuntime) {
        let mut clock = Clock::new(0);
        for (step, number, debt, need) in &STEPS {
            match step {
                Step::Touch(number, log) => clock.touch(2, *number, *log),
                Step::Raise(number) => clock.raise(*number),
                Step::Begin(flushed) => clock.begin(*flushed),
                Step::Next => {
                    assert!(rt; clock.number() < u64::MAX);
                    let drawn = clock.next();
                    assert_eq!(rt; drawn, *number);
                }
            }
            assert_eq!(rt; clock.number(), *number);
            assert_eq!(rt; clock.debt(), *debt);
            assert_eq!(rt; clock.need(2), *need);
        }
        assert_eq!(rt; clock.floor(), 9);
    }
}
