// How often the system has failed, and what a call answers then.
ghost use Rattle.std.specs.Prelude.{◌≡◌, MatchResult};
ghost use Rattle.lean_disk.specs.Faults.{HasCause, HasSum};

use lean_disk::{Did, Read};
use std::io;

#[derive(Drop)]
pub struct Faults {
    pub count: u64,
}

impl Faults {
    pub fn none() -> Faults
        ensures { result.count ≡ 0 }
    {
        Faults { count: 0 }
    }

    /// Adds the faults of a part.
    pub fn add(&mut self, other: Faults)
        ensures { HasSum self.old.count other.count self.new.count }
    {
        self.count = self.count.saturating_add(other.count);
    }

    /// What a read answers, whose error is counted.
    pub fn of_read(&mut self, outcome: io::Result<usize>) -> Read
        ensures answer { MatchResult outcome (λ count. result ≡ Read.Got count) (λ _. result ≡ Read.Failed) }
        ensures cause { HasCause self.old.count self.new.count (result ≡ Read.Failed) }
    {
        match outcome {
            Ok(count) => Read::Got(count),
            Err(_) => {
                self.count = self.count.saturating_add(1);
                Read::Failed
            }
        }
    }

    /// What a write or a sync answers, whose error is counted.
    pub fn of_call(&mut self, outcome: io::Result<()>) -> Did
        ensures answer { MatchResult outcome (λ _. result ≡ Did.Done) (λ _. result ≡ Did.Failed) }
        ensures cause { HasCause self.old.count self.new.count (result ≡ Did.Failed) }
    {
        let Ok(()) = outcome else {
            self.count = self.count.saturating_add(1);
            return Did::Failed;
        };
        Did::Done
    }
}
