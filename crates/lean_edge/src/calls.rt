// The calls of an object in memory: which of them fail, and how many did.
ghost use Rattle.std.specs.Prelude.{◌≡◌, ◌<◌, ◌^◌, ◌↔◌, IsTrue, Contains};
ghost use Rattle.lean_edge.specs.Memory.{IsToFail, failed, no_calls, passed};

use std::alloc::Global;
use std::marker::Model;

#[derive(Debug, Drop)]
pub struct Calls {
    made: u64,
    failing: Vec<u64>,
    faults: u64,
}

impl Model for Calls {
    ghost use Rattle.lean_edge.specs.Memory as memory;

    ghost Value = { memory.Calls };

    ghost view = { λ c. record { made = c.made; failing = c.failing.items; faults = c.faults } };
}

impl Calls {
    pub fn new(alloc: Global) -> Calls
        ensures { result ≡ no_calls }
    {
        Calls {
            made: 0,
            failing: Vec::new(alloc),
            faults: 0,
        }
    }

    pub fn fail_at(&mut self, list: Vec<u64>)
        ensures { self.new ≡ record self.old { failing = list.items } }
    {
        self.failing = list;
    }

    // Whether the next call fails.
    pub fn is_to_fail(&self) -> bool
        ensures { IsTrue result ↔ IsToFail self.now }
    {
        is_listed(&self.failing, self.made.saturating_add(1))
    }

    pub fn pass(&mut self)
        ensures { self.new ≡ passed self.old }
    {
        self.made = self.made.saturating_add(1);
    }

    pub fn fail(&mut self)
        ensures after { self.new ≡ failed self.old }
        ensures before { self.old.faults < 2 ^ 64 }
    {
        self.made = self.made.saturating_add(1);
        self.faults = self.faults.saturating_add(1);
    }
}

fn is_listed(numbers: &[u64], number: u64) -> bool
    ensures { IsTrue result ↔ Contains numbers.now number }
{
    numbers.contains(&number)
}
