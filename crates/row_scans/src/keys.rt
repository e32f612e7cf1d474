// The keys whose rows a walk has taken.
ghost use Rattle.std.specs.Prelude.{◌≡◌, ◌<◌, ◌≤◌, ◌∷◌, ◌++◌, [], length};

use row_changes::Locked;
use std::marker::Model;

// How many entries a leaf has at most.
pub(crate) const MOST: usize = 60;

// Keys of a leaf, in the order in which their rows were taken.
#[derive(Drop)]
pub(crate) struct TakenKeys {
    keys: [u64; 60],
    count: usize,
}

impl Model for TakenKeys {
    ghost use Rattle.std.specs.Prelude.{◌≤◌, ℕ, List, take};

    ghost Value = { List ℕ };

    ghost view = { λ t. take t.count t.keys };

    ghost invariant = { λ t. t.count ≤ 60 };
}

impl TakenKeys {
    pub fn new() -> TakenKeys
        ensures { result ≡ [] }
    {
        TakenKeys {
            keys: [0; 60],
            count: 0,
        }
    }

    pub fn push(&mut self, key: u64)
        requires room { length self.old < 60 }
        ensures { self.new ≡ self.old ++ key ∷ [] }
    {
        self.keys[self.count] = key;
        self.count += 1;
    }

    pub fn all(&self) -> &[u64]
        ensures { result.now ≡ self.now }
    {
        &self.keys[..self.count]
    }
}

impl Locked for TakenKeys {
    ghost use Rattle.std.specs.Prelude.{◌≡◌, ◌==◌, true};
    ghost use Rattle.std.specs.List.{list_any};

    ghost locked = { λ t k. list_any (λ y. y == k) t ≡ true };

    fn has(&self, key: u64) -> bool {
        self.all().contains(&key)
    }
}
