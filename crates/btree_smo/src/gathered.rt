// What a purge has gathered: places of lock rows that are held, and keys that go.
ghost use Rattle.std.specs.Prelude.{◌≡◌, ◌<◌, ◌≤◌, ◌∷◌, ◌++◌, [], ℕ, List, length, take};
ghost use Rattle.page_model.specs.Pairs.{is_in};

use std::marker::Model;

// The places of lock rows, at most one for each entry of a leaf.
#[derive(Drop)]
pub(crate) struct Places {
    places: [u32; 60],
    count: usize,
}

impl Model for Places {
    ghost Value = { List ℕ };

    ghost view = { λ p. take p.count p.places };

    ghost invariant = { λ p. p.count ≤ 60 };
}

impl Places {
    pub fn new() -> Places
        ensures { result ≡ [] }
    {
        Places {
            places: [0; 60],
            count: 0,
        }
    }

    pub fn push(&mut self, place: u32)
        requires room { length self.old < 60 }
        ensures { self.new ≡ self.old ++ place ∷ [] }
    {
        self.places[self.count] = place;
        self.count += 1;
    }

    pub fn all(&self) -> &[u32]
        ensures { result.now ≡ self.now }
    {
        &self.places[..self.count]
    }

    pub fn has(&self, place: u32) -> bool
        ensures { result ≡ is_in place self.now }
    {
        self.all().contains(&place)
    }
}

// Keys of a leaf.
#[derive(Drop)]
pub(crate) struct GoneKeys {
    keys: [u64; 60],
    count: usize,
}

impl Model for GoneKeys {
    ghost Value = { List ℕ };

    ghost view = { λ d. take d.count d.keys };

    ghost invariant = { λ d. d.count ≤ 60 };
}

impl GoneKeys {
    pub fn new() -> GoneKeys
        ensures { result ≡ [] }
    {
        GoneKeys {
            keys: [0; 60],
            count: 0,
        }
    }

    pub fn push(&mut self, key: u64)
        requires room { length self.old < 60 }
        ensures { self.new ≡ self.old ++ key ∷ [] }
    {
        self.keys[self.count] = key;
        self.count += 1;
    }

    pub fn all(&self) -> &[u64]
        ensures is { result.now ≡ self.now }
        ensures few { length result.now ≤ 60 }
    {
        &self.keys[..self.count]
    }
}
