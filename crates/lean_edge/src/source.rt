// Where a script comes from.
ghost use Rattle.std.specs.Prelude.{◌≡◌, ℕ, length};
ghost use Rattle.lean_disk.specs.Faults.{HasCause};
ghost use Rattle.lean_edge.specs.Outside.{Feed, Took};

/// What a source gives.
#[derive(Clone, Copy, Debug, PartialEq, Eq)]
pub enum Next {
    /// So many bytes: at least one, where there is room for one.
    Got(usize),
    /// Nothing is left, nor will be.
    End,
    /// Nothing was taken.
    Failed,
}

/// Where bytes come from.
pub trait Source {
    /// What is left, where it tells.
    ghost feed: { Self → Feed };

    /// How often it has failed.
    ghost faults: { Self → ℕ };

    /// Gives the next bytes.
    fn next(&mut self, into: &mut [u8]) -> Next
        ensures took { Took (length into.old) into.new result (feed self.old) (feed self.new) }
        ensures cause { HasCause (faults self.old) (faults self.new) (result ≡ Next.Failed) };
}
