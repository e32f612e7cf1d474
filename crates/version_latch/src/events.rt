//! What the steps of a look append: a miss where the version is not as it had to be.
use rows_trait::names::Names;

/// A miss of the worker where the latch that was loaded is odd.
#[derive(Drop)]
pub struct Misses {
    pub worker: u32,
}

impl Names for Misses {
    ghost use Rattle.version_latch.specs.Named.{missed};

    ghost names = { λ s n. missed s.worker n };
}

/// A miss of the worker where the latch that was loaded is not this version.
#[derive(Drop)]
pub struct Checks {
    pub worker: u32,
    pub version: u64,
}

impl Names for Checks {
    ghost use Rattle.version_latch.specs.Named.{checked};

    ghost names = { λ s n. checked s.worker s.version n };
}
