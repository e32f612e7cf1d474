// Why an event was not tried.
ghost use Rattle.std.specs.Prelude.{◌≡◌};
ghost use Rattle.plain_core.specs.declared.refusal.Refusal.TheVariants as refusals;

use std::alloc::AllocError;

/// Why nothing is said of a state: memory was wanting, or a number would not fit 64 bits.
#[derive(Clone, Copy, PartialEq, Eq)]
pub enum Refusal {
    Memory,
    Number,
}

impl From<AllocError> for Refusal {
    ghost from_gives = { λ _ e. e ≡ refusals.Memory };

    fn from(_refused: AllocError) -> Refusal {
        Refusal::Memory
    }
}
