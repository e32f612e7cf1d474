//! What the publish of a lock row appends: the lock or the unlock.
use crate::mode::Mode;
use lean_proto::Names;

/// The worker takes the lock of a row, by the row's place among the lock rows.
#[derive(Drop)]
pub(crate) struct Locks {
    pub worker: u32,
    pub row: u32,
    pub mode: Mode,
}

impl Names for Locks {
    ghost use Rattle.std.specs.Prelude.{[], ◌∷◌};
    ghost use Rattle.lean_proto.specs.row_words.declared.event.Event.TheVariants.{Lock};
    ghost use Rattle.key_locks.specs.Rows.{event_mode};

    ghost names = { λ s _. Lock s.worker s.row (event_mode s.mode) ∷ [] };
}

/// The worker gives up its lock of a row.
#[derive(Drop)]
pub(crate) struct Unlocks {
    pub worker: u32,
    pub row: u32,
}

impl Names for Unlocks {
    ghost use Rattle.std.specs.Prelude.{[], ◌∷◌};
    ghost use Rattle.lean_proto.specs.row_words.declared.event.Event.TheVariants.{Unlock};

    ghost names = { λ s _. Unlock s.worker s.row ∷ [] };
}
