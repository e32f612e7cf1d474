//! What a session's begin and end append.
use btree_descent::Names;

/// The worker begins a transaction, where all logs are flushed up to `floor`.
#[derive(Drop)]
pub(crate) struct Begins {
    pub worker: u32,
    pub floor: u64,
}

impl Names for Begins {
    ghost use Rattle.std.specs.Prelude.{[], ◌∷◌};
    ghost use Rattle.btree_descent.specs.row_words.declared.event.Event.TheVariants.{Begin};

    ghost names = { λ s _. Begin s.worker s.floor ∷ [] };
}

/// The worker commits its transaction, where all logs are flushed up to `floor`.
#[derive(Drop)]
pub(crate) struct Ends {
    pub worker: u32,
    pub floor: u64,
}

impl Names for Ends {
    ghost use Rattle.std.specs.Prelude.{true, [], ◌∷◌};
    ghost use Rattle.btree_descent.specs.row_words.declared.event.Event.TheVariants.{End};

    ghost names = { λ s _. End s.worker true s.floor ∷ [] };
}
