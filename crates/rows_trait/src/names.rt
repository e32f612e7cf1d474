//! The events that a step appends.
ghost use Rattle.std.specs.Prelude.{ℕ, List};
ghost use Rattle.row_words.specs.declared.event.Event.{Event};

/// The events that a step appends where the number that it loads or finds is this: one or none, mostly. A value of such a type
/// takes part in a call for the proof alone.
pub trait Names {
    ghost names: { Self → ℕ → List Event };
}

/// A step that appends nothing.
pub struct Nothing;

impl Names for Nothing {
    ghost use Rattle.std.specs.Prelude.{[]};

    ghost names = { λ _ _. [] };
}
