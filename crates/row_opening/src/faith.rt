// Whether what is read of a page again is what was saved of it.
use std::marker::Brand;

/// Whether a page that is read again has the pairs with which it was saved, as whoever opens rows knows of their device. Such a
/// type takes part in a call for the proof alone.
pub trait Faith {
    ghost use Rattle.std.specs.Prelude.{Bool};

    ghost faithful: { Bool };
}

impl Faith for Brand {
    ghost use Rattle.std.specs.Prelude.{false};

    ghost faithful = { false };
}
