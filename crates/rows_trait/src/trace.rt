//! The seat of plain rows: a view that only proofs read.
ghost use Rattle.std.specs.Prelude.{◌≡◌};
ghost use Rattle.std.specs.Borrow.{ftrue};
ghost use Rattle.rows_trait.specs.declared.view.View.{View};

use crate::view::View;
use std::marker::{Brand, Model, PhantomData};

/// A view that takes no bytes. It is the seat of plain rows.
#[derive(Drop)]
pub struct Trace {
    of: PhantomData<View>,
    pub ghost view: { View },
}

impl Model for Trace {
    ghost also_owns = { λ _. ftrue };
}

/// Which view a new seat has.
pub trait Which {
    ghost use Rattle.rows_trait.specs.declared.view.View.{View};

    ghost which: { View };
}

impl Which for Brand {
    ghost use Rattle.rows_trait.specs.Inside.{no_view};

    ghost which = { no_view };
}

impl Trace {
    /// The seat with this view.
    pub fn of<K: Which>() -> Trace
        ensures { result.view ≡ K.which }
    {
        Trace { of: PhantomData }
    }
}
