//! The events of changes of the structure.
use crate::gathered::GoneKeys;
use btree_descent::Names;

/// The root's contents go into a new page.
#[derive(Drop)]
pub(crate) struct Lifts {
    pub worker: u32,
    pub page: u32,
}

impl Names for Lifts {
    ghost use Rattle.std.specs.Prelude.{[], ◌∷◌};
    ghost use Rattle.btree_descent.specs.row_words.declared.event.Event.TheVariants.{Lift};

    ghost names = { λ s _. Lift s.worker s.page ∷ [] };
}

/// The pairs of a page from its thirty-first on go into a new page, which its parent gains.
#[derive(Drop)]
pub(crate) struct Splits {
    pub worker: u32,
    pub left: u32,
    pub right: u32,
    pub parent: u32,
    pub place: u32,
}

impl Names for Splits {
    ghost use Rattle.std.specs.Prelude.{[], ◌∷◌};
    ghost use Rattle.btree_descent.specs.row_words.declared.event.Event.TheVariants.{Split};

    ghost names = { λ s _. Split s.worker s.left s.right s.parent s.place ∷ [] };
}

/// Entries of a leaf go, by their keys.
#[derive(Drop)]
pub(crate) struct Purges {
    pub worker: u32,
    pub page: u32,
    pub keys: GoneKeys,
}

impl Names for Purges {
    ghost use Rattle.std.specs.Prelude.{[], ◌∷◌};
    ghost use Rattle.btree_descent.specs.row_words.declared.event.Event.TheVariants.{Purge};

    ghost names = { λ s _. Purge s.worker s.page s.keys ∷ [] };
}

/// The root gets the contents of its one child.
#[derive(Drop)]
pub(crate) struct Drops {
    pub worker: u32,
    pub page: u32,
}

impl Names for Drops {
    ghost use Rattle.std.specs.Prelude.{[], ◌∷◌};
    ghost use Rattle.btree_descent.specs.row_words.declared.event.Event.TheVariants.{Drop};

    ghost names = { λ s _. Drop s.worker s.page ∷ [] };
}

/// A page gains the pairs of its right neighbour, which its parent loses.
#[derive(Drop)]
pub(crate) struct Joins {
    pub worker: u32,
    pub left: u32,
    pub right: u32,
    pub parent: u32,
}

impl Names for Joins {
    ghost use Rattle.std.specs.Prelude.{[], ◌∷◌};
    ghost use Rattle.btree_descent.specs.row_words.declared.event.Event.TheVariants.{Join};

    ghost names = { λ s _. Join s.worker s.left s.right s.parent ∷ [] };
}
