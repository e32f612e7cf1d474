//! Which records were staged, for the proof alone.
ghost use Rattle.std.specs.Prelude.{◌≡◌, List};
ghost use Rattle.std.specs.Borrow.{ftrue};
ghost use Rattle.log_record.specs.declared.record.Record.{Record};

use log_record::Record;
use std::marker::{Brand, Model, PhantomData};

/// Records that take no bytes: what was staged, the newest first.
#[derive(Drop)]
pub struct Staged {
    of: PhantomData<Record>,
    pub ghost list: { List Record },
}

impl Model for Staged {
    ghost also_owns = { λ _. ftrue };
}

/// Which records those are.
pub trait Which {
    ghost use Rattle.std.specs.Prelude.{List};
    ghost use Rattle.log_record.specs.declared.record.Record.{Record};

    ghost which: { List Record };
}

impl Which for Brand {
    ghost use Rattle.std.specs.Prelude.{[]};

    ghost which = { [] };
}

impl Staged {
    /// Those records.
    pub fn of<K: Which>() -> Staged
        ensures { result.list ≡ K.which }
    {
        Staged { of: PhantomData }
    }
}

/// The records with one more, which stands here for the proof alone.
pub fn one_more<K: Which>(before: &Staged, entry: &Record) -> Staged
    ensures { result.list ≡ K.which }
{
    Staged::of::<K>()
}
