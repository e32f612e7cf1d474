// A function from numbers, as a default and the changes to it.
ghost use Rattle.std.specs.Prelude.{◌≡◌, ℕ, IfOk};
ghost use Rattle.map_model.specs.Lists.{upd};
ghost use Rattle.plain_core.specs.Records.{page_of};
ghost use Rattle.plain_core.specs.Tables.{at, found};

use crate::records::Page;
use std::alloc::{AllocError, Global};

/// A value at each number: the default, or the value that was set last.
#[derive(Drop)]
pub struct Table<T> {
    pub default: T,
    pub changes: Vec<Placed<T>>,
}

/// A value that was set, and where.
#[derive(Drop)]
pub struct Placed<T> {
    pub place: u64,
    pub value: T,
}

impl<T: Drop> Table<T> {
    /// The same value at each number.
    pub fn new(alloc: Global, default: T) -> Table<T>
        ensures { (i : ℕ) → at result i ≡ default }
    {
        Table {
            default,
            changes: Vec::new(alloc),
        }
    }

    /// The value at a number.
    pub fn get(&self, place: u64) -> &T
        ensures { result.now ≡ at self.now place }
    {
        for change in &self.changes {
            if change.place == place {
                return &change.value;
            }
        }
        &self.default
    }

    /// Sets the value at a number.
    pub fn set(&mut self, place: u64, value: T) -> Result<(), AllocError>
        ensures { IfOk result (λ _. at self.new ≡ upd (at self.old) place value) }
    {
        self.changes.insert(0, Placed { place, value })?;
        Ok(())
    }

    /// Sets the values, the last of the list first.
    pub fn set_all(&mut self, mut newer: Vec<Placed<T>>) -> Result<(), AllocError>
        ensures { IfOk result (λ _. (i : ℕ) → at self.new i ≡ found newer.items (at self.old i) i) }
    {
        while let Some(change) = newer.pop() {
            self.set(change.place, change.value)?;
        }
        Ok(())
    }
}

impl Table<Page> {
    /// The pages again.
    pub fn copy(&self, alloc: Global) -> Result<Table<Page>, AllocError>
        ensures { IfOk result (λ t. (i : ℕ) → page_of (at t i) ≡ page_of (at self.now i)) }
    {
        let default = self.default.copy(alloc)?;
        let mut changes = Vec::new(alloc);
        for change in &self.changes {
            changes.push(Placed {
                place: change.place,
                value: change.value.copy(alloc)?,
            })?;
        }
        Ok(Table { default, changes })
    }
}
