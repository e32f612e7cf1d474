// What a transaction has still to put back.
ghost use Rattle.std.specs.Prelude.{◌≡◌, ◌≤◌, ◌<◌, ◌-◌, ◌^◌, [], ◌∷◌, length, IfOk, IfSome};
ghost use Rattle.page_model.specs.Limits.{transaction_changes};
ghost use Rattle.session_state.specs.Undo.{newest_of, without_newest};

use page_model::limits::TRANSACTION_CHANGES;
use std::alloc::{AllocError, Global};
use std::marker::Model;

/// A change that is still to put back: its key, and the word that the key had before it.
#[derive(Clone, Copy, Debug, PartialEq, Eq)]
pub struct Undone {
    pub key: u64,
    pub word: u64,
}

/// The changes of a transaction that are still to put back. Room for as many as it may make is reserved. They are kept the oldest first,
/// so that the newest one is taken from the end. They are no more than that, each of a key that a leaf can have.
#[derive(Drop)]
pub struct UndoList {
    changes: Vec<Undone>,
}

impl Model for UndoList {
    ghost use Rattle.std.specs.Prelude.{reverse, vec_capacity, List};
    ghost use Rattle.session_state.specs.declared.undo.Undone.{Undone};
    ghost use Rattle.session_state.specs.Undo.{AreUndone};

    // The newest first.
    ghost Value = { List Undone };

    ghost view = { λ u. reverse u.changes.items };

    ghost invariant = { λ u. AreUndone (reverse u.changes.items) (vec_capacity u.changes) };
}

impl UndoList {
    /// None. The one error is that memory is refused.
    pub fn new(alloc: Global) -> Result<UndoList, AllocError>
        ensures { IfOk result (λ u. u ≡ []) }
    {
        let changes = Vec::with_capacity(alloc, TRANSACTION_CHANGES)?;
        Ok(UndoList { changes })
    }

    /// How many there are.
    pub fn len(&self) -> usize
        ensures { result ≡ length self.now }
    {
        self.changes.len()
    }

    /// They are no more than a transaction may make. The call does nothing.
    pub fn few(&self)
        ensures { length self.now ≤ transaction_changes }
    {
        let _ = &self.changes;
    }

    /// The newest one.
    pub fn newest(&self) -> Option<Undone>
        ensures newest { result ≡ newest_of self.now }
        ensures key { IfSome result (λ u. u.key < 2 ^ 64 - 1) }
    {
        self.changes.last().copied()
    }

    /// A change was made.
    pub fn push(&mut self, key: u64, word: u64)
        requires few { length self.old < transaction_changes }
        requires key { key < 2 ^ 64 - 1 }
        ensures { self.new ≡ record { key = key; word = word } ∷ self.old }
    {
        self.changes.push_reserved(Undone { key, word });
    }

    /// The newest one was put back.
    pub fn pop(&mut self)
        ensures { self.new ≡ without_newest self.old }
    {
        self.changes.pop();
    }

    /// There are none left.
    pub fn clear(&mut self)
        ensures { self.new ≡ [] }
    {
        self.changes.clear();
    }
}
