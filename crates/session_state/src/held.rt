// The lock rows that a session holds.
ghost use Rattle.std.specs.Prelude.{◌≡◌, ◌≤◌, ◌<◌, [], length, slice_index, IfOk};
ghost use Rattle.btree_descent.specs.core_state.Needs.{is_reader};
ghost use Rattle.session_state.specs.Held.{with_row};

use std::alloc::{AllocError, Global};
use std::marker::Model;

/// Lock rows by their places, each once, in the order in which they were taken. Room for all of them is reserved.
#[derive(Drop)]
pub struct HeldRows {
    marks: Vec<bool>,
    rows: Vec<u32>,
}

impl Model for HeldRows {
    ghost use Rattle.std.specs.Prelude.{length, vec_capacity};
    ghost use Rattle.session_state.specs.Held.{AreMarked, Held};

    ghost Value = { Held };

    ghost view = { λ h. record { count = length h.marks.items; rows = h.rows.items } };

    ghost invariant = { λ h. AreMarked h.marks.items h.rows.items (vec_capacity h.rows) };
}

impl HeldRows {
    /// None, of so many lock rows. The one error is that memory is refused.
    pub fn new(alloc: Global, count: u32) -> Result<HeldRows, AllocError>
        ensures { IfOk result (λ h. h ≡ record { count = count; rows = [] }) }
    {
        let mut marks = Vec::new(alloc);
        marks.resize(count as usize, false)?;
        let rows = Vec::with_capacity(alloc, count as usize)?;
        Ok(HeldRows { marks, rows })
    }

    /// How many lock rows there are.
    pub fn count(&self) -> u32
        ensures { result ≡ self.now.count }
    {
        self.marks.len() as u32
    }

    /// How many are held.
    pub fn len(&self) -> usize
        ensures { result ≡ length self.now.rows }
    {
        self.rows.len()
    }

    /// They are no more than there are. The call does nothing.
    pub fn few(&self)
        ensures { length self.now.rows ≤ self.now.count }
    {
        let _ = &self.rows;
    }

    /// The row that was taken behind so many others.
    pub fn row(&self, at: usize) -> u32
        requires { at < length self.now.rows }
        ensures at { result ≡ slice_index self.now.rows at }
        ensures within { result < self.now.count }
    {
        self.rows[at]
    }

    /// Whether a row is held.
    pub fn has(&self, row: u32) -> bool
        requires { row < self.now.count }
        ensures { result ≡ is_reader row self.now.rows }
    {
        self.marks[row as usize]
    }

    /// A row is taken, if it is not held already.
    pub fn take(&mut self, row: u32)
        requires { row < self.old.count }
        ensures { self.new ≡ with_row self.old row }
    {
        if !self.marks[row as usize] {
            self.marks[row as usize] = true;
            self.rows.push_reserved(row);
        }
    }

    /// All of them are given back.
    pub fn clear(&mut self)
        ensures { self.new ≡ record { count = self.old.count; rows = [] } }
    {
        for at in 0..self.rows.len() {
            self.marks[self.rows[at] as usize] = false;
        }
        self.rows.clear();
    }
}
