// The lock rows.
use crate::place::MemJournal;
use transactions::{Hindrance, Locks, Mode};

impl Locks for MemJournal {
    fn lock(&mut self, w: u32, row: u32, mode: Mode) -> Result<(), Hindrance> {
        if !self.has(w) {
            return Err(Hindrance::NoPages);
        }
        let held = self.rows[row as usize];
        match held.in_the_way(w, mode) {
            Some(holder) => Err(Hindrance::Conflict { holder }),
            None => {
                self.take(w, row, mode);
                Ok(())
            }
        }
    }

    fn latch(&mut self, _w: u32, _row: u32) -> Result<(), Hindrance> {
        Ok(())
    }

    fn unlatch(&mut self, _w: u32, _row: u32) {}

    fn unlock(&mut self, w: u32, row: u32) {
        if self.has(w) {
            self.give_up(w, row);
        }
    }
}
