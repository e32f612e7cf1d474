//! The steps of `Rows` on a table.
ghost use Rattle.std.specs.Prelude.{◌≡◌, true, false, []};
ghost use Rattle.rows_trait.specs.Views.{Shape};
ghost use Rattle.rows_trait.specs.Plain.{sizes};
ghost use Rattle.shared_rows.specs.Ruled.{IsLow};

use crate::rows::{SharedRef, Taker};
use crate::steps::{exchange, load, most, raise, store, swap};
use rows_trait::names::{Names, Nothing};
use rows_trait::rows::{Latch, Rows};
use std::marker::Brand;

impl<'a> Rows for SharedRef<'a> {
    type Seat = Taker;

    ghost view = { λ s. s.me.0 };

    ghost shape = { λ r. record { sizes = sizes r.0.now.frames r.0.now.locks r.0.now.workers; alone = false; place = r.0.now.table.shared.table_id } };

    ghost fits = { λ r s. (s.table_id ≡ r.0.now.table.shared.table_id) × (s.me.1 ≡ []) × (s.me.0.live ≡ true) × IsLow s.me.0 };

    fn load_latch<E: Names>(&mut self, seat: &mut Taker, row: u32, event: &E) -> u64 {
        load::<Brand, E>(self.0, seat, self.0.place(row, 0), row, 0, event)
    }

    fn load_word(&mut self, seat: &mut Taker, row: u32, word: u32) -> u64 {
        load::<Brand, Nothing>(
            self.0,
            seat,
            self.0.place(row, word as usize + 1),
            row,
            word,
            &Nothing,
        )
    }

    fn try_latch<E: Names>(
        &mut self,
        seat: &mut Taker,
        row: u32,
        version: u64,
        event: &E,
    ) -> Latch {
        let place = self.0.place(row, 0);
        let found = exchange::<Brand, E>(self.0, seat, place, row, version, version + 1, event);
        if found == version {
            Latch::Held
        } else {
            Latch::Found(found)
        }
    }

    fn store_word(&mut self, seat: &mut Taker, row: u32, word: u32, value: u64) {
        let place = self.0.place(row, word as usize + 1);
        store::<Brand, Nothing>(self.0, seat, place, row, word, value, &Nothing);
    }

    fn publish<E: Names>(&mut self, seat: &mut Taker, row: u32, event: &E) {
        let place = self.0.place(row, 0);
        raise::<Brand, E>(self.0, seat, place, row, event);
    }

    fn release(&mut self, seat: &mut Taker, row: u32) {
        let place = self.0.place(row, 0);
        raise::<Brand, Nothing>(self.0, seat, place, row, &Nothing);
    }

    fn load_control<E: Names>(
        &mut self,
        seat: &mut Taker,
        control: u32,
        word: u32,
        event: &E,
    ) -> u64 {
        load::<Brand, E>(
            self.0,
            seat,
            self.0.control(control, word),
            control,
            word,
            event,
        )
    }

    fn store_control<E: Names>(
        &mut self,
        seat: &mut Taker,
        control: u32,
        word: u32,
        value: u64,
        event: &E,
    ) {
        let place = self.0.control(control, word);
        swap::<Brand, E>(self.0, seat, place, control, word, value, event);
    }

    fn raise_need<E: Names>(&mut self, seat: &mut Taker, number: u64, event: &E) {
        let place = self.0.control(0, 1);
        most::<Brand, E>(self.0, seat, place, number, event);
    }

    fn tick<E: Names>(&mut self, seat: &mut Taker, event: &E) -> u64 {
        let place = self.0.control(0, 0);
        raise::<Brand, E>(self.0, seat, place, 0, event)
    }

    // Others step on these rows, so what the trait asks is never met, and nothing is done.
    fn store_flushed<E: Names>(&mut self, seat: &mut Taker, number: u64, event: &E)
        ensures rows { self.new ≡ self.old }
        ensures seat { seat.new ≡ seat.old }
    {}

    fn quiet(&self) -> bool {
        false
    }

    fn versions(&self, seat: &Taker) {}
}
