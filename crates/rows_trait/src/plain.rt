//! Rows in plain memory, with one seat, which steps for every actor. The example of the trait, to be read beside it.
ghost use Rattle.std.specs.Prelude.{◌≡◌, ◌+◌, ◌*◌, ◌<◌, ◌≤◌, ◌^◌, length, max, replicate, IfOk};
ghost use Rattle.rows_trait.specs.Layout.{rows_of, width, row_at, count_of, control_at, size_of};
ghost use Rattle.rows_trait.specs.Inside.{flushed_words};
ghost use Rattle.rows_trait.specs.Plain.{sizes, IsOpening};
ghost use Rattle.rows_trait.specs.Rule.{IsPicture, plan};
ghost use Rattle.rows_trait.specs.Views.{first_plain};
ghost use Rattle.rows_trait.specs.declared.view.View.{View};

use crate::names::{Names, Nothing};
use crate::rows::{Latch, Rows};
use crate::trace::{Trace, Which};
use std::alloc::{AllocError, Global};
use std::marker::Brand;

/// Rows of words in plain memory: the control words, then `frames` frame rows, then `locks` lock rows, each row behind its latch.
#[derive(Drop)]
pub struct PlainRows {
    pub words: Vec<u64>,
    pub frames: u32,
    pub locks: u32,
    pub workers: u32,
    ghost size: { length words.items ≡ size_of (sizes frames locks workers) },
    ghost small: { frames + locks + workers < 2 ^ 32 },
}

// The view after a step that found this number. All but the seat stands here for the proof alone.
fn turned<K: Which, E>(
    seat: &Trace,
    row: u32,
    word: u32,
    version: u64,
    found: u64,
    event: &E,
) -> Trace
    ensures { result.view ≡ K.which }
{
    Trace::of::<K>()
}

// The view after a try to latch a row.
fn taken<K: Which, E>(
    rows: &PlainRows,
    seat: &Trace,
    row: u32,
    version: u64,
    found: u64,
    event: &E,
) -> Trace
    ensures { result.view ≡ K.which }
{
    Trace::of::<K>()
}

fn greater(a: u64, b: u64) -> u64
    ensures { result ≡ max a b }
{
    if a < b { b } else { a }
}

// Sets the flushed word of each worker.
fn set_flushed(words: &mut Vec<u64>, workers: u32, number: u64)
    requires size { 2 + 4 * workers ≤ length words.old.items }
    requires few { workers < 2 ^ 32 }
    ensures set { words.new.items ≡ flushed_words workers words.old.items number }
    ensures size { length words.new.items ≡ length words.old.items }
{
    for w in 0..workers as usize {
        words[2 + 4 * w] = number;
    }
}

impl PlainRows {
    /// Words of zeros: rows once their words are stored and they have a seat. The one error is that memory is refused.
    pub fn new(
        alloc: Global,
        frames: u32,
        locks: u32,
        workers: u32,
    ) -> Result<PlainRows, AllocError>
        requires { frames + locks + workers < 2 ^ 32 }
        ensures { IfOk result (λ r. (r.frames ≡ frames) × (r.locks ≡ locks) × (r.workers ≡ workers) × (r.words.items ≡ replicate (size_of (sizes frames locks workers)) 0)) }
    {
        let size = 2 + 4 * workers as usize + frames as usize * 129 + locks as usize * 6;
        let mut words = Vec::new(alloc);
        words.resize(size, 0u64)?;
        Ok(PlainRows {
            words,
            frames,
            locks,
            workers,
        })
    }

    /// The seat of rows whose words are those of what is given: latches 0, each row and control word as at that moment.
    pub fn begin<K: Which>(&self) -> Trace
        requires words { IsOpening (sizes self.now.frames self.now.locks self.now.workers) K.which.given self.now.words.items }
        requires first { K.which ≡ first_plain K.which.given }
        ensures seat { result.view ≡ first_plain K.which.given }
        ensures picture { IsPicture (plan (sizes self.now.frames self.now.locks self.now.workers) result.view.given) self.now.words.items result.view }
    {
        Trace::of::<K>()
    }

    // Where the word of a row lies: its latch at 0, then the others.
    fn place(&self, row: u32, word: usize) -> usize
        requires { (row < rows_of (sizes self.now.frames self.now.locks self.now.workers)) × (word ≤ width (sizes self.now.frames self.now.locks self.now.workers) row) }
        ensures { (result ≡ row_at (sizes self.now.frames self.now.locks self.now.workers) row word) × (result < length self.now.words.items) }
    {
        let base = 2 + 4 * self.workers as usize;
        if row < self.frames {
            base + row as usize * 129 + word
        } else {
            base + self.frames as usize * 129 + (row - self.frames) as usize * 6 + word
        }
    }

    // Where a control word lies.
    fn control(&self, control: u32, word: u32) -> usize
        requires { (control ≤ self.now.workers) × (word < count_of control) }
        ensures { (result ≡ control_at control word) × (result < length self.now.words.items) }
    {
        if control == 0 {
            word as usize
        } else {
            2 + 4 * (control as usize - 1) + word as usize
        }
    }
}

impl Rows for PlainRows {
    ghost use Rattle.std.specs.Prelude.{true};
    ghost use Rattle.rows_trait.specs.Plain.{sizes};
    ghost use Rattle.rows_trait.specs.Rule.{IsPicture, plan};
    ghost use Rattle.rows_trait.specs.Views.{no_place};

    type Seat = Trace;

    ghost view = { λ s. s.view };

    ghost shape = { λ r. record { sizes = sizes r.frames r.locks r.workers; alone = true; place = no_place } };

    ghost fits = { λ r s. IsPicture (plan (sizes r.frames r.locks r.workers) s.view.given) r.words.items s.view };

    fn load_latch<E: Names>(&mut self, seat: &mut Trace, row: u32, event: &E) -> u64 {
        let found = self.words[self.place(row, 0)];
        *seat = turned::<Brand, E>(seat, row, 0, 0, found, event);
        found
    }

    fn load_word(&mut self, seat: &mut Trace, row: u32, word: u32) -> u64 {
        let found = self.words[self.place(row, word as usize + 1)];
        *seat = turned::<Brand, Nothing>(seat, row, word, 0, found, &Nothing);
        found
    }

    fn try_latch<E: Names>(
        &mut self,
        seat: &mut Trace,
        row: u32,
        version: u64,
        event: &E,
    ) -> Latch {
        let place = self.place(row, 0);
        let found = self.words[place];
        if found != version {
            *seat = taken::<Brand, E>(self, seat, row, version, found, event);
            return Latch::Found(found);
        }
        *seat = taken::<Brand, E>(self, seat, row, version, found, event);
        self.words[place] = version + 1;
        Latch::Held
    }

    fn store_word(&mut self, seat: &mut Trace, row: u32, word: u32, value: u64) {
        let place = self.place(row, word as usize + 1);
        self.words[place] = value;
        *seat = turned::<Brand, Nothing>(seat, row, word, 0, value, &Nothing);
    }

    fn publish<E: Names>(&mut self, seat: &mut Trace, row: u32, event: &E) {
        let place = self.place(row, 0);
        self.words[place] += 1;
        *seat = turned::<Brand, E>(seat, row, 0, 0, 0, event);
    }

    fn release(&mut self, seat: &mut Trace, row: u32) {
        let place = self.place(row, 0);
        self.words[place] += 1;
        *seat = turned::<Brand, Nothing>(seat, row, 0, 0, 0, &Nothing);
    }

    fn load_control<E: Names>(
        &mut self,
        seat: &mut Trace,
        control: u32,
        word: u32,
        event: &E,
    ) -> u64 {
        let found = self.words[self.control(control, word)];
        *seat = turned::<Brand, E>(seat, control, word, 0, found, event);
        found
    }

    fn store_control<E: Names>(
        &mut self,
        seat: &mut Trace,
        control: u32,
        word: u32,
        value: u64,
        event: &E,
    ) {
        let place = self.control(control, word);
        let found = self.words[place];
        self.words[place] = value;
        *seat = turned::<Brand, E>(seat, control, word, 0, found, event);
    }

    fn raise_need<E: Names>(&mut self, seat: &mut Trace, number: u64, event: &E) {
        let place = self.control(0, 1);
        let found = self.words[place];
        self.words[place] = greater(found, number);
        *seat = turned::<Brand, E>(seat, 0, 1, 0, found, event);
    }

    fn tick<E: Names>(&mut self, seat: &mut Trace, event: &E) -> u64 {
        let place = self.control(0, 0);
        let found = self.words[place];
        self.words[place] = found + 1;
        *seat = turned::<Brand, E>(seat, 0, 0, 0, found, event);
        found
    }

    fn store_flushed<E: Names>(&mut self, seat: &mut Trace, number: u64, event: &E) {
        set_flushed(&mut self.words, self.workers, number);
        *seat = turned::<Brand, E>(seat, 0, 0, 0, number, event);
    }

    fn quiet(&self) -> bool {
        true
    }

    fn versions(&self, seat: &Trace) {}
}
