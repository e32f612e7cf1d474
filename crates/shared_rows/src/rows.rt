//! The rows, and a seat's way to them.
ghost use Rattle.std.specs.Prelude.{◌≡◌, ◌+◌, ◌*◌, ◌<◌, ◌≤◌, ◌^◌, ℕ, true, [], IfOk, IfErr, vec_capacity};
ghost use Rattle.std.specs.Slots.{slots_items, slots_len, IsFull};
ghost use Rattle.rows_trait.specs.Layout.{rows_of, width, row_at, count_of, control_at, size_of};
ghost use Rattle.rows_trait.specs.Plain.{sizes};
ghost use Rattle.rows_trait.specs.Rule.{IsPicture, plan};
ghost use Rattle.rows_trait.specs.Views.{AreTame};
ghost use Rattle.rows_trait.specs.row_words.Sealed.{begun};
ghost use Rattle.shared_rows.specs.Ruled.{making, newcomer, maker, made_by, joined, Settled, IsLast, IsRoom, returned};

use crate::rule::{About, RuleA};
use crate::steps::load;
use atomic_table::{Closed, Join, Seat, Split, Table};
use rows_trait::names::Nothing;
use rows_trait::plain::PlainRows;
use rows_trait::rows::Rows;
use rows_trait::trace::{Trace, Which};
use rows_trait::view::View;
use std::alloc::{AllocError, Global};
use std::marker::Brand;

/// A seat of the rows.
pub type Taker = Seat<(), View>;

/// Rows of words that threads share.
#[derive(Drop)]
pub struct SharedRows {
    pub(crate) table: Table<(), View, About, RuleA, Global>,
    pub(crate) frames: u32,
    pub(crate) locks: u32,
    pub(crate) workers: u32,
    ghost frames_key: { table.shared.key.frames ≡ frames },
    ghost locks_key: { table.shared.key.locks ≡ locks },
    ghost workers_key: { table.shared.key.workers ≡ workers },
    ghost no_slots: { table.shared.table_id.slots ≡ 0 },
    ghost words: { table.shared.table_id.words ≡ size_of (sizes frames locks workers) },
    ghost small: { frames + locks + workers < 2 ^ 32 },
}

/// How a seat is made by another.
pub struct Tell;

impl Split<View> for Tell {
    ghost use Rattle.shared_rows.specs.Ruled.{maker, made_by};

    ghost left = { maker };

    ghost right = { made_by };
}

/// How a seat ends in another.
pub struct Takes;

impl Join<View> for Takes {
    ghost use Rattle.shared_rows.specs.Ruled.{joined};
    ghost use Rattle.rows_trait.specs.Inside.{no_view};

    ghost both = { joined };

    ghost spent = { no_view };
}

impl SharedRows {
    /// Shares plain rows, no row of which is held. The main actor's seat has seen what theirs had, and loaded nothing. Where there is no
    /// memory, they come back.
    pub fn share(
        alloc: Global,
        plain: PlainRows,
        seat: Trace,
    ) -> Result<(SharedRows, Taker), (PlainRows, Trace)>
        requires picture { IsPicture (plan (sizes plain.frames plain.locks plain.workers) seat.view.given) plain.words.items seat.view }
        requires held { seat.view.held ≡ [] }
        ensures ok { IfOk result (λ r. (r.0.frames ≡ plain.frames) × (r.0.locks ≡ plain.locks) × (r.0.workers ≡ plain.workers) × (r.1.table_id ≡ r.0.table.shared.table_id) × (r.1.me ≡ (making 1 (newcomer 0 seat.view.given seat.view.seen), []))) }
        ensures tame { AreTame seat.view.given (begun seat.view.given) seat.view.seen }
        ensures err { IfErr result (λ p. (p.0 ≡ plain) × (p.1 ≡ seat)) }
    {
        plain.versions(&seat);
        let about = About {
            frames: plain.frames,
            locks: plain.locks,
            workers: plain.workers,
            trace: seat,
        };
        match Table::of_words(alloc, plain.words.as_slice(), &about) {
            Ok((table, taker)) => {
                let frames = plain.frames;
                let locks = plain.locks;
                let workers = plain.workers;
                Ok((
                    SharedRows {
                        table,
                        frames,
                        locks,
                        workers,
                    },
                    taker,
                ))
            }
            Err(_) => {
                let About {
                    frames: _,
                    locks: _,
                    workers: _,
                    trace,
                } = about;
                Err((plain, trace))
            }
        }
    }

    /// A seat more, of the next actor. It has seen what the one that makes it has, and loaded nothing.
    pub fn seat(&self, maker_seat: &mut Taker) -> Taker
        requires own { (maker_seat.old.table_id ≡ self.now.table.shared.table_id) × (maker_seat.old.me.1 ≡ []) }
        requires maker { (maker_seat.old.me.0.live ≡ true) × (0 < maker_seat.old.me.0.made) }
        ensures maker { (maker_seat.new.table_id ≡ maker_seat.old.table_id) × (maker_seat.new.me ≡ (maker maker_seat.old.me.0, [])) }
        ensures made { (result.table_id ≡ self.now.table.shared.table_id) × (result.me ≡ (made_by maker_seat.old.me.0, [])) }
    {
        self.table.shared.split_seat::<Tell>(maker_seat)
    }

    /// A seat that holds no row ends in the one that makes others.
    pub fn take_in(&self, maker_seat: &mut Taker, other: Taker)
        requires own { (maker_seat.old.table_id ≡ self.now.table.shared.table_id) × (maker_seat.old.me.1 ≡ []) }
        requires maker { (maker_seat.old.me.0.live ≡ true) × (0 < maker_seat.old.me.0.made) }
        requires other { (other.table_id ≡ self.now.table.shared.table_id) × (other.me.1 ≡ []) × (other.me.0.live ≡ true) × (other.me.0.held ≡ []) }
        ensures { (maker_seat.new.table_id ≡ maker_seat.old.table_id) × (maker_seat.new.me ≡ (joined maker_seat.old.me.0 other.me.0, [])) }
    {
        self.table.shared.join_seat::<Takes>(maker_seat, other);
    }

    /// A load at which the seat sees all that the seats did which have ended in it.
    pub fn settle(&self, seat: &mut Taker)
        requires own { (seat.old.table_id ≡ self.now.table.shared.table_id) × (seat.old.me.1 ≡ []) × (seat.old.me.0.live ≡ true) }
        ensures own { (seat.new.table_id ≡ seat.old.table_id) × (seat.new.me.1 ≡ []) }
        ensures settled { (n : ℕ) × Settled seat.old.me.0 n seat.new.me.0 }
    {
        load::<Brand, Nothing>(self, seat, self.control(0, 0), 0, 0, &Nothing);
    }

    /// Room for the words of plain rows. The one error is that memory is refused.
    pub fn room(&self, alloc: Global) -> Result<Vec<u64>, AllocError>
        ensures { IfOk result (λ words. IsRoom (sizes self.now.frames self.now.locks self.now.workers) words.items (vec_capacity words)) }
    {
        Vec::with_capacity(alloc, self.table.word_count())
    }

    /// Plain rows again, where all other seats have ended in this one. Their seat has seen the whole front.
    pub fn end(self, seat: Taker, room: Vec<u64>) -> (PlainRows, Trace)
        requires own { seat.table_id ≡ self.table.shared.table_id }
        requires last { IsLast seat.me.0 }
        requires room { IsRoom (sizes self.frames self.locks self.workers) room.items (vec_capacity room) }
        ensures sizes { (result.0.frames ≡ self.frames) × (result.0.locks ≡ self.locks) × (result.0.workers ≡ self.workers) }
        ensures view { result.1.view ≡ returned seat.me.0 }
        ensures picture { IsPicture (plan (sizes result.0.frames result.0.locks result.0.workers) result.1.view.given) result.0.words.items result.1.view }
    {
        let frames = self.frames;
        let locks = self.locks;
        let workers = self.workers;
        let (words, trace) = words_of::<Brand>(self, seat, room);
        let plain = PlainRows {
            words,
            frames,
            locks,
            workers,
        };
        (plain, trace)
    }

    // Where the word of a row lies: its latch at 0, then the others.
    pub(crate) fn place(&self, row: u32, word: usize) -> usize
        requires { (row < rows_of (sizes self.now.frames self.now.locks self.now.workers)) × (word ≤ width (sizes self.now.frames self.now.locks self.now.workers) row) }
        ensures { (result ≡ row_at (sizes self.now.frames self.now.locks self.now.workers) row word) × (result < self.now.table.shared.table_id.words) }
    {
        let base = 2 + 4 * self.workers as usize;
        if row < self.frames {
            base + row as usize * 129 + word
        } else {
            base + self.frames as usize * 129 + (row - self.frames) as usize * 6 + word
        }
    }

    // Where a control word lies.
    pub(crate) fn control(&self, control: u32, word: u32) -> usize
        requires { (control ≤ self.now.workers) × (word < count_of control) }
        ensures { (result ≡ control_at control word) × (result < self.now.table.shared.table_id.words) }
    {
        if control == 0 {
            word as usize
        } else {
            2 + 4 * (control as usize - 1) + word as usize
        }
    }
}

// The words of a table in which one seat is left, and that seat as plain rows have it. Which view it has stands there for the proof
// alone.
fn words_of<K: Which>(rows: SharedRows, seat: Taker, room: Vec<u64>) -> (Vec<u64>, Trace)
    requires own { seat.table_id ≡ rows.table.shared.table_id }
    requires last { IsLast seat.me.0 }
    requires room { IsRoom (sizes rows.frames rows.locks rows.workers) room.items (vec_capacity room) }
    requires which { K.which ≡ returned seat.me.0 }
    ensures view { result.1.view ≡ returned seat.me.0 }
    ensures picture { IsPicture (plan (sizes rows.frames rows.locks rows.workers) seat.me.0.given) result.0.items (returned seat.me.0) }
{
    let SharedRows {
        table,
        frames: _,
        locks: _,
        workers: _,
    } = rows;
    let mut words = room;
    let count = table.word_count();
    let closed = table.close_with(seat);
    copy_words(&closed, &mut words, count);
    closed.free();
    (words, Trace::of::<K>())
}

// Puts the words of a closed table behind one another.
fn copy_words(closed: &Closed<(), Global>, words: &mut Vec<u64>, count: usize)
    requires full { IsFull closed.now.words }
    requires count { slots_len closed.now.words ≡ count }
    requires room { (words.old.items ≡ []) × (count ≤ vec_capacity words.old) }
    ensures { words.new.items ≡ slots_items closed.now.words }
{
    for i in 0..count {
        words.push_reserved(closed.word(i));
    }
}

/// The rows, as one thread has them.
#[derive(Drop)]
pub struct SharedRef<'a>(pub &'a SharedRows);
