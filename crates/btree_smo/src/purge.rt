//! Tombstones that nobody can need go.
ghost use Rattle.std.specs.Prelude.{◌≡◌, ◌<◌, ◌≤◌, ◌^◌, ◌∷◌, [], true, IfOk, IfErr, Ok, Err, length};
ghost use Rattle.btree_descent.specs.row_words.declared.event.Event.TheVariants.{Purge};
ghost use Rattle.btree_descent.specs.rows_trait.Layout.{rows_of};
ghost use Rattle.btree_descent.specs.rows_trait.Views.{may, state};
ghost use Rattle.disk_image.specs.log_record.declared.record.Record.{Record};
ghost use Rattle.btree_descent.specs.draw_trait.Clocks.{touched, drawn};
ghost use Rattle.key_locks.specs.Rows as lock_rows;
ghost use Rattle.btree_descent.specs.Known.{IsSound};
ghost use Rattle.btree_descent.specs.Descents.{Sized};
ghost use Rattle.btree_descent.specs.Puts.{DrawsFor};
ghost use Rattle.btree_smo.specs.Outcomes.{MayChange};
ghost use Rattle.btree_smo.specs.Purges.{IsFloor, Clears, DrewOf, CausedOf, IsCalm, last_of, purge_entry, purgeable_keys};
ghost use Rattle.held_rows.specs.Rows.{IsFrame, Stood, HoldsOne};
ghost use Rattle.btree_smo.specs.Inside.Purging.{IsLeafIn, NotLeaf, IsPurging, IsPurged, IsRecord, WentOn, leaf_after};

use crate::events::Purges;
use crate::gather::gather;
use crate::gathered::{GoneKeys, Places};
use crate::held::page_in;
use crate::latch::latch_one;
use crate::outcome::Outcome;
use crate::record::keys_of;
use crate::release::{give_up_places, release_places};
use btree_descent::put::LAST_NUMBER;
use btree_descent::{Draw, Hold, Rows, Unstaged};
use disk_image::{Body, Node, PageRef, Record};
use held_rows::store;

/// What a purge did, or why it did nothing.
#[derive(Clone, Copy)]
pub enum Purged {
    Done,
    /// Nothing goes: no tombstone can, or more entries than asked would be left. So many would be.
    Spared { left: usize },
    Refused(Outcome),
}

// Takes the leaf from its held row.
fn look_leaf<R: Rows>(rows: &mut R, seat: &mut R::Seat, hold: &Hold) -> Result<Node, Outcome>
    requires fits { R.fits rows.old seat.old }
    requires frame { IsFrame (R.shape rows.old) (R.view seat.old) hold.now.row }
    requires sound { IsSound (R.view seat.old).given }
    ensures fits { R.fits rows.new seat.new × (R.shape rows.new ≡ R.shape rows.old) }
    ensures stood { Stood (R.shape rows.old).alone (R.view seat.old) (R.view seat.new) }
    ensures ok { IfOk result (λ n. IsLeafIn (R.view seat.new) hold.now.row n) }
    ensures err { IfErr result (λ why. NotLeaf hold.now.row why (R.view seat.new)) }
{
    let Some(node) = page_in(rows, seat, hold) else {
        return Err(Outcome::Stale { row: hold.row });
    };
    if !node.is_live() {
        return Err(Outcome::Stale { row: hold.row });
    }
    if node.level() != 0 {
        return Err(Outcome::Stale { row: hold.row });
    }
    if node.gsn() >= LAST_NUMBER {
        return Err(Outcome::ClockSpent);
    }
    Ok(node)
}

// Touches the leaf, draws the number of the purge and stages its record.
fn stage<D: Draw>(draw: &mut D, node: &Node, keys: &[u64]) -> Result<u64, Unstaged>
    requires clock { (D.clock_of draw.old).clock < 2 ^ 63 }
    requires gsn { node.now.gsn < 2 ^ 63 }
    requires page { node.now.number < 2 ^ 32 }
    requires few { length keys.now ≤ 60 }
    requires last { D.last_of draw.old ≤ (D.clock_of draw.old).clock }
    ensures kept { (D.log_of draw.new ≡ D.log_of draw.old) × (D.txn_of draw.new ≡ D.txn_of draw.old) × (D.loans_of draw.new ≡ D.loans_of draw.old) }
    ensures stages { IfOk result (λ _. D.stages draw.old (Ok tt) draw.new) }
    ensures refused { IfErr result (λ u. D.stages draw.old (Err u) draw.new) }
    ensures clock { D.clock_of draw.new ≡ drawn (touched (D.log_of draw.old) (D.clock_of draw.old) node.now.gsn node.now.last_log) }
    ensures number { IfOk result (λ n. n ≡ (D.clock_of draw.new).clock) }
    ensures last { IfOk result (λ n. D.last_of draw.new ≡ n) }
    ensures staged { IfOk result (λ n. (r : Record) × (D.staged_of draw.new ≡ r ∷ D.staged_of draw.old) × IsRecord (D.txn_of draw.old) n node.now keys.now r) }
    ensures same { IfErr result (λ _. (D.staged_of draw.new ≡ D.staged_of draw.old) × (D.last_of draw.new ≡ D.last_of draw.old)) }
{
    draw.touch(node.gsn(), node.last_log());
    let number = draw.next();
    let gone = keys_of(keys);
    let entry = Record {
        txn: draw.txn(),
        gsn: number,
        body: Body::Purge {
            leaf: PageRef {
                page: node.number() as u32,
                prev: node.gsn(),
            },
            keys: gone,
        },
    };
    draw.stage(&entry)?;
    Ok(number)
}

// Purges the leaf, as a node.
fn clear(node: &mut Node, keys: &[u64], worker: u32, number: u64)
    requires log { worker < 256 }
    ensures after { node.new ≡ leaf_after node.old keys.now number worker }
    ensures short { length node.new.node.pairs ≤ 60 }
{
    node.purge(keys);
    node.set_gsn(number);
    node.set_last_log(worker);
    let _ = node.count();
}

// Stores the leaf in its row and publishes the purge, and then gives up the lock rows.
fn finish<R: Rows>(
    rows: &mut R,
    seat: &mut R::Seat,
    frames: u32,
    mut first: Hold,
    node: &Node,
    event: &Purges,
    places: &Places,
)
    requires fits { R.fits rows.old seat.old }
    requires few { length places.now ≤ 60 }
    requires small { rows_of (R.shape rows.old).sizes < 2 ^ 32 }
    requires purged { IsPurged (R.shape rows.old) (R.view seat.old) event.now.worker event.now.page event.now.keys frames first.row node.now places.now }
    ensures fits { R.fits rows.new seat.new × (R.shape rows.new ≡ R.shape rows.old) × ((R.view seat.new).held ≡ []) }
    ensures went { WentOn (R.shape rows.old).alone (R.view seat.old) (Purge event.now.worker event.now.page event.now.keys) (R.view seat.new) }
{
    store(rows, seat, &mut first, node);
    first.publish_as(rows, seat, event);
    release_places(rows, seat, frames, places);
}

// Makes the purge of a held leaf, whose record is staged.
fn make<R: Rows>(
    rows: &mut R,
    seat: &mut R::Seat,
    frames: u32,
    first: Hold,
    mut node: Node,
    keys: GoneKeys,
    places: &Places,
    worker: u32,
    number: u64,
)
    requires fits { R.fits rows.old seat.old }
    requires few { length places.now ≤ 60 }
    requires small { rows_of (R.shape rows.old).sizes < 2 ^ 32 }
    requires purging { IsPurging (R.shape rows.old) (R.view seat.old) worker frames first.row node places.now keys }
    requires actor { may (R.shape rows.old).alone (R.view seat.old) worker ≡ true }
    requires sound { IsSound (R.view seat.old).given }
    requires log { worker < 256 }
    requires number { number ≡ (purge_entry worker node.number keys (state (R.view seat.old)).core).number }
    ensures fits { R.fits rows.new seat.new × (R.shape rows.new ≡ R.shape rows.old) × ((R.view seat.new).held ≡ []) }
    ensures went { WentOn (R.shape rows.old).alone (R.view seat.old) (Purge worker node.number keys) (R.view seat.new) }
{
    clear(&mut node, keys.all(), worker, number);
    let event = Purges {
        worker,
        page: node.number() as u32,
        keys,
    };
    finish(rows, seat, frames, first, &node, &event, places);
}

// Purges the leaf whose row is held, and no other row.
fn purge_held<R: Rows, D: Draw>(
    rows: &mut R,
    seat: &mut R::Seat,
    worker: u32,
    frames: u32,
    locks: u32,
    floor: u64,
    most: usize,
    first: Hold,
    draw: &mut D,
) -> Purged
    requires fits { R.fits rows.old seat.old }
    requires locks { lock_rows.Sized (R.shape rows.old) (R.view seat.old) worker frames locks }
    requires sound_rows { lock_rows.IsSound (R.view seat.old).given }
    requires actor { may (R.shape rows.old).alone (R.view seat.old) worker ≡ true }
    requires sound { IsSound (R.view seat.old).given }
    requires leaf { HoldsOne (R.shape rows.old) (R.view seat.old) first.row }
    requires floor { IsFloor (R.shape rows.old) (R.view seat.old) floor }
    requires may { MayChange (R.view seat.old) worker }
    requires draws { DrawsFor (R.view seat.old) worker (D.log_of draw.old) (D.txn_of draw.old) (D.clock_of draw.old) (D.last_of draw.old) }
    ensures fits { R.fits rows.new seat.new × (R.shape rows.new ≡ R.shape rows.old) × ((R.view seat.new).held ≡ []) }
    ensures clears { Clears (R.shape rows.old).alone worker first.row most (R.view seat.old) (D.staged_of draw.old) result (R.view seat.new) (D.clock_of draw.new) (D.staged_of draw.new) }
    ensures drew { DrewOf result (λ r. D.stages draw.old r draw.new) (draw.new ≡ draw.old) }
    ensures last { D.last_of draw.new ≡ last_of result (D.last_of draw.old) (D.clock_of draw.new).clock }
    ensures kept { (D.log_of draw.new ≡ D.log_of draw.old) × (D.txn_of draw.new ≡ D.txn_of draw.old) × (D.loans_of draw.new ≡ D.loans_of draw.old) }
    ensures cause { CausedOf (R.view seat.old) result (R.view seat.new) }
    ensures quiet { (R.shape rows.old).alone ≡ true → IsCalm result }
{
    let mut places = Places::new();
    let mut keys = GoneKeys::new();
    let node = match look_leaf(rows, seat, &first) {
        Ok(node) => node,
        Err(why) => {
            give_up_places(rows, seat, frames, first, &places);
            return Purged::Refused(why);
        }
    };
    match gather(
        rows,
        seat,
        worker,
        frames,
        locks,
        floor,
        &first,
        &node,
        &mut places,
        &mut keys,
    ) {
        Ok(()) => {}
        Err(row) => {
            give_up_places(rows, seat, frames, first, &places);
            return Purged::Refused(Outcome::RowSpent { row });
        }
    }
    let gone = keys.all().len();
    let left = node.count() - gone;
    if gone == 0 || left > most {
        give_up_places(rows, seat, frames, first, &places);
        return Purged::Spared { left };
    }
    match stage(draw, &node, keys.all()) {
        Ok(number) => {
            make(
                rows, seat, frames, first, node, keys, &places, worker, number,
            );
            Purged::Done
        }
        Err(unstaged) => {
            give_up_places(rows, seat, frames, first, &places);
            Purged::Refused(Outcome::Unstaged(unstaged))
        }
    }
}

/// Purges the tombstones that nobody can need of the leaf that stands hot in frame row `leaf`, with one record, for `worker`, over rows
/// whose first `frames` are frames, with `locks` lock rows behind them. Nobody can need a tombstone whose lock row nobody holds, with a
/// last end that is at most `floor`, up to which each log is flushed. Where more than `most` entries would be left, nothing goes.
///
/// The leaf's row is latched, and then the lock rows of the tombstones that can go, each from words that say so; a row that is not to be
/// had is passed over, and its keys stay. So none of these rows changes before the publish. Behind it they are given up.
///
/// Done appends the purge, and a miss for each lock row. All other answers append nothing but misses, and of these Unstaged alone has
/// drawn. Spared: no tombstone can go, or more entries than asked would be left. Stale: no leaf stands hot in the frame. ClockSpent: its
/// number has come to `LAST_NUMBER`. RowSpent: the version of the leaf's row or of a lock row has come to the last one. Moved and Latched:
/// the leaf's row was another seat's; try again.
pub fn purge<R: Rows, D: Draw>(
    rows: &mut R,
    seat: &mut R::Seat,
    worker: u32,
    frames: u32,
    locks: u32,
    floor: u64,
    most: usize,
    leaf: u32,
    draw: &mut D,
) -> Purged
    requires fits { R.fits rows.old seat.old }
    requires sized { Sized (R.shape rows.old) (R.view seat.old) frames }
    requires locks { lock_rows.Sized (R.shape rows.old) (R.view seat.old) worker frames locks }
    requires sound_rows { lock_rows.IsSound (R.view seat.old).given }
    requires actor { may (R.shape rows.old).alone (R.view seat.old) worker ≡ true }
    requires sound { IsSound (R.view seat.old).given }
    requires leaf { leaf < frames }
    requires held { (R.view seat.old).held ≡ [] }
    requires floor { IsFloor (R.shape rows.old) (R.view seat.old) floor }
    requires may { MayChange (R.view seat.old) worker }
    requires draws { DrawsFor (R.view seat.old) worker (D.log_of draw.old) (D.txn_of draw.old) (D.clock_of draw.old) (D.last_of draw.old) }
    ensures fits { R.fits rows.new seat.new × (R.shape rows.new ≡ R.shape rows.old) × ((R.view seat.new).held ≡ []) }
    ensures clears { Clears (R.shape rows.old).alone worker leaf most (R.view seat.old) (D.staged_of draw.old) result (R.view seat.new) (D.clock_of draw.new) (D.staged_of draw.new) }
    ensures drew { DrewOf result (λ r. D.stages draw.old r draw.new) (draw.new ≡ draw.old) }
    ensures last { D.last_of draw.new ≡ last_of result (D.last_of draw.old) (D.clock_of draw.new).clock }
    ensures kept { (D.log_of draw.new ≡ D.log_of draw.old) × (D.txn_of draw.new ≡ D.txn_of draw.old) × (D.loans_of draw.new ≡ D.loans_of draw.old) }
    ensures cause { CausedOf (R.view seat.old) result (R.view seat.new) }
    ensures quiet { (R.shape rows.old).alone ≡ true → IsCalm result }
{
    match latch_one(rows, seat, worker, leaf) {
        Ok(first) => purge_held(rows, seat, worker, frames, locks, floor, most, first, draw),
        Err(why) => Purged::Refused(why),
    }
}
