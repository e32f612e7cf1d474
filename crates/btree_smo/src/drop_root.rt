//! The root takes the contents of its one child.
ghost use Rattle.std.specs.Prelude.{◌≡◌, ◌≢◌, ◌↔◌, ◌<◌, ◌≤◌, ◌^◌, ◌∷◌, [], ℕ, true, IsTrue, IfOk, IfErr, Ok, Err};
ghost use Rattle.btree_descent.specs.row_words.declared.event.Event.TheVariants.{Drop};
ghost use Rattle.btree_descent.specs.rows_trait.Views.{may, state};
ghost use Rattle.disk_image.specs.log_record.declared.record.Record.{Record};
ghost use Rattle.btree_descent.specs.draw_trait.Clocks.{touched, drawn};
ghost use Rattle.btree_descent.specs.Known.{IsSound};
ghost use Rattle.btree_descent.specs.Descents.{Sized};
ghost use Rattle.btree_descent.specs.Puts.{DrawsFor};
ghost use Rattle.btree_smo.specs.Outcomes.{MayChange, Drew, last_after, Caused, IsUndisturbed};
ghost use Rattle.btree_smo.specs.Drops.{Lowered, drop_entry};
ghost use Rattle.held_rows.specs.Rows.{HoldsTwo, Stood};
ghost use Rattle.held_rows.specs.Publishing.{Went};
ghost use Rattle.btree_smo.specs.Inside.Dropping.{HasOne, IsDropping, NotFit, IsRecord, root_after, child_after, IsLowered};

use crate::events::Drops;
use crate::held::page_in;
use crate::image::image;
use crate::latch::latch_two;
use crate::outcome::Outcome;
use crate::record::pairs_of;
use btree_descent::put::LAST_NUMBER;
use btree_descent::{Draw, Hold, Rows, Swip, Unstaged};
use disk_image::{Body, Node, PageRef, Record};
use held_rows::{give_up_two, publish_two, store};

// The root and its one child as they stand in their rows, and the child as it is written.
#[derive(Drop)]
pub(crate) struct Dropping {
    pub root: Node,
    pub child: Node,
    pub image: Node,
}

// Whether the node has one pair, which names the page in this frame.
fn has_one(node: &Node, frame: u32) -> bool
    ensures { IsTrue result ↔ HasOne frame node.now }
{
    if node.level() == 0 {
        return false;
    }
    if node.count() != 1 {
        return false;
    }
    node.word_at(0) == Swip::Frame(frame).word()
}

// Takes both pages from their held rows, and tests whether the one is the root's one child.
fn look<R: Rows>(
    rows: &mut R,
    seat: &mut R::Seat,
    worker: u32,
    frames: u32,
    root: &Hold,
    child: &Hold,
) -> Result<Dropping, Outcome>
    requires fits { R.fits rows.old seat.old }
    requires sized { Sized (R.shape rows.old) (R.view seat.old) frames }
    requires actor { may (R.shape rows.old).alone (R.view seat.old) worker ≡ true }
    requires sound { IsSound (R.view seat.old).given }
    requires two { HoldsTwo (R.shape rows.old) (R.view seat.old) root.now.row child.now.row }
    requires first { root.now.row ≡ 0 }
    requires may { MayChange (R.view seat.old) worker }
    ensures fits { R.fits rows.new seat.new × (R.shape rows.new ≡ R.shape rows.old) }
    ensures stood { IfOk result (λ _. Stood (R.shape rows.old).alone (R.view seat.old) (R.view seat.new)) }
    ensures ok { IfOk result (λ l. IsDropping (R.view seat.new) worker child.now.row l) }
    ensures held { (R.view seat.new).held ≡ (R.view seat.old).held }
    ensures cause { IfErr result (λ why. Caused (R.view seat.old) why (R.view seat.new)) }
    ensures quiet { IfErr result (λ why. (R.shape rows.old).alone ≡ true → IsUndisturbed why) }
    ensures err { IfErr result (λ why. NotFit (R.shape rows.old).alone child.now.row (R.view seat.old) why (R.view seat.new)) }
{
    let Some(node) = page_in(rows, seat, root) else {
        return Err(Outcome::Stale { row: root.row });
    };
    let Some(only) = page_in(rows, seat, child) else {
        return Err(Outcome::Stale { row: child.row });
    };
    if !has_one(&node, child.row) {
        return Err(Outcome::Stale { row: root.row });
    }
    if node.gsn() >= LAST_NUMBER {
        return Err(Outcome::ClockSpent);
    }
    if only.gsn() >= LAST_NUMBER {
        return Err(Outcome::ClockSpent);
    }
    match image(rows, seat, worker, frames, child.row, &only) {
        Ok(image) => Ok(Dropping {
            root: node,
            child: only,
            image,
        }),
        Err(why) => Err(why),
    }
}

// Touches both pages, draws the number of the drop and stages its record.
fn stage<D: Draw>(draw: &mut D, dropping: &Dropping) -> Result<u64, Unstaged>
    requires clock { (D.clock_of draw.old).clock < 2 ^ 63 }
    requires root { dropping.now.root.gsn < 2 ^ 63 }
    requires child { dropping.now.child.gsn < 2 ^ 63 }
    requires page { dropping.now.child.number < 2 ^ 32 }
    requires last { D.last_of draw.old ≤ (D.clock_of draw.old).clock }
    ensures kept { (D.log_of draw.new ≡ D.log_of draw.old) × (D.txn_of draw.new ≡ D.txn_of draw.old) × (D.loans_of draw.new ≡ D.loans_of draw.old) }
    ensures stages { IfOk result (λ _. D.stages draw.old (Ok tt) draw.new) }
    ensures refused { IfErr result (λ u. D.stages draw.old (Err u) draw.new) }
    ensures clock { D.clock_of draw.new ≡ drawn (touched (D.log_of draw.old) (touched (D.log_of draw.old) (D.clock_of draw.old) dropping.now.child.gsn dropping.now.child.last_log) dropping.now.root.gsn dropping.now.root.last_log) }
    ensures number { IfOk result (λ n. n ≡ (D.clock_of draw.new).clock) }
    ensures last { IfOk result (λ n. D.last_of draw.new ≡ n) }
    ensures staged { IfOk result (λ n. (r : Record) × (D.staged_of draw.new ≡ r ∷ D.staged_of draw.old) × IsRecord (D.txn_of draw.old) n dropping.now r) }
    ensures same { IfErr result (λ _. (D.staged_of draw.new ≡ D.staged_of draw.old) × (D.last_of draw.new ≡ D.last_of draw.old)) }
{
    draw.touch(dropping.child.gsn(), dropping.child.last_log());
    draw.touch(dropping.root.gsn(), dropping.root.last_log());
    let number = draw.next();
    let pairs = pairs_of(dropping.image.pairs());
    let entry = Record {
        txn: draw.txn(),
        gsn: number,
        body: Body::DropRoot {
            root_prev: dropping.root.gsn(),
            child: PageRef {
                page: dropping.child.number() as u32,
                prev: dropping.child.gsn(),
            },
            level: dropping.child.level(),
            pairs,
        },
    };
    draw.stage(&entry)?;
    Ok(number)
}

// Lowers the root, as nodes with swips.
fn lower(root: &mut Node, child: &mut Node, worker: u32, number: u64)
    requires live { root.old.node.live ≡ true }
    requires low { child.old.node.low ≡ root.old.node.low }
    requires high { child.old.node.high ≡ root.old.node.high }
    requires log { worker < 256 }
    ensures root { root.new ≡ root_after root.old child.old number worker }
    ensures child { child.new ≡ child_after child.old number worker }
{
    root.drop_root(child);
    root.set_gsn(number);
    root.set_last_log(worker);
    child.set_gsn(number);
    child.set_last_log(worker);
}

// Stores both nodes in their rows, and publishes the drop.
fn finish<R: Rows>(
    rows: &mut R,
    seat: &mut R::Seat,
    mut first: Hold,
    mut second: Hold,
    root: &Node,
    child: &Node,
    event: &Drops,
)
    requires fits { R.fits rows.old seat.old }
    requires lowered { IsLowered (R.shape rows.old) (R.view seat.old) event.now.worker event.now.page first.row second.row root.now child.now }
    ensures fits { R.fits rows.new seat.new × (R.shape rows.new ≡ R.shape rows.old) × ((R.view seat.new).held ≡ []) }
    ensures went { Went (R.shape rows.old).alone (R.view seat.old) (Drop event.now.worker event.now.page) (R.view seat.new) }
{
    store(rows, seat, &mut first, root);
    store(rows, seat, &mut second, child);
    publish_two(rows, seat, first, second, event);
}

// Makes the drop of two held rows, whose record is staged.
fn make<R: Rows>(
    rows: &mut R,
    seat: &mut R::Seat,
    first: Hold,
    second: Hold,
    dropping: Dropping,
    worker: u32,
    number: u64,
)
    requires fits { R.fits rows.old seat.old }
    requires two { HoldsTwo (R.shape rows.old) (R.view seat.old) first.row second.row }
    requires first { first.row ≡ 0 }
    requires dropping { IsDropping (R.view seat.old) worker second.row dropping }
    requires actor { may (R.shape rows.old).alone (R.view seat.old) worker ≡ true }
    requires sound { IsSound (R.view seat.old).given }
    requires log { worker < 256 }
    requires number { number ≡ (drop_entry worker dropping.child.number (state (R.view seat.old)).core).number }
    ensures fits { R.fits rows.new seat.new × (R.shape rows.new ≡ R.shape rows.old) × ((R.view seat.new).held ≡ []) }
    ensures went { Went (R.shape rows.old).alone (R.view seat.old) (Drop worker dropping.child.number) (R.view seat.new) }
{
    let Dropping {
        mut root,
        mut child,
        image: _,
    } = dropping;
    let event = Drops {
        worker,
        page: child.number() as u32,
    };
    lower(&mut root, &mut child, worker, number);
    finish(rows, seat, first, second, &root, &child, &event);
}

// Drops a level at the root whose row is held, as that of its one child is.
fn drop_held<R: Rows, D: Draw>(
    rows: &mut R,
    seat: &mut R::Seat,
    worker: u32,
    frames: u32,
    first: Hold,
    second: Hold,
    draw: &mut D,
) -> Outcome
    requires fits { R.fits rows.old seat.old }
    requires sized { Sized (R.shape rows.old) (R.view seat.old) frames }
    requires actor { may (R.shape rows.old).alone (R.view seat.old) worker ≡ true }
    requires sound { IsSound (R.view seat.old).given }
    requires two { HoldsTwo (R.shape rows.old) (R.view seat.old) first.row second.row }
    requires first { first.row ≡ 0 }
    requires may { MayChange (R.view seat.old) worker }
    requires draws { DrawsFor (R.view seat.old) worker (D.log_of draw.old) (D.txn_of draw.old) (D.clock_of draw.old) (D.last_of draw.old) }
    ensures fits { R.fits rows.new seat.new × (R.shape rows.new ≡ R.shape rows.old) × ((R.view seat.new).held ≡ []) }
    ensures lowered { Lowered (R.shape rows.old).alone worker second.row (R.view seat.old) (D.staged_of draw.old) result (R.view seat.new) (D.clock_of draw.new) (D.staged_of draw.new) }
    ensures drew { Drew result (λ r. D.stages draw.old r draw.new) (draw.new ≡ draw.old) }
    ensures last { D.last_of draw.new ≡ last_after result (D.last_of draw.old) (D.clock_of draw.new).clock }
    ensures kept { (D.log_of draw.new ≡ D.log_of draw.old) × (D.txn_of draw.new ≡ D.txn_of draw.old) × (D.loans_of draw.new ≡ D.loans_of draw.old) }
    ensures cause { Caused (R.view seat.old) result (R.view seat.new) }
    ensures quiet { (R.shape rows.old).alone ≡ true → IsUndisturbed result }
{
    let dropping = match look(rows, seat, worker, frames, &first, &second) {
        Ok(dropping) => dropping,
        Err(why) => {
            give_up_two(rows, seat, first, second);
            return why;
        }
    };
    match stage(draw, &dropping) {
        Ok(number) => {
            make(rows, seat, first, second, dropping, worker, number);
            Outcome::Done
        }
        Err(unstaged) => {
            give_up_two(rows, seat, first, second);
            Outcome::Unstaged(unstaged)
        }
    }
}

/// Puts the contents of the root's one child, which stands hot in frame row `frame`, into the root, for `worker`, over rows whose first
/// `frames` are frames. The root is one level lower then, with the child's pairs, and the child's page is free.
///
/// Both rows are latched, and each page is looked at in its held row. Between the latches and the publish the drop is drawn from
/// `draw` and its record staged.
///
/// Done appends the drop. All other answers append nothing but a few misses, and the rows are given up as they stood; of these Unstaged
/// alone has drawn. Stale: no page stands hot in the frame, or it is not the root's one child. ClockSpent: the number of one of the two
/// pages has come to `LAST_NUMBER`. Moved and Latched: a row was another seat's, one of the two or one of a child; try again.
pub fn drop_root<R: Rows, D: Draw>(
    rows: &mut R,
    seat: &mut R::Seat,
    worker: u32,
    frames: u32,
    frame: u32,
    draw: &mut D,
) -> Outcome
    requires fits { R.fits rows.old seat.old }
    requires sized { Sized (R.shape rows.old) (R.view seat.old) frames }
    requires actor { may (R.shape rows.old).alone (R.view seat.old) worker ≡ true }
    requires sound { IsSound (R.view seat.old).given }
    requires frame { frame < frames }
    requires held { (R.view seat.old).held ≡ [] }
    requires may { MayChange (R.view seat.old) worker }
    requires draws { DrawsFor (R.view seat.old) worker (D.log_of draw.old) (D.txn_of draw.old) (D.clock_of draw.old) (D.last_of draw.old) }
    ensures fits { R.fits rows.new seat.new × (R.shape rows.new ≡ R.shape rows.old) × ((R.view seat.new).held ≡ []) }
    ensures lowered { Lowered (R.shape rows.old).alone worker frame (R.view seat.old) (D.staged_of draw.old) result (R.view seat.new) (D.clock_of draw.new) (D.staged_of draw.new) }
    ensures drew { Drew result (λ r. D.stages draw.old r draw.new) (draw.new ≡ draw.old) }
    ensures last { D.last_of draw.new ≡ last_after result (D.last_of draw.old) (D.clock_of draw.new).clock }
    ensures kept { (D.log_of draw.new ≡ D.log_of draw.old) × (D.txn_of draw.new ≡ D.txn_of draw.old) × (D.loans_of draw.new ≡ D.loans_of draw.old) }
    ensures cause { Caused (R.view seat.old) result (R.view seat.new) }
    ensures quiet { (R.shape rows.old).alone ≡ true → frame ≢ 0 → IsUndisturbed result }
{
    let (first, second) = match latch_two(rows, seat, worker, 0, frame) {
        Ok(holds) => holds,
        Err(why) => return why,
    };
    drop_held(rows, seat, worker, frames, first, second, draw)
}
