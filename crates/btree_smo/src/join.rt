//! Two neighbours become one page, and their parent loses the right one.
ghost use Rattle.std.specs.Prelude.{◌≡◌, ◌≢◌, ◌<◌, ◌≤◌, ◌+◌, ◌^◌, ◌∷◌, [], ℕ, true, IfOk, IfErr, OnOk, Ok, Err, length};
ghost use Rattle.btree_descent.specs.row_words.declared.event.Event.TheVariants.{Join};
ghost use Rattle.btree_descent.specs.rows_trait.Views.{may, state};
ghost use Rattle.disk_image.specs.log_record.declared.record.Record.{Record};
ghost use Rattle.btree_descent.specs.draw_trait.Clocks.{touched, drawn};
ghost use Rattle.btree_descent.specs.Known.{IsSound};
ghost use Rattle.btree_descent.specs.Descents.{Sized};
ghost use Rattle.btree_descent.specs.Puts.{DrawsFor};
ghost use Rattle.btree_smo.specs.Outcomes.{MayChange, Drew, last_after, Caused, IsUndisturbed};
ghost use Rattle.btree_smo.specs.Joins.{Merged, join_entry};
ghost use Rattle.held_rows.specs.Rows.{HoldsThree, Stood};
ghost use Rattle.held_rows.specs.Publishing.{Went};
ghost use Rattle.btree_smo.specs.Inside.Joining.{CanJoin, CantJoin, IsJoining, NotFit, IsRecord, left_after, right_after, parent_after, IsMerged};

use crate::events::Joins;
use crate::held::page_in;
use crate::image::image;
use crate::latch::latch_three;
use crate::leading::leads;
use crate::outcome::Outcome;
use crate::record::{pairs_of, reference};
use btree_descent::put::LAST_NUMBER;
use btree_descent::{Draw, Hold, Rows, Unstaged};
use disk_image::{Body, Node, Record};
use held_rows::{give_up_three, publish_three, store};

/// The most pairs that two pages have together which are joined.
const JOINED: usize = 45;

// The three pages as they stand in their rows, and the right one as it is written.
#[derive(Drop)]
pub(crate) struct Joining {
    pub left: Node,
    pub right: Node,
    pub parent: Node,
    pub image: Node,
}

// Whether the two pages can be joined, as the nodes in these rows say it, or why not.
fn test(
    left: &Node,
    right: &Node,
    parent: &Node,
    first: u32,
    second: u32,
    third: u32,
) -> Result<(), Outcome>
    ensures ok { OnOk result (CanJoin first second left.now right.now parent.now) }
    ensures err { IfErr result (CantJoin first second third left.now right.now parent.now) }
{
    if !leads(parent, left.low(), first) {
        return Err(Outcome::Stale { row: third });
    }
    if !leads(parent, right.low(), second) {
        return Err(Outcome::Stale { row: third });
    }
    if left.high() != right.low() {
        return Err(Outcome::Stale { row: second });
    }
    if left.count() + right.count() > JOINED {
        return Err(Outcome::Full { row: first });
    }
    if left.gsn() >= LAST_NUMBER {
        return Err(Outcome::ClockSpent);
    }
    if right.gsn() >= LAST_NUMBER {
        return Err(Outcome::ClockSpent);
    }
    if parent.gsn() >= LAST_NUMBER {
        return Err(Outcome::ClockSpent);
    }
    Ok(())
}

// Takes the three pages from their held rows, and tests whether the first two can be joined.
fn look<R: Rows>(
    rows: &mut R,
    seat: &mut R::Seat,
    worker: u32,
    frames: u32,
    first: &Hold,
    second: &Hold,
    third: &Hold,
) -> Result<Joining, Outcome>
    requires fits { R.fits rows.old seat.old }
    requires sized { Sized (R.shape rows.old) (R.view seat.old) frames }
    requires actor { may (R.shape rows.old).alone (R.view seat.old) worker ≡ true }
    requires sound { IsSound (R.view seat.old).given }
    requires three { HoldsThree (R.shape rows.old) (R.view seat.old) first.now.row second.now.row third.now.row }
    requires may { MayChange (R.view seat.old) worker }
    ensures fits { R.fits rows.new seat.new × (R.shape rows.new ≡ R.shape rows.old) }
    ensures stood { IfOk result (λ _. Stood (R.shape rows.old).alone (R.view seat.old) (R.view seat.new)) }
    ensures ok { IfOk result (λ l. IsJoining (R.view seat.new) worker first.now.row second.now.row third.now.row l) }
    ensures held { (R.view seat.new).held ≡ (R.view seat.old).held }
    ensures cause { IfErr result (λ why. Caused (R.view seat.old) why (R.view seat.new)) }
    ensures quiet { IfErr result (λ why. (R.shape rows.old).alone ≡ true → IsUndisturbed why) }
    ensures err { IfErr result (λ why. NotFit (R.shape rows.old).alone first.now.row second.now.row third.now.row (R.view seat.old) why (R.view seat.new)) }
{
    let Some(left) = page_in(rows, seat, first) else {
        return Err(Outcome::Stale { row: first.row });
    };
    let Some(right) = page_in(rows, seat, second) else {
        return Err(Outcome::Stale { row: second.row });
    };
    let Some(parent) = page_in(rows, seat, third) else {
        return Err(Outcome::Stale { row: third.row });
    };
    match test(&left, &right, &parent, first.row, second.row, third.row) {
        Ok(()) => match image(rows, seat, worker, frames, second.row, &right) {
            Ok(image) => Ok(Joining {
                left,
                right,
                parent,
                image,
            }),
            Err(why) => Err(why),
        },
        Err(why) => Err(why),
    }
}

// Touches the three pages, draws the number of the join and stages its record.
fn stage<D: Draw>(draw: &mut D, joining: &Joining) -> Result<u64, Unstaged>
    requires clock { (D.clock_of draw.old).clock < 2 ^ 63 }
    requires left { joining.now.left.gsn < 2 ^ 63 }
    requires right { joining.now.right.gsn < 2 ^ 63 }
    requires parent { joining.now.parent.gsn < 2 ^ 63 }
    requires left_page { joining.now.left.number < 2 ^ 32 }
    requires right_page { joining.now.right.number < 2 ^ 32 }
    requires parent_page { joining.now.parent.number < 2 ^ 32 }
    requires last { D.last_of draw.old ≤ (D.clock_of draw.old).clock }
    ensures kept { (D.log_of draw.new ≡ D.log_of draw.old) × (D.txn_of draw.new ≡ D.txn_of draw.old) × (D.loans_of draw.new ≡ D.loans_of draw.old) }
    ensures stages { IfOk result (λ _. D.stages draw.old (Ok tt) draw.new) }
    ensures refused { IfErr result (λ u. D.stages draw.old (Err u) draw.new) }
    ensures clock { D.clock_of draw.new ≡ drawn (touched (D.log_of draw.old) (touched (D.log_of draw.old) (touched (D.log_of draw.old) (D.clock_of draw.old) joining.now.parent.gsn joining.now.parent.last_log) joining.now.right.gsn joining.now.right.last_log) joining.now.left.gsn joining.now.left.last_log) }
    ensures number { IfOk result (λ n. n ≡ (D.clock_of draw.new).clock) }
    ensures last { IfOk result (λ n. D.last_of draw.new ≡ n) }
    ensures staged { IfOk result (λ n. (r : Record) × (D.staged_of draw.new ≡ r ∷ D.staged_of draw.old) × IsRecord (D.txn_of draw.old) n joining.now r) }
    ensures same { IfErr result (λ _. (D.staged_of draw.new ≡ D.staged_of draw.old) × (D.last_of draw.new ≡ D.last_of draw.old)) }
{
    draw.touch(joining.parent.gsn(), joining.parent.last_log());
    draw.touch(joining.right.gsn(), joining.right.last_log());
    draw.touch(joining.left.gsn(), joining.left.last_log());
    let number = draw.next();
    let pairs = pairs_of(joining.image.pairs());
    let entry = Record {
        txn: draw.txn(),
        gsn: number,
        body: Body::Join {
            left: reference(&joining.left),
            right: reference(&joining.right),
            parent: reference(&joining.parent),
            separator: joining.right.low(),
            high: joining.right.high(),
            pairs,
        },
    };
    draw.stage(&entry)?;
    Ok(number)
}

// Merges the two pages, as nodes with swips.
fn merge(left: &mut Node, right: &mut Node, parent: &mut Node, worker: u32, number: u64)
    requires room { length left.old.node.pairs + length right.old.node.pairs ≤ 45 }
    requires beside { left.old.node.high ≡ right.old.node.low }
    requires fences { (left.old.node.low ≤ left.old.node.high) × (right.old.node.low ≤ right.old.node.high) }
    requires log { worker < 256 }
    ensures left { left.new ≡ left_after left.old right.old number worker }
    ensures right { right.new ≡ right_after right.old number worker }
    ensures parent { parent.new ≡ parent_after parent.old right.old.node.low number worker }
    ensures short { (length left.new.node.pairs ≤ 60) × (length right.new.node.pairs ≤ 60) × (length parent.new.node.pairs ≤ 60) }
{
    let separator = right.low();
    left.join(right);
    parent.remove(separator);
    left.set_gsn(number);
    left.set_last_log(worker);
    right.set_gsn(number);
    right.set_last_log(worker);
    parent.set_gsn(number);
    parent.set_last_log(worker);
    let _ = left.count();
    let _ = right.count();
    let _ = parent.count();
}

// Stores the three nodes in their rows, and publishes the join.
fn finish<R: Rows>(
    rows: &mut R,
    seat: &mut R::Seat,
    mut first: Hold,
    mut second: Hold,
    mut third: Hold,
    left: &Node,
    right: &Node,
    parent: &Node,
    event: &Joins,
)
    requires fits { R.fits rows.old seat.old }
    requires merged { IsMerged (R.shape rows.old) (R.view seat.old) event.now.worker event.now.left event.now.right event.now.parent first.row second.row third.row left.now right.now parent.now }
    ensures fits { R.fits rows.new seat.new × (R.shape rows.new ≡ R.shape rows.old) × ((R.view seat.new).held ≡ []) }
    ensures went { Went (R.shape rows.old).alone (R.view seat.old) (Join event.now.worker event.now.left event.now.right event.now.parent) (R.view seat.new) }
{
    store(rows, seat, &mut first, left);
    store(rows, seat, &mut second, right);
    store(rows, seat, &mut third, parent);
    publish_three(rows, seat, first, second, third, event);
}

// Makes the join of three held rows, whose record is staged.
fn make<R: Rows>(
    rows: &mut R,
    seat: &mut R::Seat,
    first: Hold,
    second: Hold,
    third: Hold,
    joining: Joining,
    worker: u32,
    number: u64,
)
    requires fits { R.fits rows.old seat.old }
    requires three { HoldsThree (R.shape rows.old) (R.view seat.old) first.row second.row third.row }
    requires joining { IsJoining (R.view seat.old) worker first.row second.row third.row joining }
    requires actor { may (R.shape rows.old).alone (R.view seat.old) worker ≡ true }
    requires sound { IsSound (R.view seat.old).given }
    requires log { worker < 256 }
    requires left_page { joining.left.number < 2 ^ 32 }
    requires right_page { joining.right.number < 2 ^ 32 }
    requires parent_page { joining.parent.number < 2 ^ 32 }
    requires number { number ≡ (join_entry worker joining.left.number joining.right.number joining.parent.number (state (R.view seat.old)).core).number }
    ensures fits { R.fits rows.new seat.new × (R.shape rows.new ≡ R.shape rows.old) × ((R.view seat.new).held ≡ []) }
    ensures went { Went (R.shape rows.old).alone (R.view seat.old) (Join worker joining.left.number joining.right.number joining.parent.number) (R.view seat.new) }
{
    let Joining {
        mut left,
        mut right,
        mut parent,
        image: _,
    } = joining;
    let event = Joins {
        worker,
        left: left.number() as u32,
        right: right.number() as u32,
        parent: parent.number() as u32,
    };
    merge(&mut left, &mut right, &mut parent, worker, number);
    finish(
        rows, seat, first, second, third, &left, &right, &parent, &event,
    );
}

// Joins the pages of the first two held rows, under that of the third.
fn join_held<R: Rows, D: Draw>(
    rows: &mut R,
    seat: &mut R::Seat,
    worker: u32,
    frames: u32,
    first: Hold,
    second: Hold,
    third: Hold,
    draw: &mut D,
) -> Outcome
    requires fits { R.fits rows.old seat.old }
    requires sized { Sized (R.shape rows.old) (R.view seat.old) frames }
    requires actor { may (R.shape rows.old).alone (R.view seat.old) worker ≡ true }
    requires sound { IsSound (R.view seat.old).given }
    requires three { HoldsThree (R.shape rows.old) (R.view seat.old) first.row second.row third.row }
    requires may { MayChange (R.view seat.old) worker }
    requires draws { DrawsFor (R.view seat.old) worker (D.log_of draw.old) (D.txn_of draw.old) (D.clock_of draw.old) (D.last_of draw.old) }
    ensures fits { R.fits rows.new seat.new × (R.shape rows.new ≡ R.shape rows.old) × ((R.view seat.new).held ≡ []) }
    ensures merged { Merged (R.shape rows.old).alone worker first.row second.row third.row (R.view seat.old) (D.staged_of draw.old) result (R.view seat.new) (D.clock_of draw.new) (D.staged_of draw.new) }
    ensures drew { Drew result (λ r. D.stages draw.old r draw.new) (draw.new ≡ draw.old) }
    ensures last { D.last_of draw.new ≡ last_after result (D.last_of draw.old) (D.clock_of draw.new).clock }
    ensures kept { (D.log_of draw.new ≡ D.log_of draw.old) × (D.txn_of draw.new ≡ D.txn_of draw.old) × (D.loans_of draw.new ≡ D.loans_of draw.old) }
    ensures cause { Caused (R.view seat.old) result (R.view seat.new) }
    ensures quiet { (R.shape rows.old).alone ≡ true → IsUndisturbed result }
{
    let joining = match look(rows, seat, worker, frames, &first, &second, &third) {
        Ok(joining) => joining,
        Err(why) => {
            give_up_three(rows, seat, first, second, third);
            return why;
        }
    };
    match stage(draw, &joining) {
        Ok(number) => {
            make(rows, seat, first, second, third, joining, worker, number);
            Outcome::Done
        }
        Err(unstaged) => {
            give_up_three(rows, seat, first, second, third);
            Outcome::Unstaged(unstaged)
        }
    }
}

/// Joins the page that stands hot in frame row `right` to its left neighbour, which stands hot in frame row `left`, for `worker`, over rows
/// whose first `frames` are frames. The page in frame row `parent` names both, and loses the pair of the right one; the left one gains its
/// pairs and its high fence, and the right one is free.
///
/// The three rows are latched, and each page is looked at in its held row. Between the latches and the publish the join is drawn from
/// `draw` and its record staged.
///
/// Done appends the join. All other answers append nothing but a few misses, and the rows are given up as they stood; of these Unstaged
/// alone has drawn. Full: the two have more than forty-five pairs together. Stale: no page stands hot in one of the frames, the page in the
/// parent's frame does not name that in the left frame or that in the right one, or the right one does not begin where the left one ends.
/// ClockSpent: the number of one of the three pages has come to `LAST_NUMBER`. Moved and Latched: a row was another seat's, one of the
/// three or one of a child; try again.
pub fn join<R: Rows, D: Draw>(
    rows: &mut R,
    seat: &mut R::Seat,
    worker: u32,
    frames: u32,
    left: u32,
    right: u32,
    parent: u32,
    draw: &mut D,
) -> Outcome
    requires fits { R.fits rows.old seat.old }
    requires sized { Sized (R.shape rows.old) (R.view seat.old) frames }
    requires actor { may (R.shape rows.old).alone (R.view seat.old) worker ≡ true }
    requires sound { IsSound (R.view seat.old).given }
    requires left { left < frames }
    requires right { right < frames }
    requires parent { parent < frames }
    requires held { (R.view seat.old).held ≡ [] }
    requires may { MayChange (R.view seat.old) worker }
    requires draws { DrawsFor (R.view seat.old) worker (D.log_of draw.old) (D.txn_of draw.old) (D.clock_of draw.old) (D.last_of draw.old) }
    ensures fits { R.fits rows.new seat.new × (R.shape rows.new ≡ R.shape rows.old) × ((R.view seat.new).held ≡ []) }
    ensures merged { Merged (R.shape rows.old).alone worker left right parent (R.view seat.old) (D.staged_of draw.old) result (R.view seat.new) (D.clock_of draw.new) (D.staged_of draw.new) }
    ensures drew { Drew result (λ r. D.stages draw.old r draw.new) (draw.new ≡ draw.old) }
    ensures last { D.last_of draw.new ≡ last_after result (D.last_of draw.old) (D.clock_of draw.new).clock }
    ensures kept { (D.log_of draw.new ≡ D.log_of draw.old) × (D.txn_of draw.new ≡ D.txn_of draw.old) × (D.loans_of draw.new ≡ D.loans_of draw.old) }
    ensures cause { Caused (R.view seat.old) result (R.view seat.new) }
    ensures quiet { (R.shape rows.old).alone ≡ true → left ≢ right → left ≢ parent → right ≢ parent → IsUndisturbed result }
{
    let (first, second, third) = match latch_three(rows, seat, worker, left, right, parent) {
        Ok(holds) => holds,
        Err(why) => return why,
    };
    join_held(rows, seat, worker, frames, first, second, third, draw)
}
