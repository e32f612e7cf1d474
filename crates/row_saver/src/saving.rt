// The page of a frame goes to the disk.
ghost use Rattle.std.specs.Prelude.{◌≡◌, ◌<◌, ◌^◌, ℕ, List, true, false, [], length, slice_get, Some, IfOk, IsErr, Err, OnOk};
ghost use Rattle.btree_descent.specs.btree_node.Words.{words_of};
ghost use Rattle.btree_descent.specs.core_state.Openings.{Opening};
ghost use Rattle.btree_descent.specs.core_state.States.{in_frame};
ghost use Rattle.btree_descent.specs.core_state.Events.{Event};
ghost use Rattle.btree_descent.specs.rows_trait.Turns.{Ran};
ghost use Rattle.btree_descent.specs.rows_trait.Views.{state};
ghost use Rattle.btree_descent.specs.Descents.{Sized};
ghost use Rattle.btree_descent.specs.Known.{IsSound};
ghost use Rattle.checkpointer.specs.Savers.{KeepsRun, Saves, Settles, Stops};
ghost use Rattle.checkpointer.specs.declared.saver.NotSaved.TheVariants as not_saved;
ghost use Rattle.cooling_stage.specs.declared.stage.Cooling.{Cooling};
ghost use Rattle.lean_bytes.specs.Numbers.{AreWords};
ghost use Rattle.lean_disk.specs.Faults.{HasCause};
ghost use Rattle.lean_disk.specs.Moments.{Framed};
ghost use Rattle.held_rows.specs.Rows.{HoldsOne};
ghost use Rattle.page_calls.specs.Calls.{KeepsMoments, KeepsWithin, SavesMoments};
ghost use Rattle.page_calls.specs.declared.slots.Slot.{Slot};
ghost use Rattle.page_provider.specs.Disks.{told};
ghost use Rattle.page_provider.specs.Inside.{StandsOn, WritesOn};
ghost use Rattle.row_image.specs.Images.{written};
ghost use Rattle.row_opening.specs.Openings.{Opens};
ghost use Rattle.row_saver.specs.Inside.{HasMissed, HasSaved, Looks, MaySaveIn};
ghost use Rattle.row_saver.specs.Savers.{IsReady, IsSpent, KnowsSlots};

use crate::looking::PAGER;
use btree_descent::{BtreeNodeNode as Node, Hold, Rows};
use checkpointer::saver::NotSaved;
use held_rows::{Refusal, give_up_one, latch};
use lean_disk::{Did, Part};
use page_calls::{Slots, save, settle};
use page_moves::note_saved;
use row_image::page::image;

// Each of the numbers is a word.
fn words_fit(words: &[u64; 126])
    ensures { AreWords words.now }
{
    let _words = words.as_slice();
}

// The page that stands in the frame, as this generation writes it.
fn node_in<R: Rows>(
    rows: &mut R,
    seat: &mut R::Seat,
    frames: u32,
    frame: u32,
    generation: u64,
) -> Node
    requires fits { R.fits rows.old seat.old }
    requires alone { (R.shape rows.old).alone ≡ true }
    requires held { (R.view seat.old).held ≡ [] }
    requires sized { Sized (R.shape rows.old) (R.view seat.old) frames }
    requires sound { IsSound (R.view seat.old).given }
    requires frame { frame < frames }
    requires stands { (p : ℕ) × (in_frame ((state (R.view seat.old)).core.place p) frame ≡ true) }
    ensures fits { R.fits rows.new seat.new × (R.shape rows.new ≡ R.shape rows.old) }
    ensures looks { Looks (R.view seat.old) (R.view seat.new) }
    ensures written { (p : ℕ) → in_frame ((state (R.view seat.old)).core.place p) frame ≡ true → result ≡ written (state (R.view seat.old)).core p generation }
    ensures words { AreWords (words_of result) }
{
    row_image::every_stay();
    match image(rows, seat, PAGER, frames, frame, generation) {
        Ok(node) => {
            words_fit(node.words());
            node
        }
        Err(_) => unreachable!(),
    }
}

// The row of the frame is latched.
fn hold_in<R: Rows>(
    rows: &mut R,
    seat: &mut R::Seat,
    frames: u32,
    frame: u32,
) -> Result<Hold, NotSaved>
    requires fits { R.fits rows.old seat.old }
    requires alone { (R.shape rows.old).alone ≡ true }
    requires held { (R.view seat.old).held ≡ [] }
    requires sized { Sized (R.shape rows.old) (R.view seat.old) frames }
    requires frame { frame < frames }
    ensures fits { R.fits rows.new seat.new × (R.shape rows.new ≡ R.shape rows.old) }
    ensures ok { IfOk result (λ hold. (hold.row ≡ frame) × HoldsOne (R.shape rows.old) (R.view seat.new) frame) }
    ensures ran { OnOk result (Ran true (R.view seat.old) [] (R.view seat.new)) }
    ensures missed { IsErr result → HasMissed (R.view seat.old) (R.view seat.new) }
    ensures spent { IsErr result → IsSpent frames (R.view seat.new) }
    ensures device { result ≡ Err not_saved.DiskFault → ⊥ }
{
    match latch(rows, seat, PAGER, frame) {
        Ok(hold) => Ok(hold),
        Err(Refusal::RowSpent { .. }) => Err(NotSaved::RowSpent),
        Err(Refusal::Moved(_)) | Err(Refusal::Latched(_)) => unreachable!(),
    }
}

// Syncs the pages' area if the page was saved since the last sync of it.
fn settle_first<P: Part>(dev: &mut P, slots: &mut Slots, page: u32) -> Did
    requires seat { (P.seat dev.old).area ≡ 1 }
    requires page { page < length slots.old }
    ensures stands { result ≡ Did.Done → StandsOn slots.old slots.new (P.story dev.old) (P.story dev.new) }
    ensures early { result ≡ Did.Done → (s : Slot) → slice_get slots.new page ≡ Some s → s.late ≡ false }
    ensures size { length slots.new ≡ length slots.old }
    ensures any_moment { KeepsMoments slots.old (P.story dev.old) (P.story dev.new) }
    ensures within { KeepsWithin (P.story dev.old) (P.story dev.new) }
    ensures frame { Framed 1 (P.story dev.old) (P.story dev.new) }
    ensures seat { P.seat dev.new ≡ P.seat dev.old }
    ensures cause { HasCause (P.faults dev.old) (P.faults dev.new) (result ≡ Did.Failed) }
{
    disk_runs::every_version();
    disk_runs::every_kept();
    disk_runs::every_prefix();
    disk_runs::every_sealed();
    if !slots.of(page).late {
        return Did::Done;
    }
    settle(dev, slots)
}

// Writes the page to the slot that is not its firm one, behind a sync where it was written there since the last one.
fn write<P: Part>(dev: &mut P, slots: &mut Slots, node: &Node, buffer: &mut [u8]) -> Did
    requires seat { (P.seat dev.old).area ≡ 1 }
    requires page { node.now.number < length slots.old }
    requires number { node.now.number < 2 ^ 32 }
    requires room { length buffer.old ≡ 1024 }
    ensures writes { result ≡ Did.Done → WritesOn slots.old slots.new node.now (P.story dev.old) (P.story dev.new) }
    ensures size { length slots.new ≡ length slots.old }
    ensures any_moment { SavesMoments slots.old node.now (P.story dev.old) (P.story dev.new) }
    ensures within { KeepsWithin (P.story dev.old) (P.story dev.new) }
    ensures frame { Framed 1 (P.story dev.old) (P.story dev.new) }
    ensures seat { P.seat dev.new ≡ P.seat dev.old }
    ensures cause { HasCause (P.faults dev.old) (P.faults dev.new) (result ≡ Did.Failed) }
{
    let Did::Done = settle_first(dev, slots, node.number() as u32) else {
        return Did::Failed;
    };
    save(dev, slots, node, buffer)
}

// Saves the dirty page of a frame, whose number is flushed everywhere.
pub(crate) fn save_in<R: Rows, P: Part>(
    rows: &mut R,
    seat: &mut R::Seat,
    dev: &mut P,
    slots: &mut Slots,
    buffer: &mut [u8],
    generation: u64,
    frames: u32,
    frame: u32,
) -> Result<(), NotSaved>
    requires fits { R.fits rows.old seat.old }
    requires ready { (queue : List Cooling) × IsReady (R.shape rows.old) (R.view seat.old) queue frames slots.old buffer.old }
    requires area { (P.seat dev.old).area ≡ 1 }
    requires frame { frame < frames }
    requires may { (p : ℕ) × MaySaveIn (R.view seat.old) frame p }
    ensures fits { R.fits rows.new seat.new × (R.shape rows.new ≡ R.shape rows.old) }
    ensures ok { OnOk result ((p : ℕ) × MaySaveIn (R.view seat.old) frame p × HasSaved (R.view seat.old) p (R.view seat.new)) }
    ensures err { IsErr result → HasMissed (R.view seat.old) (R.view seat.new) }
    ensures spent { result ≡ Err not_saved.RowSpent → (dev.new ≡ dev.old) × (slots.new ≡ slots.old) × IsSpent frames (R.view seat.new) }
    ensures stopped { result ≡ Err not_saved.RowSpent → (o : Opening) → Stops o (told (R.view seat.old)) (told (R.view seat.new)) (KnowsSlots slots.old generation) (KnowsSlots slots.new generation) (P.story dev.old) (P.story dev.new) }
    ensures size { length slots.new ≡ length slots.old }
    ensures saved { OnOk result ((o : Opening) → Opens o (R.view seat.old).given → Saves o (told (R.view seat.old)) (told (R.view seat.new)) frame (KnowsSlots slots.old generation) (KnowsSlots slots.new generation) (P.story dev.old) (P.story dev.new)) }
    ensures keeps { (o : Opening) → Opens o (R.view seat.old).given → KeepsRun o (told (R.view seat.old)) (KnowsSlots slots.old generation) (P.story dev.old) (P.story dev.new) }
    ensures frame { Framed 1 (P.story dev.old) (P.story dev.new) }
    ensures seat { P.seat dev.new ≡ P.seat dev.old }

    ensures cause_disk_fault { HasCause (P.faults dev.old) (P.faults dev.new) (result ≡ Err not_saved.DiskFault) }
{
    disk_runs::every_page();
    disk_runs::every_kept();
    disk_runs::every_prefix();
    disk_runs::every_sealed();
    disk_runs::every_version();
    disk_runs::every_quiet();
    row_opening::every_reached();
    row_opening::every_need();
    let node = node_in(rows, seat, frames, frame, generation);
    let hold = match hold_in(rows, seat, frames, frame) {
        Ok(hold) => hold,
        Err(why) => return Err(why),
    };
    let page = node.number() as u32;
    let Did::Done = write(dev, slots, &node, buffer) else {
        give_up_one(rows, seat, hold);
        return Err(NotSaved::DiskFault);
    };
    note_saved(rows, seat, hold, page, node.gsn());
    Ok(())
}

// Syncs the pages' area: what was saved of each page is firm then.
pub(crate) fn settle_all<P: Part>(dev: &mut P, slots: &mut Slots) -> Did
    requires seat { (P.seat dev.old).area ≡ 1 }
    ensures settled { result ≡ Did.Done → (o : Opening) (es : List Event) (generation : ℕ) → Settles o es es (KnowsSlots slots.old generation) (KnowsSlots slots.new generation) (P.story dev.old) (P.story dev.new) }
    ensures keeps { (o : Opening) (es : List Event) (generation : ℕ) → KeepsRun o es (KnowsSlots slots.old generation) (P.story dev.old) (P.story dev.new) }
    ensures size { length slots.new ≡ length slots.old }
    ensures frame { Framed 1 (P.story dev.old) (P.story dev.new) }
    ensures seat { P.seat dev.new ≡ P.seat dev.old }
    ensures cause { HasCause (P.faults dev.old) (P.faults dev.new) (result ≡ Did.Failed) }
{
    settle(dev, slots)
}
