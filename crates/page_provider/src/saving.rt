// A page goes to the disk.
ghost use Rattle.std.specs.Prelude.{◌≡◌, ◌≤◌, ◌<◌, ◌^◌, true, false, [], length, slice_get, Some, IfOk, IfErr, Err};
ghost use Rattle.btree_descent.specs.core_state.Needs as core;
ghost use Rattle.btree_descent.specs.core_state.States.{flushed_by_all};
ghost use Rattle.lean_disk.specs.Faults.{HasCause};
ghost use Rattle.lean_disk.specs.Moments.{Framed};
ghost use Rattle.btree_descent.specs.row_words.Openings.{opening};
ghost use Rattle.btree_descent.specs.rows_trait.Views.{state};
ghost use Rattle.page_calls.specs.Calls.{KeepsMoments, KeepsWithin, SavesMoments};
ghost use Rattle.page_calls.specs.Mirrors.{KeepsMirrors, SavesMirrors};
ghost use Rattle.page_calls.specs.declared.slots.Slot.{Slot};
ghost use Rattle.page_provider.specs.Disks.{Disked, ReadsUnlessSaved};
ghost use Rattle.page_provider.specs.Evicts.{HasStayed};
ghost use Rattle.page_provider.specs.Inside.{HasSaved, IsEntered, StandsOn, WritesOn};
ghost use Rattle.page_provider.specs.Mirrored.{KeepsMirrored};
ghost use Rattle.page_provider.specs.Providers.{Keeps};
ghost use Rattle.page_provider.specs.declared.refusal.Refusal.TheVariants as refusal;

use crate::laws::laws;
use crate::looking::page_in;
use crate::pager::Pager;
use crate::refusal::Refusal;
use crate::taking::{give_up, take};
use btree_descent::{BtreeNodeNode as Node, Rows};
use cooling_stage::Cooling;
use lean_disk::{Did, Part};
use page_calls::{Slots, save, settle};
use page_moves::note_saved;

// Syncs the pages' area if the page was saved since the last sync of it.
fn settle_first<P: Part>(dev: &mut P, slots: &mut Slots, page: u32) -> Did
    requires seat { (P.seat dev.old).area ≡ 1 }
    requires page { page < length slots.old }
    ensures stands { result ≡ Did.Done → StandsOn slots.old slots.new (P.story dev.old) (P.story dev.new) }
    ensures early { result ≡ Did.Done → (s : Slot) → slice_get slots.new page ≡ Some s → s.late ≡ false }
    ensures size { length slots.new ≡ length slots.old }
    ensures mirrors { KeepsMirrors slots.old slots.new (P.story dev.old) (P.story dev.new) }
    ensures any_moment { KeepsMoments slots.old (P.story dev.old) (P.story dev.new) }
    ensures within { KeepsWithin (P.story dev.old) (P.story dev.new) }
    ensures frame { Framed 1 (P.story dev.old) (P.story dev.new) }
    ensures seat { P.seat dev.new ≡ P.seat dev.old }
    ensures cause { HasCause (P.faults dev.old) (P.faults dev.new) (result ≡ Did.Failed) }
{
    disk_runs::every_version();
    disk_runs::every_kept();
    disk_runs::every_prefix();
    disk_runs::every_sealed();
    if !slots.of(page).late {
        return Did::Done;
    }
    settle(dev, slots)
}

// Saves a page, of which a sync comes first where it was saved since the last one.
fn write<P: Part>(dev: &mut P, slots: &mut Slots, node: &Node, buffer: &mut [u8]) -> Did
    requires seat { (P.seat dev.old).area ≡ 1 }
    requires page { node.now.number < length slots.old }
    requires number { node.now.number < 2 ^ 32 }
    requires room { length buffer.old ≡ 1024 }
    ensures writes { result ≡ Did.Done → WritesOn slots.old slots.new node.now (P.story dev.old) (P.story dev.new) }
    ensures size { length slots.new ≡ length slots.old }
    ensures mirrors { result ≡ Did.Done → SavesMirrors slots.old slots.new node.now (P.story dev.old) (P.story dev.new) }
    ensures any_moment { SavesMoments slots.old node.now (P.story dev.old) (P.story dev.new) }
    ensures within { KeepsWithin (P.story dev.old) (P.story dev.new) }
    ensures frame { Framed 1 (P.story dev.old) (P.story dev.new) }
    ensures seat { P.seat dev.new ≡ P.seat dev.old }
    ensures cause { HasCause (P.faults dev.old) (P.faults dev.new) (result ≡ Did.Failed) }
{
    let Did::Done = settle_first(dev, slots, node.number() as u32) else {
        return Did::Failed;
    };
    save(dev, slots, node, buffer)
}

impl Pager {
    // Saves a dirty page, whose number is flushed everywhere.
    //
    // DiskFault: the device failed. The page is dirty still.
    pub(crate) fn save<R: Rows, P: Part>(
        &mut self,
        rows: &mut R,
        seat: &mut R::Seat,
        dev: &mut P,
        entry: Cooling,
    ) -> Result<(), Refusal>
        requires fits { R.fits rows.old seat.old }
        requires keeps { Keeps (R.shape rows.old) (R.view seat.old) self.old }
        requires held { (R.view seat.old).held ≡ [] }
        requires area { (P.seat dev.old).area ≡ 1 }
        requires entered { IsEntered (R.view seat.old) self.old entry }
        requires low { ((state (R.view seat.old)).core.page entry.page).gsn ≤ flushed_by_all (opening (R.view seat.old).given) (state (R.view seat.old)).core }
        requires dirty { core.is_dirty (state (R.view seat.old)).core entry.page ≡ true }
        ensures fits { R.fits rows.new seat.new × (R.shape rows.new ≡ R.shape rows.old) }
        ensures ok { IfOk result (λ _. HasSaved (R.shape rows.old) (R.view seat.old) self.old entry (R.view seat.new) self.new) }
        ensures err { IfErr result (λ why. HasStayed (R.shape rows.old) (R.view seat.old) self.old entry.page why (R.view seat.new) self.new) }
        ensures disk { Disked (R.shape rows.old).alone self.old (R.view seat.old) self.new (R.view seat.new) (P.story dev.old) (P.story dev.new) }
        ensures mirrors { KeepsMirrored (R.view seat.old) self.old (R.view seat.new) self.new (P.story dev.old) (P.story dev.new) }
        ensures within { KeepsWithin (P.story dev.old) (P.story dev.new) }
        ensures frame { Framed 1 (P.story dev.old) (P.story dev.new) }
        ensures reads { ReadsUnlessSaved (R.view seat.old) (R.view seat.new) self.new (P.story dev.old) (P.story dev.new) }
        ensures seat { P.seat dev.new ≡ P.seat dev.old }
        ensures cause { HasCause (P.faults dev.old) (P.faults dev.new) (result ≡ Err refusal.DiskFault) }
    {
        laws();
        let frames = self.stage.frames();
        let node = page_in(rows, seat, frames, entry.frame, self.generation)?;
        let hold = take(rows, seat, frames, entry.frame)?;
        let Did::Done = write(dev, &mut self.slots, &node, &mut self.buffer) else {
            self.broken = true;
            give_up(rows, seat, hold);
            return Err(Refusal::DiskFault);
        };
        note_saved(rows, seat, hold, entry.page, node.gsn());
        Ok(())
    }
}
