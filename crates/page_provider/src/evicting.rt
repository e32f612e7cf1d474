//! A page that cools leaves its frame: it is saved first if it is dirty.
ghost use Rattle.std.specs.Prelude.{◌≡◌, ◌≤◌, true, false, [], IfOk, IfErr, Err};
ghost use Rattle.btree_descent.specs.core_state.Needs as core;
ghost use Rattle.btree_descent.specs.core_state.States.{flushed_by_all};
ghost use Rattle.lean_disk.specs.Faults.{HasCause};
ghost use Rattle.lean_disk.specs.Moments.{Framed};
ghost use Rattle.page_calls.specs.Calls.{KeepsWithin};
ghost use Rattle.btree_descent.specs.row_words.Openings.{opening};
ghost use Rattle.btree_descent.specs.rows_trait.Views.{state};
ghost use Rattle.page_provider.specs.Disks.{Disked, ReadsUnlessSaved};
ghost use Rattle.page_provider.specs.Evicts.{CanLeave, HasLeft, HasStayed};
ghost use Rattle.page_provider.specs.Inside.{HasCleared, HasGone, IsEntered};
ghost use Rattle.page_provider.specs.Mirrored.{KeepsMirrored};
ghost use Rattle.page_provider.specs.Providers.{Keeps};
ghost use Rattle.page_provider.specs.declared.refusal.Refusal.TheVariants as refusal;

use crate::laws::laws;
use crate::looking::{is_dirty, page_in};
use crate::pager::Pager;
use crate::refusal::Refusal;
use crate::taking::take;
use btree_descent::Rows;
use cooling_stage::Cooling;
use lean_disk::Part;

impl Pager {
    // A clean page leaves its frame, and what it was is kept.
    fn leave<R: Rows>(
        &mut self,
        rows: &mut R,
        seat: &mut R::Seat,
        entry: Cooling,
    ) -> Result<(), Refusal>
        requires fits { R.fits rows.old seat.old }
        requires keeps { Keeps (R.shape rows.old) (R.view seat.old) self.old }
        requires held { (R.view seat.old).held ≡ [] }
        requires entered { IsEntered (R.view seat.old) self.old entry }
        requires clean { core.is_dirty (state (R.view seat.old)).core entry.page ≡ false }
        ensures fits { R.fits rows.new seat.new × (R.shape rows.new ≡ R.shape rows.old) }
        ensures ok { IfOk result (λ _. HasGone (R.shape rows.old) (R.view seat.old) self.old entry (R.view seat.new) self.new) }
        ensures err { IfErr result (λ why. HasStayed (R.shape rows.old) (R.view seat.old) self.old entry.page why (R.view seat.new) self.new) }
        ensures same { IfErr result (λ _. self.new ≡ self.old) }
        ensures device { result ≡ Err refusal.DiskFault → ⊥ }
    {
        laws();
        let frames = self.stage.frames();
        // Nobody changes a page that cools, so it leaves as it is seen here.
        let node = page_in(rows, seat, frames, entry.frame, self.generation)?;
        let hold = take(rows, seat, frames, entry.frame)?;
        page_moves::evict(rows, seat, hold, entry.page);
        self.stage.take(entry.page);
        self.kept.leave(entry.page, &node);
        self.empty.push_reserved(entry.frame);
        Ok(())
    }

    // A dirty page, whose number is flushed everywhere, leaves its frame: it is saved first.
    fn leave_dirty<R: Rows, P: Part>(
        &mut self,
        rows: &mut R,
        seat: &mut R::Seat,
        dev: &mut P,
        entry: Cooling,
    ) -> Result<(), Refusal>
        requires fits { R.fits rows.old seat.old }
        requires keeps { Keeps (R.shape rows.old) (R.view seat.old) self.old }
        requires held { (R.view seat.old).held ≡ [] }
        requires area { (P.seat dev.old).area ≡ 1 }
        requires entered { IsEntered (R.view seat.old) self.old entry }
        requires low { ((state (R.view seat.old)).core.page entry.page).gsn ≤ flushed_by_all (opening (R.view seat.old).given) (state (R.view seat.old)).core }
        requires dirty { core.is_dirty (state (R.view seat.old)).core entry.page ≡ true }
        requires well { self.old.broken ≡ false }
        ensures fits { R.fits rows.new seat.new × (R.shape rows.new ≡ R.shape rows.old) }
        ensures ok { IfOk result (λ _. HasCleared (R.shape rows.old) (R.view seat.old) self.old entry (R.view seat.new) self.new) }
        ensures err { IfErr result (λ why. HasStayed (R.shape rows.old) (R.view seat.old) self.old entry.page why (R.view seat.new) self.new) }
        ensures disk { Disked (R.shape rows.old).alone self.old (R.view seat.old) self.new (R.view seat.new) (P.story dev.old) (P.story dev.new) }
        ensures mirrors { KeepsMirrored (R.view seat.old) self.old (R.view seat.new) self.new (P.story dev.old) (P.story dev.new) }
        ensures within { KeepsWithin (P.story dev.old) (P.story dev.new) }
        ensures frame { Framed 1 (P.story dev.old) (P.story dev.new) }
        ensures reads { ReadsUnlessSaved (R.view seat.old) (R.view seat.new) self.new (P.story dev.old) (P.story dev.new) }
        ensures seat { P.seat dev.new ≡ P.seat dev.old }
        ensures cause { HasCause (P.faults dev.old) (P.faults dev.new) (result ≡ Err refusal.DiskFault) }
    {
        laws();
        self.save(rows, seat, dev, entry)?;
        self.leave(rows, seat, entry)
    }

    /// Evicts a page that cools and waits for nobody, and whose number is flushed everywhere: it is saved if it is
    /// dirty, and leaves its frame.
    ///
    /// DiskFault: the device failed; from then on the pager is Broken. Moved and Latched: the frame's row was another
    /// seat's; never where nobody else steps. RowSpent: the row's version has come to the last one. The page cools on
    /// then, and may have been saved.
    pub fn evict<R: Rows, P: Part>(
        &mut self,
        rows: &mut R,
        seat: &mut R::Seat,
        dev: &mut P,
        page: u32,
    ) -> Result<(), Refusal>
        requires fits { R.fits rows.old seat.old }
        requires keeps { Keeps (R.shape rows.old) (R.view seat.old) self.old }
        requires held { (R.view seat.old).held ≡ [] }
        requires area { (P.seat dev.old).area ≡ 1 }
        requires leaves { CanLeave (R.view seat.old) page }
        ensures fits { R.fits rows.new seat.new × (R.shape rows.new ≡ R.shape rows.old) }
        ensures ok { IfOk result (λ _. HasLeft (R.shape rows.old) (R.view seat.old) self.old page (R.view seat.new) self.new) }
        ensures err { IfErr result (λ why. HasStayed (R.shape rows.old) (R.view seat.old) self.old page why (R.view seat.new) self.new) }
        ensures disk { Disked (R.shape rows.old).alone self.old (R.view seat.old) self.new (R.view seat.new) (P.story dev.old) (P.story dev.new) }
        ensures mirrors { KeepsMirrored (R.view seat.old) self.old (R.view seat.new) self.new (P.story dev.old) (P.story dev.new) }
        ensures within { KeepsWithin (P.story dev.old) (P.story dev.new) }
        ensures frame { Framed 1 (P.story dev.old) (P.story dev.new) }
        ensures reads { ReadsUnlessSaved (R.view seat.old) (R.view seat.new) self.new (P.story dev.old) (P.story dev.new) }
        ensures seat { P.seat dev.new ≡ P.seat dev.old }
        ensures cause { HasCause (P.faults dev.old) (P.faults dev.new) (result ≡ Err refusal.DiskFault) }
        ensures earlier { self.old.broken ≡ true → result ≡ Err refusal.Broken }
    {
        laws();
        if self.broken {
            return Err(Refusal::Broken);
        }
        let Some(entry) = self.stage.find(page) else {
            unreachable!()
        };
        let dirty = is_dirty(rows, seat, self.stage.frames(), entry.frame)?;
        if dirty {
            return self.leave_dirty(rows, seat, dev, entry);
        }
        self.leave(rows, seat, entry)
    }
}
