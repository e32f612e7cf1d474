//! Pages are brought into frames, and given out.
ghost use Rattle.std.specs.Prelude.{◌≡◌, ◌<◌, ◌≤◌, true, false, [], Ok, Err, None, Some, IfOk, IfErr};
ghost use Rattle.btree_descent.specs.core_state.Needs.{has_hot_parent};
ghost use Rattle.btree_descent.specs.core_state.States.{is_cold};
ghost use Rattle.cooling_stage.specs.Queue.{found};
ghost use Rattle.lean_disk.specs.Faults.{HasCause};
ghost use Rattle.lean_disk.specs.Moments.{Framed};
ghost use Rattle.page_calls.specs.Calls.{KeepsWithin};
ghost use Rattle.btree_descent.specs.row_words.Openings.{opening};
ghost use Rattle.btree_descent.specs.rows_trait.Views.{state};
ghost use Rattle.free_pages.specs.Pages.{IsLeast, count, is_in};
ghost use Rattle.page_provider.specs.Comes.{CanCome, Fills, HasContents, IsUnseen, PlaceCause};
ghost use Rattle.page_provider.specs.Disks.{Disked, ReadsUnlessSaved};
ghost use Rattle.page_provider.specs.Ends.{HasRefused};
ghost use Rattle.page_provider.specs.Faults.{ColdCause, FaultCause, Faulted, HasPlaced, IsAstray, IsDescent, IsWanted, LeadsTo, NoPageCause};
ghost use Rattle.page_provider.specs.Finds.{Halts};
ghost use Rattle.page_provider.specs.Gives.{Gives};
ghost use Rattle.page_provider.specs.Mirrored.{KeepsMirrored};
ghost use Rattle.page_provider.specs.Providers.{Keeps};
ghost use Rattle.page_provider.specs.Refusals.{IsOfRow};
ghost use Rattle.page_provider.specs.declared.refusal.Refusal.TheVariants as refusal;

use crate::fetching::fetch;
use crate::finding::{named, standing};
use crate::laws::laws;
use crate::pager::Pager;
use crate::refusal::Refusal;
use btree_descent::{BtreeNodeNode as Node, Path, Rows};
use cooling_stage::Cooling;
use lean_disk::Part;

impl Pager {
    // A page that cools stays in its frame.
    fn rescue<R: Rows>(
        &mut self,
        rows: &mut R,
        seat: &mut R::Seat,
        entry: Cooling,
        path: &Path,
    ) -> Result<Option<u32>, Refusal>
        requires fits { R.fits rows.old seat.old }
        requires keeps { Keeps (R.shape rows.old) (R.view seat.old) self.old }
        requires held { (R.view seat.old).held ≡ [] }
        requires there { found entry.page self.old.queue ≡ Some entry }
        ensures fits { R.fits rows.new seat.new × (R.shape rows.new ≡ R.shape rows.old) }
        ensures ok { IfOk result (λ come. Faulted 5 (R.shape rows.old) path.now (R.view seat.old) self.old entry.page come (R.view seat.new) self.new) }
        ensures err { IfErr result (λ why. HasRefused 5 (R.shape rows.old) path.now (R.view seat.old) self.old why (R.view seat.new) self.new) }
        ensures kind { IfErr result IsOfRow }
        ensures unseen { IsUnseen (R.shape rows.old).alone (R.view seat.old) self.old (R.view seat.new) self.new }
        ensures astray { (R.shape rows.old).alone ≡ true → IsAstray (R.view seat.old) entry.page → result ≡ Ok None }
    {
        laws();
        if self.free.contains(entry.page) {
            self.rescue_free(rows, seat, entry)?;
            return Ok(Some(entry.frame));
        }
        let first = path.last().unwrap_or(0);
        if self.rescue_node(rows, seat, entry, first)? {
            return Ok(Some(entry.frame));
        }
        Ok(None)
    }

    // A cold page that was read comes into an empty frame.
    fn fill<R: Rows>(
        &mut self,
        rows: &mut R,
        seat: &mut R::Seat,
        page: u32,
        frame: u32,
        node: &Node,
        path: &Path,
    ) -> Result<Option<u32>, Refusal>
        requires fits { R.fits rows.old seat.old }
        requires keeps { Keeps (R.shape rows.old) (R.view seat.old) self.old }
        requires held { (R.view seat.old).held ≡ [] }
        requires comes { CanCome (R.view seat.old) self.old page frame node.now }
        ensures fits { R.fits rows.new seat.new × (R.shape rows.new ≡ R.shape rows.old) }
        ensures ok { IfOk result (λ come. Fills (R.shape rows.old) path.now (R.view seat.old) self.old page come (R.view seat.new) self.new) }
        ensures err { IfErr result (λ why. Halts 2 (R.shape rows.old) (R.view seat.old) why (R.view seat.new)) }
        ensures same { IfErr result (λ _. self.new ≡ self.old) }
        ensures unseen { IsUnseen (R.shape rows.old).alone (R.view seat.old) self.old (R.view seat.new) self.new }
    {
        laws();
        if !node.is_live() {
            self.fill_free_page(rows, seat, page, frame, node)?;
            return Ok(Some(frame));
        }
        let first = path.last().unwrap_or(0);
        if self.fill_node(rows, seat, page, frame, node, first)? {
            return Ok(Some(frame));
        }
        Ok(None)
    }

    // A cold page that was read comes into a frame that is made empty for it.
    fn place<R: Rows, P: Part>(
        &mut self,
        rows: &mut R,
        seat: &mut R::Seat,
        dev: &mut P,
        page: u32,
        node: &Node,
        path: &Path,
    ) -> Result<Option<u32>, Refusal>
        requires fits { R.fits rows.old seat.old }
        requires keeps { Keeps (R.shape rows.old) (R.view seat.old) self.old }
        requires held { (R.view seat.old).held ≡ [] }
        requires area { (P.seat dev.old).area ≡ 1 }
        requires well { self.old.broken ≡ false }
        requires contents { HasContents (R.view seat.old) page node.now }
        requires parent { (R.shape rows.old).alone ≡ true → has_hot_parent (opening (R.view seat.old).given) (state (R.view seat.old)).core page ≡ true }
        requires descent { IsDescent (R.shape rows.old) (R.view seat.old) path.now }
        requires leads { LeadsTo (R.shape rows.old) (R.view seat.old) path.now page }
        ensures fits { R.fits rows.new seat.new × (R.shape rows.new ≡ R.shape rows.old) }
        ensures ok { IfOk result (λ come. Faulted 4 (R.shape rows.old) path.now (R.view seat.old) self.old page come (R.view seat.new) self.new) }
        ensures err { IfErr result (λ why. HasRefused 4 (R.shape rows.old) path.now (R.view seat.old) self.old why (R.view seat.new) self.new) }
        ensures cause { IfErr result (PlaceCause (R.shape rows.old) path.now (R.view seat.old) page (R.view seat.new) self.new) }
        ensures disk { Disked (R.shape rows.old).alone self.old (R.view seat.old) self.new (R.view seat.new) (P.story dev.old) (P.story dev.new) }
        ensures mirrors { KeepsMirrored (R.view seat.old) self.old (R.view seat.new) self.new (P.story dev.old) (P.story dev.new) }
        ensures within { KeepsWithin (P.story dev.old) (P.story dev.new) }
        ensures frame { Framed 1 (P.story dev.old) (P.story dev.new) }
        ensures reads { ReadsUnlessSaved (R.view seat.old) (R.view seat.new) self.new (P.story dev.old) (P.story dev.new) }
        ensures seat { P.seat dev.new ≡ P.seat dev.old }
        ensures cause_disk_fault { HasCause (P.faults dev.old) (P.faults dev.new) (result ≡ Err refusal.DiskFault) }
    {
        laws();
        let frame = self.room(rows, seat, dev, path)?;
        self.fill(rows, seat, page, frame, node, path)
    }

    // A cold page comes into a frame that is made empty for it.
    fn bring<R: Rows, P: Part>(
        &mut self,
        rows: &mut R,
        seat: &mut R::Seat,
        dev: &mut P,
        page: u32,
        path: &Path,
    ) -> Result<Option<u32>, Refusal>
        requires fits { R.fits rows.old seat.old }
        requires keeps { Keeps (R.shape rows.old) (R.view seat.old) self.old }
        requires held { (R.view seat.old).held ≡ [] }
        requires area { (P.seat dev.old).area ≡ 1 }
        requires well { self.old.broken ≡ false }
        requires cold { is_cold ((state (R.view seat.old)).core.place page) ≡ true }
        requires parent { (R.shape rows.old).alone ≡ true → has_hot_parent (opening (R.view seat.old).given) (state (R.view seat.old)).core page ≡ true }
        requires below { page < (opening (R.view seat.old).given).format.pages }
        requires descent { IsDescent (R.shape rows.old) (R.view seat.old) path.now }
        requires leads { LeadsTo (R.shape rows.old) (R.view seat.old) path.now page }
        requires gives { (R.view seat.old).given.faithful ≡ true → is_cold ((state (R.view seat.old)).core.place page) ≡ true → Gives (R.view seat.old) self.old page (P.story dev.old) }
        ensures fits { R.fits rows.new seat.new × (R.shape rows.new ≡ R.shape rows.old) }
        ensures ok { IfOk result (λ come. Faulted 5 (R.shape rows.old) path.now (R.view seat.old) self.old page come (R.view seat.new) self.new) }
        ensures err { IfErr result (λ why. HasRefused 5 (R.shape rows.old) path.now (R.view seat.old) self.old why (R.view seat.new) self.new) }
        ensures cause { IfErr result (FaultCause (R.shape rows.old) path.now (R.view seat.old) self.old page (P.story dev.old) (R.view seat.new) self.new) }
        ensures cold { IfErr result (ColdCause (R.view seat.old) page) }
        ensures disk { Disked (R.shape rows.old).alone self.old (R.view seat.old) self.new (R.view seat.new) (P.story dev.old) (P.story dev.new) }
        ensures mirrors { KeepsMirrored (R.view seat.old) self.old (R.view seat.new) self.new (P.story dev.old) (P.story dev.new) }
        ensures within { KeepsWithin (P.story dev.old) (P.story dev.new) }
        ensures frame { Framed 1 (P.story dev.old) (P.story dev.new) }
        ensures reads { ReadsUnlessSaved (R.view seat.old) (R.view seat.new) self.new (P.story dev.old) (P.story dev.new) }
        ensures seat { P.seat dev.new ≡ P.seat dev.old }
        ensures cause_disk_fault { HasCause (P.faults dev.old) (P.faults dev.new) (result ≡ Err refusal.DiskFault) }
    {
        laws();
        let _pages = self.slots.len();
        let found = self.read(dev, page)?;
        let node = fetch(rows, seat, page, found);
        self.place(rows, seat, dev, page, &node, path)
    }

    // A page that is neither in the queue nor free: it comes where a node in a frame names it, or it stands hot in a frame, or in none.
    fn look_for<R: Rows, P: Part>(
        &mut self,
        rows: &mut R,
        seat: &mut R::Seat,
        dev: &mut P,
        page: u32,
        path: &Path,
    ) -> Result<Option<u32>, Refusal>
        requires fits { R.fits rows.old seat.old }
        requires keeps { Keeps (R.shape rows.old) (R.view seat.old) self.old }
        requires held { (R.view seat.old).held ≡ [] }
        requires area { (P.seat dev.old).area ≡ 1 }
        requires well { self.old.broken ≡ false }
        requires absent { found page self.old.queue ≡ None }
        requires used { is_in self.old.free page ≡ false }
        requires below { page < (opening (R.view seat.old).given).format.pages }
        requires descent { IsDescent (R.shape rows.old) (R.view seat.old) path.now }
        requires leads { LeadsTo (R.shape rows.old) (R.view seat.old) path.now page }
        requires gives { (R.view seat.old).given.faithful ≡ true → is_cold ((state (R.view seat.old)).core.place page) ≡ true → Gives (R.view seat.old) self.old page (P.story dev.old) }
        ensures fits { R.fits rows.new seat.new × (R.shape rows.new ≡ R.shape rows.old) }
        ensures ok { IfOk result (λ come. Faulted 5 (R.shape rows.old) path.now (R.view seat.old) self.old page come (R.view seat.new) self.new) }
        ensures err { IfErr result (λ why. HasRefused 5 (R.shape rows.old) path.now (R.view seat.old) self.old why (R.view seat.new) self.new) }
        ensures cause { IfErr result (FaultCause (R.shape rows.old) path.now (R.view seat.old) self.old page (P.story dev.old) (R.view seat.new) self.new) }
        ensures cold { IfErr result (ColdCause (R.view seat.old) page) }
        ensures disk { Disked (R.shape rows.old).alone self.old (R.view seat.old) self.new (R.view seat.new) (P.story dev.old) (P.story dev.new) }
        ensures mirrors { KeepsMirrored (R.view seat.old) self.old (R.view seat.new) self.new (P.story dev.old) (P.story dev.new) }
        ensures within { KeepsWithin (P.story dev.old) (P.story dev.new) }
        ensures frame { Framed 1 (P.story dev.old) (P.story dev.new) }
        ensures reads { ReadsUnlessSaved (R.view seat.old) (R.view seat.new) self.new (P.story dev.old) (P.story dev.new) }
        ensures seat { P.seat dev.new ≡ P.seat dev.old }
        ensures cause_disk_fault { HasCause (P.faults dev.old) (P.faults dev.new) (result ≡ Err refusal.DiskFault) }
        ensures astray { (R.shape rows.old).alone ≡ true → IsAstray (R.view seat.old) page → result ≡ Ok None }
    {
        laws();
        let frames = self.stage.frames();
        let first = path.last().unwrap_or(0);
        let Some(_) = named(rows, seat, frames, first, u64::from(page))? else {
            return standing(rows, seat, frames, page);
        };
        self.bring(rows, seat, dev, page, path)
    }

    /// The frame in which a page stands hot. One that cools stays in its frame; a cold one is read and comes into a frame that is empty,
    /// or is made so: pages cool until the queue has a tenth of the frames, or a turn of the hand finds none to cool, and the first of
    /// the queue leaves that can. `path` has the frames of the descent that met the page; their pages stay.
    ///
    /// None: the page is in no frame, and no node in a frame names it: the descent begins again. PoolFull: the page is cold, no page
    /// can leave, and none can be cooled. Damaged: the slot of the page that counts holds no valid page. Altered: it holds one that is
    /// not as it was kept. Behind both the pager is Broken, as behind a DiskFault. Moved and Latched: a row was another seat's; never
    /// where nobody else steps. RowSpent: the version of a row, or the global epoch, has come to the last one. Broken: an earlier call
    /// met a damaged or altered page or a fault of the device.
    pub fn fault<R: Rows, P: Part>(
        &mut self,
        rows: &mut R,
        seat: &mut R::Seat,
        dev: &mut P,
        page: u32,
        path: &Path,
    ) -> Result<Option<u32>, Refusal>
        requires fits { R.fits rows.old seat.old }
        requires keeps { Keeps (R.shape rows.old) (R.view seat.old) self.old }
        requires held { (R.view seat.old).held ≡ [] }
        requires area { (P.seat dev.old).area ≡ 1 }
        requires below { page < (opening (R.view seat.old).given).format.pages }
        requires descent { IsDescent (R.shape rows.old) (R.view seat.old) path.now }
        requires leads { LeadsTo (R.shape rows.old) (R.view seat.old) path.now page }
        requires gives { (R.view seat.old).given.faithful ≡ true → is_cold ((state (R.view seat.old)).core.place page) ≡ true → Gives (R.view seat.old) self.old page (P.story dev.old) }
        ensures fits { R.fits rows.new seat.new × (R.shape rows.new ≡ R.shape rows.old) }
        ensures ok { IfOk result (λ come. Faulted 5 (R.shape rows.old) path.now (R.view seat.old) self.old page come (R.view seat.new) self.new) }
        ensures err { IfErr result (λ why. HasRefused 5 (R.shape rows.old) path.now (R.view seat.old) self.old why (R.view seat.new) self.new) }
        ensures cause { IfErr result (FaultCause (R.shape rows.old) path.now (R.view seat.old) self.old page (P.story dev.old) (R.view seat.new) self.new) }
        ensures cold { IfErr result (ColdCause (R.view seat.old) page) }
        ensures disk { Disked (R.shape rows.old).alone self.old (R.view seat.old) self.new (R.view seat.new) (P.story dev.old) (P.story dev.new) }
        ensures mirrors { KeepsMirrored (R.view seat.old) self.old (R.view seat.new) self.new (P.story dev.old) (P.story dev.new) }
        ensures within { KeepsWithin (P.story dev.old) (P.story dev.new) }
        ensures frame { Framed 1 (P.story dev.old) (P.story dev.new) }
        ensures reads { ReadsUnlessSaved (R.view seat.old) (R.view seat.new) self.new (P.story dev.old) (P.story dev.new) }
        ensures seat { P.seat dev.new ≡ P.seat dev.old }
        ensures cause_disk_fault { HasCause (P.faults dev.old) (P.faults dev.new) (result ≡ Err refusal.DiskFault) }
        ensures earlier { self.old.broken ≡ true → result ≡ Err refusal.Broken }
        // Where nobody else steps None comes exactly where the page is neither hot nor free and no hot page names it.
        ensures astray { (R.shape rows.old).alone ≡ true → self.old.broken ≡ false → IsAstray (R.view seat.old) page → result ≡ Ok None }
    {
        laws();
        if self.broken {
            return Err(Refusal::Broken);
        }
        if let Some(entry) = self.stage.find(page) {
            return self.rescue(rows, seat, entry, path);
        }
        if self.free.contains(page) {
            return self.bring(rows, seat, dev, page, path);
        }
        self.look_for(rows, seat, dev, page, path)
    }

    /// The frame of a page that is hot or free, or whose hot parent the path leads to, where nobody else steps; it is brought into one as
    /// by `fault`, with its refusals. So a page that is free, and is to be a node of the tree, gets its frame.
    pub fn frame_for<R: Rows, P: Part>(
        &mut self,
        rows: &mut R,
        seat: &mut R::Seat,
        dev: &mut P,
        page: u32,
        path: &Path,
    ) -> Result<u32, Refusal>
        requires fits { R.fits rows.old seat.old }
        requires keeps { Keeps (R.shape rows.old) (R.view seat.old) self.old }
        requires held { (R.view seat.old).held ≡ [] }
        requires area { (P.seat dev.old).area ≡ 1 }
        requires wanted { IsWanted (R.shape rows.old) (R.view seat.old) page }
        requires descent { IsDescent (R.shape rows.old) (R.view seat.old) path.now }
        requires leads { LeadsTo (R.shape rows.old) (R.view seat.old) path.now page }
        requires gives { (R.view seat.old).given.faithful ≡ true → is_cold ((state (R.view seat.old)).core.place page) ≡ true → Gives (R.view seat.old) self.old page (P.story dev.old) }
        ensures fits { R.fits rows.new seat.new × (R.shape rows.new ≡ R.shape rows.old) }
        ensures ok { IfOk result (λ frame. HasPlaced 5 (R.shape rows.old) path.now (R.view seat.old) self.old page frame (R.view seat.new) self.new) }
        ensures err { IfErr result (λ why. HasRefused 5 (R.shape rows.old) path.now (R.view seat.old) self.old why (R.view seat.new) self.new) }
        ensures cause { IfErr result (FaultCause (R.shape rows.old) path.now (R.view seat.old) self.old page (P.story dev.old) (R.view seat.new) self.new) }
        ensures cold { IfErr result (ColdCause (R.view seat.old) page) }
        ensures disk { Disked (R.shape rows.old).alone self.old (R.view seat.old) self.new (R.view seat.new) (P.story dev.old) (P.story dev.new) }
        ensures mirrors { KeepsMirrored (R.view seat.old) self.old (R.view seat.new) self.new (P.story dev.old) (P.story dev.new) }
        ensures within { KeepsWithin (P.story dev.old) (P.story dev.new) }
        ensures frame { Framed 1 (P.story dev.old) (P.story dev.new) }
        ensures reads { ReadsUnlessSaved (R.view seat.old) (R.view seat.new) self.new (P.story dev.old) (P.story dev.new) }
        ensures seat { P.seat dev.new ≡ P.seat dev.old }
        ensures cause_disk_fault { HasCause (P.faults dev.old) (P.faults dev.new) (result ≡ Err refusal.DiskFault) }
        ensures earlier { self.old.broken ≡ true → result ≡ Err refusal.Broken }
    {
        let Some(frame) = self.fault(rows, seat, dev, page, path)? else {
            unreachable!()
        };
        Ok(frame)
    }

    /// The least page that is free and not hot, for a change that takes so many. It stays among the free pages until `frame_for` has
    /// brought it into a frame.
    ///
    /// NoPages: fewer pages are free and not hot. Broken: an earlier call met a damaged or altered page or a fault of the device.
    pub fn page_for(&self, wanted: u32) -> Result<u32, Refusal>
        requires some { 0 < wanted }
        ensures ok { IfOk result (IsLeast self.now.free) }
        ensures earlier { self.now.broken ≡ true → result ≡ Err refusal.Broken }
        ensures few { self.now.broken ≡ false → count self.now.free < wanted → result ≡ Err refusal.NoPages }
        ensures cause { IfErr result (NoPageCause self.now wanted) }
    {
        if self.broken {
            return Err(Refusal::Broken);
        }
        if self.free.len() < wanted {
            return Err(Refusal::NoPages);
        }
        let Some(page) = self.free.least() else {
            return Err(Refusal::NoPages);
        };
        Ok(page)
    }
}
