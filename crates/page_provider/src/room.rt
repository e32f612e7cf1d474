// A frame is made empty.
ghost use Rattle.std.specs.Prelude.{◌≡◌, ◌<◌, ◌≤◌, ◌⊎◌, ◌++◌, ◌∷◌, ℕ, List, true, false, [], IfOk, IfErr, MatchOption, Err, length};
ghost use Rattle.lean_disk.specs.Faults.{HasCause};
ghost use Rattle.lean_disk.specs.Moments.{Framed};
ghost use Rattle.page_calls.specs.Calls.{KeepsWithin};
ghost use Rattle.page_provider.specs.Comes.{HasRoom, IsOfRoom};
ghost use Rattle.page_provider.specs.Cools.{Chills};
ghost use Rattle.page_provider.specs.Disks.{Disked, ReadsUnlessSaved};
ghost use Rattle.page_provider.specs.Ends.{HasRefused};
ghost use Rattle.page_provider.specs.Faults.{FullCause, IsDescent, StaysCold};
ghost use Rattle.page_provider.specs.Leaves.{Chooses, HasHalted, IsCounted, IsFlushed, NoOther, NoneCools, NoneLeaves};
ghost use Rattle.page_provider.specs.Mirrored.{KeepsMirrored};
ghost use Rattle.page_provider.specs.Providers.{Keeps};
ghost use Rattle.page_provider.specs.declared.refusal.Refusal.TheVariants as refusal;

use crate::laws::laws;
use crate::leaving::{Chosen, Leave};
use crate::pager::Pager;
use crate::refusal::Refusal;
use btree_descent::{Path, Rows};
use lean_disk::Part;

impl Pager {
    // Cools pages one by one until one of them can leave at once, where none of the queue can. Nobody: a turn has found none to cool.
    fn chill_until<R: Rows>(
        &mut self,
        rows: &mut R,
        seat: &mut R::Seat,
        path: &Path,
        flushed: u64,
        mut held: u32,
    ) -> Result<Chosen, Refusal>
        requires fits { R.fits rows.old seat.old }
        requires keeps { Keeps (R.shape rows.old) (R.view seat.old) self.old }
        requires held { (R.view seat.old).held ≡ [] }
        requires flushed { IsFlushed (R.shape rows.old) flushed (R.view seat.old) }
        requires few { held ≤ length self.old.queue }
        requires none { (R.shape rows.old).alone ≡ true → NoneLeaves self.old held (R.view seat.old) }
        ensures fits { R.fits rows.new seat.new × (R.shape rows.new ≡ R.shape rows.old) }
        ensures ok { IfOk result (λ answer. Chills (R.shape rows.old) path.now (R.view seat.old) self.old (R.view seat.new) self.new × Chooses (R.shape rows.old) self.new answer (R.view seat.new)) }
        ensures none_cools { IfOk result (NoneCools (R.shape rows.old) path.now (R.view seat.new)) }
        ensures others { IfOk result (NoOther (R.shape rows.old) (R.view seat.new)) }
        ensures err { IfErr result (λ why. HasRefused 3 (R.shape rows.old) path.now (R.view seat.old) self.old why (R.view seat.new) self.new) }
        ensures halted { IfErr result (λ why. HasHalted (R.shape rows.old) (R.view seat.old) self.old why (R.view seat.new) self.new) }
    {
        laws();
        for _turn in 0..self.stage.frames() {
            let Some(entry) = self.turn(rows, seat, path)? else {
                return Ok(Chosen::Nobody { held });
            };
            match self.judge(rows, seat, flushed, entry)? {
                Leave::Yes => return Ok(Chosen::Page(entry)),
                Leave::Above => {}
                Leave::Held => held += 1,
            }
        }
        unreachable!()
    }

    // The page that can leave: the first of the queue that can, or else one that is cooled for it.
    fn leaver<R: Rows>(
        &mut self,
        rows: &mut R,
        seat: &mut R::Seat,
        path: &Path,
    ) -> Result<Chosen, Refusal>
        requires fits { R.fits rows.old seat.old }
        requires keeps { Keeps (R.shape rows.old) (R.view seat.old) self.old }
        requires held { (R.view seat.old).held ≡ [] }
        ensures fits { R.fits rows.new seat.new × (R.shape rows.new ≡ R.shape rows.old) }
        ensures ok { IfOk result (λ answer. Chills (R.shape rows.old) path.now (R.view seat.old) self.old (R.view seat.new) self.new × Chooses (R.shape rows.old) self.new answer (R.view seat.new)) }
        ensures none_cools { IfOk result (NoneCools (R.shape rows.old) path.now (R.view seat.new)) }
        ensures others { IfOk result (λ answer. (length self.new.queue ≡ length self.old.queue) ⊎ NoOther (R.shape rows.old) (R.view seat.new) answer) }
        ensures err { IfErr result (λ why. HasRefused 3 (R.shape rows.old) path.now (R.view seat.old) self.old why (R.view seat.new) self.new) }
        ensures halted { IfErr result (λ why. HasHalted (R.shape rows.old) (R.view seat.old) self.old why (R.view seat.new) self.new) }
    {
        laws();
        let flushed = self.flushed(rows, seat);
        match self.choose(rows, seat, flushed)? {
            Chosen::Page(entry) => Ok(Chosen::Page(entry)),
            Chosen::Nobody { held } => self.chill_until(rows, seat, path, flushed, held),
        }
    }

    // Why no frame can be given, where all have pages and these counts of the queue are known.
    fn full(&self, path: &Path, held: u32) -> Refusal
        requires few { held ≤ length self.now.queue }
        requires frames { length self.now.queue ≤ self.now.frames }
        ensures sum { IsCounted self.now path.now held result }
    {
        let frames = self.stage.frames();
        let cooling = self.stage.len() as u32;
        let hot = frames - cooling;
        let on = hot.min(path.len() as u32);
        Refusal::PoolFull {
            path: on,
            latched: hot - on,
            above: cooling - held,
            held,
        }
    }

    // The last of the empty frames.
    fn last_empty(&self) -> Option<u32>
        ensures last { MatchOption result (self.now.empty ≡ []) (λ frame. (rest : List ℕ) × (self.now.empty ≡ rest ++ frame ∷ [])) }
    {
        self.empty.last().copied()
    }

    // Cools pages until the queue has its share of the frames, and makes a frame empty where none is: the first page of the queue that can
    // leaves, or one that is cooled for it.
    //
    // PoolFull: no page of the queue can leave, and none can be cooled.
    pub(crate) fn room<R: Rows, P: Part>(
        &mut self,
        rows: &mut R,
        seat: &mut R::Seat,
        dev: &mut P,
        path: &Path,
    ) -> Result<u32, Refusal>
        requires fits { R.fits rows.old seat.old }
        requires keeps { Keeps (R.shape rows.old) (R.view seat.old) self.old }
        requires held { (R.view seat.old).held ≡ [] }
        requires area { (P.seat dev.old).area ≡ 1 }
        requires well { self.old.broken ≡ false }
        requires descent { IsDescent (R.shape rows.old) (R.view seat.old) path.now }
        ensures fits { R.fits rows.new seat.new × (R.shape rows.new ≡ R.shape rows.old) }
        ensures ok { IfOk result (λ frame. HasRoom (R.shape rows.old) path.now (R.view seat.old) self.old frame (R.view seat.new) self.new) }
        ensures err { IfErr result (λ why. HasRefused 3 (R.shape rows.old) path.now (R.view seat.old) self.old why (R.view seat.new) self.new) }
        ensures kind { IfErr result IsOfRoom }
        ensures full { IfErr result (λ why. FullCause (R.shape rows.old) path.now (R.view seat.new) self.new why) }
        ensures cold { IfErr result (λ why. StaysCold (R.shape rows.old) (R.view seat.old) why (R.view seat.new)) }
        ensures disk { Disked (R.shape rows.old).alone self.old (R.view seat.old) self.new (R.view seat.new) (P.story dev.old) (P.story dev.new) }
        ensures mirrors { KeepsMirrored (R.view seat.old) self.old (R.view seat.new) self.new (P.story dev.old) (P.story dev.new) }
        ensures within { KeepsWithin (P.story dev.old) (P.story dev.new) }
        ensures frame { Framed 1 (P.story dev.old) (P.story dev.new) }
        ensures reads { ReadsUnlessSaved (R.view seat.old) (R.view seat.new) self.new (P.story dev.old) (P.story dev.new) }
        ensures seat { P.seat dev.new ≡ P.seat dev.old }
        ensures cause { HasCause (P.faults dev.old) (P.faults dev.new) (result ≡ Err refusal.DiskFault) }
    {
        laws();
        let wanted = (self.stage.frames() / 10).max(1);
        self.chill_some(rows, seat, path, wanted)?;
        if let Some(frame) = self.last_empty() {
            return Ok(frame);
        }
        let entry = match self.leaver(rows, seat, path)? {
            Chosen::Page(entry) => entry,
            Chosen::Nobody { held } => return Err(self.full(path, held)),
        };
        self.evict(rows, seat, dev, entry.page)?;
        Ok(entry.frame)
    }
}
