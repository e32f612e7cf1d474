//! A page cools: whoever names it names its number from then on, and it stands in the queue.
ghost use Rattle.std.specs.Prelude.{◌≡◌, ◌≢◌, ◌<◌, ◌^◌, ℕ, true, false, [], IfOk, IfErr, Err};
ghost use Rattle.btree_descent.specs.row_words.Moments.{pager};
ghost use Rattle.btree_descent.specs.row_words.Openings.{opening};
ghost use Rattle.btree_descent.specs.rows_trait.Views.{state};
ghost use Rattle.row_image.specs.Hot.{StandsIn};
ghost use Rattle.cooling_stage.specs.declared.stage.Cooling.{Cooling};
ghost use Rattle.page_provider.specs.Cools.{CanCool, CoolsIn, CoolsOrNot, Unhooks, HasUnhooked};
ghost use Rattle.page_provider.specs.Ends.{HasRefused};
ghost use Rattle.page_provider.specs.Finds.{IsChildless, IsSeen, SinceFound, Stopped};
ghost use Rattle.page_provider.specs.Mirrored.{SavesNone};
ghost use Rattle.page_provider.specs.Providers.{Keeps};
ghost use Rattle.page_provider.specs.declared.refusal.Refusal.TheVariants as refusal;

use crate::finding::{candidate, naming};
use crate::latching::{take_seen, take_two};
use crate::laws::laws;
use crate::pager::Pager;
use crate::refusal::Refusal;
use btree_descent::{LAST, Rows};
use cooling_stage::Cooling;
use epochs::{stamp, tick};
use page_model::limits::FRAME_BIT;
use page_moves::{chill, unlink};
use row_image::sight::Sight;

impl Pager {
    // A node that was seen without a hot child cools: the pair that names its frame names its number from then on. The node above it is
    // looked for by the hint of its row.
    //
    // False: no frame has a node with such a pair, which is so only where others step.
    fn cool_node<R: Rows>(
        &mut self,
        rows: &mut R,
        seat: &mut R::Seat,
        seen: &Sight,
        entry: Cooling,
    ) -> Result<bool, Refusal>
        requires fits { R.fits rows.old seat.old }
        requires keeps { Keeps (R.shape rows.old) (R.view seat.old) self.old }
        requires held { (R.view seat.old).held ≡ [] }
        requires seen { IsSeen (R.shape rows.old) seen.now (R.view seat.old) }
        requires stands { (R.shape rows.old).alone ≡ true → StandsIn (R.view seat.old).given (state (R.view seat.old)) seen.now.glimpse.row seen.now.node }
        requires childless { IsChildless seen.now }
        requires live { seen.now.node.node.live ≡ true }
        requires other { seen.now.node.number ≢ 0 }
        requires entry { (entry.page ≡ seen.now.node.number) × (entry.frame ≡ seen.now.glimpse.row) × (entry.epoch ≡ (state (R.view seat.old)).core.epoch) }
        ensures fits { R.fits rows.new seat.new × (R.shape rows.new ≡ R.shape rows.old) }
        ensures ok { IfOk result (λ done. Unhooks done (R.shape rows.old) (R.view seat.old) self.old entry (R.view seat.new) self.new) }
        ensures err { IfErr result (λ why. Stopped 2 (R.shape rows.old) (R.view seat.old) why (R.view seat.new)) }
        ensures cause { IfErr result (λ why. SinceFound seen.now (R.view seat.old) why (R.view seat.new)) }
        ensures same { IfErr result (λ _. self.new ≡ self.old) }
        ensures kept { IfOk result (λ done. done ≡ false → self.new ≡ self.old) }
    {
        laws();
        let frames = self.stage.frames();
        let first = u32::try_from(seen.hint).unwrap_or(frames);
        let word = FRAME_BIT + u64::from(entry.frame);
        let Some((parent, at)) = naming(rows, seat, frames, first, word)? else {
            return Ok(false);
        };
        let (above, own) = take_two(rows, seat, &parent, seen)?;
        unlink(rows, seat, above, own, at, entry.page);
        self.stage.chill(entry.page, entry.frame, entry.epoch);
        Ok(true)
    }

    // A free page cools, which no node names.
    fn cool_free<R: Rows>(
        &mut self,
        rows: &mut R,
        seat: &mut R::Seat,
        seen: &Sight,
        entry: Cooling,
    ) -> Result<(), Refusal>
        requires fits { R.fits rows.old seat.old }
        requires keeps { Keeps (R.shape rows.old) (R.view seat.old) self.old }
        requires held { (R.view seat.old).held ≡ [] }
        requires seen { IsSeen (R.shape rows.old) seen.now (R.view seat.old) }
        requires free { seen.now.node.node.live ≡ false }
        requires entry { (entry.page ≡ seen.now.node.number) × (entry.frame ≡ seen.now.glimpse.row) × (entry.epoch ≡ (state (R.view seat.old)).core.epoch) }
        ensures fits { R.fits rows.new seat.new × (R.shape rows.new ≡ R.shape rows.old) }
        ensures ok { IfOk result (λ _. HasUnhooked (R.shape rows.old) (R.view seat.old) self.old entry (R.view seat.new) self.new) }
        ensures err { IfErr result (λ why. Stopped 2 (R.shape rows.old) (R.view seat.old) why (R.view seat.new)) }
        ensures cause { IfErr result (λ why. SinceFound seen.now (R.view seat.old) why (R.view seat.new)) }
        ensures same { IfErr result (λ _. self.new ≡ self.old) }
    {
        laws();
        let own = take_seen(rows, seat, seen)?;
        chill(rows, seat, own, entry.page);
        self.stage.chill(entry.page, entry.frame, entry.epoch);
        self.free.insert(entry.page);
        Ok(())
    }

    // A page that was seen without a hot child cools; the global epoch is to go on.
    //
    // False: no frame has a node that names its frame, which is so only where others step.
    fn unhook<R: Rows>(
        &mut self,
        rows: &mut R,
        seat: &mut R::Seat,
        seen: &Sight,
        entry: Cooling,
    ) -> Result<bool, Refusal>
        requires fits { R.fits rows.old seat.old }
        requires keeps { Keeps (R.shape rows.old) (R.view seat.old) self.old }
        requires held { (R.view seat.old).held ≡ [] }
        requires seen { IsSeen (R.shape rows.old) seen.now (R.view seat.old) }
        requires stands { (R.shape rows.old).alone ≡ true → StandsIn (R.view seat.old).given (state (R.view seat.old)) seen.now.glimpse.row seen.now.node }
        requires childless { IsChildless seen.now }
        requires other { seen.now.node.number ≢ 0 }
        requires entry { (entry.page ≡ seen.now.node.number) × (entry.frame ≡ seen.now.glimpse.row) × (entry.epoch ≡ (state (R.view seat.old)).core.epoch) }
        ensures fits { R.fits rows.new seat.new × (R.shape rows.new ≡ R.shape rows.old) }
        ensures ok { IfOk result (λ done. Unhooks done (R.shape rows.old) (R.view seat.old) self.old entry (R.view seat.new) self.new) }
        ensures err { IfErr result (λ why. Stopped 2 (R.shape rows.old) (R.view seat.old) why (R.view seat.new)) }
        ensures cause { IfErr result (λ why. SinceFound seen.now (R.view seat.old) why (R.view seat.new)) }
        ensures same { IfErr result (λ _. self.new ≡ self.old) }
        ensures kept { IfOk result (λ done. done ≡ false → self.new ≡ self.old) }
    {
        if !seen.node.is_live() {
            self.cool_free(rows, seat, seen, entry)?;
            return Ok(true);
        }
        self.cool_node(rows, seat, seen, entry)
    }

    // A page that was seen without a hot child cools, and the global epoch goes on.
    pub(crate) fn cool_seen<R: Rows>(
        &mut self,
        rows: &mut R,
        seat: &mut R::Seat,
        seen: &Sight,
    ) -> Result<Option<Cooling>, Refusal>
        requires fits { R.fits rows.old seat.old }
        requires keeps { Keeps (R.shape rows.old) (R.view seat.old) self.old }
        requires held { (R.view seat.old).held ≡ [] }
        requires seen { IsSeen (R.shape rows.old) seen.now (R.view seat.old) }
        requires stands { (R.shape rows.old).alone ≡ true → StandsIn (R.view seat.old).given (state (R.view seat.old)) seen.now.glimpse.row seen.now.node }
        requires childless { IsChildless seen.now }
        requires other { seen.now.node.number ≢ 0 }
        requires below { seen.now.node.number < 2 ^ 32 }
        ensures fits { R.fits rows.new seat.new × (R.shape rows.new ≡ R.shape rows.old) }
        ensures ok { IfOk result (λ done. CoolsOrNot (R.shape rows.old) (R.view seat.old) self.old seen.now.node.number seen.now.glimpse.row done (R.view seat.new) self.new) }
        ensures err { IfErr result (λ why. Stopped 2 (R.shape rows.old) (R.view seat.old) why (R.view seat.new)) }
        ensures cause { IfErr result (λ why. SinceFound seen.now (R.view seat.old) why (R.view seat.new)) }
        ensures same { IfErr result (λ _. self.new ≡ self.old) }
    {
        laws();
        let epoch = stamp(rows, seat);
        if epoch >= LAST {
            return Err(Refusal::RowSpent {
                row: seen.glimpse.row,
            });
        }
        let entry = Cooling {
            page: seen.node.number() as u32,
            frame: seen.glimpse.row,
            epoch,
        };
        if !self.unhook(rows, seat, seen, entry)? {
            return Ok(None);
        }
        tick(rows, seat);
        Ok(Some(entry))
    }

    /// Cools the page that stands hot in a frame, or one with no hot child that hangs under it: the page stands in the queue then, whoever
    /// named its frame names its number, and the global epoch has gone on.
    ///
    /// False: nothing was done, since the node that names the page went on to another frame; never where nobody else steps. Moved and
    /// Latched: a row was another seat's; never where nobody else steps. RowSpent: the version of a row has come to the last one, or the
    /// global epoch has. Broken: an earlier call met a damaged or altered page or a fault of the device.
    pub fn cool<R: Rows>(
        &mut self,
        rows: &mut R,
        seat: &mut R::Seat,
        frame: u32,
    ) -> Result<bool, Refusal>
        requires fits { R.fits rows.old seat.old }
        requires keeps { Keeps (R.shape rows.old) (R.view seat.old) self.old }
        requires held { (R.view seat.old).held ≡ [] }
        requires frame { frame < self.old.frames }
        requires cools { (page : ℕ) × CanCool (R.view seat.old) frame page }
        ensures fits { R.fits rows.new seat.new × (R.shape rows.new ≡ R.shape rows.old) }
        ensures ok { IfOk result (λ done. CoolsIn (R.shape rows.old) frame (R.view seat.old) self.old done (R.view seat.new) self.new) }
        ensures err { IfErr result (λ why. HasRefused 2 (R.shape rows.old) [] (R.view seat.old) self.old why (R.view seat.new) self.new) }
        ensures same { IfErr result (λ _. self.new ≡ self.old) }
        ensures unsaved { SavesNone (R.shape rows.old) (R.view seat.old) self.old (R.view seat.new) self.new }
        ensures device { result ≡ Err refusal.DiskFault → ⊥ }
        ensures earlier { self.old.broken ≡ true → result ≡ Err refusal.Broken }
    {
        laws();
        if self.broken {
            return Err(Refusal::Broken);
        }
        let frames = self.stage.frames();
        let Some(seen) = candidate(rows, seat, frames, frame)? else {
            return Ok(false);
        };
        // A page 0 hangs under none, so it is none of these where nobody else steps.
        if seen.node.number() == 0 {
            return Ok(false);
        }
        Ok(self.cool_seen(rows, seat, &seen)?.is_some())
    }
}
