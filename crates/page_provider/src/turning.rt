// The hand goes over the frames, and cools what is not on the way.
ghost use Rattle.std.specs.Prelude.{◌≡◌, ◌<◌, ◌≤◌, true, [], IfOk, IfErr};
ghost use Rattle.page_provider.specs.Cools.{HasChilled, Passes, Steps, Turns};
ghost use Rattle.page_provider.specs.Ends.{HasRefused};
ghost use Rattle.page_provider.specs.Finds.{Halts, Stalls};
ghost use Rattle.page_provider.specs.Leaves.{HasHalted};
ghost use Rattle.page_provider.specs.Providers.{Keeps};

use crate::finding::candidate;
use crate::glancing::is_hot;
use crate::laws::laws;
use crate::pager::Pager;
use crate::refusal::Refusal;
use btree_descent::{Path, Rows};
use cooling_stage::Cooling;

impl Pager {
    // Cools the page that is seen in a frame, or one that hangs under it, if there is one off the way.
    fn step_from<R: Rows>(
        &mut self,
        rows: &mut R,
        seat: &mut R::Seat,
        frame: u32,
        path: &Path,
    ) -> Result<Option<Cooling>, Refusal>
        requires fits { R.fits rows.old seat.old }
        requires keeps { Keeps (R.shape rows.old) (R.view seat.old) self.old }
        requires held { (R.view seat.old).held ≡ [] }
        requires frame { frame < self.old.frames }
        ensures fits { R.fits rows.new seat.new × (R.shape rows.new ≡ R.shape rows.old) }
        ensures ok { IfOk result (λ done. Steps (R.shape rows.old) path.now frame (R.view seat.old) self.old done (R.view seat.new) self.new) }
        ensures hand { IfOk result (λ _. self.new.hand ≡ self.old.hand) }
        ensures err { IfErr result (λ why. Halts 2 (R.shape rows.old) (R.view seat.old) why (R.view seat.new)) }
        ensures same { IfErr result (λ _. self.new ≡ self.old) }
    {
        laws();
        let frames = self.stage.frames();
        let Some(seen) = candidate(rows, seat, frames, frame)? else {
            return Ok(None);
        };
        if seen.node.number() == 0 || path.frames().contains(&seen.glimpse.row) {
            return Ok(None);
        }
        self.cool_seen(rows, seat, &seen)
    }

    // Cools the page in a frame, or one that hangs under it, if there is one off the way.
    fn step<R: Rows>(
        &mut self,
        rows: &mut R,
        seat: &mut R::Seat,
        frame: u32,
        path: &Path,
    ) -> Result<Option<Cooling>, Refusal>
        requires fits { R.fits rows.old seat.old }
        requires keeps { Keeps (R.shape rows.old) (R.view seat.old) self.old }
        requires held { (R.view seat.old).held ≡ [] }
        requires frame { frame < self.old.frames }
        ensures fits { R.fits rows.new seat.new × (R.shape rows.new ≡ R.shape rows.old) }
        ensures ok { IfOk result (λ done. Steps (R.shape rows.old) path.now frame (R.view seat.old) self.old done (R.view seat.new) self.new) }
        ensures hand { IfOk result (λ _. self.new.hand ≡ self.old.hand) }
        ensures err { IfErr result (λ why. Halts 2 (R.shape rows.old) (R.view seat.old) why (R.view seat.new)) }
        ensures same { IfErr result (λ _. self.new ≡ self.old) }
    {
        laws();
        // Most frames over which the hand goes in vain have no hot page, and one word says so.
        if !is_hot(rows, seat, self.stage.frames(), frame)? {
            return Ok(None);
        }
        self.step_from(rows, seat, frame, path)
    }

    // The hand goes over frames until a page was cooled.
    fn pass<R: Rows>(
        &mut self,
        rows: &mut R,
        seat: &mut R::Seat,
        path: &Path,
        from: u32,
        to: u32,
    ) -> Result<Option<Cooling>, Refusal>
        requires fits { R.fits rows.old seat.old }
        requires keeps { Keeps (R.shape rows.old) (R.view seat.old) self.old }
        requires held { (R.view seat.old).held ≡ [] }
        requires frames { to ≤ self.old.frames }
        ensures fits { R.fits rows.new seat.new × (R.shape rows.new ≡ R.shape rows.old) }
        ensures ok { IfOk result (λ done. Passes (R.shape rows.old) path.now from to (R.view seat.old) self.old done (R.view seat.new) self.new) }
        ensures err { IfErr result (λ why. Stalls 2 (R.shape rows.old) (R.view seat.old) self.old why (R.view seat.new) self.new) }
    {
        laws();
        for frame in from..to {
            self.hand = frame + 1;
            if let Some(entry) = self.step(rows, seat, frame, path)? {
                return Ok(Some(entry));
            }
        }
        Ok(None)
    }

    // The hand goes on until a page was cooled. None: a turn over all frames has found none.
    pub(crate) fn turn<R: Rows>(
        &mut self,
        rows: &mut R,
        seat: &mut R::Seat,
        path: &Path,
    ) -> Result<Option<Cooling>, Refusal>
        requires fits { R.fits rows.old seat.old }
        requires keeps { Keeps (R.shape rows.old) (R.view seat.old) self.old }
        requires held { (R.view seat.old).held ≡ [] }
        ensures fits { R.fits rows.new seat.new × (R.shape rows.new ≡ R.shape rows.old) }
        ensures ok { IfOk result (λ done. Turns (R.shape rows.old) path.now (R.view seat.old) self.old done (R.view seat.new) self.new) }
        ensures err { IfErr result (λ why. Stalls 2 (R.shape rows.old) (R.view seat.old) self.old why (R.view seat.new) self.new) }
    {
        laws();
        let frames = self.stage.frames();
        let start = if self.hand < frames { self.hand } else { 0 };
        if let Some(entry) = self.pass(rows, seat, path, start, frames)? {
            return Ok(Some(entry));
        }
        self.pass(rows, seat, path, 0, start)
    }

    // Cools pages until the queue has so many, or a turn finds none.
    pub(crate) fn chill_some<R: Rows>(
        &mut self,
        rows: &mut R,
        seat: &mut R::Seat,
        path: &Path,
        wanted: u32,
    ) -> Result<(), Refusal>
        requires fits { R.fits rows.old seat.old }
        requires keeps { Keeps (R.shape rows.old) (R.view seat.old) self.old }
        requires held { (R.view seat.old).held ≡ [] }
        ensures fits { R.fits rows.new seat.new × (R.shape rows.new ≡ R.shape rows.old) }
        ensures ok { IfOk result (λ _. HasChilled (R.shape rows.old) path.now wanted (R.view seat.old) self.old (R.view seat.new) self.new) }
        ensures err { IfErr result (λ why. HasRefused 2 (R.shape rows.old) path.now (R.view seat.old) self.old why (R.view seat.new) self.new) }
        ensures halted { IfErr result (λ why. HasHalted (R.shape rows.old) (R.view seat.old) self.old why (R.view seat.new) self.new) }
    {
        laws();
        for _turn in 0..wanted {
            if self.stage.len() >= wanted as usize {
                return Ok(());
            }
            let Some(_entry) = self.turn(rows, seat, path)? else {
                return Ok(());
            };
        }
        Ok(())
    }
}
