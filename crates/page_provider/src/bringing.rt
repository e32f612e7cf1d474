// A page comes into a frame: one that cools stays in its own, a cold one is read and comes into an empty one.
ghost use Rattle.std.specs.Prelude.{◌≡◌, ◌≢◌, ◌<◌, ◌^◌, true, false, [], length, IfOk, IfErr, Ok, Err, Some};
ghost use Rattle.btree_descent.specs.core_state.Needs.{has_hot_parent};
ghost use Rattle.lean_disk.specs.Faults.{HasCause};
ghost use Rattle.lean_disk.specs.Moments.{Framed, OnlyReads};
ghost use Rattle.btree_descent.specs.row_words.declared.event.Event.TheVariants.{Load, Rescue};
ghost use Rattle.btree_descent.specs.row_words.Openings.{opening};
ghost use Rattle.btree_descent.specs.rows_trait.Views.{state};
ghost use Rattle.cooling_stage.specs.Queue.{found};
ghost use Rattle.page_calls.specs.Mirrors.{KeepsMirrors};
ghost use Rattle.page_provider.specs.Comes.{CanCome, ComesOrNot, HasCome, HasRead, ReadsWell};
ghost use Rattle.page_provider.specs.Finds.{Halts};
ghost use Rattle.page_provider.specs.Fetches.{WasRead};
ghost use Rattle.page_provider.specs.Providers.{Keeps};
ghost use Rattle.page_provider.specs.declared.refusal.Refusal.TheVariants as refusal;

use crate::finding::naming;
use crate::latching::take_with;
use crate::laws::laws;
use crate::pager::Pager;
use crate::refusal::Refusal;
use crate::taking::take;
use btree_descent::{BtreeNodeNode as Node, Rows};
use cooling_stage::Cooling;
use disk_runs::Lost;
use lean_disk::Part;
use page_calls::load;
use page_moves::{fill, fill_free, relink, revive};

impl Pager {
    // The page as it was saved last. It is compared with what is kept of it.
    //
    // Altered: it is not as it was kept.
    pub(crate) fn read<P: Part>(&mut self, dev: &mut P, page: u32) -> Result<Node, Refusal>
        requires area { (P.seat dev.old).area ≡ 1 }
        requires page { page < length self.old.slots }
        requires kept { page < length self.old.kept }
        ensures ok { IfOk result (WasRead self.old page (P.story dev.old)) }
        ensures same { IfOk result (λ _. self.new ≡ self.old) }
        ensures err { IfErr result (λ why. HasRead self.old page (P.story dev.old) why self.new) }
        ensures disk { ReadsWell self.old self.new (P.story dev.old) (P.story dev.new) }
        ensures mirrors { KeepsMirrors self.old.slots self.new.slots (P.story dev.old) (P.story dev.new) }
        ensures frame { Framed 1 (P.story dev.old) (P.story dev.new) }
        ensures reads { OnlyReads (P.story dev.old) (P.story dev.new) }
        ensures seat { P.seat dev.new ≡ P.seat dev.old }
        ensures cause { HasCause (P.faults dev.old) (P.faults dev.new) (result ≡ Err refusal.DiskFault) }
    {
        match load(dev, &self.slots, self.generation, page, &mut self.buffer) {
            Ok(node) => {
                if self.kept.is_as_kept(page, &node) {
                    return Ok(node);
                }
                self.broken = true;
                Err(Refusal::Altered { page })
            }
            Err(Lost::DiskFault) => {
                self.broken = true;
                Err(Refusal::DiskFault)
            }
            Err(Lost::Damaged { counts, other }) => {
                self.broken = true;
                Err(Refusal::Damaged {
                    page,
                    counts,
                    other,
                })
            }
        }
    }

    // A node that cools stays in its frame: the pair that names its number names the frame.
    //
    // False: no node in a frame names it.
    pub(crate) fn rescue_node<R: Rows>(
        &mut self,
        rows: &mut R,
        seat: &mut R::Seat,
        entry: Cooling,
        first: u32,
    ) -> Result<bool, Refusal>
        requires fits { R.fits rows.old seat.old }
        requires keeps { Keeps (R.shape rows.old) (R.view seat.old) self.old }
        requires held { (R.view seat.old).held ≡ [] }
        requires there { found entry.page self.old.queue ≡ Some entry }
        requires live { ((state (R.view seat.old)).core.page entry.page).node.live ≡ true }
        ensures fits { R.fits rows.new seat.new × (R.shape rows.new ≡ R.shape rows.old) }
        ensures ok { IfOk result (λ done. ComesOrNot done (R.shape rows.old) (Rescue entry.page) entry.page entry.frame (R.view seat.old) self.old (R.view seat.new) self.new) }
        ensures err { IfErr result (λ why. Halts 2 (R.shape rows.old) (R.view seat.old) why (R.view seat.new)) }
        ensures same { IfErr result (λ _. self.new ≡ self.old) }
        ensures astray { (R.shape rows.old).alone ≡ true → has_hot_parent (opening (R.view seat.old).given) (state (R.view seat.old)).core entry.page ≡ false → result ≡ Ok false }
    {
        laws();
        let frames = self.stage.frames();
        let Some((parent, at)) = naming(rows, seat, frames, first, u64::from(entry.page))? else {
            return Ok(false);
        };
        let (above, own) = take_with(rows, seat, &parent, entry.frame)?;
        relink(rows, seat, above, own, at, entry.page);
        self.stage.take(entry.page);
        Ok(true)
    }

    // A free page that cools stays in its frame.
    pub(crate) fn rescue_free<R: Rows>(
        &mut self,
        rows: &mut R,
        seat: &mut R::Seat,
        entry: Cooling,
    ) -> Result<(), Refusal>
        requires fits { R.fits rows.old seat.old }
        requires keeps { Keeps (R.shape rows.old) (R.view seat.old) self.old }
        requires held { (R.view seat.old).held ≡ [] }
        requires there { found entry.page self.old.queue ≡ Some entry }
        requires free { ((state (R.view seat.old)).core.page entry.page).node.live ≡ false }
        ensures fits { R.fits rows.new seat.new × (R.shape rows.new ≡ R.shape rows.old) }
        ensures ok { IfOk result (λ _. HasCome (R.shape rows.old) (Rescue entry.page) entry.page entry.frame (R.view seat.old) self.old (R.view seat.new) self.new) }
        ensures err { IfErr result (λ why. Halts 2 (R.shape rows.old) (R.view seat.old) why (R.view seat.new)) }
        ensures same { IfErr result (λ _. self.new ≡ self.old) }
    {
        laws();
        let own = take(rows, seat, self.stage.frames(), entry.frame)?;
        revive(rows, seat, own, entry.page);
        self.stage.take(entry.page);
        self.free.remove(entry.page);
        Ok(())
    }

    // A cold node comes into an empty frame: the pair that names its number names the frame.
    //
    // False: no node in a frame names it.
    pub(crate) fn fill_node<R: Rows>(
        &mut self,
        rows: &mut R,
        seat: &mut R::Seat,
        page: u32,
        frame: u32,
        node: &Node,
        first: u32,
    ) -> Result<bool, Refusal>
        requires fits { R.fits rows.old seat.old }
        requires keeps { Keeps (R.shape rows.old) (R.view seat.old) self.old }
        requires held { (R.view seat.old).held ≡ [] }
        requires comes { CanCome (R.view seat.old) self.old page frame node.now }
        requires live { node.now.node.live ≡ true }
        ensures fits { R.fits rows.new seat.new × (R.shape rows.new ≡ R.shape rows.old) }
        ensures ok { IfOk result (λ done. ComesOrNot done (R.shape rows.old) (Load page frame) page frame (R.view seat.old) self.old (R.view seat.new) self.new) }
        ensures err { IfErr result (λ why. Halts 2 (R.shape rows.old) (R.view seat.old) why (R.view seat.new)) }
        ensures same { IfErr result (λ _. self.new ≡ self.old) }
    {
        laws();
        let frames = self.stage.frames();
        let Some((parent, at)) = naming(rows, seat, frames, first, u64::from(page))? else {
            return Ok(false);
        };
        let (above, own) = take_with(rows, seat, &parent, frame)?;
        fill(rows, seat, above, own, at, page, node);
        self.empty.pop();
        self.kept.come(node);
        Ok(true)
    }

    // A cold page that is free comes into an empty frame.
    pub(crate) fn fill_free_page<R: Rows>(
        &mut self,
        rows: &mut R,
        seat: &mut R::Seat,
        page: u32,
        frame: u32,
        node: &Node,
    ) -> Result<(), Refusal>
        requires fits { R.fits rows.old seat.old }
        requires keeps { Keeps (R.shape rows.old) (R.view seat.old) self.old }
        requires held { (R.view seat.old).held ≡ [] }
        requires comes { CanCome (R.view seat.old) self.old page frame node.now }
        requires free { node.now.node.live ≡ false }
        ensures fits { R.fits rows.new seat.new × (R.shape rows.new ≡ R.shape rows.old) }
        ensures ok { IfOk result (λ _. HasCome (R.shape rows.old) (Load page frame) page frame (R.view seat.old) self.old (R.view seat.new) self.new) }
        ensures err { IfErr result (λ why. Halts 2 (R.shape rows.old) (R.view seat.old) why (R.view seat.new)) }
        ensures same { IfErr result (λ _. self.new ≡ self.old) }
    {
        laws();
        let own = take(rows, seat, self.stage.frames(), frame)?;
        fill_free(rows, seat, own, page, node);
        self.empty.pop();
        self.kept.come(node);
        self.free.remove(page);
        Ok(())
    }
}
