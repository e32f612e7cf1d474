// Which page of the queue can leave its frame.
ghost use Rattle.std.specs.Prelude.{◌≡◌, ◌≤◌, ◌<◌, ℕ, true, [], length, Some, IfOk, IfErr};
ghost use Rattle.btree_descent.specs.rows_trait.Views.{Shape};
ghost use Rattle.cooling_stage.specs.Queue.{found};
ghost use Rattle.page_provider.specs.Inside.{Missed};
ghost use Rattle.page_provider.specs.Leaves.{Chose, HasFlushed, IsFlushed, MissedLater, Tells};
ghost use Rattle.page_provider.specs.Providers.{Keeps};

use crate::laws::laws;
use crate::looking::{is_dirty, number};
use crate::pager::Pager;
use crate::refusal::Refusal;
use btree_descent::{Nothing, Rows};
use cooling_stage::Cooling;
use epochs::{Ripeness, ripe};

// Whether a page that cools can leave.
#[derive(Clone, Copy)]
pub(crate) enum Leave {
    Yes,
    // Its number is above what is flushed everywhere.
    Above,
    // A worker is inside that entered at its epoch or an earlier one.
    Held,
}

// The first page of the queue that can leave; or how many of them wait for a worker alone, where none can.
#[derive(Clone, Copy)]
pub(crate) enum Chosen {
    Page(Cooling),
    Nobody { held: u32 },
}

impl Pager {
    // How far all logs are flushed: the least of the flushed words.
    pub(crate) fn flushed<R: Rows>(&self, rows: &mut R, seat: &mut R::Seat) -> u64
        requires fits { R.fits rows.old seat.old }
        requires keeps { Keeps (R.shape rows.old) (R.view seat.old) self.now }
        requires held { (R.view seat.old).held ≡ [] }
        ensures fits { R.fits rows.new seat.new × (R.shape rows.new ≡ R.shape rows.old) }
        ensures answer { HasFlushed (R.shape rows.old) (R.view seat.old) result (R.view seat.new) }
    {
        laws();
        let mut least = rows.load_control(seat, 1, 0, &Nothing);
        for worker in 1..self.workers {
            least = least.min(rows.load_control(seat, worker + 1, 0, &Nothing));
        }
        least
    }

    // Whether a page of the queue can leave.
    pub(crate) fn judge<R: Rows>(
        &self,
        rows: &mut R,
        seat: &mut R::Seat,
        flushed: u64,
        entry: Cooling,
    ) -> Result<Leave, Refusal>
        requires fits { R.fits rows.old seat.old }
        requires keeps { Keeps (R.shape rows.old) (R.view seat.old) self.now }
        requires held { (R.view seat.old).held ≡ [] }
        requires flushed { IsFlushed (R.shape rows.old) flushed (R.view seat.old) }
        requires there { found entry.page self.now.queue ≡ Some entry }
        ensures fits { R.fits rows.new seat.new × (R.shape rows.new ≡ R.shape rows.old) }
        ensures ok { IfOk result (λ answer. Tells (R.shape rows.old) (R.view seat.old) entry.page answer (R.view seat.new)) }
        ensures err { IfErr result (λ why. Missed (R.shape rows.old) (R.view seat.old) why (R.view seat.new)) }
    {
        laws();
        if number(rows, seat, self.stage.frames(), entry.frame)? > flushed {
            return Ok(Leave::Above);
        }
        match ripe(rows, seat, self.workers, entry.epoch) {
            Ripeness::Yes => Ok(Leave::Yes),
            Ripeness::Held { .. } => Ok(Leave::Held),
        }
    }

    // The first page of the queue that can leave.
    pub(crate) fn choose<R: Rows>(
        &self,
        rows: &mut R,
        seat: &mut R::Seat,
        flushed: u64,
    ) -> Result<Chosen, Refusal>
        requires fits { R.fits rows.old seat.old }
        requires keeps { Keeps (R.shape rows.old) (R.view seat.old) self.now }
        requires held { (R.view seat.old).held ≡ [] }
        requires flushed { IsFlushed (R.shape rows.old) flushed (R.view seat.old) }
        ensures fits { R.fits rows.new seat.new × (R.shape rows.new ≡ R.shape rows.old) }
        ensures ok { IfOk result (λ answer. Chose (R.shape rows.old) (R.view seat.old) self.now answer (R.view seat.new)) }
        ensures err { IfErr result (λ why. MissedLater (R.shape rows.old) (R.view seat.old) why (R.view seat.new)) }
    {
        laws();
        // So many pages at most does the queue have, and so the count of them fits.
        let _frames = self.stage.frames();
        let mut next = self.stage.head();
        let mut held = 0;
        for _place in 0..self.stage.len() {
            let Some(entry) = next else { unreachable!() };
            match self.judge(rows, seat, flushed, entry)? {
                Leave::Yes => return Ok(Chosen::Page(entry)),
                Leave::Above => {}
                Leave::Held => held += 1,
            }
            next = self.stage.behind(entry.page);
        }
        Ok(Chosen::Nobody { held })
    }
}
