// The dirty page of a frame, without a latch.
ghost use Rattle.std.specs.Prelude.{◌≡◌, ◌<◌, true, []};
ghost use Rattle.btree_descent.specs.rows_trait.Views.{state};
ghost use Rattle.btree_descent.specs.Descents.{Sized};
ghost use Rattle.checkpointer.specs.Savers.{IsFound};
ghost use Rattle.row_saver.specs.Inside.{Looks, ShowsIn};
ghost use Rattle.row_saver.specs.Savers.{IsSeated};

use btree_descent::{Checks, Glimpse, MARK, Misses, Rows};
use checkpointer::saver::Dirty;
use cooling_stage::CoolingStage;

/// The pager among the actors of rows.
pub(crate) const PAGER: u32 = 17;

// Of a frame's row the number of the page, the page's own number, its hint, and the number of what is saved of it.
#[derive(Clone, Copy)]
pub(crate) struct Words {
    pub page: u64,
    pub gsn: u64,
    pub hint: u64,
    pub saved: u64,
}

// These words of a frame's row.
fn words_in<R: Rows>(rows: &mut R, seat: &mut R::Seat, frames: u32, frame: u32) -> Words
    requires fits { R.fits rows.old seat.old }
    requires alone { (R.shape rows.old).alone ≡ true }
    requires held { (R.view seat.old).held ≡ [] }
    requires sized { Sized (R.shape rows.old) (R.view seat.old) frames }
    requires frame { frame < frames }
    ensures fits { R.fits rows.new seat.new × (R.shape rows.new ≡ R.shape rows.old) }
    ensures looks { Looks (R.view seat.old) (R.view seat.new) }
    ensures shows { ShowsIn (R.view seat.new) frame result }
{
    let glimpse = match Glimpse::start(rows, seat, frame, &Misses { worker: PAGER }) {
        Ok(found) => found,
        Err(_) => unreachable!(),
    };
    let page = glimpse.word(rows, seat, 0);
    let gsn = glimpse.word(rows, seat, 1);
    let hint = glimpse.word(rows, seat, 126);
    let saved = glimpse.word(rows, seat, 127);
    let checks = Checks {
        worker: PAGER,
        version: glimpse.version,
    };
    match glimpse.check(rows, seat, &checks) {
        Ok(()) => Words {
            page,
            gsn,
            hint,
            saved,
        },
        Err(_) => unreachable!(),
    }
}

// The dirty page that stands in a frame, hot or cooling. An empty frame has the mark of one that cools, and any words besides: a page
// that cools is in the queue.
pub(crate) fn dirty_in<R: Rows>(
    rows: &mut R,
    seat: &mut R::Seat,
    stage: &CoolingStage,
    frames: u32,
    frame: u32,
) -> Option<Dirty>
    requires fits { R.fits rows.old seat.old }
    requires seated { IsSeated (R.shape rows.old) (R.view seat.old) stage.now.queue frames }
    requires frame { frame < frames }
    ensures fits { R.fits rows.new seat.new × (R.shape rows.new ≡ R.shape rows.old) }
    ensures looks { Looks (R.view seat.old) (R.view seat.new) }
    ensures found { IsFound (state (R.view seat.old)).core frame result }
{
    let words = words_in(rows, seat, frames, frame);
    if words.gsn <= words.saved {
        return None;
    }
    let page = match u32::try_from(words.page) {
        Ok(page) => page,
        Err(_) => return None,
    };
    let dirty = Dirty {
        page,
        gsn: words.gsn,
    };
    if words.hint != MARK {
        return Some(dirty);
    }
    let Some(entry) = stage.find(page) else {
        return None;
    };
    if entry.frame == frame {
        return Some(dirty);
    }
    None
}
