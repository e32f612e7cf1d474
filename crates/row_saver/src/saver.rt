// The saver: what it borrows.
ghost use Rattle.std.specs.Prelude.{◌≡◌};

use crate::looking::dirty_in;
use crate::saving::{save_in, settle_all};
use btree_descent::Rows;
use checkpointer::saver::{Dirty, NotSaved, Saver};
use cooling_stage::CoolingStage;
use disk_runs::DiskFault;
use lean_disk::{Did, Part};
use page_calls::Slots;

/// Rows and their only seat, and of a pager the queue of the pages that cool, what is known of each page's slots, the bytes of a page,
/// and the generation by which pages are saved. All but the last are lent.
#[derive(Drop)]
pub struct RowSaver<'a, R: Rows> {
    rows: &'a mut R,
    seat: &'a mut R::Seat,
    stage: &'a CoolingStage,
    slots: &'a mut Slots,
    buffer: &'a mut Vec<u8>,
    generation: u64,
}

impl<'a, R: Rows> RowSaver<'a, R> {
    /// The saver of these.
    pub fn new(
        rows: &'a mut R,
        seat: &'a mut R::Seat,
        stage: &'a CoolingStage,
        slots: &'a mut Slots,
        buffer: &'a mut Vec<u8>,
        generation: u64,
    ) -> RowSaver<'a, R>
        ensures rows { (result.rows.ghost_name ≡ rows.entry.ghost_name) × (result.rows.now ≡ rows.old) }
        ensures seat { (result.seat.ghost_name ≡ seat.entry.ghost_name) × (result.seat.now ≡ seat.old) }
        ensures stage { result.stage.now ≡ stage.now }
        ensures slots { (result.slots.ghost_name ≡ slots.entry.ghost_name) × (result.slots.now ≡ slots.old) }
        ensures buffer { (result.buffer.ghost_name ≡ buffer.entry.ghost_name) × (result.buffer.now ≡ buffer.old) }
        ensures generation { result.generation ≡ generation }
    {
        RowSaver {
            rows,
            seat,
            stage,
            slots,
            buffer,
            generation,
        }
    }
}

impl<'a, R: Rows, P: Part> Saver<P> for RowSaver<'a, R> {
    ghost use Rattle.std.specs.Prelude.{◌≡◌};
    ghost use Rattle.page_provider.specs.Disks.{told};
    ghost use Rattle.row_opening.specs.Openings.{Opens};
    ghost use Rattle.row_saver.specs.Savers.{HasGone, IsReady, IsSpent, KnowsSlots};

    ghost opens = { λ s o. Opens o (R.view s.seat.now).given };

    ghost front = { λ s. told (R.view s.seat.now) };

    ghost knows = { λ s k. KnowsSlots s.slots.now s.generation k };

    ghost frames_of = { λ s. s.stage.now.frames };

    ghost ready = { λ s. R.fits s.rows.now s.seat.now × IsReady (R.shape s.rows.now) (R.view s.seat.now) s.stage.now.queue s.stage.now.frames s.slots.now s.buffer.now.items };

    ghost since = { λ b n s. (s.rows.ghost_name ≡ b.rows.ghost_name) × (s.seat.ghost_name ≡ b.seat.ghost_name) × (s.slots.ghost_name ≡ b.slots.ghost_name) × (s.buffer.ghost_name ≡ b.buffer.ghost_name) × (s.stage.now ≡ b.stage.now) × (s.generation ≡ b.generation) × HasGone n (R.shape b.rows.now) (R.shape s.rows.now) (R.view b.seat.now) (R.view s.seat.now) b.slots.now s.slots.now b.buffer.now.items s.buffer.now.items };

    ghost spent = { λ s. IsSpent s.stage.now.frames (R.view s.seat.now) };

    fn frames(&self) -> u32 {
        self.stage.frames()
    }

    fn dirty(&mut self, frame: u32) -> Option<Dirty> {
        row_opening::every_reached();
        let frames = self.stage.frames();
        dirty_in(self.rows, self.seat, self.stage, frames, frame)
    }

    fn save(&mut self, dev: &mut P, frame: u32) -> Result<(), NotSaved> {
        row_opening::every_reached();
        let frames = self.stage.frames();
        save_in(
            self.rows,
            self.seat,
            dev,
            self.slots,
            self.buffer,
            self.generation,
            frames,
            frame,
        )
    }

    fn settle(&mut self, dev: &mut P) -> Result<(), DiskFault> {
        match settle_all(dev, self.slots) {
            Did::Done => Ok(()),
            Did::Failed => Err(DiskFault),
        }
    }
}
