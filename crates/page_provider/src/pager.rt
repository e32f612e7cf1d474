// The pager's memory.
ghost use Rattle.std.specs.Prelude.{◌≡◌, ◌≤◌, vec_capacity, IfOk};
ghost use Rattle.page_provider.specs.Fresh.{down_to_one};

use cold_pages::ColdPages;
use cooling_stage::CoolingStage;
use free_pages::FreePages;
use page_calls::Slots;
use std::alloc::{AllocError, Global};
use std::marker::Model;

/// Moves pages between a disk and the frames of rows: for the only seat of rows, or for a seat of its own beside the
/// workers'. It reserves all its memory when it is made.
#[derive(Drop)]
pub struct Pager {
    pub stage: CoolingStage,
    pub slots: Slots,
    pub(crate) kept: ColdPages,
    pub(crate) free: FreePages,
    pub(crate) empty: Vec<u32>,
    pub(crate) hand: u32,
    pub(crate) workers: u32,
    pub generation: u64,
    pub(crate) broken: bool,
    pub buffer: Vec<u8>,
}

impl Model for Pager {
    ghost use Rattle.page_provider.specs.Providers.{Provider};
    ghost use Rattle.page_provider.specs.Inside.{IsWhole};
    ghost use Rattle.std.specs.Prelude.{vec_capacity};

    ghost Value = { Provider };

    ghost view = { λ s. record { frames = s.stage.frames; workers = s.workers; generation = s.generation; queue = s.stage.queue; empty = s.empty.items; free = s.free; slots = s.slots; kept = s.kept; hand = s.hand; broken = s.broken } };

    ghost invariant = { λ s. IsWhole s.stage.frames (vec_capacity s.empty) s.free s.slots s.buffer.items };
}

// The frames but frame 0, the last one first: the least is taken first.
fn empty_frames(alloc: Global, frames: u32) -> Result<Vec<u32>, AllocError>
    ensures items { IfOk result (λ v. v.items ≡ down_to_one frames) }
    ensures room { IfOk result (λ v. frames ≤ vec_capacity v) }
{
    let mut empty = Vec::with_capacity(alloc, frames as usize)?;
    for i in 1..frames {
        empty.push_reserved(frames - i);
    }
    Ok(empty)
}

impl Pager {
    ghost use Rattle.std.specs.Prelude.{◌≡◌, ◌<◌, List, Bool, length, IfOk};
    ghost use Rattle.page_provider.specs.Fresh.{fresh};

    /// A pager where page 0 alone is in a frame, frame 0: with the pages that are free, what is known of each page's slots, and what
    /// is kept of each page. Pages are saved by this generation. The one error is that memory is refused, and no later call takes any.
    pub fn new(
        alloc: Global,
        frames: u32,
        workers: u32,
        generation: u64,
        free: FreePages,
        slots: Slots,
        kept: ColdPages,
    ) -> Result<Pager, AllocError>
        requires slots { length slots ≡ length free }
        ensures made { IfOk result (λ k. k ≡ fresh frames workers generation free slots kept) }
    {
        let empty = empty_frames(alloc, frames)?;
        let mut buffer = Vec::new(alloc);
        buffer.resize(1024, 0)?;
        Ok(Pager {
            stage: CoolingStage::new(alloc, frames)?,
            slots,
            kept,
            free,
            empty,
            hand: 0,
            workers,
            generation,
            broken: false,
            buffer,
        })
    }

    /// How many frames there are.
    pub fn frames(&self) -> u32
        ensures { result ≡ self.now.frames }
    {
        self.stage.frames()
    }

    /// How many pages there are.
    pub fn pages(&self) -> u32
        ensures free { result ≡ length self.now.free }
        ensures slots { result ≡ length self.now.slots }
    {
        self.slots.len()
    }

    /// Whether an earlier call met a damaged or altered page or a fault of the device: then every call is refused.
    pub fn is_broken(&self) -> bool
        ensures { result ≡ self.now.broken }
    {
        self.broken
    }
}
