// Rows with their pager, over a disk with a tree of three levels.
ghost use Rattle.std.specs.Prelude.{◌≡◌, ◌<◌, ◌-◌, ◌^◌, IfOk, IfSome, true};
ghost use Rattle.disk_file.specs.Untold.{untold};
ghost use Rattle.paged_opening.specs.Opened.{HasOpened};
ghost use Rattle.pager_bench.specs.Rigs.{Stands};

use lean_disk::AreaOf;
use page_provider::Pager;
use paged_opening::{Opened, open};
use paged_rows::bring;
use quiet_disk::QuietDisk;
use quiet_disk::trees::{FIRST_FREE, FIRST_LEAF, first_disk};
use rows_trait::plain::PlainRows;
use rows_trait::trace::Trace;
use std::alloc::Global;
use std::io;

/// How many frames there are.
const FRAMES: u32 = 32;

// Behind the control words each frame has so many words; the first is its latch, then come those of the page, and a hint, which is the
// mark while it cools.
const CONTROLS: usize = 6;

const WIDTH: usize = 129;

const HINT: usize = 127;

const MARK: u64 = (1 << 63) + 1;

/// The rows and their seat, the pager, and the disk.
#[derive(Drop)]
pub struct Rig {
    pub rows: PlainRows,
    pub seat: Trace,
    pub pager: Pager,
    pub disk: QuietDisk,
    pub works: bool,
}

/// The disk is new, and page 0 alone stands in a frame.
pub fn opened(alloc: Global) -> io::Result<Rig>
    ensures { IfOk result Stands }
{
    let Some(disk) = first_disk(alloc, 64)? else {
        return Err(io::Error::from(io::ErrorKind::Other));
    };
    let mut disk = QuietDisk::new(disk);
    match open(alloc, &mut disk, FRAMES, 1, 1) {
        Ok(opened) => Ok(rig_of(opened, disk)),
        Err(_) => Err(io::Error::from(io::ErrorKind::Other)),
    }
}

impl Rig {
    // The leaf in a frame, if it cools, counted from the first one.
    fn cooling_in(&self, frame: usize) -> Option<u32>
        requires { frame < 32 }
        ensures { IfSome result (λ leaf. leaf < 360) }
    {
        let row = CONTROLS + WIDTH * frame;
        let words = &self.rows.words;
        if words.get(row + HINT).copied() != Some(MARK) {
            return None;
        }
        let word = words.get(row + 1).copied().unwrap_or(0);
        let page = u32::try_from(word).unwrap_or(0);
        if page < FIRST_LEAF || page >= FIRST_FREE {
            return None;
        }
        Some(page - FIRST_LEAF)
    }

    /// A leaf that cools, counted from the first one.
    pub fn cooling(&self) -> Option<u32>
        ensures { IfSome result (λ leaf. leaf < 360) }
    {
        for frame in 0..FRAMES as usize {
            if let Some(leaf) = self.cooling_in(frame) {
                return Some(leaf);
            }
        }
        None
    }

    /// The first page of a key's way that is not hot comes. True: there is none. None: it does not come, or an earlier one did not.
    pub fn bring(&mut self, key: u64) -> Option<bool>
        requires stands { Stands self.old }
        requires key { key < 2 ^ 64 - 1 }
        ensures stands { Stands self.new }
    {
        if !self.works {
            return None;
        }
        match bring(
            &mut self.rows,
            &mut self.seat,
            &mut self.pager,
            &mut AreaOf::new(&mut self.disk, 1),
            1,
            key,
        ) {
            Ok(come) => Some(come.is_none()),
            Err(_) => {
                self.works = false;
                None
            }
        }
    }
}

// The rows that were opened.
fn rig_of(opened: Opened, disk: QuietDisk) -> Rig
    requires { HasOpened 32 1 1 untold untold opened }
    ensures { Stands result }
{
    let Opened {
        rows,
        seat,
        pager,
        free: _free,
        master: _master,
        winners: _,
        undone: _,
    } = opened;
    Rig {
        rows,
        seat,
        pager,
        disk,
        works: true,
    }
}
