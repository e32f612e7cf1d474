// The calls of the one session over a quiet disk, each of which leaves a machine that works as it is between two calls.
ghost use Rattle.std.specs.Prelude.{◌≡◌, ◌<◌, ◌≤◌, ◌-◌, ◌^◌};
ghost use Rattle.page_model.specs.Limits.{tombstone};
ghost use Rattle.paged_calls.specs.paged_desks.Calls.{works_behind};

use lean_disk::MemDisk;
use paged_calls::{Machine, PagedMachine, Unserved, Work};
use paged_engine::{Opened, Size, Unopened, open};
use quiet_disk::QuietDisk;
use std::alloc::Global;
use std::marker::Model;

/// How many lock rows there are.
const ROWS: u32 = 4096;

// Behind the control words each frame has so many words: its latch, those of the page, the hint, and the number that was saved.
const CONTROLS: usize = 6;

const WIDTH: usize = 129;

/// A machine with its pager. Its value is whether it works.
pub struct Engine {
    machine: PagedMachine<QuietDisk>,
}

impl Model for Engine {
    ghost use Rattle.std.specs.Prelude.{Bool};
    ghost use Rattle.disk_file.specs.Untold.{untold};
    ghost use Rattle.paged_calls.specs.paged_desks.Machines.{IsReady};
    ghost use Rattle.paged_calls.specs.session_desks.Parts.{Works};

    ghost Value = { Bool };

    ghost view = { λ e. e.machine.machine.work.session.works };

    ghost invariant = { λ e. Works e.machine.machine → IsReady (λ d. untold) e.machine };
}

impl Engine {
    /// One on this disk, with so many frames, which flushes so many commits at once. None: it was not opened.
    pub fn open(alloc: Global, disk: MemDisk, frames: u32, group: u32) -> Option<Engine>
        requires frames { (32 ≤ frames) × (frames ≤ 4096) }
        requires group { 1 ≤ group }
    {
        let size = Size {
            frames,
            rows: ROWS,
            group,
            sessions: 1,
        };
        match open(alloc, QuietDisk::new(disk), size) {
            Ok(
                Opened {
                    machine,
                    winners: _,
                    undone: _,
                },
            ) => Some(Engine { machine }),
            Err(
                Unopened {
                    disk: _disk,
                    reason: _,
                },
            ) => None,
        }
    }

    /// The number of a transaction that begins, behind a sync if one is due.
    pub fn begin(&mut self, is_long: bool) -> Result<u64, Unserved>
        ensures { self.new ≡ works_behind result }
    {
        paged_ends::begin(&mut self.machine, is_long)
    }

    /// The number of the end.
    pub fn commit(&mut self) -> Result<u64, Unserved>
        ensures { self.new ≡ works_behind result }
    {
        match paged_ends::commit(&mut self.machine) {
            Ok(ended) => Ok(ended.at),
            Err(why) => Err(why),
        }
    }

    pub fn sync(&mut self) -> Result<u64, Unserved>
        ensures { self.new ≡ works_behind result }
    {
        paged_ends::sync(&mut self.machine)
    }

    pub fn get(&mut self, key: u64) -> Result<Option<u64>, Unserved>
        requires { key < 2 ^ 64 - 1 }
        ensures { self.new ≡ works_behind result }
    {
        paged_calls::get(&mut self.machine, key)
    }

    pub fn put(&mut self, key: u64, value: u64) -> Result<Option<u64>, Unserved>
        requires key { key < 2 ^ 64 - 1 }
        requires value { value < tombstone }
        ensures { self.new ≡ works_behind result }
    {
        paged_calls::put(&mut self.machine, key, value)
    }

    pub fn del(&mut self, key: u64) -> Result<Option<u64>, Unserved>
        requires { key < 2 ^ 64 - 1 }
        ensures { self.new ≡ works_behind result }
    {
        paged_calls::del(&mut self.machine, key)
    }

    /// Whether the pages of a key's way came into frames.
    pub fn warm(&mut self, key: u64) -> bool
        requires { key < 2 ^ 64 - 1 }
    {
        if !self.machine.machine.work.session.works {
            return false;
        }
        self.machine.warm(key).is_ok()
    }

    /// A word of the row of a frame.
    pub fn word(&self, frame: u32, at: u32) -> u64 {
        let place = CONTROLS + WIDTH * frame as usize + at as usize;
        let words = &self.machine.machine.rows.words;
        words.get(place).copied().unwrap_or(0)
    }

    /// Up to which number the log is flushed.
    pub fn flushed(&self) -> u64 {
        let words = &self.machine.machine.rows.words;
        words.get(2).copied().unwrap_or(0)
    }

    /// How many commits wait for a flush.
    pub fn waiting(&self) -> u32 {
        self.machine.machine.work.session.unflushed
    }

    pub fn disk(&self) -> &MemDisk {
        &self.machine.machine.work.disk.disk
    }

    /// It is let go.
    pub fn close(self) {
        let Engine { machine } = self;
        let PagedMachine {
            machine,
            pager: _pager,
        } = machine;
        let Machine {
            rows: _rows,
            seat: _seat,
            work,
            desks: _desks,
            latches: _latches,
            master: _master,
        } = machine;
        let Work {
            disk: _disk,
            log: _log,
            session: _session,
            staged: _staged,
        } = work;
    }
}
