// A log that one worker writes.
ghost use Rattle.std.specs.Prelude.{◌≡◌, ◌≤◌, ◌<◌, ◌+◌, ◌-◌, ◌*◌, ◌%◌, ◌^◌, ◌↔◌, ◌++◌, ◌∷◌, ℕ, List, [], length, Err, IfOk, IfErr, IsErr, IsErrAnd, OnOk};
ghost use Rattle.lean_disk.specs.Area.{Area};
ghost use Rattle.lean_disk.specs.Calls.{Synced, Wrote};
ghost use Rattle.lean_disk.specs.Faults.{HasCause};
ghost use Rattle.lean_disk.specs.Moments.{CrashIn, Framed, LeavesOnly};
ghost use Rattle.lean_disk.specs.Story.{Tells};
ghost use Rattle.disk_image.specs.log_record.Spelling.{Fits, record_text};
ghost use Rattle.disk_image.specs.log_block.Block.{block_text, records_text};
ghost use Rattle.worker_log.specs.Logs.{Log, limit, passed_by, used};
ghost use Rattle.worker_log.specs.Kept.{IsInRange, IsFresh, IsKept, LeavesBlocks, StagesTo, closed, cut, fresh_account, flushed as flushed_account};
ghost use Rattle.worker_log.specs.Calls.{After, HasRoom, cut_log, flushed_log};
ghost use Rattle.worker_log.specs.Accounts.{Account};

use crate::ends::{drop_ends, new_ends, passed, push_end};
use circular_buffer::HeapCircularBuffer;
use disk_image::{BLOCK, PAYLOAD, Record, block_bytes, record_bytes, record_size};
use lean_disk::{Did, Part};
use std::alloc::{AllocError, Global};
use std::marker::Model;

/// How many blocks changes leave to the ends of transactions.
pub const RESERVE: u32 = 16;

/// The disk answered no. The log is not used again.
#[derive(Clone, Copy, Debug, PartialEq, Eq)]
pub struct DiskFault;

/// Why a record was not staged.
#[derive(Clone, Copy, Debug, PartialEq, Eq)]
pub enum Staging {
    /// So many blocks are used, and no change may use more.
    LogFull { used: u32, limit: u32 },
    DiskFault,
}

/// A log in memory: the block in hand, and where it will stand in the ring. The buffers are reserved when it is made:
/// `payload` holds `size` bytes of `count` records, and a block is spelled in `block` before it is written.
#[derive(Drop)]
pub struct WorkerLog {
    generation: u64,
    log: u32,
    blocks: u32,
    head: u64,
    next: u64,
    payload: Vec<u8>,
    size: usize,
    count: u32,
    last: u64,
    flushed: u64,
    ends: HeapCircularBuffer<u64>,
    block: Vec<u8>,
}

impl Model for WorkerLog {
    ghost use Rattle.std.specs.Prelude.{◌≡◌, ◌≤◌, take, vec_len};
    ghost use Rattle.worker_log.specs.Logs.{Log};
    ghost use Rattle.worker_log.specs.Inside.{IsSized};

    ghost Value = { Log };

    ghost view = { λ s. record { generation = s.generation; log = s.log; blocks = s.blocks; head = s.head; next = s.next; payload = take s.size s.payload.items; count = s.count; last = s.last; flushed = s.flushed; ends = s.ends.items } };

    ghost invariant = { λ s. record {
      sized : IsSized (record { generation = s.generation; log = s.log; blocks = s.blocks; head = s.head; next = s.next; payload = take s.size s.payload.items; count = s.count; last = s.last; flushed = s.flushed; ends = s.ends.items });
      filled : s.size ≤ 2000;
      payload_room : vec_len s.payload ≡ 2000;
      block_room : vec_len s.block ≡ 2048;
      ends_room : s.ends.capacity ≡ s.blocks;
    } };
}

impl WorkerLog {
    ghost use Rattle.worker_log.specs.Causes.{IsFull, IsLogFull, TellsCounts};
    ghost use Rattle.worker_log.specs.Inside.{closed_log};

    /// A log of this number, whose first block is block `head` of a ring of so many.
    pub fn new(
        alloc: Global,
        generation: u64,
        log: u32,
        blocks: u32,
        head: u64,
        flushed: u64,
    ) -> Result<WorkerLog, AllocError>
        requires number { (1 ≤ log) × (log ≤ 16) }
        requires some { (64 ≤ blocks) × (blocks ≤ 4096) }
        requires head { head < 2 ^ 63 }
        ensures log { IfOk result (λ it. it ≡ record { generation = generation; log = log; blocks = blocks; head = head; next = head; payload = []; count = 0; last = flushed; flushed = flushed; ends = [] }) }
        ensures ranges { IfOk result IsInRange }
        ensures starts { IfOk result (λ it. (area : Area) → IsFresh it area → IsKept (fresh_account area) it area) }
    {
        let payload = vec![in alloc; 0; PAYLOAD]?;
        let ends = new_ends(alloc, blocks)?;
        let block = vec![in alloc; 0; BLOCK]?;
        Ok(WorkerLog::with_buffers(generation, log, blocks, head, flushed, payload, ends, block))
    }

    // It has these buffers.
    fn with_buffers(
        generation: u64,
        log: u32,
        blocks: u32,
        head: u64,
        flushed: u64,
        payload: Vec<u8>,
        ends: HeapCircularBuffer<u64>,
        block: Vec<u8>,
    ) -> WorkerLog
        requires number { (1 ≤ log) × (log ≤ 16) }
        requires some { (64 ≤ blocks) × (blocks ≤ 4096) }
        requires head { head < 2 ^ 63 }
        requires payload { length payload.items ≡ 2000 }
        requires ends { (ends.items ≡ []) × (ends.capacity ≡ blocks) }
        requires block { length block.items ≡ 2048 }
        ensures log { result ≡ record { generation = generation; log = log; blocks = blocks; head = head; next = head; payload = []; count = 0; last = flushed; flushed = flushed; ends = [] } }
        ensures ranges { IsInRange result }
        ensures starts { (area : Area) → IsFresh result area → IsKept (fresh_account area) result area }
    {
        WorkerLog {
            generation,
            log,
            blocks,
            head,
            next: head,
            payload,
            size: 0,
            count: 0,
            last: flushed,
            flushed,
            ends,
            block,
        }
    }

    /// How many blocks of the ring it uses.
    pub fn used(&self) -> u32
        ensures { result ≡ used self.now }
    {
        let written = (self.next - self.head) as u32;
        if self.count > 0 { written + 1 } else { written }
    }

    /// How many changes may use.
    pub fn limit(&self) -> u32
        ensures { result ≡ limit self.now }
    {
        self.blocks - RESERVE
    }

    /// The first block of the run.
    pub fn head(&self) -> u64
        ensures { result ≡ self.now.head }
    {
        self.head
    }

    /// The number of the block in hand.
    pub fn next(&self) -> u64
        ensures { result ≡ self.now.next }
    {
        self.next
    }

    /// The number of the last record.
    pub fn last(&self) -> u64
        ensures answer { result ≡ self.now.last }
        ensures ranges { IsInRange self.now }
        ensures order { self.now.head ≤ self.now.next }
    {
        self.last
    }

    /// The number up to which it is flushed.
    pub fn flushed(&self) -> u64
        ensures { result ≡ self.now.flushed }
    {
        self.flushed
    }

    /// Whether a change may be staged.
    pub fn room(&self) -> Result<(), Staging>
        ensures told { IfErr result (TellsCounts self.now) }

        ensures cause_log_full { IsErrAnd result IsLogFull ↔ IsFull self.now }
        ensures no_disk_fault { result ≡ Err Staging.DiskFault → ⊥ }
    {
        let used = self.used();
        let limit = self.limit();
        if limit <= used {
            return Err(Staging::LogFull { used, limit });
        }
        Ok(())
    }

    /// Puts the record of a change into the block in hand. Where it does not fit there, the block is written and the
    /// record begins the next one.
    pub fn stage<P: Part>(&mut self, dev: &mut P, entry: &Record) -> Result<(), Staging>
        requires fits { Fits entry.now }
        requires rises { self.old.last < entry.now.gsn }
        ensures told { IfErr result (TellsCounts self.old) }
        ensures ranges { IsInRange self.new }
        ensures log { OnOk result (After entry.now self.old self.new) }
        ensures same_log { IsErrAnd result IsLogFull → self.new ≡ self.old }
        ensures failed { result ≡ Err Staging.DiskFault → self.new ≡ self.old }
        ensures same_device { IsErrAnd result IsLogFull → dev.new ≡ dev.old }
        ensures kept { OnOk result ((x : Account) → Tells (P.story dev.new) (P.seat dev.old).area → IsKept x self.old ((P.story dev.old).area (P.seat dev.old).area)
            → StagesTo entry.now x self.old self.new ((P.story dev.new).area (P.seat dev.old).area)) }
        ensures any_moment { (x : Account) → (Tells (P.story dev.old) (P.seat dev.old).area → IsKept x self.old ((P.story dev.old).area (P.seat dev.old).area))
            → LeavesOnly (P.story dev.old) (P.story dev.new) (CrashIn (P.story dev.old) (P.seat dev.old).area (LeavesBlocks x self.old)) }
        ensures frame { Framed (P.seat dev.old).area (P.story dev.old) (P.story dev.new) }
        ensures seat { P.seat dev.new ≡ P.seat dev.old }

        ensures cause_log_full { IsErrAnd result IsLogFull ↔ IsFull self.old }
        ensures cause_disk_fault { HasCause (P.faults dev.old) (P.faults dev.new) (result ≡ Err Staging.DiskFault) }
    {
        // What holds of each log is used where it is full.
        let _ = &self.blocks;
        self.room()?;
        match self.stage_end(dev, entry) {
            Ok(()) => Ok(()),
            Err(_) => Err(Staging::DiskFault),
        }
    }

    /// Puts the record of an end into the block in hand, and uses the blocks that are kept back.
    pub fn stage_end<P: Part>(&mut self, dev: &mut P, entry: &Record) -> Result<(), DiskFault>
        requires fits { Fits entry.now }
        requires rises { self.old.last < entry.now.gsn }
        requires room { used self.old + 1 ≤ self.old.blocks }
        ensures ranges { IsInRange self.new }
        ensures log { OnOk result (After entry.now self.old self.new) }
        ensures kept { OnOk result ((x : Account) → Tells (P.story dev.new) (P.seat dev.old).area → IsKept x self.old ((P.story dev.old).area (P.seat dev.old).area)
            → StagesTo entry.now x self.old self.new ((P.story dev.new).area (P.seat dev.old).area)) }
        ensures any_moment { (x : Account) → (Tells (P.story dev.old) (P.seat dev.old).area → IsKept x self.old ((P.story dev.old).area (P.seat dev.old).area))
            → LeavesOnly (P.story dev.old) (P.story dev.new) (CrashIn (P.story dev.old) (P.seat dev.old).area (LeavesBlocks x self.old)) }
        ensures frame { Framed (P.seat dev.old).area (P.story dev.old) (P.story dev.new) }
        ensures failed { IsErr result → self.new ≡ self.old }
        ensures seat { P.seat dev.new ≡ P.seat dev.old }

        ensures cause_disk_fault { HasCause (P.faults dev.old) (P.faults dev.new) (IsErr result) }
    {
        if self.size + record_size(entry) <= PAYLOAD {
            self.put_record(entry);
            return Ok(());
        }
        self.close_block(dev)?;
        self.put_record(entry);
        Ok(())
    }

    /// Writes the block in hand if it holds a record, and syncs what is not synced. The answer is the number up to which
    /// the log is flushed then.
    pub fn flush<P: Part>(&mut self, dev: &mut P) -> Result<u64, DiskFault>
        ensures answer { IfOk result (λ number. number ≡ self.old.last) }
        ensures ranges { IsInRange self.new }
        ensures log { OnOk result (self.new ≡ flushed_log self.old) }
        ensures same_device { self.old.last ≡ self.old.flushed → dev.new ≡ dev.old }
        ensures kept { OnOk result ((x : Account) → Tells (P.story dev.new) (P.seat dev.old).area → IsKept x self.old ((P.story dev.old).area (P.seat dev.old).area)
            → IsKept (flushed_account x) self.new ((P.story dev.new).area (P.seat dev.old).area)) }
        ensures any_moment { (x : Account) → (Tells (P.story dev.old) (P.seat dev.old).area → IsKept x self.old ((P.story dev.old).area (P.seat dev.old).area))
            → LeavesOnly (P.story dev.old) (P.story dev.new) (CrashIn (P.story dev.old) (P.seat dev.old).area (LeavesBlocks x self.old)) }
        ensures frame { Framed (P.seat dev.old).area (P.story dev.old) (P.story dev.new) }
        ensures seat { P.seat dev.new ≡ P.seat dev.old }

        ensures cause_disk_fault { HasCause (P.faults dev.old) (P.faults dev.new) (IsErr result) }
    {
        if self.last == self.flushed {
            return Ok(self.last);
        }
        self.close_block(dev)?;
        let last = self.last;
        let Did::Done = dev.sync() else {
            return Err(DiskFault);
        };
        self.flushed = last;
        Ok(last)
    }

    /// The head passes the blocks before this one, whose places may then be written again.
    pub fn pass(&mut self, head: u64)
        requires from { self.old.head ≤ head }
        requires to { head ≤ self.old.next }
        requires low { head < 2 ^ 63 }
        ensures ranges { IsInRange self.new }
        ensures log { self.new ≡ cut_log (head - self.old.head) self.old }
        ensures kept { (x : Account) (area : Area) → head - self.old.head ≤ x.synced → IsKept x self.old area → IsKept (cut (head - self.old.head) x) self.new area }
    {
        drop_ends(&mut self.ends, head - self.head);
        self.head = head;
    }

    /// The first block with a record above this number; the block in hand where no written one has such.
    pub fn head_above(&self, number: u64) -> u64
        ensures answer { result ≡ self.now.head + passed_by number self.now.ends }
        ensures order { (self.now.head ≤ result) × (result ≤ self.now.next) }
    {
        self.head + passed(&self.ends, number)
    }

    /// Its clock and the number up to which it is flushed become the number of a sync, where nothing is new since the
    /// last flush.
    pub fn mark(&mut self, number: u64)
        requires flushed { self.old.flushed ≡ self.old.last }
        requires rises { self.old.last ≤ number }
        ensures ranges { IsInRange self.new }
        ensures log { self.new ≡ record self.old { last = number; flushed = number } }
        ensures kept { (x : Account) (area : Area) → IsKept x self.old area → IsKept x self.new area }
    {
        self.last = number;
        self.flushed = number;
    }

    /// The number up to which it was flushed.
    pub fn close(self) -> u64
        ensures { result ≡ self.flushed }
    {
        self.flushed
    }

    // Writes the block in hand, if it holds a record. The next block is in hand then.
    fn close_block<P: Part>(&mut self, dev: &mut P) -> Result<(), DiskFault>
        ensures ranges { IsInRange self.new }
        ensures log { OnOk result (self.new ≡ closed_log self.old) }
        ensures kept { OnOk result ((x : Account) → Tells (P.story dev.new) (P.seat dev.old).area → IsKept x self.old ((P.story dev.old).area (P.seat dev.old).area)
            → IsKept (closed x) self.new ((P.story dev.new).area (P.seat dev.old).area)) }
        ensures any_moment { (x : Account) → (Tells (P.story dev.old) (P.seat dev.old).area → IsKept x self.old ((P.story dev.old).area (P.seat dev.old).area))
            → LeavesOnly (P.story dev.old) (P.story dev.new) (CrashIn (P.story dev.old) (P.seat dev.old).area (LeavesBlocks x self.old)) }
        ensures frame { Framed (P.seat dev.old).area (P.story dev.old) (P.story dev.new) }
        ensures failed { IsErr result → self.new ≡ self.old }
        ensures seat { P.seat dev.new ≡ P.seat dev.old }

        ensures cause_disk_fault { HasCause (P.faults dev.old) (P.faults dev.new) (IsErr result) }
    {
        if self.count == 0 {
            return Ok(());
        }
        match self.write_block(dev) {
            Did::Done => {
                push_end(&mut self.ends, self.last);
                self.next += 1;
                self.size = 0;
                self.count = 0;
                Ok(())
            }
            Did::Failed => Err(DiskFault),
        }
    }

    // Writes the block in hand at its place.
    fn write_block<P: Part>(&mut self, dev: &mut P) -> Did
        ensures same { self.new ≡ self.old }
        ensures wrote { Wrote (P.seat dev.old).area (2048 * (self.old.next % self.old.blocks))
            (block_text self.old.generation self.old.log self.old.next self.old.count self.old.payload) result (P.story dev.old) (P.story dev.new) }
        ensures seat { P.seat dev.new ≡ P.seat dev.old }

        ensures cause { HasCause (P.faults dev.old) (P.faults dev.new) (result ≡ Did.Failed) }
    {
        block_bytes(
            self.generation,
            self.log,
            self.next,
            self.count,
            &self.payload[..self.size],
            &mut self.block,
        );
        dev.write(BLOCK as u64 * (self.next % self.blocks as u64), &self.block)
    }

    // Copies a record that fits behind those in the block in hand.
    fn put_record(&mut self, entry: &Record)
        requires fits { Fits entry.now }
        requires rises { self.old.last < entry.now.gsn }
        requires few { used self.old + 1 ≤ self.old.blocks }
        requires room { HasRoom self.old entry.now }
        ensures { self.new ≡ record self.old { payload = self.old.payload ++ records_text (entry.now ∷ []); count = self.old.count + 1; last = entry.now.gsn } }
    {
        let size = record_bytes(entry, &mut self.payload[self.size..]);
        self.size += size;
        self.count += 1;
        self.last = entry.gsn;
    }
}
