// One area in memory: its bytes, and each call that was made on it.
ghost use Rattle.std.specs.Prelude.{◌≡◌, ◌≤◌, List, ℕ, length, IfOk, OnErr, OnOk};
ghost use Rattle.std.proofs.Props.{props};
ghost use Rattle.lean_disk.specs.Area.{fresh, synced, written, torn};
ghost use Rattle.lean_disk.specs.Calls.{Within, Gave};
ghost use Rattle.lean_disk.specs.Replay.{replay, AreOrdered};

use crate::bytes::{copy_out, overwrite};
use crate::{Did, Read};
use std::alloc::{AllocError, Global};

/// A call, with its number among all calls of the disk and the notes before it.
#[derive(Drop)]
pub struct Call {
    pub number: u64,
    pub notes: u64,
    pub what: What,
}

/// What was called: where it failed, `done` is false.
#[derive(Drop)]
pub enum What {
    Looked,
    Wrote { at: u64, bytes: Vec<u8>, done: bool },
    Synced { done: bool },
}

/// An area: its first bytes, its bytes as a read gives them, its calls, the oldest first, and the numbers of the calls that are to fail.
#[derive(Drop)]
pub struct AreaLog {
    pub first: Vec<u8>,
    pub bytes: Vec<u8>,
    pub calls: Vec<Call>,
    pub fails: Vec<u64>,
    ghost kept: { (replay (fresh first.items) calls.items).bytes ≡ bytes.items },
    ghost ordered: { AreOrdered calls.items } by { Prim.hlevel props },
}

impl AreaLog {
    ghost use Rattle.lean_disk.specs.Memory.{log_view, area_now};
    ghost use Rattle.lean_disk.specs.Replay.{last_number};
    ghost use Rattle.lean_disk.specs.Inside.Grown.{Grew};

    pub fn new(alloc: Global) -> AreaLog
        ensures calls { result.calls.items ≡ List.[] }
        ensures first { result.first.items ≡ List.[] }
    {
        AreaLog {
            first: Vec::new(alloc),
            bytes: Vec::new(alloc),
            calls: Vec::new(alloc),
            fails: Vec::new(alloc),
        }
    }

    pub fn from_bytes(alloc: Global, bytes: Vec<u8>) -> Result<AreaLog, AllocError>
        ensures calls { IfOk result (λ log. log.calls.items ≡ List.[]) }
        ensures first { IfOk result (λ log. log.first.items ≡ bytes.items) }
    {
        let first = bytes.to_vec(alloc)?;
        Ok(AreaLog {
            first,
            bytes,
            calls: Vec::new(alloc),
            fails: Vec::new(alloc),
        })
    }

    /// The numbers of the calls that are to fail, from 1.
    pub fn set_fails(&mut self, list: Vec<u64>)
        ensures { log_view self.new ≡ log_view self.old }
    {
        self.fails = list;
    }

    fn fails_next(&self) -> bool {
        self.fails.contains(&(self.calls.len() as u64 + 1))
    }

    pub fn sync(&mut self, number: u64, notes: u64) -> Result<Did, AllocError>
        requires { last_number self.old.calls.items ≤ number }
        ensures done { IfOk result (λ did. did ≡ Did.Done → Grew number notes synced (log_view self.old) (log_view self.new)) }
        ensures failed { IfOk result (λ did. did ≡ Did.Failed → Grew number notes (λ x. x) (log_view self.old) (log_view self.new)) }
        ensures refused { OnErr result (log_view self.new ≡ log_view self.old) }
    {
        let done = !self.fails_next();
        let what = What::Synced { done };
        match self.calls.push(Call {
            number,
            notes,
            what,
        }) {
            Ok(()) => Ok(if done { Did::Done } else { Did::Failed }),
            Err(_) => Err(AllocError),
        }
    }

    /// All memory is reserved before anything changes.
    pub fn write(
        &mut self,
        alloc: Global,
        number: u64,
        notes: u64,
        at: u64,
        bytes: &[u8],
    ) -> Result<Did, AllocError>
        requires { last_number self.old.calls.items ≤ number }
        ensures done { IfOk result (λ did. did ≡ Did.Done → Grew number notes (written at bytes.now) (log_view self.old) (log_view self.new)) }
        ensures failed { IfOk result (λ did. did ≡ Did.Failed → Grew number notes (torn at bytes.now) (log_view self.old) (log_view self.new)) }
        ensures refused { OnErr result (log_view self.new ≡ log_view self.old) }
    {
        let done = !self.fails_next();
        let copy = bytes.to_vec(alloc)?;
        self.calls.reserve(1)?;
        if done {
            overwrite(&mut self.bytes, at as usize, bytes)?;
            let what = What::Wrote {
                at,
                bytes: copy,
                done: true,
            };
            self.calls.push_reserved(Call {
                number,
                notes,
                what,
            });
            return Ok(Did::Done);
        }
        let what = What::Wrote {
            at,
            bytes: copy,
            done: false,
        };
        self.calls.push_reserved(Call {
            number,
            notes,
            what,
        });
        Ok(Did::Failed)
    }

    pub fn read(
        &mut self,
        number: u64,
        notes: u64,
        at: u64,
        into: &mut [u8],
    ) -> Result<Read, AllocError>
        requires { last_number self.old.calls.items ≤ number }
        ensures within { IfOk result (λ read. Within read (length into.old)) }
        ensures bytes { IfOk result (λ read. Gave at (area_now (log_view self.old)).bytes into.old into.new read) }
        ensures grew { OnOk result (Grew number notes (λ x. x) (log_view self.old) (log_view self.new)) }
        ensures refused { OnErr result (log_view self.new ≡ log_view self.old) }
    {
        let done = !self.fails_next();
        match self.calls.push(Call {
            number,
            notes,
            what: What::Looked,
        }) {
            Ok(()) => Ok(if done {
                Read::Got(copy_out(&self.bytes, at as usize, into))
            } else {
                Read::Failed
            }),
            Err(_) => Err(AllocError),
        }
    }

    /// The number of its last call.
    pub fn newest(&self) -> u64
        ensures { result ≡ last_number self.now.calls.items }
    {
        let count = self.calls.len();
        if count == 0 {
            return 0;
        }
        self.calls[count - 1].number
    }
}
