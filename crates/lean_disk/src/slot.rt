// One area's place in a disk in memory.
ghost use Rattle.std.specs.Prelude.{◌≡◌, ◌≤◌, length, IfOk, OnErr, OnOk};
ghost use Rattle.lean_disk.specs.Area.{synced, written, torn};
ghost use Rattle.lean_disk.specs.Calls.{Within, Gave};
ghost use Rattle.lean_disk.specs.Memory.{area_now, begun, log_view, slot_view};
ghost use Rattle.lean_disk.specs.Replay.{last_number};
ghost use Rattle.lean_disk.specs.Crashed.{left_by};
ghost use Rattle.lean_disk.specs.Inside.Grown.{Grew};

use crate::crash::left_of;
use crate::{AreaLog, Call, Choice, Did, Read};
use std::alloc::{AllocError, Global};

#[derive(Drop)]
pub enum Slot {
    Here(AreaLog),
    /// It is split off.
    Out,
}

/// A call was not made: the area is split off, or there was no memory to keep the call.
#[derive(Drop)]
pub struct Refused;

impl Slot {
    pub fn is_here(&self) -> bool
        ensures { result ≡ (slot_view self.now).here }
    {
        match self {
            Slot::Here(_) => true,
            Slot::Out => false,
        }
    }

    pub fn set_fails(&mut self, list: Vec<u64>)
        ensures { slot_view self.new ≡ slot_view self.old }
    {
        match self {
            Slot::Here(log) => log.set_fails(list),
            Slot::Out => {}
        }
    }

    pub fn sync(&mut self, number: u64, notes: u64) -> Result<Did, Refused>
        requires { last_number (slot_view self.old).line ≤ number }
        ensures done { IfOk result (λ did. did ≡ Did.Done → Grew number notes synced (slot_view self.old) (slot_view self.new)) }
        ensures failed { IfOk result (λ did. did ≡ Did.Failed → Grew number notes (λ x. x) (slot_view self.old) (slot_view self.new)) }
        ensures refused { OnErr result (slot_view self.new ≡ slot_view self.old) }
    {
        match self {
            Slot::Here(log) => match log.sync(number, notes) {
                Ok(did) => Ok(did),
                Err(_) => Err(Refused),
            },
            Slot::Out => Err(Refused),
        }
    }

    pub fn write(
        &mut self,
        alloc: Global,
        number: u64,
        notes: u64,
        at: u64,
        bytes: &[u8],
    ) -> Result<Did, Refused>
        requires { last_number (slot_view self.old).line ≤ number }
        ensures done { IfOk result (λ did. did ≡ Did.Done → Grew number notes (written at bytes.now) (slot_view self.old) (slot_view self.new)) }
        ensures failed { IfOk result (λ did. did ≡ Did.Failed → Grew number notes (torn at bytes.now) (slot_view self.old) (slot_view self.new)) }
        ensures refused { OnErr result (slot_view self.new ≡ slot_view self.old) }
    {
        match self {
            Slot::Here(log) => match log.write(alloc, number, notes, at, bytes) {
                Ok(did) => Ok(did),
                Err(_) => Err(Refused),
            },
            Slot::Out => Err(Refused),
        }
    }

    pub fn read(
        &mut self,
        number: u64,
        notes: u64,
        at: u64,
        into: &mut [u8],
    ) -> Result<Read, Refused>
        requires { last_number (slot_view self.old).line ≤ number }
        ensures within { IfOk result (λ read. Within read (length into.old)) }
        ensures bytes { IfOk result (λ read. Gave at (area_now (slot_view self.old)).bytes into.old into.new read) }
        ensures grew { OnOk result (Grew number notes (λ x. x) (slot_view self.old) (slot_view self.new)) }
        ensures refused { OnErr result (slot_view self.new ≡ slot_view self.old) }
    {
        match self {
            Slot::Here(log) => match log.read(number, notes, at, into) {
                Ok(read) => Ok(read),
                Err(_) => Err(Refused),
            },
            Slot::Out => Err(Refused),
        }
    }

    /// The number of its last call.
    pub fn newest(&self) -> u64
        ensures { result ≡ last_number (slot_view self.now).line }
    {
        match self {
            Slot::Here(log) => log.newest(),
            Slot::Out => 0,
        }
    }

    /// The area as a crash at a moment leaves it, with no calls yet; none if it is split off.
    pub fn crashed(&self, alloc: Global, moment: u64, choice: Choice) -> Result<AreaLog, AllocError>
        ensures { IfOk result (λ log. log_view log ≡ begun (left_by choice moment (slot_view self.now))) }
    {
        match self {
            Slot::Here(log) => {
                let bytes = left_of(alloc, log, moment, choice)?;
                AreaLog::from_bytes(alloc, bytes)
            }
            Slot::Out => Ok(AreaLog::new(alloc)),
        }
    }

    /// The calls that were made; none if it is split off.
    pub fn calls(&self) -> &[Call]
        ensures { result.now ≡ (slot_view self.now).line }
    {
        match self {
            Slot::Here(log) => &log.calls,
            Slot::Out => &[],
        }
    }

    /// As a read gives them; none if it is split off.
    pub fn bytes(&self) -> &[u8]
        ensures { result.now ≡ (area_now (slot_view self.now)).bytes }
    {
        match self {
            Slot::Here(log) => &log.bytes,
            Slot::Out => &[],
        }
    }
}
