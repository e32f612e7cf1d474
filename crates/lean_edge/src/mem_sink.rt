// A sink in memory.
ghost use Rattle.std.specs.Prelude.{◌≡◌, ◌⊎◌, ◌++◌, [], ℕ, true, take, length};
ghost use Rattle.lean_edge.specs.Outside.{Held, Puts};
ghost use Rattle.lean_edge.specs.Memory.{Holds, no_calls};
ghost use Rattle.lean_disk.specs.Calls.{Noted};
ghost use Rattle.lean_disk.specs.Faults.{HasCause};

use crate::calls::Calls;
use crate::{Put, Sink};
use lean_disk::Disk;
use std::alloc::Global;
use std::marker::Model;

/// A sink in memory. It holds what is put, and fails at the calls that it was told to, and where
/// memory is refused.
#[derive(Debug, Drop)]
pub struct MemSink {
    bytes: Vec<u8>,
    prefix: usize,
    calls: Calls,
}

impl Model for MemSink {
    ghost use Rattle.lean_edge.specs.Memory.{Store};

    ghost Value = { Store };

    ghost view = { λ s. record { bytes = s.bytes.items; prefix = s.prefix; calls = s.calls } };
}

impl MemSink {
    /// An empty sink.
    pub fn new(alloc: Global) -> MemSink
        ensures { result ≡ record { bytes = []; prefix = 0; calls = no_calls } }
    {
        MemSink {
            bytes: Vec::new(alloc),
            prefix: 0,
            calls: Calls::new(alloc),
        }
    }

    /// The calls with these numbers, from 1, fail.
    pub fn fail_at(&mut self, list: Vec<u64>)
        ensures { self.new ≡ record self.old { calls = record self.old.calls { failing = list.items } } }
    {
        self.calls.fail_at(list);
    }

    /// A call that fails holds so many bytes of its piece, or all of a shorter one.
    pub fn keep_prefix(&mut self, count: usize)
        ensures { self.new ≡ record self.old { prefix = count } }
    {
        self.prefix = count;
    }

    /// What it holds.
    pub fn bytes(&self) -> &[u8]
        ensures { result.now ≡ self.now.bytes }
    {
        &self.bytes
    }
}

impl<D: Disk> Sink<D> for MemSink {
    ghost held = { λ s. record { tells = true; bytes = s.bytes } };

    ghost faults = { λ s. s.calls.faults };

    fn put(&mut self, disk: &mut D, bytes: &[u8]) -> Put
        ensures put { Puts bytes.now result
            (record { tells = true; bytes = self.old.bytes }) (record { tells = true; bytes = self.new.bytes }) }

        ensures noted { result ≡ Put.Done → Noted (D.story disk.old) (D.story disk.new) }
        ensures not_noted { result ≡ Put.Failed → disk.new ≡ disk.old }
        ensures same { D.faults disk.new ≡ D.faults disk.old }

        ensures cause { HasCause self.old.calls.faults self.new.calls.faults (result ≡ Put.Failed) }
        ensures holds { Holds bytes.now result self.old self.new }
    {
        if self.calls.is_to_fail() {
            self.calls.fail();
            hold_prefix(&mut self.bytes, self.prefix, bytes);
            return Put::Failed;
        }
        let Ok(()) = self.bytes.extend_from_slice(bytes) else {
            self.calls.fail();
            return Put::Failed;
        };
        self.calls.pass();
        disk.note();
        Put::Done
    }
}

// Holds the prefix of a piece, or nothing where memory is refused.
fn hold_prefix(held: &mut Vec<u8>, prefix: usize, bytes: &[u8])
    ensures { (held.new.items ≡ held.old.items) ⊎ (held.new.items ≡ held.old.items ++ take prefix bytes.now) }
{
    let count = prefix.min(bytes.len());
    let _ = held.extend_from_slice(&bytes[..count]);
}
