// A sink that tells when each line went out.
ghost use Rattle.lean_disk.specs.Calls.{Noted};
ghost use Rattle.lean_disk.specs.Faults.{HasCause};
ghost use Rattle.lean_shell.specs.lean_edge.Outside.{Puts};

use lean_disk::MemDisk;
use lean_shell::{MemSink, Put, Sink};
use std::alloc::Global;

/// A sink in memory, and the moment of the disk behind each line. A line whose moment finds no memory has none.
#[derive(Drop)]
pub(crate) struct TimedSink {
    pub sink: MemSink,
    pub moments: Vec<u64>,
}

impl TimedSink {
    pub(crate) fn new(alloc: Global) -> TimedSink {
        TimedSink {
            sink: MemSink::new(alloc),
            moments: Vec::new(alloc),
        }
    }
}

impl Sink<MemDisk> for TimedSink {
    ghost use Rattle.std.specs.Prelude.{true};

    ghost held = { λ s. record { tells = true; bytes = s.sink.bytes } };

    ghost faults = { λ s. s.sink.calls.faults };

    fn put(&mut self, disk: &mut MemDisk, bytes: &[u8]) -> Put {
        let put = self.sink.put(disk, bytes);
        let _ = self.moments.push(disk.moment());
        put
    }
}
