// Standard input, or another reader, as a source.
ghost use Rattle.std.specs.Prelude.{◌≡◌, ◌≤◌, ◌<◌, [], false, length, take, IfOk, OnErr, OnOk};
ghost use Rattle.std.specs.Io.KnownBytes.{Consumes, IsAtEnd, Keeps};
ghost use Rattle.lean_disk.specs.Faults.{HasCause};
ghost use Rattle.lean_edge.specs.Outside.{Took};
ghost use Rattle.lean_edge.specs.Streams.{Reads};

use crate::{Next, Source};
use std::io;
use std::io::{ErrorKind, Read};
use std::marker::Model;

/// A reader as a source, as `StdSource::new(rt.stdin())`. Under the trait it tells nothing of what is left.
#[derive(Drop)]
pub struct StdSource<R: Read + Drop> {
    reader: R,
    is_at_end: bool,
    faults: u64,
}

impl<R: Read + Drop> Model for StdSource<R> {
    ghost use Rattle.std.specs.Prelude.{IsTrue};
    ghost use Rattle.std.specs.Io.KnownBytes.{IsAtEnd};
    ghost use Rattle.lean_edge.specs.Streams.{Stream};

    ghost Value = { Stream };

    ghost view = { λ s. record { known = R.remaining s.reader; faults = s.faults } };

    ghost invariant = { λ s. IsTrue s.is_at_end → IsAtEnd (R.remaining s.reader) };
}

impl<R: Read + Drop> StdSource<R> {
    /// A source of what the reader has left.
    pub fn new(reader: R) -> StdSource<R>
        ensures { result ≡ record { known = R.remaining reader; faults = 0 } }
    {
        StdSource {
            reader,
            is_at_end: false,
            faults: 0,
        }
    }
}

impl<R: Read + Drop> Source for StdSource<R> {
    ghost feed = { λ _. record { tells = false; left = [] } };

    ghost faults = { λ s. s.faults };

    fn next(&mut self, into: &mut [u8]) -> Next
        ensures took { Took (length into.old) into.new result
            (record { tells = false; left = [] }) (record { tells = false; left = [] }) }
        ensures cause { HasCause self.old.faults self.new.faults (result ≡ Next.Failed) }
        ensures reads { Reads into.new result self.old self.new }
    {
        if into.is_empty() {
            return Next::Got(0);
        }
        if self.is_at_end {
            return Next::End;
        }
        match read_some(&mut self.reader, into) {
            Ok(0) => {
                self.is_at_end = true;
                Next::End
            }
            Ok(count) => Next::Got(count),
            Err(_) => {
                self.faults = self.faults.saturating_add(1);
                Next::Failed
            }
        }
    }
}

// Reads once, and again where a signal interrupts it.
fn read_some<R: Read>(reader: &mut R, into: &mut [u8]) -> io::Result<usize>
    ensures room { IfOk result (λ count. count ≤ length into.old) }
    ensures gives { IfOk result (λ count. Consumes (R.remaining reader.old) (R.remaining reader.new) (take count into.new)) }
    ensures end { IfOk result (λ count. count ≡ 0 → 0 < length into.old → IsAtEnd (R.remaining reader.new)) }
    ensures keeps { OnErr result (Keeps (R.remaining reader.old) (R.remaining reader.new)) }
{
    for _ in 0..u64::MAX {
        match reader.read(into) {
            Err(error) if error.kind() == ErrorKind::Interrupted => {}
            answer => return answer,
        }
    }
    Err(io::Error::from(ErrorKind::Interrupted))
}
