// Standard output, or another writer, as a sink.
ghost use Rattle.std.specs.Prelude.{◌≡◌, ℕ, [], false, take, OnErr, OnOk};
ghost use Rattle.std.specs.Io.KnownBytes.{Appends};
ghost use Rattle.lean_disk.specs.Calls.{Noted};
ghost use Rattle.lean_disk.specs.Faults.{HasCause};
ghost use Rattle.lean_edge.specs.Outside.{Puts};
ghost use Rattle.lean_edge.specs.Streams.{Writes};

use crate::{Put, Sink};
use lean_disk::Disk;
use std::io;
use std::io::{ErrorKind, Write};
use std::marker::Model;

/// A writer as a sink, as `StdSink::new(rt.stdout())`. Under the trait it tells nothing of what it holds.
/// Each piece is out when `put` has answered Done: it is written at once, by one call where the system
/// takes it whole.
#[derive(Drop)]
pub struct StdSink<W: Write + Drop> {
    writer: W,
    faults: u64,
}

impl<W: Write + Drop> Model for StdSink<W> {
    ghost use Rattle.lean_edge.specs.Streams.{Stream};

    ghost Value = { Stream };

    ghost view = { λ s. record { known = W.contents s.writer; faults = s.faults } };
}

impl<W: Write + Drop> StdSink<W> {
    /// A sink that puts to the writer.
    pub fn new(writer: W) -> StdSink<W>
        ensures { result ≡ record { known = W.contents writer; faults = 0 } }
    {
        StdSink { writer, faults: 0 }
    }
}

impl<D: Disk, W: Write + Drop> Sink<D> for StdSink<W> {
    ghost held = { λ _. record { tells = false; bytes = [] } };

    ghost faults = { λ s. s.faults };

    fn put(&mut self, disk: &mut D, bytes: &[u8]) -> Put
        ensures put { Puts bytes.now result
            (record { tells = false; bytes = [] }) (record { tells = false; bytes = [] }) }

        ensures noted { result ≡ Put.Done → Noted (D.story disk.old) (D.story disk.new) }
        ensures not_noted { result ≡ Put.Failed → disk.new ≡ disk.old }
        ensures same { D.faults disk.new ≡ D.faults disk.old }

        ensures cause { HasCause self.old.faults self.new.faults (result ≡ Put.Failed) }
        ensures writes { Writes bytes.now result self.old self.new }
    {
        let Ok(()) = write_out(&mut self.writer, bytes) else {
            self.faults = self.faults.saturating_add(1);
            return Put::Failed;
        };
        disk.note();
        Put::Done
    }
}

// Writes all, or after an error a prefix.
fn write_out<W: Write>(writer: &mut W, bytes: &[u8]) -> io::Result<()>
    ensures ok { OnOk result (Appends (W.contents writer.old) (W.contents writer.new) bytes.now) }
    ensures err { OnErr result ((n : ℕ) × Appends (W.contents writer.old) (W.contents writer.new) (take n bytes.now)) }
{
    let mut count = 0;
    for _ in 0..u64::MAX {
        if count >= bytes.len() {
            return writer.flush();
        }
        match writer.write(&bytes[count..]) {
            Ok(0) => return Err(io::Error::from(ErrorKind::WriteZero)),
            Ok(more) => count += more,
            Err(error) if error.kind() == ErrorKind::Interrupted => {}
            Err(error) => return Err(error),
        }
    }
    Err(io::Error::from(ErrorKind::Interrupted))
}
