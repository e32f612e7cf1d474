// Where lines go out.
ghost use Rattle.std.specs.Prelude.{◌≡◌, ℕ};
ghost use Rattle.lean_disk.specs.Calls.{Noted};
ghost use Rattle.lean_disk.specs.Faults.{HasCause};
ghost use Rattle.lean_edge.specs.Outside.{Held, IsWholeLine, Puts};

use lean_disk::Disk;

/// What a sink answers.
#[derive(Clone, Copy, Debug, PartialEq, Eq)]
pub enum Put {
    /// The bytes are held, and the disk has noted it.
    Done,
    /// A prefix of the bytes may be held, and the disk has noted nothing.
    Failed,
}

/// Where lines go out, one by one. The disk notes each line that is held, so that what a crash leaves can be
/// compared with the lines that had gone out.
pub trait Sink<D: Disk> {
    /// What it holds, where it tells.
    ghost held: { Self → Held };

    /// How often it has failed.
    ghost faults: { Self → ℕ };

    /// Puts one line, whole.
    fn put(&mut self, disk: &mut D, bytes: &[u8]) -> Put
        requires { IsWholeLine bytes.now }
        ensures put { Puts bytes.now result (held self.old) (held self.new) }

        // The disk notes once what is held, and else is as it was.
        ensures noted { result ≡ Put.Done → Noted (D.story disk.old) (D.story disk.new) }
        ensures not_noted { result ≡ Put.Failed → disk.new ≡ disk.old }
        ensures same { D.faults disk.new ≡ D.faults disk.old }

        ensures cause { HasCause (faults self.old) (faults self.new) (result ≡ Put.Failed) };
}
