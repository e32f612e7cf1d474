// A sink that keeps nothing.
ghost use Rattle.std.specs.Prelude.{false, []};

use lean_disk::Disk;
use lean_edge::{Put, Sink};

/// A sink that drops each line, which is noted all the same. It tells nothing, and never fails.
#[derive(Drop)]
pub(crate) struct QuietSink;

impl<D: Disk> Sink<D> for QuietSink {
    ghost held = { λ _. record { tells = false; bytes = [] } };

    ghost faults = { λ _. 0 };

    fn put(&mut self, disk: &mut D, _: &[u8]) -> Put {
        disk.note();
        Put::Done
    }
}
