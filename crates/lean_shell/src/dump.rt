// The dump of a disk's map.
ghost use Rattle.std.specs.Prelude.{◌≡◌, length};
ghost use Rattle.page_model.specs.Tree.{value};
ghost use Rattle.lean_disk.specs.Faults.{HasCause, IsBlamed};
ghost use Rattle.buffered_engine.specs.disk_image.Formats.{format_of};
ghost use Rattle.node_tree.specs.Nodes.{nodes_of};
ghost use Rattle.buffered_engine.specs.recovery.Opened.{IsWhole};
ghost use Rattle.lean_shell.specs.Dumps.{DumpEnds};
ghost use Rattle.lean_shell.specs.Inside.Puts.{PutsDump, counts_of};

use crate::disk_run::status_of;
use crate::lines::{put_opened, put_reason};
use crate::pairs::put_map;
use buffered_engine::{Put, Recovered, Sink, recover};
use lean_disk::Disk;
use page_model::limits::SESSIONS;
use std::alloc::Global;

// Puts the line of the opening, each pair of the map that recovery gave, and `end`.
fn put_recovered<K: Sink<D>, D: Disk>(it: &Recovered, sink: &mut K, disk: &mut D) -> Put
    requires { IsWhole it.now }
    ensures put { PutsDump (counts_of it.now) (value (format_of (length it.now.pages.items)) (nodes_of it.now.pages.items)) result (K.held sink.old) (K.held sink.new) (K.faults sink.old) (K.faults sink.new) (D.story disk.old) (D.story disk.new) }
    ensures faults { D.faults disk.new ≡ D.faults disk.old }
{
    pair_walk::every_listing();
    let Put::Done = put_opened(it.master.generation, it.winners, it.undone, sink, disk) else {
        return Put::Failed;
    };
    put_map(&it.pages, sink, disk)
}

/// Opens the disk and puts the line of the opening, each pair of its map, in the order of the keys, and `end`. The status is 0 where all went
/// out, 5 where the sink failed, 6 where the disk did, 7 where the disk has no master or is damaged, 8 where memory was refused.
pub fn dump_disk<K: Sink<D>, D: Disk>(alloc: Global, sink: &mut K, disk: &mut D) -> u8
    ensures ends { DumpEnds result (D.story disk.old) (D.story disk.new) (K.held sink.old) (K.held sink.new) (K.faults sink.old) (K.faults sink.new) }

    // A last line that is cut off leaves the status as it is.
    ensures cause_write_fault { IsBlamed (K.faults sink.old) (K.faults sink.new) (result ≡ 5) }
    ensures cause_disk_fault { HasCause (D.faults disk.old) (D.faults disk.new) (result ≡ 6) }
{
    // What the recovered pages stand for.
    pair_walk::every_listing();
    buffered_engine::every_undone();
    buffered_engine::every_own();
    let recovered = match recover(alloc, disk, SESSIONS) {
        Ok(recovered) => recovered,
        Err(reason) => {
            put_reason(reason, sink, disk);
            return status_of(reason);
        }
    };
    match put_recovered(&recovered, sink, disk) {
        Put::Done => 0,
        Put::Failed => 5,
    }
}
