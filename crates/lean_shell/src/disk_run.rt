// The run of a script.
ghost use Rattle.std.specs.Prelude.{◌≡◌, ◌≤◌, ℕ, IsTrue, []};
ghost use Rattle.lean_disk.specs.Faults.{HasCause, IsBlamed};
ghost use Rattle.buffered_engine.specs.lean_edge.Outside.{added};
ghost use Rattle.buffered_engine.specs.engine_front.Fronts.{events_in};
ghost use Rattle.buffered_engine.specs.recovery.Telling.{TellsAll};
ghost use Rattle.lean_shell.specs.Ends.{RunEnds};
ghost use Rattle.lean_shell.specs.Headline.{Headline};
ghost use Rattle.lean_shell.specs.Inside.Commands.{UnreadEnds};
ghost use Rattle.lean_shell.specs.Inside.Laws.{Laws};
ghost use Rattle.lean_shell.specs.Inside.Openings.{Refuses};
ghost use Rattle.lean_shell.specs.Runs.{ended, status_of};

use crate::engine_lines::{put_last, put_opened};
use crate::lines::put_reason;
use crate::program::Ended;
use buffered_engine::{
    Closed, Engine, EngineFrontCalls as Calls, Hosts, Opened, Put, Sink, Size, Source, Unopened,
    Unrecovered,
};
use lean_disk::Disk;
use script_lang::LineReader;
use script_run::{Stop, all_events, no_events, run_script};
use std::alloc::Global;

/// The status of a disk that was not opened.
pub(crate) fn status_of(reason: Unrecovered) -> u8
    ensures { result ≡ status_of reason }
{
    match reason {
        Unrecovered::NotFormatted => 7,
        Unrecovered::Damaged { .. } => 7,
        Unrecovered::DiskFault => 6,
        Unrecovered::Memory => 8,
    }
}

/// The status of a script that stopped so.
pub(crate) fn ended(stop: Stop) -> u8
    ensures { result ≡ ended stop }
{
    match stop {
        Stop::End => 0,
        Stop::Refused { .. } => 3,
        Stop::ReadFault => 4,
        Stop::WriteFault => 5,
        Stop::DiskFault => 6,
        Stop::Damaged { .. } => 7,
    }
}

// Puts the line of a disk that was not opened.
pub(crate) fn refuse<K: Sink<D>, D: Disk>(
    reason: Unrecovered,
    sink: &mut K,
    mut disk: D,
) -> Ended<D>
    ensures status { result.status ≡ status_of reason }
    ensures put { Refuses reason (K.held sink.old) (K.held sink.new) (K.faults sink.old) (K.faults sink.new) (D.story disk) (D.story result.disk) }
    ensures front { events_in result.front.view ≡ [] }
    ensures faults { D.faults result.disk ≡ D.faults disk }
{
    put_reason(reason, sink, &mut disk);
    Ended {
        status: status_of(reason),
        disk,
        front: no_events(),
    }
}

/// Memory to read the words of a command line was refused.
pub(crate) fn unread<K: Sink<D>, D: Disk>(sink: &mut K, disk: D) -> Ended<D>
    ensures { UnreadEnds result.status (events_in result.front.view) (D.story disk) (D.story result.disk) (K.held sink.old) (K.held sink.new) (K.faults sink.old) (K.faults sink.new) (D.faults disk) (D.faults result.disk) }
{
    transcripts::every_notice();
    transcripts::every_tail();
    refuse(Unrecovered::Memory, sink, disk)
}

/// Opens the disk, executes a script on it, by an engine so large, and puts what comes of it, the last line included. The status is 0 where the script
/// has ended, 3 at a line that is refused, 4 where the source failed, 5 where the sink did, 6 where the disk did, 7 where
/// the disk has no master or is damaged, also where that is met in the script, 8 where memory was refused.
pub fn run_disk<S: Source, K: Sink<D>, D: Hosts>(
    alloc: Global,
    source: &mut S,
    sink: &mut K,
    disk: D,
    size: Size,
) -> Ended<D>
    requires frames { (32 ≤ size.frames) × (size.frames ≤ 4096) }
    requires rows { (1 ≤ size.rows) × (size.rows ≤ 65536) }
    requires group { 1 ≤ size.group }
    requires sessions { size.sessions ≤ 16 }
    ensures headline { IsTrue (S.feed source.old).tells → IsTrue (K.held sink.old).tells → TellsAll size.sessions (D.story disk) → Headline (D.story disk) (D.story result.disk) (S.feed source.old).left (added (K.held sink.old) (K.held sink.new)) }
    ensures ends { RunEnds size result.status (events_in result.front.view) (D.story disk) (D.story result.disk) (S.feed source.old) (S.feed source.new) (K.held sink.old) (K.held sink.new) (K.faults sink.old) (K.faults sink.new) }

    ensures cause_read_fault { HasCause (S.faults source.old) (S.faults source.new) (result.status ≡ 4) }
    // A last line that is cut off leaves the status as it is.
    ensures cause_write_fault { IsBlamed (K.faults sink.old) (K.faults sink.new) (result.status ≡ 5) }
    ensures cause_disk_fault { HasCause (D.faults disk) (D.faults result.disk) (result.status ≡ 6) }
{
    // What a crash leaves at each moment of a run, and what its lines tell.
    laws();
    let Ok(mut reader) = LineReader::new(alloc) else {
        return refuse(Unrecovered::Memory, sink, disk);
    };
    let opened = match Engine::open(alloc, disk, size) {
        Ok(opened) => opened,
        Err(Unopened { disk, reason }) => return refuse(reason, sink, disk),
    };
    let Opened {
        mut engine,
        generation,
        winners,
        undone,
    } = opened;
    let Put::Done = put_opened(generation, winners, undone, sink, &mut engine) else {
        return Ended {
            status: 5,
            disk: disk_of(engine),
            front: no_events(),
        };
    };
    let mut events = no_events();
    let stop = run_script(&mut engine, &mut reader, source, sink, &mut events);
    // What may be asked next, by the run in which it stands.
    engine.told();
    let front = all_events(stop, &engine, events);
    put_last(stop, sink, &mut engine);
    Ended {
        status: ended(stop),
        disk: disk_of(engine),
        front,
    }
}

/// The disk of an engine whose front was taken before.
pub(crate) fn disk_of<D: Disk>(engine: Engine<D>) -> D
    ensures { result ≡ engine.disk }
{
    let Closed { disk, front: _ } = engine.close();
    disk
}

/// What other crates prove of calls, their numbers and their crashes, of transcripts, of images that agree, and of logs.
pub(crate) fn laws()
    ensures { Laws }
{
    buffered_engine::every_rise();
    buffered_engine::every_line_count();
    buffered_engine::every_printed();
    buffered_engine::every_told();
    buffered_engine::every_met();
    buffered_engine::every_run_crash();
    event_counts::every_draw();
    event_counts::every_scan_count();
    buffered_engine::every_shown();
    buffered_engine::every_version();
    script_lang::replies_are_read_back();
    script_lang::notices_are_no_replies();
    transcripts::every_moment();
    transcripts::every_end();
    transcripts::every_next();
    transcripts::every_notice();
    transcripts::every_tail();
    script_run::every_script();
    buffered_engine::every_agreement();
    buffered_engine::every_block_in();
    buffered_engine::every_sealed();
    buffered_engine::every_kept();
    buffered_engine::every_prefix();
}
