// The program's one call.
ghost use Rattle.std.specs.Prelude.{◌≡◌, ◌≤◌, IsTrue};
ghost use Rattle.lean_disk.specs.Faults.{HasCause, IsBlamed};
ghost use Rattle.buffered_engine.specs.lean_edge.Outside.{added};
ghost use Rattle.buffered_engine.specs.recovery.Telling.{TellsAll};
ghost use Rattle.buffered_engine.specs.engine_front.Fronts.{events_in};
ghost use Rattle.lean_shell.specs.Completeness.{IsComplete, NoneFailed};
ghost use Rattle.lean_shell.specs.Dumps.{DumpEnds};
ghost use Rattle.lean_shell.specs.Ends.{RunEnds};
ghost use Rattle.lean_shell.specs.Headline.{Headline};
ghost use Rattle.lean_shell.specs.Makes.{MakeEnds};
ghost use Rattle.lean_shell.specs.Endings.{FinishedPut, FormatEnds, IsStatus, UsageEnds, WentOut, last_line, number_of};
ghost use Rattle.lean_disk.specs.Told.{OnlyNotes};
ghost use Rattle.lean_shell.specs.Inside.Commands.{CommandEnds};
ghost use Rattle.lean_shell.specs.Words.{Asks, AsksNothing, texts};
ghost use Rattle.lean_shell.specs.declared.make.Workload.{Workload};
ghost use Rattle.lean_shell.specs.declared.words.Command.TheVariants.{Dump, Format, Make, Run};
ghost use Rattle.buffered_engine.specs.disk_format.declared.shape.Shape.{Shape};
ghost use Rattle.buffered_engine.specs.paged_engine.declared.opening.Size.{Size};

use crate::Gate;
use crate::disk_run::{run_disk, unread};
use crate::dump::dump_disk;
use crate::failure::Failure;
use crate::make::make_disk;
use crate::words::{Command, read_words};
use buffered_engine::{Formatted, Hosts, Put, Shape, Sink, Source, format};
use lean_disk::Disk;
use script_lang::{REPLY, formatted_bytes, notices_are_no_replies};
use script_run::{Front, no_events};
use std::alloc::Global;
use std::sync::Wait;
use std::thread::Threads;

// Puts the last line, once.
fn fail<K: Sink<D>, D: Disk>(failure: Failure, sink: &mut K, disk: &mut D) -> u8
    ensures answer { result ≡ number_of failure }
    ensures printed { WentOut (last_line failure) (K.held sink.old) (K.held sink.new) (K.faults sink.old) (K.faults sink.new) }
    ensures noted { OnlyNotes (D.story disk.old) (D.story disk.new) }
    ensures faults { D.faults disk.new ≡ D.faults disk.old }
{
    let _ = sink.put(disk, failure.line());
    failure.status()
}

// Puts the line of a new disk, once.
fn finish<K: Sink<D>, D: Disk>(shape: Shape, sink: &mut K, disk: &mut D) -> u8
    ensures printed { FinishedPut shape result (K.held sink.old) (K.held sink.new) (K.faults sink.old) (K.faults sink.new) }
    ensures noted { OnlyNotes (D.story disk.old) (D.story disk.new) }
    ensures faults { D.faults disk.new ≡ D.faults disk.old }
{
    notices_are_no_replies();
    let mut line = [0; REPLY];
    let end = formatted_bytes(shape.workers, shape.pages, shape.blocks, &mut line);
    match sink.put(disk, &line[..end]) {
        Put::Done => 0,
        Put::Failed => 5,
    }
}

fn run_format<K: Sink<D>, D: Disk>(alloc: Global, shape: Shape, sink: &mut K, disk: &mut D) -> u8
    requires workers { shape.workers ≤ 16 }
    requires pages { shape.pages ≤ 65536 }
    ensures { FormatEnds shape result (D.story disk.old) (D.story disk.new) (K.held sink.old) (K.held sink.new) (K.faults sink.old) (K.faults sink.new) (D.faults disk.old) (D.faults disk.new) }
{
    let Ok(mut buffer) = vec![in alloc; 0; 65536] else {
        return fail(Failure::Memory, sink, disk);
    };
    match format(disk, shape, &mut buffer) {
        Formatted::Done => finish(shape, sink, disk),
        Formatted::AlreadyFormatted => fail(Failure::AlreadyFormatted, sink, disk),
        Formatted::DiskFault => fail(Failure::DiskFault, sink, disk),
    }
}

/// How a command ended: its status, and the disk.
pub struct Ended<D> {
    /// What the program ends with.
    pub status: u8,
    pub disk: D,
    /// The events of the core that a run made, from the start that its opening left. It takes no bytes.
    pub front: Front,
}

// Every command but those that take threads.
fn run_alone<S: Source, K: Sink<D>, D: Hosts>(
    alloc: Global,
    words: &[String],
    source: &mut S,
    sink: &mut K,
    mut disk: D,
) -> Ended<D>
    ensures ends { CommandEnds (texts words.now) result.status (events_in result.front.view) (D.story disk) (D.story result.disk) (S.feed source.old) (S.feed source.new) (K.held sink.old) (K.held sink.new)
        (record { source = S.faults source.old; sink = K.faults sink.old; disk = D.faults disk }) (record { source = S.faults source.new; sink = K.faults sink.new; disk = D.faults result.disk }) }
    ensures headline { (size : Size) → Asks (texts words.now) (Run size) → IsTrue (S.feed source.old).tells → IsTrue (K.held sink.old).tells → TellsAll 16 (D.story disk) → Headline (D.story disk) (D.story result.disk) (S.feed source.old).left (added (K.held sink.old) (K.held sink.new)) }
    ensures make { (workload : Workload) → Asks (texts words.now) (Make workload) → (mid : D) × MakeEnds workload result.status (events_in result.front.view) (D.story disk) (D.story mid) (D.story result.disk) (K.held sink.old) (K.held sink.new) (K.faults sink.old) (K.faults sink.new) }
    ensures source { ((size : Size) → Asks (texts words.now) (Run size) → ⊥) → source.new ≡ source.old }
{
    match read_words(alloc, words) {
        Ok(Some(Command::Format(shape))) => {
            let status = run_format(alloc, shape, sink, &mut disk);
            Ended {
                status,
                disk,
                front: no_events(),
            }
        }
        Ok(Some(Command::Run(size))) => run_disk(alloc, source, sink, disk, size),
        Ok(Some(Command::Make(workload))) => make_disk(alloc, workload, sink, disk),
        Ok(Some(Command::Dump)) => {
            let status = dump_disk(alloc, sink, &mut disk);
            Ended {
                status,
                disk,
                front: no_events(),
            }
        }
        Ok(None) => {
            let status = fail(Failure::Usage, sink, &mut disk);
            Ended {
                status,
                disk,
                front: no_events(),
            }
        }
        Err(_) => unread(sink, disk),
    }
}

/// Does what the words of a command line ask for, the program's name first.
///
/// It reads a script from `source`, puts each line of its output into `sink`, works on `disk`, and holds the workers
/// of a round at `gate`. The statuses: 0 it was done; 2 the words are no command; 3 a line of the script was refused;
/// 4 the source failed; 5 the sink failed; 6 the disk failed; 7 the disk is not formatted or is damaged; 8 memory was
/// refused; 9 the disk has a valid master already.
pub fn run<R: Threads + Wait + Sync, S: Source, K: Sink<D>, D: Hosts, G: Gate + Sync>(
    rt: &R,
    alloc: Global,
    words: &[String],
    source: &mut S,
    sink: &mut K,
    disk: D,
    gate: &G,
) -> Ended<D>
    // Whatever script runs, and wherever a crash falls.
    ensures headline { (size : Size) → Asks (texts words.now) (Run size) → IsTrue (S.feed source.old).tells → IsTrue (K.held sink.old).tells → TellsAll 16 (D.story disk) → Headline (D.story disk) (D.story result.disk) (S.feed source.old).left (added (K.held sink.old) (K.held sink.new)) }

    // Which statuses there are, and why.
    ensures known { IsStatus result.status }
    ensures usage { result.status ≡ 2 → AsksNothing (texts words.now) }
    ensures cause_read_fault { HasCause (S.faults source.old) (S.faults source.new) (result.status ≡ 4) }
    ensures cause_write_fault { IsBlamed (K.faults sink.old) (K.faults sink.new) (result.status ≡ 5) }
    ensures cause_disk_fault { HasCause (D.faults disk) (D.faults result.disk) (result.status ≡ 6) }

    // What each command does.
    ensures format { (shape : Shape) → Asks (texts words.now) (Format shape) → FormatEnds shape result.status (D.story disk) (D.story result.disk) (K.held sink.old) (K.held sink.new) (K.faults sink.old) (K.faults sink.new) (D.faults disk) (D.faults result.disk) }
    ensures run { (size : Size) → Asks (texts words.now) (Run size) → RunEnds size result.status (events_in result.front.view) (D.story disk) (D.story result.disk) (S.feed source.old) (S.feed source.new) (K.held sink.old) (K.held sink.new) (K.faults sink.old) (K.faults sink.new) }
    ensures make { (workload : Workload) → Asks (texts words.now) (Make workload) → (mid : D) × MakeEnds workload result.status (events_in result.front.view) (D.story disk) (D.story mid) (D.story result.disk) (K.held sink.old) (K.held sink.new) (K.faults sink.old) (K.faults sink.new) }
    ensures dump { Asks (texts words.now) Dump → DumpEnds result.status (D.story disk) (D.story result.disk) (K.held sink.old) (K.held sink.new) (K.faults sink.old) (K.faults sink.new) }
    ensures none { AsksNothing (texts words.now) → UsageEnds result.status (D.story disk) (D.story result.disk) (K.held sink.old) (K.held sink.new) (K.faults sink.old) (K.faults sink.new) (D.faults disk) (D.faults result.disk) }

    // The source is read by a run alone.
    ensures source { ((size : Size) → Asks (texts words.now) (Run size) → ⊥) → source.new ≡ source.old }

    // Where nothing fails and the disk is as it should be, each command does what it is asked, or memory was refused.
    ensures complete { NoneFailed (record { source = S.faults source.old; sink = K.faults sink.old; disk = D.faults disk }) (record { source = S.faults source.new; sink = K.faults sink.new; disk = D.faults result.disk }) → IsComplete (texts words.now) result.status (D.story disk) (D.story result.disk) (S.feed source.old) (K.held sink.old) (K.held sink.new)
        (record { source = S.faults source.old; sink = K.faults sink.old; disk = D.faults disk }) (record { source = S.faults source.new; sink = K.faults sink.new; disk = D.faults result.disk }) }
{
    // A disk with a place that breaks a rule is not clean.
    disk_image::every_break();
    run_alone(alloc, words, source, sink, disk)
}
