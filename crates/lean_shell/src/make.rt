// A workload from a number.
ghost use Rattle.std.specs.Prelude.{◌≡◌, List, [], ℕ};
ghost use Rattle.lean_disk.specs.Faults.{HasCause, IsBlamed};
ghost use Rattle.buffered_engine.specs.engine_front.Fronts.{events_in};
ghost use Rattle.workload_run.specs.Makes.{ending, stop_in};
ghost use Rattle.lean_shell.specs.Inside.Makings.{MakesHere};
ghost use Rattle.lean_shell.specs.Makes.{MakeEnds};

use crate::disk_run::{disk_of, ended, laws, refuse};
use crate::engine_lines::{put_last, put_opened};
use crate::lines::put_made;
use crate::program::Ended;
use buffered_engine::{
    Engine, EngineFrontCalls as Calls, Hosts, Opened, Put, Sink, Size, Unopened, Unrecovered,
};
use lean_disk::Disk;
use page_model::limits::SESSIONS;
use script_run::{Front, Stop, all_events, no_events};
use std::alloc::Global;
use workload_run::{Made, Ran, make_lines};

/// Which workload: its number, and how many transactions it has.
#[derive(Clone, Copy, Debug, PartialEq, Eq)]
pub struct Workload {
    pub number: u64,
    pub count: u32,
}

// Why a script with these lines would have stopped.
fn stop_of(made: &Result<Made, Stop>) -> Stop
    ensures { result ≡ ending (stop_in made.now) }
{
    match *made {
        Ok(_) => Stop::End,
        Err(stop) => stop,
    }
}

// A workload that was executed: the status so far, what it came to, and the disk.
struct Executed<D> {
    status: u8,
    made: Option<Made>,
    disk: D,
    front: Front,
}

// Opens the disk, executes the workload on it, and puts the line of the opening, and the last line of an engine that stopped.
fn execute<K: Sink<D>, D: Hosts>(
    alloc: Global,
    workload: Workload,
    sink: &mut K,
    disk: D,
) -> Executed<D>
    ensures ends { MakesHere workload result.made result.status (events_in result.front.view) (D.story disk) (D.story result.disk) (K.held sink.old) (K.held sink.new) (K.faults sink.old) (K.faults sink.new) }
    ensures cause_write_fault { IsBlamed (K.faults sink.old) (K.faults sink.new) (result.status ≡ 5) }
    ensures cause_disk_fault { HasCause (D.faults disk) (D.faults result.disk) (result.status ≡ 6) }
{
    laws();
    // As a run has it with no options.
    let size = Size {
        frames: 256,
        rows: 256,
        group: 1,
        sessions: SESSIONS,
    };
    let opened = match Engine::open(alloc, disk, size) {
        Ok(opened) => opened,
        Err(Unopened { disk, reason }) => {
            let Ended {
                status,
                disk,
                front,
            } = refuse(reason, sink, disk);
            return Executed {
                status,
                made: None,
                disk,
                front,
            };
        }
    };
    let Opened {
        mut engine,
        generation,
        winners,
        undone,
    } = opened;
    let Put::Done = put_opened(generation, winners, undone, sink, &mut engine) else {
        return Executed {
            status: 5,
            made: None,
            disk: disk_of(engine),
            front: no_events(),
        };
    };
    let mut events = no_events();
    let Ran { mut engine, made } = make_lines(engine, workload.number, workload.count, &mut events);
    // What may be asked next, by the run in which it stands.
    engine.told();
    let stop = stop_of(&made);
    let front = all_events(stop, &engine, events);
    put_last(stop, sink, &mut engine);
    Executed {
        status: ended(stop),
        made: made.ok(),
        disk: disk_of(engine),
        front,
    }
}

/// Opens the disk, executes a workload on it, and puts the line of the opening and what it came to, or the last line. The status is 0 where it was made, 5
/// where the sink failed, 6 where the disk did, 7 where the disk has no master or is damaged, 8 where memory was refused.
pub fn make_disk<K: Sink<D>, D: Hosts>(
    alloc: Global,
    workload: Workload,
    sink: &mut K,
    disk: D,
) -> Ended<D>
    ensures ends { (mid : D) × MakeEnds workload result.status (events_in result.front.view) (D.story disk) (D.story mid) (D.story result.disk) (K.held sink.old) (K.held sink.new) (K.faults sink.old) (K.faults sink.new) }

    ensures cause_write_fault { IsBlamed (K.faults sink.old) (K.faults sink.new) (result.status ≡ 5) }
    ensures cause_disk_fault { HasCause (D.faults disk) (D.faults result.disk) (result.status ≡ 6) }
{
    let Executed {
        status,
        made,
        mut disk,
        front,
    } = execute(alloc, workload, sink, disk);
    let Some(made) = made else {
        return Ended {
            status,
            disk,
            front,
        };
    };
    let Made {
        refused,
        pairs,
        sum,
    } = made;
    match put_made(workload.count, refused, pairs, sum, sink, &mut disk) {
        Put::Done => Ended {
            status: 0,
            disk,
            front,
        },
        Put::Failed => Ended {
            status: 5,
            disk,
            front,
        },
    }
}
