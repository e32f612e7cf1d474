// Scripts on a fresh engine, over devices in memory. The expected lines were written down by hand.
use crate::cases::expect;
use crate::commands::formatted;
use lean_disk::MemDisk;
use lean_shell::{
    Closed, Engine, LineReader, MemSink, MemSource, Opened, Size, Stop, Unopened, run_script,
};
use script_run::no_events;
use std::alloc::{AllocError, Global};
use std::sync::Wait;
use std::thread::Threads;

// A script, the reads and puts that fail, of which a put leaves three bytes; how the script ends, and what is printed.
struct Case {
    name: &'static str,
    script: &'static [u8],
    failing_reads: &'static [u64],
    failing_puts: &'static [u64],
    stop: Stop,
    printed: &'static [u8],
}

static CASES: [Case; 5] = [
    Case {
        name: "each line is answered up to a refused one",
        script: b"1 begin\n1 get 5\n1 put 5 7\n1 put 5 8\n1 commit\n1 begin\n1 get 5\n1 begin\n1 drop 5\n1 get 5\n",
        failing_reads: &[],
        failing_puts: &[],
        stop: Stop::Refused { line: 9 },
        printed: b"1 begun 1.1\n1 none\n1 was none\n1 was 7\n1 committed 1.1 at 3\n1 durable 1.1\n1 begun 1.2\n1 value 8\n1 in-transaction\n",
    },
    Case {
        name: "an abort undoes a put and a del",
        script: b"1 begin\n1 put 5 7\n1 commit\n1 begin\n1 put 6 1\n1 del 5\n1 get 5\n1 abort\n1 begin\n1 get 5\n1 get 6\n",
        failing_reads: &[],
        failing_puts: &[],
        stop: Stop::End,
        printed: b"1 begun 1.1\n1 was none\n1 committed 1.1 at 2\n1 durable 1.1\n1 begun 1.2\n1 was none\n1 was 7\n1 none\n1 aborted 1.2\n1 begun 1.3\n1 value 7\n1 none\n",
    },
    Case {
        name: "the last line may lack its newline",
        script: b"1 get 5\n1 begin",
        failing_reads: &[],
        failing_puts: &[],
        stop: Stop::End,
        printed: b"1 no-transaction\n1 begun 1.1\n",
    },
    Case {
        name: "a failed put ends the script within its line",
        script: b"1 begin\n1 commit\n1 begin\n",
        failing_reads: &[],
        failing_puts: &[3],
        stop: Stop::WriteFault,
        printed: b"1 begun 1.1\n1 committed 1.1 at 1\n1 d",
    },
    Case {
        name: "a failed read ends the script behind whole lines",
        script: b"1 begin\n1 commit\n1 begin\n",
        failing_reads: &[3],
        failing_puts: &[],
        stop: Stop::ReadFault,
        printed: b"1 begun 1.1\n",
    },
];

fn source_of(alloc: Global, case: &Case) -> Result<MemSource, AllocError> {
    let mut source = MemSource::new(alloc, case.script, 7)?;
    source.fail_at(Vec::from_slice(alloc, case.failing_reads)?);
    Ok(source)
}

fn sink_of(alloc: Global, case: &Case) -> Result<MemSink, AllocError> {
    let mut sink = MemSink::new(alloc);
    sink.fail_at(Vec::from_slice(alloc, case.failing_puts)?);
    sink.keep_prefix(3);
    Ok(sink)
}

const SIZE: Size = Size {
    frames: 32,
    rows: 64,
    group: 1,
    sessions: 16,
};

// How a script ends on the engine of a formatted disk; none where that is not opened.
fn stop_on(
    alloc: Global,
    disk: MemDisk,
    reader: &mut LineReader,
    source: &mut MemSource,
    sink: &mut MemSink,
) -> Option<Stop> {
    let mut engine = match Engine::open(alloc, disk, SIZE) {
        Ok(
            Opened {
                engine,
                generation: _,
                winners: _,
                undone: _,
            },
        ) => engine,
        Err(Unopened { disk: _, reason: _ }) => return None,
    };
    let stop = run_script(&mut engine, reader, source, sink, &mut no_events());
    let Closed {
        disk: _disk,
        front: _,
    } = engine.close();
    Some(stop)
}

// Whether the script on a fresh engine ends and prints as is written.
fn is_met<R: Threads + Wait + Sync>(
    rt: &R,
    alloc: Global,
    case: &Case,
) -> Result<bool, AllocError> {
    let disk = formatted(rt, alloc)?;
    let mut reader = LineReader::new(alloc)?;
    let mut source = source_of(alloc, case)?;
    let mut sink = sink_of(alloc, case)?;
    let stop = stop_on(alloc, disk, &mut reader, &mut source, &mut sink);
    Ok(stop == Some(case.stop) && sink.bytes() == case.printed)
}

#[test]
fn each_script_ends_and_prints_as_is_written(rt: HostRuntime) {
    for case in &CASES {
        expect(&rt, case.name, is_met(&rt, rt.alloc(), case));
    }
}
