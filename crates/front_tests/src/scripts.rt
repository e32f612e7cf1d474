// Scripts over an engine by rote: where a page is damaged the script stops within its line, which has no further answer; and where a put fails no more is asked.
use crate::puppet::Puppet;
use engine_front::calls::{Calls, Next};
use lean_disk::MemDisk;
use lean_edge::{MemSink, MemSource};
use script_lang::LineReader;
use script_run::{Stop, no_events, run_script};
use std::alloc::{AllocError, Global};

// A script, how many commits are durable behind its first line, whether an abort that is due meets a damaged page, and the puts that fail, of which three bytes are
// left; how the script ends, how often the engine was asked, and what is printed.
struct Case {
    name: &'static str,
    script: &'static [u8],
    ripe: u32,
    is_abort_damaged: bool,
    failing_puts: &'static [u64],
    stop: Stop,
    asked: u32,
    printed: &'static [u8],
}

static CASES: [Case; 10] = [
    Case {
        name: "a damaged page ends the script within its line",
        script: b"1 begin\n1 get 5\n1 get 13\n1 get 5\n",
        ripe: 0,
        is_abort_damaged: false,
        failing_puts: &[],
        stop: Stop::Damaged { place: 4 },
        asked: 3,
        printed: b"1 begun 1.1\n1 none\n",
    },
    Case {
        name: "durable lines come behind any line, a get's too",
        script: b"1 get 5\n1 get 5\n",
        ripe: 2,
        is_abort_damaged: false,
        failing_puts: &[],
        stop: Stop::End,
        asked: 2,
        printed: b"1 none\n1 durable 1.1\n1 durable 1.1\n1 none\n",
    },
    Case {
        name: "an abort is due behind a conflict",
        script: b"1 get 7\n1 get 5\n",
        ripe: 0,
        is_abort_damaged: false,
        failing_puts: &[],
        stop: Stop::End,
        asked: 3,
        printed: b"1 conflict 2\n1 aborted 1.1\n1 none\n",
    },
    Case {
        name: "and may meet a damaged page",
        script: b"1 get 7\n1 get 5\n",
        ripe: 0,
        is_abort_damaged: true,
        failing_puts: &[],
        stop: Stop::Damaged { place: 4 },
        asked: 2,
        printed: b"1 conflict 2\n",
    },
    Case {
        name: "the pairs of a scan come one by one, and durable lines behind its end",
        script: b"1 scan 1 2\n1 get 5\n",
        ripe: 1,
        is_abort_damaged: false,
        failing_puts: &[],
        stop: Stop::End,
        asked: 4,
        printed: b"1 pair 1 1\n1 pair 2 2\n1 end\n1 durable 1.1\n1 none\n",
    },
    Case {
        name: "a scan says where it goes on",
        script: b"1 scan 20 30\n1 get 5\n",
        ripe: 1,
        is_abort_damaged: false,
        failing_puts: &[],
        stop: Stop::End,
        asked: 5,
        printed: b"1 pair 20 20\n1 pair 21 21\n1 pair 22 22\n1 more 23\n1 durable 1.1\n1 none\n",
    },
    Case {
        name: "a scan may meet a conflict, and durable lines come behind the abort",
        script: b"1 scan 6 9\n1 get 5\n",
        ripe: 1,
        is_abort_damaged: false,
        failing_puts: &[],
        stop: Stop::End,
        asked: 4,
        printed: b"1 pair 6 6\n1 conflict 2\n1 aborted 1.1\n1 durable 1.1\n1 none\n",
    },
    Case {
        name: "a damaged page ends the script in the middle of a scan",
        script: b"1 scan 11 15\n1 get 5\n",
        ripe: 1,
        is_abort_damaged: false,
        failing_puts: &[],
        stop: Stop::Damaged { place: 4 },
        asked: 3,
        printed: b"1 pair 11 11\n1 pair 12 12\n",
    },
    Case {
        name: "behind a put that failed no step of the scan is asked",
        script: b"1 scan 20 22\n1 get 5\n",
        ripe: 1,
        is_abort_damaged: false,
        failing_puts: &[2],
        stop: Stop::WriteFault,
        asked: 2,
        printed: b"1 pair 20 20\n1 p",
    },
    Case {
        name: "nor a line, where its last answer was cut off",
        script: b"1 scan 20 21\n1 get 5\n",
        ripe: 1,
        is_abort_damaged: false,
        failing_puts: &[3],
        stop: Stop::WriteFault,
        asked: 3,
        printed: b"1 pair 20 20\n1 pair 21 21\n1 e",
    },
];

// Whether the script ends and prints as is written.
fn is_met(alloc: Global, case: &Case) -> Result<bool, AllocError> {
    let mut reader = LineReader::new(alloc)?;
    let mut source = MemSource::new(alloc, case.script, 7)?;
    let mut sink = MemSink::new(alloc);
    sink.fail_at(case.failing_puts.to_vec(alloc)?);
    sink.keep_prefix(3);
    let mut engine = Puppet {
        disk: MemDisk::new(alloc, 2)?,
        works: true,
        next: Next::Line,
        ripe: case.ripe,
        asked: 0,
        key: 0,
        to: 0,
        pairs: 0,
        is_abort_damaged: case.is_abort_damaged,
    };
    let stop = run_script(
        &mut engine,
        &mut reader,
        &mut source,
        &mut sink,
        &mut no_events(),
    );
    let asked = engine.asked;
    engine.close();
    Ok(stop == case.stop && asked == case.asked && sink.bytes() == case.printed)
}

#[test]
fn each_script_ends_and_prints_as_is_written(rt: HostRuntime) {
    for case in &CASES {
        let is_met = is_met(rt.alloc(), case);
        assert!(&rt; matches!(is_met, Ok(true)), "{}", case.name);
    }
}
