// A workload from a number, executed on an engine.
ghost use Rattle.std.specs.Prelude.{◌≡◌, ◌≤◌, [], true, None, Some, Err, IfErr, IfSome};
ghost use Rattle.call_parts.specs.core_state.Openings.{Opening};
ghost use Rattle.call_parts.specs.core_calls.Durables.{durables, moments};
ghost use Rattle.call_parts.specs.core_calls.LineCounts.{EveryLineCount};
ghost use Rattle.engine_front.specs.Fronts.{events_in};
ghost use Rattle.engine_front.specs.declared.calls.Next.{Next};
ghost use Rattle.lean_disk.specs.Faults.{HasCause};
ghost use Rattle.script_run.specs.Inside.{IsOfEngine};
ghost use Rattle.script_run.specs.Runs.{Standing, works_behind};
ghost use Rattle.workload_run.specs.Makes.{MakeRuns, stop_in};
ghost use Rattle.workload_run.specs.Inside.{Both, IsTally, Laws, MadeRuns};

use crate::plan::{Plan, Stage};
use crate::quiet_sink::QuietSink;
use crate::tallied::Tallied;
use crate::tally::Tally;
use engine_front::Front;
use engine_front::calls::Calls;
use lean_disk::Disk;
use script_lang::REPLY;
use script_run::{LINES, Stop, execute_line};

/// What a workload came to.
#[derive(Clone, Copy, Debug, PartialEq, Eq)]
pub struct Made {
    /// So many draws were refused.
    pub refused: u64,
    /// So many pairs the map had, which the last transaction met.
    pub pairs: u64,
    /// The sum of their values.
    pub sum: u128,
}

/// An engine on which a workload was executed: what it came to, or why the engine stopped.
pub struct Ran<E> {
    pub engine: E,
    pub made: Result<Made, Stop>,
}

/// Executes the workload of a number on an engine that works, of which the next line may be asked: so many transactions of its sessions in turn, a sync, and a
/// last transaction of session 1, which walks the map from the least key on and is left open. Nothing is put.
///
/// Where the engine works no longer, `events` are those of what was answered by then.
pub fn make_lines<D: Disk, E: Calls<D>>(
    engine: E,
    number: u64,
    count: u32,
    events: &mut Front,
) -> Ran<E>
    requires sessions { 1 ≤ E.sessions engine }
    requires works { E.works engine ≡ true }
    requires next { E.next engine ≡ Next.Line }
    ensures runs { (g : Opening) → E.in_run engine g [] (durables g (moments []))
        → MakeRuns number count result.made (Standing (E.in_run result.engine g) (events_in events.new.view)) (E.sessions engine) (E.group engine) g (E.memory engine) (E.memory result.engine) (D.story (E.disk engine)) (D.story (E.disk result.engine)) }
    ensures stops { IfErr result.made IsOfEngine }
    ensures works { E.works result.engine ≡ works_behind (stop_in result.made) }
    ensures next { stop_in result.made ≡ None → E.next result.engine ≡ Next.Line }
    ensures sizes { (E.sessions result.engine ≡ E.sessions engine) × (E.group result.engine ≡ E.group engine) }

    ensures cause_disk_fault { HasCause (D.faults (E.disk engine)) (D.faults (E.disk result.engine)) (result.made ≡ Err Stop.DiskFault) }
{
    laws();
    let mut tallied = Tallied {
        engine,
        tally: Tally::new(),
    };
    let stop = execute_all(&mut tallied, number, count, events);
    let Tallied { engine, tally } = tallied;
    match stop {
        Some(stop) => Ran {
            engine,
            made: Err(stop),
        },
        None => Ran {
            engine,
            made: Ok(Made {
                refused: tally.refused,
                pairs: tally.pairs,
                sum: tally.sum,
            }),
        },
    }
}

// Executes all lines, as many as a script may have.
fn execute_all<D: Disk, E: Calls<D>>(
    engine: &mut Tallied<E>,
    number: u64,
    count: u32,
    events: &mut Front,
) -> Option<Stop>
    requires sessions { 1 ≤ E.sessions engine.old.engine }
    requires works { E.works engine.old.engine ≡ true }
    requires next { E.next engine.old.engine ≡ Next.Line }
    ensures runs { (g : Opening) → E.in_run engine.old.engine g [] (durables g (moments [])) → IsTally engine.old.tally []
        → MadeRuns number count result (Standing (Both (E.in_run engine.new.engine g) engine.new.tally) (events_in events.new.view)) (E.sessions engine.old.engine) (E.group engine.old.engine) g (E.memory engine.old.engine) (E.memory engine.new.engine) (D.story (E.disk engine.old.engine)) (D.story (E.disk engine.new.engine)) }
    ensures stops { IfSome result IsOfEngine }
    ensures works { E.works engine.new.engine ≡ works_behind result }
    ensures next { result ≡ None → E.next engine.new.engine ≡ Next.Line }
    ensures sizes { (E.sessions engine.new.engine ≡ E.sessions engine.old.engine) × (E.group engine.new.engine ≡ E.group engine.old.engine) }

    ensures cause_disk_fault { HasCause (D.faults (E.disk engine.old.engine)) (D.faults (E.disk engine.new.engine)) (result ≡ Some Stop.DiskFault) }
{
    laws();
    engine.told();
    let mut plan = Plan::new(number, count, engine.session_count());
    let mut buffer = [0; REPLY];
    let mut sink = QuietSink;
    for taken in 1..LINES {
        let Some(line) = plan.next(engine.tally.on) else {
            return None;
        };
        if let Some(stop) = execute_line(
            engine,
            &mut sink,
            &mut buffer,
            line.session,
            &line.call,
            events,
        ) {
            return Some(stop);
        }
    }
    None
}

// What other crates prove of a workload's lines, of crashes, and of how many answers there are.
fn laws()
    ensures { Laws }
{
    call_parts::every_shown();
    call_parts::every_run_crash();
    call_parts::every_agreement();
    call_parts::every_kept();
    call_parts::every_prefix();
    call_parts::every_sealed();
    call_parts::every_line_count();
    workload::every_line();
    workload::every_length();
}
