// Line by line: read, asked, printed.
ghost use Rattle.std.specs.Prelude.{◌≡◌, ◌↔◌, ◌≤◌, ◌+◌, ◌^◌, ◌++◌, [], ◌∷◌, ◌<◌, ◌-◌, ℕ, true, false, List, Some, None, Err, IfOk, IfErr, IsErr};
ghost use Rattle.call_parts.specs.core_state.Openings.{Opening};
ghost use Rattle.call_parts.specs.core_calls.Deeds.{asked};
ghost use Rattle.call_parts.specs.core_calls.Durables.{durables, moments};
ghost use Rattle.call_parts.specs.core_calls.Fronts.{Done, front};
ghost use Rattle.call_parts.specs.core_calls.Steps.{hindered_in};
ghost use Rattle.lean_disk.specs.Faults.{HasCause};
ghost use Rattle.lean_edge.specs.Outside.{Feed};
ghost use Rattle.call_parts.specs.engine_trait.Calls.{IsAsked};
ghost use Rattle.call_parts.specs.Deeds.{Does, Fails};
ghost use Rattle.engine_front.specs.Fronts.{events_in};
ghost use Rattle.engine_front.specs.Stops.{StandsNot};
ghost use Rattle.engine_front.specs.Turns.{behind_answer, behind_durables, is_conflict_in};
ghost use Rattle.engine_front.specs.declared.calls.Next.{Next};
ghost use Rattle.map_model.specs.Journals.{Name};
ghost use Rattle.map_model.specs.Pairings.{is_last};
ghost use Rattle.map_model.specs.declared.call.Call.{Call as Asked};
ghost use Rattle.script_lang.specs.Reading.{Reading, Unread};
ghost use Rattle.script_lang.specs.Replies.{AnswerFits};
ghost use Rattle.transcripts.specs.Told.{LineFits, ask};
ghost use Rattle.script_run.specs.Runs.{EngineStands, ScriptRuns, Standing, works_behind, works_on};
ghost use Rattle.script_run.specs.Inside.{AnsweredTo, AnswersRun, IsNewest, IsOfEngine, IsOfRunning, Laws, LineRuns, LineSteps, MayRun, Stepped, StopsFor, is_pair};

use crate::lines::{LINES, next_call};
use crate::replies::{has_line, put_answer};
use crate::stop::Stop;
use engine_front::Front;
use engine_front::calls::{Calls, Unanswered};
use lean_disk::Disk;
use lean_edge::{Sink, Source};
use map_model::{Answer, Call, Refusal};
use script_lang::{LineReader, REPLY};
use std::marker::Brand;

/// Executes the lines of a script on an engine that works, of which the next line may be asked, and puts what each is answered. Lines are counted from 1.
///
/// Where the engine works no longer, `events` are those of what was answered by then.
pub fn run_script<S: Source, K: Sink<D>, D: Disk, E: Calls<D>>(
    engine: &mut E,
    reader: &mut LineReader,
    source: &mut S,
    sink: &mut K,
    events: &mut Front,
) -> Stop
    requires works { E.works engine.old ≡ true }
    requires next { E.next engine.old ≡ Next.Line }
    ensures runs { (g : Opening) (xs : List Done) (start : Feed) (seen : List ℕ) → E.in_run engine.old g xs (durables g (moments xs)) → Reading start (S.feed source.old) reader.old seen
        → (r : ScriptRuns (Some result) (E.sessions engine.old) (E.group engine.old) g xs 0 start seen (E.memory engine.old) (E.memory engine.new) reader.new (S.feed source.new) (K.held sink.old) (K.held sink.new) (D.story (E.disk engine.old)) (D.story (E.disk engine.new)))
        × EngineStands result (Standing (E.in_run engine.new g) (events_in events.new.view) (r.newer ++ xs)) g (r.newer ++ xs) }
    ensures works { E.works engine.new ≡ works_on result }
    ensures next { (result ≡ Stop.WriteFault → ⊥) → works_on result ≡ true → E.next engine.new ≡ Next.Line }
    ensures sizes { (E.sessions engine.new ≡ E.sessions engine.old) × (E.group engine.new ≡ E.group engine.old) }

    ensures cause_read_fault { HasCause (S.faults source.old) (S.faults source.new) (result ≡ Stop.ReadFault) }
    ensures cause_write_fault { HasCause (K.faults sink.old) (K.faults sink.new) (result ≡ Stop.WriteFault) }
    ensures cause_disk_fault { HasCause (D.faults (E.disk engine.old)) (D.faults (E.disk engine.new)) (result ≡ Stop.DiskFault) }
{
    // What a crash leaves before the first line.
    laws();
    engine.told();
    // Zeroed once, and not for each reply.
    let mut buffer = [0; REPLY];
    for number in 1..LINES {
        if let Some(stop) = take_step(engine, reader, source, sink, &mut buffer, number, events) {
            return stop;
        }
    }
    last_step(engine, reader, source, sink, &mut buffer, events)
}

/// None yet.
pub fn no_events() -> Front
    ensures { events_in result.view ≡ [] }
{
    Front::of::<Brand>()
}

/// The events of all that was answered in a run that stopped so. Where the engine works no longer they are those that were noted.
pub fn all_events<D: Disk, E: Calls<D>>(stop: Stop, engine: &E, noted: Front) -> Front
    ensures { (g : Opening) (calls : List Done) → EngineStands stop (Standing (E.in_run engine.now g) (events_in noted.view) calls) g calls → events_in result.view ≡ front calls }
{
    match stop {
        Stop::DiskFault => noted,
        Stop::Damaged { .. } => noted,
        Stop::End => engine.front(),
        Stop::Refused { .. } => engine.front(),
        Stop::ReadFault => engine.front(),
        Stop::WriteFault => engine.front(),
    }
}

// The line after the last that may be executed.
fn last_step<S: Source, K: Sink<D>, D: Disk, E: Calls<D>>(
    engine: &mut E,
    reader: &mut LineReader,
    source: &mut S,
    sink: &mut K,
    buffer: &mut [u8; REPLY],
    events: &mut Front,
) -> Stop
    requires works { E.works engine.old ≡ true }
    requires next { E.next engine.old ≡ Next.Line }
    ensures runs { (g : Opening) (xs : List Done) (start : Feed) (seen : List ℕ) → E.in_run engine.old g xs (durables g (moments xs)) → Reading start (S.feed source.old) reader.old seen
        → Stepped (Standing (E.in_run engine.new g) (events_in events.new.view)) 1 (Some result) (E.sessions engine.old) (E.group engine.old) g xs (2 ^ 40 - 1) start seen (E.memory engine.old) (E.memory engine.new) reader.new (S.feed source.new) (K.held sink.old) (K.held sink.new) (D.story (E.disk engine.old)) (D.story (E.disk engine.new)) }
    ensures works { E.works engine.new ≡ works_on result }
    ensures next { (result ≡ Stop.WriteFault → ⊥) → works_on result ≡ true → E.next engine.new ≡ Next.Line }
    ensures sizes { (E.sessions engine.new ≡ E.sessions engine.old) × (E.group engine.new ≡ E.group engine.old) }

    ensures cause_read_fault { HasCause (S.faults source.old) (S.faults source.new) (result ≡ Stop.ReadFault) }
    ensures cause_write_fault { HasCause (K.faults sink.old) (K.faults sink.new) (result ≡ Stop.WriteFault) }
    ensures cause_disk_fault { HasCause (D.faults (E.disk engine.old)) (D.faults (E.disk engine.new)) (result ≡ Stop.DiskFault) }
{
    match take_step(engine, reader, source, sink, buffer, LINES, events) {
        Some(stop) => stop,
        None => Stop::Refused { line: LINES },
    }
}

// Executes the line of this number. The answer is why it stops there, if it does.
fn take_step<S: Source, K: Sink<D>, D: Disk, E: Calls<D>>(
    engine: &mut E,
    reader: &mut LineReader,
    source: &mut S,
    sink: &mut K,
    buffer: &mut [u8; REPLY],
    number: u64,
    events: &mut Front,
) -> Option<Stop>
    requires number { (1 ≤ number) × (number ≤ 2 ^ 40) }
    requires works { E.works engine.old ≡ true }
    requires next { E.next engine.old ≡ Next.Line }
    ensures runs { (g : Opening) (xs : List Done) (start : Feed) (seen : List ℕ) → E.in_run engine.old g xs (durables g (moments xs)) → Reading start (S.feed source.old) reader.old seen
        → Stepped (Standing (E.in_run engine.new g) (events_in events.new.view)) 1 result (E.sessions engine.old) (E.group engine.old) g xs (number - 1) start seen (E.memory engine.old) (E.memory engine.new) reader.new (S.feed source.new) (K.held sink.old) (K.held sink.new) (D.story (E.disk engine.old)) (D.story (E.disk engine.new)) }
    ensures few { result ≡ None → number < 2 ^ 40 }
    ensures works { E.works engine.new ≡ works_behind result }
    ensures next { (result ≡ Some Stop.WriteFault → ⊥) → works_behind result ≡ true → E.next engine.new ≡ Next.Line }
    ensures sizes { (E.sessions engine.new ≡ E.sessions engine.old) × (E.group engine.new ≡ E.group engine.old) }

    ensures cause_read_fault { HasCause (S.faults source.old) (S.faults source.new) (result ≡ Some Stop.ReadFault) }
    ensures cause_write_fault { HasCause (K.faults sink.old) (K.faults sink.new) (result ≡ Some Stop.WriteFault) }
    ensures cause_disk_fault { HasCause (D.faults (E.disk engine.old)) (D.faults (E.disk engine.new)) (result ≡ Some Stop.DiskFault) }
{
    // What a crash between two calls leaves.
    laws();
    engine.told();
    let line = match next_call(reader, source, engine.session_count(), number) {
        Ok(line) => line,
        Err(stop) => return Some(stop),
    };
    execute_line(engine, sink, buffer, line.session, &line.call, events)
}

/// Executes a line on an engine that works, of which the next line may be asked, and puts what it is answered. The answer is why the engine stops there, if it
/// does. Whatever was read before, and wherever the line comes from: it stands in the run as if it had been handed out last.
pub fn execute_line<K: Sink<D>, D: Disk, E: Calls<D>>(
    engine: &mut E,
    sink: &mut K,
    buffer: &mut [u8; REPLY],
    session: u32,
    call: &Call,
    events: &mut Front,
) -> Option<Stop>
    requires fits { LineFits (E.sessions engine.old) session call.now }
    requires works { E.works engine.old ≡ true }
    requires next { E.next engine.old ≡ Next.Line }
    ensures runs { (g : Opening) (xs : List Done) (before : ℕ) (start feed : Feed) (seen : List ℕ) (reader : Unread) → before + 1 < 2 ^ 40 → E.in_run engine.old g xs (durables g (moments xs)) → Reading start feed reader (seen ++ (ask session call.now ++ 10 ∷ []))
        → LineSteps (Standing (E.in_run engine.new g) (events_in events.new.view)) session call.now result (E.sessions engine.old) (E.group engine.old) g xs before start seen (E.memory engine.old) (E.memory engine.new) reader feed (K.held sink.old) (K.held sink.new) (D.story (E.disk engine.old)) (D.story (E.disk engine.new)) }
    ensures stops { MayRun result }
    ensures works { E.works engine.new ≡ works_behind result }
    ensures next { result ≡ None → E.next engine.new ≡ Next.Line }
    ensures sizes { (E.sessions engine.new ≡ E.sessions engine.old) × (E.group engine.new ≡ E.group engine.old) }

    ensures cause_write_fault { HasCause (K.faults sink.old) (K.faults sink.new) (result ≡ Some Stop.WriteFault) }
    ensures cause_disk_fault { HasCause (D.faults (E.disk engine.old)) (D.faults (E.disk engine.new)) (result ≡ Some Stop.DiskFault) }
{
    // What a crash between two calls leaves.
    laws();
    engine.told();
    let answer = match call_engine(engine, session, call, events) {
        Ok(answer) => answer,
        Err(stop) => return Some(stop),
    };
    if let Some(stop) = put_answer(engine, sink, buffer, session, &answer) {
        return Some(stop);
    }
    finish_line(engine, sink, buffer, session, answer, events)
}

// What a line is answered further, behind an answer that was put: what follows the pairs of a scan, and the abort of a call that met a conflict.
fn finish_line<K: Sink<D>, D: Disk, E: Calls<D>>(
    engine: &mut E,
    sink: &mut K,
    buffer: &mut [u8; REPLY],
    session: u32,
    answer: Answer,
    events: &mut Front,
) -> Option<Stop>
    requires works { E.works engine.old ≡ true }
    requires next { E.next engine.old ≡ behind_durables (behind_answer answer) }
    ensures runs { (g : Opening) (y : Done) (earlier : List Done) → E.in_run engine.old g (y ∷ earlier) (durables g (moments (y ∷ earlier))) → IsNewest session answer (y ∷ earlier)
        → LineRuns (Standing (E.in_run engine.new g) (events_in events.new.view)) result (E.group engine.old) g (y ∷ earlier) (E.memory engine.old) (E.memory engine.new) (K.held sink.old) (K.held sink.new) (D.story (E.disk engine.old)) (D.story (E.disk engine.new)) }
    ensures stops { MayRun result }
    ensures works { E.works engine.new ≡ works_behind result }
    ensures next { result ≡ None → E.next engine.new ≡ Next.Line }
    ensures sizes { (E.sessions engine.new ≡ E.sessions engine.old) × (E.group engine.new ≡ E.group engine.old) }

    ensures cause_write_fault { HasCause (K.faults sink.old) (K.faults sink.new) (result ≡ Some Stop.WriteFault) }
    ensures cause_disk_fault { HasCause (D.faults (E.disk engine.old)) (D.faults (E.disk engine.new)) (result ≡ Some Stop.DiskFault) }
{
    laws();
    engine.told();
    let mut newest = answer;
    'pairs: loop {
        if !is_pair(&newest) {
            return end_line(engine, sink, buffer, session, &newest, events);
        }
        newest = match scan_on(engine, sink, buffer, session, events) {
            Ok(next) => next,
            Err(stop) => return Some(stop),
        };
    }
}

// Whether it is a pair of a scan.
fn is_pair(answer: &Answer) -> bool
    ensures { result ≡ is_pair answer.now }
{
    match *answer {
        Answer::Pair { .. } => true,
        _ => false,
    }
}

// One more step of a scan: what it is answered is put.
fn scan_on<K: Sink<D>, D: Disk, E: Calls<D>>(
    engine: &mut E,
    sink: &mut K,
    buffer: &mut [u8; REPLY],
    session: u32,
    events: &mut Front,
) -> Result<Answer, Stop>
    requires works { E.works engine.old ≡ true }
    requires next { E.next engine.old ≡ Next.Scan }
    ensures runs { IfOk result (λ a. (g : Opening) (y : Done) (earlier : List Done) → E.in_run engine.old g (y ∷ earlier) (durables g (moments (y ∷ earlier))) → y.outcome.session ≡ session
        → AnsweredTo (Standing (E.in_run engine.new g) (events_in events.new.view)) session a (E.group engine.old) g (y ∷ earlier) (E.memory engine.old) (E.memory engine.new) (K.held sink.old) (K.held sink.new) (D.story (E.disk engine.old)) (D.story (E.disk engine.new))) }
    ensures ends { IfErr result (λ stop. (g : Opening) (y : Done) (earlier : List Done) → E.in_run engine.old g (y ∷ earlier) (durables g (moments (y ∷ earlier))) → y.outcome.session ≡ session
        → AnswersRun (Standing (E.in_run engine.new g) (events_in events.new.view)) (Some stop) (E.group engine.old) g (y ∷ earlier) (E.memory engine.old) (E.memory engine.new) (K.held sink.old) (K.held sink.new) (D.story (E.disk engine.old)) (D.story (E.disk engine.new))) }
    ensures stops { IfErr result IsOfRunning }
    ensures works { IfOk result (λ a. E.works engine.new ≡ true) }
    ensures works_no_more { IfErr result (λ stop. E.works engine.new ≡ works_on stop) }
    ensures next { IfOk result (λ a. E.next engine.new ≡ behind_durables (behind_answer a)) }
    ensures fewer { IfOk result (λ a. is_pair a ≡ true → E.pairs_left engine.new < E.pairs_left engine.old) }
    ensures sizes { (E.sessions engine.new ≡ E.sessions engine.old) × (E.group engine.new ≡ E.group engine.old) }

    ensures cause_write_fault { HasCause (K.faults sink.old) (K.faults sink.new) (result ≡ Err Stop.WriteFault) }
    ensures cause_disk_fault { HasCause (D.faults (E.disk engine.old)) (D.faults (E.disk engine.new)) (result ≡ Err Stop.DiskFault) }
{
    laws();
    engine.told();
    let answer = match scan_engine(engine, events) {
        Ok(answer) => answer,
        Err(stop) => return Err(stop),
    };
    if let Some(stop) = put_answer(engine, sink, buffer, session, &answer) {
        return Err(stop);
    }
    Ok(answer)
}

// What a line is answered behind an answer that is no pair: only behind a conflict there is more.
fn end_line<K: Sink<D>, D: Disk, E: Calls<D>>(
    engine: &mut E,
    sink: &mut K,
    buffer: &mut [u8; REPLY],
    session: u32,
    newest: &Answer,
    events: &mut Front,
) -> Option<Stop>
    requires works { E.works engine.old ≡ true }
    requires next { E.next engine.old ≡ behind_durables (behind_answer newest.now) }
    requires no_pair { is_pair newest.now ≡ false }
    ensures runs { (g : Opening) (y : Done) (earlier : List Done) → E.in_run engine.old g (y ∷ earlier) (durables g (moments (y ∷ earlier))) → IsNewest session newest.now (y ∷ earlier)
        → LineRuns (Standing (E.in_run engine.new g) (events_in events.new.view)) result (E.group engine.old) g (y ∷ earlier) (E.memory engine.old) (E.memory engine.new) (K.held sink.old) (K.held sink.new) (D.story (E.disk engine.old)) (D.story (E.disk engine.new)) }
    ensures stops { MayRun result }
    ensures works { E.works engine.new ≡ works_behind result }
    ensures next { result ≡ None → E.next engine.new ≡ Next.Line }
    ensures sizes { (E.sessions engine.new ≡ E.sessions engine.old) × (E.group engine.new ≡ E.group engine.old) }

    ensures cause_write_fault { HasCause (K.faults sink.old) (K.faults sink.new) (result ≡ Some Stop.WriteFault) }
    ensures cause_disk_fault { HasCause (D.faults (E.disk engine.old)) (D.faults (E.disk engine.new)) (result ≡ Some Stop.DiskFault) }
{
    laws();
    engine.told();
    if !met_conflict(newest) {
        return None;
    }
    abort_hindered(engine, sink, buffer, session, events)
}

// Whether it is that a row is held by another session.
fn met_conflict(answer: &Answer) -> bool
    ensures { result ≡ is_conflict_in answer.now }
{
    match *answer {
        Answer::Refused(Refusal::Conflict { .. }) => true,
        _ => false,
    }
}

// The transaction whose call met a conflict is aborted, and what that is answered is put.
fn abort_hindered<K: Sink<D>, D: Disk, E: Calls<D>>(
    engine: &mut E,
    sink: &mut K,
    buffer: &mut [u8; REPLY],
    session: u32,
    events: &mut Front,
) -> Option<Stop>
    requires works { E.works engine.old ≡ true }
    requires next { E.next engine.old ≡ Next.Abort }
    ensures runs { (g : Opening) (y : Done) (earlier : List Done) (c : Asked) → E.in_run engine.old g (y ∷ earlier) (durables g (moments (y ∷ earlier))) → hindered_in y.outcome.deed ≡ Some c → y.outcome.session ≡ session
        → LineRuns (Standing (E.in_run engine.new g) (events_in events.new.view)) result (E.group engine.old) g (y ∷ earlier) (E.memory engine.old) (E.memory engine.new) (K.held sink.old) (K.held sink.new) (D.story (E.disk engine.old)) (D.story (E.disk engine.new)) }
    ensures stops { MayRun result }
    ensures works { E.works engine.new ≡ works_behind result }
    ensures next { result ≡ None → E.next engine.new ≡ Next.Line }
    ensures sizes { (E.sessions engine.new ≡ E.sessions engine.old) × (E.group engine.new ≡ E.group engine.old) }

    ensures cause_write_fault { HasCause (K.faults sink.old) (K.faults sink.new) (result ≡ Some Stop.WriteFault) }
    ensures cause_disk_fault { HasCause (D.faults (E.disk engine.old)) (D.faults (E.disk engine.new)) (result ≡ Some Stop.DiskFault) }
{
    laws();
    engine.told();
    let answer = match abort_engine(engine, events) {
        Ok(answer) => answer,
        Err(stop) => return Some(stop),
    };
    put_answer(engine, sink, buffer, session, &answer)
}

// Calls an engine that works.
fn call_engine<D: Disk, E: Calls<D>>(
    engine: &mut E,
    session: u32,
    call: &Call,
    events: &mut Front,
) -> Result<Answer, Stop>
    requires asked { IsAsked (E.sessions engine.old) session call.now }
    requires works { E.works engine.old ≡ true }
    requires next { E.next engine.old ≡ Next.Line }
    ensures does { IfOk result (λ a. (g : Opening) (xs : List Done) (names : List Name) → E.in_run engine.old g xs names
        → (d : Does g (E.group engine.old) xs session call.now a (E.memory engine.old) (E.memory engine.new) (D.story (E.disk engine.old)) (D.story (E.disk engine.new))) × E.in_run engine.new g (d.done ∷ xs) names) }
    ensures fits { IfOk result AnswerFits }
    ensures works { E.works engine.new ≡ true ↔ (IsErr result → ⊥) }
    ensures next { IfOk result (λ a. E.next engine.new ≡ behind_answer a) }
    ensures sizes { (E.sessions engine.new ≡ E.sessions engine.old) × (E.group engine.new ≡ E.group engine.old) }
    ensures stops { IfErr result IsOfEngine }
    ensures stood { IfErr result (λ stop. (g : Opening) (xs : List Done) (names : List Name) → E.in_run engine.old g xs names → events_in events.new.view ≡ front xs) }
    ensures fails { IfErr result (λ stop. (g : Opening) (xs : List Done) (names : List Name) → E.in_run engine.old g xs names
        → StopsFor stop (Fails g (E.group engine.old) xs session call.now (E.memory engine.old) (D.story (E.disk engine.old)) (D.story (E.disk engine.new))) (StandsNot g (E.group engine.old) xs (E.memory engine.old) (D.story (E.disk engine.old)))) }

    ensures cause { HasCause (D.faults (E.disk engine.old)) (D.faults (E.disk engine.new)) (result ≡ Err Stop.DiskFault) }
{
    *events = engine.front();
    match engine.call(session, call) {
        Ok(answer) => {
            has_line(&answer);
            Ok(answer)
        }
        Err(Unanswered::DiskFault) => Err(Stop::DiskFault),
        Err(Unanswered::Damaged { place }) => Err(Stop::Damaged { place }),
        Err(Unanswered::Broken) => unreachable!(),
    }
}

// And asks it for the abort that is due.
fn abort_engine<D: Disk, E: Calls<D>>(engine: &mut E, events: &mut Front) -> Result<Answer, Stop>
    requires works { E.works engine.old ≡ true }
    requires next { E.next engine.old ≡ Next.Abort }
    ensures does { IfOk result (λ a. (g : Opening) (y : Done) (earlier : List Done) (names : List Name) → E.in_run engine.old g (y ∷ earlier) names → (c : Asked) → hindered_in y.outcome.deed ≡ Some c
        → (d : Does g (E.group engine.old) (y ∷ earlier) y.outcome.session c a (E.memory engine.old) (E.memory engine.new) (D.story (E.disk engine.old)) (D.story (E.disk engine.new))) × E.in_run engine.new g (d.done ∷ y ∷ earlier) names) }
    ensures fits { IfOk result AnswerFits }
    ensures last { IfOk result (λ a. is_last a ≡ true) }
    ensures works { E.works engine.new ≡ true ↔ (IsErr result → ⊥) }
    ensures next { IfOk result (λ a. E.next engine.new ≡ behind_answer a) }
    ensures sizes { (E.sessions engine.new ≡ E.sessions engine.old) × (E.group engine.new ≡ E.group engine.old) }
    ensures stops { IfErr result IsOfEngine }
    ensures stood { IfErr result (λ stop. (g : Opening) (xs : List Done) (names : List Name) → E.in_run engine.old g xs names → events_in events.new.view ≡ front xs) }
    ensures fails { IfErr result (λ stop. (g : Opening) (y : Done) (earlier : List Done) (names : List Name) → E.in_run engine.old g (y ∷ earlier) names → (c : Asked) → hindered_in y.outcome.deed ≡ Some c
        → StopsFor stop (Fails g (E.group engine.old) (y ∷ earlier) y.outcome.session c (E.memory engine.old) (D.story (E.disk engine.old)) (D.story (E.disk engine.new))) (StandsNot g (E.group engine.old) (y ∷ earlier) (E.memory engine.old) (D.story (E.disk engine.old)))) }

    ensures cause { HasCause (D.faults (E.disk engine.old)) (D.faults (E.disk engine.new)) (result ≡ Err Stop.DiskFault) }
{
    *events = engine.front();
    match engine.abort_hindered() {
        Ok(answer) => {
            has_line(&answer);
            Ok(answer)
        }
        Err(Unanswered::DiskFault) => Err(Stop::DiskFault),
        Err(Unanswered::Damaged { place }) => Err(Stop::Damaged { place }),
        Err(Unanswered::Broken) => unreachable!(),
    }
}

// And for what follows a pair of a scan.
fn scan_engine<D: Disk, E: Calls<D>>(engine: &mut E, events: &mut Front) -> Result<Answer, Stop>
    requires works { E.works engine.old ≡ true }
    requires next { E.next engine.old ≡ Next.Scan }
    ensures does { IfOk result (λ a. (g : Opening) (y : Done) (earlier : List Done) (names : List Name) → E.in_run engine.old g (y ∷ earlier) names
        → (d : Does g (E.group engine.old) (y ∷ earlier) y.outcome.session (asked y.outcome.deed) a (E.memory engine.old) (E.memory engine.new) (D.story (E.disk engine.old)) (D.story (E.disk engine.new))) × E.in_run engine.new g (d.done ∷ y ∷ earlier) names) }
    ensures fits { IfOk result AnswerFits }
    ensures works { E.works engine.new ≡ true ↔ (IsErr result → ⊥) }
    ensures next { IfOk result (λ a. E.next engine.new ≡ behind_answer a) }
    ensures fewer { IfOk result (λ a. E.next engine.new ≡ Next.Scan → E.pairs_left engine.new < E.pairs_left engine.old) }
    ensures sizes { (E.sessions engine.new ≡ E.sessions engine.old) × (E.group engine.new ≡ E.group engine.old) }
    ensures stops { IfErr result IsOfEngine }
    ensures stood { IfErr result (λ stop. (g : Opening) (xs : List Done) (names : List Name) → E.in_run engine.old g xs names → events_in events.new.view ≡ front xs) }
    ensures fails { IfErr result (λ stop. (g : Opening) (y : Done) (earlier : List Done) (names : List Name) → E.in_run engine.old g (y ∷ earlier) names
        → StopsFor stop (Fails g (E.group engine.old) (y ∷ earlier) y.outcome.session (asked y.outcome.deed) (E.memory engine.old) (D.story (E.disk engine.old)) (D.story (E.disk engine.new))) (StandsNot g (E.group engine.old) (y ∷ earlier) (E.memory engine.old) (D.story (E.disk engine.old)))) }

    ensures cause { HasCause (D.faults (E.disk engine.old)) (D.faults (E.disk engine.new)) (result ≡ Err Stop.DiskFault) }
{
    *events = engine.front();
    match engine.scan_on() {
        Ok(answer) => {
            has_line(&answer);
            Ok(answer)
        }
        Err(Unanswered::DiskFault) => Err(Stop::DiskFault),
        Err(Unanswered::Damaged { place }) => Err(Stop::Damaged { place }),
        Err(Unanswered::Broken) => unreachable!(),
    }
}

// What other crates prove of crashes and of logs.
fn laws()
    ensures { Laws }
{
    call_parts::every_shown();
    call_parts::every_run_crash();
    call_parts::every_agreement();
    call_parts::every_kept();
    call_parts::every_prefix();
    call_parts::every_sealed();
}
