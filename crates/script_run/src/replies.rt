// What is printed of a call.
ghost use Rattle.std.specs.Prelude.{◌≡◌, ◌<◌, ◌^◌, ◌∷◌, ◌++◌, List, None, Some, true, false};
ghost use Rattle.call_parts.specs.core_state.Openings.{Opening};
ghost use Rattle.call_parts.specs.core_state.Steps.{state_after};
ghost use Rattle.call_parts.specs.core_calls.Deeds.{answered};
ghost use Rattle.call_parts.specs.core_calls.Durables.{due, durables, moments};
ghost use Rattle.call_parts.specs.core_calls.Fronts.{Done, front};
ghost use Rattle.call_parts.specs.core_calls.Printed.{durable_lines};
ghost use Rattle.lean_disk.specs.Calls.{Noted};
ghost use Rattle.lean_disk.specs.Faults.{HasCause};
ghost use Rattle.lean_edge.specs.Outside.{Puts};
ghost use Rattle.call_parts.specs.run_crashes.Lines.{lines_of};
ghost use Rattle.call_parts.specs.engine_trait.Calls.{HasCome};
ghost use Rattle.engine_front.specs.Turns.{behind_answer, behind_durables};
ghost use Rattle.map_model.specs.Journals.{Name};
ghost use Rattle.map_model.specs.Outputs.{Reply};
ghost use Rattle.map_model.specs.Pairings.{is_last};
ghost use Rattle.script_lang.specs.Replies.{AnswerFits, Fits, reply_line};
ghost use Rattle.script_run.specs.Inside.{HasTold, IsOfPutting, Says};

use crate::stop::Stop;
use engine_front::calls::{Calls, Durable};
use lean_disk::Disk;
use lean_edge::{Put, Sink};
use map_model::{Answer, Refusal};
use script_lang::{REPLY, durable_bytes, replies_are_read_back, reply_bytes};

/// Puts an answer, and behind the last one to a line that commits are durable, as long as the engine tells of one. The result is why the script stops there.
pub(crate) fn put_answer<K: Sink<D>, D: Disk, E: Calls<D>>(
    engine: &mut E,
    sink: &mut K,
    buffer: &mut [u8; REPLY],
    session: u32,
    answer: &Answer,
) -> Option<Stop>
    requires fits { AnswerFits answer.now }
    requires works { E.works engine.old ≡ true }
    requires next { E.next engine.old ≡ behind_answer answer.now }
    ensures says { (g : Opening) (xs : List Done) (x : Done) → E.in_run engine.old g (x ∷ xs) (durables g (moments xs)) → x.outcome.session ≡ session → answered x.outcome.deed ≡ answer.now → Fits (Reply.Answered session answer.now)
        → Says (lines_of g xs x) result (K.held sink.old) (K.held sink.new) (D.story (E.disk engine.old)) (D.story (E.disk engine.new)) × HasTold result (E.in_run engine.new g (x ∷ xs)) (durables g (moments (x ∷ xs))) }
    ensures stops { IsOfPutting result }
    ensures next { result ≡ None → E.next engine.new ≡ behind_durables (E.next engine.old) }
    ensures pairs { is_last answer.now ≡ false → E.pairs_left engine.new ≡ E.pairs_left engine.old }
    ensures same { (E.memory engine.new ≡ E.memory engine.old) × (E.works engine.new ≡ E.works engine.old) × (D.faults (E.disk engine.new) ≡ D.faults (E.disk engine.old)) }
    ensures sizes { (E.sessions engine.new ≡ E.sessions engine.old) × (E.group engine.new ≡ E.group engine.old) }

    ensures cause_write_fault { HasCause (K.faults sink.old) (K.faults sink.new) (result ≡ Some Stop.WriteFault) }
{
    engine.told();
    let Put::Done = put_reply(engine, sink, buffer, session, answer) else {
        return Some(Stop::WriteFault);
    };
    if !is_last(answer) {
        return None;
    }
    put_durables(engine, sink, buffer)
}

// Whether no further answer belongs to the same line.
fn is_last(answer: &Answer) -> bool
    ensures { result ≡ is_last answer.now }
{
    match *answer {
        Answer::Pair { .. } => false,
        Answer::Refused(Refusal::Conflict { .. }) => false,
        _ => true,
    }
}

// Puts a line for each commit that has become durable.
fn put_durables<K: Sink<D>, D: Disk, E: Calls<D>>(
    engine: &mut E,
    sink: &mut K,
    buffer: &mut [u8; REPLY],
) -> Option<Stop>
    requires works { E.works engine.old ≡ true }
    ensures says { (g : Opening) (xs : List Done) (names : List Name) → E.in_run engine.old g xs names
        → Says (durable_lines (due g (state_after g (front xs)) names)) result (K.held sink.old) (K.held sink.new) (D.story (E.disk engine.old)) (D.story (E.disk engine.new))
        × HasTold result (E.in_run engine.new g xs) (due g (state_after g (front xs)) names ++ names) }
    ensures stops { IsOfPutting result }
    ensures next { result ≡ None → E.next engine.new ≡ behind_durables (E.next engine.old) }
    ensures same { (E.memory engine.new ≡ E.memory engine.old) × (E.works engine.new ≡ E.works engine.old) × (D.faults (E.disk engine.new) ≡ D.faults (E.disk engine.old)) }
    ensures sizes { (E.sessions engine.new ≡ E.sessions engine.old) × (E.group engine.new ≡ E.group engine.old) }

    ensures cause_write_fault { HasCause (K.faults sink.old) (K.faults sink.new) (result ≡ Some Stop.WriteFault) }
{
    engine.told();
    'lines: loop {
        let Some(durable) = engine.next_durable() else {
            return None;
        };
        let Put::Done = put_durable(engine, sink, buffer, &durable) else {
            return Some(Stop::WriteFault);
        };
    }
}

// Puts the line of an answer.
fn put_reply<K: Sink<D>, D: Disk, E: Calls<D>>(
    engine: &mut E,
    sink: &mut K,
    buffer: &mut [u8; REPLY],
    session: u32,
    answer: &Answer,
) -> Put
    requires { AnswerFits answer.now }
    ensures put { Puts (reply_line (Reply.Answered session answer.now)) result (K.held sink.old) (K.held sink.new) }
    ensures noted { result ≡ Put.Done → Noted (D.story (E.disk engine.old)) (D.story (E.disk engine.new)) }
    ensures not_noted { result ≡ Put.Failed → engine.new ≡ engine.old }
    ensures same { (E.memory engine.new ≡ E.memory engine.old) × (E.works engine.new ≡ E.works engine.old) × (D.faults (E.disk engine.new) ≡ D.faults (E.disk engine.old)) × (E.next engine.new ≡ E.next engine.old) }
    ensures sizes { (E.sessions engine.new ≡ E.sessions engine.old) × (E.group engine.new ≡ E.group engine.old) × (E.pairs_left engine.new ≡ E.pairs_left engine.old) }
    ensures in_run { (g : Opening) (xs : List Done) (names : List Name) → E.in_run engine.old g xs names → E.in_run engine.new g xs names }

    ensures cause { HasCause (K.faults sink.old) (K.faults sink.new) (result ≡ Put.Failed) }
{
    // Each reply is one line.
    replies_are_read_back();
    let end = reply_bytes(session, answer, buffer);
    engine.put_line(sink, &buffer[..end])
}

// Puts the line that a transaction is durable.
fn put_durable<K: Sink<D>, D: Disk, E: Calls<D>>(
    engine: &mut E,
    sink: &mut K,
    buffer: &mut [u8; REPLY],
    durable: &Durable,
) -> Put
    ensures put { Puts (reply_line (Reply.Durable durable.now.session durable.now.number)) result (K.held sink.old) (K.held sink.new) }
    ensures noted { result ≡ Put.Done → Noted (D.story (E.disk engine.old)) (D.story (E.disk engine.new)) }
    ensures not_noted { result ≡ Put.Failed → engine.new ≡ engine.old }
    ensures same { (E.memory engine.new ≡ E.memory engine.old) × (E.works engine.new ≡ E.works engine.old) × (D.faults (E.disk engine.new) ≡ D.faults (E.disk engine.old)) × (E.next engine.new ≡ E.next engine.old) }
    ensures sizes { (E.sessions engine.new ≡ E.sessions engine.old) × (E.group engine.new ≡ E.group engine.old) × (E.waiting engine.new ≡ E.waiting engine.old) }
    ensures in_run { (g : Opening) (xs : List Done) (names : List Name) → E.in_run engine.old g xs names → E.in_run engine.new g xs names }
    ensures fits { Fits (Reply.Durable durable.now.session durable.now.number) }

    ensures cause { HasCause (K.faults sink.old) (K.faults sink.new) (result ≡ Put.Failed) }
{
    replies_are_read_back();
    let end = durable_bytes(durable.session, durable.number, buffer);
    engine.put_line(sink, &buffer[..end])
}

/// An answer that has come has a line, since its numbers fit their types.
pub(crate) fn has_line(answer: &Answer)
    requires { HasCome 2 answer.now }
    ensures { AnswerFits answer.now }
{
    match *answer {
        Answer::Begun { number } => fit(number, 0),
        Answer::Value(Some(value)) => fit(value, 0),
        Answer::Was(Some(value)) => fit(value, 0),
        Answer::Pair { key, value } => fit(key, value),
        Answer::More { from } => fit(from, 0),
        Answer::Committed { number, at } => fit(number, at),
        Answer::Aborted { number } => fit(number, 0),
        Answer::Synced { at } => fit(at, 0),
        Answer::Refused(Refusal::LogFull { used, limit }) => blocks_fit(used, limit),
        Answer::Refused(Refusal::Conflict { holder }) => blocks_fit(holder, 0),
        _ => (),
    }
}

// Numbers that are here fit their types.
fn fit(one: u64, other: u64)
    ensures { (one < 2 ^ 64) × (other < 2 ^ 64) }
{}

fn blocks_fit(used: u32, limit: u32)
    ensures { (used < 2 ^ 32) × (limit < 2 ^ 32) }
{}
