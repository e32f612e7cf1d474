// The lines that a run puts of itself, as an engine has the disk.
ghost use Rattle.std.specs.Prelude.{◌≡◌, ◌≤◌, ℕ, List};
ghost use Rattle.buffered_engine.specs.core_state.Openings.{Opening};
ghost use Rattle.buffered_engine.specs.core_calls.Fronts.{Done};
ghost use Rattle.map_model.specs.Journals.{Name};
ghost use Rattle.lean_disk.specs.Faults.{HasCause};
ghost use Rattle.script_lang.specs.Notices.{Notice, NoticeFits};
ghost use Rattle.script_run.specs.declared.stop.Stop.{Stop};
ghost use Rattle.buffered_engine.specs.lean_edge.Outside.{IsWholeLine};
ghost use Rattle.lean_shell.specs.Lines.{IsPut, line_of};
ghost use Rattle.lean_shell.specs.Inside.Openings.{EndsWith};
ghost use Rattle.lean_shell.specs.Runs.{Counts, first_line, last_line};

use buffered_engine::{EngineFrontCalls as Calls, Put, Sink};
use lean_disk::Disk;
use script_lang::{
    DISK_FAULT, READ_FAULT, REPLY, damaged_bytes, fixed_lines, notices_are_no_replies,
    opened_bytes, refused_bytes,
};
use script_run::Stop;

/// Puts one line.
fn put_line<K: Sink<D>, D: Disk, E: Calls<D>>(line: &[u8], sink: &mut K, engine: &mut E) -> Put
    requires { IsWholeLine line.now }
    ensures put { IsPut line.now result (K.held sink.old) (K.held sink.new) (D.story (E.disk engine.old)) (D.story (E.disk engine.new)) }
    ensures same { (E.memory engine.new ≡ E.memory engine.old) × (E.works engine.new ≡ E.works engine.old) × (D.faults (E.disk engine.new) ≡ D.faults (E.disk engine.old)) × (E.next engine.new ≡ E.next engine.old) }
    ensures sizes { (E.sessions engine.new ≡ E.sessions engine.old) × (E.group engine.new ≡ E.group engine.old) }
    ensures in_run { (g : Opening) (xs : List Done) (names : List Name) → E.in_run engine.old g xs names → E.in_run engine.new g xs names }

    ensures cause { HasCause (K.faults sink.old) (K.faults sink.new) (result ≡ Put.Failed) }
{
    engine.put_line(sink, line)
}

/// Puts the first line: the new generation, and how many transactions were found committed and how many were undone.
pub(crate) fn put_opened<K: Sink<D>, D: Disk, E: Calls<D>>(
    generation: u64,
    winners: u64,
    undone: u64,
    sink: &mut K,
    engine: &mut E,
) -> Put
    ensures put { IsPut (first_line (record { generation = generation; winners = winners; undone = undone })) result (K.held sink.old) (K.held sink.new) (D.story (E.disk engine.old)) (D.story (E.disk engine.new)) }
    ensures fits { NoticeFits (Notice.Opened generation winners undone) }
    ensures same { (E.memory engine.new ≡ E.memory engine.old) × (E.works engine.new ≡ E.works engine.old) × (D.faults (E.disk engine.new) ≡ D.faults (E.disk engine.old)) × (E.next engine.new ≡ E.next engine.old) }
    ensures sizes { (E.sessions engine.new ≡ E.sessions engine.old) × (E.group engine.new ≡ E.group engine.old) }
    ensures in_run { (g : Opening) (xs : List Done) (names : List Name) → E.in_run engine.old g xs names → E.in_run engine.new g xs names }

    ensures cause { HasCause (K.faults sink.old) (K.faults sink.new) (result ≡ Put.Failed) }
{
    notices_are_no_replies();
    let mut line = [0; REPLY];
    let end = opened_bytes(generation, winners, undone, &mut line);
    put_line(&line[..end], sink, engine)
}

fn put_refused<K: Sink<D>, D: Disk, E: Calls<D>>(number: u64, sink: &mut K, engine: &mut E) -> Put
    ensures put { IsPut (line_of (Notice.Refused number)) result (K.held sink.old) (K.held sink.new) (D.story (E.disk engine.old)) (D.story (E.disk engine.new)) }
    ensures same { (E.memory engine.new ≡ E.memory engine.old) × (E.works engine.new ≡ E.works engine.old) × (D.faults (E.disk engine.new) ≡ D.faults (E.disk engine.old)) × (E.next engine.new ≡ E.next engine.old) }
    ensures sizes { (E.sessions engine.new ≡ E.sessions engine.old) × (E.group engine.new ≡ E.group engine.old) }
    ensures in_run { (g : Opening) (xs : List Done) (names : List Name) → E.in_run engine.old g xs names → E.in_run engine.new g xs names }

    ensures cause { HasCause (K.faults sink.old) (K.faults sink.new) (result ≡ Put.Failed) }
{
    notices_are_no_replies();
    let mut line = [0; REPLY];
    let end = refused_bytes(number, &mut line);
    put_line(&line[..end], sink, engine)
}

fn put_damaged<K: Sink<D>, D: Disk, E: Calls<D>>(place: u64, sink: &mut K, engine: &mut E) -> Put
    ensures put { IsPut (line_of (Notice.Damaged 1 place)) result (K.held sink.old) (K.held sink.new) (D.story (E.disk engine.old)) (D.story (E.disk engine.new)) }
    ensures same { (E.memory engine.new ≡ E.memory engine.old) × (E.works engine.new ≡ E.works engine.old) × (D.faults (E.disk engine.new) ≡ D.faults (E.disk engine.old)) × (E.next engine.new ≡ E.next engine.old) }
    ensures sizes { (E.sessions engine.new ≡ E.sessions engine.old) × (E.group engine.new ≡ E.group engine.old) }
    ensures in_run { (g : Opening) (xs : List Done) (names : List Name) → E.in_run engine.old g xs names → E.in_run engine.new g xs names }

    ensures cause { HasCause (K.faults sink.old) (K.faults sink.new) (result ≡ Put.Failed) }
{
    notices_are_no_replies();
    let mut line = [0; REPLY];
    // Pages stand in area 1.
    let end = damaged_bytes(1, place, &mut line);
    put_line(&line[..end], sink, engine)
}

// Puts the last line of a script that stopped, if it has one.
pub(crate) fn put_last<K: Sink<D>, D: Disk, E: Calls<D>>(stop: Stop, sink: &mut K, engine: &mut E)
    ensures put { EndsWith stop (K.held sink.old) (K.held sink.new) (K.faults sink.old) (K.faults sink.new) (D.story (E.disk engine.old)) (D.story (E.disk engine.new)) }
    ensures same { (E.memory engine.new ≡ E.memory engine.old) × (E.works engine.new ≡ E.works engine.old) × (D.faults (E.disk engine.new) ≡ D.faults (E.disk engine.old)) × (E.next engine.new ≡ E.next engine.old) }
    ensures sizes { (E.sessions engine.new ≡ E.sessions engine.old) × (E.group engine.new ≡ E.group engine.old) }
    ensures in_run { (g : Opening) (xs : List Done) (names : List Name) → E.in_run engine.old g xs names → E.in_run engine.new g xs names }
    ensures later { K.faults sink.old ≤ K.faults sink.new }
{
    fixed_lines();
    notices_are_no_replies();
    match stop {
        Stop::End => {}
        Stop::WriteFault => {}
        Stop::Refused { line } => {
            put_refused(line, sink, engine);
        }
        Stop::ReadFault => {
            put_line(READ_FAULT, sink, engine);
        }
        Stop::DiskFault => {
            put_line(DISK_FAULT, sink, engine);
        }
        Stop::Damaged { place } => {
            put_damaged(place, sink, engine);
        }
    }
}
