// What the next line of a script asks.
ghost use Rattle.std.specs.Prelude.{◌≡◌, ◌≤◌, ◌<◌, ◌^◌, ℕ, List, Err, IfOk, IfErr};
ghost use Rattle.lean_disk.specs.Faults.{HasCause};
ghost use Rattle.lean_edge.specs.Outside.{Feed};
ghost use Rattle.script_lang.specs.Reading.{Reading};
ghost use Rattle.transcripts.specs.Told.{LineFits};
ghost use Rattle.script_run.specs.Inside.{AskIs, IsAsk, IsNoAsk, IsOfReading};

use crate::stop::Stop;
use lean_edge::Source;
use script_lang::{Line, LineReader, NextLine, read_line};

/// No line has this number or a greater one.
pub const LINES: u64 = 1 << 40;

/// What the line of this number asks, which is the next one, of a script for so many sessions.
pub(crate) fn next_call<S: Source>(
    reader: &mut LineReader,
    source: &mut S,
    sessions: u32,
    number: u64,
) -> Result<Line, Stop>
    requires { number ≤ 2 ^ 40 }
    ensures fits { IfOk result (λ line. LineFits sessions line.session line.call) }
    ensures few { IfOk result (λ line. number < 2 ^ 40) }
    ensures stop { IfErr result IsOfReading }
    ensures read { (start : Feed) (seen : List ℕ) → Reading start (S.feed source.old) reader.old seen → AskIs sessions result number start (S.feed source.new) reader.new seen }

    ensures cause_read_fault { HasCause (S.faults source.old) (S.faults source.new) (result ≡ Err Stop.ReadFault) }
{
    match reader.next_line(source) {
        NextLine::Got => call_in(reader.line(), sessions, number),
        NextLine::TooLong => Err(Stop::Refused { line: number }),
        NextLine::End => Err(Stop::End),
        NextLine::Failed => Err(Stop::ReadFault),
    }
}

fn call_in(bytes: &[u8], sessions: u32, number: u64) -> Result<Line, Stop>
    requires { number ≤ 2 ^ 40 }
    ensures answer { IfOk result (IsAsk sessions bytes.now number) }
    ensures cause { IfErr result (IsNoAsk sessions bytes.now number) }
{
    if number == LINES {
        return Err(Stop::Refused { line: number });
    }
    match read_line(sessions, bytes) {
        Ok(line) => Ok(line),
        Err(_) => Err(Stop::Refused { line: number }),
    }
}
