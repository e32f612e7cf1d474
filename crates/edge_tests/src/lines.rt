// What lines say, how replies are spelled, and how a text is cut into lines. The lines and what they say come from a
// Python script over a regular expression.
ghost use Rattle.std.specs.Prelude.{ℕ, [], false};
ghost use Rattle.lean_edge.specs.Outside.{Feed};
ghost use Rattle.script_lang.specs.Replies.{AnswerFits};

use crate::cases::expect;
use lean_edge::{Next, Source};
use map_model::{Answer, Call, Refusal};
use script_lang::{
    ALREADY_FORMATTED, DISK_FAULT, END, LineReader, NO_MEMORY, NOT_FORMATTED, NextLine, READ_FAULT,
    REPLY, USAGE, damaged_bytes, durable_bytes, formatted_bytes, opened_bytes, pair_bytes,
    read_line, refused_bytes, reply_bytes,
};
use std::alloc::{AllocError, Global};
use std::str;

const WORKERS: u32 = 16;

static GOOD: [(&[u8], u32, Call); 23] = [
    (b"1 begin", 1, Call::Begin),
    (b"16 begin", 16, Call::Begin),
    (b"2 commit", 2, Call::Commit),
    (b"1 abort", 1, Call::Abort),
    (b"16 abort", 16, Call::Abort),
    (b"9 get 0", 9, Call::Get { key: 0 }),
    (b"1 get 7", 1, Call::Get { key: 7 }),
    (
        b"1 get 18446744073709551614",
        1,
        Call::Get {
            key: 18446744073709551614,
        },
    ),
    (b"1 del 0", 1, Call::Del { key: 0 }),
    (b"12 del 5", 12, Call::Del { key: 5 }),
    (
        b"1 del 18446744073709551614",
        1,
        Call::Del {
            key: 18446744073709551614,
        },
    ),
    (b"1 put 0 0", 1, Call::Put { key: 0, value: 0 }),
    (b"1 put 5 7", 1, Call::Put { key: 5, value: 7 }),
    (
        b"10 put 18446744073709551614 9223372036854775807",
        10,
        Call::Put {
            key: 18446744073709551614,
            value: 9223372036854775807,
        },
    ),
    (
        b"16 put 18446744073709551609 9223372036854775799",
        16,
        Call::Put {
            key: 18446744073709551609,
            value: 9223372036854775799,
        },
    ),
    (
        b"1 put 5 9223372036854775807",
        1,
        Call::Put {
            key: 5,
            value: 9223372036854775807,
        },
    ),
    (b"1 scan 0 0", 1, Call::Scan { from: 0, to: 0 }),
    (b"1 scan 0 9", 1, Call::Scan { from: 0, to: 9 }),
    (b"3 scan 9 1", 3, Call::Scan { from: 9, to: 1 }),
    (
        b"16 scan 0 18446744073709551614",
        16,
        Call::Scan {
            from: 0,
            to: 18446744073709551614,
        },
    ),
    (
        b"1 scan 18446744073709551614 0",
        1,
        Call::Scan {
            from: 18446744073709551614,
            to: 0,
        },
    ),
    (
        b"10 scan 18446744073709551609 18446744073709551614",
        10,
        Call::Scan {
            from: 18446744073709551609,
            to: 18446744073709551614,
        },
    ),
    (b"sync", 0, Call::Sync),
];

static BAD: [&[u8]; 131] = [
    b"",
    b" ",
    b"1",
    b"1 ",
    b"1  begin",
    b" 1 begin",
    b"1 begin ",
    b"1 begin\r",
    b"1\tbegin",
    b"1 begin\n",
    b"\n",
    b"1 begin\0",
    b"\01 begin",
    b"1 begi\xc3\xb1",
    b"\xff",
    b"0 begin",
    b"17 begin",
    b"01 begin",
    b"-1 begin",
    b"+1 begin",
    b"4294967297 begin",
    b"18446744073709551617 begin",
    b"1 Begin",
    b"1 BEGIN",
    b"1 begins",
    b"1 begi",
    b"1 begin 1",
    b"begin",
    b"begin 1",
    b"x begin",
    b"1 commit 5",
    b"1 commit ",
    b"1 Commit",
    b"1 committed",
    b"1 get",
    b"1 get ",
    b"1 get  5",
    b"1 get 05",
    b"1 get 00",
    b"1 get -5",
    b"1 get +5",
    b"1 get 18446744073709551615",
    b"1 get 18446744073709551616",
    b"1 get 123456789012345678901234567890",
    b"1 get 5 ",
    b"1 get 5 6",
    b"1 get 5a",
    b"1 get a5",
    b"1 get 0x5",
    b"1 get 5.0",
    b"1 gets 5",
    b"1get 5",
    b"1 put 5",
    b"1 put 5 ",
    b"1 put",
    b"1 put  5 7",
    b"1 put 5  7",
    b"1 put 5 7 ",
    b"1 put 5 7 9",
    b"1 put 5 9223372036854775808",
    b"1 put 18446744073709551615 7",
    b"1 put 5 07",
    b"1 put 05 7",
    b"1 put 5 -7",
    b"1 put 5 none",
    b"1 dels 5",
    b"1 del",
    b"1 del ",
    b"1 del  5",
    b"1 del 05",
    b"1 del -5",
    b"1 del 18446744073709551615",
    b"1 del 5 ",
    b"1 del 5 6",
    b"1 del 5a",
    b"1 delete 5",
    b"1del 5",
    b"1 Del 5",
    b"1 scan",
    b"1 scan ",
    b"1 scan 5",
    b"1 scan 5 ",
    b"1 scan  5 7",
    b"1 scan 5  7",
    b"1 scan 5 7 ",
    b"1 scan 5 7 9",
    b"1 scan 05 7",
    b"1 scan 5 07",
    b"1 scan -5 7",
    b"1 scan 5 -7",
    b"1 scan 18446744073709551615 7",
    b"1 scan 5 18446744073709551615",
    b"1 scan 5 18446744073709551616",
    b"1 scans 5 7",
    b"1 scan5 7",
    b"1 scan 5,7",
    b"1 scan 5-7",
    b"1 scan 5 7a",
    b"1 Scan 5 7",
    b"1 sca 5 7",
    b"1scan 5 7",
    b"scan 5 7",
    b"1 pair 5 7",
    b"1 more 5",
    b"1 end",
    b"1 aborts",
    b"1 abort ",
    b"1 abort 1",
    b"1 Abort",
    b"1 aborted",
    b"abort",
    b"0 sync",
    b"1 sync",
    b"16 sync",
    b" sync",
    b"sync ",
    b"sync 1",
    b"sync\r",
    b"syn",
    b"syncs",
    b"synced",
    b"synced 5",
    b"Sync",
    b"checkpoint",
    b"1 durable 1.1",
    b"1 get 11111111111111111111111111111111111111111111111111111111111111111111111111",
    b"1 get 111111111111111111111111111111111111111111111111111111111111111111111111111",
    b"1 begin                                                                         ",
    b"1 begin                                                                          ",
    b"00000000000000000000000000000000000000000000000000000000000000000000000000000000",
    b"000000000000000000000000000000000000000000000000000000000000000000000000000000000",
];

fn is_read(bytes: &[u8], session: u32, call: Call) -> bool {
    match read_line(WORKERS, bytes) {
        Ok(line) => line.session == session && line.call == call,
        Err(_) => false,
    }
}

// How a failed case names its line.
fn text_of(line: &[u8]) -> &str {
    str::from_utf8(line).unwrap_or("a line that is no text")
}

#[test]
fn lines_of_the_grammar_are_read_and_others_are_refused(rt: HostRuntime) {
    for (line, session, call) in &GOOD {
        expect(&rt, text_of(line), Ok(is_read(line, *session, *call)));
    }
    for line in &BAD {
        expect(&rt, text_of(line), Ok(read_line(WORKERS, line).is_err()));
    }
}

// A line of output that is no fixed one.
enum Said {
    Durable(u32, u64),
    Opened(u64, u64, u64),
    Formatted(u32, u32, u32),
    Refused(u64),
    Damaged(u32, u64),
    Pair(u64, u64),
}

static LINES: [(Said, &[u8]); 7] = [
    (Said::Durable(1, 1), b"1 durable 1.1\n"),
    (Said::Opened(2, 1, 0), b"open 2 winners 1 undone 0\n"),
    (Said::Formatted(1, 64, 64), b"formatted 1 64 64\n"),
    (Said::Refused(2), b"lean: line 2 refused\n"),
    (Said::Damaged(2, 63), b"lean: damaged area 2 place 63\n"),
    (Said::Pair(0, 7), b"pair 0 7\n"),
    (
        Said::Pair(18446744073709551614, 9223372036854775807),
        b"pair 18446744073709551614 9223372036854775807\n",
    ),
];

static FIXED: [(&[u8], &[u8]); 7] = [
    (END, b"end\n"),
    (USAGE, b"lean: usage\n"),
    (READ_FAULT, b"lean: read fault\n"),
    (DISK_FAULT, b"lean: disk fault\n"),
    (NO_MEMORY, b"lean: no memory\n"),
    (NOT_FORMATTED, b"lean: not formatted\n"),
    (ALREADY_FORMATTED, b"lean: already formatted\n"),
];

// Writes the line, and answers how many bytes it has.
fn line_of(said: &Said, into: &mut [u8; REPLY]) -> usize {
    match said {
        Said::Durable(session, number) => durable_bytes(*session, *number, into),
        Said::Opened(generation, winners, undone) => {
            opened_bytes(*generation, *winners, *undone, into)
        }
        Said::Formatted(workers, pages, blocks) => {
            formatted_bytes(*workers, *pages, *blocks, into)
        }
        Said::Refused(line) => refused_bytes(*line, into),
        Said::Damaged(area, place) => damaged_bytes(*area, *place, into),
        Said::Pair(key, value) => pair_bytes(*key, *value, into),
    }
}

// It is the line, and what is behind it in the buffer stands.
fn is_spelled(said: &Said, line: &[u8]) -> bool {
    let mut into = [b'x'; REPLY];
    let n = line_of(said, &mut into);
    n == line.len() && into.get(..n) == Some(line) && into.get(n) == Some(&b'x')
}

// An answer that a script is told.
enum Told {
    Begun(u64),
    Value(u64),
    NoValue,
    Was(u64),
    WasNone,
    Pair(u64, u64),
    More(u64),
    End,
    Committed(u64, u64),
    Aborted(u64),
    Synced(u64),
    InTransaction,
    NoTransaction,
    TooLong,
    LogFull(u32, u32),
    ClockSpent,
    RowSpent,
    Conflict(u32),
    TooTall,
    NoPages,
}

static REPLIES: [(u32, Told, &[u8]); 31] = [
    (1, Told::Begun(1), b"1 begun 1.1\n"),
    (1, Told::Value(7), b"1 value 7\n"),
    (1, Told::NoValue, b"1 none\n"),
    (
        2,
        Told::Was(9223372036854775807),
        b"2 was 9223372036854775807\n",
    ),
    (2, Told::WasNone, b"2 was none\n"),
    (3, Told::Was(0), b"3 was 0\n"),
    (1, Told::Pair(5, 7), b"1 pair 5 7\n"),
    (16, Told::Pair(0, 0), b"16 pair 0 0\n"),
    (
        1,
        Told::Pair(18446744073709551614, 9223372036854775807),
        b"1 pair 18446744073709551614 9223372036854775807\n",
    ),
    (
        4294967295,
        Told::Pair(18446744073709551615, 18446744073709551615),
        b"4294967295 pair 18446744073709551615 18446744073709551615\n",
    ),
    (1, Told::More(65), b"1 more 65\n"),
    (
        4294967295,
        Told::More(18446744073709551615),
        b"4294967295 more 18446744073709551615\n",
    ),
    (1, Told::End, b"1 end\n"),
    (16, Told::End, b"16 end\n"),
    (1, Told::Committed(1, 2), b"1 committed 1.1 at 2\n"),
    (1, Told::Aborted(2), b"1 aborted 1.2\n"),
    (0, Told::Synced(0), b"synced 0\n"),
    (0, Told::Synced(9), b"synced 9\n"),
    (
        0,
        Told::Synced(18446744073709551615),
        b"synced 18446744073709551615\n",
    ),
    (1, Told::InTransaction, b"1 in-transaction\n"),
    (2, Told::NoTransaction, b"2 no-transaction\n"),
    (1, Told::TooLong, b"1 too-long\n"),
    (1, Told::LogFull(48, 48), b"1 log-full 48 48\n"),
    (1, Told::ClockSpent, b"1 clock-spent\n"),
    (1, Told::RowSpent, b"1 row-spent\n"),
    (1, Told::Conflict(2), b"1 conflict 2\n"),
    (
        4294967295,
        Told::Conflict(4294967295),
        b"4294967295 conflict 4294967295\n",
    ),
    (1, Told::TooTall, b"1 too-tall\n"),
    (1, Told::NoPages, b"1 no-pages\n"),
    (
        4294967295,
        Told::Committed(18446744073709551615, 18446744073709551615),
        b"4294967295 committed 4294967295.18446744073709551615 at 18446744073709551615\n",
    ),
    (
        4294967295,
        Told::Aborted(18446744073709551615),
        b"4294967295 aborted 4294967295.18446744073709551615\n",
    ),
];

fn answer_of(told: &Told) -> Answer
    ensures { AnswerFits result }
{
    match told {
        Told::Begun(number) => Answer::Begun { number: *number },
        Told::Value(value) => Answer::Value(Some(*value)),
        Told::NoValue => Answer::Value(None),
        Told::Was(value) => Answer::Was(Some(*value)),
        Told::WasNone => Answer::Was(None),
        Told::Pair(key, value) => Answer::Pair {
            key: *key,
            value: *value,
        },
        Told::More(from) => Answer::More { from: *from },
        Told::End => Answer::End,
        Told::Committed(number, at) => Answer::Committed {
            number: *number,
            at: *at,
        },
        Told::Aborted(number) => Answer::Aborted { number: *number },
        Told::Synced(at) => Answer::Synced { at: *at },
        Told::InTransaction => Answer::Refused(Refusal::InTransaction),
        Told::NoTransaction => Answer::Refused(Refusal::NoTransaction),
        Told::TooLong => Answer::Refused(Refusal::TooLong),
        Told::LogFull(used, limit) => Answer::Refused(Refusal::LogFull {
            used: *used,
            limit: *limit,
        }),
        Told::ClockSpent => Answer::Refused(Refusal::ClockSpent),
        Told::RowSpent => Answer::Refused(Refusal::RowSpent),
        Told::Conflict(holder) => Answer::Refused(Refusal::Conflict { holder: *holder }),
        Told::TooTall => Answer::Refused(Refusal::TooTall),
        Told::NoPages => Answer::Refused(Refusal::NoPages),
    }
}

// The reply is the line, and what is behind it in the buffer stands.
fn is_reply(session: u32, told: &Told, line: &[u8]) -> bool {
    let mut into = [b'x'; REPLY];
    let n = reply_bytes(session, &answer_of(told), &mut into);
    n == line.len() && into.get(..n) == Some(line) && into.get(n) == Some(&b'x')
}

#[test]
fn lines_of_output_are_spelled(rt: HostRuntime) {
    for (session, told, line) in &REPLIES {
        expect(&rt, text_of(line), Ok(is_reply(*session, told, line)));
    }
    for (said, line) in &LINES {
        expect(&rt, text_of(line), Ok(is_spelled(said, line)));
    }
    for (line, wanted) in &FIXED {
        expect(&rt, text_of(wanted), Ok(line == wanted));
    }
}

// A source of one text, so many times over, which gives pieces of one size, and fails at one call.
#[derive(Drop)]
struct Pieces {
    text: &'static [u8],
    times: usize,
    piece: usize,
    fail_in: usize,
    at: usize,
    faults: u64,
}

impl Source for Pieces {
    ghost feed = { λ s. record { tells = false; left = [] } };

    ghost faults = { λ s. s.faults };

    fn next(&mut self, into: &mut [u8]) -> Next {
        if self.fail_in > 0 {
            self.fail_in -= 1;
            if self.fail_in == 0 {
                self.faults = self.faults.saturating_add(1);
                return Next::Failed;
            }
        }
        if self.at >= self.text.len() {
            if self.times <= 1 {
                return Next::End;
            }
            self.times -= 1;
            self.at = 0;
        }
        let n = self.piece.min(self.text[self.at..].len()).min(into.len());
        if n == 0 {
            return Next::End;
        }
        into[..n].copy_from_slice(&self.text[self.at..self.at + n]);
        self.at += n;
        Next::Got(n)
    }
}

const EIGHTY: &[u8] =
    b"12345678901234567890123456789012345678901234567890123456789012345678901234567890";

// A text that is so many times over, in pieces of each of these sizes, where each of these calls of the source fails, or none
// for 0. The lines, and then what the reader answers.
struct Case {
    name: &'static str,
    text: &'static [u8],
    times: usize,
    pieces: &'static [usize],
    fails: &'static [usize],
    lines: &'static [&'static [u8]],
    ends: &'static [NextLine],
}

static CASES: [Case; 7] = [
    Case {
        name: "a text is cut into lines whatever its pieces",
        text: b"1 begin\n\n1 get 5\r\n12345678901234567890123456789012345678901234567890123456789012345678901234567890\n1 commit",
        times: 1,
        pieces: &[1, 2, 3, 7, 64, 100000],
        fails: &[0],
        lines: &[b"1 begin", b"", b"1 get 5\r", EIGHTY, b"1 commit"],
        ends: &[NextLine::End, NextLine::End],
    },
    Case {
        name: "a last newline begins no line",
        text: b"1 begin\n",
        times: 1,
        pieces: &[1, 8, 9],
        fails: &[0],
        lines: &[b"1 begin"],
        ends: &[NextLine::End],
    },
    Case {
        name: "no byte is no line",
        text: b"",
        times: 1,
        pieces: &[1, 8, 9],
        fails: &[0],
        lines: &[],
        ends: &[NextLine::End],
    },
    Case {
        name: "a line of 81 bytes is too long",
        text: b"1 begin\n123456789012345678901234567890123456789012345678901234567890123456789012345678901\n1 commit\n",
        times: 1,
        pieces: &[1, 7, 80, 81, 100],
        fails: &[0],
        lines: &[b"1 begin"],
        ends: &[NextLine::TooLong, NextLine::TooLong],
    },
    Case {
        name: "a last line of 80 bytes may lack its newline",
        text: EIGHTY,
        times: 1,
        pieces: &[1, 80, 100],
        fails: &[0],
        lines: &[EIGHTY],
        ends: &[NextLine::End],
    },
    Case {
        name: "a fault in mid line loses no byte",
        text: b"1 begin\n1 commit\n",
        times: 1,
        pieces: &[2],
        fails: &[1, 2, 3, 4],
        lines: &[b"1 begin", b"1 commit"],
        ends: &[NextLine::End],
    },
    Case {
        name: "a text longer than a block is read to its end",
        text: b"1 put 5 7\n12 get 9\n",
        times: 4000,
        pieces: &[1000, 65536, 100000],
        fails: &[0],
        lines: &[b"1 put 5 7", b"12 get 9"],
        ends: &[NextLine::End],
    },
];

fn source_of(case: &Case, piece: usize, fail_in: usize) -> Pieces {
    Pieces {
        text: case.text,
        times: case.times,
        piece,
        fail_in,
        at: 0,
        faults: 0,
    }
}

// Where a call of the source is to fail, the first line fails, by one fault.
fn fails_first(reader: &mut LineReader, source: &mut Pieces) -> bool {
    if source.fail_in == 0 {
        return true;
    }
    reader.next_line(source) == NextLine::Failed && source.faults == 1
}

fn gives_lines(reader: &mut LineReader, source: &mut Pieces, lines: &[&[u8]]) -> bool {
    for line in lines {
        if reader.next_line(source) != NextLine::Got || reader.line() != *line {
            return false;
        }
    }
    true
}

fn gives_text(reader: &mut LineReader, source: &mut Pieces, case: &Case) -> bool {
    for _ in 0..case.times {
        if !gives_lines(reader, source, case.lines) {
            return false;
        }
    }
    true
}

fn gives_ends(reader: &mut LineReader, source: &mut Pieces, ends: &[NextLine]) -> bool {
    for end in ends {
        if reader.next_line(source) != *end {
            return false;
        }
    }
    true
}

fn is_cut(alloc: Global, case: &Case, piece: usize, fail_in: usize) -> Result<bool, AllocError> {
    let mut reader = LineReader::new(alloc)?;
    let mut source = source_of(case, piece, fail_in);
    Ok(
        fails_first(&mut reader, &mut source)
            && gives_text(&mut reader, &mut source, case)
            && gives_ends(&mut reader, &mut source, case.ends),
    )
}

// Whether it is cut so in each size of pieces, whichever call fails.
fn is_met(alloc: Global, case: &Case) -> Result<bool, AllocError> {
    for piece in case.pieces {
        for fail_in in case.fails {
            if !is_cut(alloc, case, *piece, *fail_in)? {
                return Ok(false);
            }
        }
    }
    Ok(true)
}

#[test]
fn texts_are_cut_into_lines(rt: HostRuntime) {
    for case in &CASES {
        expect(&rt, case.name, is_met(rt.alloc(), case));
    }
}
