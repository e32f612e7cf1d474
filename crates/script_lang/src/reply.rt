// The lines of output that are replies.
ghost use Rattle.std.specs.Prelude.{◌≡◌, ◌≤◌, ◌+◌, ◌++◌, ◌∷◌, [], ℕ, List, Some, length};
ghost use Rattle.std.specs.Fmt.{decimal};
ghost use Rattle.script_lang.specs.Pieces.{Holds, name};
ghost use Rattle.map_model.specs.Outputs.{Reply};
ghost use Rattle.script_lang.specs.Replies.{reply_text, reply_of, refusal_text, Fits, AnswerFits, RefusalFits};
ghost use Rattle.script_lang.specs.Text.{IsLine};
ghost use Rattle.map_model.specs.Outputs.Reply.{Answered, Durable};
ghost use Rattle.script_lang.specs.declared.reply.TheConstants.{REPLY};

use crate::text::{put_session, put_text, put_with_name, put_with_number};
use map_model::{Answer, Refusal};

/// The bytes that any line of output fits in, its newline counted.
pub const REPLY: usize = 128;

/// Writes the line of a session's answer, which has one by now. The answer is how many bytes that are.
pub fn reply_bytes(session: u32, answer: &Answer, into: &mut [u8]) -> usize
    requires fits { AnswerFits answer.now }
    requires room { REPLY ≤ length into.old }
    ensures { Holds (reply_text (Answered session answer.now) ++ 10 ∷ []) into.old into.new result }
{
    let at = put_answer(into, session, answer);
    put_text(into, at, b"\n")
}

/// Writes the line that a session's transaction is durable.
pub fn durable_bytes(session: u32, number: u64, into: &mut [u8]) -> usize
    requires { REPLY ≤ length into.old }
    ensures { Holds (reply_text (Durable session number) ++ 10 ∷ []) into.old into.new result }
{
    let at = say_name(into, session, b" durable ", number);
    put_text(into, at, b"\n")
}

// An answer, behind the session that it names: all do but a sync's.
fn put_answer(into: &mut [u8], session: u32, answer: &Answer) -> usize
    requires fits { AnswerFits answer.now }
    requires room { REPLY ≤ length into.old }
    ensures end { result ≤ 100 }
    ensures written { Holds (reply_text (Answered session answer.now)) into.old into.new result }
{
    match answer {
        Answer::Begun { number } => say_name(into, session, b" begun ", *number),
        Answer::Value(Some(value)) => say_number(into, session, b" value ", *value),
        Answer::Value(None) => say(into, session, b" none"),
        Answer::Was(Some(value)) => say_number(into, session, b" was ", *value),
        Answer::Was(None) => say(into, session, b" was none"),
        Answer::Pair { key, value } => put_pair(into, session, *key, *value),
        Answer::More { from } => say_number(into, session, b" more ", *from),
        Answer::End => say(into, session, b" end"),
        Answer::Committed { number, at } => put_committed(into, session, *number, *at),
        Answer::Aborted { number } => say_name(into, session, b" aborted ", *number),
        Answer::Synced { at } => put_with_number(into, 0, b"synced ", *at),
        Answer::Refused(refusal) => put_refusal(into, session, refusal),
        _ => unreachable!(),
    }
}

fn put_pair(into: &mut [u8], session: u32, key: u64, value: u64) -> usize
    requires { REPLY ≤ length into.old }
    ensures end { result ≤ 100 }
    ensures written { Holds (reply_text (Answered session (Answer.Pair key value))) into.old into.new result }
{
    let at = say_number(into, session, b" pair ", key);
    put_with_number(into, at, b" ", value)
}

fn put_committed(into: &mut [u8], session: u32, number: u64, commit: u64) -> usize
    requires { REPLY ≤ length into.old }
    ensures end { result ≤ 100 }
    ensures written { Holds (reply_text (Answered session (Answer.Committed number commit))) into.old into.new result }
{
    let at = say_name(into, session, b" committed ", number);
    put_with_number(into, at, b" at ", commit)
}

fn put_refusal(into: &mut [u8], session: u32, refusal: &Refusal) -> usize
    requires fits { RefusalFits refusal.now }
    requires room { REPLY ≤ length into.old }
    ensures end { result ≤ 100 }
    ensures written { Holds (decimal session ++ 32 ∷ refusal_text refusal.now) into.old into.new result }
{
    match refusal {
        Refusal::InTransaction => say(into, session, b" in-transaction"),
        Refusal::NoTransaction => say(into, session, b" no-transaction"),
        Refusal::TooLong => say(into, session, b" too-long"),
        Refusal::LogFull { used, limit } => put_log_full(into, session, *used, *limit),
        Refusal::ClockSpent => say(into, session, b" clock-spent"),
        Refusal::RowSpent => say(into, session, b" row-spent"),
        Refusal::Conflict { holder } => say_number(into, session, b" conflict ", *holder as u64),
        Refusal::TooTall => say(into, session, b" too-tall"),
        Refusal::NoPages => say(into, session, b" no-pages"),
        _ => unreachable!(),
    }
}

fn put_log_full(into: &mut [u8], session: u32, used: u32, limit: u32) -> usize
    requires { REPLY ≤ length into.old }
    ensures end { result ≤ 100 }
    ensures written { Holds (decimal session ++ 32 ∷ refusal_text (Refusal.LogFull used limit)) into.old into.new result }
{
    let at = say_number(into, session, b" log-full ", used as u64);
    put_with_number(into, at, b" ", limit as u64)
}

// A session and a text behind it.
#[inline(always)]
fn say(into: &mut [u8], session: u32, text: &[u8]) -> usize
    requires room { 20 + length text.now ≤ length into.old }
    ensures end { result ≤ 20 + length text.now }
    ensures written { Holds (decimal session ++ text.now) into.old into.new result }
{
    let at = put_session(into, session);
    put_text(into, at, text)
}

// And a number behind the text.
#[inline(always)]
fn say_number(into: &mut [u8], session: u32, text: &[u8], number: u64) -> usize
    requires room { 40 + length text.now ≤ length into.old }
    ensures end { result ≤ 40 + length text.now }
    ensures written { Holds (decimal session ++ (text.now ++ decimal number)) into.old into.new result }
{
    let at = put_session(into, session);
    put_with_number(into, at, text, number)
}

// Or the name of a transaction.
#[inline(always)]
fn say_name(into: &mut [u8], session: u32, text: &[u8], number: u64) -> usize
    requires room { 61 + length text.now ≤ length into.old }
    ensures end { result ≤ 61 + length text.now }
    ensures written { Holds (decimal session ++ (text.now ++ name session number)) into.old into.new result }
{
    let at = put_session(into, session);
    put_with_name(into, at, text, session, number)
}

/// A reply whose line was written is read back from it, and its line is one line.
pub fn replies_are_read_back()
    ensures { (reply : Reply) → Fits reply → (reply_of (reply_text reply) ≡ Some reply) × IsLine (reply_text reply) }
{}
