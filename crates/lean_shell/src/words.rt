// The words of a command line.
ghost use Rattle.std.specs.Prelude.{◌≡◌, ◌^◌, ◌<◌, ℕ, ◌↔◌, IfOk, IfSome, IfNone, IsTrue};
ghost use Rattle.std.specs.Fmt.{decimal};
ghost use Rattle.clap.specs.Words.{found_of, rows_of, subcommand_rows_of};
ghost use Rattle.buffered_engine.specs.disk_format.declared.shape.Shape.{Shape};
ghost use Rattle.buffered_engine.specs.paged_engine.declared.opening.Size.{Size};
ghost use Rattle.lean_shell.specs.Inside.CommandLines.{AsksAs, AsksBy, GivesShape};
ghost use Rattle.lean_shell.specs.Words.{Asks, AsksNothing, Gives, GivesSize, GivesWorkload, IsNumberIn, IsPlain, texts};
ghost use Rattle.lean_shell.specs.declared.make.Workload.{Workload};
ghost use Rattle.lean_shell.specs.declared.words.Command.{Command};

use crate::command_line::lean_line;
use crate::make::Workload;
use buffered_engine::{Shape, Size};
use clap::ArgMatches;
use clap::error::ErrorKind;
use page_model::limits::SESSIONS;
use std::alloc::{AllocError, Global};

/// What the words of a command line ask for.
#[derive(Clone, Copy, Debug, PartialEq, Eq)]
pub enum Command {
    Format(Shape),
    Run(Size),
    Make(Workload),
    Dump,
}

// Whether the text has no sign and no leading zero.
fn is_plain(text: &[u8]) -> bool
    ensures { IsTrue result ↔ IsPlain text.now }
{
    match text {
        [] => false,
        [b'0'] => true,
        [first, ..] => *first != b'0' && *first != b'+',
    }
}

// A number as a script spells it.
fn number(word: &str) -> Option<u64>
    ensures some { IfSome result (λ n. word.now ≡ decimal n) }
    ensures fits { IfSome result (λ n. n < 2 ^ 64) }
    ensures none { IfNone result ((n : ℕ) → n < 2 ^ 64 → word.now ≡ decimal n → ⊥) }
{
    if !is_plain(word.as_bytes()) {
        return None;
    }
    word.parse::<u64>().ok()
}

// Such a number that is in a range.
fn number_in(word: &str, from: u64, to: u64) -> Option<u64>
    ensures some { IfSome result (IsNumberIn from to word.now) }
    ensures none { IfNone result ((n : ℕ) → IsNumberIn from to word.now n → ⊥) }
{
    let n = number(word)?;
    if n < from {
        return None;
    }
    if n > to {
        return None;
    }
    Some(n)
}

// The number that is an option's value, if it is in a range.
fn option_in(options: &ArgMatches, name: &str, from: u32, to: u32) -> Option<u32>
    ensures some { IfSome result (Gives (rows_of (found_of options.now)) name.now from to) }
    ensures none { IfNone result ((n : ℕ) → Gives (rows_of (found_of options.now)) name.now from to n → ⊥) }
{
    let n = wide_in(options, name, from as u64, to as u64)?;
    Some(n as u32)
}

// The same of a greater range.
fn wide_in(options: &ArgMatches, name: &str, from: u64, to: u64) -> Option<u64>
    ensures some { IfSome result (Gives (rows_of (found_of options.now)) name.now from to) }
    ensures none { IfNone result ((n : ℕ) → Gives (rows_of (found_of options.now)) name.now from to n → ⊥) }
{
    let text = options.get_str(name)?;
    number_in(text, from, to)
}

fn read_shape(options: &ArgMatches) -> Option<Shape>
    ensures some { IfSome result (GivesShape (rows_of (found_of options.now))) }
    ensures none { IfNone result ((s : Shape) → GivesShape (rows_of (found_of options.now)) s → ⊥) }
{
    let workers = option_in(options, "workers", 1, SESSIONS)?;
    let pages = option_in(options, "pages", 16, 65536)?;
    let blocks = option_in(options, "blocks", 64, 4096)?;
    Some(Shape {
        workers,
        pages,
        blocks,
    })
}

fn read_size(options: &ArgMatches) -> Option<Size>
    ensures some { IfSome result (GivesSize (rows_of (found_of options.now))) }
    ensures none { IfNone result ((s : Size) → GivesSize (rows_of (found_of options.now)) s → ⊥) }
{
    let rows = option_in(options, "rows", 16, 4096)?;
    let group = option_in(options, "group", 1, 64)?;
    let frames = option_in(options, "frames", 32, 4096)?;
    Some(Size {
        frames,
        rows,
        group,
        sessions: SESSIONS,
    })
}

fn read_workload(options: &ArgMatches) -> Option<Workload>
    ensures some { IfSome result (GivesWorkload (rows_of (found_of options.now))) }
    ensures none { IfNone result ((w : Workload) → GivesWorkload (rows_of (found_of options.now)) w → ⊥) }
{
    let number = wide_in(options, "number", 0, u64::MAX)?;
    let count = option_in(options, "count", 1, 1_000_000)?;
    Some(Workload { number, count })
}

// What a command and its options ask for.
fn asked(name: &str, options: &ArgMatches) -> Option<Command>
    ensures some { IfSome result (AsksBy name.now (rows_of (found_of options.now))) }
    ensures none { IfNone result ((c : Command) → AsksBy name.now (rows_of (found_of options.now)) c → ⊥) }
{
    if name == "format" {
        let shape = read_shape(options)?;
        return Some(Command::Format(shape));
    }
    if name == "run" {
        let size = read_size(options)?;
        return Some(Command::Run(size));
    }
    if name == "make" {
        let workload = read_workload(options)?;
        return Some(Command::Make(workload));
    }
    if name == "dump" {
        return Some(Command::Dump);
    }
    None
}

// What the matches ask for.
fn asked_by(matches: &ArgMatches) -> Option<Command>
    ensures some { IfSome result (AsksAs (subcommand_rows_of matches.now)) }
    ensures none { IfNone result ((c : Command) → AsksAs (subcommand_rows_of matches.now) c → ⊥) }
{
    let (name, options) = matches.subcommand()?;
    asked(name, options)
}

/// What the words of a command line ask for, the program's name first, if they are a command. It fails where memory is refused.
pub fn read_words(alloc: Global, words: &[String]) -> Result<Option<Command>, AllocError>
    ensures some { IfOk result (λ o. IfSome o (Asks (texts words.now))) }
    ensures none { IfOk result (λ o. IfNone o (AsksNothing (texts words.now))) }
{
    match lean_line(alloc)?.try_get_matches_from(words) {
        Ok(matches) => Ok(asked_by(&matches)),
        Err(error) => match error.kind() {
            ErrorKind::OutOfMemory => Err(AllocError),
            _ => Ok(None),
        },
    }
}
