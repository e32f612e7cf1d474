// The command line as clap reads it: the commands and their options.
ghost use Rattle.std.specs.Prelude.{◌≡◌, IfOk, false};
ghost use Rattle.clap.specs.Words.{app_of, rule_of};
ghost use Rattle.lean_shell.specs.Inside.CommandLines.{IsLine};
ghost use Rattle.lean_shell.specs.Words.{dump_words, format_words, lean_words, make_words, placed, run_words, wanted, with_default};

use clap::{Arg, Command as Line};
use std::alloc::{AllocError, Global};

// An option that has to be there.
fn wanted<'a>(alloc: Global, name: &'a str) -> Arg<'a>
    ensures rule { rule_of result ≡ wanted name.entry.now }
    ensures local { result.global ≡ false }
{
    Arg::new(alloc, name).long(name).required(true)
}

// One that has a value where it is not there.
fn with_default<'a>(alloc: Global, name: &'a str, value: &'a str) -> Arg<'a>
    ensures rule { rule_of result ≡ with_default name.entry.now value.entry.now }
    ensures local { result.global ≡ false }
{
    Arg::new(alloc, name).long(name).default_value(value)
}

// One that has no name, and has to be there.
fn placed<'a>(alloc: Global, name: &'a str) -> Arg<'a>
    ensures rule { rule_of result ≡ placed name.entry.now }
    ensures local { result.global ≡ false }
{
    Arg::new(alloc, name).required(true)
}

fn format_line<'a>(alloc: Global) -> Result<Line<'a>, AllocError>
    ensures { IfOk result (IsLine format_words) }
{
    Line::new(alloc, "format")
        .arg(wanted(alloc, "workers"))?
        .arg(wanted(alloc, "pages"))?
        .arg(wanted(alloc, "blocks"))
}

fn run_line<'a>(alloc: Global) -> Result<Line<'a>, AllocError>
    ensures { IfOk result (IsLine run_words) }
{
    Line::new(alloc, "run")
        .arg(with_default(alloc, "rows", "256"))?
        .arg(with_default(alloc, "group", "1"))?
        .arg(with_default(alloc, "frames", "256"))
}

fn make_line<'a>(alloc: Global) -> Result<Line<'a>, AllocError>
    ensures { IfOk result (IsLine make_words) }
{
    Line::new(alloc, "make")
        .arg(placed(alloc, "number"))?
        .arg(placed(alloc, "count"))
}

fn dump_line<'a>(alloc: Global) -> Line<'a>
    ensures { IsLine dump_words result }
{
    Line::new(alloc, "dump")
}

/// The program's command line.
pub(crate) fn lean_line<'a>(alloc: Global) -> Result<Line<'a>, AllocError>
    ensures { IfOk result (λ l. app_of l ≡ lean_words) }
{
    let lean = Line::new(alloc, "lean")
        .subcommand(format_line(alloc)?)?
        .subcommand(run_line(alloc)?)?
        .subcommand(make_line(alloc)?)?
        .subcommand(dump_line(alloc))?;
    Ok(lean.subcommand_required(true))
}
