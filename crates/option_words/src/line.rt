//! A command line as clap knows it.

ghost use Rattle.std.specs.Prelude.{◌≡◌, ◌<◌, ◌^◌, IfOk, false, map, length};
ghost use Rattle.clap.specs.Words.{app_of, rule_of};
ghost use Rattle.option_words.specs.Line.{bare_app, line_app, with_rules, rule_for};

use clap::{Arg, Command};
use std::alloc::{AllocError, Global};

/// A line with no words for help or the version, over the words behind the command.
fn bare_line<'a>(alloc: Global) -> Command<'a>
    ensures { app_of result ≡ bare_app }
{
    Command::new(alloc, "command")
        .no_binary_name(true)
        .disable_help_flag(true)
        .disable_version_flag(true)
}

/// A name that is needed, or an option that has a value.
fn argument<'a>(alloc: Global, id: &'a str, is_name: bool) -> Arg<'a>
    ensures rule { rule_of result ≡ rule_for is_name id.entry.now }
    ensures own { result.global ≡ false }
{
    let arg = Arg::new(alloc, id);
    if is_name {
        arg.required(true)
    } else {
        arg.long(id)
    }
}

/// The line with these names or options more, in turn.
fn with_arguments<'a>(
    alloc: Global,
    mut line: Command<'a>,
    ids: &[&'a str],
    are_names: bool,
) -> Result<Command<'a>, AllocError>
    ensures { IfOk result (λ c. app_of c ≡ with_rules (app_of line.entry) (map (rule_for are_names) (map (λ id. id.now) ids.now))) }
{
    for id in ids {
        line = line.arg(argument(alloc, id, are_names))?;
    }
    Ok(line)
}

/// The line of a command with these names and options.
pub fn line_of<'a>(
    alloc: Global,
    names: &[&'a str],
    options: &[&'a str],
) -> Result<Command<'a>, AllocError>
    ensures line { IfOk result (λ c. app_of c ≡ line_app (map (λ id. id.now) names.now) (map (λ id. id.now) options.now)) }
    ensures few { length names.now < 2 ^ 63 }
{
    let line = with_arguments(alloc, bare_line(alloc), options, false)?;
    with_arguments(alloc, line, names, true)
}
