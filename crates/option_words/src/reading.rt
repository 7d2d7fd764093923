//! What clap finds in the words.

ghost use Rattle.std.specs.Prelude.{◌≡◌, ◌++◌, IfOk, map, string_bytes, option_map, true};
ghost use Rattle.clap.specs.Words.{app_of, found_of, rows_of, first_value, is_simple_and_free};
ghost use Rattle.option_words.specs.Given.{are_different, told, word_now, given_now};
ghost use Rattle.option_words.specs.Line.{rows_read};

use crate::line::line_of;
use clap::error::ErrorKind;
use clap::{ArgMatches, Command};
use std::alloc::{AllocError, Global};

/// What clap finds in the words, where it takes them.
fn read_line<'a>(
    line: Command<'a>,
    words: &'a [String],
) -> Result<Option<ArgMatches<'a>>, AllocError>
    requires { is_simple_and_free (app_of line) ≡ true }
    ensures { IfOk result (λ read. option_map (λ m. rows_of (found_of m)) read ≡ rows_read (app_of line.entry) (map string_bytes words.entry.now)) }
{
    match line.try_get_matches_from(words) {
        Ok(matches) => Ok(Some(matches)),
        Err(error) => match error.kind() {
            ErrorKind::OutOfMemory => Err(AllocError),
            _ => Ok(None),
        },
    }
}

/// Appends the word that was found for each of these, in turn.
fn push_found<'a>(
    matches: &ArgMatches<'a>,
    ids: &[&str],
    found: &mut Vec<Option<&'a str>>,
) -> Result<(), AllocError>
    ensures { IfOk result (λ _. map word_now found.new.items ≡ map word_now found.old.items ++ map (first_value (found_of matches.now)) (map (λ id. id.now) ids.now)) }
{
    for id in ids {
        found.push(matches.get_str(id))?;
    }
    Ok(())
}

/// The words that were found for the names and then for the options, in turn.
fn found_for<'a>(
    alloc: Global,
    matches: &ArgMatches<'a>,
    names: &[&str],
    options: &[&str],
) -> Result<Vec<Option<&'a str>>, AllocError>
    ensures { IfOk result (λ found. map word_now found.items
        ≡ map (first_value (found_of matches.now)) (map (λ id. id.now) names.now) ++ map (first_value (found_of matches.now)) (map (λ id. id.now) options.now)) }
{
    let mut found = Vec::new(alloc);
    push_found(matches, names, &mut found)?;
    push_found(matches, options, &mut found)?;
    Ok(found)
}

/// The words that are given to the names and then to the options, in turn, where the words can be read so.
///
/// - Takes: what the names are called, which is of no account, and the options, without their dashes; the words behind
///   the command.
/// - Gives: a word for each name; for each option one, or none.
/// - Errors: want of memory alone.
/// - Rule: docs/DEFINITIONS.md, "Runs".
pub fn given_in<'a>(
    alloc: Global,
    names: &[&'a str],
    options: &[&'a str],
    words: &'a [String],
) -> Result<Option<Vec<Option<&'a str>>>, AllocError>
    requires { are_different (map (λ id. id.now) options.now ++ map (λ id. id.now) names.now) ≡ true }
    ensures { IfOk result (λ given. given_now given
        ≡ told (map (λ id. id.now) names.now) (map (λ id. id.now) options.now) (map string_bytes words.entry.now)) }
{
    let line = line_of(alloc, names, options)?;
    match read_line(line, words)? {
        Some(matches) => Ok(Some(found_for(alloc, &matches, names, options)?)),
        None => Ok(None),
    }
}
