//! What the words ask to be drawn.

ghost use Rattle.std.specs.Prelude.{◌≡◌, map, string_bytes, option_map, option_and_then, IfOk};
ghost use Rattle.option_words.specs.Given.{given_now};
ghost use Rattle.picture_runs.specs.PictureRuns.{asked_of, asked_in, asked_now};

use option_words::given_in;
use std::alloc::{AllocError, Global};

/// The names of a network text, a model text and a plan text, and perhaps that of a demand whose path is lit.
pub(crate) type Asked<'a> = (&'a str, &'a str, &'a str, Option<&'a str>);

/// What is asked for by what the names of the texts and the option are given.
#[tactic(auto, unfolding(crate::specs::PictureRuns::asked_of))]
fn asked_of(given: Option<Vec<Option<&str>>>) -> Option<Asked<'_>>
    ensures { option_map asked_now result ≡ option_and_then asked_of (given_now given.entry) }
{
    let given = given?;
    match *given.as_slice() {
        [Some(network), Some(model), Some(plan), name] => Some((network, model, plan, name)),
        _ => None,
    }
}

/// What the words ask for, where they can be read so.
pub(crate) fn asked_in(alloc: Global, words: &[String]) -> Result<Option<Asked<'_>>, AllocError>
    ensures { IfOk result (λ asked. option_map asked_now asked ≡ asked_in (map string_bytes words.now)) }
{
    let names = &["network", "model", "plan"];
    Ok(asked_of(given_in(alloc, names, &["demand"], words)?))
}
