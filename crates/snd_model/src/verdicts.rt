//! What single tokens stand for, or what is wrong with them.

ghost use Rattle.std.specs.Prelude.{◌≡◌};
ghost use Rattle.snd_reader.specs.Seen.{seen};
ghost use Rattle.snd_model.specs.Tests.{wanted_next, key_head, value_test};

use crate::draft::Draft;
use crate::keys::Key;
use crate::setting::Setting;
use snd_reader::{Complaint, Lexeme, Wanted};

/// What is wanted in a key's place: a key, and behind the eighth pair nothing.
fn wanted_next(draft: &Draft) -> Wanted
    ensures { result ≡ wanted_next draft.now }
{
    if draft.is_complete() {
        Wanted::Nothing
    } else {
        Wanted::Key
    }
}

/// The key with which a pair begins, or that the text ends.
pub(crate) fn key_of(draft: &Draft, lexeme: Lexeme<'_>) -> Result<Option<Key>, Complaint>
    ensures { result ≡ key_head draft.now (seen lexeme.entry) }
{
    match lexeme {
        Lexeme::Word(bytes) => match Key::named(bytes) {
            Some(key) if draft.has(key) => Err(Complaint::Twice),
            Some(key) => Ok(Some(key)),
            None => Err(Complaint::Unexpected(wanted_next(draft))),
        },
        Lexeme::End if draft.is_complete() => Ok(None),
        other => Err(other.refused(wanted_next(draft))),
    }
}

/// The value of a key.
pub(crate) fn value_of(key: Key, lexeme: Lexeme<'_>) -> Result<Setting, Complaint>
    ensures { result ≡ value_test key (seen lexeme.entry) }
{
    match lexeme {
        Lexeme::Word(bytes) => match Setting::named(key, bytes) {
            Some(setting) => Ok(setting),
            None => Err(Complaint::Unexpected(Wanted::Value)),
        },
        other => Err(other.refused(Wanted::Value)),
    }
}
