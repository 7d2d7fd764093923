//! Going past tokens with balanced brackets.

ghost use Rattle.std.specs.Prelude.{◌≡◌, ◌<◌, ◌+◌, ◌^◌};
ghost use Rattle.snd_reader.specs.Readers.{open_bracket};
ghost use Rattle.snd_reader.specs.Faults.{Gives};
ghost use Rattle.snd_reader.specs.Seen.{seen};
ghost use Rattle.snd_reader.specs.Brackets.{depth_at, skip};

use crate::cursor::Cursor;
use crate::fault::TextFault;
use crate::lexeme::Lexeme;

/// How many brackets are open behind a token: all are closed, so many are open, or the text ends.
#[derive(Clone, Copy)]
pub enum Depth {
    Closed,
    Deep(usize),
    Over,
}

/// How many brackets are open behind a token, where so many are open before it.
fn depth_behind(depth: usize, lexeme: Lexeme<'_>) -> Depth
    requires { seen lexeme ≡ open_bracket → depth + 1 < 2 ^ 64 }
    ensures { result ≡ depth_at depth (seen lexeme.entry) }
{
    match lexeme {
        Lexeme::Word(_) | Lexeme::Equals => Depth::Deep(depth),
        Lexeme::Open => Depth::Deep(depth + 1),
        Lexeme::Close if depth == 0 => Depth::Closed,
        Lexeme::Close => Depth::Deep(depth - 1),
        Lexeme::End => Depth::Over,
    }
}

/// Goes past tokens with balanced brackets and the bracket that closes them.
///
/// - Errors: `Ended` where the text ends before that bracket.
/// - Time: linear in the tokens.
pub fn skip(cursor: &mut Cursor<'_>) -> Result<(), TextFault>
    ensures gives { Gives (λ x. (x, cursor.new)) result (skip 0 cursor.old) }
{
    let _left = cursor.count();
    let mut depth = 0usize;
    'tokens: loop {
        match depth_behind(depth, cursor.first()) {
            Depth::Closed => {
                cursor.pass();
                return Ok(());
            }
            Depth::Deep(behind) => depth = behind,
            Depth::Over => return Err(TextFault::Ended { at: cursor.at() }),
        }
        cursor.pass();
    }
}
