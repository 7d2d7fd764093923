//! The tokens of a text behind its header line.

ghost use Rattle.std.specs.Prelude.{◌≤◌, ◌≡◌, ◌+◌, length, IfOk, IfErr};
ghost use Rattle.snd_lexer.specs.declared.limits.TheConstants.{MAX_TEXT_BYTES};
ghost use Rattle.snd_reader.specs.Texts.{HasTokens, IsCutFault};

use crate::cursor::Cursor;
use crate::fault::TextFault;
use crate::header::behind_header;
use snd_lexer::{Dialect, LexFault, Token, lex};
use std::alloc::Global;
use std::marker::Model;

/// A text that is cut into tokens. Contracts see it as the list of its tokens and its end.
#[derive(Drop)]
pub struct TokenText<'a> {
    rest: &'a [u8],
    tokens: Vec<Token>,
    base: u32,
}

impl<'a> Model for TokenText<'a> {
    ghost use Rattle.std.specs.Prelude.{List};
    ghost use Rattle.snd_reader.specs.Readers.{Placed};
    ghost use Rattle.snd_reader.specs.Tokens.{AreTokens, placed};

    ghost Value = { List Placed };

    ghost view = { λ t. placed t.base t.rest.now t.tokens.items };

    ghost invariant = { λ t. AreTokens t.base t.rest.now t.tokens.items };
}

impl<'a> TokenText<'a> {
    ghost use Rattle.std.specs.Prelude.{◌≡◌};

    /// All tokens, and the end.
    ///
    /// - Time: constant, without memory.
    pub fn cursor(&self) -> Cursor<'_>
        ensures { result ≡ self.now }
    {
        Cursor::new(self.rest, self.tokens.as_slice(), self.base)
    }
}

/// The tokens of a text whose first line is the header.
///
/// - Takes: the header line, without its LF; a text of at most `MAX_TEXT_BYTES` bytes.
/// - Errors: `Header`, exactly where the first line is not the header; else `Control`, exactly where a
///   byte that may stand in comments only stands in none, at the first; `OutOfMemory`.
/// - Rule: docs/FORMATS.md, "Tokens of a text".
/// - Time: linear in the bytes.
pub fn cut_text<'a>(
    alloc: Global,
    dialect: Dialect,
    header: &[u8],
    text: &'a [u8],
) -> Result<TokenText<'a>, TextFault>
    requires length { length text.now ≤ MAX_TEXT_BYTES }
    ensures tokens { IfOk result (HasTokens dialect header.now text.now) }
    ensures fault { IfErr result (IsCutFault dialect header.now text.now) }
{
    let Some(rest) = behind_header(header, text) else {
        return Err(TextFault::Header);
    };
    let base = (text.len() - rest.len()) as u32;
    match lex(alloc, rest, dialect) {
        Ok(tokens) => Ok(TokenText { rest, tokens, base }),
        Err(LexFault::Control { at }) => Err(TextFault::Control { at: base + at }),
        Err(LexFault::OutOfMemory) => Err(TextFault::OutOfMemory),
    }
}
