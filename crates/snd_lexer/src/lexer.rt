//! Cutting a text.

ghost use Rattle.std.specs.Prelude.{◌≡◌, ◌≤◌, ◌<◌, ℕ, List, length, IfOk, IfErr, IfSome};
ghost use Rattle.std.specs.List.{All};
ghost use Rattle.std.specs.Option.{option_map};
ghost use Rattle.snd_lexer.specs.declared.limits.TheConstants.{MAX_TEXT_BYTES};
ghost use Rattle.snd_lexer.specs.declared.token.Token.{Token};
ghost use Rattle.snd_lexer.specs.Cutting.{is_word, is_in_comment, Lexes, AreSpans, IsWithin, StopsAt, IsStop, OnlyTokens, OnlyStop};
ghost use Rattle.snd_lexer.specs.Pieces.{front, first_piece, length_and_kind};

use crate::class::{Class, classify};
use crate::fault::LexFault;
use crate::token::{Dialect, Token, TokenKind};
use std::alloc::Global;

/// The tokens of a text, in order, each with its places in it.
///
/// - Takes: a text of at most `MAX_TEXT_BYTES` bytes.
/// - Errors: `Control` exactly where a byte that may stand in comments only stands in none, with the
///   place of the first such byte; `OutOfMemory` where the tokens find no memory.
/// - Rule: docs/FORMATS.md, "Tokens of a text".
/// - Time: linear in the bytes, one pass.
pub fn lex(alloc: Global, text: &[u8], dialect: Dialect) -> Result<Vec<Token>, LexFault>
    requires length { length text.now ≤ MAX_TEXT_BYTES }
    // These are the tokens of the text.
    ensures cut { IfOk result (λ tokens. Lexes dialect text.now tokens.items) }
    // It has no other tokens, and where it has tokens they are the answer, unless memory runs out.
    ensures cut_only { (tokens : List Token) → Lexes dialect text.now tokens → OnlyTokens result tokens }
    // They are in order, and none is empty.
    ensures spans { IfOk result (λ tokens. AreSpans 0 (length text.now) tokens.items) }
    // Each is a slice of the text.
    ensures within { IfOk result (λ tokens. All (IsWithin (length text.now)) tokens.items) }
    // Before this byte the text is cut, and it may stand in comments only.
    ensures control { IfErr result (λ fault. IsStop dialect text.now fault) }
    // Where there is such a byte, it is the answer, unless memory runs out.
    ensures control_only { (at : ℕ) → StopsAt dialect text.now at → OnlyStop result at }
{
    let mut tokens = Vec::new(alloc);
    let mut at = 0;
    while at < text.len() {
        let Some((len, kind)) = piece(dialect, &text[at..]) else {
            return Err(LexFault::Control { at: at as u32 });
        };
        if let Some(kind) = kind {
            tokens.push(Token {
                start: at as u32,
                end: (at + len) as u32,
                kind,
            })?;
        }
        at += len;
    }
    Ok(tokens)
}

/// The length of the blank, comment or token at the front, and the token's kind.
#[tactic(auto, unfolding(crate::specs::Pieces::first_piece))]
fn piece(dialect: Dialect, text: &[u8]) -> Option<(usize, Option<TokenKind>)>
    ensures found { result ≡ option_map length_and_kind (first_piece dialect text.now) }
    ensures within { IfSome result (λ x. (0 < x.0) × (x.0 ≤ length text.now)) }
{
    let [byte, rest @ ..] = text else {
        return None;
    };
    match classify(dialect, *byte) {
        Class::Blank => Some((1, None)),
        Class::Hash => Some((1 + comment_len(rest), None)),
        Class::Open => Some((1, Some(TokenKind::Open))),
        Class::Close => Some((1, Some(TokenKind::Close))),
        Class::Equals => Some((1, Some(TokenKind::Equals))),
        Class::Word => Some((1 + word_len(dialect, rest), Some(TokenKind::Word))),
        Class::Forbidden => None,
    }
}

/// How many word bytes stand at the front.
fn word_len(dialect: Dialect, text: &[u8]) -> usize
    ensures len { result ≡ length (front (is_word dialect) text.now) }
    ensures within { result ≤ length text.now }
{
    for (i, byte) in text.iter().enumerate() {
        if classify(dialect, *byte) != Class::Word {
            return i;
        }
    }
    text.len()
}

/// How many bytes stand before the first LF.
fn comment_len(text: &[u8]) -> usize
    ensures len { result ≡ length (front is_in_comment text.now) }
    ensures within { result ≤ length text.now }
{
    for (i, byte) in text.iter().enumerate() {
        if *byte == b'\n' {
            return i;
        }
    }
    text.len()
}
