//! The tokens of a text.

ghost use Rattle.std.specs.Prelude.{◌≡◌, length};
ghost use Rattle.snd_lexer.specs.Cutting.{IsWithin, token_bytes};

/// Which texts are cut.
#[derive(Clone, Copy, Debug, PartialEq, Eq)]
pub enum Dialect {
    /// Here `=` is a byte of words.
    Network,
    /// Here `=` is a token.
    Model,
}

/// What a token is.
#[derive(Clone, Copy, Debug, PartialEq, Eq)]
pub enum TokenKind {
    Word,
    Open,
    Close,
    Equals,
}

/// A token is the bytes of its text from the place `start` up to the place `end`, counted from 0.
#[derive(Clone, Copy, Debug, PartialEq, Eq)]
pub struct Token {
    pub start: u32,
    pub end: u32,
    pub kind: TokenKind,
}

impl Token {
    /// The bytes of the token.
    ///
    /// - Takes: the text that the token was cut from, or another that is long enough.
    /// - Rule: docs/FORMATS.md, "Tokens of a text".
    /// - Time: constant.
    pub fn bytes(self, text: &[u8]) -> &[u8]
        requires { IsWithin (length text.now) self }
        ensures { result.now ≡ token_bytes text.now self }
    {
        &text[self.start as usize..self.end as usize]
    }
}
