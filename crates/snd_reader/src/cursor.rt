//! Reading tokens one after the other.

use crate::fault::{Complaint, TextFault};
use crate::lexeme::Lexeme;
use snd_lexer::{Token, TokenKind};
use std::marker::Model;

/// The tokens that are left of a text, and behind them its end. Contracts see it as that list.
#[derive(Drop)]
pub struct Cursor<'a> {
    text: &'a [u8],
    tokens: &'a [Token],
    base: u32,
    is_over: bool,
}

impl<'a> Model for Cursor<'a> {
    ghost use Rattle.std.specs.Prelude.{List, [], cond};
    ghost use Rattle.snd_reader.specs.Readers.{Placed};
    ghost use Rattle.snd_reader.specs.Tokens.{AreTokens, placed};

    ghost Value = { List Placed };

    ghost view = { λ c. cond c.is_over [] (placed c.base c.text.now c.tokens.now) };

    ghost invariant = { λ c. AreTokens c.base c.text.now c.tokens.now };
}

impl<'a> Cursor<'a> {
    ghost use Rattle.std.specs.Prelude.{◌≡◌, ◌≤◌, length, OnErr};
    ghost use Rattle.snd_reader.specs.Readers.{first_of, rest_of, judge, token};
    ghost use Rattle.snd_reader.specs.Tests.{open_test, close_test, equals_test, number_test};
    ghost use Rattle.snd_reader.specs.Tokens.{AreTokens, placed};
    ghost use Rattle.snd_reader.specs.Faults.{Gives};
    ghost use Rattle.snd_reader.specs.Seen.{seen, IsShort};

    /// The tokens of a text that begins at the place `base` of the whole text.
    pub fn new(text: &'a [u8], tokens: &'a [Token], base: u32) -> Self
        requires { AreTokens base text.now tokens.now }
        ensures { result ≡ placed base text.now tokens.now }
    {
        Cursor {
            text,
            tokens,
            base,
            is_over: false,
        }
    }

    /// How many tokens are left, the end of the text among them.
    pub fn count(&self) -> usize
        ensures { result ≡ length self.now }
    {
        if self.is_over {
            return 0;
        }
        self.tokens.len() + 1
    }

    /// The place of the first token in the whole text.
    pub fn at(&self) -> u32
        ensures { result ≡ (first_of self.now).at }
    {
        if self.is_over {
            return 0;
        }
        match self.tokens {
            [] => self.base + self.text.len() as u32,
            [first, ..] => self.base + first.start,
        }
    }

    /// The first token.
    pub fn first(&self) -> Lexeme<'a>
        ensures seen { seen result ≡ (first_of self.now).is }
        ensures short { IsShort (seen result) }
    {
        if self.is_over {
            return Lexeme::End;
        }
        match self.tokens {
            [] => Lexeme::End,
            [first, ..] => match first.kind {
                TokenKind::Word => Lexeme::Word(first.bytes(self.text)),
                TokenKind::Open => Lexeme::Open,
                TokenKind::Close => Lexeme::Close,
                TokenKind::Equals => Lexeme::Equals,
            },
        }
    }

    /// Goes past the first token.
    pub fn pass(&mut self)
        ensures { self.new ≡ rest_of self.old }
    {
        match self.tokens {
            [] => self.is_over = true,
            [_, rest @ ..] => self.tokens = rest,
        }
    }

    /// Goes past the first token where it was found good, and else tells what is wrong with it and stays there.
    pub fn judge<T: Drop>(&mut self, verdict: Result<T, Complaint>) -> Result<T, TextFault>
        ensures gives { Gives (λ x. (x, self.new)) result (judge verdict self.old) }
        ensures unchanged { OnErr result (self.new ≡ self.old) }
    {
        if self.is_over {
            return Err(TextFault::Ended { at: 0 });
        }
        match verdict {
            Ok(value) => {
                self.pass();
                Ok(value)
            }
            Err(complaint) => Err(complaint.at(self.at())),
        }
    }

    /// Goes past an opening bracket.
    pub fn open(&mut self) -> Result<(), TextFault>
        ensures gives { Gives (λ x. (x, self.new)) result (token (λ t. open_test t.is) self.old) }
        ensures unchanged { OnErr result (self.new ≡ self.old) }
    {
        let verdict = self.first().open();
        self.judge(verdict)
    }

    /// Goes past a closing bracket.
    pub fn close(&mut self) -> Result<(), TextFault>
        ensures gives { Gives (λ x. (x, self.new)) result (token (λ t. close_test t.is) self.old) }
        ensures unchanged { OnErr result (self.new ≡ self.old) }
    {
        let verdict = self.first().close();
        self.judge(verdict)
    }

    /// Goes past an equals sign.
    pub fn equals(&mut self) -> Result<(), TextFault>
        ensures gives { Gives (λ x. (x, self.new)) result (token (λ t. equals_test t.is) self.old) }
        ensures unchanged { OnErr result (self.new ≡ self.old) }
    {
        let verdict = self.first().equals();
        self.judge(verdict)
    }

    /// The number that the first word spells at a scale of at most 6.
    pub fn number(&mut self, scale: u32) -> Result<u64, TextFault>
        requires { scale ≤ 6 }
        ensures gives { Gives (λ x. (x, self.new)) result (token (λ t. number_test scale t.is) self.old) }
        ensures unchanged { OnErr result (self.new ≡ self.old) }
    {
        let verdict = self.first().number(scale);
        self.judge(verdict)
    }
}
