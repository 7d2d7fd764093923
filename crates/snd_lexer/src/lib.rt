//! Cuts the text of a network or a model into blanks, comments and tokens.
//!
//! Promises the tokens of the one way in which a text can be cut, or else the first byte that may
//! stand in comments only. Begin at `lex`, whose words are in `specs/Cutting.antt`, and at
//! `Token::bytes`, with which a reader walks the tokens and their slices. Stands on no other crate.
//! What a list of tokens means is left to the readers above.
#![tactic(auto)]

mod class;
mod fault;
mod laws;
mod lexer;
mod limits;
mod token;

pub use fault::LexFault;
pub use laws::{cut_once, shown_once, shows_bytes};
pub use lexer::lex;
pub use limits::MAX_TEXT_BYTES;
pub use token::{Dialect, Token, TokenKind};
