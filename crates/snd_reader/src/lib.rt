//! What network and model texts share: tokens behind a header line, readers of tokens, faults, names, and
//! how tokens are written.
//!
//! Promises of each reading call that it gives what its reader of `specs/Readers.antt` gives: it passes
//! the token that stands there, or tells what is wrong with it and where; the end of a text is a token
//! too. Begin at `cut_text`, whose words are in `specs/Texts.antt`, and at `Cursor`. Stands on `snd_lexer`
//! and `scaled_numbers`. The grammars themselves are left to the crates above, whose contracts rest on the
//! forms of `specs/Forms.antt` and the laws that stand here.
#![tactic(auto)]

mod brackets;
mod cursor;
mod fault;
mod header;
mod lexeme;
mod name;
mod rows;
mod tokens;
mod writing;

pub use brackets::skip;
pub use cursor::Cursor;
pub use fault::{Complaint, TextFault, Wanted};
pub use header::behind_header;
pub use lexeme::Lexeme;
pub use name::{Name, Names};
pub use rows::Rows;
pub use tokens::{TokenText, cut_text};
pub use writing::{push_close, push_grains, push_open, push_whole, push_word};
