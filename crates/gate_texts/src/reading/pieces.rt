//! Tokens, and what stands behind a first line.

use snd_lexer::{Dialect, MAX_TEXT_BYTES, Token, lex};
use snd_reader::behind_header;
use std::alloc::Global;

/// Adds the kind, the place and the bytes of a token.
fn tell_token(token: Token, bytes: &[u8], text: &mut String) -> Option<()> {
    if token.start > token.end || token.end as usize > bytes.len() {
        return None;
    }
    write!(
        text,
        ", {:?} {} {:?}",
        token.kind,
        token.start,
        token.bytes(bytes)
    )
    .ok()
}

/// Adds all tokens of these bytes, or where they are refused.
pub(crate) fn tell(alloc: Global, bytes: &[u8], dialect: Dialect, text: &mut String) -> Option<()> {
    if bytes.len() > MAX_TEXT_BYTES {
        return None;
    }
    match lex(alloc, bytes, dialect) {
        Ok(tokens) => {
            write!(text, "{} tokens", tokens.as_slice().len()).ok()?;
            for token in tokens.as_slice() {
                tell_token(*token, bytes, text)?;
            }
            Some(())
        }
        Err(fault) => write!(text, "{fault:?}").ok(),
    }
}

/// Adds what the lexer tells of the bytes of this row as a network.
pub(crate) fn tell_numbers(alloc: Global, row: &str, text: &mut String) -> Option<()> {
    let mut bytes = Vec::new(alloc);
    for word in row.split(' ') {
        let byte = word.parse::<u8>().ok()?;
        bytes.push(byte).ok()?;
    }
    tell(alloc, bytes.as_slice(), Dialect::Network, text)
}

/// Adds how many of these bytes stand behind their first line, where that is `h`.
pub(crate) fn tell_header(bytes: &[u8], text: &mut String) -> Option<()> {
    match behind_header(b"h", bytes) {
        Some(rest) => write!(text, "behind it {}", rest.len()).ok(),
        None => text.push_str("no header").ok(),
    }
}
