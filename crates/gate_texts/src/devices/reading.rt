//! Shelves.

use super::tell_quoted;
use crate::words::first_number;
use plan_io::{FileShelf, MemShelf, Shelf, SureShelf, read_whole};
use std::alloc::Global;
use std::fs;

/// The texts of the shelves in memory.
const TEXTS: [(&str, &[u8]); 2] = [("net", b"abc"), ("model", b"de")];

/// The number of the call that fails, where one does.
pub(crate) fn failing(alloc: Global, word: &str) -> Option<Vec<u64>> {
    if word == "-" {
        return Some(Vec::new(alloc));
    }
    let call = word.parse::<u64>().ok()?;
    vec![in alloc; call].ok()
}

/// Reads the texts of these names, and adds each, or why it is not read.
fn read_all<S: Shelf>(
    alloc: Global,
    shelf: &mut S,
    limit: u32,
    names: &str,
    text: &mut String,
) -> Option<()> {
    for name in names.split(' ') {
        match read_whole(alloc, shelf, name, u64::from(limit)) {
            Ok(bytes) => tell_quoted(bytes.as_slice(), text)?,
            Err(fault) => write!(text, " {fault:?}").ok()?,
        }
    }
    Some(())
}

/// Reads over a shelf that never fails.
pub(crate) fn read_surely(alloc: Global, rest: &str, text: &mut String) -> Option<()> {
    let (limit, names) = first_number(rest)?;
    let mut shelf = SureShelf::new(alloc, &TEXTS).ok()?;
    read_all(alloc, &mut shelf, limit, names, text)
}

/// Reads over a shelf in memory of which a call fails, and adds how often it failed.
pub(crate) fn read_memory(alloc: Global, rest: &str, text: &mut String) -> Option<()> {
    let (limit, rest) = first_number(rest)?;
    let (call, names) = rest.split_once(' ')?;
    let calls = failing(alloc, call)?;
    let mut shelf = MemShelf::new(alloc, &TEXTS, calls.as_slice()).ok()?;
    read_all(alloc, &mut shelf, limit, names, text)?;
    write!(text, ", faults {}", shelf.faults()).ok()
}

/// Reads files of the folder that the program runs in, and adds how often that failed.
pub(crate) fn read_files(rt: &HostRuntime, rest: &str, text: &mut String) -> Option<()> {
    let (limit, names) = first_number(rest)?;
    let mut shelf = FileShelf::new(rt);
    read_all(rt.alloc(), &mut shelf, limit, names, text)?;
    write!(text, ", faults {}", shelf.faults()).ok()
}

/// The file that is written anew while it is read.
const CHANGING: &str = "changing.txt";

/// Reads at most four bytes, and adds them.
fn read_piece<S: Shelf>(shelf: &mut S, text: &mut String) -> Option<()> {
    let mut piece = [0u8; 4];
    match shelf.read(&mut piece) {
        Ok(count) => tell_quoted(&piece[..count], text),
        Err(fault) => write!(text, " {fault:?}").ok(),
    }
}

/// Begins the file that has the first text, and adds a piece of it, and three more ones once it has the second text.
fn read_pieces<S: Shelf>(
    rt: &HostRuntime,
    shelf: &mut S,
    second: &str,
    text: &mut String,
) -> Option<()> {
    shelf.begin(CHANGING).ok()?;
    read_piece(shelf, text)?;
    fs::write(rt, CHANGING, second).ok()?;
    for _ in 0..3 {
        read_piece(shelf, text)?;
    }
    Some(())
}

/// Reads a file of the first text, which has the second one from the second read on, and adds each piece, and how often
/// that failed.
pub(crate) fn read_changing(rt: &HostRuntime, rest: &str, text: &mut String) -> Option<()> {
    let (first, second) = rest.split_once(' ')?;
    fs::write(rt, CHANGING, first).ok()?;
    let mut shelf = FileShelf::new(rt);
    read_pieces(rt, &mut shelf, second, text)?;
    write!(text, ", faults {}", shelf.faults()).ok()
}
