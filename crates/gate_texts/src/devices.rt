//! Texts that are read from shelves, sinks that fail, lines at a terminal, and what comes of each.
//!
//! The file of rows says which calls fail and how much room there is. To add a row, write it there in the form that the
//! head of the file explains, and what comes of it, worked out by hand, at the same place of the file `stdout`. Begin at
//! `tell_row`.

mod reading;
mod showing;
mod writing;

/// Adds these bytes as a quoted text.
fn tell_quoted(bytes: &[u8], text: &mut String) -> Option<()> {
    write!(text, " {:?}", str::from_utf8(bytes).ok()?).ok()
}

/// Adds what comes of a row. None where it is none, and where memory is wanting.
fn tell_row(rt: &HostRuntime, row: &str, text: &mut String) -> Option<()> {
    let (kind, rest) = row.split_once(' ')?;
    match kind {
        "surely" => reading::read_surely(rt.alloc(), rest, text),
        "memory" => reading::read_memory(rt.alloc(), rest, text),
        "files" => reading::read_files(rt, rest, text),
        "sink" => writing::write_memory(rt.alloc(), rest, text),
        "stream" => writing::write_stream(rest, text),
        "changing" => reading::read_changing(rt, rest, text),
        "drip" => writing::write_drip(rest, text),
        "read-only" => writing::write_read_only(rt, rest, text),
        "line" => showing::tell_line(rt.alloc(), rest, text),
        "shown" => showing::show_line(rt.alloc(), rest, text),
        "answer" => showing::write_answer(rt.alloc(), rest, text),
        _ => None,
    }
}

/// Adds each row of this file with what comes of it.
pub(crate) fn tell_rows(rt: &HostRuntime, file: &str, text: &mut String) -> Option<()> {
    for row in file.lines() {
        if !row.is_empty() && !row.starts_with('#') {
            write!(text, "{row}:").ok()?;
            tell_row(rt, row, text)?;
            text.push_str("\n").ok()?;
        }
    }
    Some(())
}
