//! Plans that are told by tables.

use crate::programs::{Program, ended_alone};
use crate::texts::Texts;
use std::alloc::Global;

/// Adds the name of a run and its status, and each line of its tables behind two blanks.
fn tell_table(name: &str, status: u8, tables: &[u8], text: &mut String) -> Option<()> {
    write!(text, "{name} {status}\n").ok()?;
    for told in str::from_utf8(tables).ok()?.lines() {
        write!(text, "  {told}\n").ok()?;
    }
    Some(())
}

/// Tells the plan that the words of this row name, and adds its name, the status, and each line behind two blanks.
pub(crate) fn table_row(alloc: Global, texts: &Texts, rest: &str, text: &mut String) -> Option<()> {
    let (name, line) = rest.split_once(" : ")?;
    let (status, sink) = ended_alone(alloc, Program::Tables, line, texts.shelf(alloc)?)?;
    tell_table(name, status, sink.bytes(), text)
}
