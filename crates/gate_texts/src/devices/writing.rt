//! Sinks.

use super::reading::failing;
use super::tell_quoted;
use crate::words::first_number;
use plan_io::{MemSink, OutSink, Sink, write_whole};
use std::alloc::Global;
use std::io::Write;
use std::{fs, io};

/// Writes this part to the sink, and adds whether it was taken.
fn write_part<S: Sink>(sink: &mut S, part: &str, text: &mut String) -> Option<()> {
    match write_whole(sink, part.as_bytes()) {
        Ok(()) => text.push_str(" taken").ok(),
        Err(fault) => write!(text, " {fault:?}").ok(),
    }
}

/// Adds what a device has, and how often it failed.
fn tell_taken(bytes: &[u8], faults: u64, text: &mut String) -> Option<()> {
    text.push_str(",").ok()?;
    tell_quoted(bytes, text)?;
    write!(text, ", faults {faults}").ok()
}

/// Writes to a sink in memory that has so much room and of which a call fails, and adds what it has.
pub(crate) fn write_memory(alloc: Global, rest: &str, text: &mut String) -> Option<()> {
    let (room, rest) = first_number(rest)?;
    let (call, parts) = rest.split_once(' ')?;
    let calls = failing(alloc, call)?;
    let mut sink = MemSink::new(alloc, room as usize, calls.as_slice()).ok()?;
    for part in parts.split(' ') {
        write_part(&mut sink, part, text)?;
    }
    tell_taken(sink.bytes(), sink.faults(), text)
}

/// Writes to a stream that has room for two bytes.
pub(crate) fn write_stream(part: &str, text: &mut String) -> Option<()> {
    let mut room = [0u8; 2];
    let mut sink = OutSink::new(&mut room[..]);
    write_part(&mut sink, part, text)?;
    write!(text, ", faults {}", sink.faults()).ok()
}

/// Writes to a file that is open for reading alone.
pub(crate) fn write_read_only(rt: &HostRuntime, part: &str, text: &mut String) -> Option<()> {
    let mut sink = OutSink::new(fs::open(rt, "line.txt").ok()?);
    write_part(&mut sink, part, text)?;
    write!(text, ", faults {}", sink.faults()).ok()
}

/// A stream that takes so many bytes at a time, while it has room.
#[derive(Drop)]
pub(super) struct Drip<'a> {
    rest: &'a mut [u8],
    most: usize,
}

impl<'a> Drip<'a> {
    /// A stream into the first of these bytes, as many as are said.
    pub(super) fn new(room: &'a mut [u8], most: u32, size: u32) -> Option<Drip<'a>> {
        Some(Drip {
            rest: room.get_mut(..size as usize)?,
            most: most as usize,
        })
    }
}

impl<'a> Write for Drip<'a> {
    fn write(&mut self, buf: &[u8]) -> io::Result<usize> {
        let count = self.most.min(buf.len());
        self.rest.write(&buf[..count])
    }

    fn flush(&mut self) -> io::Result<()> {
        Ok(())
    }
}

/// Writes this part to a sink over a stream, adds whether it was taken, and gives how often the sink failed.
pub(super) fn write_room<W: Write + Drop>(
    sink: &mut OutSink<W>,
    part: &str,
    text: &mut String,
) -> Option<u64> {
    write_part(sink, part, text)?;
    Some(sink.faults())
}

/// Adds what a room has that is not full, and how often writing into it failed.
pub(super) fn tell_room(room: &[u8], faults: u64, text: &mut String) -> Option<()> {
    let (taken, _) = str::from_utf8(room).ok()?.split_once('\0')?;
    tell_taken(taken.as_bytes(), faults, text)
}

/// Writes to a stream that takes few bytes at a time and has so much room, and adds what it has.
pub(crate) fn write_drip(rest: &str, text: &mut String) -> Option<()> {
    let (most, rest) = first_number(rest)?;
    let (size, part) = first_number(rest)?;
    let mut room = [0u8; 64];
    let mut sink = OutSink::new(Drip::new(&mut room, most, size)?);
    let faults = write_room(&mut sink, part, text)?;
    tell_room(&room, faults, text)
}
