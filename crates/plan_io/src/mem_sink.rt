//! A sink in memory that fails where it is told to.

ghost use Rattle.std.specs.Prelude.{◌≡◌, ◌<◌, ◌≤◌, ◌||◌, ◌&&◌, ◌==◌, min, length, vec_len, vec_capacity, nat_lt, Some, IfOk};
ghost use Rattle.std.specs.Result.{is_err};
ghost use Rattle.std.specs.Io.{WritesAtMost};
ghost use Rattle.std.specs.Io.KnownBytes.{WriteAppends};
ghost use Rattle.plan_io.specs.Causes.{HasCause};
ghost use Rattle.plan_io.specs.FailList.{is_listed, failing_in, next_in, faults_in};

use crate::fail_list::FailList;
use crate::failed::Failed;
use crate::sink::Sink;
use std::alloc::{AllocError, Global};

/// What was written, in memory, up to a greatest length. A call fails exactly where its number, from
/// 0, is in a list, or nothing of a piece that is not empty fits.
#[derive(Drop)]
pub struct MemSink {
    bytes: Vec<u8>,
    greatest_len: usize,
    fails: FailList,
    ghost within: { vec_len bytes ≤ greatest_len },
    ghost has_room: { greatest_len ≤ vec_capacity bytes },
}

impl MemSink {
    ghost use Rattle.plan_io.specs.MemSink.{bytes_of, greatest_len, fails_of, IsUnused};

    /// An empty sink. It takes the room for its greatest length now, so that no write does.
    ///
    /// - Takes: its greatest length, in bytes; the numbers of the calls that are to fail, from 0.
    /// - Errors: want of memory.
    pub fn new(alloc: Global, greatest: usize, failing: &[u64]) -> Result<MemSink, AllocError>
        ensures greatest { IfOk result (λ sink. greatest_len sink ≡ greatest) }
        ensures failing { IfOk result (λ sink. failing_in (fails_of sink) ≡ failing.now) }
        ensures unused { IfOk result IsUnused }
    {
        Ok(MemSink {
            bytes: Vec::with_capacity(alloc, greatest)?,
            greatest_len: greatest,
            fails: FailList::new(alloc, failing)?,
        })
    }

    /// All that was written.
    pub fn bytes(&self) -> &[u8]
        ensures { result.now ≡ bytes_of self.now }
    {
        self.bytes.as_slice()
    }

    /// How many calls have failed.
    pub fn faults(&self) -> u64
        ensures { result ≡ faults_in (fails_of self.now) }
    {
        self.fails.faults()
    }
}

impl Sink for MemSink {
    ghost use Rattle.std.specs.Prelude.{Some};
    ghost use Rattle.plan_io.specs.MemSink.{bytes_of, room_in, fails_of, IsCalled};

    ghost contents = { λ sink. Some (bytes_of sink) };

    ghost faults = { λ sink. faults_in (fails_of sink) };

    fn write(&mut self, piece: &[u8]) -> Result<usize, Failed>
        ensures bound { WritesAtMost result piece.now }
        ensures bytes { WriteAppends (Some (bytes_of self.old)) (Some (bytes_of self.new)) result piece.now }
        ensures some { IfOk result (λ n. 0 < length piece.now → 0 < n) }
        ensures cause { HasCause (faults_in (fails_of self.old)) (faults_in (fails_of self.new)) result }

        // It fails exactly where the list has its number or nothing of the piece fits, and else
        // takes what fits.
        ensures failed { is_err result ≡ (is_listed (next_in (fails_of self.old)) (failing_in (fails_of self.old))
            || (room_in self.old == 0 && nat_lt 0 (length piece.now))) }
        ensures count { IfOk result (λ n. n ≡ min (room_in self.old) (length piece.now)) }
        ensures called { IsCalled self.old self.new (is_err result) }
    {
        let room = self.greatest_len - self.bytes.len();
        if self.fails.next_call() || room == 0 && !piece.is_empty() {
            return Err(self.fails.fault());
        }
        let count = room.min(piece.len());
        self.bytes.extend_from_slice(&piece[..count]).unwrap();
        Ok(count)
    }
}
