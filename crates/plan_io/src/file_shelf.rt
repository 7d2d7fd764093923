//! A shelf over files.

ghost use Rattle.std.specs.Prelude.{◌≡◌, ◌+◌, ◌^◌, min, OnOk, MatchResult};
ghost use Rattle.std.specs.Result.{is_err};
ghost use Rattle.std.specs.Io.{ReadsAtMost};
ghost use Rattle.std.specs.Io.KnownBytes.{ReadConsumes};
ghost use Rattle.plan_io.specs.Texts.{no_text};
ghost use Rattle.plan_io.specs.Causes.{HasCause, CountsUp, faults_after};

use crate::counts::{counted_up, fault_more, taken_more};
use crate::failed::Failed;
use crate::shelf::Shelf;
use std::fs;
use std::io::Read;
use std::rt::Files;

/// Files by their paths, with a count of their faults. It tells no bytes.
#[derive(Drop)]
pub struct FileShelf<'a, R: Files> {
    files: &'a R,
    file: Option<R::File>,
    begins: u64,
    taken: u64,
    faults: u64,
}

impl<'a, R: Files> FileShelf<'a, R> {
    /// A shelf over these files, of which none is open and no call has failed.
    pub fn new(files: &'a R) -> Self
        ensures faults { ⟦<FileShelf<'a, R> as Shelf>⟧.faults result ≡ 0 }
        ensures begins { ⟦<FileShelf<'a, R> as Shelf>⟧.begins result ≡ 0 }
        ensures taken { ⟦<FileShelf<'a, R> as Shelf>⟧.taken result ≡ 0 }
    {
        FileShelf {
            files,
            file: None,
            begins: 0,
            taken: 0,
            faults: 0,
        }
    }

    /// How many calls have failed.
    pub fn faults(&self) -> u64
        ensures { result ≡ ⟦<FileShelf<'a, R> as Shelf>⟧.faults self.now }
    {
        self.faults
    }
}

impl<'a, R: Files> Shelf for FileShelf<'a, R> {
    ghost text = { λ _ _. no_text };

    ghost left = { λ _. no_text };

    ghost faults = { λ shelf. shelf.faults };

    ghost begins = { λ shelf. shelf.begins };

    ghost taken = { λ shelf. shelf.taken };

    /// Opens the file at this path. A file that cannot be opened is a fault.
    fn begin(&mut self, name: &str) -> Result<(), Failed>
        ensures begun { OnOk result (no_text ≡ no_text) }
        ensures begins { CountsUp self.old.begins self.new.begins }
        ensures taken { self.new.taken ≡ 0 }
        ensures cause { HasCause self.old.faults self.new.faults result }

        // A fault is counted exactly where the call fails.
        ensures counted { self.new.faults ≡ faults_after self.old.faults (is_err result) }
    {
        self.begins = counted_up(self.begins);
        self.taken = 0;
        self.file = fs::open(self.files, name).ok();
        if self.file.is_none() {
            self.faults = fault_more(self.faults);
            return Err(Failed);
        }
        Ok(())
    }

    /// An error is a fault, and so is a read where no file is open.
    fn read(&mut self, buf: &mut [u8]) -> Result<usize, Failed>
        ensures bound { ReadsAtMost result buf.new }
        ensures bytes { ReadConsumes no_text no_text result buf.new }
        ensures begins { self.new.begins ≡ self.old.begins }
        ensures taken { MatchResult result
            (λ n. self.new.taken ≡ min (self.old.taken + n) (2 ^ 63))
            (λ _. self.new.taken ≡ self.old.taken) }
        ensures cause { HasCause self.old.faults self.new.faults result }
        ensures counted { self.new.faults ≡ faults_after self.old.faults (is_err result) }
    {
        if let Some(file) = &mut self.file
            && let Ok(count) = file.read(buf)
        {
            self.taken = taken_more(self.taken, count);
            return Ok(count);
        }
        self.faults = fault_more(self.faults);
        Err(Failed)
    }
}
