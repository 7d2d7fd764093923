//! A shelf of texts in memory that fails where it is told to.

ghost use Rattle.std.specs.Prelude.{◌≡◌, ◌+◌, ◌^◌, ◌||◌, min, map, length, is_none, unwrap_or, [], Some, IfOk, OnOk, MatchResult};
ghost use Rattle.std.specs.Result.{is_err};
ghost use Rattle.std.specs.Io.{ReadsAtMost};
ghost use Rattle.std.specs.Io.KnownBytes.{ReadConsumes};
ghost use Rattle.plan_io.specs.Causes.{HasCause, CountsUp};
ghost use Rattle.plan_io.specs.FailList.{is_listed, failing_in, next_in, faults_in};
ghost use Rattle.plan_io.specs.Held.{texts_in, left_in, begins_in, taken_in};
ghost use Rattle.plan_io.specs.Texts.{find_text};
ghost use Rattle.plan_io.specs.MemShelf.{held_of, fails_of, IsUnused, IsCalled};

use crate::fail_list::FailList;
use crate::failed::Failed;
use crate::held_texts::HeldTexts;
use crate::shelf::Shelf;
use std::alloc::{AllocError, Global};

/// Texts in memory. A call fails exactly where its number, from 0, is in a list, and a `begin` also
/// where no text has the name.
#[derive(Drop)]
pub struct MemShelf {
    held: HeldTexts,
    fails: FailList,
}

impl MemShelf {
    /// Copies of these texts, each given with its name, none of them begun. Of two texts of one name
    /// the first counts.
    ///
    /// - Takes: the numbers of the calls that are to fail, of `begin` and `read` together, from 0.
    /// - Errors: want of memory.
    pub fn new(
        alloc: Global,
        texts: &[(&str, &[u8])],
        failing: &[u64],
    ) -> Result<MemShelf, AllocError>
        ensures texts { IfOk result
            (λ shelf. texts_in (held_of shelf) ≡ map (λ text. (text.0.now, text.1.now)) texts.now) }
        ensures failing { IfOk result (λ shelf. failing_in (fails_of shelf) ≡ failing.now) }
        ensures unused { IfOk result IsUnused }
    {
        Ok(MemShelf {
            held: HeldTexts::new(alloc, texts)?,
            fails: FailList::new(alloc, failing)?,
        })
    }

    /// How many calls have failed.
    pub fn faults(&self) -> u64
        ensures { result ≡ faults_in (fails_of self.now) }
    {
        self.fails.faults()
    }
}

impl Shelf for MemShelf {
    ghost text = { λ shelf. find_text (texts_in (held_of shelf)) };

    ghost left = { λ shelf. Some (left_in (held_of shelf)) };

    ghost faults = { λ shelf. faults_in (fails_of shelf) };

    ghost begins = { λ shelf. begins_in (held_of shelf) };

    ghost taken = { λ shelf. taken_in (held_of shelf) };

    fn begin(&mut self, name: &str) -> Result<(), Failed>
        ensures texts { find_text (texts_in (held_of self.new)) ≡ find_text (texts_in (held_of self.old)) }
        ensures begun { OnOk result (Some (left_in (held_of self.new)) ≡ find_text (texts_in (held_of self.old)) name.now) }
        ensures begins { CountsUp (begins_in (held_of self.old)) (begins_in (held_of self.new)) }
        ensures taken { taken_in (held_of self.new) ≡ 0 }
        ensures cause { HasCause (faults_in (fails_of self.old)) (faults_in (fails_of self.new)) result }

        // It fails exactly where the list has its number or the name is not there.
        ensures failed { is_err result ≡ (is_listed (next_in (fails_of self.old)) (failing_in (fails_of self.old))
            || is_none (find_text (texts_in (held_of self.old)) name.now)) }
        // Where the list alone makes it fail, the text is begun all the same.
        ensures left { left_in (held_of self.new) ≡ unwrap_or (find_text (texts_in (held_of self.old)) name.now) [] }
        ensures called { IsCalled self.old self.new (is_err result) }
    {
        let is_listed = self.fails.next_call();
        let is_there = self.held.begin(name);
        if is_listed || !is_there {
            return Err(self.fails.fault());
        }
        Ok(())
    }

    fn read(&mut self, buf: &mut [u8]) -> Result<usize, Failed>
        ensures texts { find_text (texts_in (held_of self.new)) ≡ find_text (texts_in (held_of self.old)) }
        ensures bound { ReadsAtMost result buf.new }
        ensures bytes { ReadConsumes (Some (left_in (held_of self.old))) (Some (left_in (held_of self.new))) result buf.new }
        ensures begins { begins_in (held_of self.new) ≡ begins_in (held_of self.old) }
        ensures taken { MatchResult result
            (λ n. taken_in (held_of self.new) ≡ min (taken_in (held_of self.old) + n) (2 ^ 63))
            (λ _. taken_in (held_of self.new) ≡ taken_in (held_of self.old)) }
        ensures cause { HasCause (faults_in (fails_of self.old)) (faults_in (fails_of self.new)) result }

        // It fails exactly where the list has its number, and else reads what there is room for.
        ensures failed { is_err result ≡ is_listed (next_in (fails_of self.old)) (failing_in (fails_of self.old)) }
        ensures count { IfOk result (λ n. n ≡ min (length (left_in (held_of self.old))) (length buf.new)) }
        ensures called { IsCalled self.old self.new (is_err result) }
    {
        if self.fails.next_call() {
            return Err(self.fails.fault());
        }
        Ok(self.held.read(buf))
    }
}
