//! What may be done next, and by whom.

ghost use Rattle.std.specs.Prelude.{◌≡◌, ◌↔◌, true};
ghost use Rattle.search_machine.specs.declared.task.Task.{Task};
ghost use Rattle.search_machine.specs.PlanOf.{is_done};
ghost use Rattle.search_machine.specs.Tasks.{IsLawfulTask};

use super::Pool;
use search_machine::Task;

impl Pool {
    /// Whether the budget is spent, or no leaf is open.
    ///
    /// - Rule: docs/METHOD.md, "The search as a machine".
    pub fn is_done(&self) -> bool
        ensures { result ≡ is_done self.now }
    {
        self.view().is_done()
    }

    /// What may be done next. Takes no memory.
    ///
    /// - Takes: the number of the worker that asks.
    /// - Gives: a task whose call would not be refused now, want of memory aside; `Done` exactly where the budget
    ///   is spent or no leaf is open. A task that no other worker was given last comes first; where there is none, one
    ///   is given again, so that no worker waits for another.
    /// - Rule: docs/METHOD.md, "The search as a machine".
    pub fn next_task(&mut self, worker: u32) -> Task
        ensures unchanged { self.new ≡ self.old }
        ensures lawful { IsLawfulTask self.old result }
        ensures done { (result ≡ Task.Done) ↔ (is_done self.old ≡ true) }
    {
        if self.is_done() {
            return Task::Done;
        }
        let task = self.view().open_task(worker);
        self.claims.give(worker, task);
        task
    }
}
