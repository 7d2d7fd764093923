//! What follows from the contract of the top call.

ghost use Rattle.std.specs.Prelude.{ℕ, List, ◌≡◌, ◌≤◌, ◌⊎◌, length, map, string_bytes, None, Some};
ghost use Rattle.cert_format.specs.declared.limits.TheConstants.{MAX_PLAN_BYTES};
ghost use Rattle.plan_io.specs.SureShelf.{text_of, begin_count, taken_count};
ghost use Rattle.plan_report.specs.declared.run_fault.RunFault.{RunFault as AnyFault};
ghost use Rattle.command_words.specs.declared.command.Command.{Command as AnyCommand};
ghost use Rattle.command_words.specs.Words.{Word};
ghost use Rattle.command_texts.specs.declared.status.Status.{Status as AnyStatus};
ghost use Rattle.command_texts.specs.declared.status.Status.TheVariants as statuses;
ghost use Rattle.command_texts.specs.Texts.{Told, Text, Texts, two, three};
ghost use Rattle.command_texts.specs.Refusals.{AreRefused, Counts, counts_of};
ghost use Rattle.command_texts.specs.Answers.{IsVerified};
ghost use Rattle.instance_maker.specs.declared.trials.TheConstants.{TRIAL_BUDGET};
ghost use Rattle.command_words.specs.declared.command.SampleKey.{SampleKey as AnyKey};
ghost use Rattle.plan_run.specs.Budgets.{CoversSplits};
ghost use Rattle.plan_run.specs.Plans.{IsPlanDone};
ghost use Rattle.plan_run.specs.Samples.{parts_of_key, IsTried};
ghost use Rattle.run_ends.specs.Ends.{IsOwnEnd};
ghost use Rattle.plan_run.specs.Supports.{AreSupported, EndsWith, IsEndOfWork, SaysOf};
ghost use Rattle.plan_run.specs.Runs.{texts_in_words, IsCommandRun, IsWorkDone};

use crate::top_call::run;
use cert_format::laws::text_within_limit;
use command_texts::Status;
use command_texts::laws::one_answer_below;
pub use command_texts::laws::{
    accepted_where_valid, one_refusal, one_upgrade, one_verdict, refused_or_read,
};
use plan_io::{Gate, SureShelf, SureSink};
use search_machine::laws::enough_budget;
use std::alloc::Global;
use std::sync::Wait;
use std::thread::Threads;

/// Over a shelf and a sink that never fail, a run ends with the work done, with a refusal of its words or texts, or with
/// want of memory.
pub fn run_surely<R: Threads + Wait + Sync, G: Gate>(
    rt: &R,
    alloc: Global,
    words: &[String],
    shelf: &mut SureShelf,
    out: &mut SureSink,
    gate: &G,
) -> Status
    // Over a sink that tells nothing the bytes are free, but the begins and the cause are not.
    ensures answer { IsCommandRun (map string_bytes words.now) (λ name. Some (text_of shelf.old name))
        (counts_of 0 0 (taken_count shelf.new)) (begin_count shelf.old) (begin_count shelf.new) None None result }
    ensures complete { IsOwnEnd (IsEndOfWork (map string_bytes words.now)) (texts_in_words (map string_bytes words.now)) result }
    ensures no_read_fault { result ≡ Status.ReadFault → ⊥ }
    ensures no_write_fault { result ≡ Status.WriteFault → ⊥ }
{
    run(rt, alloc, words, shelf, out, gate)
}

/// Where texts are refused, no command does its work for them.
pub fn refused_or_done()
    ensures { (command : AnyCommand Word) (texts : Texts) (fault : AnyFault) (status : AnyStatus) (bytes : List ℕ) →
        AreRefused texts fault → IsWorkDone command texts status bytes → ⊥ }
{
    one_answer_below();
}

/// The plan that `plan` writes is accepted: its text is within the limit of bytes of a plan text, with it `verify` is not
/// refused, and ends with nothing but the line of an accepted plan.
pub fn accepted_where_planned()
    ensures spelt { (budget : ℕ) (network model text : Text) (status : AnyStatus) (fault : AnyFault) →
        IsPlanDone budget (two network model) status text → AreRefused (three network model text) fault → ⊥ }
    ensures good { (budget : ℕ) (network model text : Text) (status other : AnyStatus) (bytes : List ℕ) →
        IsPlanDone budget (two network model) status text → IsVerified (three network model text) other bytes
        → other ≡ statuses.Good }
    ensures short { (budget : ℕ) (network model text : Text) (status : AnyStatus) →
        IsPlanDone budget (two network model) status text → length text ≤ MAX_PLAN_BYTES }
{
    one_answer_below();
    text_within_limit();
}

/// Where the budget has a node for each place down to the branching depth of the instance, `plan` does not end undecided,
/// and neither does `trial` where this holds of its own budget. So with such a budget a network that is supported gets its
/// cheapest design, or that none exists.
pub fn decided_where_covered()
    ensures planned { (budget : ℕ) (texts : Texts) (bytes : List ℕ) (done : IsPlanDone budget texts statuses.Undecided bytes) →
        CoversSplits done.parts budget → ⊥ }
    ensures tried { (key : AnyKey) (bytes : List ℕ) → IsTried key statuses.Undecided bytes → CoversSplits (parts_of_key key) TRIAL_BUDGET → ⊥ }
{
    enough_budget();
}

/// Where the texts of a command are supported, it does its work, unless something outside fails or memory is
/// wanting. So `plan` ends with a plan, `check` with its line, `verify` with a verdict, `report` with a report or a
/// rejection and `upgrade` with a plan's text; `sample` and `trial`, which name no text, end with a network and with the line
/// of a plan.
pub fn done_where_supported()
    ensures { (words : List Word) (shelf : Told) (counts : Counts) (begun : ℕ) (command : AnyCommand Word)
        (status : AnyStatus) (bytes : List ℕ) → AreSupported words shelf command → SaysOf words shelf counts begun status bytes
        → EndsWith command status ⊎ (status ≡ statuses.ReadFault) ⊎ (status ≡ statuses.WriteFault) ⊎ (status ≡ statuses.OutOfMemory) }
{
    one_answer_below();
}
