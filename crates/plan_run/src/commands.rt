//! The commands, each a call of its own.

ghost use Rattle.std.specs.Prelude.{◌≤◌, map, string_bytes};
ghost use Rattle.command_words.specs.Words.{command_now, IsInRange};
ghost use Rattle.command_texts.specs.Refusals.{counts_of};
ghost use Rattle.plan_run.specs.Found.{IsFoundBy, IsFoundFor};

use crate::planning::plan;
use crate::samples::make;
use command_texts::{Answer, Stop, check, report, upgrade, verify_plan};
use command_words::{Command, NetworkWork, PlanWork, command_in};
use plan_io::{Gate, Shelf};
use plan_report::RunFault;
use std::alloc::{AllocError, Global};
use std::sync::Wait;
use std::thread::Threads;

/// What a command has to say.
#[tactic(auto, using(crate::proofs::Finding::found, crate::proofs::Finding::found_made, crate::proofs::Finding::found_short))]
fn do_command<R: Threads + Wait + Sync, S: Shelf, G: Gate>(
    rt: &R,
    alloc: Global,
    command: Command<&str>,
    shelf: &mut S,
    gate: &G,
) -> Result<Answer, Stop>
    requires { IsInRange (command_now command) }
    ensures found { IsFoundBy (command_now command.entry) (S.text shelf.old)
        (counts_of (S.faults shelf.old) (S.faults shelf.new) (S.taken shelf.new))
        (S.begins shelf.old) (S.begins shelf.new) result }
    ensures later { S.faults shelf.old ≤ S.faults shelf.new }
{
    match command {
        Command::OfNetwork {
            work,
            network,
            model,
        } => match work {
            NetworkWork::Plan { workers, budget } => {
                plan(rt, alloc, network, model, workers, budget, shelf, gate)
            }
            NetworkWork::Check => check(alloc, network, model, shelf),
        },
        Command::OfPlan {
            work,
            network,
            model,
            plan,
        } => match work {
            PlanWork::Verify => verify_plan(alloc, network, model, plan, shelf),
            PlanWork::Report => report(alloc, network, model, plan, shelf),
        },
        Command::Upgrade { plan } => upgrade(alloc, plan, shelf),
        Command::OfSample { work, key } => match make(alloc, work, key) {
            Ok(answer) => Ok(answer),
            Err(AllocError) => Err(Stop::OutOfMemory),
        },
    }
}

/// What a run of these words has to say.
#[tactic(auto, using(crate::proofs::Finding::found_unread, crate::proofs::Finding::found_wanting, crate::proofs::Finding::found_read))]
pub fn answer_to<R: Threads + Wait + Sync, S: Shelf, G: Gate>(
    rt: &R,
    alloc: Global,
    words: &[String],
    shelf: &mut S,
    gate: &G,
) -> Result<Answer, Stop>
    ensures found { IsFoundFor (map string_bytes words.now) (S.text shelf.old)
        (counts_of (S.faults shelf.old) (S.faults shelf.new) (S.taken shelf.new))
        (S.begins shelf.old) (S.begins shelf.new) result }
    ensures later { S.faults shelf.old ≤ S.faults shelf.new }
{
    let asked = match command_in(alloc, words) {
        Ok(asked) => asked,
        Err(AllocError) => return Err(Stop::OutOfMemory),
    };
    match asked {
        Some(command) => do_command(rt, alloc, command, shelf, gate),
        None => Err(Stop::Refused(RunFault::Usage)),
    }
}
