//! What the words of a command line ask for.

ghost use Rattle.std.specs.Prelude.{[], ◌≡◌, ◌≤◌, ◌<◌, map, string_bytes, option_map, option_and_then, IfOk, IfSome};
ghost use Rattle.option_words.specs.Given.{given_now, told};
ghost use Rattle.command_words.specs.Words.{network_names, plan_names, alone_names, sample_names, plan_options, number_within, budget_of, workers_of, plan_of, sample_key, plan_said, check_said, of_plan_said, upgrade_said, key_said, of_sample_said, command_by, command_now, command_in, IsBudget, AreWorkers, IsSampleKey, IsInRange};

use instance_maker::limits::{MAX_DEMANDS, MAX_NODES, MAX_NUMBER, MIN_NODES};
use option_words::given_in;
use plan_io::MAX_WORKERS;
use proof_tree::limits::MAX_BUDGET;
use std::alloc::{AllocError, Global};

/// How many workers there are where the words name no number.
pub const DEFAULT_WORKERS: u32 = 4;

/// How many nodes of the search tree may be examined where the words name no number.
pub const DEFAULT_BUDGET: u32 = 1000;

/// Which sample is meant.
#[derive(Clone, Copy, Debug, PartialEq, Eq)]
pub struct SampleKey {
    /// What its numbers are drawn from.
    pub number: u32,
    /// How many nodes it has.
    pub nodes: u32,
    /// How many demands it has.
    pub demands: u32,
}

/// What is done with a network and a model.
#[derive(Clone, Copy, Debug, PartialEq, Eq)]
pub enum NetworkWork {
    /// Plans the network, and writes the plan.
    Plan {
        /// How many workers search at once.
        workers: u32,
        /// How many nodes of the search tree may be examined.
        budget: u32,
    },
    /// Tells the sizes of the network.
    Check,
}

/// What is done with a plan for a network.
#[derive(Clone, Copy, Debug, PartialEq, Eq)]
pub enum PlanWork {
    /// Tells whether the plan is a valid one of the network.
    Verify,
    /// Tells the plan by the names of the network, where it is a valid one of it.
    Report,
}

/// What is done with a sample.
#[derive(Clone, Copy, Debug, PartialEq, Eq)]
pub enum SampleWork {
    /// Writes the network of the sample.
    Sample,
    /// Plans that network, and tells what its plan claims.
    Trial,
}

/// What a run is to do, by what it reads. A text is named by an `N`: by its name, or by the bytes of its name.
#[derive(Debug, Drop)]
pub enum Command<N> {
    /// Works with a network and a model.
    OfNetwork {
        work: NetworkWork,
        network: N,
        model: N,
    },
    /// Works with a network, a model and a plan.
    OfPlan {
        work: PlanWork,
        network: N,
        model: N,
        plan: N,
    },
    /// Writes a plan's text anew. No network is asked for.
    Upgrade {
        plan: N,
    },
    /// Works with a sample, and reads no text.
    OfSample {
        work: SampleWork,
        key: SampleKey,
    },
}

/// The number of a word that is an optional plus and digits, where it lies in this range.
fn number_within(least: u32, most: u32, word: &str) -> Option<u32>
    ensures value { result ≡ number_within least most word.now }
    ensures least { IfSome result (λ number. least ≤ number) }
    ensures most { IfSome result (λ number. number ≤ most) }
{
    let Ok(number) = word.parse::<u32>() else {
        return None;
    };
    if number < least {
        return None;
    }
    if number > most {
        return None;
    }
    Some(number)
}

/// The budget of `plan`.
fn budget_of(word: Option<&str>) -> Option<u32>
    ensures value { result ≡ budget_of (option_map (λ w. w.now) word.entry) }
    ensures lawful { IfSome result IsBudget }
{
    match word {
        None => Some(DEFAULT_BUDGET),
        Some(word) => number_within(1, MAX_BUDGET, word),
    }
}

/// The workers of `plan`.
fn workers_of(word: Option<&str>) -> Option<u32>
    ensures value { result ≡ workers_of (option_map (λ w. w.now) word.entry) }
    ensures lawful { IfSome result AreWorkers }
{
    match word {
        None => Some(DEFAULT_WORKERS),
        Some(word) => number_within(1, MAX_WORKERS, word),
    }
}

/// The command `plan` of two texts.
fn plan_of<'a>(
    network: &'a str,
    model: &'a str,
    workers: Option<&str>,
    budget: Option<&str>,
) -> Option<Command<&'a str>>
    ensures value { option_map command_now result
        ≡ plan_of network.now model.now (option_map (λ w. w.now) workers.entry) (option_map (λ w. w.now) budget.entry) }
    ensures range { IfSome result (λ command. IsInRange (command_now command)) }
{
    let workers = workers_of(workers)?;
    let budget = budget_of(budget)?;
    Some(Command::OfNetwork {
        work: NetworkWork::Plan { workers, budget },
        network,
        model,
    })
}

/// The sample that three words name.
fn sample_key(number: &str, nodes: &str, demands: &str) -> Option<SampleKey>
    ensures value { result ≡ sample_key number.now nodes.now demands.now }
    ensures range { IfSome result IsSampleKey }
{
    let number = number_within(0, MAX_NUMBER, number)?;
    let nodes = number_within(MIN_NODES, MAX_NODES, nodes)?;
    let demands = number_within(0, MAX_DEMANDS, demands)?;
    Some(SampleKey {
        number,
        nodes,
        demands,
    })
}

/// The command `plan` of what its words give.
#[tactic(auto, unfolding(crate::specs::Words::plan_said))]
fn plan_said(given: Option<Vec<Option<&str>>>) -> Option<Command<&str>>
    ensures value { option_map command_now result ≡ option_and_then plan_said (given_now given.entry) }
    ensures range { IfSome result (λ command. IsInRange (command_now command)) }
{
    let given = given?;
    match *given.as_slice() {
        [Some(network), Some(model), workers, nodes] => plan_of(network, model, workers, nodes),
        _ => None,
    }
}

/// The command `check` of what its words give.
#[tactic(auto, unfolding(crate::specs::Words::check_said))]
fn check_said(given: Option<Vec<Option<&str>>>) -> Option<Command<&str>>
    ensures value { option_map command_now result ≡ option_and_then check_said (given_now given.entry) }
    ensures range { IfSome result (λ command. IsInRange (command_now command)) }
{
    let given = given?;
    match *given.as_slice() {
        [Some(network), Some(model)] => Some(Command::OfNetwork {
            work: NetworkWork::Check,
            network,
            model,
        }),
        _ => None,
    }
}

/// The command that does this with the plan that its words give.
#[tactic(auto, unfolding(crate::specs::Words::of_plan_said))]
fn of_plan_said(work: PlanWork, given: Option<Vec<Option<&str>>>) -> Option<Command<&str>>
    ensures value { option_map command_now result ≡ option_and_then (of_plan_said work) (given_now given.entry) }
    ensures range { IfSome result (λ command. IsInRange (command_now command)) }
{
    let given = given?;
    match *given.as_slice() {
        [Some(network), Some(model), Some(plan)] => Some(Command::OfPlan {
            work,
            network,
            model,
            plan,
        }),
        _ => None,
    }
}

/// The command `upgrade` of what its words give.
#[tactic(auto, unfolding(crate::specs::Words::upgrade_said))]
fn upgrade_said(given: Option<Vec<Option<&str>>>) -> Option<Command<&str>>
    ensures value { option_map command_now result ≡ option_and_then upgrade_said (given_now given.entry) }
    ensures range { IfSome result (λ command. IsInRange (command_now command)) }
{
    let given = given?;
    match *given.as_slice() {
        [Some(plan)] => Some(Command::Upgrade { plan }),
        _ => None,
    }
}

/// The sample that the words of a command about a sample give.
#[tactic(auto, unfolding(crate::specs::Words::key_said))]
fn key_said(given: Option<Vec<Option<&str>>>) -> Option<SampleKey>
    ensures value { result ≡ option_and_then key_said (given_now given.entry) }
    ensures range { IfSome result IsSampleKey }
{
    let given = given?;
    match *given.as_slice() {
        [Some(number), Some(nodes), Some(demands)] => sample_key(number, nodes, demands),
        _ => None,
    }
}

/// The command that does this with the sample that its words give.
#[tactic(auto, unfolding(crate::specs::Words::of_sample_said))]
fn of_sample_said<'a>(
    work: SampleWork,
    given: Option<Vec<Option<&'a str>>>,
) -> Option<Command<&'a str>>
    ensures value { option_map command_now result ≡ option_and_then (of_sample_said work) (given_now given.entry) }
    ensures range { IfSome result (λ command. IsInRange (command_now command)) }
{
    let key = key_said(given)?;
    Some(Command::OfSample { work, key })
}

/// The command `plan` of the words behind it.
fn plan_in(alloc: Global, rest: &[String]) -> Result<Option<Command<&str>>, AllocError>
    ensures value { IfOk result (λ asked. option_map command_now asked
        ≡ option_and_then plan_said (told network_names plan_options (map string_bytes rest.now))) }
    ensures range { IfOk result (λ asked. IfSome asked (λ command. IsInRange (command_now command))) }
{
    let given = given_in(alloc, &["network", "model"], &["workers", "nodes"], rest)?;
    Ok(plan_said(given))
}

/// The command `check` of the words behind it.
fn check_in(alloc: Global, rest: &[String]) -> Result<Option<Command<&str>>, AllocError>
    ensures value { IfOk result (λ asked. option_map command_now asked
        ≡ option_and_then check_said (told network_names [] (map string_bytes rest.now))) }
    ensures range { IfOk result (λ asked. IfSome asked (λ command. IsInRange (command_now command))) }
{
    let given = given_in(alloc, &["network", "model"], &[], rest)?;
    Ok(check_said(given))
}

/// The command that does this with a plan, of the words behind it.
fn of_plan_in(
    alloc: Global,
    work: PlanWork,
    rest: &[String],
) -> Result<Option<Command<&str>>, AllocError>
    ensures value { IfOk result (λ asked. option_map command_now asked
        ≡ option_and_then (of_plan_said work) (told plan_names [] (map string_bytes rest.now))) }
    ensures range { IfOk result (λ asked. IfSome asked (λ command. IsInRange (command_now command))) }
{
    let given = given_in(alloc, &["network", "model", "plan"], &[], rest)?;
    Ok(of_plan_said(work, given))
}

/// The command `upgrade` of the words behind it.
fn upgrade_in(alloc: Global, rest: &[String]) -> Result<Option<Command<&str>>, AllocError>
    ensures value { IfOk result (λ asked. option_map command_now asked
        ≡ option_and_then upgrade_said (told alone_names [] (map string_bytes rest.now))) }
    ensures range { IfOk result (λ asked. IfSome asked (λ command. IsInRange (command_now command))) }
{
    let given = given_in(alloc, &["plan"], &[], rest)?;
    Ok(upgrade_said(given))
}

/// The command that does this with a sample, of the words behind it.
fn of_sample_in(
    alloc: Global,
    work: SampleWork,
    rest: &[String],
) -> Result<Option<Command<&str>>, AllocError>
    ensures value { IfOk result (λ asked. option_map command_now asked
        ≡ option_and_then (of_sample_said work) (told sample_names [] (map string_bytes rest.now))) }
    ensures range { IfOk result (λ asked. IfSome asked (λ command. IsInRange (command_now command))) }
{
    let given = given_in(alloc, &["number", "nodes", "demands"], &[], rest)?;
    Ok(of_sample_said(work, given))
}

/// The command of a word and those behind it: for each command word its names, its options, and what they mean.
fn command_by<'a>(
    alloc: Global,
    word: &str,
    rest: &'a [String],
) -> Result<Option<Command<&'a str>>, AllocError>
    ensures value { IfOk result (λ asked. option_map command_now asked ≡ command_by word.now (map string_bytes rest.entry.now)) }
    ensures range { IfOk result (λ asked. IfSome asked (λ command. IsInRange (command_now command))) }
{
    match word {
        "plan" => plan_in(alloc, rest),
        "check" => check_in(alloc, rest),
        "verify" => of_plan_in(alloc, PlanWork::Verify, rest),
        "report" => of_plan_in(alloc, PlanWork::Report, rest),
        "upgrade" => upgrade_in(alloc, rest),
        "sample" => of_sample_in(alloc, SampleWork::Sample, rest),
        "trial" => of_sample_in(alloc, SampleWork::Trial, rest),
        _ => Ok(None),
    }
}

/// The command that the words ask for, where they are read.
///
/// - Takes: the words after the program's name.
/// - Errors: want of memory alone.
/// - Rule: docs/DEFINITIONS.md, "Runs".
/// - Time: linear in the bytes of the words.
pub fn command_in(alloc: Global, words: &[String]) -> Result<Option<Command<&str>>, AllocError>
    ensures value { IfOk result (λ asked. option_map command_now asked ≡ command_in (map string_bytes words.now)) }
    ensures range { IfOk result (λ asked. IfSome asked (λ command. IsInRange (command_now command))) }
{
    match words {
        [word, rest @ ..] => command_by(alloc, word.as_str(), rest),
        [] => Ok(None),
    }
}
