//! Plans made networks through the top call, each with several budgets, and looks over what comes out.
//!
//! The networks have 4 to 12 nodes and come from a small generator (`made`), the same ones in each run: with directed,
//! undirected and bidirected links, none to three modules on a link, whole and decimal numbers, some that have no
//! design, some with limits on the links of paths, and some with explicit capacities. Each plan must be accepted by
//! `verify`, state its status and its budget, and stand in version 3 exactly where it has cuts or splits loads. `upgrade`
//! must give its text again, and read the same plan in version 1, which `versions` writes where there is one. The plans
//! of one network must agree: none contradicts another, also of those by several workers, and of two searches with the
//! same cuts the one with the greater budget never knows less. Where few paths can be chosen from, the least cost of all
//! choices, which `choices` finds by trying them, must lie where each plan says. The program writes a line for each
//! network, with the cuts and the splits of either kind in its last plan by one worker, and ends with an error at the
//! first plan that is not as it must be; the error names the network and the budget. Begin at `plan_network`. Stands on
//! `plan_run` and promises nothing of its own.
#![tactic(auto)]

mod choices;
mod claims;
mod made;
mod network;
mod texts;
mod trials;
mod versions;

use anyhow::{Context, Result, ensure};
use choices::{Tried, least_cost};
use claims::{Known, Range};
use made::made_network;
use network::{Extra, Network};
use std::alloc::{AllocError, Global};
use std::io;
use std::io::Write;
use std::sync::Wait;
use std::thread::Threads;
use texts::Texts;
use trials::Trial;

/// How many networks of directed or undirected links are planned.
const NETWORKS: u32 = 100;

/// How many of bidirected links, with the numbers behind these.
const BIDIRECTED: u32 = 40;

/// How many of any links with hop limits, and as many with explicit capacities, with the numbers behind those.
const EXTRA: u32 = 20;

/// With fewer nodes of the search tree no cuts are looked for.
const LEAST_FOR_CUTS: u32 = 8;

/// With so many nodes all cuts are looked for, and more nodes find no others. Each network is planned with them.
const MOST_FOR_CUTS: u32 = 240;

/// With how many nodes each network is planned before that, in turn, until its best design is known.
const FEW_NODES: [u32; 3] = [1, 3, 10];

/// With how many nodes it is planned last, where its best design is not known then.
const MOST_NODES: u32 = 1_000;

/// How many workers plan each network once more.
const WORKERS: u32 = 3;

/// With how many nodes these plan.
const SHARED_NODES: u32 = 64;

/// What a plan claimed with a smaller budget.
#[derive(Clone, Copy)]
struct Former {
    budget: u32,
    range: Range,
}

impl Former {
    /// Whether a search with this budget, which is no smaller, has the same cuts.
    fn has_same_cuts(self, budget: u32) -> bool {
        budget < LEAST_FOR_CUTS || self.budget >= MOST_FOR_CUTS
    }
}

/// Looks whether a plan may claim this.
fn look_over(claimed: Range, tried: Tried) -> Result<()> {
    ensure!(
        claimed.lower <= claimed.upper,
        "the bound is above the cost"
    );
    if let Tried::All { least, .. } = tried {
        ensure!(claimed.lower <= least, "a choice of paths costs less");
        ensure!(least <= claimed.upper, "no choice of paths costs so little");
    }
    Ok(())
}

/// Looks whether two plans of one network may claim these.
fn agree(one: Range, other: Range) -> Result<()> {
    ensure!(
        one.lower <= other.upper,
        "the former bound is above the cost"
    );
    ensure!(
        other.lower <= one.upper,
        "the bound is above the former cost"
    );
    Ok(())
}

/// Looks whether the plan with this budget may claim this, where one with a smaller budget claimed the former.
fn compare(former: Former, budget: u32, claimed: Range) -> Result<()> {
    agree(former.range, claimed)?;
    if former.has_same_cuts(budget) {
        ensure!(former.range.lower <= claimed.lower, "the bound fell");
        ensure!(claimed.upper <= former.range.upper, "the cost rose");
    }
    Ok(())
}

/// Plans a network by one worker with this budget. Gives what the plan tells.
fn claimed_within<R: Threads + Wait + Sync>(
    trial: &Trial<'_, R>,
    budget: u32,
    former: Former,
) -> Result<Known> {
    let known = trial
        .plan_within(1, budget)
        .context(format_args!("budget {budget}"))?;
    look_over(known.range, trial.tried).context(format_args!("budget {budget}"))?;
    compare(former, budget, known.range).context(format_args!("budget {budget}"))?;
    Ok(known)
}

/// Plans a network by several workers. Their plan must agree with what one worker's claims.
fn plan_together<R: Threads + Wait + Sync>(trial: &Trial<'_, R>, known: Range) -> Result<()> {
    let claimed = trial.plan_within(WORKERS, SHARED_NODES)?.range;
    look_over(claimed, trial.tried)?;
    agree(known, claimed)
}

/// Plans a network with few nodes, by one worker. Gives what the last of these plans claims.
fn plan_with_few<R: Threads + Wait + Sync>(trial: &Trial<'_, R>) -> Result<Former> {
    let mut former = Former {
        budget: 1,
        range: Range::any(),
    };
    for budget in FEW_NODES.iter() {
        let range = claimed_within(trial, *budget, former)?.range;
        former = Former {
            budget: *budget,
            range,
        };
        if range.is_decided() {
            break;
        }
    }
    Ok(former)
}

/// Plans a network with the budgets, by one worker and then by several. Gives what the last plan of one worker tells.
fn plan_network<R: Threads + Wait + Sync>(trial: &Trial<'_, R>) -> Result<Known> {
    let former = plan_with_few(trial)?;
    let mut known = claimed_within(trial, MOST_FOR_CUTS, former)?;
    if !known.range.is_decided() {
        let former = Former {
            budget: MOST_FOR_CUTS,
            range: known.range,
        };
        known = claimed_within(trial, MOST_NODES, former)?;
    }
    plan_together(trial, known.range).context("several workers")?;
    Ok(known)
}

/// The network of this number.
fn numbered_network(alloc: Global, number: u32) -> Result<Network, AllocError> {
    if number < NETWORKS {
        return made_network(alloc, number, false, Extra::Nothing);
    }
    if number < NETWORKS + BIDIRECTED {
        return made_network(alloc, number, true, Extra::Nothing);
    }
    let extra = if number < NETWORKS + BIDIRECTED + EXTRA {
        Extra::Limits
    } else {
        Extra::Explicit
    };
    made_network(alloc, number, number % 4 == 0, extra)
}

/// Plans the network of this number, and writes its line.
fn write_network<R: Threads + Wait + Sync, W: Write>(
    rt: &R,
    alloc: Global,
    number: u32,
    out: &mut W,
) -> Result<()> {
    let network = numbered_network(alloc, number)?;
    let texts = Texts::of(alloc, &network)?;
    let tried = least_cost(alloc, &network)?;
    let trial = Trial {
        rt,
        alloc,
        texts: &texts,
        tried,
    };
    let known = plan_network(&trial).context(format_args!("network {number}"))?;
    writeln!(out, "{number}: {network}, {known}, {tried}")?;
    Ok(())
}

fn main(rt: HostRuntime) -> Result<()> {
    let mut out = io::writer(&rt);
    for number in 0..NETWORKS + BIDIRECTED + 2 * EXTRA {
        write_network(&rt, rt.alloc(), number, &mut out)?;
    }
    Ok(())
}
