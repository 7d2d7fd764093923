//! The text of a report.

ghost use Rattle.std.specs.Prelude.{◌≡◌, ◌<◌, ◌++◌, length, OnOk, IfOk};
ghost use Rattle.plan_report.specs.Reports.{load_text, back_text, traffic_text, installed_text, link_line, way_text, demand_line, link_report, demand_report, design_text, cuts_text, report_text};

use crate::check_lines::LOAD_SCALE;
use crate::named_design::NamedDesign;
use crate::named_plan::NamedPlan;
use crate::names::{demand_name, link_name};
use crate::numbers::{push_number, push_numbers};
use crate::verdict_lines::{COST_SCALE, status_word};
use plan_base::{ArcId, DemandId, Instance, LinkId, loads_of};
use scaled_numbers::write_grains;
use snd_network::NetworkFile;
use std::alloc::{AllocError, Global};

/// Writes a word and a load or a capacity.
fn push_load(text: &mut Vec<u8>, word: &[u8], load: u128) -> Result<(), AllocError>
    ensures { OnOk result (text.new.items ≡ text.old.items ++ word.now ++ load_text load) }
{
    text.extend_from_slice(word)?;
    write_grains(load, LOAD_SCALE, text)
}

/// Writes the load of a link's other place, which is this one, where it has one.
#[tactic(auto, unfolding(crate::specs::Reports::back_text))]
fn push_back(text: &mut Vec<u8>, inst: &Instance, load: u128) -> Result<(), AllocError>
    ensures { OnOk result (text.new.items ≡ text.old.items ++ back_text inst.now load) }
{
    if inst.orient().is_two_way() {
        push_load(text, b" back ", load)
    } else {
        Ok(())
    }
}

/// Writes the loads of a link's places, and the capacity of the link.
fn push_traffic(text: &mut Vec<u8>, named: &NamedDesign, id: LinkId) -> Result<(), AllocError>
    requires { id.0 < length named.now.parts.links }
    ensures { OnOk result (text.new.items ≡ text.old.items ++ traffic_text named.now.parts named.now.design id.0) }
{
    let loads = named.link_loads(id);
    push_load(text, b" load ", loads.there)?;
    push_back(text, named.inst(), loads.back)?;
    push_load(text, b" capacity ", named.capacity(id))
}

/// Writes how often each module of a link is installed, and what the link costs.
fn push_installed(text: &mut Vec<u8>, named: &NamedDesign, id: LinkId) -> Result<(), AllocError>
    requires { id.0 < length named.now.parts.links }
    ensures { OnOk result (text.new.items ≡ text.old.items ++ installed_text named.now.parts named.now.design id.0) }
{
    text.extend_from_slice(b" modules")?;
    push_numbers(text, named.counts(id))?;
    text.extend_from_slice(b" cost ")?;
    write_grains(named.link_cost(id), COST_SCALE, text)
}

/// Writes the line of a link.
fn push_link(text: &mut Vec<u8>, named: &NamedDesign, id: LinkId) -> Result<(), AllocError>
    requires { id.0 < length named.now.parts.links }
    ensures { OnOk result (text.new.items ≡ text.old.items ++ link_line named.now.net named.now.parts named.now.design id.0) }
{
    text.extend_from_slice(b"LINK ")?;
    text.extend_from_slice(link_name(named.net(), id))?;
    push_traffic(text, named, id)?;
    push_installed(text, named, id)?;
    text.push(b'\n')?;
    Ok(())
}

/// Writes the lines of the links.
#[tactic(auto, using(crate::proofs::Counted::counted_more))]
fn push_links(text: &mut Vec<u8>, named: &NamedDesign) -> Result<(), AllocError>
    ensures { OnOk result (text.new.items ≡ text.old.items ++ link_report named.now.net named.now.parts named.now.design (length named.now.parts.links)) }
{
    for place in 0..named.inst().links() {
        push_link(text, named, LinkId(place))?;
    }
    Ok(())
}

/// Writes the names of the links of a path, each behind a blank.
///
/// - Errors: want of memory alone.
/// - Time: linear in the bytes that it writes.
#[tactic(auto, using(crate::proofs::Lists::lists))]
pub fn push_way(text: &mut Vec<u8>, net: &NetworkFile, arcs: &[ArcId]) -> Result<(), AllocError>
    ensures { OnOk result (text.new.items ≡ text.old.items ++ way_text net.now arcs.now) }
{
    for arc in arcs {
        text.push(b' ')?;
        text.extend_from_slice(link_name(net, arc.link()))?;
    }
    Ok(())
}

/// Writes the line of a demand.
fn push_demand(text: &mut Vec<u8>, named: &NamedDesign, id: DemandId) -> Result<(), AllocError>
    requires { id.0 < length named.now.parts.demands }
    ensures { OnOk result (text.new.items ≡ text.old.items ++ demand_line named.now.net named.now.design id.0) }
{
    text.extend_from_slice(b"DEMAND ")?;
    text.extend_from_slice(demand_name(named.net(), id))?;
    push_way(text, named.net(), named.path(id))?;
    text.push(b'\n')?;
    Ok(())
}

/// Writes the lines of the demands.
#[tactic(auto, using(crate::proofs::Counted::counted_more))]
fn push_demands(text: &mut Vec<u8>, named: &NamedDesign) -> Result<(), AllocError>
    ensures { OnOk result (text.new.items ≡ text.old.items ++ demand_report named.now.net named.now.design (length named.now.parts.demands)) }
{
    for place in 0..named.inst().demands() {
        push_demand(text, named, DemandId(place))?;
    }
    Ok(())
}

/// Writes the cost of a plan's design, its links and its demands, or that it has none.
fn push_design(text: &mut Vec<u8>, named: &NamedPlan) -> Result<(), AllocError>
    ensures { OnOk result (text.new.items ≡ text.old.items ++ design_text named.now.net named.now.parts named.now.plan.design) }
{
    match &named.plan().design {
        Some((cost, design)) => {
            let loads = loads_of(named.inst(), design);
            let named = NamedDesign::new(named, design, &loads);
            write_grains(*cost, COST_SCALE, text)?;
            text.push(b'\n')?;
            push_links(text, &named)?;
            push_demands(text, &named)
        }
        None => text.extend_from_slice(b"none\n"),
    }
}

/// Writes how many cuts there are, where there is one.
#[tactic(auto, unfolding(crate::specs::Reports::cuts_text))]
fn push_cuts(text: &mut Vec<u8>, count: usize) -> Result<(), AllocError>
    ensures { OnOk result (text.new.items ≡ text.old.items ++ cuts_text count) }
{
    if count > 0 {
        text.extend_from_slice(b"CUTS")?;
        push_number(text, count as u64)?;
        text.push(b'\n')?;
    }
    Ok(())
}

/// The text of a report on a valid plan: what it claims, how many cuts it has, where it has some, its cost, and, where it has a
/// design, for each link its load or its two loads, its capacity, how often each module is installed and what it costs, and
/// for each demand the links of its path.
///
/// - Errors: want of memory alone.
/// - Rule: docs/FORMATS.md, "The text of `report`".
/// - Time: linear in the text and in the arcs of all paths.
pub fn report_text(alloc: Global, named: &NamedPlan<'_>) -> Result<Vec<u8>, AllocError>
    ensures { IfOk result (λ text. text.items ≡ report_text named.now.net named.now.parts named.now.plan) }
{
    let plan = named.plan();
    let mut text = Vec::from_slice(alloc, b"STATUS ")?;
    text.extend_from_slice(status_word(plan.status))?;
    text.push(b'\n')?;
    push_cuts(&mut text, plan.cuts.len())?;
    text.extend_from_slice(b"COST ")?;
    push_design(&mut text, named)?;
    Ok(text)
}
