//! What a picture tells of the demand whose path is lit.

ghost use Rattle.std.specs.Prelude.{◌≡◌, ◌<◌, ◌++◌, length, OnOk};
ghost use Rattle.plan_report.specs.Reports.{demand_name};
ghost use Rattle.plan_picture.specs.Pictures.{path_words, link_words, limit_text, count_text, path_text, lit_text};

use crate::lit_plan::LitPlan;
use picture_marks::push_escaped;
use plan_base::DemandId;
use plan_report::{NamedPlan, demand_name, push_number};
use proof_tree::Plan;
use std::alloc::AllocError;

/// What stands before the name of the demand that is to be lit: whether the plan has a path of it.
fn path_words(plan: &Plan) -> &'static [u8]
    ensures { result.now ≡ path_words plan.now.design }
{
    match plan.design {
        None => b"no path of ",
        Some(_) => b"the path of ",
    }
}

/// What stands between the number of a path's links and the limit.
fn link_words(arcs: u64) -> &'static [u8]
    ensures { result.now ≡ link_words arcs }
{
    if arcs == 1 {
        b" link of at most"
    } else {
        b" links of at most"
    }
}

/// Writes how many links a path has and how many it may have, where there is a limit.
#[tactic(auto, unfolding(crate::specs::Pictures::limit_text))]
fn push_limit(text: &mut Vec<u8>, hops: Option<u64>, arcs: u64) -> Result<(), AllocError>
    ensures { OnOk result (text.new.items ≡ text.old.items ++ limit_text hops arcs) }
{
    let Some(limit) = hops else {
        return Ok(());
    };
    text.push(b':')?;
    push_number(text, arcs)?;
    text.extend_from_slice(link_words(arcs))?;
    push_number(text, limit)
}

/// Writes how many links the path of the demand has in the plan and how many it may have, where it has a limit.
#[tactic(auto, unfolding(crate::specs::Pictures::count_text))]
fn push_count(text: &mut Vec<u8>, named: &NamedPlan, demand: DemandId) -> Result<(), AllocError>
    requires { demand.0 < length named.now.parts.demands }
    ensures { OnOk result (text.new.items ≡ text.old.items ++ count_text named.now.parts named.now.plan.design demand.0) }
{
    match &named.plan().design {
        None => Ok(()),
        Some((_, design)) => {
            let arcs = design.paths.as_slice()[demand.0 as usize].as_slice();
            push_limit(text, named.inst().demand(demand).hops, arcs.len() as u64)
        }
    }
}

/// Writes whose path is lit and how long it may be, or that the plan has none.
fn push_path_name(text: &mut Vec<u8>, named: &NamedPlan, demand: DemandId) -> Result<(), AllocError>
    requires { demand.0 < length named.now.parts.demands }
    ensures { OnOk result (text.new.items
        ≡ text.old.items ++ path_text named.now.parts named.now.plan.design (demand_name named.now.net demand.0) demand.0) }
{
    text.extend_from_slice(b"<text class='legend' x='60' y='820'>")?;
    text.extend_from_slice(path_words(named.plan()))?;
    push_escaped(text, demand_name(named.net(), demand))?;
    push_count(text, named, demand)?;
    text.extend_from_slice(b"</text>\n")?;
    Ok(())
}

/// Writes what is told of the demand that is to be lit.
pub fn push_lit(text: &mut Vec<u8>, plan: &LitPlan) -> Result<(), AllocError>
    ensures { OnOk result (text.new.items ≡ text.old.items ++ lit_text plan.now.net plan.now.parts plan.now.plan.design plan.now.demand) }
{
    match plan.lit() {
        None => Ok(()),
        Some(demand) => push_path_name(text, plan.named(), demand),
    }
}
