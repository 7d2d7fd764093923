//! The text of a plan's tables.

ghost use Rattle.std.specs.Prelude.{◌≡◌, ◌++◌, OnOk, IfOk};
ghost use Rattle.plan_table.specs.Tables.{link_names, demand_names, evidence_names, range_names, titled, design_tables, evidence_table, range_table, IsTableText};

use crate::claims::push_plan;
use crate::demands::push_demands;
use crate::evidence::push_records;
use crate::links::push_links;
use crate::ranges::push_ranges;
use crate::rows::Rows;
use link_steps::cost_unit;
use plan_base::loads_of;
use plan_report::{NamedDesign, NamedPlan};
use proof_tree::PlanStatus;
use std::alloc::{AllocError, Global};

/// The names of the fields of links.
#[tactic(auto, unfolding(crate::specs::Tables::link_names))]
fn link_names() -> &'static [u8]
    ensures { result.now ≡ link_names }
{
    b"kind,name,source,target,installed,modules,capacity,load,load_back,used_percent,cost\n"
}

/// The names of the fields of demands.
#[tactic(auto, unfolding(crate::specs::Tables::demand_names))]
fn demand_names() -> &'static [u8]
    ensures { result.now ≡ demand_names }
{
    b"kind,name,source,target,load,arcs,path\n"
}

/// The names of the fields of evidence.
#[tactic(auto, unfolding(crate::specs::Tables::evidence_names))]
fn evidence_names() -> &'static [u8]
    ensures { result.now ≡ evidence_names }
{
    b"kind,record,evidence,demand,nodes,links\n"
}

/// Writes the tables of a plan's design, where it has one.
fn push_design(rows: &mut Rows, named: &NamedPlan) -> Result<(), AllocError>
    ensures { OnOk result (rows.new.text.items ≡ rows.old.text.items ++ design_tables named.now.net named.now.parts named.now.plan.design) }
{
    match &named.plan().design {
        Some((_, design)) => {
            let loads = loads_of(named.inst(), design);
            let named = NamedDesign::new(named, design, &loads);
            rows.text.extend_from_slice(link_names())?;
            push_links(rows, &named)?;
            rows.text.extend_from_slice(demand_names())?;
            push_demands(rows, &named)
        }
        None => Ok(()),
    }
}

/// Writes the table of the evidence of a plan that says that there is no design.
fn push_evidence(rows: &mut Rows, named: &NamedPlan) -> Result<(), AllocError>
    ensures { OnOk result (rows.new.text.items
        ≡ rows.old.text.items ++ evidence_table named.now.net named.now.parts named.now.plan.status named.now.plan.tree) }
{
    match named.plan().status {
        PlanStatus::Infeasible => {
            rows.text.extend_from_slice(evidence_names())?;
            push_records(rows, named)
        }
        PlanStatus::Optimal | PlanStatus::Undecided => Ok(()),
    }
}

/// The names of the fields of ranges.
#[tactic(auto, unfolding(crate::specs::Tables::range_names))]
fn range_names() -> &'static [u8]
    ensures { result.now ≡ range_names }
{
    b"kind,record,link,source,target,least,most\n"
}

/// Writes lines behind the names of their fields, where there are lines.
fn push_titled(text: &mut Vec<u8>, names: &[u8], lines: &[u8]) -> Result<(), AllocError>
    ensures { OnOk result (text.new.items ≡ text.old.items ++ titled names.now lines.now) }
{
    if lines.is_empty() {
        return Ok(());
    }
    text.extend_from_slice(names)?;
    text.extend_from_slice(lines)
}

/// Writes the table of the ranges of the leaves of a plan that says that there is no design.
fn push_range_table(alloc: Global, rows: &mut Rows, named: &NamedPlan) -> Result<(), AllocError>
    ensures { OnOk result (rows.new.text.items
        ≡ rows.old.text.items ++ range_table named.now.net named.now.parts named.now.plan.status named.now.plan.tree) }
{
    match named.plan().status {
        PlanStatus::Infeasible => {
            rows.words.clear();
            push_ranges(alloc, &mut rows.words, named)?;
            push_titled(&mut rows.text, range_names(), rows.words.as_slice())
        }
        PlanStatus::Optimal | PlanStatus::Undecided => Ok(()),
    }
}

/// The tables of a valid plan, as comma-separated values: what it claims; where it has a design, each link with what is
/// installed, its loads, how much of its capacity is used and what it costs, and each demand with its path; and where it
/// says that there is none, what each leaf of its tree names, and each place whose range of loads is cut there.
///
/// - Errors: want of memory alone.
/// - Rule: docs/FORMATS.md, "Tables".
/// - Time: linear in the text, in the arcs of all paths, and for each leaf in the nodes and links; where no design
///   exists, for each record in the places.
pub fn table_text(alloc: Global, named: &NamedPlan<'_>) -> Result<Vec<u8>, AllocError>
    ensures { IfOk result (λ text. IsTableText named.now.net named.now.parts named.now.plan text.items) }
{
    let mut rows = Rows::new(alloc);
    push_plan(&mut rows.text, named, cost_unit(named.inst()))?;
    push_design(&mut rows, named)?;
    push_evidence(&mut rows, named)?;
    push_range_table(alloc, &mut rows, named)?;
    Ok(rows.text)
}
