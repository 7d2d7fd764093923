//! The table of demands.

ghost use Rattle.std.specs.Prelude.{◌≡◌, ◌<◌, ◌++◌, length, OnOk};
ghost use Rattle.plan_table.specs.Tables.{demand_head, size_fields, path_field, demand_row, demand_rows};

use crate::fields::{parted, push_digits, push_field};
use crate::links::push_ends;
use crate::rows::Rows;
use plan_base::DemandId;
use plan_report::{LOAD_SCALE, NamedDesign, demand_name, push_way};
use scaled_numbers::write_grains;
use std::alloc::AllocError;

/// Writes the name of a demand and those of its ends.
#[tactic(auto, unfolding(crate::specs::Tables::demand_head))]
fn push_head(text: &mut Vec<u8>, named: &NamedDesign, id: DemandId) -> Result<(), AllocError>
    requires { id.0 < length named.now.parts.demands }
    ensures { OnOk result (text.new.items ≡ text.old.items ++ demand_head named.now.net named.now.parts id.0) }
{
    let demand = named.inst().demand(id);
    text.extend_from_slice(b"demand")?;
    push_field(text, demand_name(named.net(), id))?;
    push_ends(text, named.net(), demand.source, demand.target)
}

/// Writes the load of a demand, and how many arcs its path has.
#[tactic(auto, unfolding(crate::specs::Tables::size_fields))]
fn push_size(text: &mut Vec<u8>, named: &NamedDesign, id: DemandId) -> Result<(), AllocError>
    requires { id.0 < length named.now.parts.demands }
    ensures { OnOk result (text.new.items ≡ text.old.items ++ size_fields named.now.parts named.now.design id.0) }
{
    text.push(b',')?;
    write_grains(named.inst().demand(id).load, LOAD_SCALE, text)?;
    text.push(b',')?;
    push_digits(text, named.path(id).len() as u64)
}

/// Writes the names of the links of a demand's path. The room for words is written over.
#[tactic(auto, unfolding(crate::specs::Tables::path_field))]
fn push_path(rows: &mut Rows, named: &NamedDesign, id: DemandId) -> Result<(), AllocError>
    requires { id.0 < length named.now.parts.demands }
    ensures { OnOk result (rows.new.text.items ≡ rows.old.text.items ++ path_field named.now.net named.now.design id.0) }
{
    rows.words.clear();
    push_way(&mut rows.words, named.net(), named.path(id))?;
    push_field(&mut rows.text, parted(rows.words.as_slice()))
}

/// Writes the line of a demand. The room for words is written over.
fn push_demand(rows: &mut Rows, named: &NamedDesign, id: DemandId) -> Result<(), AllocError>
    requires { id.0 < length named.now.parts.demands }
    ensures { OnOk result (rows.new.text.items ≡ rows.old.text.items ++ demand_row named.now.net named.now.parts named.now.design id.0) }
{
    push_head(&mut rows.text, named, id)?;
    push_size(&mut rows.text, named, id)?;
    push_path(rows, named, id)?;
    rows.text.push(b'\n')?;
    Ok(())
}

/// Writes the lines of the demands.
#[tactic(auto, using(plan_report::proofs::Counted::counted_more))]
pub fn push_demands(rows: &mut Rows, named: &NamedDesign) -> Result<(), AllocError>
    ensures { OnOk result (rows.new.text.items
        ≡ rows.old.text.items ++ demand_rows named.now.net named.now.parts named.now.design (length named.now.parts.demands)) }
{
    for place in 0..named.inst().demands() {
        push_demand(rows, named, DemandId(place))?;
    }
    Ok(())
}
