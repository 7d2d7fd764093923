//! The table of links.

ghost use Rattle.std.specs.Prelude.{◌≡◌, ◌<◌, ◌++◌, ◌∷◌, length, OnOk};
ghost use Rattle.plan_table.specs.Tables.{ends_fields, link_head, back_field, capacity_fields, traffic_fields, link_row, link_rows};

use crate::claims::push_used;
use crate::fields::{parted, push_field};
use crate::rows::Rows;
use plan_base::{Instance, LinkId, NodeId};
use plan_report::{COST_SCALE, LOAD_SCALE, NamedDesign, link_name, node_name, push_numbers};
use scaled_numbers::write_grains;
use snd_network::NetworkFile;
use std::alloc::AllocError;

/// Writes the names of two nodes, each behind a comma.
pub fn push_ends(
    text: &mut Vec<u8>,
    net: &NetworkFile,
    source: NodeId,
    target: NodeId,
) -> Result<(), AllocError>
    ensures { OnOk result (text.new.items ≡ text.old.items ++ ends_fields net.now source target) }
{
    push_field(text, node_name(net, source))?;
    push_field(text, node_name(net, target))
}

/// Writes the name of a link and those of its ends.
#[tactic(auto, unfolding(crate::specs::Tables::link_head))]
fn push_head(text: &mut Vec<u8>, named: &NamedDesign, id: LinkId) -> Result<(), AllocError>
    requires { id.0 < length named.now.parts.links }
    ensures { OnOk result (text.new.items ≡ text.old.items ++ link_head named.now.net named.now.parts id.0) }
{
    let link = named.inst().link(id);
    text.extend_from_slice(b"link")?;
    push_field(text, link_name(named.net(), id))?;
    push_ends(text, named.net(), link.source, link.target)
}

/// Writes the load of a link's other place, where it has one.
#[tactic(auto, unfolding(crate::specs::Tables::back_field))]
fn push_back(text: &mut Vec<u8>, inst: &Instance, load: u128) -> Result<(), AllocError>
    ensures { OnOk result (text.new.items ≡ text.old.items ++ back_field inst.now load) }
{
    if inst.orient().is_two_way() {
        write_grains(load, LOAD_SCALE, text)
    } else {
        Ok(())
    }
}

/// Writes what is installed on a link. The room for words is written over.
#[tactic(auto, unfolding(crate::specs::Tables::capacity_fields))]
fn push_capacity(rows: &mut Rows, named: &NamedDesign, id: LinkId) -> Result<(), AllocError>
    requires { id.0 < length named.now.parts.links }
    ensures { OnOk result (rows.new.text.items ≡ rows.old.text.items ++ capacity_fields named.now.parts named.now.design id.0) }
{
    let Rows { text, words } = rows;
    text.push(b',')?;
    write_grains(u128::from(named.inst().link(id).pre), LOAD_SCALE, text)?;
    words.clear();
    push_numbers(words, named.counts(id))?;
    text.push(b',')?;
    text.extend_from_slice(parted(words.as_slice()))?;
    text.push(b',')?;
    write_grains(named.capacity(id), LOAD_SCALE, text)
}

/// Writes the loads of a link's places, and how much of its capacity is used.
#[tactic(auto, using(crate::proofs::Stated::need_small), unfolding(crate::specs::Tables::traffic_fields))]
fn push_traffic(text: &mut Vec<u8>, named: &NamedDesign, id: LinkId) -> Result<(), AllocError>
    requires { id.0 < length named.now.parts.links }
    ensures { OnOk result (text.new.items ≡ text.old.items ++ traffic_fields named.now.parts named.now.design id.0) }
{
    let loads = named.link_loads(id);
    text.push(b',')?;
    write_grains(loads.there, LOAD_SCALE, text)?;
    text.push(b',')?;
    push_back(text, named.inst(), loads.back)?;
    text.push(b',')?;
    named.inst().lawful();
    push_used(text, loads.need(), named.capacity(id))
}

/// Writes the line of a link. The room for words is written over.
fn push_link(rows: &mut Rows, named: &NamedDesign, id: LinkId) -> Result<(), AllocError>
    requires { id.0 < length named.now.parts.links }
    ensures { OnOk result (rows.new.text.items ≡ rows.old.text.items ++ link_row named.now.net named.now.parts named.now.design id.0) }
{
    push_head(&mut rows.text, named, id)?;
    push_capacity(rows, named, id)?;
    push_traffic(&mut rows.text, named, id)?;
    rows.text.push(b',')?;
    write_grains(named.link_cost(id), COST_SCALE, &mut rows.text)?;
    rows.text.push(b'\n')?;
    Ok(())
}

/// Writes the lines of the links.
#[tactic(auto, using(plan_report::proofs::Counted::counted_more))]
pub fn push_links(rows: &mut Rows, named: &NamedDesign) -> Result<(), AllocError>
    ensures { OnOk result (rows.new.text.items
        ≡ rows.old.text.items ++ link_rows named.now.net named.now.parts named.now.design (length named.now.parts.links)) }
{
    for place in 0..named.inst().links() {
        push_link(rows, named, LinkId(place))?;
    }
    Ok(())
}
