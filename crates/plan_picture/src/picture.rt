//! The text of a picture.

ghost use Rattle.std.specs.Prelude.{◌≡◌, ◌<◌, ◌++◌, length, option_map, OnOk, IfOk, IfSome, None};
ghost use Rattle.plan_picture.specs.Pictures.{ends_at, is_end, node_mark, node_marks, link_mark, link_marks, link_label, link_labels, figures_at, link_figures, all_figures, encoding, head, group, claim_text, body_text, IsPicture};

use crate::drawing::Drawing;
use crate::lit::push_lit;
use crate::lit_plan::{LitPlan, loads_of_plan};
use crate::names::are_utf8;
use crate::sites::looks_of_plan;
use picture_layout::Spot;
use picture_marks::{push_figures, push_label, push_link, push_node};
use plan_base::{DemandId, Instance, LinkId, NodeId, Orient};
use plan_report::{NamedPlan, link_name, node_name, trial_line};
use std::alloc::{AllocError, Global};

/// What a picture has behind its encoding.
const STYLE: &[u8] =
    b"'?>\n<svg xmlns='http://www.w3.org/2000/svg' width='1200' height='900' viewBox='0 0 1200 900'>\n\
    <style>\n\
    text{font-family:sans-serif;fill:#222}\n\
    .place,.name,.figures{text-anchor:middle;paint-order:stroke;stroke:#fff;stroke-width:3px}\n\
    .place{font-size:13px;font-weight:bold}\n\
    .name{font-size:10px;fill:#555}\n\
    .figures{font-size:10px;font-weight:bold}\n\
    .legend{font-size:15px}\n\
    .node{fill:#fff;stroke:#222;stroke-width:2px}\n\
    .end{fill:#9ecae1}\n\
    .link,.key{fill:none}\n\
    .directed .link,.bidirected .link{marker-end:url(#arrow)}\n\
    .bidirected .link{marker-start:url(#arrow-back)}\n\
    .link,.key.old{stroke-dasharray:14 4}\n\
    .link.new{stroke-dasharray:none}\n\
    .link.unused,.key.unused{stroke:#999;stroke-dasharray:5 5}\n\
    .low{stroke:#2b9348}\n\
    .middle{stroke:#a3a000}\n\
    .high{stroke:#e6a100}\n\
    .brim{stroke:#e05d00}\n\
    .full{stroke:#a3002b}\n\
    .old{stroke:#555}\n\
    .dim{opacity:.2}\n\
    </style>\n\
    <defs><marker id='arrow' markerUnits='userSpaceOnUse' markerWidth='14' markerHeight='10' refX='20' refY='5' orient='auto'><path d='M0 0L14 5L0 10z' fill='#444'/></marker><marker id='arrow-back' markerUnits='userSpaceOnUse' markerWidth='14' markerHeight='10' refX='-6' refY='5' orient='auto'><path d='M14 0L0 5L14 10z' fill='#444'/></marker></defs>\n\
    <rect width='1200' height='900' fill='#fff'/>\n";

/// The colours, dashes and widths of links, the marks of nodes and the figures, with what they say, and the end.
const KEYS: &[u8] =
    b"<path class='key unused' stroke-width='1' d='M60 866H95'/><text class='legend' x='103' y='871'>no load</text>\n\
    <path class='key low' stroke-width='6' d='M190 866H225'/><text class='legend' x='233' y='871'>up to a half full</text>\n\
    <path class='key middle' stroke-width='6' d='M380 866H415'/><text class='legend' x='423' y='871'>up to four fifths</text>\n\
    <path class='key high' stroke-width='6' d='M570 866H605'/><text class='legend' x='613' y='871'>up to nine tenths</text>\n\
    <path class='key brim' stroke-width='6' d='M770 866H805'/><text class='legend' x='813' y='871'>less than full</text>\n\
    <path class='key full' stroke-width='6' d='M940 866H975'/><text class='legend' x='983' y='871'>full</text>\n\
    <path class='key old' stroke-width='6' d='M60 888H95'/><text class='legend' x='103' y='893'>nothing new is installed</text>\n\
    <path class='key old' style='stroke-dasharray:none' stroke-width='2' d='M310 888H345'/><path class='key old' style='stroke-dasharray:none' stroke-width='10' d='M350 888H385'/><text class='legend' x='393' y='893'>the wider, the more capacity</text>\n\
    <circle class='end node' r='7' cx='640' cy='888'/><text class='legend' x='655' y='893'>a demand ends here</text>\n\
    <text class='legend' x='830' y='893'>6/10: load and capacity, where there is room</text>\n\
    </g>\n</svg>\n";

/// The bytes of the first word of a trial's line and of the blank behind it.
const FIRST_WORD: usize = 6;

/// The encoding of a picture whose names are all in UTF-8, or not.
fn encoding(utf8: bool) -> &'static [u8]
    ensures { result.now ≡ encoding utf8 }
{
    if utf8 { b"UTF-8" } else { b"ISO-8859-1" }
}

/// Writes what a picture begins with.
fn push_head(text: &mut Vec<u8>, utf8: bool) -> Result<(), AllocError>
    ensures { OnOk result (text.new.items ≡ text.old.items ++ head utf8) }
{
    text.extend_from_slice(b"<?xml version='1.0' encoding='")?;
    text.extend_from_slice(encoding(utf8))?;
    text.extend_from_slice(STYLE)?;
    Ok(())
}

/// Begins the group that has all marks.
fn push_group(text: &mut Vec<u8>, orient: Orient) -> Result<(), AllocError>
    ensures { OnOk result (text.new.items ≡ text.old.items ++ group orient) }
{
    match orient {
        Orient::Directed => text.extend_from_slice(b"<g class='directed'>\n"),
        Orient::Undirected => text.extend_from_slice(b"<g class='undirected'>\n"),
        Orient::Bidirected => text.extend_from_slice(b"<g class='bidirected'>\n"),
    }
}

/// Whether a demand ends at the node.
#[tactic(auto, unfolding(crate::specs::Pictures::ends_at))]
fn ends_at(inst: &Instance, node: u32, demand: DemandId) -> bool
    requires { demand.0 < length inst.now.demands }
    ensures { result ≡ ends_at inst.now node demand.0 }
{
    let demand = inst.demand(demand);
    demand.source.0 == node || demand.target.0 == node
}

/// Whether any demand ends at the node.
#[tactic(auto, using(crate::proofs::NodeEnds::none_more))]
fn is_any_end(inst: &Instance, node: u32) -> bool
    ensures { result ≡ is_end inst.now None node }
{
    for place in 0..inst.demands() {
        if ends_at(inst, node, DemandId(place)) {
            return true;
        }
    }
    false
}

/// Whether the demand that is to be lit ends at the node, or where none is to be lit any demand does.
fn is_end(inst: &Instance, lit: Option<DemandId>, node: u32) -> bool
    requires { IfSome lit (λ k. k.0 < length inst.now.demands) }
    ensures { result ≡ is_end inst.now (option_map (λ k. k.0) lit) node }
{
    match lit {
        Some(demand) => ends_at(inst, node, demand),
        None => is_any_end(inst, node),
    }
}

/// Writes the mark of the node of this number.
#[tactic(auto, unfolding(crate::specs::Pictures::node_mark))]
fn push_node_at(text: &mut Vec<u8>, drawing: &Drawing, node: u32) -> Result<(), AllocError>
    requires { node < drawing.now.of.parts.nodes }
    ensures { OnOk result (text.new.items
        ≡ text.old.items ++ node_mark drawing.now.of.net drawing.now.of.parts drawing.now.of.demand drawing.now.looks node) }
{
    let plan = drawing.plan();
    let named = plan.named();
    let name = node_name(named.net(), NodeId(node));
    let look = drawing.looks().nodes.as_slice()[node as usize];
    push_node(text, name, is_end(named.inst(), plan.lit(), node), look)
}

/// Writes the marks of the nodes.
#[tactic(auto, using(plan_report::proofs::Counted::counted_more))]
fn push_nodes(text: &mut Vec<u8>, drawing: &Drawing) -> Result<(), AllocError>
    ensures { OnOk result (text.new.items
        ≡ text.old.items ++ node_marks drawing.now.of.net drawing.now.of.parts drawing.now.of.demand drawing.now.looks drawing.now.of.parts.nodes) }
{
    for node in 0..drawing.plan().named().inst().nodes() {
        push_node_at(text, drawing, node)?;
    }
    Ok(())
}

/// Writes the mark of the link of this number.
#[tactic(auto, unfolding(crate::specs::Pictures::link_mark))]
fn push_link_at(text: &mut Vec<u8>, drawing: &Drawing, id: LinkId) -> Result<(), AllocError>
    requires { id.0 < length drawing.now.of.parts.links }
    ensures { OnOk result (text.new.items
        ≡ text.old.items ++ link_mark drawing.now.of.net drawing.now.of.parts drawing.now.of.plan.design drawing.now.of.demand drawing.now.looks id.0) }
{
    let plan = drawing.plan();
    let named = plan.named();
    let name = link_name(named.net(), id);
    named.inst().lawful();
    push_link(
        text,
        name,
        named.inst(),
        drawing.looks(),
        plan.traffic(id),
        id,
    )
}

/// Writes the marks of the links.
#[tactic(auto, using(plan_report::proofs::Counted::counted_more))]
fn push_links(text: &mut Vec<u8>, drawing: &Drawing) -> Result<(), AllocError>
    ensures { OnOk result (text.new.items
        ≡ text.old.items ++ link_marks drawing.now.of.net drawing.now.of.parts drawing.now.of.plan.design drawing.now.of.demand drawing.now.looks
        (length drawing.now.of.parts.links)) }
{
    for place in 0..drawing.plan().named().inst().links() {
        push_link_at(text, drawing, LinkId(place))?;
    }
    Ok(())
}

/// Writes the name of the link of this number, at its place.
#[tactic(auto, unfolding(crate::specs::Pictures::link_label))]
fn push_link_label(text: &mut Vec<u8>, drawing: &Drawing, id: LinkId) -> Result<(), AllocError>
    requires { id.0 < length drawing.now.of.parts.links }
    ensures { OnOk result (text.new.items ≡ text.old.items ++ link_label drawing.now.of.net drawing.now.looks id.0) }
{
    let name = link_name(drawing.plan().named().net(), id);
    let look = &drawing.looks().links.as_slice()[id.0 as usize];
    push_label(text, b"name", look.label, name)
}

/// Writes the names of the links.
#[tactic(auto, using(plan_report::proofs::Counted::counted_more))]
fn push_link_labels(text: &mut Vec<u8>, drawing: &Drawing) -> Result<(), AllocError>
    ensures { OnOk result (text.new.items
        ≡ text.old.items ++ link_labels drawing.now.of.net drawing.now.looks (length drawing.now.of.parts.links)) }
{
    for place in 0..drawing.plan().named().inst().links() {
        push_link_label(text, drawing, LinkId(place))?;
    }
    Ok(())
}

/// Writes figures at their place, where there is one.
#[tactic(auto, unfolding(crate::specs::Pictures::figures_at))]
fn push_figures_at(text: &mut Vec<u8>, spot: Option<Spot>, figures: &[u8]) -> Result<(), AllocError>
    ensures { OnOk result (text.new.items ≡ text.old.items ++ figures_at spot figures.now) }
{
    match spot {
        Some(spot) => push_label(text, b"figures", spot, figures),
        None => Ok(()),
    }
}

/// Writes the figures of the link of this number, where it has a place for them. The room for them is written over.
#[tactic(auto, unfolding(crate::specs::Pictures::link_figures))]
fn push_link_figures(
    text: &mut Vec<u8>,
    room: &mut Vec<u8>,
    drawing: &Drawing,
    id: LinkId,
) -> Result<(), AllocError>
    requires { id.0 < length drawing.now.of.parts.links }
    ensures { OnOk result (text.new.items
        ≡ text.old.items ++ link_figures drawing.now.of.parts drawing.now.of.plan.design drawing.now.of.demand drawing.now.looks id.0) }
{
    room.clear();
    push_figures(room, drawing.plan().traffic(id))?;
    let spot = drawing.looks().links.as_slice()[id.0 as usize].figures;
    push_figures_at(text, spot, room.as_slice())
}

/// Writes the figures of the links.
#[tactic(auto, using(plan_report::proofs::Counted::counted_more))]
fn push_all_figures(alloc: Global, text: &mut Vec<u8>, drawing: &Drawing) -> Result<(), AllocError>
    ensures { OnOk result (text.new.items
        ≡ text.old.items ++ all_figures drawing.now.of.parts drawing.now.of.plan.design drawing.now.of.demand drawing.now.looks
        (length drawing.now.of.parts.links)) }
{
    let mut room = Vec::new(alloc);
    for place in 0..drawing.plan().named().inst().links() {
        push_link_figures(text, &mut room, drawing, LinkId(place))?;
    }
    Ok(())
}

/// Writes the claim of a plan: its line without its first word.
#[tactic(auto, using(crate::proofs::Claims::long_line))]
fn push_claim(alloc: Global, text: &mut Vec<u8>, named: &NamedPlan) -> Result<(), AllocError>
    ensures { OnOk result (text.new.items ≡ text.old.items ++ claim_text named.now.parts named.now.plan) }
{
    let line = trial_line(alloc, named.inst(), named.plan())?;
    let (_, claim) = line.as_slice().split_at(FIRST_WORD);
    text.extend_from_slice(b"<text class='legend' x='60' y='845'>")?;
    text.extend_from_slice(claim)?;
    text.extend_from_slice(b"</text>\n")?;
    Ok(())
}

/// Writes the marks of a picture and its end.
fn push_body(alloc: Global, text: &mut Vec<u8>, drawing: &Drawing) -> Result<(), AllocError>
    ensures { OnOk result (text.new.items
        ≡ text.old.items ++ body_text drawing.now.of.net drawing.now.of.parts drawing.now.of.plan drawing.now.of.demand drawing.now.looks) }
{
    let plan = drawing.plan();
    let named = plan.named();
    push_group(text, named.inst().orient())?;
    push_links(text, drawing)?;
    push_link_labels(text, drawing)?;
    push_all_figures(alloc, text, drawing)?;
    push_nodes(text, drawing)?;
    push_lit(text, plan)?;
    push_claim(alloc, text, named)?;
    text.extend_from_slice(KEYS)?;
    Ok(())
}

/// The picture of a valid plan as an SVG text: the nodes of the network with their names, its links by how full they
/// are, with their names, loads and capacities, and what the plan claims.
///
/// - Takes: the plan, and the demand whose path is lit, if one is.
/// - Errors: want of memory alone.
/// - Rule: docs/FORMATS.md, "Pictures".
/// - Time: linear in the text and in the arcs of all paths, and in the square of the links.
pub fn picture_text(
    alloc: Global,
    named: &NamedPlan<'_>,
    lit: Option<DemandId>,
) -> Result<Vec<u8>, AllocError>
    requires { IfSome lit (λ k. k.0 < length named.now.parts.demands) }
    ensures { IfOk result (λ text. IsPicture named.now.net named.now.parts named.now.plan (option_map (λ k. k.0) lit) text.items) }
{
    let mut text = Vec::new(alloc);
    let loads = loads_of_plan(named);
    let lit_plan = LitPlan::new(named, &loads, lit);
    let looks = looks_of_plan(alloc, &lit_plan)?;
    push_head(&mut text, are_utf8(named.net()))?;
    push_body(alloc, &mut text, &Drawing::new(&lit_plan, &looks))?;
    Ok(text)
}
