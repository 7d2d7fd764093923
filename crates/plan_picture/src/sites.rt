//! What is to be placed of a plan, and where it stands.

ghost use Rattle.std.specs.Prelude.{◌≡◌, length, IfOk};
ghost use Rattle.picture_layout.specs.Places.{HasLooks};

use crate::coordinates::coordinates_of;
use crate::lit_plan::LitPlan;
use picture_layout::{Looks, Site, Span, UNUSED_WIDTH, looks_of};
use picture_marks::{Traffic, push_figures};
use plan_base::LinkId;
use snd_network::NetworkFile;
use std::alloc::{AllocError, Global};

/// What is drawn of the traffic on a link.
#[derive(Clone, Copy)]
struct Drawn {
    /// The capacity of a link that has a load, and 0 of each other, in load grains.
    capacity: u128,
    /// How many bytes the figures have; 0 where none are shown.
    figures: usize,
}

/// What is drawn of a link without a capacity.
const NOTHING: Drawn = Drawn {
    capacity: 0,
    figures: 0,
};

/// What is drawn of a link with this traffic. The room for figures is written over.
fn drawn_of(room: &mut Vec<u8>, traffic: Option<Traffic>) -> Result<Drawn, AllocError> {
    room.clear();
    match traffic {
        Some(on) if on.capacity > 0 => {
            push_figures(room, traffic)?;
            Ok(Drawn {
                capacity: if on.need > 0 { on.capacity } else { 0 },
                figures: room.len(),
            })
        }
        _ => Ok(NOTHING),
    }
}

/// What is drawn of each link.
fn all_drawn(alloc: Global, plan: &LitPlan) -> Result<Vec<Drawn>, AllocError> {
    let mut room = Vec::new(alloc);
    let mut all = Vec::new(alloc);
    for place in 0..plan.named().inst().links() {
        all.push(drawn_of(&mut room, plan.traffic(LinkId(place)))?)?;
    }
    Ok(all)
}

/// How wide a link of this capacity is drawn, in picture units, where this one is the greatest: from 2 to 10, and 1
/// without a load.
fn width_of(capacity: u128, greatest: u128) -> u32 {
    if capacity == 0 {
        return UNUSED_WIDTH;
    }
    let eighths = (capacity / (greatest / 8).max(1)).min(8);
    2 + eighths as u32
}

/// The greatest capacity that is drawn.
fn greatest_of(all: &[Drawn]) -> u128 {
    let mut greatest: u128 = 0;
    for drawn in all {
        greatest = greatest.max(drawn.capacity);
    }
    greatest
}

/// The nodes that are to be placed.
fn sites_of(alloc: Global, net: &NetworkFile) -> Result<Vec<Site>, AllocError>
    ensures { IfOk result (λ sites. length sites.items ≡ length net.now.nodes) }
{
    let mut sites = Vec::new(alloc);
    for node in net.nodes.as_slice() {
        sites.push(Site {
            name: node.name.as_slice().len(),
            at: coordinates_of(node),
        })?;
    }
    Ok(sites)
}

/// The links that are to be placed, of which this is drawn.
fn spans_of(alloc: Global, net: &NetworkFile, all: &[Drawn]) -> Result<Vec<Span>, AllocError>
    ensures { IfOk result (λ spans. length spans.items ≡ length net.now.links) }
{
    let greatest = greatest_of(all);
    let mut spans = Vec::new(alloc);
    for (place, link) in net.links.as_slice().iter().enumerate() {
        let drawn = all.get(place).copied().unwrap_or(NOTHING);
        spans.push(Span {
            name: link.name.as_slice().len(),
            figures: drawn.figures,
            source: link.source.0 as usize,
            target: link.target.0 as usize,
            width: width_of(drawn.capacity, greatest),
        })?;
    }
    Ok(spans)
}

/// Where the marks of a plan stand.
pub fn looks_of_plan(alloc: Global, plan: &LitPlan) -> Result<Looks, AllocError>
    ensures { IfOk result (λ looks. HasLooks looks plan.now.parts.nodes (length plan.now.parts.links)) }
{
    let named = plan.named();
    let drawn = all_drawn(alloc, plan)?;
    let sites = sites_of(alloc, named.net())?;
    let spans = spans_of(alloc, named.net(), drawn.as_slice())?;
    looks_of(
        alloc,
        sites.as_slice(),
        spans.as_slice(),
        named.inst().orient(),
    )
}
