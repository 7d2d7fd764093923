//! The marks of nodes and links.

ghost use Rattle.std.specs.Prelude.{◌≡◌, ◌<◌, ◌++◌, length, decimal, if◌then◌else◌, option_map, OnOk, IfSome, Some, None};
ghost use Rattle.plan_base.specs.Facts.{IsInstance};
ghost use Rattle.plan_base.specs.Places.{is_two_way, there_of, back_of};
ghost use Rattle.plan_base.specs.Designs.{load_at, IsGoodDesign};
ghost use Rattle.picture_layout.specs.Places.{HasLooks};
ghost use Rattle.picture_marks.specs.Marks.{spot_text, label_text, end_word, circle_text, node_text, shade, light_word, light_on, traffic_on, new_word, classes, back_text, title, figures, stroke_text, curve_text, hover_text, link_text};

use crate::escapes::push_escaped;
use itoa::Buffer;
use picture_layout::{Looks, NodeLook, Spot};
use plan_base::{DemandId, Design, Instance, LinkId, LinkLoads, capacity_with};
use scaled_numbers::write_grains;
use std::alloc::AllocError;

/// Decimals behind the point of a load, in units.
pub const LOAD_SCALE: u32 = 6;

/// Writes a number.
fn push_plain(text: &mut Vec<u8>, number: u32) -> Result<(), AllocError>
    ensures { OnOk result (text.new.items ≡ text.old.items ++ decimal number) }
{
    text.extend_from_slice(Buffer::new().format(number).as_bytes())
}

/// Writes the two numbers of a place, each behind a blank.
#[tactic(auto, unfolding(crate::specs::Marks::spot_text))]
fn push_spot(text: &mut Vec<u8>, spot: Spot) -> Result<(), AllocError>
    ensures { OnOk result (text.new.items ≡ text.old.items ++ spot_text spot) }
{
    text.push(b' ')?;
    push_plain(text, spot.x)?;
    text.push(b' ')?;
    push_plain(text, spot.y)
}

/// Writes a name at a place, in this class.
///
/// - Takes: the bytes of the class, which are written as they are; the name, which is escaped.
/// - Errors: want of memory alone.
/// - Rule: docs/DEFINITIONS.md, "Pictures".
#[tactic(auto, unfolding(crate::specs::Marks::label_text))]
pub fn push_label(
    text: &mut Vec<u8>,
    class: &[u8],
    spot: Spot,
    name: &[u8],
) -> Result<(), AllocError>
    ensures { OnOk result (text.new.items ≡ text.old.items ++ label_text class.now spot name.now) }
{
    text.extend_from_slice(b"<text class='")?;
    text.extend_from_slice(class)?;
    text.extend_from_slice(b"' dy='.35em' transform='translate(")?;
    push_spot(text, spot)?;
    text.extend_from_slice(b")'>")?;
    push_escaped(text, name)?;
    text.extend_from_slice(b"</text>\n")
}

/// The class of a node that is an end of a demand or not, behind a blank.
fn end_word(is_end: bool) -> &'static [u8]
    ensures { result.now ≡ end_word is_end }
{
    if is_end { b" end" } else { b"" }
}

/// Writes the circle of a node of this name, which is an end of a demand or not.
fn push_circle(text: &mut Vec<u8>, name: &[u8], is_end: bool, at: Spot) -> Result<(), AllocError>
    ensures { OnOk result (text.new.items ≡ text.old.items ++ circle_text name.now is_end at) }
{
    text.extend_from_slice(b"<circle class='node")?;
    text.extend_from_slice(end_word(is_end))?;
    text.extend_from_slice(b"' r='7' transform='translate(")?;
    push_spot(text, at)?;
    text.extend_from_slice(b")'><title>")?;
    push_escaped(text, name)?;
    text.extend_from_slice(b"</title></circle>\n")?;
    Ok(())
}

/// Writes the mark of a node of this name, and its name.
///
/// - Takes: whether the node is an end of a demand.
/// - Errors: want of memory alone.
/// - Rule: docs/DEFINITIONS.md, "Pictures".
pub fn push_node(
    text: &mut Vec<u8>,
    name: &[u8],
    is_end: bool,
    look: NodeLook,
) -> Result<(), AllocError>
    ensures { OnOk result (text.new.items ≡ text.old.items ++ node_text name.now is_end look) }
{
    push_circle(text, name, is_end, look.at)?;
    push_label(text, b"place", look.label, name)
}

/// How full a link is that needs so much of this capacity, both in load grains.
fn shade(needed: u128, capacity: u128) -> &'static [u8]
    ensures { result.now ≡ shade needed capacity }
{
    if needed == 0 {
        b"unused"
    } else if needed <= capacity / 2 {
        b"low"
    } else if needed >= capacity {
        b"full"
    } else if needed <= capacity - capacity / 5 {
        b"middle"
    } else if needed <= capacity - capacity / 10 {
        b"high"
    } else {
        b"brim"
    }
}

/// How a link is lit.
#[derive(Clone, Copy, Debug, PartialEq, Eq)]
pub enum Light {
    /// No demand is lit.
    Plain,
    /// It lies on the path of the demand that is lit.
    Lit,
    /// It lies elsewhere.
    Dim,
}

impl Light {
    /// The class that goes with it, behind a blank.
    fn word(self) -> &'static [u8]
        ensures { result.now ≡ light_word self }
    {
        match self {
            Light::Plain => b"",
            Light::Lit => b" lit",
            Light::Dim => b" dim",
        }
    }
}

/// The light on a link where the path of this demand is lit, if one is.
fn light_on(design: &Design, lit: Option<DemandId>, id: LinkId) -> Light
    requires { IfSome lit (λ k. k.0 < length design.now.paths) }
    ensures { result ≡ light_on design.now (option_map (λ k. k.0) lit) id.0 }
{
    match lit {
        None => Light::Plain,
        Some(demand) => {
            if design.paths.as_slice()[demand.0 as usize].uses(id) {
                Light::Lit
            } else {
                Light::Dim
            }
        }
    }
}

/// What a link carries and what can be carried on it, in load grains, and the light on it.
#[derive(Clone, Copy, Debug, PartialEq, Eq)]
pub struct Traffic {
    /// The load of its place.
    pub load: u128,
    /// The load of its other place, where it has one.
    pub back: Option<u128>,
    /// The capacity that it needs.
    pub need: u128,
    /// The capacity that it has.
    pub capacity: u128,
    /// How much of that is installed anew.
    pub new: u128,
    pub light: Light,
}

/// The load of a link's other place, where it has one, of these loads of its places.
fn back_load(inst: &Instance, loads: LinkLoads) -> Option<u128>
    ensures { result ≡ if is_two_way inst.now.orient then Some loads.back else None }
{
    if inst.orient().is_two_way() {
        Some(loads.back)
    } else {
        None
    }
}

/// The traffic on a link with these loads of its places.
///
/// - Takes: an instance, a good design of it, the demand whose path is lit, if one is, and a link with the loads of
///   its places.
/// - Rule: docs/DEFINITIONS.md, "Pictures".
pub fn traffic_on(
    inst: &Instance,
    design: &Design,
    lit: Option<DemandId>,
    id: LinkId,
    loads: LinkLoads,
) -> Traffic
    requires link { id.0 < length inst.now.links }
    requires good { IsGoodDesign inst.now design.now }
    requires there { loads.there ≡ there_of inst.now (load_at inst.now design.now) id.0 }
    requires back { loads.back ≡ back_of inst.now (load_at inst.now design.now) id.0 }
    requires lit { IfSome lit (λ k. k.0 < length inst.now.demands) }
    ensures { result ≡ traffic_on inst.now design.now (option_map (λ k. k.0) lit) id.0 }
{
    let link = inst.link(id);
    let capacity = capacity_with(link, design.counts.as_slice()[id.0 as usize].as_slice());
    Traffic {
        load: loads.there,
        back: back_load(inst, loads),
        need: loads.need(),
        capacity,
        new: capacity - u128::from(link.pre),
        light: light_on(design, lit, id),
    }
}

/// The class of a link on which so much is installed anew, behind a blank.
fn new_word(new: u128) -> &'static [u8]
    ensures { result.now ≡ new_word new }
{
    if new == 0 { b"" } else { b" new" }
}

/// Writes the classes of a link.
#[tactic(auto, unfolding(crate::specs::Marks::classes))]
fn push_classes(text: &mut Vec<u8>, traffic: Option<Traffic>) -> Result<(), AllocError>
    ensures { OnOk result (text.new.items ≡ text.old.items ++ classes traffic) }
{
    match traffic {
        Some(traffic) => {
            text.extend_from_slice(shade(traffic.need, traffic.capacity))?;
            text.extend_from_slice(new_word(traffic.new))?;
            text.extend_from_slice(traffic.light.word())
        }
        None => text.extend_from_slice(b"unused"),
    }
}

/// Writes a word and the load of a link's other place, where it has one.
#[tactic(auto, unfolding(crate::specs::Marks::back_text))]
fn push_back(text: &mut Vec<u8>, word: &[u8], back: Option<u128>) -> Result<(), AllocError>
    ensures { OnOk result (text.new.items ≡ text.old.items ++ back_text word.now back) }
{
    let Some(load) = back else {
        return Ok(());
    };
    text.extend_from_slice(word)?;
    write_grains(load, LOAD_SCALE, text)
}

/// Writes what is told of a link of this name.
#[tactic(auto, unfolding(crate::specs::Marks::title))]
fn push_title(text: &mut Vec<u8>, name: &[u8], traffic: Option<Traffic>) -> Result<(), AllocError>
    ensures { OnOk result (text.new.items ≡ text.old.items ++ title name.now traffic) }
{
    push_escaped(text, name)?;
    match traffic {
        Some(traffic) => {
            text.extend_from_slice(b" load ")?;
            write_grains(traffic.load, LOAD_SCALE, text)?;
            push_back(text, b" back ", traffic.back)?;
            text.extend_from_slice(b" capacity ")?;
            write_grains(traffic.capacity, LOAD_SCALE, text)?;
            text.extend_from_slice(b" new ")?;
            write_grains(traffic.new, LOAD_SCALE, text)
        }
        None => Ok(()),
    }
}

/// Writes the figures of a link: its load or its two loads, and its capacity, in units.
///
/// - Takes: the traffic on the link, none where the plan has no design.
/// - Errors: want of memory alone.
/// - Rule: docs/DEFINITIONS.md, "Pictures".
#[tactic(auto, unfolding(crate::specs::Marks::figures))]
pub fn push_figures(text: &mut Vec<u8>, traffic: Option<Traffic>) -> Result<(), AllocError>
    ensures { OnOk result (text.new.items ≡ text.old.items ++ figures traffic) }
{
    match traffic {
        Some(traffic) => {
            write_grains(traffic.load, LOAD_SCALE, text)?;
            push_back(text, b"+", traffic.back)?;
            text.push(b'/')?;
            write_grains(traffic.capacity, LOAD_SCALE, text)
        }
        None => Ok(()),
    }
}

/// Writes the line of a link between the marks of its ends.
#[tactic(auto, unfolding(crate::specs::Marks::curve_text))]
fn push_curve(text: &mut Vec<u8>, from: Spot, bend: Spot, to: Spot) -> Result<(), AllocError>
    ensures { OnOk result (text.new.items ≡ text.old.items ++ curve_text from bend to) }
{
    push_spot(text, from)?;
    text.extend_from_slice(b" Q")?;
    push_spot(text, bend)?;
    push_spot(text, to)
}

/// Writes how a link of this width is drawn.
#[tactic(auto, unfolding(crate::specs::Marks::stroke_text))]
fn push_stroke(text: &mut Vec<u8>, traffic: Option<Traffic>, width: u32) -> Result<(), AllocError>
    ensures { OnOk result (text.new.items ≡ text.old.items ++ stroke_text traffic width) }
{
    text.extend_from_slice(b"<path class='link ")?;
    push_classes(text, traffic)?;
    text.extend_from_slice(b"' stroke-width='")?;
    push_plain(text, width)
}

/// Writes what is told of a link of this name, and the end of its mark.
fn push_hover(text: &mut Vec<u8>, name: &[u8], traffic: Option<Traffic>) -> Result<(), AllocError>
    ensures { OnOk result (text.new.items ≡ text.old.items ++ hover_text name.now traffic) }
{
    text.extend_from_slice(b"'><title>")?;
    push_title(text, name, traffic)?;
    text.extend_from_slice(b"</title></path>\n")?;
    Ok(())
}

/// Writes the mark of the link of this number, with this name.
///
/// - Takes: an instance with a look for each node and each link; the traffic on the link, none where the plan has no
///   design.
/// - Errors: want of memory alone.
/// - Rule: docs/DEFINITIONS.md, "Pictures".
pub fn push_link(
    text: &mut Vec<u8>,
    name: &[u8],
    inst: &Instance,
    looks: &Looks,
    traffic: Option<Traffic>,
    id: LinkId,
) -> Result<(), AllocError>
    requires lawful { IsInstance inst.now }
    requires link { id.0 < length inst.now.links }
    requires looks { HasLooks looks.now inst.now.nodes (length inst.now.links) }
    ensures { OnOk result (text.new.items ≡ text.old.items ++ link_text name.now inst.now looks.now traffic id.0) }
{
    let link = inst.link(id);
    let nodes = looks.nodes.as_slice();
    let from = nodes[link.source.0 as usize].at;
    let to = nodes[link.target.0 as usize].at;
    let look = &looks.links.as_slice()[id.0 as usize];
    push_stroke(text, traffic, look.width)?;
    text.extend_from_slice(b"' d='M")?;
    push_curve(text, from, look.bend, to)?;
    push_hover(text, name, traffic)
}
