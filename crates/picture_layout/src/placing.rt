//! Where names stand, and how links bend.

ghost use Rattle.std.specs.Prelude.{◌≡◌, length, IfOk};
ghost use Rattle.picture_layout.specs.Places.{HasLooks};

use crate::canvas::{Canvas, Patch};
use crate::looks::{HEIGHT, LinkLook, Looks, NodeLook, Site, Span, Spot, WIDTH};
use crate::ring::node_spots;
use plan_base::{Items, Orient};
use std::alloc::{AllocError, Global};

/// Half the height of a name, in picture units.
const HALF_NAME: u32 = 8;

/// How much a name or a node covers, against 1 for a link.
const SOLID: u32 = 40;

/// How many pieces a bent link is drawn in where names are to keep clear of it.
const PIECES: u32 = 60;

/// The weights of a point's three corners together: the square of the pieces.
const WEIGHTS: u64 = 3600;

/// A place so far away from this one, within the picture.
fn moved(spot: Spot, x: i64, y: i64) -> Spot {
    Spot {
        x: u32::try_from(i64::from(spot.x).saturating_add(x))
            .unwrap_or(0)
            .min(WIDTH),
        y: u32::try_from(i64::from(spot.y).saturating_add(y))
            .unwrap_or(0)
            .min(HEIGHT),
    }
}

/// The patch of a name of so many bytes about this place, where a letter takes half of this width on each side.
fn name_patch(middle: Spot, bytes: usize, half_letter: u32) -> Patch {
    let letters = u32::try_from(bytes).unwrap_or(64).min(64);
    Patch {
        middle,
        half_width: letters.saturating_mul(half_letter.min(10)).min(640) + 3,
        half_height: HALF_NAME,
    }
}

/// A coordinate of a bent link so many parts of sixty behind its source.
fn coordinate_on(source: u32, bend: u32, target: u32, part: u32) -> u32 {
    let part = u64::from(part.min(PIECES));
    let rest = u64::from(PIECES) - part;
    let near = u64::from(source.min(2000))
        .saturating_mul(rest)
        .saturating_mul(rest);
    let middle = u64::from(bend.min(2000))
        .saturating_mul(rest)
        .saturating_mul(2 * part);
    let far = u64::from(target.min(2000))
        .saturating_mul(part)
        .saturating_mul(part);
    let sum = near.saturating_add(middle).saturating_add(far);
    u32::try_from(sum / WEIGHTS).unwrap_or(0)
}

/// The point of a bent link so many parts of sixty behind its source.
fn point_on(source: Spot, bend: Spot, target: Spot, part: u32) -> Spot {
    Spot {
        x: coordinate_on(source.x, bend.x, target.x, part),
        y: coordinate_on(source.y, bend.y, target.y, part),
    }
}

/// How far a link of this length bends to its right at its middle, in picture units, where so many links before it have
/// its ends. A long directed link bends further, so that its arrow stands apart from that of a link back.
fn bend_of(orient: Orient, before: u32, length: i64) -> i64 {
    let before = i64::from(before.min(20));
    match orient {
        Orient::Directed => length.max(130).min(500) / 5 + 36 * before,
        Orient::Undirected | Orient::Bidirected if before % 2 == 0 => 0 - 22 * before,
        Orient::Undirected | Orient::Bidirected => 22 * (before + 1),
    }
}

/// About how long the straight line between two places is, at least 1.
fn length_of(one: Spot, other: Spot) -> i64 {
    let across = i64::from(one.x.abs_diff(other.x));
    let down = i64::from(one.y.abs_diff(other.y));
    let long = across.max(down);
    long.saturating_add(across.min(down) / 2).max(1)
}

/// The middle between two numbers.
fn middle_of(one: u32, other: u32) -> u32 {
    one.min(other) + one.abs_diff(other) / 2
}

/// How far a bend goes that is this share of a length.
fn share_of(distance: i64, bend: i64, length: i64) -> i64 {
    distance
        .saturating_mul(bend)
        .checked_div(length)
        .unwrap_or(0)
}

/// The place that a link bends towards.
fn bend_spot(source: Spot, target: Spot, bend: i64) -> Spot {
    let across = i64::from(target.x) - i64::from(source.x);
    let down = i64::from(target.y) - i64::from(source.y);
    let length = length_of(source, target);
    let middle = Spot {
        x: middle_of(source.x, target.x),
        y: middle_of(source.y, target.y),
    };
    let right = share_of(down, bend, length);
    moved(
        middle,
        0i64.saturating_sub(right),
        share_of(across, bend, length),
    )
}

/// Whether two links have the same ends, in either order unless links are directed.
fn are_twins(one: &Span, other: &Span, orient: Orient) -> bool {
    let same = other.source == one.source && other.target == one.target;
    let turned = other.source == one.target && other.target == one.source;
    same || turned && orient.goes_back()
}

/// How many of these links have the ends of this one, in either order unless links are directed.
fn twins_among(links: &[Span], link: &Span, orient: Orient) -> u32 {
    let mut twins: u32 = 0;
    for other in links {
        if are_twins(link, other, orient) {
            twins = twins.saturating_add(1);
        }
    }
    twins
}

/// The place of this number.
fn spot_at(spots: &[Spot], number: usize) -> Spot {
    match spots.get(number) {
        Some(spot) => *spot,
        None => Spot { x: 0, y: 0 },
    }
}

/// The places of a link's ends.
fn ends_of(link: &Span, spots: &[Spot]) -> (Spot, Spot) {
    (spot_at(spots, link.source), spot_at(spots, link.target))
}

/// How each link bends.
fn bends_of(
    alloc: Global,
    links: &[Span],
    spots: &[Spot],
    orient: Orient,
) -> Result<Vec<Spot>, AllocError> {
    let mut bends = Vec::new(alloc);
    for (place, link) in links.iter().enumerate() {
        let twins = twins_among(&links[..place], link, orient);
        let (source, target) = ends_of(link, spots);
        let bend = bend_of(orient, twins, length_of(source, target));
        bends.push(bend_spot(source, target, bend))?;
    }
    Ok(bends)
}

/// Covers the canvas where a link runs.
fn cover_link(canvas: &mut Canvas, source: Spot, bend: Spot, target: Spot) {
    for part in 0..PIECES {
        let patch = Patch {
            middle: point_on(source, bend, target, part),
            half_width: 3,
            half_height: 3,
        };
        canvas.cover(patch, 1);
    }
}

/// Covers the canvas where links run.
fn cover_links(canvas: &mut Canvas, links: &[Span], spots: &[Spot], bends: &[Spot]) {
    for (place, link) in links.iter().enumerate() {
        let (source, target) = ends_of(link, spots);
        cover_link(canvas, source, spot_at(bends, place), target);
    }
}

/// Covers the canvas where nodes stand.
fn cover_nodes(canvas: &mut Canvas, spots: &[Spot]) {
    for spot in spots {
        let patch = Patch {
            middle: *spot,
            half_width: 9,
            half_height: 9,
        };
        canvas.cover(patch, SOLID);
    }
}

/// The place of the first of the candidates whose words cover least, and how much that is.
fn least_spot(canvas: &Canvas, candidates: &[Spot], bytes: usize, half_letter: u32) -> (Spot, u32) {
    let mut best = spot_at(candidates, 0);
    let mut least = u32::MAX;
    for spot in candidates {
        let cover = canvas.cover_of(name_patch(*spot, bytes, half_letter));
        if cover < least {
            least = cover;
            best = *spot;
        }
    }
    (best, least)
}

/// The place of the first of the candidates whose name covers least, and covers the canvas there.
fn best_spot(canvas: &mut Canvas, candidates: &[Spot], bytes: usize, half_letter: u32) -> Spot {
    let (best, _) = least_spot(canvas, candidates, bytes, half_letter);
    canvas.cover(name_patch(best, bytes, half_letter), SOLID);
    best
}

/// The place of the first of the candidates whose words cover least, and covers the canvas there; None where they would
/// cover a node or other words.
fn free_spot(canvas: &mut Canvas, candidates: &[Spot], bytes: usize) -> Option<Spot> {
    let (best, least) = least_spot(canvas, candidates, bytes, 3);
    if bytes == 0 || least >= SOLID {
        return None;
    }
    canvas.cover(name_patch(best, bytes, 3), SOLID);
    Some(best)
}

/// The places about a node where its name may stand.
fn about_node(at: Spot, bytes: usize) -> [Spot; 8] {
    let beside = i64::from(name_patch(at, bytes, 4).half_width) + 14;
    let slant = beside - 4;
    [
        moved(at, beside, 0),
        moved(at, 0 - beside, 0),
        moved(at, 0, -22),
        moved(at, 0, 22),
        moved(at, slant, -16),
        moved(at, 0 - slant, -16),
        moved(at, slant, 16),
        moved(at, 0 - slant, 16),
    ]
}

/// The places of nodes and of their names.
fn node_looks(
    alloc: Global,
    nodes: &[Site],
    spots: &[Spot],
    canvas: &mut Canvas,
) -> Result<Vec<NodeLook>, AllocError>
    ensures { IfOk result (λ looks. length looks.items ≡ length nodes.now) }
{
    let mut looks = Vec::new(alloc);
    for (place, node) in nodes.iter().enumerate() {
        let at = spot_at(spots, place);
        let candidates = about_node(at, node.name);
        let label = best_spot(canvas, &candidates, node.name, 4);
        looks.push(NodeLook { at, label })?;
    }
    Ok(looks)
}

/// Where a link runs: from its source to its target, with a bend.
#[derive(Clone, Copy)]
struct Course {
    source: Spot,
    bend: Spot,
    target: Spot,
}

impl Course {
    /// A place so many parts of sixty behind its source, and so far to the right and below it.
    fn at(self, part: u32, right: i64, down: i64) -> Spot {
        let point = point_on(self.source, self.bend, self.target, part);
        moved(point, right, down)
    }

    /// The places where words of so many bytes may stand: on it, above, below and beside it.
    fn places(self, bytes: usize) -> [Spot; 27] {
        let beside = i64::from(name_patch(self.source, bytes, 3).half_width) + 9;
        let left = 0i64.saturating_sub(beside);
        [
            self.at(30, 0, 0),
            self.at(30, 0, -12),
            self.at(30, 0, 12),
            self.at(30, beside, 0),
            self.at(30, left, 0),
            self.at(22, 0, -12),
            self.at(22, 0, 12),
            self.at(22, beside, 0),
            self.at(22, left, 0),
            self.at(38, 0, -12),
            self.at(38, 0, 12),
            self.at(38, beside, 0),
            self.at(38, left, 0),
            self.at(14, beside, 0),
            self.at(14, left, 0),
            self.at(46, beside, 0),
            self.at(46, left, 0),
            self.at(14, 0, -12),
            self.at(46, 0, 12),
            self.at(30, beside, -14),
            self.at(30, beside, 14),
            self.at(30, left, -14),
            self.at(30, left, 14),
            self.at(18, beside, -14),
            self.at(18, left, -14),
            self.at(42, beside, 14),
            self.at(42, left, 14),
        ]
    }
}

/// Where this link runs, between these places.
fn course_of(link: &Span, spots: &[Spot], bend: Spot) -> Course {
    let (source, target) = ends_of(link, spots);
    Course {
        source,
        bend,
        target,
    }
}

/// How links bend and how wide they are drawn. Their names and figures are placed later.
fn bent_looks(alloc: Global, links: &[Span], bends: &[Spot]) -> Result<Vec<LinkLook>, AllocError>
    ensures { IfOk result (λ looks. length looks.items ≡ length links.now) }
{
    let mut looks = Vec::new(alloc);
    for (place, link) in links.iter().enumerate() {
        let bend = spot_at(bends, place);
        looks.push(LinkLook {
            bend,
            label: bend,
            figures: None,
            width: link.width,
        })?;
    }
    Ok(looks)
}

/// The places about words of so many bytes where others may stand: below and above them, and beside them.
fn about_words(middle: Spot, bytes: usize, others: usize) -> [Spot; 4] {
    let half = i64::from(name_patch(middle, bytes, 3).half_width);
    let beside = half + i64::from(name_patch(middle, others, 3).half_width);
    [
        moved(middle, 0, 13),
        moved(middle, 0, -13),
        moved(middle, beside, 0),
        moved(middle, 0 - beside, 0),
    ]
}

/// Where the name of a link with this look may stand: about its figures, else along its course.
fn name_spot(canvas: &mut Canvas, link: &Span, look: LinkLook, spots: &[Spot]) -> Spot {
    if let Some(figures) = look.figures {
        let near = about_words(figures, link.figures, link.name);
        if let Some(spot) = free_spot(canvas, &near, link.name) {
            return spot;
        }
    }
    let along = course_of(link, spots, look.bend).places(link.name);
    best_spot(canvas, &along, link.name, 3)
}

/// Adds the places of figures of the links that have a load, or of the others, where there is room for them.
fn add_figures(
    looks: &mut [LinkLook],
    links: &[Span],
    spots: &[Spot],
    canvas: &mut Canvas,
    are_loaded: bool,
)
    ensures { length looks.new ≡ length looks.old }
{
    for (place, link) in links.iter().enumerate() {
        if link.is_loaded() == are_loaded
            && let Some(look) = looks.get_mut(place)
        {
            let along = course_of(link, spots, look.bend).places(link.figures);
            look.figures = free_spot(canvas, &along, link.figures);
        }
    }
}

/// Adds the places of names of the links that have a load, or of the others.
fn add_names(
    looks: &mut [LinkLook],
    links: &[Span],
    spots: &[Spot],
    canvas: &mut Canvas,
    are_loaded: bool,
)
    ensures { length looks.new ≡ length looks.old }
{
    for (place, link) in links.iter().enumerate() {
        if link.is_loaded() == are_loaded
            && let Some(look) = looks.get_mut(place)
        {
            look.label = name_spot(canvas, link, *look, spots);
        }
    }
}

/// Where the marks of a network stand: nodes at their coordinates, or on a circle where one has none or all stand on one
/// line from west to east or from south to north; names where they cover least of what is drawn before them; figures
/// where they cover no words and no node. Links that have a load come first, with their figures before their names.
///
/// - Takes: the nodes and the links, and whether links are directed.
/// - Gives: a look for each node and each link, in their order.
/// - Errors: want of memory alone.
/// - Rule: docs/DEFINITIONS.md, "Pictures".
/// - Time: linear in the nodes, and in the square of the links.
pub fn looks_of(
    alloc: Global,
    nodes: &[Site],
    links: &[Span],
    orient: Orient,
) -> Result<Looks, AllocError>
    ensures { IfOk result (λ looks. HasLooks looks (length nodes.now) (length links.now)) }
{
    let spots = node_spots(alloc, nodes)?;
    let bends = bends_of(alloc, links, spots.as_slice(), orient)?;
    let mut canvas = Canvas::new(alloc)?;
    cover_links(&mut canvas, links, spots.as_slice(), bends.as_slice());
    cover_nodes(&mut canvas, spots.as_slice());
    let node_looks = node_looks(alloc, nodes, spots.as_slice(), &mut canvas)?;
    let mut link_looks = bent_looks(alloc, links, bends.as_slice())?;
    let looks = link_looks.as_mut_slice();
    for are_loaded in [true, false] {
        add_figures(looks, links, spots.as_slice(), &mut canvas, are_loaded);
        add_names(looks, links, spots.as_slice(), &mut canvas, are_loaded);
    }
    Ok(Looks {
        nodes: Items::from_vec(node_looks),
        links: Items::from_vec(link_looks),
    })
}
