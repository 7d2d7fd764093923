//! Networks that are made from a number.

ghost use Rattle.std.specs.Prelude.{◌≤◌};

use crate::network::{Demand, Ends, Extra, Kind, Link, Module, Network};
use gate_draws::Draws;
use std::alloc::{AllocError, Global};

/// How the numbers of a network are drawn.
#[derive(Clone, Copy)]
struct Style {
    /// Whether numbers have digits behind the point.
    decimals: bool,
    /// Whether no link has modules, so that loads must fit what is there already.
    tight: bool,
}

/// Tenths of a unit, below so many units.
fn tenths(draws: &mut Draws, style: Style, units: u32) -> u32
    requires least { 1 ≤ units }
    requires most { units ≤ 1000 }
{
    if style.decimals {
        draws.below(units * 10)
    } else {
        draws.below(units) * 10
    }
}

/// Hundredths of a unit, below so many units.
fn hundredths(draws: &mut Draws, style: Style, units: u32) -> u32
    requires least { 1 ≤ units }
    requires most { units ≤ 1000 }
{
    if style.decimals {
        draws.below(units * 100)
    } else {
        draws.below(units) * 100
    }
}

/// A kind of modules: the greater the number, the greater they are.
fn made_module(draws: &mut Draws, style: Style, number: u32) -> Module
    requires { number ≤ 100 }
{
    let least = 5 + 10 * number;
    Module {
        capacity: (least * 10).saturating_add(tenths(draws, style, 10)),
        cost: (least * 100).saturating_add(hundredths(draws, style, 20)),
    }
}

/// How many kinds of modules a link has.
fn module_count(draws: &mut Draws, style: Style) -> u32
    ensures { result ≤ 3 }
{
    if style.tight || draws.one_of(8) {
        return 0;
    }
    1 + draws.below(3)
}

/// The pre-installed capacity of a link, in tenths of a unit.
fn made_pre(draws: &mut Draws, style: Style) -> u32 {
    if style.tight {
        return tenths(draws, style, 20);
    }
    if draws.one_of(4) {
        return tenths(draws, style, 8);
    }
    0
}

/// A link between these nodes.
fn made_link(
    alloc: Global,
    draws: &mut Draws,
    style: Style,
    ends: Ends,
) -> Result<Link, AllocError> {
    let mut modules = Vec::new(alloc);
    for number in 0..module_count(draws, style) {
        modules.push(made_module(draws, style, number))?;
    }
    let routing = if draws.one_of(3) {
        hundredths(draws, style, 3)
    } else {
        0
    };
    Ok(Link {
        ends,
        pre: made_pre(draws, style),
        routing,
        modules,
    })
}

/// A node and another one.
fn made_ends(draws: &mut Draws, nodes: u32) -> Ends
    requires { 2 ≤ nodes }
{
    let source = draws.below(nodes);
    let step = 1 + draws.below(nodes - 1);
    let target = source.wrapping_add(step) % nodes;
    Ends { source, target }
}

/// The links of a ring through all nodes, where `open` without the last one, and of some chords.
fn made_links(
    alloc: Global,
    draws: &mut Draws,
    style: Style,
    nodes: u32,
) -> Result<Vec<Link>, AllocError>
    requires { 4 ≤ nodes }
{
    let mut links = Vec::new(alloc);
    let ring = if draws.one_of(6) { nodes - 1 } else { nodes };
    for source in 0..ring {
        let target = source.wrapping_add(1) % nodes;
        links.push(made_link(alloc, draws, style, Ends { source, target })?)?;
    }
    for _ in 0..1 + draws.below(nodes) {
        let ends = made_ends(draws, nodes);
        links.push(made_link(alloc, draws, style, ends)?)?;
    }
    Ok(links)
}

/// From 1 to this number of demands, rather few than many.
fn made_demands(
    alloc: Global,
    draws: &mut Draws,
    style: Style,
    nodes: u32,
    most: u32,
) -> Result<Vec<Demand>, AllocError>
    requires nodes { 4 ≤ nodes }
    requires most { 1 ≤ most }
    requires few { most ≤ 100 }
{
    let mut demands = Vec::new(alloc);
    let fewer = 1 + draws.below(most);
    for _ in 0..1 + draws.below(fewer) {
        demands.push(Demand {
            ends: made_ends(draws, nodes),
            unit: 1 + draws.below(2),
            value: tenths(draws, style, 10),
            hops: None,
        })?;
    }
    Ok(demands)
}

/// Gives most of the demands a limit of 1 to 4 links.
fn limit_demands(draws: &mut Draws, demands: &mut Vec<Demand>) {
    for demand in demands.iter_mut() {
        if !draws.one_of(4) {
            demand.hops = Some(1 + draws.below(4));
        }
    }
}

/// The network of this number, whose links are bidirected, or not, and which asks for this besides.
pub(crate) fn made_network(
    alloc: Global,
    number: u32,
    bidirected: bool,
    extra: Extra,
) -> Result<Network, AllocError> {
    let mut draws = Draws::begin(number);
    let nodes = 4 + number % 9;
    let kind = match (bidirected, draws.one_of(3)) {
        (true, _) => Kind::Bidirected,
        (false, true) => Kind::Directed,
        (false, false) => Kind::Undirected,
    };
    let style = Style {
        decimals: draws.one_of(2),
        tight: draws.one_of(5),
    };
    let links = made_links(alloc, &mut draws, style, nodes)?;
    let mut demands = made_demands(alloc, &mut draws, style, nodes, 12)?;
    if extra == Extra::Limits {
        limit_demands(&mut draws, &mut demands);
    }
    Ok(Network {
        kind,
        extra,
        nodes,
        links,
        demands,
    })
}
