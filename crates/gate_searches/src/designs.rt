//! Designs of made networks, searched for with several seeds each, and searches on from what was found.
//!
//! The networks are those of `instance_maker::sample`, the same ones in each run. A design with the least paths at the
//! start prices is improved with each seed, then the cheapest of what comes out, and then its answer. A line tells of
//! each network the least, the mean and the greatest cost, and the costs of the two answers, in units. An error comes
//! where an answer is dearer than what was improved, or the designs cost more in the mean than they may. How cheap a
//! design is, no clause says: so the lines are what shows that the search is the same. Lines of two small networks, which
//! can be worked out by hand, show when each seat searches, what is found, and a link that is too small. Begin at
//! `tell_costs`, and at `tell_small` of the module `small`.

mod small;
mod starts;

ghost use Rattle.std.specs.Prelude.{◌≡◌};
ghost use Rattle.plan_base.specs.Designs.{IsGoodDesign};

use incumbent::{improve, improve_seeded};
use instance_maker::limits::{MAX_DEMANDS, MAX_NODES, MIN_NODES};
use instance_maker::{Problem, sample_problem};
use plan_base::{Design, check_design};
use small::tell_small;
use starts::start_design;
use std::alloc::Global;

/// The number, the nodes and the demands of each network, with how many seeds its design is improved, and the most that
/// comes out may cost in the mean, in units.
const NETWORKS: [(u32, u32, u32, u32, u128); 10] = [
    (1, 6, 6, 10, 77),
    (2, 8, 10, 10, 135),
    (3, 12, 20, 10, 264),
    (4, 16, 40, 10, 516),
    (5, 32, 200, 10, 2_360),
    (6, 64, 1_000, 2, 15_880),
    (7, 10, 15, 10, 214),
    (8, 12, 30, 10, 303),
    (9, 14, 20, 10, 251),
    (10, 16, 60, 10, 730),
];

/// How many cost grains a tenth of a unit of cost has.
const TENTH: u128 = 100_000_000_000;

/// What searches with some seeds found.
#[derive(Drop)]
struct Found {
    /// The least cost, in cost grains.
    least: u128,
    /// The greatest cost, in cost grains.
    greatest: u128,
    /// All costs together, in cost grains.
    total: u128,
    /// The cheapest design.
    best: Option<Design>,
}

impl Found {
    /// Takes what one more search found.
    fn take(&mut self, cost: u128, design: Design) {
        self.total = self.total.saturating_add(cost);
        self.greatest = self.greatest.max(cost);
        if cost < self.least {
            self.least = cost;
            self.best = Some(design);
        }
    }

    /// Adds the least, the mean and the greatest cost of so many searches, in units. None where the mean is too great.
    fn tell(&self, seeds: u32, most: u128, text: &mut String) -> Option<()> {
        let mean = self.total / u128::from(seeds.max(1)) / TENTH;
        if mean > most.saturating_mul(10) {
            return None;
        }
        let (least, greatest) = (self.least / TENTH / 10, self.greatest / TENTH / 10);
        write!(text, " {least} {}.{} {greatest}", mean / 10, mean % 10).ok()
    }
}

/// What searches from a design find with so many seeds.
fn find_all(alloc: Global, problem: &Problem, start: &Design, seeds: u32) -> Option<Found>
    requires table { problem.now.table ≡ problem.now.inst }
    requires start { IsGoodDesign problem.now.inst start.now }
{
    let mut found = Found {
        least: u128::MAX,
        greatest: 0,
        total: 0,
        best: None,
    };
    for seed in 0..seeds {
        let copy = start.copy().ok()?;
        let (cost, design) = improve_seeded(alloc, &problem.table, copy, seed).ok()?;
        found.take(cost, design);
    }
    Some(found)
}

/// What `improve` gives for a design, and what that costs, in cost grains. None where that is dearer.
fn improved(alloc: Global, problem: &Problem, design: Design) -> Option<(u128, Design)>
    requires { problem.now.table ≡ problem.now.inst }
{
    let cost = check_design(&problem.inst, &design).ok()?;
    let (better, design) = improve(alloc, &problem.table, design).ok()?;
    if better > cost {
        return None;
    }
    Some((better, design))
}

/// What searches from the start design find with so many seeds.
fn found_from_start(alloc: Global, problem: &Problem, seeds: u32) -> Option<Found>
    requires { problem.now.table ≡ problem.now.inst }
{
    let start = start_design(alloc, &problem.table)?;
    find_all(alloc, problem, &start, seeds)
}

/// Adds the costs of what is found from a design, and from that again, in units.
fn tell_again(alloc: Global, problem: &Problem, design: Design, text: &mut String) -> Option<()>
    requires { problem.now.table ≡ problem.now.inst }
{
    let (again, design) = improved(alloc, problem, design)?;
    let (once_more, _design) = improved(alloc, problem, design)?;
    let (again, once_more) = (again / TENTH / 10, once_more / TENTH / 10);
    write!(text, ", then {again} {once_more}\n").ok()
}

/// Searches for designs, and adds what they cost, in units. None where they cost too much in the mean.
fn tell_costs(
    alloc: Global,
    problem: &Problem,
    seeds: u32,
    most: u128,
    text: &mut String,
) -> Option<()>
    requires { problem.now.table ≡ problem.now.inst }
{
    let found = found_from_start(alloc, problem, seeds)?;
    found.tell(seeds, most, text)?;
    tell_again(alloc, problem, found.best?, text)
}

/// Adds the line of a network.
fn tell_network(
    alloc: Global,
    number: u32,
    nodes: u32,
    demands: u32,
    seeds: u32,
    most: u128,
    text: &mut String,
) -> Option<()> {
    if nodes < MIN_NODES || nodes > MAX_NODES || demands > MAX_DEMANDS {
        return None;
    }
    write!(text, "sample {number} {nodes} {demands}:").ok()?;
    let problem = sample_problem(alloc, number, nodes, demands).ok()?;
    tell_costs(alloc, &problem, seeds, most, text)
}

/// Adds the lines of all networks.
pub(crate) fn tell_designs(alloc: Global, text: &mut String) -> Option<()> {
    for (number, nodes, demands, seeds, most) in NETWORKS {
        tell_network(alloc, number, nodes, demands, seeds, most, text)?;
    }
    tell_small(alloc, text)
}
