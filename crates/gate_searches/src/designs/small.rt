//! What is found for two small networks, where it can be worked out by hand.

ghost use Rattle.std.specs.Prelude.{◌≡◌, ◌<◌, IfSome, IsTrue};
ghost use Rattle.plan_base.specs.Designs.{IsGoodDesign};
ghost use Rattle.completions.specs.Completions.{ArePaths};

use gate_networks::{find, network_of, path_of, table_of};
use incumbent::{DesignSearch, complete, improve, overfull_link};
use link_steps::StepTable;
use plan_base::{DemandId, Design, Instance, Items, Path, check_design, is_simple_path};
use std::alloc::Global;

/// A small network, with the path of each demand.
#[derive(Clone, Copy)]
struct Small {
    name: &'static str,
    row: &'static str,
    paths: &'static [&'static str],
    /// The seats that search, with how many there are each time.
    seats: &'static [(u32, u32)],
}

/// Links ab and bc with modules of 10 for 5, and ac with modules of 10 for 12; demands of 6 from a to c, of 5 to b. The
/// first one goes along ac, the second one along ab.
const TRIANGLE: Small = Small {
    name: "triangle",
    row: "triangle undirected 3 : 0 1 0 0 / 10000000 5000000000000, 1 2 0 0 / 10000000 5000000000000, 0 2 0 0 / 10000000 12000000000000 : 0 2 6000000, 0 1 5000000",
    paths: &["4", "0"],
    seats: &[(0, 1), (0, 4), (1, 4), (2, 4), (3, 4)],
};

/// Two links of 5 from a to b, without modules, and a demand of 6, which goes along the first one.
const PAIR: Small = Small {
    name: "pair",
    row: "pair undirected 2 : 0 1 5000000 0, 0 1 5000000 0 : 0 1 6000000",
    paths: &["0"],
    seats: &[],
};

/// How many nodes are examined whenever a seat is asked for a design: each search comes due at one of these askings, and
/// none at those that stand just before them. Parts of a search follow at the next ones.
const ASKINGS: [u32; 23] = [
    0, 0, 0, 1, 2, 3, 4, 7, 8, 15, 16, 31, 32, 63, 64, 127, 128, 255, 256, 511, 512, 1_023, 1_024,
];

/// How many cost grains a unit of cost has.
const UNIT: u128 = 1_000_000_000_000;

/// Whether there is one simple path for each demand, in order.
fn are_paths(inst: &Instance, paths: &Items<Path>) -> bool
    ensures { IsTrue result → ArePaths inst.now paths.now }
{
    let paths = paths.as_slice();
    if paths.len() != inst.demands() as usize {
        return false;
    }
    for place in 0..inst.demands() {
        if !is_simple_path(inst, DemandId(place), &paths[place as usize]) {
            return false;
        }
    }
    true
}

/// The paths of these words, one for each demand, in order.
fn paths_of(alloc: Global, inst: &Instance, words: &[&str]) -> Option<Items<Path>>
    ensures { IfSome result (ArePaths inst.now) }
{
    let mut paths = Vec::new(alloc);
    for word in words {
        paths.push(path_of(alloc, word)?).ok()?;
    }
    let paths = Items::from_vec(paths);
    if !are_paths(inst, &paths) {
        return None;
    }
    Some(paths)
}

/// What the cheapest design with these paths costs.
fn completed_cost(alloc: Global, table: &StepTable, paths: Items<Path>) -> Option<u128>
    requires paths { ArePaths table.now paths }
{
    let (cost, _design) = complete(alloc, table, paths).ok()??;
    Some(cost)
}

/// Adds what one costs that is found from a design, and what the cheapest one with the paths of that costs, in units.
fn tell_better(alloc: Global, table: &StepTable, design: Design, text: &mut String) -> Option<()>
    requires design { IsGoodDesign table.now design }
{
    let (better, design) = improve(alloc, table, design).ok()?;
    let again = completed_cost(alloc, table, design.paths)?;
    let (better, again) = (better / UNIT, again / UNIT);
    write!(text, ", improved {better}, completed {again}\n").ok()
}

/// Adds what a design costs, in units, and what is found from it.
fn tell_design(
    alloc: Global,
    table: &StepTable,
    cost: u128,
    design: Design,
    text: &mut String,
) -> Option<()> {
    let inst = table.instance();
    check_design(inst, &design).ok()?;
    write!(text, " {}", cost / UNIT).ok()?;
    tell_better(alloc, table, design, text)
}

/// Adds what the cheapest design with the paths costs, in units, and what is found from it, or which link cannot carry the
/// paths.
fn tell_completed(
    alloc: Global,
    table: &StepTable,
    paths: Items<Path>,
    text: &mut String,
) -> Option<()>
    requires paths { ArePaths table.now paths }
{
    let counts = Items::new(alloc);
    let design = Design { paths, counts };
    let overfull = overfull_link(table, &design);
    match (complete(alloc, table, design.paths).ok()?, overfull) {
        (Some((cost, design)), None) => tell_design(alloc, table, cost, design, text),
        (None, Some(link)) => write!(text, " link {} is overfull\n", link.0).ok(),
        _ => None,
    }
}

/// Adds what the design costs, in units, that a seat finds when so many nodes are examined, if it finds one.
fn tell_next(
    alloc: Global,
    table: &StepTable,
    paths: &Items<Path>,
    designs: &mut DesignSearch,
    examined: u32,
    text: &mut String,
) -> Option<()>
    requires paths { ArePaths table.now paths.now }
{
    let inst = table.instance();
    let found = designs.next_design(alloc, table, paths, examined);
    let Some(design) = found.ok()? else {
        return Some(());
    };
    let cost = check_design(inst, &design).ok()? / UNIT;
    write!(text, ", {cost} at {examined}").ok()
}

/// Adds what each design costs that a seat finds, in units, and how many nodes are examined then.
fn tell_searches(
    alloc: Global,
    table: &StepTable,
    paths: &Items<Path>,
    designs: &mut DesignSearch,
    text: &mut String,
) -> Option<()>
    requires paths { ArePaths table.now paths.now }
{
    for examined in ASKINGS {
        tell_next(alloc, table, paths, designs, examined, text)?;
    }
    text.push_str("\n").ok()
}

/// Adds the line of each seat.
fn tell_seats(
    alloc: Global,
    table: &StepTable,
    paths: &Items<Path>,
    small: Small,
    text: &mut String,
) -> Option<()>
    requires paths { ArePaths table.now paths.now }
{
    for (seat, seats) in small.seats {
        if *seat >= *seats {
            return None;
        }
        let mut designs = DesignSearch::new(*seat, *seats);
        write!(text, "{}, seat {seat} of {seats}", small.name).ok()?;
        tell_searches(alloc, table, paths, &mut designs, text)?;
    }
    Some(())
}

/// Adds what these seats find for a network, and what is found from the cheapest design with its paths.
fn tell_network(alloc: Global, small: Small, table: &StepTable, text: &mut String) -> Option<()> {
    let inst = table.instance();
    let paths = paths_of(alloc, inst, small.paths)?;
    tell_seats(alloc, table, &paths, small, text)?;
    write!(text, "{}:", small.name).ok()?;
    tell_completed(alloc, table, paths, text)
}

/// Adds the lines of a network.
fn tell_lines(alloc: Global, inst: &Instance, small: Small, text: &mut String) -> Option<()> {
    tell_network(alloc, small, &table_of(alloc, inst)?, text)
}

/// Adds the lines of both networks.
pub(crate) fn tell_small(alloc: Global, text: &mut String) -> Option<()> {
    for small in [TRIANGLE, PAIR] {
        let networks = vec![in alloc; network_of(alloc, small.row)?].ok()?;
        tell_lines(alloc, find(&networks, small.name)?, small, text)?;
    }
    Some(())
}
