//! Made additions of columns, which are compared with plain lists of numbers.

ghost use Rattle.std.specs.Prelude.{◌≡◌, ◌<◌, length, IfSome};

use crate::telling::tell_differing;
use column_pool::limits::MAX_COLUMNS;
use column_pool::{Added, ColumnPool};
use gate_draws::Draws;
use gate_networks::{find, network_of};
use plan_base::{ArcId, DemandId, Path};
use std::alloc::{AllocError, Global};

/// How many additions are made.
const ADDITIONS: u32 = 2000;

/// A network of one link and two demands.
const TWO: &str = "two undirected 2 : 0 1 0 0 : 0 1 1, 0 1 1";

/// The path of a number: one arc for a number of one digit, else two.
fn path_of_number(alloc: Global, number: u32) -> Result<Path, AllocError> {
    let mut arcs = vec![in alloc; ArcId(number % 10)]?;
    if number >= 10 {
        arcs.push(ArcId(number / 10))?;
    }
    Ok(Path::from_vec(arcs))
}

/// Puts the number last where it is not in the list, and takes the first one of too many. Whether it is new.
fn put(numbers: &mut Vec<u32>, number: u32) -> bool {
    if numbers.contains(&number) {
        return false;
    }
    if numbers.len() >= MAX_COLUMNS {
        numbers.remove(0);
    }
    numbers.push(number).is_ok()
}

/// Whether the columns of the demand are the paths of these numbers.
fn are_columns(alloc: Global, pool: &ColumnPool, demand: DemandId, numbers: &[u32]) -> bool
    requires { demand.0 < length pool.now }
{
    if pool.count(demand) as usize != numbers.len() {
        return false;
    }
    for place in 0..pool.count(demand) {
        let Ok(path) = path_of_number(alloc, numbers[place as usize]) else {
            return false;
        };
        if *pool.column(demand, place) != path {
            return false;
        }
    }
    true
}

/// Adds the path of a number to the columns of a demand, and the number to its list. Tells whether it is new to both or to
/// neither.
fn is_added(
    alloc: Global,
    pool: &mut ColumnPool,
    demand: DemandId,
    list: &mut Vec<u32>,
    number: u32,
) -> bool
    requires { demand.0 < length pool.old }
    ensures { length pool.new ≡ length pool.old }
{
    let Ok(path) = path_of_number(alloc, number) else {
        return false;
    };
    let was_there = pool.has(demand, &path);
    let is_new = put(list, number);
    let Ok(added) = pool.add(demand, &path) else {
        return false;
    };
    was_there != is_new && (added == Added::New) == is_new
}

/// Adds a drawn path to the columns of a demand and its number to the list of that demand, and tells whether they agree.
fn next_agrees(
    alloc: Global,
    draws: &mut Draws,
    pool: &mut ColumnPool,
    lists: &mut [Vec<u32>; 2],
) -> bool
    requires { length pool.old ≡ 2 }
    ensures { length pool.new ≡ 2 }
{
    let place = draws.below(2);
    let number = draws.below(100);
    let list = &mut lists[place as usize];
    is_added(alloc, pool, DemandId(place), list, number)
        && are_columns(alloc, pool, DemandId(0), &lists[0])
        && are_columns(alloc, pool, DemandId(1), &lists[1])
}

/// The first made addition after which the columns are not as the plain lists tell.
fn first_differing(alloc: Global, pool: &mut ColumnPool) -> Option<u32>
    requires { length pool.old ≡ 2 }
{
    let mut draws = Draws::begin(1);
    let mut lists = [Vec::new(alloc), Vec::new(alloc)];
    for number in 0..ADDITIONS {
        if !next_agrees(alloc, &mut draws, pool, &mut lists) {
            return Some(number);
        }
    }
    None
}

/// The empty columns of two demands.
fn two_empty(alloc: Global) -> Option<ColumnPool>
    ensures { IfSome result (λ pool. length pool ≡ 2) }
{
    let networks = vec![in alloc; network_of(alloc, TWO)?].ok()?;
    let inst = find(&networks, "two")?;
    if inst.demands() != 2 {
        return None;
    }
    ColumnPool::new(alloc, inst).ok()
}

/// Adds the first made addition after which the columns are not as the plain lists tell, or memory is wanting.
pub(crate) fn tell_columns(alloc: Global, text: &mut String) -> Option<()> {
    let mut pool = two_empty(alloc)?;
    tell_differing("addition", first_differing(alloc, &mut pool), text)
}
