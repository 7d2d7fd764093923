//! What a worker does with a task, while it holds nothing of the hub. Before each call it asks whether the seat may make
//! one.

ghost use Rattle.std.specs.Prelude.{IfOk};
ghost use Rattle.completions.specs.Completions.{ArePaths};

use crate::bench::Bench;
use crate::office::Office;
use crate::search::Search;
use crate::told::Told;
use leaf_tasks::{Next, keep_limits, next_step};
use plan_base::{BranchId, DemandId, Design, Items, Path};
use search_machine::{Better, ExamineFault, Gather, Offered, Opened, Publish, Task};
use std::alloc::{AllocError, Global};
use std::sync::Wait;

/// A version that was opened or published, and its slot.
#[derive(Clone, Copy)]
pub(crate) struct Shown {
    pub(crate) slot: u32,
    pub(crate) node: BranchId,
    pub(crate) version: u64,
}

/// What a task leaves to do: a version whose demands are to be priced, and what a search for a design begins with.
#[derive(Drop)]
pub(crate) struct Left<N: Search> {
    pub(crate) shown: Option<Shown>,
    pub(crate) told: Option<Told<N>>,
}

impl<N: Search> Left<N> {
    /// Nothing is left.
    fn nothing() -> Left<N> {
        Left {
            shown: None,
            told: None,
        }
    }
}

/// Takes the prices of a version from the board and what is forbidden at its node out of the pool, where the bench has not
/// got them: once for each version, not for each demand.
pub(crate) fn turn_to<N: Search, H: Office<N>, T: Wait>(
    rt: &T,
    hub: &H,
    seat: &mut H::Seat,
    bench: &mut Bench<N>,
    node: BranchId,
    slot: u32,
    version: u64,
) -> Result<(), AllocError>
    requires of { H.of hub.now seat.old }
    ensures of { H.of hub.now seat.new }
    ensures keeps { H.keeps seat.old seat.new }
{
    if bench.has(node, version) {
        return Ok(());
    }
    let Some(published) = hub.published(rt, seat, node, slot, version)? else {
        return Ok(());
    };
    let Ok(()) = hub.may_call(seat) else {
        return Ok(());
    };
    let Some(rows) = hub.ground(rt, seat, published.node)? else {
        return Ok(());
    };
    bench.put(&**hub.instance(), &**hub.table(), published, rows);
    Ok(())
}

/// Prices a demand, and hands in what it finds.
///
/// - Gives: what becomes of it; None where the bench has not got the version, there is no such demand, or the seat may make
///   no further call.
pub(crate) fn price<N: Search, H: Office<N>, T: Wait>(
    rt: &T,
    hub: &H,
    seat: &mut H::Seat,
    bench: &mut Bench<N>,
    node: BranchId,
    version: u64,
    demand: DemandId,
) -> Result<Option<Offered>, AllocError>
    requires of { H.of hub.now seat.old }
    ensures of { H.of hub.now seat.new }
    ensures keeps { H.keeps seat.old seat.new }
{
    let Some(offer) = bench.offer(&**hub.instance(), node, version, demand)? else {
        return Ok(None);
    };
    let Ok(()) = hub.may_call(seat) else {
        return Ok(None);
    };
    Ok(Some(hub.offer(rt, seat, offer)))
}

/// What a master step is told of a complete version, where it is the node's still.
fn told_of<N: Search, H: Office<N>, T: Wait>(
    rt: &T,
    hub: &H,
    seat: &mut H::Seat,
    node: BranchId,
    version: u64,
) -> Result<Option<Told<N>>, AllocError>
    requires of { H.of hub.now seat.old }
    ensures of { H.of hub.now seat.new }
    ensures keeps { H.keeps seat.old seat.new }
{
    let Ok(()) = hub.may_call(seat) else {
        return Ok(None);
    };
    match hub.gather(rt, seat, node, version)? {
        Gather::Taken(brief) => Ok(Told::tested(&**hub.instance(), &**hub.table(), brief)),
        _ => Ok(None),
    }
}

/// Publishes the prices and rates that follow, or settles the node. What is refused is dropped.
fn go_on<N: Search, H: Office<N>, T: Wait>(
    rt: &T,
    alloc: Global,
    hub: &H,
    seat: &mut H::Seat,
    told: &Told<N>,
    node: BranchId,
    version: u64,
) -> Result<Option<Shown>, AllocError>
    requires of { H.of hub.now seat.old }
    ensures of { H.of hub.now seat.new }
    ensures keeps { H.keeps seat.old seat.new }
{
    let Next { prices, split } = next_step(alloc, &**hub.instance(), &**hub.table(), told.brief())?;
    let Ok(()) = hub.may_call(seat) else {
        return Ok(None);
    };
    let Some(prices) = prices else {
        let _answer = hub.settle(rt, seat, node, version, split);
        return Ok(None);
    };
    match hub.publish(rt, seat, node, version, &prices, split)? {
        Publish::Published { slot, version } => Ok(Some(Shown {
            slot,
            node,
            version,
        })),
        _ => Ok(None),
    }
}

/// Tells the bench of the cheapest design of all workers.
fn learn_best<N: Search, H: Office<N>, T: Wait>(
    rt: &T,
    hub: &H,
    seat: &mut H::Seat,
    bench: &mut Bench<N>,
) -> Result<(), AllocError>
    requires of { H.of hub.now seat.old }
    ensures of { H.of hub.now seat.new }
    ensures keeps { H.keeps seat.old seat.new }
{
    let Ok(()) = hub.may_call(seat) else {
        return Ok(());
    };
    match hub.best_design(rt, seat)? {
        Some(best) => bench.learn(&**hub.instance(), &best),
        None => Ok(()),
    }
}

/// The least paths of a version. Where some have more arcs than their demands' limits, what is forbidden at the node is
/// taken out of the pool, and they are replaced as far as it permits others.
fn start_paths<N: Search, H: Office<N>, T: Wait>(
    rt: &T,
    alloc: Global,
    hub: &H,
    seat: &mut H::Seat,
    told: &Told<N>,
) -> Result<Items<Path>, AllocError>
    requires of { H.of hub.now seat.old }
    ensures of { H.of hub.now seat.new }
    ensures keeps { H.keeps seat.old seat.new }
    ensures paths { IfOk result (ArePaths N.problem) }
{
    let inst = &**hub.instance();
    let paths = told.least_paths(alloc, inst)?;
    if keep_limits(inst, &paths) {
        return Ok(paths);
    }
    let Ok(()) = hub.may_call(seat) else {
        return Ok(paths);
    };
    match hub.ground(rt, seat, told.node())? {
        Some(rows) => told.paths_within(alloc, inst, &*rows, paths),
        None => Ok(paths),
    }
}

/// The design that a search finds which begins with the least paths of a version.
fn found_design<N: Search, H: Office<N>, T: Wait>(
    rt: &T,
    alloc: Global,
    hub: &H,
    seat: &mut H::Seat,
    bench: &mut Bench<N>,
    told: &Told<N>,
) -> Result<Option<Design>, AllocError>
    requires of { H.of hub.now seat.old }
    ensures of { H.of hub.now seat.new }
    ensures keeps { H.keeps seat.old seat.new }
{
    let paths = start_paths(rt, alloc, hub, seat, told)?;
    bench.design(hub.table().steps(), told, &paths)
}

/// Hands a design in, where the seat may make a further call.
///
/// - Gives: whether the design is taken.
fn hand_in<N: Search, H: Office<N>, T: Wait>(
    rt: &T,
    hub: &H,
    seat: &mut H::Seat,
    design: Design,
) -> bool
    requires of { H.of hub.now seat.old }
    ensures of { H.of hub.now seat.new }
    ensures keeps { H.keeps seat.old seat.new }
{
    let Ok(()) = hub.may_call(seat) else {
        return false;
    };
    match hub.better(rt, seat, design) {
        Ok(Better::Taken { cost: _cost }) => true,
        _ => false,
    }
}

/// Searches for a design, where a complete version was worked on and one is due, and hands it in. A search that begins with
/// a design begins with the cheapest one of all workers.
///
/// - Gives: whether the design is taken.
pub(crate) fn seek_design<N: Search, H: Office<N>, T: Wait>(
    rt: &T,
    alloc: Global,
    hub: &H,
    seat: &mut H::Seat,
    bench: &mut Bench<N>,
    told: &Option<Told<N>>,
) -> Result<bool, AllocError>
    requires of { H.of hub.now seat.old }
    ensures of { H.of hub.now seat.new }
    ensures keeps { H.keeps seat.old seat.new }
{
    let Some(told) = told else {
        return Ok(false);
    };
    if !bench.is_design_due(told) {
        return Ok(false);
    }
    learn_best(rt, hub, seat, bench)?;
    match found_design(rt, alloc, hub, seat, bench, told)? {
        Some(design) => Ok(hand_in(rt, hub, seat, design)),
        None => Ok(false),
    }
}

/// Opens a node.
fn open<N: Search, H: Office<N>, T: Wait>(
    rt: &T,
    hub: &H,
    seat: &mut H::Seat,
    node: BranchId,
) -> Result<Option<Shown>, AllocError>
    requires of { H.of hub.now seat.old }
    requires free { H.free seat.old }
    ensures of { H.of hub.now seat.new }
    ensures keeps { H.keeps seat.old seat.new }
{
    match hub.open(rt, seat, node)? {
        Ok(Opened { slot, version }) => Ok(Some(Shown {
            slot,
            node,
            version,
        })),
        Err(_refused) => Ok(None),
    }
}

/// Searches for a first design, where none is known to a version that a master step is told of.
///
/// - Gives: whether a design is taken.
fn seek_first<N: Search, H: Office<N>, T: Wait>(
    rt: &T,
    alloc: Global,
    hub: &H,
    seat: &mut H::Seat,
    bench: &mut Bench<N>,
    told: &Option<Told<N>>,
) -> Result<bool, AllocError>
    requires of { H.of hub.now seat.old }
    ensures of { H.of hub.now seat.new }
    ensures keeps { H.keeps seat.old seat.new }
{
    let is_first = match told {
        Some(told) => told.brief().incumbent.is_none(),
        None => false,
    };
    if !is_first {
        return Ok(false);
    }
    seek_design(rt, alloc, hub, seat, bench, told)
}

/// What a master step is told of a complete version. Where no design is known, one is searched for first, since what comes
/// next depends on its cost.
fn told_with_design<N: Search, H: Office<N>, T: Wait>(
    rt: &T,
    alloc: Global,
    hub: &H,
    seat: &mut H::Seat,
    bench: &mut Bench<N>,
    node: BranchId,
    version: u64,
) -> Result<Option<Told<N>>, AllocError>
    requires of { H.of hub.now seat.old }
    ensures of { H.of hub.now seat.new }
    ensures keeps { H.keeps seat.old seat.new }
{
    let told = told_of(rt, hub, seat, node, version)?;
    if !seek_first(rt, alloc, hub, seat, bench, &told)? {
        return Ok(told);
    }
    told_of(rt, hub, seat, node, version)
}

/// Goes on with a complete version. A search for a design that is not the first one comes only after that, so that no other
/// worker waits for it.
fn advance<N: Search, H: Office<N>, T: Wait>(
    rt: &T,
    alloc: Global,
    hub: &H,
    seat: &mut H::Seat,
    bench: &mut Bench<N>,
    node: BranchId,
    version: u64,
) -> Result<Left<N>, AllocError>
    requires of { H.of hub.now seat.old }
    ensures of { H.of hub.now seat.new }
    ensures keeps { H.keeps seat.old seat.new }
{
    let Some(told) = told_with_design(rt, alloc, hub, seat, bench, node, version)? else {
        return Ok(Left::nothing());
    };
    let shown = go_on(rt, alloc, hub, seat, &told, node, version)?;
    Ok(Left {
        shown,
        told: Some(told),
    })
}

/// Does a task, but for the search for a design that may follow.
pub(crate) fn do_task<N: Search, H: Office<N>, T: Wait>(
    rt: &T,
    alloc: Global,
    hub: &H,
    seat: &mut H::Seat,
    bench: &mut Bench<N>,
    task: Task,
) -> Result<Left<N>, AllocError>
    requires of { H.of hub.now seat.old }
    ensures of { H.of hub.now seat.new }
    ensures keeps { H.keeps seat.old seat.new }
{
    let Ok(()) = hub.may_call(seat) else {
        return Ok(Left::nothing());
    };
    match task {
        Task::Open { node } => {
            let shown = open(rt, hub, seat, node)?;
            Ok(Left { shown, told: None })
        }
        Task::Price {
            node,
            slot,
            version,
            demand,
        } => {
            turn_to(rt, hub, seat, bench, node, slot, version)?;
            let _answer = price(rt, hub, seat, bench, node, version, demand)?;
            Ok(Left::nothing())
        }
        Task::Master { node, version } => advance(rt, alloc, hub, seat, bench, node, version),
        Task::Close { node } => {
            let _answer = hub.close(rt, seat, node);
            Ok(Left::nothing())
        }
        Task::Examine { node } => match hub.examine(rt, seat, node) {
            Err(ExamineFault::OutOfMemory) => Err(AllocError),
            _ => Ok(Left::nothing()),
        },
        Task::Done => Ok(Left::nothing()),
    }
}
