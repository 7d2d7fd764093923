//! Lower bounds of the bounds of open leaves, from what is recorded of their parents: a child begins with the prices that
//! its parent keeps and forbids more.

ghost use Rattle.std.specs.Prelude.{◌≡◌, ◌<◌, length, Some, IfOk, IfSome};
ghost use Rattle.search_machine.specs.Changes.{bound_in};
ghost use Rattle.search_nodes.specs.Records.{children_by};
ghost use Rattle.plan_of_search.specs.PlanParts.{machine_state, IsReachable, IsAssembled};
ghost use Rattle.plan_of_search.specs.LeafLows.{AreLows, lows_with};

use search_nodes::{PoolNode, SearchState};
use std::alloc::AllocError;

/// Tells the children of a divided node what is recorded of it, in cost grains. Takes no memory.
fn tell_children(lows: &mut Vec<Option<i128>>, node: &PoolNode)
    requires { IfSome (children_by node.now.fate) (λ children. (children.0.0 < length lows.old.items) × (children.1.0 < length lows.old.items)) }
    ensures { lows.new.items ≡ lows_with lows.old.items (bound_in (Some node.now)) (children_by node.now.fate) }
{
    if let Some((left, right)) = node.children() {
        let bound = node.bound();
        lows[left.0 as usize] = bound;
        lows[right.0 as usize] = bound;
    }
}

/// For each node a lower bound of its bound as an open leaf, in cost grains: what is recorded of its parent, if anything is.
///
/// - Time: linear in the nodes.
pub(crate) fn lows_of(state: &SearchState) -> Result<Vec<Option<i128>>, AllocError>
    requires { IsReachable (machine_state state.now) }
    ensures { IfOk result (λ lows. AreLows (machine_state state.now) lows.items) }
{
    let nodes = state.nodes.as_slice();
    let mut lows = vec![in state.alloc; None; nodes.len()]?;
    for number in 0..nodes.len() {
        tell_children(&mut lows, &nodes[number]);
    }
    Ok(lows)
}

/// Whether the first lower bound is there and below the second one, if that is there.
fn is_lower(low: Option<i128>, other: Option<i128>) -> bool {
    match (low, other) {
        (Some(low), Some(other)) => low < other,
        (Some(_), None) => true,
        (None, _) => false,
    }
}

/// Whether the node is an open leaf of which nothing is recorded.
fn is_bare(state: &SearchState, number: usize) -> bool
    requires assembled { IsAssembled state.now }
    requires number { number < length state.now.nodes.items }
{
    state.grounds[number].plot().is_some() && state.nodes[number].bound().is_none()
}

/// The open leaf with the least lower bound of those of which nothing is recorded; the root where no such leaf has one. No
/// contract rests on the choice.
pub(crate) fn lowest_leaf(state: &SearchState, lows: &[Option<i128>]) -> usize
    requires assembled { IsAssembled state.now }
    requires lows { AreLows (machine_state state.now) lows.now }
    ensures { result < length state.now.nodes.items }
{
    let mut lowest = 0;
    for number in 0..lows.len() {
        if is_lower(lows[number], lows[lowest]) && is_bare(state, number) {
            lowest = number;
        }
    }
    lowest
}
