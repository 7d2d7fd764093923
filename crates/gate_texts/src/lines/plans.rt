//! A small instance, and plans that claim something.

use plan_base::{CountLaw, Demand, Design, Instance, Items, Link, Module, NodeId, Orient, Parts};
use proof_tree::{Evidence, Plan, PlanStatus, Tree, TreeNode};
use std::alloc::{AllocError, Global};

/// Two nodes, a link with a module of 10 for 5 and one of 25 for 10, and a demand of 36.5 over it.
fn parts(alloc: Global) -> Result<Parts, AllocError> {
    let modules = vec![in alloc;
        Module {
            capacity: 10_000_000,
            cost: 5,
        },
        Module {
            capacity: 25_000_000,
            cost: 10,
        },
    ]?;
    let link = Link {
        source: NodeId(0),
        target: NodeId(1),
        pre: 0,
        routing: 0,
        modules: Items::from_vec(modules),
    };
    let demand = Demand {
        source: NodeId(0),
        target: NodeId(1),
        load: 36_500_000,
        hops: None,
    };
    Ok(Parts {
        orient: Orient::Undirected,
        law: CountLaw::Any,
        nodes: 2,
        links: Items::from_vec(vec![in alloc; link]?),
        demands: Items::from_vec(vec![in alloc; demand]?),
    })
}

/// The instance of these parts.
pub(crate) fn instance(alloc: Global) -> Option<Instance> {
    let parts = parts(alloc).ok()?;
    Instance::build(alloc, parts).ok()
}

/// A plan of this status, this cost and this bound in cost grains, with one leaf, which this evidence closes.
pub(crate) fn plan_with(
    alloc: Global,
    evidence: Evidence,
    status: PlanStatus,
    cost: Option<u128>,
    bound: Option<i128>,
) -> Option<Plan> {
    let nodes = vec![in alloc; TreeNode::Leaf(evidence)].ok()?;
    let tree = Tree::from_nodes(nodes).ok()?;
    let design = cost.map(|cost| {
        let nothing = Design {
            paths: Items::new(alloc),
            counts: Items::new(alloc),
        };
        (cost, nothing)
    });
    Some(Plan {
        nodes: 2,
        links: 1,
        demands: 1,
        both: false,
        status,
        budget: 1000,
        examined: 1,
        design,
        bound,
        cuts: Items::new(alloc),
        tree,
    })
}

/// The same, closed by its only paths.
pub(crate) fn plan_of(
    alloc: Global,
    status: PlanStatus,
    cost: Option<u128>,
    bound: Option<i128>,
) -> Option<Plan> {
    plan_with(alloc, Evidence::Routed, status, cost, bound)
}
