//! The state of a search, as the pool, its views and the plan share it.

use crate::ground::Ground;
use crate::node::PoolNode;
use column_pool::ColumnPool;
use cut_values::CutTable;
use plan_base::Instance;
use search_machine::Incumbent;
use std::alloc::Global;
use std::sync::Arc;

/// The state of a search: what the events of the machine change, and what they are computed from.
///
/// Contracts see it as the state of the machine by `machine_state`.
#[derive(Drop)]
pub struct SearchState {
    /// Where memory comes from.
    pub alloc: Global,
    /// The instance.
    pub problem: Arc<Instance>,
    /// The step table of the instance, and the cuts that bounds are made with.
    pub table: Arc<CutTable>,
    /// What all costs are multiples of, in cost grains.
    pub unit: u128,
    /// The nodes, in the order of their making.
    pub nodes: Vec<PoolNode>,
    /// For each node its region, while it is an open leaf. The machine computes it from the node.
    pub grounds: Vec<Ground>,
    /// The columns of the demands.
    pub columns: ColumnPool,
    /// The best design.
    pub incumbent: Option<Incumbent>,
    /// How many nodes are examined.
    pub examined: u32,
    /// How many may be.
    pub budget: u32,
    /// The version that the next round would have.
    pub next_version: u64,
    /// How many paths were accepted.
    pub accepted: u64,
}
