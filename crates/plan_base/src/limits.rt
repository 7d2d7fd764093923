//! The greatest sizes and numbers of an instance and of a design.

/// The most nodes.
pub const MAX_NODES: u32 = 512;

/// The most links.
pub const MAX_LINKS: usize = 1024;

/// The most places: two for each link.
pub const MAX_PLACES: usize = 2 * MAX_LINKS;

/// The most demands.
pub const MAX_DEMANDS: usize = 4096;

/// The most modules of one link.
pub const MAX_MODULES: usize = 32;

/// The most load of all demands together, in load grains.
pub const MAX_TOTAL_LOAD: u64 = 1_000_000_000_000_000_000;

/// The most that a link may cost with the total load on it, in cost grains.
pub const MAX_ROUTING_COST: u128 = 1_000_000_000_000_000_000_000_000_000_000;

/// Capacities, in load grains, and routing costs, in cost grains per load grain, are below it.
pub const CAPACITY_BOUND: u64 = 1_000_000_000_000_000_000;

/// Costs of modules, in cost grains, are below it.
pub const MODULE_COST_BOUND: u128 = 1_000_000_000_000_000_000_000_000;

/// The most modules of one kind that a design in shape installs on one link.
pub const MAX_COUNT: u64 = 1_000_000_000_000_000_000;

/// The most that the modules of one kind on one link cost in a design in shape, in cost grains.
pub const MAX_COUNT_COST: u128 = 1_000_000_000_000_000_000_000_000_000_000;

/// The most that the price limit comes to with the total load, in thousandths of a cost grain.
pub const MAX_PRICED_LOAD: u128 = 4_000_000_000_000_000_000_000_000_000_000_000;
