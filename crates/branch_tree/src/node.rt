//! A node of the tree, and what became of it.

ghost use Rattle.std.specs.Prelude.{◌≡◌, IfOk};
ghost use Rattle.arc_restrict.specs.Rows.{forbids};
ghost use Rattle.branch_tree.specs.Branches.{left_limit, right_limit, forbidden_with, ranges_with, HasLimitRow, HasLimitRange};

use arc_restrict::Restriction;
use link_steps::{LoadRange, Ranges};
use plan_base::{ArcId, BranchId, DemandId, Items, NodeId, Prices};
use proof_tree::Evidence;
use std::alloc::AllocError;

/// What a child of a split allows less than its parent.
#[derive(Debug, Drop)]
pub enum Limit {
    /// The arcs are forbidden to the demand.
    Arcs {
        /// The demand.
        demand: DemandId,
        /// The arcs, ascending.
        arcs: Items<ArcId>,
    },
    /// The place carries at most this load.
    UpTo {
        /// The place.
        place: u32,
        /// The load, in load grains.
        load: u64,
    },
    /// The place carries more than this load.
    Above {
        /// The place.
        place: u32,
        /// The load, in load grains.
        load: u64,
    },
}

impl Limit {
    /// The same limit.
    ///
    /// - Errors: want of memory alone.
    pub fn copy(&self) -> Result<Limit, AllocError>
        ensures { IfOk result (λ copy. copy ≡ self.now) }
    {
        Ok(match self {
            Limit::Arcs { demand, arcs } => Limit::Arcs {
                demand: *demand,
                arcs: arcs.copy()?,
            },
            Limit::UpTo { place, load } => Limit::UpTo {
                place: *place,
                load: *load,
            },
            Limit::Above { place, load } => Limit::Above {
                place: *place,
                load: *load,
            },
        })
    }

    /// Forbids the arcs of the limit too, where it has some. Takes no memory.
    ///
    /// - Takes: a restriction of the instance that the limit is one for.
    pub fn forbid(&self, restriction: &mut Restriction)
        requires { HasLimitRow restriction.old self.now }
        ensures value { forbids restriction.new ≡ forbidden_with (forbids restriction.old) self.now }
        ensures demands { restriction.new.demands ≡ restriction.old.demands }
        ensures arcs { restriction.new.arcs ≡ restriction.old.arcs }
    {
        match self {
            Limit::Arcs { demand, arcs } => restriction.forbid(*demand, arcs.as_slice()),
            Limit::UpTo { .. } => {}
            Limit::Above { .. } => {}
        }
    }

    /// Leaves the place of the limit fewer loads, where it has one. Takes no memory.
    ///
    /// - Takes: one range for each place of the instance that the limit is one for.
    pub fn narrow(&self, ranges: &mut Ranges)
        requires { HasLimitRange ranges.old self.now }
        ensures { ranges.new ≡ ranges_with ranges.old self.now }
    {
        match self {
            Limit::Arcs { .. } => {}
            Limit::UpTo { place, load } => {
                let least = ranges.at(*place).least;
                ranges.set(*place, LoadRange { least, most: *load });
            }
            Limit::Above { place, load } => {
                let most = ranges.at(*place).most;
                let least = *load + 1;
                ranges.set(*place, LoadRange { least, most });
            }
        }
    }
}

/// A split of the arcs that leave a node, where two paths of a demand part.
#[derive(Debug, Drop)]
pub struct ArcSplit {
    /// The demand whose paths part.
    pub demand: DemandId,
    /// The node where they part.
    pub at: NodeId,
    /// The arcs that the left child forbids, ascending.
    pub left: Items<ArcId>,
    /// The arcs that the right child forbids, ascending.
    pub right: Items<ArcId>,
}

/// A split of the loads of a place.
#[derive(Clone, Copy, Debug)]
pub struct LoadSplit {
    /// The place.
    pub place: u32,
    /// The most load that it carries in the left child, in load grains; in the right child it carries more.
    pub load: u64,
}

/// How a node is split.
#[derive(Debug, Drop)]
pub enum Divider {
    /// By arcs of a demand.
    Arcs(ArcSplit),
    /// By loads of a place.
    Load(LoadSplit),
}

impl Divider {
    /// The limit of the left child.
    ///
    /// - Errors: want of memory alone.
    pub fn left_limit(&self) -> Result<Limit, AllocError>
        ensures { IfOk result (λ limit. limit ≡ left_limit self.now) }
    {
        Ok(match self {
            Divider::Arcs(split) => Limit::Arcs {
                demand: split.demand,
                arcs: split.left.copy()?,
            },
            Divider::Load(split) => Limit::UpTo {
                place: split.place,
                load: split.load,
            },
        })
    }

    /// The limit of the right child.
    ///
    /// - Errors: want of memory alone.
    pub fn right_limit(&self) -> Result<Limit, AllocError>
        ensures { IfOk result (λ limit. limit ≡ right_limit self.now) }
    {
        Ok(match self {
            Divider::Arcs(split) => Limit::Arcs {
                demand: split.demand,
                arcs: split.right.copy()?,
            },
            Divider::Load(split) => Limit::Above {
                place: split.place,
                load: split.load,
            },
        })
    }
}

/// A split, with its two children.
#[derive(Debug, Drop)]
pub struct Division {
    /// How the node is split.
    pub by: Divider,
    /// The left child.
    pub left_child: BranchId,
    /// The right child.
    pub right_child: BranchId,
}

/// What became of a node.
#[derive(Debug, Drop)]
pub enum Fate {
    /// It is an open leaf.
    Undone,
    /// It is a leaf that this evidence closes.
    ClosedBy(Evidence),
    /// It has two children.
    DividedBy(Division),
}

/// A node: what the splits above it left, its prices, and what became of it.
#[derive(Debug, Drop)]
pub struct BranchNode {
    /// What the splits above it allow less, the last one first.
    pub limits: Items<Limit>,
    /// The prices that it began with or was given last: in thousandths of a cost grain per load
    /// grain, one for each place, and behind them one rate for each cut.
    pub prices: Prices,
    /// What became of it.
    pub fate: Fate,
}
