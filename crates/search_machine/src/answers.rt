//! What the pool is asked and what it answers.

use column_pool::Brief;
use path_pricing::{Priced, Unfit};
use plan_base::{BranchId, DemandId, LinkId};

/// What a node is. A node that waits or is active is an open leaf.
#[derive(Clone, Copy, Debug, PartialEq, Eq)]
pub enum NodeState {
    /// There is no node of this number.
    Unknown,
    /// An open leaf without a round.
    Waiting,
    /// An open leaf with a round.
    Active,
    /// It is divided, and has two children.
    Divided,
    /// A leaf that is closed by evidence.
    Closed,
}

/// The round that a node has got.
#[derive(Clone, Copy, Debug, PartialEq, Eq)]
pub struct Opened {
    /// Its slot, 0 to 63: the lowest that was free.
    pub slot: u32,
    /// The version of its prices; no other round has had it.
    pub version: u64,
}

/// Why a round is not opened: the first of these causes.
#[derive(Clone, Copy, Debug, PartialEq, Eq)]
pub enum RoundFault {
    /// The budget is spent: so many nodes are examined.
    Spent { examined: u32 },
    /// The node does not wait.
    NotOpen { state: NodeState },
    /// No slot is free: so many rounds are active, 64.
    Crowded { active: u32 },
}

/// What was found for a demand under a version of a node's prices.
#[derive(Debug, Drop)]
pub struct Offer {
    /// The node of the search tree.
    pub node: BranchId,
    /// The version of the prices under which the demand was priced.
    pub version: u64,
    /// The demand.
    pub demand: DemandId,
    /// A least path with what shows it, or a set that shows that the demand has no path.
    pub found: Priced,
}

/// What becomes of an offer: the first refusal in this order, or what was taken.
#[derive(Clone, Copy, Debug, PartialEq, Eq)]
pub enum Offered {
    /// The budget is spent: so many nodes are examined.
    Spent { examined: u32 },
    /// The node has no round of this version; the version of its round, if it has one.
    Stale { current: Option<u64> },
    /// There is no such demand: the instance has so many.
    NoDemand { demands: u32 },
    /// The demand is priced in this round, or the node has a cut.
    Already,
    /// What was found does not show what it says: its first fault.
    Unfit(Unfit),
    /// The set is the node's cut now.
    CutTaken,
    /// The path is in the round now; so many demands are left to price.
    Accepted { left: u32 },
}

/// What becomes of a gathering: the first refusal in this order, or what a master step is told.
#[derive(Debug, Drop)]
pub enum Gather {
    /// The budget is spent: so many nodes are examined.
    Spent { examined: u32 },
    /// The node has no round of this version; the version of its round, if it has one.
    Stale { current: Option<u64> },
    /// The first demand that the round has not priced.
    Incomplete { demand: DemandId },
    /// The paths of the round are columns now; this is what a master step is told.
    Taken(Brief),
}

/// What becomes of prices that are published for a node: the first refusal in this order, or the round that has them. With
/// the prices of places, published prices have behind them the rates of the search's cuts.
#[derive(Clone, Copy, Debug, PartialEq, Eq)]
pub enum Publish {
    /// The budget is spent: so many nodes are examined.
    Spent {
        examined: u32,
    },
    /// The node has no round of the version seen; the version of its round, if it has one.
    Stale {
        current: Option<u64>,
    },
    /// The node is settled.
    Settled,
    /// The first demand that the round has not priced.
    Incomplete {
        demand: DemandId,
    },
    /// So many versions of the node were complete, 16: it has no further one.
    Rounds {
        done: u32,
    },
    /// There is not one price for each place and one rate for each cut: so many numbers are needed.
    PriceCount {
        needed: u32,
    },
    /// The link of the first place whose price is above the price limit.
    OverPrice {
        link: LinkId,
    },
    /// A price and the rates of the cuts that its place crosses are together above the price limit, or a price is below a
    /// thousand routing costs of the place's link where such a rate is above 0, or a rate is above the limit. Without cuts
    /// it never arises.
    Unlawful,
    /// The first demand whose path in the round is none of its columns.
    Ungathered {
        demand: DemandId,
    },
    /// The prices with their rates have no greater restricted value than the round's, and are not the crowd prices of a
    /// stalled round that are tried for the first time. Both in thousandths of a cost grain.
    NoGain {
        /// The restricted value of the round's prices.
        old: i128,
        /// The restricted value of these.
        new: i128,
    },
    /// The round is empty and has these prices.
    Published {
        /// Its slot, 0 to 63, which is as before.
        slot: u32,
        /// The version of its prices; no other round has had it.
        version: u64,
    },
}

/// What becomes of a settling: the first refusal in this order, or that it is done.
#[derive(Clone, Copy, Debug, PartialEq, Eq)]
pub enum Settle {
    /// The budget is spent: so many nodes are examined.
    Spent {
        examined: u32,
    },
    /// The node has no round of this version; the version of its round, if it has one.
    Stale {
        current: Option<u64>,
    },
    /// The first demand that the round has not priced.
    Incomplete {
        demand: DemandId,
    },
    /// The first demand whose path in the round is none of its columns.
    Ungathered {
        demand: DemandId,
    },
    /// A master step gains, and the node's crowd prices were not tried. Both in thousandths of a cost grain.
    Improves {
        /// The restricted value of the round's prices.
        old: i128,
        /// What a master step raises it to.
        new: i128,
    },
    /// No further version of the node is published.
    Done,
}

/// What becomes of a closing: the first refusal in this order, or that the leaf is closed.
#[derive(Clone, Copy, Debug, PartialEq, Eq)]
pub enum Closing {
    /// The budget is spent: so many nodes are examined.
    Spent {
        examined: u32,
    },
    /// The node is no open leaf.
    NotOpen {
        state: NodeState,
    },
    /// The leaf is closed.
    Closed,
    /// The leaf is not closable.
    Weak {
        /// Its recorded bound, in cost grains; None where no version was complete.
        bound: Option<i128>,
        /// The cost of the best design, in cost grains; None where there is none.
        cutoff: Option<u128>,
    },
}

/// What an examination has made of an open leaf.
#[derive(Clone, Copy, Debug, PartialEq, Eq)]
pub enum Examined {
    /// Its cut has closed it.
    Cut,
    /// It is divided into these two nodes.
    Divided { left: BranchId, right: BranchId },
    /// No path of the demand keeps its limit, and each demand before it has one that does; that has closed it.
    Far { demand: DemandId },
    /// Each demand has one path, and a link cannot carry them or a place's load is outside its range; that has closed it.
    Overfull,
    /// Each demand has one path, and they can be carried with loads in their ranges; that has closed it.
    Routed,
}

/// Why a node is not examined: the first of these causes, or want of memory.
#[derive(Clone, Copy, Debug, PartialEq, Eq)]
pub enum ExamineFault {
    /// The budget is spent: so many nodes are examined.
    Spent {
        examined: u32,
    },
    /// The node is no open leaf.
    NotOpen {
        state: NodeState,
    },
    /// No version of it was ever complete.
    Unpriced,
    /// `close_by_bound` closes it.
    Closable {
        /// Its recorded bound, in cost grains.
        bound: i128,
        /// The cost of the best design, in cost grains; None where there is none.
        cutoff: Option<u128>,
    },
    /// It is not settled, and fewer than 16 of its versions were complete: so many.
    Unsettled {
        done: u32,
    },
    /// Memory was wanting; nothing has changed.
    OutOfMemory,
}

/// What becomes of a design that is handed in, which is feasible and in shape. Costs are in cost grains.
#[derive(Clone, Copy, Debug, PartialEq, Eq)]
pub enum Better {
    /// It is the best design now, at this cost.
    Taken { cost: u128 },
    /// It costs no less than the one that is held.
    NotLess { cost: u128, held: u128 },
}
