//! How much dearer a design may be and still be taken: less and less, as the searches are spent.

ghost use Rattle.std.specs.Prelude.{◌≡◌, ◌≤◌, ◌*◌, ◌-◌, ◌/◌, max, min, length};
ghost use Rattle.incumbent.specs.Searches.{search_limit};

use plan_base::Instance;

/// The most searches of one call.
const MOST_SEARCHES: u32 = 50_000;

/// The least that searches are cut down to on a large network.
const LEAST_SEARCHES: u32 = 2_000;

/// The most searches for each demand: a small network needs few.
const SEARCHES_A_DEMAND: u32 = 1_000;

/// How many steps all searches may take, nodes by nodes and arcs.
const WORK: u32 = 2_500_000_000;

/// On networks of more nodes a search takes more steps than nodes by nodes, as paths have more arcs.
const WIDE_NODES: u32 = 256;

/// The first slack is the cost over so many times the count of demands.
const COOL: u32 = 6;

/// How many searches there are, and what each takes from the slack.
#[derive(Clone, Copy)]
pub struct Cooling {
    limit: u32,
    /// In cost grains.
    step: u128,
}

/// How many searches a network is worth.
fn search_limit(inst: &Instance) -> u32
    ensures value { result ≡ search_limit inst.now }
    ensures most { result ≤ MOST_SEARCHES }
{
    let nodes = inst.nodes();
    let wide = nodes.max(WIDE_NODES);
    let work = nodes * nodes * wide / WIDE_NODES + 8 * inst.links();
    let worth = (WORK / work.max(1)).max(LEAST_SEARCHES);
    worth
        .min(SEARCHES_A_DEMAND * inst.demands())
        .min(MOST_SEARCHES)
}

impl Cooling {
    /// The cooling that begins with this cost, in cost grains, for one of so many equal shares of the searches.
    pub fn new(inst: &Instance, cost: u128, shares: u32) -> Cooling
        ensures limit { result.limit ≡ search_limit inst.now / max shares 1 }
        ensures step { result.step ≡ cost / (COOL * max (length inst.now.demands) 1) / max (search_limit inst.now / max shares 1) 1 }
    {
        let limit = search_limit(inst) / shares.max(1);
        let first = cost / u128::from(COOL * inst.demands().max(1));
        Cooling {
            limit,
            step: first / u128::from(limit.max(1)),
        }
    }

    /// How many searches there are.
    pub fn limit(&self) -> u32
        ensures { result ≡ self.now.limit }
    {
        self.limit
    }

    /// How much dearer a design may be after so many searches, in cost grains, times the luck.
    pub fn slack(&self, searches: u32, luck: u32) -> u128
        ensures { result ≡ min (min (self.now.step * (self.now.limit - searches)) u128.MAX * luck) u128.MAX }
    {
        let left = self.limit.saturating_sub(searches);
        self.step
            .saturating_mul(u128::from(left))
            .saturating_mul(u128::from(luck))
    }
}
