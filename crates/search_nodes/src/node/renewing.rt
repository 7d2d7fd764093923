//! Further versions of the prices of a node.

ghost use Rattle.std.specs.Prelude.{◌≡◌, None, Some, length, replicate, IfSome, IsSomeAnd};

use super::PoolNode;
use plan_base::Prices;

impl PoolNode {
    /// Whether its crowd prices were tried.
    pub fn crowd_tried(&self) -> bool
        ensures { result ≡ self.now.crowd_tried }
    {
        self.crowd_tried
    }

    /// Empties the node's round, and gives it this version and these prices. Takes no memory.
    ///
    /// - Takes: whether its crowd prices were tried.
    pub fn renew(&mut self, version: u64, prices: &Prices, crowd_tried: bool)
        requires { IsSomeAnd self.old.round (λ round. length prices.now ≡ length round.prices) }
        ensures { IfSome self.old.round (λ round. self.new ≡ record self.old {
          crowd_tried = crowd_tried;
          round = Some (record { slot = round.slot; version = version; prices = prices.now; found = replicate (length round.found) None });
        }) }
    {
        self.crowd_tried = crowd_tried;
        if let Some(round) = &mut self.round {
            round.restart(version, prices);
        }
    }
}
