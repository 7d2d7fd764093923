//! Further versions of the prices of a node.

ghost use Rattle.std.specs.Prelude.{◌≡◌, ◌<◌, ◌↔◌, ◌||◌, IsTrue, IfOk, IfErr, int_lt};
ghost use Rattle.search_machine.specs.declared.answers.Publish.TheVariants as publish;
ghost use Rattle.cut_values.specs.Numbers.{AreNumbers};
ghost use Rattle.search_machine.specs.Publishing.{IsCrowding, PublishStep};
ghost use Rattle.search_machine.specs.declared.limits.TheConstants.{MAX_ROUNDS};
ghost use Rattle.search_view.specs.Views.{HasWidthOf};
ghost use Rattle.search_view.specs.Valuing.{IsGatheredAt, ForRound};
ghost use Rattle.pool_core.specs.Valuing.{MayReplace, HasNoGain};
ghost use Rattle.pool_core.specs.Foretold.{IsFollowing, IfPublished};

use super::Pool;
use super::following::Following;
use plan_base::{BranchId, Prices};
use search_machine::Publish;
use search_view::are_crowd_prices;

fn is_less(old: i128, new: i128) -> bool
    ensures { result ≡ int_lt old new }
{
    old < new
}

fn either(one: bool, other: bool) -> bool
    ensures { result ≡ (one || other) }
{
    one || other
}

impl Pool {
    /// Whether the node's round is stalled, and the prices are its crowd prices.
    fn is_crowding(&mut self, node: BranchId, prices: &Prices) -> bool
        requires gathered { IsGatheredAt self.old node }
        requires prices { AreNumbers self.old.problem self.old.cuts prices.now }
        ensures unchanged { self.new ≡ self.old }
        ensures value { ForRound self.old node (λ x round. IsTrue result ↔ IsCrowding self.old x round prices.now) }
    {
        if are_crowd_prices(
            &*self.state.problem,
            self.view().round_at(node).prices(),
            prices,
        ) {
            return self.gain(node).is_none();
        }
        false
    }

    /// The node's mark that its crowd prices were tried, when these prices follow; where they may not, the restricted
    /// values of the round's prices and of these.
    fn mark_after(&mut self, node: BranchId, prices: &Prices) -> Result<bool, (i128, i128)>
        requires gathered { IsGatheredAt self.old node }
        requires prices { AreNumbers self.old.problem self.old.cuts prices.now }
        ensures unchanged { self.new ≡ self.old }
        ensures follows { IfOk result (λ mark. ForRound self.old node (λ x round. MayReplace self.old x round prices.now mark)) }
        ensures no_gain { IfErr result (λ both. ForRound self.old node (λ x round. HasNoGain self.old x round prices.now both.0 both.1)) }
    {
        let tried = self.state.nodes[node.0 as usize].crowd_tried();
        let view = self.view();
        let old = view.value(node, view.round_at(node).prices());
        let new = view.value(node, prices);
        let crowding = self.is_crowding(node, prices);
        if is_less(old, new) {
            return Ok(either(tried, crowding));
        }
        if tried {
            return Err((old, new));
        }
        if crowding {
            return Ok(true);
        }
        Err((old, new))
    }

    /// The version that these prices would have in the node's round; or, where `publish` refuses them, what it answers.
    /// Takes no memory.
    ///
    /// - Takes: what `publish` takes.
    pub fn following(
        &mut self,
        node: BranchId,
        seen: u64,
        prices: &Prices,
    ) -> Result<Following, Publish>
        ensures unchanged { self.new ≡ self.old }
        ensures follows { IfOk result (IsFollowing self.old node seen prices.now) }
        ensures refused { IfErr result (λ refusal. PublishStep self.old node seen prices.now refusal self.old) }
        ensures no_success { IfErr result (λ refusal. IfPublished refusal (λ slot version. ⊥)) }
        ensures slot { IfOk result (λ next. next.slot < MAX_ROUNDS) }
        ensures count { IfOk result (λ next. HasWidthOf self.old prices.now) }
    {
        if let Some(refusal) = self.view().publish_refusal(node, seen, prices) {
            return Err(refusal);
        }
        let crowd_tried = match self.mark_after(node, prices) {
            Ok(crowd_tried) => crowd_tried,
            Err((old, new)) => return Err(Publish::NoGain { old, new }),
        };
        let slot = self.view().round_at(node).slot();
        Ok(Following {
            slot,
            version: self.state.next_version,
            crowd_tried,
        })
    }

    /// Publishes prices that `following` let through, and the pool has not changed since. Takes no memory.
    ///
    /// - Takes: what `following` was given, and what it gave.
    /// - Rule: docs/METHOD.md, "The search as a machine".
    pub fn publish_following(&mut self, node: BranchId, seen: u64, prices: &Prices, next: Following)
        requires { IsFollowing self.old node seen prices.now next }
        ensures { PublishStep self.old node seen prices.now (publish.Published next.slot next.version) self.new }
    {
        let version = self.state.next_version;
        let renewed = &mut self.state.nodes[node.0 as usize];
        renewed.renew(version, prices, next.crowd_tried);
        let ranges = self.state.grounds[node.0 as usize].ranges().unwrap();
        renewed.complete(&*self.state.problem, &*self.state.table, &**ranges);
        self.state.next_version = version + 1;
    }

    /// Gives the round of a node further prices, under which no demand is priced. Takes no memory.
    ///
    /// - Takes: the version of its round; the prices, in thousandths of a cost grain per load grain, and behind them the
    ///   rates, in thousandths of a cost grain per counted grain.
    /// - Gives: in this order, `Spent` where the budget is spent; `Stale` where the node has no round of the version;
    ///   `Settled` where it is settled; `Incomplete` with the first demand that is not priced; `Rounds` where 16 versions
    ///   were complete; `PriceCount` where there is not one price for each place and one rate for each cut; `OverPrice`
    ///   with the link of the first place whose price is above the price limit; `Unlawful` where a price and the rates of
    ///   the cuts that its place crosses are together above the limit, or a price is below the routing cost where such a
    ///   rate is above 0, or a rate is above the limit; `Ungathered` with the first demand whose path is none of its
    ///   columns; `NoGain` where the prices have no greater restricted value than the round's, and are not the crowd prices
    ///   of a stalled round that are tried for the first time; else `Published` with the slot and the version.
    /// - Rule: docs/METHOD.md, "The search as a machine".
    pub fn publish(&mut self, node: BranchId, seen: u64, prices: &Prices) -> Publish
        ensures event { PublishStep self.old node seen prices.now result self.new }
    {
        match self.following(node, seen, prices) {
            Ok(next) => {
                self.publish_following(node, seen, prices, next);
                Publish::Published {
                    slot: next.slot,
                    version: next.version,
                }
            }
            Err(refusal) => refusal,
        }
    }
}
