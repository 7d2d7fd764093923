//! Offers: priced demands, and sets that show that a demand has no path.

ghost use Rattle.std.specs.Prelude.{◌≡◌, None};
ghost use Rattle.search_machine.specs.Offering.{offer_fault, OfferStep};

use super::Pool;
use path_pricing::Priced;
use search_machine::{Found, HeldCut, Offer, Offered};

impl Pool {
    /// Takes what was found for a demand under a version of a node. Takes no memory.
    ///
    /// - Gives: in this order, `Spent` where the budget is spent; `Stale` where the node has no round of the
    ///   version; `NoDemand` where there is no such demand; `Already` where it is priced there or the node has a
    ///   cut; `Unfit` with the first fault of what was found; else `CutTaken` where it is a set, and `Accepted`
    ///   with the count of demands that are left where it is a path.
    /// - Rule: docs/METHOD.md, "The search as a machine".
    pub fn offer(&mut self, offer: Offer) -> Offered
        ensures event { OfferStep self.old offer result self.new }
    {
        if let Some(refusal) = self.view().offer_refusal(&offer) {
            return refusal;
        }
        self.take(offer)
    }

    /// Takes an offer that is not refused, without testing it again. Takes no memory.
    pub(super) fn take(&mut self, offer: Offer) -> Offered
        requires { offer_fault self.old offer ≡ None }
        ensures event { OfferStep self.old offer result self.new }
    {
        let Offer {
            node,
            version: _version,
            demand,
            found,
        } = offer;
        let priced = &mut self.state.nodes[node.0 as usize];
        match found {
            Priced::NoPath { reached } => {
                priced.hold_cut(HeldCut { demand, reached });
                Offered::CutTaken
            }
            Priced::Path {
                path,
                length,
                potentials: _potentials,
            } => {
                let found = Found {
                    path,
                    price: length,
                };
                let ranges = self.state.grounds[node.0 as usize].ranges().unwrap();
                let left = priced.put(
                    demand,
                    found,
                    &*self.state.problem,
                    &*self.state.table,
                    &**ranges,
                );
                self.state.accepted += 1;
                Offered::Accepted { left }
            }
        }
    }
}
