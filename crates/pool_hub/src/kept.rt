//! What lies under the lock.

ghost use Rattle.std.specs.Prelude.{◌≡◌, ◌+◌, ◌<◌};
ghost use Rattle.pool_desk.specs.Events.{OfferStep, accepted_by, IsSearchState};

use crate::naming::Naming;
use pool_core::{Offer, Offered, Pool};
use pool_desk::Desk;
use std::sync::Wait;
use std::sync::ledger::{Book, Share};

/// A desk of the search that the type names, and the book of all paths that its pool accepted.
#[derive(Drop)]
pub struct Kept<N: Naming, R: Wait + Drop> {
    pub(crate) desk: Desk<N, R>,
    pub(crate) offers: Book<N>,
    ghost counted: { desk.pool.accepted ≡ offers.total },
}

impl<N: Naming, R: Wait + Drop> Kept<N, R> {
    /// An offer, which is booked in the share where it is accepted.
    pub fn offer(&mut self, offer: Offer, mine: &mut Share<N>) -> Offered
        requires part { 0 < mine.old.parts }
        ensures search { IsSearchState N.problem N.cuts N.budget self.old.desk.pool }
        ensures event { OfferStep self.old.desk.pool offer result self.new.desk.pool }
        ensures board { self.new.desk.board ≡ self.old.desk.board }
        ensures booked { mine.new.amount ≡ mine.old.amount + accepted_by result }
        ensures parts { mine.new.parts ≡ mine.old.parts }
    {
        let answer = self.desk.offer(offer);
        if let Offered::Accepted { left: _left } = answer {
            self.offers.add(mine, 1);
        }
        answer
    }

    /// The pool, which has accepted what the whole share says. The board has ended.
    pub fn end(self, mut all: Share<N>) -> Pool
        requires whole { all.parts ≡ N.parts }
        ensures pool { result ≡ self.desk.pool }
        ensures accepted { result.accepted ≡ all.amount }
        ensures search { IsSearchState N.problem N.cuts N.budget result }
    {
        let Kept { desk, mut offers } = self;
        offers.audit(&mut all);
        desk.end()
    }
}
