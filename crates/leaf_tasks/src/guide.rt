//! What a search goes by beside its state. Whoever takes what it keeps tests it anew.

ghost use Rattle.std.specs.Prelude.{ℕ, ◌≡◌, ◌≢◌, ◌<◌, [], Some, None, length, IfOk, OnOk, option_map};
ghost use Rattle.std.specs.Borrow.{sem};
ghost use Rattle.incumbent.specs.Searches.{IsOpening};
ghost use Rattle.leaf_tasks.specs.Guides.{entry_at, known_in};
ghost use Rattle.leaf_tasks.specs.Lending.{LendsDesigns};
ghost use Rattle.leaf_tasks.specs.LeastPaths.{arc_value, forbids, ArePrices, IsPriced, priced_fault};

use crate::known::{Known, KnownAbove};
use crate::pricing::still_shown;
use crate::trees::Trees;
use incumbent::DesignSearch;
use path_pricing::{Priced, Query};
use plan_base::{BranchId, DemandId};
use std::alloc::{AllocError, Global};
use std::marker::Model;
use std::sync::Arc;

/// What is known of nodes before they are priced, the trees of least paths, and the searches for designs.
#[derive(Drop)]
pub struct Guide {
    alloc: Global,
    designs: DesignSearch,
    /// What the demands found above each node that waits. A child begins with the prices of its parent and forbids
    /// more to one demand alone, so most of it stands there too.
    above: KnownAbove,
    /// What they found above the node that is worked off.
    tried: Option<Arc<Known>>,
    /// What they found last at that node.
    found: Known,
    /// The trees under the version that is priced.
    trees: Trees,
}

impl Model for Guide {
    ghost use Rattle.std.specs.Prelude.{option_map};
    ghost use Rattle.std.specs.Arc.{arc_value};
    ghost use Rattle.leaf_tasks.specs.Guides.{Guided};

    ghost Value = { Guided };

    ghost view = { λ a. record { designs = a.designs; above = a.above; tried = option_map arc_value a.tried; found = a.found } };
}

impl Guide {
    /// Nothing is known of any node, and no design was searched for.
    ///
    /// - Takes: the number of the seat that searches for designs and the count of seats, as `DesignSearch::new` does.
    pub fn new(alloc: Global, seat: u32, seats: u32) -> Guide
        requires { seat < seats }
        ensures designs { IsOpening seat seats result.designs }
        ensures above { result.above ≡ [] }
        ensures tried { result.tried ≡ None }
        ensures found { result.found ≡ [] }
    {
        Guide {
            alloc,
            designs: DesignSearch::new(seat, seats),
            above: KnownAbove::nothing(alloc),
            tried: None,
            found: Known::nothing(alloc),
            trees: Trees::none(alloc),
        }
    }

    /// A node is worked off from now on.
    pub fn begin(&mut self, node: BranchId)
        ensures tried { self.new.tried ≡ entry_at self.old.above node.0 }
        ensures found { self.new.found ≡ [] }
        ensures designs { self.new.designs ≡ self.old.designs }
        ensures forgotten { entry_at self.new.above node.0 ≡ None }
        ensures others { (n : ℕ) → n ≢ node.0 → entry_at self.new.above n ≡ entry_at self.old.above n }
    {
        self.tried = self.above.take(node);
        self.found = Known::nothing(self.alloc);
    }

    /// What the demand found above the node that is worked off, where that is known.
    fn tried(&self, demand: DemandId) -> Option<&Arc<Priced>>
        ensures { option_map (λ found. arc_value found.now) result ≡ known_in self.now.tried demand.0 }
    {
        match &self.tried {
            Some(known) => known.of(demand),
            None => None,
        }
    }

    /// What the demand found last: under an earlier version at the node that is worked off, or above it.
    fn known(&self, demand: DemandId) -> Option<&Arc<Priced>> {
        match self.found.of(demand) {
            Some(found) => Some(found),
            None => self.tried(demand),
        }
    }

    /// A least path of the demand under the prices of a version, or a set that shows that it has none. What is known is
    /// taken where it still shows this, else the path in the tree of the demand's source, which is grown once under a
    /// version; where the demand may not take that path, it is searched alone.
    ///
    /// - Errors: want of memory alone.
    /// - Rule: docs/METHOD.md, "The search in one thread".
    pub fn find(&mut self, query: Query<'_>, version: u64) -> Result<Arc<Priced>, AllocError>
        requires prices { ArePrices query.inst.now query.prices.now }
        requires demand { query.demand.0 < length query.inst.now.demands }
        ensures least { IfOk result (λ found. IsPriced query.entry.inst.now query.entry.prices.now query.entry.demand.0 (forbids query.entry.restriction.now) (arc_value found)) }
        ensures accepted { IfOk result (λ found. priced_fault query.entry.inst.now query.entry.prices.now query.entry.demand.0 (forbids query.entry.restriction.now) (arc_value found) ≡ None) }
        ensures unchanged { self.new ≡ self.old }
    {
        let known = self.known(query.demand);
        if let Some(found) = still_shown(query, known)? {
            return Ok(found);
        }
        self.trees.find(query, version)
    }

    /// Keeps what the demand has found at the node that is worked off.
    ///
    /// - Errors: want of memory alone.
    pub fn keep(&mut self, demand: DemandId, found: Arc<Priced>) -> Result<(), AllocError>
        ensures kept { OnOk result (entry_at self.new.found demand.0 ≡ Some (arc_value found)) }
        ensures others { (k : ℕ) → k ≢ demand.0 → entry_at self.new.found k ≡ entry_at self.old.found k }
        ensures above { self.new.above ≡ self.old.above }
        ensures tried { self.new.tried ≡ self.old.tried }
        ensures designs { self.new.designs ≡ self.old.designs }
    {
        self.found.keep(demand, found)
    }

    /// What is known above the nodes that still wait.
    pub fn into_above(self) -> KnownAbove
        ensures { result ≡ self.above }
    {
        self.above
    }

    /// The searches for designs.
    pub fn designs(&mut self) -> &mut DesignSearch
        ensures value { result.now ≡ self.old.designs }
        ensures* writes_back { sem 𝓛 (LendsDesigns self.entry result) }
    {
        &mut self.designs
    }

    /// Keeps what was found at the node that is worked off for its two children.
    ///
    /// - Errors: want of memory alone.
    pub fn divide(&mut self, left: BranchId, right: BranchId) -> Result<(), AllocError>
        ensures left { OnOk result (entry_at self.new.above left.0 ≡ Some self.old.found) }
        ensures right { OnOk result (entry_at self.new.above right.0 ≡ Some self.old.found) }
        ensures found { OnOk result (self.new.found ≡ []) }
        ensures tried { self.new.tried ≡ self.old.tried }
        ensures designs { self.new.designs ≡ self.old.designs }
        ensures others { (n : ℕ) → n ≢ left.0 → n ≢ right.0 → entry_at self.new.above n ≡ entry_at self.old.above n }
    {
        let none = Known::nothing(self.alloc);
        let found = Arc::new(self.alloc, std::mem::replace(&mut self.found, none))?;
        self.above.put(left, found.clone()?)?;
        self.above.put(right, found)
    }
}
