//! Rooms for the rates of a link's places.

ghost use Rattle.std.specs.Prelude.{◌≡◌, ◌<◌, ◌≤◌, [], ◌++◌, ◌∷◌, length};
ghost use Rattle.proof_tree.specs.declared.limits.TheConstants.{MAX_CUTS};
ghost use Rattle.cut_values.specs.Crossings.{used, AreNumbered};

use crate::crossing::Crossing;
use link_steps::{Batch, Rated};
use proof_tree::limits::MAX_CUTS;
use std::marker::Model;

/// Room for the rates of one place, which contracts see as the list of those that are in it.
#[derive(Drop)]
pub struct RatedRow {
    items: [Rated; MAX_CUTS],
    count: usize,
}

impl Model for RatedRow {
    ghost use Rattle.std.specs.Prelude.{List, take};
    ghost use Rattle.link_steps.specs.declared.rated.Rated.{Rated};
    ghost use Rattle.cut_values.specs.Crossings.{IsRoom};

    ghost Value = { List Rated };

    ghost view = { λ a. take a.count a.items };

    ghost invariant = { λ a. IsRoom a.items a.count };
}

impl RatedRow {
    /// No rates.
    fn new() -> RatedRow
        ensures { result ≡ [] }
    {
        let batch = Batch {
            period: 1,
            first: 1,
            before: 0,
            rest: 0,
        };
        RatedRow {
            items: [Rated { batch, rate: 0 }; MAX_CUTS],
            count: 0,
        }
    }

    /// Takes all rates out.
    pub fn clear(&mut self)
        ensures { self.new ≡ [] }
    {
        self.count = 0;
    }

    /// Puts a rate behind the others.
    fn add(&mut self, item: Rated)
        requires { length self.old < MAX_CUTS }
        ensures { self.new ≡ self.old ++ (item ∷ []) }
    {
        self.items[self.count] = item;
        self.count += 1;
    }

    /// The rates as a slice.
    pub fn as_slice(&self) -> &[Rated]
        ensures { result.now ≡ self.now }
    {
        &self.items[..self.count]
    }
}

/// Puts those cuts of a place's row whose rate is above 0, each with its rate, over what a row of rates has.
pub fn put_used(list: &mut RatedRow, row: &[Crossing], rates: &[u128])
    requires few { length row.now ≤ MAX_CUTS }
    requires rates { AreNumbered (length rates.now) row.now }
    ensures { list.new ≡ used rates.now row.now }
{
    list.clear();
    for crossing in row {
        let rate = rates[crossing.number as usize];
        if rate > 0 {
            list.add(Rated {
                batch: crossing.batch,
                rate,
            });
        }
    }
}

/// Room for the rates of the places of one link, made once for a loop over links. What it has tells nothing.
#[derive(Drop)]
pub struct RatedRows {
    /// Those of the link's place.
    pub there: RatedRow,
    /// Those of its other place.
    pub back: RatedRow,
}

/// Room that nothing is in.
pub fn empty_rows() -> RatedRows {
    RatedRows {
        there: RatedRow::new(),
        back: RatedRow::new(),
    }
}
