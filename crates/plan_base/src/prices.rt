//! Prices of places.

ghost use Rattle.std.specs.Prelude.{◌≡◌, ◌<◌, ◌≤◌, ◌↔◌, length, slice_index, slice_set, All, IfOk, IsTrue};
ghost use Rattle.plan_base.specs.Facts.{price_limit};
ghost use Rattle.plan_base.specs.Places.{places, there_of, back_of};

use crate::both::both_of;
use crate::ids::LinkId;
use crate::instance::Instance;
use std::alloc::AllocError;
use std::marker::Model;

/// One price for each place, in thousandths of a cost grain per load grain.
///
/// Nothing is asked of it: `fits` tells whether the prices are those of an instance.
#[derive(Debug, Drop)]
pub struct Prices {
    numerators: Vec<u128>,
}

/// The prices of the places of a link, in thousandths of a cost grain per load grain.
#[derive(Clone, Copy, Debug)]
pub struct LinkPrices {
    /// That of its place.
    pub there: u128,
    /// That of its other place, the one of its arc back, and 0 where it has one place.
    pub back: u128,
}

impl LinkPrices {
    /// The prices of a link's places, from those of all places, behind which other numbers may stand. Takes no memory.
    ///
    /// - Rule: docs/DEFINITIONS.md, "Places".
    /// - Time: constant.
    pub fn of_link(inst: &Instance, numbers: &[u128], link: LinkId) -> LinkPrices
        requires numbers { places inst.now ≤ length numbers.now }
        requires link { link.0 < length inst.now.links }
        ensures there { result.there ≡ there_of inst.now (slice_index numbers.now) link.0 }
        ensures back { result.back ≡ back_of inst.now (slice_index numbers.now) link.0 }
    {
        let (there, back) = both_of(inst, numbers, link);
        LinkPrices { there, back }
    }
}

impl Model for Prices {
    ghost use Rattle.std.specs.Prelude.{List, ℕ};

    ghost Value = { List ℕ };

    ghost view = { λ a. a.numerators.items };
}

impl Prices {
    /// The same prices, in the order of the places. Takes no memory.
    pub fn from_vec(numerators: Vec<u128>) -> Self
        ensures { result ≡ numerators.items }
    {
        Prices { numerators }
    }

    /// The same prices. Takes no memory.
    pub fn into_vec(self) -> Vec<u128>
        ensures { result.items ≡ self }
    {
        self.numerators
    }

    /// The prices as a slice.
    pub fn as_slice(&self) -> &[u128]
        ensures value { result.now ≡ self.now }
        ensures len { length result.now ≡ length self.now }
    {
        self.numerators.as_slice()
    }

    /// The same prices.
    ///
    /// - Errors: want of memory alone.
    /// - Time: linear in the prices.
    pub fn copy(&self) -> Result<Prices, AllocError>
        ensures { IfOk result (λ prices. prices ≡ self.now) }
    {
        Ok(Prices {
            numerators: self.numerators.clone()?,
        })
    }

    /// Copies other prices over these. Takes no memory.
    ///
    /// - Takes: as many prices as there are here.
    /// - Time: linear in the prices.
    pub fn set_to(&mut self, other: &Prices)
        requires { length other.now ≡ length self.old }
        ensures { self.new ≡ other.now }
    {
        self.numerators
            .as_mut_slice()
            .copy_from_slice(other.as_slice());
    }

    /// Puts another price for one place. Takes no memory.
    ///
    /// - Takes: a place that there is a price for; a price in thousandths of a cost grain per load grain.
    /// - Time: constant.
    pub fn put(&mut self, place: u32, price: u128)
        requires { place < length self.old }
        ensures { self.new ≡ slice_set self.old place price }
    {
        self.numerators[place as usize] = price;
    }

    /// The prices of the places of a link. Takes no memory.
    ///
    /// - Takes: an instance with one price for each place; a link of it.
    /// - Rule: docs/DEFINITIONS.md, "Places".
    /// - Time: constant.
    pub fn of_link(&self, inst: &Instance, link: LinkId) -> LinkPrices
        requires count { length self.now ≡ places inst.now }
        requires link { link.0 < length inst.now.links }
        ensures there { result.there ≡ there_of inst.now (slice_index self.now) link.0 }
        ensures back { result.back ≡ back_of inst.now (slice_index self.now) link.0 }
    {
        LinkPrices::of_link(inst, self.as_slice(), link)
    }

    /// Whether there is one price for each place and none is above the price limit.
    ///
    /// - Rule: docs/DEFINITIONS.md, "Instances".
    /// - Time: linear in the prices. Takes no memory.
    pub fn fits(&self, inst: &Instance) -> bool
        ensures { IsTrue result
            ↔ (length self.now ≡ places inst.now) × All (λ x. x ≤ price_limit inst.now) self.now }
    {
        let limit = inst.price_limit();
        self.numerators.len() == inst.places() as usize
            && self.numerators.iter().all(|price| *price <= limit)
    }
}
