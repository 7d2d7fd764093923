//! Different price lists, numbered in the order in which they came.

use indexmap::IndexSet;
use std::alloc::{AllocError, Global};
use std::marker::Model;

/// Different price lists, in the order in which they came.
#[derive(Drop)]
pub(crate) struct Lists {
    lists: IndexSet<Vec<u128>>,
}

impl Model for Lists {
    ghost use Rattle.std.specs.Prelude.{List, ℕ, map};
    ghost use Rattle.indexmap.specs.IndexSet.{keys};

    ghost Value = { List (List ℕ) };

    ghost view = { λ a. map (λ list. list.items) (keys a.lists) };
}

impl Lists {
    ghost use Rattle.std.specs.Prelude.{◌≡◌, ◌++◌, ◌∷◌, [], length, false, slice_get, IfOk};
    ghost use Rattle.cert_format.specs.Lists.{is_among, place_in, number_in, with_list};
    ghost use Rattle.plan_tokens.specs.Cuts.{found_now};

    /// No lists. Takes no memory.
    pub(crate) fn new(alloc: Global) -> Self
        ensures { result ≡ [] }
    {
        Lists {
            lists: IndexSet::new(alloc),
        }
    }

    /// How many lists there are.
    #[tactic(auto, using(crate::proofs::ListSets::length_viewed))]
    pub(crate) fn len(&self) -> usize
        ensures { result ≡ length self.now }
    {
        self.lists.len()
    }

    /// Whether this is one of the lists.
    #[tactic(auto, using(crate::proofs::ListSets::any_viewed))]
    pub(crate) fn has(&self, prices: &[u128]) -> bool
        ensures { result ≡ is_among self.now prices.now }
    {
        self.lists.get_index_of(prices).is_some()
    }

    /// The number of this list, where it is one of the lists.
    #[tactic(auto, using(crate::proofs::ListSets::position_viewed), unfolding(crate::specs::Lists::place_in))]
    fn place_of(&self, prices: &[u128]) -> Option<usize>
        ensures { result ≡ place_in self.now prices.now }
    {
        self.lists.get_index_of(prices)
    }

    /// The number of this list, or the count of lists where it is none of them.
    #[tactic(auto, using(crate::proofs::ListSets::number_found, crate::proofs::ListSets::number_lost))]
    pub(crate) fn number_of(&self, prices: &[u128]) -> usize
        ensures { result ≡ number_in self.now prices.now }
    {
        match self.place_of(prices) {
            Some(number) => number,
            None => self.len(),
        }
    }

    /// The list of this number.
    #[tactic(auto, using(crate::proofs::ListSets::at_some, crate::proofs::ListSets::at_none))]
    pub(crate) fn get(&self, number: usize) -> Option<&[u128]>
        ensures { found_now result ≡ slice_get self.now number }
    {
        match self.lists.get_index(number) {
            Some(list) => Some(list.as_slice()),
            None => None,
        }
    }

    /// One list more, which is none of the lists yet.
    pub(crate) fn push(&mut self, list: Vec<u128>) -> Result<(), AllocError>
        requires { is_among self.old list.items ≡ false }
        ensures { IfOk result (λ _. self.new ≡ self.old ++ list.items ∷ []) }
    {
        self.lists.insert(list)?;
        Ok(())
    }

    /// One list more, where it is none of the lists yet.
    pub(crate) fn note(&mut self, alloc: Global, prices: &[u128]) -> Result<(), AllocError>
        ensures { IfOk result (λ _. self.new ≡ with_list self.old prices.now) }
    {
        if self.has(prices) {
            return Ok(());
        }
        self.push(Vec::from_slice(alloc, prices)?)
    }
}
