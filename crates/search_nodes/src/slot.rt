//! The slots of rounds: each is free with a place for a round, or names the node whose round has it.

ghost use Rattle.std.specs.Prelude.{◌≡◌, ◌<◌, IfSome, length, slice_get, count_by};
ghost use Rattle.search_nodes.specs.Slots.{is_free, holder_in, given_back, IsFirstFree};

use crate::round::PoolRound;
use plan_base::BranchId;

/// A slot: free with the place of its next round, or taken.
#[derive(Drop)]
pub enum Slot {
    /// No round has it.
    Free(PoolRound),
    /// The round of this node has it.
    Of(BranchId),
}

impl Slot {
    /// Whether no round has it.
    pub fn is_free(&self) -> bool
        ensures { result ≡ is_free self.now }
    {
        match self {
            Slot::Free(_) => true,
            Slot::Of(_) => false,
        }
    }
}

/// How many slots are free.
pub fn free_count(places: &[Slot]) -> usize
    ensures { result ≡ count_by is_free places.now }
{
    places.iter().filter(|place| place.is_free()).count()
}

/// The first place that is free.
pub fn first_free(places: &[Slot]) -> usize
    requires { 0 < count_by is_free places.now }
    ensures { IsFirstFree places.now result }
{
    for (slot, place) in places.iter().enumerate() {
        if place.is_free() {
            return slot;
        }
    }
    0
}

/// The node whose round has the slot.
pub fn holder(places: &[Slot], slot: u32) -> Option<BranchId>
    ensures { result ≡ holder_in (slice_get places.now slot) }
{
    match places.get(slot as usize) {
        Some(Slot::Of(node)) => Some(*node),
        _ => None,
    }
}

/// Puts the place of a round that has ended back into its slot. Takes no memory.
pub fn give_back(places: &mut Vec<Slot>, round: Option<PoolRound>)
    requires { IfSome round (λ r. r.slot < length places.old.items) }
    ensures { places.new.items ≡ given_back places.old.items round }
{
    if let Some(place) = round {
        let slot = place.slot() as usize;
        places[slot] = Slot::Free(place);
    }
}
