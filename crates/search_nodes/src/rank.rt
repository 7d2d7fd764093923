//! By what open leaves are chosen, and the lesser of two bounds. No contract of a search rests on the choice.

ghost use Rattle.std.specs.Prelude.{◌≡◌, ◌<◌, ◌^◌, ◌↔◌, Some, None, MatchOption, IsTrue};
ghost use Rattle.search_nodes.specs.Ranks.{ComesBefore, lesser_of};

/// By what an open leaf is chosen.
#[derive(Clone, Copy, Debug)]
pub struct Rank {
    /// The bound that is recorded of it or else of its parent, in cost grains; None where there is neither.
    pub bound: Option<i128>,
    /// How many splits are above it.
    pub depth: u32,
}

/// The first bound where there is one, else the second.
pub(crate) fn either(bound: Option<i128>, other: Option<i128>) -> Option<i128>
    ensures { MatchOption bound (result ≡ other) (λ known. result ≡ Some known) }
{
    match bound {
        Some(_) => bound,
        None => other,
    }
}

/// The lesser of two bounds, where there are any.
pub fn lesser(bound: Option<i128>, other: Option<i128>) -> Option<i128>
    ensures { result ≡ lesser_of bound other }
{
    match (bound, other) {
        (Some(bound), Some(other)) => Some(if other < bound { other } else { bound }),
        (Some(bound), None) => Some(bound),
        (None, other) => other,
    }
}

/// So many splits, up to the greatest number.
pub(crate) fn depth_below(splits: usize) -> u32
    ensures { splits < 2 ^ 32 → result ≡ splits }
{
    u32::try_from(splits).unwrap_or(u32::MAX)
}

impl Rank {
    /// The rank of the root, of which nothing is known.
    pub fn root() -> Rank
        ensures bound { result.bound ≡ None }
        ensures depth { result.depth ≡ 0 }
    {
        Rank {
            bound: None,
            depth: 0,
        }
    }

    /// Whether its bound is not known or the lower one; of equal ones, whether it lies at least as deep.
    pub fn is_before(self, other: Rank) -> bool
        ensures { IsTrue result ↔ ComesBefore self other }
    {
        match (self.bound, other.bound) {
            (Some(bound), Some(least)) if bound != least => bound < least,
            (None, Some(_)) => true,
            (Some(_), None) => false,
            _ => self.depth >= other.depth,
        }
    }
}
