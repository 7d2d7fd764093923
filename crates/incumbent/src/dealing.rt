//! How searches are dealt out to the seats, in parts.

ghost use Rattle.std.specs.Prelude.{◌≡◌};
ghost use Rattle.incumbent.specs.Searches.{due_of, has_parts_left, shares_of, next_place};

/// Where several seats search, each search is due once so many times fewer nodes are examined: it takes as long as one
/// worker's, and the others examine nodes meanwhile.
const EARLIER: u32 = 2;

/// How many parts of the first search each seat makes, where there are several seats.
const PARTS: u32 = 2;

/// The searches for paths of the first search are shared out to at most so many seats: each one more makes as many as
/// these do.
const MOST_SHARES: u32 = 8;

/// A later part of the first search has so many times fewer searches for paths than its first part.
const LATER_SHARES: u32 = 4;

/// How many equal parts each search that is dealt out has, where there are several seats.
const LATER_PARTS: u32 = 4;

/// Whether a search has parts left once a seat has made so many, of its parts and of others: one seat makes each whole.
pub(crate) fn has_parts_left(seats: u32, searches: u32) -> bool
    ensures { result ≡ has_parts_left seats searches }
{
    if seats == 1 {
        return false;
    }
    if searches < PARTS {
        return true;
    }
    (searches - PARTS) % LATER_PARTS != 0
}

/// How many nodes are examined when a search is due, of which one seat makes it at so many.
pub(crate) fn due_of(seats: u32, due: u32) -> u32
    ensures { result ≡ due_of seats due }
{
    if seats == 1 { due } else { due / EARLIER }
}

/// The place of the search that a seat makes after one at this place, once it has made so many: all seats make their
/// parts of the first search, and the others are dealt out to them in turn, each with all its parts.
pub(crate) fn place_after(seat: u32, seats: u32, searches: u32, place: u32) -> u32
    ensures { result ≡ next_place seat seats searches place }
{
    if has_parts_left(seats, searches) {
        return place;
    }
    if place == 0 {
        return seat.saturating_add(1);
    }
    place.saturating_add(seats)
}

/// How many equal shares of the searches for paths that a network is worth there are: the search at this place spends one,
/// once its seat has made so many.
pub(crate) fn shares_of(seats: u32, place: u32, searches: u32) -> u32
    ensures { result ≡ shares_of seats place searches }
{
    if seats == 1 {
        return 1;
    }
    if place > 0 {
        return LATER_PARTS;
    }
    let shares = seats.min(MOST_SHARES);
    if searches == 0 {
        shares
    } else {
        LATER_SHARES * shares
    }
}
