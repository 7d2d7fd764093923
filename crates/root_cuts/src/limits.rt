//! How long cuts are looked for.

/// The most rounds at the whole region.
pub const MAX_ROUNDS: u32 = 14;

/// The most nodes of the short search behind them.
pub const MAX_TRIED: u32 = 60;

/// The most cuts that a round finds.
pub const FOUND_IN_ROUND: u32 = 25;

/// The most cuts that a node of the short search finds.
pub const FOUND_AT_NODE: u32 = 2;

/// The turns of an ascent whose loads are looked at, at most.
pub const SEEN_TURNS: u16 = 60;

/// For how many rounds a cut may go without a rate.
pub const IDLE_ROUNDS: u32 = 2;

/// After so many rounds an ascent has to have come so far that cuts may be worth their time.
pub const TRUSTED_ROUNDS: u32 = 3;

/// Cuts are worth their time where they raise the bound by at least one in so many.
pub const LEAST_GAIN: i128 = 256;

/// Cuts are looked for where the cheapest modules of all links, one of each, cost at least one in so many of the bound that
/// the search opens with.
pub const LARGE_SHARE: u128 = 4;
