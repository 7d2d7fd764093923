//! What a master step answers.

use plan_base::{DemandId, Prices};

/// What a master step answers; values in thousandths of a cost grain.
#[derive(Debug, Drop)]
pub enum Step {
    /// These prices have the restricted value `new`, which is more than that of the brief's, `old`.
    Raised {
        prices: Prices,
        old: i128,
        new: i128,
    },
    /// No trial has a greater restricted value than the brief's prices, which have this one.
    Same {
        value: i128,
    },
    /// The demand has no column; each one before it has.
    Bare {
        demand: DemandId,
    },
}
