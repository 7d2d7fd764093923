//! Why a leaf is closed.

use proof_tree::Evidence;

/// What a node is closed by.
#[derive(Debug, Drop)]
pub enum Reason {
    /// Its crowd proof, or else its best prices.
    Recorded,
    /// The cut that it holds.
    HeldCut,
    /// What an examination has shown.
    Shown(Evidence),
}
