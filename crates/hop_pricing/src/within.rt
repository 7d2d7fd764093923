//! What is found for a demand within a limit on arcs.

use plan_base::Path;

/// A permitted path of least price within the limit, or the fewest arcs where no permitted path is within it.
#[derive(Debug, Drop)]
pub enum Within {
    /// The path, and its price in thousandths of a cost grain per load grain.
    Path { path: Path, length: u128 },
    /// The fewest arcs of a permitted path; None where no path is permitted.
    Far { fewest: Option<u32> },
}
