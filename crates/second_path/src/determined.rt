//! What a restriction leaves to all demands.

use plan_base::{DemandId, Items, Path};

/// How many permitted paths the demands have.
#[derive(Debug, Drop)]
pub enum Determined {
    /// The lowest-numbered demand without a permitted path, and for each node whether permitted
    /// arcs lead to it from the demand's source.
    Empty {
        demand: DemandId,
        reached: Items<bool>,
    },
    /// Each demand has a permitted path, and this is the first with two, by larger load and then
    /// by lower number.
    Two {
        demand: DemandId,
        first: Path,
        second: Path,
    },
    /// The only permitted path of each demand.
    One(Items<Path>),
}
