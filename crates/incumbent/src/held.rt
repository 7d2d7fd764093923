//! A design's paths that are kept beside those that are changed.

ghost use Rattle.std.specs.Prelude.{◌≡◌, ◌≤◌, length, IfOk, OnOk};

use demand_routing::{roomy_copies, set_path};
use plan_base::limits::MAX_DEMANDS;
use plan_base::{DemandId, Instance, Path};
use std::alloc::{AllocError, Global};

/// Paths of all demands, and what the cheapest design with them costs, in cost grains.
#[derive(Drop)]
pub struct Held {
    pub paths: Vec<Path>,
    pub cost: u128,
}

impl Held {
    /// These paths.
    pub fn new(
        alloc: Global,
        inst: &Instance,
        paths: &[Path],
        cost: u128,
    ) -> Result<Held, AllocError>
        ensures paths { IfOk result (λ held. held.paths.items ≡ paths.now) }
        ensures cost { IfOk result (λ held. held.cost ≡ cost) }
    {
        Ok(Held {
            paths: roomy_copies(alloc, inst, paths)?,
            cost,
        })
    }

    /// Holds these paths in the memory that it has.
    pub fn set_to(&mut self, paths: &[Path], cost: u128) -> Result<(), AllocError>
        requires few { length paths.now ≤ MAX_DEMANDS }
        requires length { length self.old.paths.items ≡ length paths.now }
        ensures paths { OnOk result (self.new.paths.items ≡ paths.now) }
        ensures cost { OnOk result (self.new.cost ≡ cost) }
    {
        for (place, path) in paths.iter().enumerate() {
            set_path(&mut self.paths, DemandId(place as u32), path)?;
        }
        self.cost = cost;
        Ok(())
    }
}
