//! How often which load was seen.

use cut_values::SeenLoads;
use plan_base::{Instance, Items};
use std::alloc::{AllocError, Global};

/// A load of a place, in load grains, and in how many turns it was seen.
#[derive(Clone, Copy, Debug)]
pub(crate) struct Sighting {
    pub(crate) load: u64,
    pub(crate) times: u64,
}

/// For each place the loads above 0 that it was seen with.
#[derive(Debug, Drop)]
pub(crate) struct Sightings {
    places: Vec<Items<Sighting>>,
    /// How many turns there were.
    pub(crate) turns: u64,
}

/// Counts one turn with the load more; equal loads come one behind the other.
fn count(sightings: &mut Vec<Sighting>, load: u64) -> Result<(), AllocError> {
    if let Some(last) = sightings.last_mut() {
        if last.load == load {
            last.times = last.times.saturating_add(1);
            return Ok(());
        }
    }
    sightings.push(Sighting { load, times: 1 })?;
    Ok(())
}

/// The loads above 0 of a place; room for the loads of all turns is handed in.
fn of_place(
    alloc: Global,
    seen: &SeenLoads,
    place: u32,
    loads: &mut Vec<u64>,
) -> Result<Items<Sighting>, AllocError> {
    loads.clear();
    for turn in 0..seen.turns() {
        loads.push(seen.load(place, turn))?;
    }
    loads.sort_unstable();
    let mut sightings = Vec::new(alloc);
    for load in loads.as_slice() {
        if *load > 0 {
            count(&mut sightings, *load)?;
        }
    }
    Ok(Items::from_vec(sightings))
}

impl Sightings {
    /// Those of all places.
    pub(crate) fn of(
        alloc: Global,
        inst: &Instance,
        seen: &SeenLoads,
    ) -> Result<Sightings, AllocError> {
        let mut places = Vec::new(alloc);
        let mut loads = Vec::new(alloc);
        for place in 0..inst.places() {
            places.push(of_place(alloc, seen, place, &mut loads)?)?;
        }
        Ok(Sightings {
            places,
            turns: seen.turns() as u64,
        })
    }

    /// Those of a place.
    pub(crate) fn at(&self, place: u32) -> &[Sighting] {
        match self.places.get(place as usize) {
            Some(sightings) => sightings.as_slice(),
            None => &[],
        }
    }
}
