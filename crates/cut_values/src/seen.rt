//! Which loads gave links their values in the turns of an ascent.

use plan_base::Instance;
use std::alloc::{AllocError, Global};

/// For each place the loads that gave its link its value, in the last turns of an ascent.
///
/// No clause speaks of it: cuts are found by it, and what is found is tested.
#[derive(Debug, Drop)]
pub struct SeenLoads {
    /// For each place one load for each turn that there is room for.
    loads: Vec<u64>,
    room: usize,
    turns: usize,
}

impl SeenLoads {
    /// Room for so many turns, of which there is none yet.
    ///
    /// - Errors: want of memory alone.
    pub fn new(alloc: Global, inst: &Instance, turns: u16) -> Result<SeenLoads, AllocError> {
        let room = turns as usize;
        let places = inst.places() as usize;
        Ok(SeenLoads {
            loads: vec![in alloc; 0; places.saturating_mul(room)]?,
            room,
            turns: 0,
        })
    }

    /// Forgets all turns. Takes no memory.
    pub fn clear(&mut self) {
        self.turns = 0;
    }

    /// Begins one turn more, where there is room for it. Takes no memory.
    pub fn begin_turn(&mut self) {
        if self.turns < self.room {
            self.turns += 1;
        }
    }

    /// Notes the load of a place in the turn that was begun last, in load grains. Takes no memory.
    pub fn note(&mut self, place: u32, load: u64) {
        let at = self
            .start(place)
            .saturating_add(self.turns.saturating_sub(1));
        if at < self.loads.len() {
            self.loads[at] = load;
        }
    }

    /// How many turns there are.
    pub fn turns(&self) -> usize {
        self.turns
    }

    /// The load of a place in a turn, in load grains; 0 where there is none.
    pub fn load(&self, place: u32, turn: usize) -> u64 {
        match self.loads.get(self.start(place).saturating_add(turn)) {
            Some(load) => *load,
            None => 0,
        }
    }

    /// Where the loads of a place begin.
    fn start(&self, place: u32) -> usize {
        (place as usize).saturating_mul(self.room)
    }
}
