//! What demands found, kept to be tried again. Whoever takes it tests it anew.

ghost use Rattle.std.specs.Prelude.{ℕ, ◌≡◌, ◌≢◌, [], Some, None, OnOk, option_map};
ghost use Rattle.std.specs.Arc.{arc_value};
ghost use Rattle.leaf_tasks.specs.Entries.{entry_at};

use crate::entries::{put, take_out};
use path_pricing::Priced;
use plan_base::{BranchId, DemandId};
use std::alloc::{AllocError, Global};
use std::marker::Model;
use std::sync::Arc;

/// For each demand what it found under some prices and some restriction, where it is known.
#[derive(Drop)]
pub struct Known {
    found: Vec<Option<Arc<Priced>>>,
}

impl Model for Known {
    ghost use Rattle.std.specs.Prelude.{List, Option, map, option_map};
    ghost use Rattle.std.specs.Arc.{arc_value};
    ghost use Rattle.path_pricing.specs.declared.priced.Priced.{Priced};

    ghost Value = { List (Option Priced) };

    ghost view = { λ a. map (option_map arc_value) a.found.items };
}

impl Known {
    /// Nothing is known.
    pub fn nothing(alloc: Global) -> Known
        ensures { result ≡ [] }
    {
        Known {
            found: Vec::new(alloc),
        }
    }

    /// What the demand found, where it is known.
    pub fn of(&self, demand: DemandId) -> Option<&Arc<Priced>>
        ensures { option_map (λ found. arc_value found.now) result ≡ entry_at self.now demand.0 }
    {
        match self.found.get(demand.0 as usize) {
            Some(Some(found)) => Some(found),
            _ => None,
        }
    }

    /// Keeps what a demand found.
    ///
    /// - Errors: want of memory alone.
    pub fn keep(&mut self, demand: DemandId, found: Arc<Priced>) -> Result<(), AllocError>
        ensures kept { OnOk result (entry_at self.new demand.0 ≡ Some (arc_value found)) }
        ensures others { (k : ℕ) → k ≢ demand.0 → entry_at self.new k ≡ entry_at self.old k }
    {
        put(&mut self.found, demand.0 as usize, found)
    }
}

/// For each node what the demands of the node above it found.
#[derive(Drop)]
pub struct KnownAbove {
    nodes: Vec<Option<Arc<Known>>>,
}

impl Model for KnownAbove {
    ghost use Rattle.std.specs.Prelude.{List, Option, map, option_map};
    ghost use Rattle.std.specs.Arc.{arc_value};
    ghost use Rattle.path_pricing.specs.declared.priced.Priced.{Priced};

    ghost Value = { List (Option (List (Option Priced))) };

    ghost view = { λ a. map (option_map arc_value) a.nodes.items };
}

impl KnownAbove {
    /// Nothing is known above any node.
    pub fn nothing(alloc: Global) -> KnownAbove
        ensures { result ≡ [] }
    {
        KnownAbove {
            nodes: Vec::new(alloc),
        }
    }

    /// What is known above the node of this number.
    pub fn of(&self, number: usize) -> Option<&Known>
        ensures { option_map (λ known. known.now) result ≡ entry_at self.now number }
    {
        match self.nodes.get(number) {
            Some(Some(known)) => Some(&**known),
            _ => None,
        }
    }

    /// Hands out what is known above a node, and forgets it.
    pub fn take(&mut self, node: BranchId) -> Option<Arc<Known>>
        ensures taken { option_map arc_value result ≡ entry_at self.old node.0 }
        ensures forgotten { entry_at self.new node.0 ≡ None }
        ensures others { (n : ℕ) → n ≢ node.0 → entry_at self.new n ≡ entry_at self.old n }
    {
        take_out(&mut self.nodes, node.0 as usize)
    }

    /// Keeps what is known above a node.
    ///
    /// - Errors: want of memory alone.
    pub fn put(&mut self, node: BranchId, known: Arc<Known>) -> Result<(), AllocError>
        ensures kept { OnOk result (entry_at self.new node.0 ≡ Some (arc_value known)) }
        ensures others { (n : ℕ) → n ≢ node.0 → entry_at self.new n ≡ entry_at self.old n }
    {
        put(&mut self.nodes, node.0 as usize, known)
    }
}
