//! What an open leaf keeps of its region.

ghost use Rattle.std.specs.Prelude.{◌≡◌, Some, None, IfOk, option_map};
ghost use Rattle.std.specs.Arc.{arc_value};
ghost use Rattle.branch_tree.specs.Branches.{HasLimitRow, HasLimitRange};
ghost use Rattle.search_nodes.specs.Grounds.{rows_in, ranges_in, IsGroundBelow};

use arc_restrict::Restriction;
use branch_tree::Limit;
use link_steps::Ranges;
use std::alloc::{AllocError, Global};
use std::marker::Model;
use std::sync::Arc;

/// What is forbidden at an open leaf, and which loads its places may carry there. Both are shared: with those who price,
/// and with the children that leave them as they are.
#[derive(Drop)]
pub struct Plot {
    rows: Arc<Restriction>,
    ranges: Arc<Ranges>,
}

impl Model for Plot {
    ghost use Rattle.std.specs.Arc.{arc_value};
    ghost use Rattle.search_nodes.specs.Grounds.{Kept};

    ghost Value = { Kept };

    ghost view = { λ a. record { rows = arc_value a.rows; ranges = arc_value a.ranges } };
}

impl Plot {
    /// The restriction.
    pub fn rows(&self) -> &Arc<Restriction>
        ensures { arc_value result.now ≡ self.now.rows }
    {
        &self.rows
    }

    /// The ranges of loads.
    pub fn ranges(&self) -> &Arc<Ranges>
        ensures { arc_value result.now ≡ self.now.ranges }
    {
        &self.ranges
    }

    /// The plot of a child that has this limit too. What the limit does not touch is shared.
    ///
    /// - Errors: want of memory alone.
    pub fn below(&self, alloc: Global, limit: &Limit) -> Result<Ground, AllocError>
        requires row { HasLimitRow self.now.rows limit.now }
        requires range { HasLimitRange self.now.ranges limit.now }
        ensures { IfOk result (IsGroundBelow self.now limit.now) }
    {
        match limit {
            Limit::Arcs { .. } => {
                let mut rows = self.rows.copy()?;
                limit.forbid(&mut rows);
                Ok(Ground::of(Arc::new(alloc, rows)?, self.ranges.clone()?))
            }
            _ => {
                let mut ranges = self.ranges.copy()?;
                limit.narrow(&mut ranges);
                Ok(Ground::of(self.rows.clone()?, Arc::new(alloc, ranges)?))
            }
        }
    }
}

/// The plot of an open leaf, and nothing at another node.
#[derive(Drop)]
pub struct Ground {
    kept: Option<Plot>,
}

impl Model for Ground {
    ghost use Rattle.std.specs.Prelude.{Option};
    ghost use Rattle.search_nodes.specs.Grounds.{Kept};

    ghost Value = { Option Kept };

    ghost view = { λ a. a.kept };
}

impl Ground {
    /// The ground of an open leaf. Takes no memory.
    pub fn of(rows: Arc<Restriction>, ranges: Arc<Ranges>) -> Self
        ensures { result ≡ Some (record { rows = arc_value rows; ranges = arc_value ranges }) }
    {
        Ground {
            kept: Some(Plot { rows, ranges }),
        }
    }

    /// The plot, if the node is an open leaf.
    pub fn plot(&self) -> Option<&Plot>
        ensures { option_map (λ kept. kept.now) result ≡ self.now }
    {
        match &self.kept {
            Some(kept) => Some(kept),
            None => None,
        }
    }

    /// The restriction, if the node is an open leaf.
    pub fn rows(&self) -> Option<&Arc<Restriction>>
        ensures { option_map (λ rows. arc_value rows.now) result ≡ rows_in self.now }
    {
        match &self.kept {
            Some(kept) => Some(&kept.rows),
            None => None,
        }
    }

    /// The ranges of loads, if the node is an open leaf.
    pub fn ranges(&self) -> Option<&Arc<Ranges>>
        ensures { option_map (λ ranges. arc_value ranges.now) result ≡ ranges_in self.now }
    {
        match &self.kept {
            Some(kept) => Some(&kept.ranges),
            None => None,
        }
    }

    /// Lets go of both. Takes no memory.
    pub fn clear(&mut self)
        ensures { self.new ≡ None }
    {
        self.kept = None;
    }
}
