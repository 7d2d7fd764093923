//! The columns of one demand.

ghost use Rattle.std.specs.Prelude.{◌≡◌, ◌≤◌, [], length, false, IfOk, IsErr};
ghost use Rattle.column_pool.specs.Columns.{is_column, with_last, column_added, answer_of};

use crate::limits::MAX_COLUMNS;
use indexmap::IndexSet;
use plan_base::Path;
use std::alloc::{AllocError, Global};
use std::marker::Model;

/// What an addition did.
#[derive(Clone, Copy, Debug, PartialEq, Eq)]
pub enum Added {
    /// The path is the demand's last column.
    New,
    /// The path was a column already.
    There,
}

/// The columns of one demand, the oldest first.
#[derive(Debug, Drop)]
pub struct Row {
    paths: IndexSet<Path>,
}

impl Model for Row {
    ghost use Rattle.std.specs.Prelude.{List, ◌≤◌, length};
    ghost use Rattle.indexmap.specs.IndexSet.{keys};
    ghost use Rattle.plan_base.specs.declared.ids.ArcId.{ArcId};
    ghost use Rattle.column_pool.specs.declared.limits.TheConstants.{MAX_COLUMNS};

    ghost Value = { List (List ArcId) };

    ghost view = { λ a. keys a.paths };

    ghost invariant = { λ a. length (keys a.paths) ≤ MAX_COLUMNS };
}

impl Row {
    /// No columns.
    pub fn new(alloc: Global) -> Row
        ensures { result ≡ [] }
    {
        Row {
            paths: IndexSet::new(alloc),
        }
    }

    /// The paths, in order.
    pub fn paths(&self) -> &[Path]
        ensures value { result.now ≡ self.now }
        ensures len { length result.now ≡ length self.now }
        ensures few { length self.now ≤ MAX_COLUMNS }
    {
        self.paths.as_slice()
    }

    /// Whether the path is one of the columns.
    #[tactic(auto, using(crate::proofs::RowSets::is_column_found))]
    pub fn has(&self, path: &Path) -> bool
        ensures { result ≡ is_column self.now path.now }
    {
        self.paths.contains(path)
    }

    /// The path, which is no column yet, goes last; where there are too many then, the oldest column goes.
    #[tactic(auto, using(crate::proofs::RowSets::is_column_found))]
    fn push(&mut self, path: Path) -> Result<(), AllocError>
        requires { is_column self.old path ≡ false }
        ensures last { IfOk result (λ _. self.new ≡ with_last self.old path) }
        ensures unchanged { IsErr result → self.new ≡ self.old }
    {
        self.paths.insert(path)?;
        if self.paths.len() > MAX_COLUMNS {
            let _oldest = self.paths.shift_remove_index(0);
        }
        Ok(())
    }

    /// The path goes last where it is no column yet.
    pub fn add(&mut self, path: &Path) -> Result<Added, AllocError>
        ensures added { IfOk result (λ _. self.new ≡ column_added self.old path.now) }
        ensures answer { IfOk result (λ added. added ≡ answer_of self.old path.now) }
        ensures unchanged { IsErr result → self.new ≡ self.old }
    {
        if self.has(path) {
            return Ok(Added::There);
        }
        let copy = path.copy()?;
        self.push(copy)?;
        Ok(Added::New)
    }
}
