//! The columns of all demands.

ghost use Rattle.std.specs.Prelude.{◌≡◌, ◌≤◌, ◌<◌, length, slice_get, Some, IfOk, IsErr};
ghost use Rattle.arc_restrict.specs.Rows.{forbids};
ghost use Rattle.column_pool.specs.Columns.{no_columns, columns_at, columns_with, answer_of, is_column, permitted_at};

use crate::limits::MAX_COLUMNS;
use crate::row::{Added, Row};
use arc_restrict::Restriction;
use plan_base::{DemandId, Instance, Items, Path};
use std::alloc::{AllocError, Global};
use std::marker::Model;

/// For each demand of an instance the paths that were added last, each once.
///
/// Contracts see it as one list of paths for each demand.
#[derive(Debug, Drop)]
pub struct ColumnPool {
    rows: Vec<Row>,
}

impl Model for ColumnPool {
    ghost use Rattle.column_pool.specs.Columns.{Columns};

    ghost Value = { Columns };

    ghost view = { λ a. a.rows.items };
}

impl ColumnPool {
    /// No columns, with a list for each demand of the instance.
    ///
    /// - Errors: want of memory alone.
    /// - Rule: docs/METHOD.md, "Columns".
    /// - Time: linear in the demands.
    pub fn new(alloc: Global, inst: &Instance) -> Result<ColumnPool, AllocError>
        ensures { IfOk result (λ pool. pool ≡ no_columns inst.now) }
    {
        let mut rows = Vec::new(alloc);
        for _demand in 0..inst.demands() {
            rows.push(Row::new(alloc))?;
        }
        Ok(ColumnPool { rows })
    }

    /// Adds a path to the columns of a demand.
    ///
    /// - Takes: a demand that there is a list for; a simple path of it, of which nothing is asked here.
    /// - Gives: `There` where the path is a column already: it keeps its place. Else `New`: it goes last, and where there
    ///   are `MAX_COLUMNS` already the oldest goes.
    /// - Errors: want of memory alone; then nothing changes.
    /// - Rule: docs/METHOD.md, "Columns".
    /// - Time: linear in the arcs of the path and in the demand's columns; where hashes clash, in the arcs of these.
    pub fn add(&mut self, demand: DemandId, path: &Path) -> Result<Added, AllocError>
        requires { demand.0 < length self.old }
        ensures added { IfOk result (λ _. self.new ≡ columns_with self.old demand.0 path.now) }
        ensures answer { IfOk result (λ added. added ≡ answer_of (columns_at self.old demand.0) path.now) }
        ensures unchanged { IsErr result → self.new ≡ self.old }
    {
        self.rows[demand.0 as usize].add(path)
    }

    /// Whether the path is one of the columns of a demand.
    ///
    /// - Takes: a demand that there is a list for.
    /// - Rule: docs/METHOD.md, "Columns".
    /// - Time: linear in the arcs of the path; where hashes clash, in the arcs of the demand's columns.
    pub fn has(&self, demand: DemandId, path: &Path) -> bool
        requires { demand.0 < length self.now }
        ensures { result ≡ is_column (columns_at self.now demand.0) path.now }
    {
        self.rows[demand.0 as usize].has(path)
    }

    /// How many columns a demand has.
    ///
    /// - Rule: docs/METHOD.md, "Columns".
    /// - Time: constant.
    pub fn count(&self, demand: DemandId) -> u32
        requires { demand.0 < length self.now }
        ensures value { result ≡ length (columns_at self.now demand.0) }
        ensures within { result ≤ MAX_COLUMNS }
    {
        self.columns(demand).len() as u32
    }

    /// The column of a demand at a place.
    ///
    /// - Takes: a place below the count of the demand's columns; the oldest is at place 0.
    /// - Rule: docs/METHOD.md, "Columns".
    /// - Time: constant.
    pub fn column(&self, demand: DemandId, place: u32) -> &Path
        requires demand { demand.0 < length self.now }
        requires place { place < length (columns_at self.now demand.0) }
        ensures { slice_get (columns_at self.now demand.0) place ≡ Some result.now }
    {
        &self.columns(demand)[place as usize]
    }

    /// Copies of the columns of a demand that a restriction permits, in their order.
    ///
    /// - Errors: want of memory alone.
    /// - Rule: docs/METHOD.md, "Columns".
    /// - Time: linear in the arcs of the demand's columns.
    pub fn permitted(
        &self,
        alloc: Global,
        demand: DemandId,
        restriction: &Restriction,
    ) -> Result<Items<Path>, AllocError>
        requires { demand.0 < length self.now }
        ensures { IfOk result (λ paths. paths ≡ permitted_at (forbids restriction.now) self.now demand.0) }
    {
        let mut paths = Vec::new(alloc);
        for path in self.columns(demand) {
            if restriction.permits(demand, path) {
                paths.push(path.copy()?)?;
            }
        }
        Ok(Items::from_vec(paths))
    }

    /// The columns of a demand.
    fn columns(&self, demand: DemandId) -> &[Path]
        requires { demand.0 < length self.now }
        ensures value { result.now ≡ columns_at self.now demand.0 }
        ensures len { length result.now ≡ length (columns_at self.now demand.0) }
        ensures few { length (columns_at self.now demand.0) ≤ MAX_COLUMNS }
    {
        self.rows[demand.0 as usize].paths()
    }
}
