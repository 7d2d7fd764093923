//! What is drawn where, so that names keep clear of marks and of each other.

use crate::looks::{HEIGHT, Spot, WIDTH};
use std::alloc::{AllocError, Global};

/// The side of a cell, in picture units.
const CELL: u32 = 4;

/// How many cells stand side by side.
const COLUMNS: u32 = WIDTH / CELL;

/// How many rows of cells there are.
const ROWS: u32 = HEIGHT / CELL;

/// A rectangle about a place.
#[derive(Clone, Copy)]
pub struct Patch {
    pub middle: Spot,
    pub half_width: u32,
    pub half_height: u32,
}

/// The cells that a patch covers: columns and rows, the first and the one behind the last.
#[derive(Clone, Copy)]
struct Cells {
    left: u32,
    right: u32,
    top: u32,
    bottom: u32,
}

impl Patch {
    /// Its cells within the picture.
    fn cells(self) -> Cells {
        let Patch {
            middle,
            half_width,
            half_height,
        } = self;
        Cells {
            left: middle.x.saturating_sub(half_width) / CELL,
            right: (middle.x.saturating_add(half_width) / CELL).min(COLUMNS - 1) + 1,
            top: middle.y.saturating_sub(half_height) / CELL,
            bottom: (middle.y.saturating_add(half_height) / CELL).min(ROWS - 1) + 1,
        }
    }

    /// Whether it lies within the picture.
    fn is_within(self) -> bool {
        self.middle.x >= self.half_width
            && self.middle.y >= self.half_height
            && self.middle.x.saturating_add(self.half_width) <= WIDTH
            && self.middle.y.saturating_add(self.half_height) <= HEIGHT
    }
}

/// How much each cell of a picture is covered.
#[derive(Drop)]
pub struct Canvas {
    cells: Vec<u32>,
}

impl Canvas {
    /// A picture that is empty.
    pub fn new(alloc: Global) -> Result<Canvas, AllocError> {
        let cells = vec![in alloc; 0; (COLUMNS * ROWS) as usize]?;
        Ok(Canvas { cells })
    }

    /// Covers a cell by so much more.
    fn cover_cell(&mut self, column: u32, row: u32, weight: u32) {
        let place = u64::from(row) * u64::from(COLUMNS) + u64::from(column);
        if let Some(cell) = self.cells.get_mut(place as usize) {
            *cell = cell.saturating_add(weight);
        }
    }

    /// Covers the cells of a patch in this row.
    fn cover_row(&mut self, cells: Cells, row: u32, weight: u32) {
        for column in cells.left..cells.right {
            self.cover_cell(column, row, weight);
        }
    }

    /// Covers the cells of a patch by so much more.
    pub fn cover(&mut self, patch: Patch, weight: u32) {
        let cells = patch.cells();
        for row in cells.top..cells.bottom {
            self.cover_row(cells, row, weight);
        }
    }

    /// How much a cell is covered.
    fn cover_of_cell(&self, column: u32, row: u32) -> u32 {
        let place = u64::from(row) * u64::from(COLUMNS) + u64::from(column);
        self.cells.get(place as usize).copied().unwrap_or(0)
    }

    /// How much the cells of a patch in this row are covered.
    fn cover_of_row(&self, cells: Cells, row: u32) -> u32 {
        let mut cover: u32 = 0;
        for column in cells.left..cells.right {
            cover = cover.saturating_add(self.cover_of_cell(column, row));
        }
        cover
    }

    /// How much a patch would cover that is covered already; more than all where it leaves the picture.
    pub fn cover_of(&self, patch: Patch) -> u32 {
        if !patch.is_within() {
            return u32::MAX;
        }
        let cells = patch.cells();
        let mut cover: u32 = 0;
        for row in cells.top..cells.bottom {
            cover = cover.saturating_add(self.cover_of_row(cells, row));
        }
        cover
    }
}
