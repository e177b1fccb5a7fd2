//! Items: what a query returns for one choice of coverages.

ghost use Rattle.std.specs.Prelude.{◌≡◌, List, length};

use arr_core::Cell;
use std::marker::Model;

/// Cells in order.
#[derive(Drop)]
pub struct CellList {
    cells: Vec<Cell>,
}

impl Model for CellList {
    ghost use Rattle.std.specs.Prelude.{List};
    ghost use Rattle.arr_core.specs.declared.cell.Cell.{Cell};

    ghost Value = { List Cell };

    ghost view = { λ l. l.cells.items };
}

impl CellList {
    /// Those cells.
    pub fn new(cells: Vec<Cell>) -> CellList
        ensures { result ≡ cells.items }
    {
        CellList { cells }
    }

    /// The cells.
    pub fn as_slice(&self) -> &[Cell]
        ensures { result.now ≡ self.now }
    {
        &self.cells
    }

    /// How many there are.
    pub fn len(&self) -> usize
        ensures { result ≡ length self.now }
    {
        self.cells.len()
    }
}

/// One item of an answer: the cells of a value on a domain.
#[derive(Drop)]
pub struct Item {
    /// How many points a run along the last axis has; 1 for a scalar.
    pub line: u64,
    /// How many fields a point has.
    pub fields: u32,
    /// The cells, points in row-major order, the fields of a point in order.
    pub cells: CellList,
}
