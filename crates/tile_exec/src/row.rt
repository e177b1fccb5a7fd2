//! What the columns of an item's fields tell, point by point.

ghost use Rattle.std.specs.Prelude.{◌≡◌, ℕ, ◌+◌, ◌<◌, ◌^◌, List, [], ◌∷◌, All, IsTrue, length, slice_set};
ghost use Rattle.std.specs.List.{enumerate_from};
ghost use Rattle.arr_core.specs.Limits.{max_points};
ghost use Rattle.wcps_mean.specs.declared.cell.Outcome.{Outcome};
ghost use Rattle.wcps_mean.specs.Answer.{cell_of};
ghost use Rattle.tile_columns.specs.Fields.{HavePlaces};
ghost use Rattle.tile_kernel.specs.Told.{IsFirstOf, IsValue};
ghost use Rattle.tile_exec.specs.Items.{value_of, AreWrittenTo, IsFirstAfter};
ghost use Rattle.tile_exec.specs.Rows.{row_at, cells_at, values_told, LieBelow, all_cells_told, all_rows_told};

use arr_core::Cell;
use tile_kernel::{Column, FirstFault};
use wcps_mean::{Outcome, cell_of};

/// The cell of an outcome; at a fault it means nothing.
fn cell_at(boolean: bool, o: Outcome) -> Cell
    ensures { result ≡ cell_of boolean (value_of o) }
{
    match o {
        Outcome::Value(z) => cell_of(boolean, z),
        Outcome::Fault(_) => cell_of(boolean, 0),
    }
}

/// The first fault after one more outcome.
fn first_after(first: FirstFault, place: u64, o: Outcome) -> FirstFault
    ensures { IsFirstAfter first result ((place, o) ∷ []) }
{
    match o {
        Outcome::Value(_) => first,
        Outcome::Fault(f) => {
            let fault = FirstFault {
                fault: Some(f),
                place,
            };
            first.least(fault)
        }
    }
}

/// Finds the first fault after a point, which has the k-th place of each column. Its cells have the places from `place`
/// on.
#[inline(always)]
fn tell_point(columns: &[Column], k: usize, place: u64, first: &mut FirstFault)
    requires there { All (λ (c : List Outcome). k < length c) columns.now }
    requires small { place + length columns.now < 2 ^ 64 }
    ensures { IsFirstAfter first.old first.new (enumerate_from place (row_at columns.now k)) }
{
    for j in 0..columns.len() {
        *first = first_after(*first, place + j as u64, columns[j].at(k));
    }
}

/// Whether each column has a value at each place, and keeps it there.
fn are_values(columns: &[Column]) -> bool
    ensures { IsTrue result → All (All IsValue) columns.now }
{
    for k in 0..columns.len() {
        match columns[k].values() {
            Some(_) => {}
            None => return false,
        }
    }
    true
}

/// Finds the first fault of the points of columns, one for each field, which have these places in the item's domain.
pub(crate) fn first_fault(ranks: &[u64], columns: &[Column]) -> FirstFault
    requires there { HavePlaces (length ranks.now) columns.now }
    requires ranks { All (λ (r : ℕ). r < max_points) ranks.now }
    requires few { length columns.now < 2 ^ 32 }
    ensures { IsFirstOf result (all_rows_told ranks.now (length columns.now) columns.now) }
{
    if are_values(columns) {
        return FirstFault::none();
    }
    first_of(ranks, columns)
}

/// The same, point by point.
fn first_of(ranks: &[u64], columns: &[Column]) -> FirstFault
    requires there { HavePlaces (length ranks.now) columns.now }
    requires ranks { All (λ (r : ℕ). r < max_points) ranks.now }
    requires few { length columns.now < 2 ^ 32 }
    ensures { IsFirstOf result (all_rows_told ranks.now (length columns.now) columns.now) }
{
    let mut first = FirstFault::none();
    for k in 0..ranks.len() {
        let place = ranks[k] * columns.len() as u64;
        tell_point(columns, k, place, &mut first);
    }
    first
}

/// Writes a cell.
fn write_cell(cells: &mut Vec<Cell>, place: u64, cell: Cell)
    requires { place < length cells.old.items }
    ensures { cells.new.items ≡ slice_set cells.old.items place cell }
{
    cells[place as usize] = cell;
}

/// Writes the cells of a point, which has the k-th place of each column, from `place` on.
#[inline(always)]
fn write_point(cells: &mut Vec<Cell>, booleans: &[bool], columns: &[Column], k: usize, place: u64)
    requires columns { length columns.now ≡ length booleans.now }
    requires there { All (λ (c : List Outcome). k < length c) columns.now }
    requires small { place + length booleans.now < 2 ^ 64 }
    requires below { LieBelow (length cells.old.items) (cells_at place booleans.now columns.now k) }
    ensures length { length cells.new.items ≡ length cells.old.items }
    ensures written { AreWrittenTo cells.old.items cells.new.items (cells_at place booleans.now columns.now k) }
{
    for j in 0..booleans.len() {
        let o = columns[j].at(k);
        let own = place + j as u64;
        write_cell(cells, own, cell_at(booleans[j], o));
    }
}

/// Writes the cells of all points of one column of values, which have these places in the item's domain.
fn write_values(cells: &mut Vec<Cell>, ranks: &[u64], boolean: bool, values: &[i64])
    requires there { length values.now ≡ length ranks.now }
    requires below { LieBelow (length cells.old.items) (values_told ranks.now boolean values.now) }
    ensures length { length cells.new.items ≡ length cells.old.items }
    ensures written { AreWrittenTo cells.old.items cells.new.items (values_told ranks.now boolean values.now) }
{
    for k in 0..ranks.len() {
        write_cell(cells, ranks[k], cell_of(boolean, values[k]));
    }
}

/// Writes the cells of all points of columns, which have these places in the item's domain.
pub(crate) fn write_points(
    cells: &mut Vec<Cell>,
    ranks: &[u64],
    booleans: &[bool],
    columns: &[Column],
)
    requires columns { length columns.now ≡ length booleans.now }
    requires there { HavePlaces (length ranks.now) columns.now }
    requires ranks { All (λ (r : ℕ). r < max_points) ranks.now }
    requires few { length booleans.now < 2 ^ 32 }
    requires below { LieBelow (length cells.old.items) (all_cells_told ranks.now booleans.now columns.now) }
    ensures length { length cells.new.items ≡ length cells.old.items }
    ensures written { AreWrittenTo cells.old.items cells.new.items (all_cells_told ranks.now booleans.now columns.now) }
{
    if let [boolean] = booleans {
        if let [column] = columns {
            if let Some(values) = column.values() {
                write_values(cells, ranks, *boolean, values);
                return;
            }
        }
    }
    write_each(cells, ranks, booleans, columns);
}

/// The same, point by point.
fn write_each(cells: &mut Vec<Cell>, ranks: &[u64], booleans: &[bool], columns: &[Column])
    requires columns { length columns.now ≡ length booleans.now }
    requires there { HavePlaces (length ranks.now) columns.now }
    requires ranks { All (λ (r : ℕ). r < max_points) ranks.now }
    requires few { length booleans.now < 2 ^ 32 }
    requires below { LieBelow (length cells.old.items) (all_cells_told ranks.now booleans.now columns.now) }
    ensures length { length cells.new.items ≡ length cells.old.items }
    ensures written { AreWrittenTo cells.old.items cells.new.items (all_cells_told ranks.now booleans.now columns.now) }
{
    for k in 0..ranks.len() {
        let place = ranks[k] * booleans.len() as u64;
        write_point(cells, booleans, columns, k, place);
    }
}
