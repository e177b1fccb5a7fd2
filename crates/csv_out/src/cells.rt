//! The text of a few cells, written from the last one to the first, so that no number is copied.

ghost use Rattle.std.specs.Prelude.{◌≡◌, ◌+◌, ◌-◌, ◌/◌, ◌%◌, ◌^◌, ◌<◌, ◌≤◌, ◌++◌, ◌∷◌, [], length, drop, IsAscii};
ghost use Rattle.csv_out.specs.Csv.{cell_text, separator, cells_text};
ghost use Rattle.csv_out.specs.Places.{IsPlace};

use arr_core::Cell;
use itoa::write_digits;

/// How many cells are printed together.
pub const FEW: usize = 128;

/// How many bytes they take at most: 20 of a number and what stands after it, each.
pub const ROOM: usize = 2688;

/// How many fields a point has, and how many points a line.
#[derive(Clone, Copy)]
pub struct Shape {
    pub fields: u64,
    pub line: u64,
}

/// Where a line stands after so many cells: how many fields of a point, and how many points of a line, were written.
#[derive(Clone, Copy)]
pub struct Place {
    pub field: u64,
    pub point: u64,
}

/// The place after so many cells.
fn place_after(shape: Shape, written: u64) -> Place
    requires fields { 0 < shape.fields }
    requires line { 0 < shape.line }
    ensures { IsPlace shape written result }
{
    Place {
        field: written % shape.fields,
        point: written / shape.fields % shape.line,
    }
}

/// The place a cell before.
#[inline(always)]
fn place_before(shape: Shape, place: Place, written: u64) -> Place
    requires fields { 0 < shape.fields }
    requires line { 0 < shape.line }
    requires some { 0 < written }
    requires place { IsPlace shape written place }
    ensures { IsPlace shape (written - 1) result }
{
    if 0 < place.field {
        return Place {
            field: place.field - 1,
            point: place.point,
        };
    }
    let field = shape.fields - 1;
    if 0 < place.point {
        return Place {
            field,
            point: place.point - 1,
        };
    }
    Place {
        field,
        point: shape.line - 1,
    }
}

/// What stands at a place: a space within a point, `,` within a line, LF at its end.
#[inline(always)]
fn mark(shape: Shape, place: Place, written: u64) -> u8
    requires { IsPlace shape written place }
    ensures text { result ∷ [] ≡ separator shape.fields shape.line written }
    ensures ascii { result < 2 ^ 7 }
{
    if place.field != 0 {
        b' '
    } else if place.point != 0 {
        b','
    } else {
        b'\n'
    }
}

/// Writes a number so that it ends at a place; gives where it begins.
#[inline(always)]
fn write_number(room: &mut [u8], number: i64, end: usize) -> usize
    requires wide { 20 ≤ end }
    requires within { end ≤ length room.old }
    ensures text { drop result room.new ≡ cell_text (Cell.Int number) ++ drop end room.old }
    ensures ascii { IsAscii (cell_text (Cell.Int number)) }
    ensures short { end ≤ result + 20 }
    ensures within { result ≤ end }
{
    let begin = write_digits(number.unsigned_abs(), room, end);
    if number >= 0 {
        return begin;
    }
    room[begin - 1] = b'-';
    begin - 1
}

/// Writes a word so that it ends at a place; gives where it begins.
fn write_word(room: &mut [u8], word: &[u8], end: usize) -> usize
    requires wide { length word.now ≤ end }
    requires within { end ≤ length room.old }
    ensures text { drop result room.new ≡ word.now ++ drop end room.old }
    ensures begin { result + length word.now ≡ end }
{
    let begin = end - word.len();
    room[begin..end].copy_from_slice(word);
    begin
}

/// Writes a cell so that it ends at a place; gives where it begins.
#[inline(always)]
fn write_cell(room: &mut [u8], cell: Cell, end: usize) -> usize
    requires wide { 20 ≤ end }
    requires within { end ≤ length room.old }
    ensures text { drop result room.new ≡ cell_text cell ++ drop end room.old }
    ensures ascii { IsAscii (cell_text cell) }
    ensures short { end ≤ result + 20 }
    ensures within { result ≤ end }
{
    match cell {
        Cell::Int(number) => write_number(room, number, end),
        Cell::Bool(true) => write_word(room, b"true", end),
        Cell::Bool(false) => write_word(room, b"false", end),
    }
}

/// Writes a few cells, which come after so many of an item, and what stands after each; gives where their text begins,
/// which goes to the end.
pub fn write_cells(room: &mut [u8; ROOM], shape: Shape, before: u64, cells: &[Cell]) -> usize
    requires fields { 0 < shape.fields }
    requires line { 0 < shape.line }
    requires few { length cells.now ≤ FEW }
    requires before { before + length cells.now < 2 ^ 64 }
    ensures text { drop result room.new ≡ cells_text shape.fields shape.line before cells.now }
    ensures ascii { IsAscii (drop result room.new) }
    ensures within { result ≤ ROOM }
{
    let mut left = cells.len();
    let mut at = ROOM;
    let mut place = place_after(shape, before + left as u64);
    while 0 < left {
        let written = before + left as u64;
        at -= 1;
        room[at] = mark(shape, place, written);
        at = write_cell(room, cells[left - 1], at);
        left -= 1;
        place = place_before(shape, place, written);
    }
    at
}
