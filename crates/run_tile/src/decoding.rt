//! Bytes to cells.

ghost use Rattle.std.specs.Prelude.{◌≡◌, ◌≤◌, ◌<◌, length, vec_capacity, IfOk, OnOk, IsErrOf, IsTrue, false};
ghost use Rattle.arr_core.specs.Runs.{cells_of};
ghost use Rattle.run_tile.specs.Listing.{counts_in};
ghost use Rattle.run_tile.specs.Raw.{Spells, IsOfNone};

use crate::listing::list_runs;
use crate::narrow::list_raw;
use crate::raw::read_raw;
use crate::reading::read_cells;
use arr_core::{FieldType, RunList};
use file_bytes::{Form, ReadError};
use std::alloc::Global;

/// Whether the bytes spell as many cells in a form as there is room for, which are written then.
fn read_form(kind: FieldType, form: Form, bytes: &[u8], cells: &mut [i64]) -> bool
    ensures spelled { IsTrue result → Spells form kind bytes.now cells.new }
    ensures damaged { (result ≡ false) → IsOfNone (length cells.old) form kind bytes.now }
{
    match form {
        Form::Runs => read_cells(kind, bytes, cells),
        Form::Raw => read_raw(kind, bytes, cells),
    }
}

/// Writes the `count` cells of a type that the bytes spell in a form into a buffer, whatever it held before: `Damaged`
/// where they spell no such list, so where runs are cut short, empty, too long or of another type, where neighbouring
/// runs have one value, where there are more or fewer cells, and where raw cells are of another type or take no fewer
/// bytes than their runs. A buffer that has room for the cells takes no memory. After
/// a refusal it holds any cells.
pub fn decode_into(
    kind: FieldType,
    count: usize,
    form: Form,
    bytes: &[u8],
    cells: &mut Vec<i64>,
) -> Result<(), ReadError>
    ensures spelled { OnOk result (Spells form kind bytes.now cells.new.items) }
    ensures counted { OnOk result (length cells.new.items ≡ count) }
    ensures damaged { IsErrOf result ReadError.Damaged → IsOfNone count form kind bytes.now }
    ensures no_memory { IsErrOf result ReadError.NoMemory → vec_capacity cells.old < count }
    ensures capacity { vec_capacity cells.old ≤ vec_capacity cells.new }
{
    cells.resize(count, 0)?;
    if read_form(kind, form, bytes, cells) {
        Ok(())
    } else {
        Err(ReadError::Damaged)
    }
}

/// The `count` cells of a type that the bytes spell, in a vector of their own: refused as `decode_into`.
pub fn decode(
    alloc: Global,
    kind: FieldType,
    count: usize,
    form: Form,
    bytes: &[u8],
) -> Result<Vec<i64>, ReadError>
    ensures spelled { IfOk result (λ cells. Spells form kind bytes.now cells.items) }
    ensures counted { IfOk result (λ cells. length cells.items ≡ count) }
    ensures damaged { IsErrOf result ReadError.Damaged → IsOfNone count form kind bytes.now }
{
    let mut cells = Vec::new(alloc);
    decode_into(kind, count, form, bytes, &mut cells)?;
    Ok(cells)
}

/// Makes a list that of the cells of a type that the bytes spell in a form, as many as it has values, which it keeps:
/// their runs where they lie so, else the values one by one without counts, in 32 bits where the values of the type
/// have room there and there is memory for them. Refused as `decode_into`, but not for want of memory where the list
/// has room for as many counts as values. After a refusal it stands for any cells.
pub fn decode_runs(
    kind: FieldType,
    form: Form,
    bytes: &[u8],
    runs: &mut RunList,
) -> Result<(), ReadError>
    ensures spelled { OnOk result (Spells form kind bytes.now (cells_of runs.new)) }
    ensures counted { OnOk result (length (cells_of runs.new) ≡ length runs.old.values.items) }
    ensures counts { OnOk result (length runs.new.counts.items ≡ counts_in form kind bytes.now) }
    ensures damaged { IsErrOf result ReadError.Damaged
        → IsOfNone (length runs.old.values.items) form kind bytes.now }
    ensures no_memory { IsErrOf result ReadError.NoMemory
        → vec_capacity runs.old.counts < length runs.old.values.items }
    ensures capacity { vec_capacity runs.old.counts ≤ vec_capacity runs.new.counts }
    ensures room { length runs.new.values.items ≡ length runs.old.values.items }
{
    match form {
        Form::Runs => list_runs(kind, bytes, runs),
        Form::Raw => {
            if list_raw(kind, bytes, runs) {
                Ok(())
            } else {
                Err(ReadError::Damaged)
            }
        }
    }
}
