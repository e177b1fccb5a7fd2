//! Cells for a box of a field: what they are stored as, and whether the field may have them.

ghost use Rattle.std.specs.Prelude.{◌≡◌, ◌↔◌, ◌<◌, map, length, All, slice_get};
ghost use Rattle.std.specs.Prelude.{IsSomeAnd, IsErrOf, IfOk, IfErr, IsTrue};
ghost use Rattle.arr_core.specs.Cells.{stored, Holds};
ghost use Rattle.arr_core.specs.declared.field.Field.{Field};
ghost use Rattle.raster_store.specs.Calls.{RefusesCells};
ghost use Rattle.raster_store.specs.Fields.{cells_in, AreStored};

use crate::fault::WriteFault;
use arr_core::{Cell, Domain, FieldType, Signature};
use std::alloc::{AllocError, Global};
use tile_store::{Fault, Numbers};

/// The cells as they are stored.
pub(crate) fn stored_cells(alloc: Global, cells: &[Cell]) -> Result<Vec<i64>, AllocError>
    ensures { IfOk result (λ list. list.items ≡ map stored cells.now) }
{
    let mut list = Vec::with_capacity(alloc, cells.len())?;
    for cell in cells {
        list.push(cell.stored())?;
    }
    Ok(list)
}

/// Whether a field of a type may have each of the cells.
fn all_held(kind: FieldType, cells: &[Cell]) -> bool
    ensures { IsTrue result ↔ All (Holds kind) cells.now }
{
    cells.iter().all(|cell| kind.holds(*cell))
}

/// The type of a field, by its place.
pub(crate) fn kind_of(signature: &Signature, field: usize) -> FieldType
    requires { field < length signature.now.fields }
    ensures { IsSomeAnd (slice_get signature.now.fields field) (λ (f : Field). f.kind ≡ result) }
{
    let fields = signature.fields.as_slice();
    fields[field].kind
}

/// Cells for the points of a box: one for each in row-major order, or one for all.
#[derive(Clone, Copy)]
pub(crate) enum Cells<'a> {
    Each(&'a [Cell]),
    Same(Cell),
}

/// The numbers that cells for a box are stored as. Refuses first for the box, then for the number of cells, then for
/// their types, and then for memory.
#[tactic(auto, using(crate::proofs::Cells::stored_same))]
pub(crate) fn numbers_for(
    alloc: Global,
    signature: &Signature,
    field: usize,
    area: &Domain,
    cells: Cells<'_>,
) -> Result<Numbers, WriteFault>
    requires { field < length signature.now.fields }
    ensures stored { IfOk result (AreStored signature.now field area.now (cells_in area.now cells.entry)) }
    ensures refused { IfErr result (RefusesCells signature.now field area.now (cells_in area.now cells.entry)) }
    ensures fault { (fault : Fault) → IsErrOf result (WriteFault.Device fault) → fault ≡ Fault.NoMemory }
{
    if !area.is_box_of(&signature.domain) {
        return Err(WriteFault::OutsideDomain);
    }
    let kind = kind_of(signature, field);
    match cells {
        Cells::Each(list) => {
            if list.len() as u64 != area.points() {
                return Err(WriteFault::ValueCount);
            }
            if !all_held(kind, list) {
                return Err(WriteFault::ValueRange);
            }
            Ok(Numbers::Each(stored_cells(alloc, list)?))
        }
        Cells::Same(cell) => {
            if !kind.holds(cell) {
                return Err(WriteFault::ValueRange);
            }
            Ok(Numbers::Same(cell.stored()))
        }
    }
}
