//! Cells one after the other, listed in 32 bits where their type has no greater values.

ghost use Rattle.std.specs.Prelude.{◌≡◌, ◌≤◌, ◌↔◌, [], false, length, vec_capacity, IsTrue};
ghost use Rattle.arr_core.specs.Runs.{cells_of};
ghost use Rattle.run_tile.specs.Types.{width_of};
ghost use Rattle.run_tile.specs.Raw.{IsRawSpelling, IsNoRawSpelling};

use crate::raw::read_raw;
use crate::run::width;
use arr_core::{FieldType, RunList};

/// Whether each value of a type has room in 32 bits.
fn is_narrow(kind: FieldType) -> bool
    ensures { IsTrue result ↔ width_of kind ≤ 4 }
{
    width(kind) <= 4
}

/// Lists the cells of a type that the bytes are one after the other, as many as the list has values, which it keeps,
/// and tells whether they are such cells and fewer bytes than their runs take. They are listed in 32 bits where each
/// value has room there and there is memory for them.
pub fn list_raw(kind: FieldType, bytes: &[u8], runs: &mut RunList) -> bool
    ensures spelled { IsTrue result → IsRawSpelling kind bytes.now (cells_of runs.new) }
    ensures counted { IsTrue result → length (cells_of runs.new) ≡ length runs.old.values.items }
    ensures damaged { (result ≡ false) → IsNoRawSpelling (length runs.old.values.items) kind bytes.now }
    ensures counts { runs.new.counts.items ≡ [] }
    ensures capacity { vec_capacity runs.old.counts ≤ vec_capacity runs.new.counts }
    ensures room { length runs.new.values.items ≡ length runs.old.values.items }
{
    runs.counts.clear();
    runs.is_narrow = is_narrow(kind) && runs.narrow.resize(runs.values.len(), 0).is_ok();
    if runs.is_narrow {
        read_raw(kind, bytes, &mut runs.narrow)
    } else {
        read_raw(kind, bytes, &mut runs.values)
    }
}
