//! Conditions over the places of a tile.

ghost use Rattle.std.specs.Prelude.{false, IsTrue};
ghost use Rattle.tile_kernel.specs.Selected.{Chooses};

use crate::column::Column;
use crate::folds::fold_values;
use wcps_text::Aggregate;

/// Whether a condition is false at each place, so that what it guards need not be evaluated. A column of runs is looked
/// at run by run. A condition that may have a fault is not told to be false.
pub fn is_never(condition: &Column) -> bool
    ensures { IsTrue result → Chooses (λ _. false) condition.now }
{
    match fold_values(Aggregate::Any, condition) {
        Some(found) => found.running.fault.is_none() && !found.running.some,
        None => false,
    }
}
