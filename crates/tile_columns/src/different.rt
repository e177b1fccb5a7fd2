//! The different tiles of a column's places.

ghost use Rattle.std.specs.Prelude.{◌≡◌, ◌++◌, ◌∷◌, [], nat_eq, IsTrue, IfOk, OnOk};
ghost use Rattle.std.specs.List.{list_any};
ghost use Rattle.plan_ir.specs.Units.{added, distinct};
ghost use Rattle.tile_columns.specs.Gathering.{IsSeen};

use std::alloc::AllocError;

/// Whether a number is in the list; the last one is looked at first.
fn is_seen(seen: &[u64], number: u64) -> bool
    ensures { result ≡ list_any (λ m. nat_eq m number) seen.now }
{
    if ends_with(seen, number) {
        return true;
    }
    seen.iter().any(|m| *m == number)
}

/// Whether a list ends with a number.
fn ends_with(seen: &[u64], number: u64) -> bool
    ensures { IsTrue result → IsSeen seen.now number }
{
    match seen {
        [] => false,
        [.., last] => *last == number,
    }
}

/// Puts a number at the end of a list.
fn push_number(numbers: &mut Vec<u64>, number: u64) -> Result<(), AllocError>
    ensures { OnOk result (numbers.new.items ≡ numbers.old.items ++ number ∷ []) }
{
    numbers.push(number)?;
    Ok(())
}

/// Puts a tile at the end of a list, unless it is there.
fn add_tile(seen: &mut Vec<u64>, tile: u64) -> Result<(), AllocError>
    ensures { OnOk result (seen.new.items ≡ added seen.old.items tile) }
{
    if is_seen(seen, tile) {
        return Ok(());
    }
    push_number(seen, tile)?;
    Ok(())
}

/// Lists the different tiles, if there are at most so many.
pub(crate) fn list_tiles(
    tiles: &[u64],
    most: usize,
    seen: &mut Vec<u64>,
) -> Result<bool, AllocError>
    ensures { IfOk result (λ few. IsTrue few → seen.new.items ≡ distinct tiles.now) }
{
    seen.clear();
    for tile in tiles {
        add_tile(seen, *tile)?;
        if seen.len() > most {
            return Ok(false);
        }
    }
    Ok(true)
}
