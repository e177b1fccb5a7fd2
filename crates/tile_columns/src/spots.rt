//! The places of a column in the order of the tiles that they read.

ghost use Rattle.std.specs.Prelude.{◌≡◌, ◌<◌, length, map, OnOk};
ghost use Rattle.std.specs.List.{All};
ghost use Rattle.std.specs.List.Sorted.{IsPermutation, IsNonDecreasingBy};
ghost use Rattle.tile_columns.specs.Spots.{all_spots, AreInOrder, IsStretch, cells_at, WritesWanted};

use std::alloc::AllocError;

/// A place, the number of the tile that it reads, and the rank of its cell in that tile.
#[derive(Clone, Copy)]
pub(crate) struct Spot {
    pub place: usize,
    pub tile: u64,
    pub rank: u64,
}

/// Lists all places with their tiles and ranks.
fn list_spots(tiles: &[u64], ranks: &[u64], spots: &mut Vec<Spot>) -> Result<(), AllocError>
    requires { length ranks.now ≡ length tiles.now }
    ensures { OnOk result (spots.new.items ≡ all_spots tiles.now ranks.now) }
{
    spots.clear();
    for place in 0..tiles.len() {
        spots.push(Spot {
            place,
            tile: tiles[place],
            rank: ranks[place],
        })?;
    }
    Ok(())
}

/// Puts spots in the order of their tiles.
fn order_spots(spots: &mut Vec<Spot>)
    ensures same { IsPermutation spots.old.items spots.new.items }
    ensures rising { IsNonDecreasingBy (λ s. s.tile) spots.new.items }
{
    spots.sort_unstable_by_key(|s| s.tile);
}

/// Lists all places in the order of their tiles.
pub(crate) fn order_places(
    tiles: &[u64],
    ranks: &[u64],
    spots: &mut Vec<Spot>,
) -> Result<(), AllocError>
    requires { length ranks.now ≡ length tiles.now }
    ensures { OnOk result (AreInOrder tiles.now ranks.now spots.new.items) }
{
    list_spots(tiles, ranks, spots)?;
    order_spots(spots);
    Ok(())
}

/// Where the spots of one tile end that begin here.
pub(crate) fn end_of(spots: &[Spot], from: usize) -> usize
    requires { from < length spots.now }
    ensures { IsStretch spots.now from result }
{
    let tile = spots[from].tile;
    for place in from + 1..spots.len() {
        if spots[place].tile != tile {
            return place;
        }
    }
    spots.len()
}

/// Lists the ranks of spots.
pub(crate) fn list_ranks(spots: &[Spot], ranks: &mut Vec<u64>) -> Result<(), AllocError>
    ensures { OnOk result (ranks.new.items ≡ map (λ s. s.rank) spots.now) }
{
    ranks.clear();
    for spot in spots {
        ranks.push(spot.rank)?;
    }
    Ok(())
}

/// Lists the cells of ranks.
pub(crate) fn list_cells(
    cells: &[i64],
    ranks: &[u64],
    picked: &mut Vec<i64>,
) -> Result<(), AllocError>
    requires { All (λ r. r < length cells.now) ranks.now }
    ensures { OnOk result (picked.new.items ≡ cells_at cells.now ranks.now) }
{
    picked.clear();
    for rank in ranks {
        picked.push(cells[*rank as usize])?;
    }
    Ok(())
}

/// Writes cells at the places of spots, one at each.
pub(crate) fn write_at_spots(spots: &[Spot], picked: &[i64], cells: &mut Vec<i64>)
    requires picked { length picked.now ≡ length spots.now }
    requires places { All (λ s. s.place < length cells.old.items) spots.now }
    ensures { WritesWanted spots.now picked.now cells.old.items cells.new.items }
{
    let all = cells.as_mut_slice();
    for k in 0..spots.len() {
        all[spots[k].place] = picked[k];
    }
}
