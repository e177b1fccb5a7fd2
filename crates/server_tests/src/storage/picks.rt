//! Cells of tiles at ranks.

ghost use Rattle.std.specs.Prelude.{◌≡◌, ◌<◌, length, All, IfOk, IfSome, IsTrue};
ghost use Rattle.arr_core.specs.Domains.{count, points};
ghost use Rattle.arr_core.specs.Tiles.{tile_boxes, tile_box};
ghost use Rattle.raster_store.specs.Fetches.{HasTile, HasRanks};
ghost use Rattle.raster_store.specs.Snapshots.{OnHeldFor};

use crate::storage::stores::{Asked, Store, read_asked, say_cells, tile_at};
use anyhow::{Context, Result};
use arr_core::Domain;
use raster_store::TileAt;
use std::alloc::{AllocError, Global};
use test_rows::{Answer, number};

/// Ranks, as `5,0,5`; `-` for none.
fn read_ranks(alloc: Global, words: &str) -> Result<Vec<u64>> {
    let mut ranks = Vec::new(alloc);
    if words != "-" {
        for word in words.split(',') {
            ranks.push(number(word)?)?;
        }
    }
    Ok(ranks)
}

/// How many points a tile has, by its number.
pub fn points_of(alloc: Global, domain: &Domain, tile: u64) -> Result<u64, AllocError>
    requires { tile < length (tile_boxes domain.now) }
    ensures count { IfOk result (λ n. count (tile_box domain.now tile) ≡ n) }
    ensures points { IfOk result (λ n. length (points (tile_box domain.now tile)) ≡ n) }
{
    let part = domain.tile_box(alloc, tile)?;
    Ok(part.points())
}

/// Whether each of some numbers is below another one.
fn are_below(numbers: &[u64], bound: u64) -> bool
    ensures { IsTrue result → All (λ n. n < bound) numbers.now }
{
    numbers.iter().all(|n| *n < bound)
}

/// Where a tile is, if it is there and has all of these ranks.
fn place_of(
    alloc: Global,
    store: &Store,
    asked: Asked<'_>,
    ranks: &[u64],
) -> Result<Option<TileAt>, AllocError>
    ensures tile { IfOk result (λ found. IfSome found (λ at.
        OnHeldFor asked.entry.job store.now (λ v. HasTile at v.coverages))) }
    ensures ranks { IfOk result (λ found. IfSome found (λ at.
        OnHeldFor asked.entry.job store.now (λ v. HasRanks at ranks.now v.coverages))) }
{
    let Some(at) = tile_at(store, asked) else {
        return Ok(None);
    };
    let Some(signature) = store.signature_at(asked.job, &asked.target.name) else {
        return Ok(None);
    };
    if at.tile >= signature.domain.tiles() {
        return Ok(None);
    }
    let points = points_of(alloc, &signature.domain, at.tile)?;
    if !are_below(ranks, points) {
        return Ok(None);
    }
    Ok(Some(at))
}

/// The cells of a tile at ranks, in a buffer that held five others, as `1 lai 0 0 5,0,5`: of the coverage as it is held
/// for a job, and for 0 as it is where nothing is held.
pub fn pick(alloc: Global, answer: &mut Answer, store: &mut Store, words: &str) -> Result<()> {
    let (job, target, tile, ranks) = read_asked(alloc, words)?;
    let ranks = read_ranks(alloc, ranks)?;
    let target = &target;
    let at = place_of(alloc, store, Asked { job, target, tile }, &ranks)?;
    let at = at.context("no such cells")?;
    let mut cells = vec![in alloc; 9i64; 5]?;
    let outcome = store.pick_at(job, at, &ranks, &mut cells);
    say_cells(alloc, answer, outcome, &cells);
    Ok(())
}
