//! Tiles as runs of equal cells.

ghost use Rattle.std.specs.Prelude.{IfOk, IfSome};
ghost use Rattle.raster_store.specs.Fetches.{HasTile, HasTileCount};
ghost use Rattle.raster_store.specs.Snapshots.{OnHeldFor};

use crate::storage::picks::points_of;
use crate::storage::stores::{Asked, Store, read_asked, refused, tile_at};
use crate::storage::words::say_list;
use anyhow::{Context, Result};
use arr_core::RunList;
use raster_store::TileAt;
use std::alloc::{AllocError, Global};
use test_rows::Answer;

/// Where a tile is, if it is there, and a list that has a value for each of its points, and held two runs.
fn room_for(
    alloc: Global,
    store: &Store,
    asked: Asked<'_>,
) -> Result<Option<(TileAt, RunList)>, AllocError>
    ensures tile { IfOk result (λ found. IfSome found (λ room.
        OnHeldFor asked.entry.job store.now (λ v. HasTile room.0 v.coverages))) }
    ensures room { IfOk result (λ found. IfSome found (λ room.
        OnHeldFor asked.entry.job store.now (λ v. HasTileCount room.0 v.coverages room.1.values.items))) }
{
    let Some(at) = tile_at(store, asked) else {
        return Ok(None);
    };
    let Some(signature) = store.signature_at(asked.job, &asked.target.name) else {
        return Ok(None);
    };
    if at.tile >= signature.domain.tiles() {
        return Ok(None);
    }
    let points = points_of(alloc, &signature.domain, at.tile)?;
    let values = vec![in alloc; 9i64; points as usize]?;
    let counts = vec![in alloc; 3u32; 2]?;
    Ok(Some((at, RunList::of(alloc, values, counts))))
}

/// The cells of a list that is not narrow.
fn wide_cells(alloc: Global, runs: &RunList) -> Result<Vec<i64>> {
    let mut cells = Vec::new(alloc);
    if runs.counts.is_empty() {
        cells.extend_from_slice(&runs.values)?;
    }
    for (value, count) in runs.values.iter().zip(&runs.counts) {
        for _cell in 0..*count {
            cells.push(*value)?;
        }
    }
    Ok(cells)
}

/// The cells of a list of runs.
fn cells_of(alloc: Global, runs: &RunList) -> Result<Vec<i64>> {
    if !runs.is_narrow {
        return wide_cells(alloc, runs);
    }
    let mut cells = Vec::new(alloc);
    for value in &runs.narrow {
        cells.push(i64::from(*value))?;
    }
    Ok(cells)
}

/// The cells of a tile that is fetched as runs, in a list that held others, as `1 lai 0 0`: of the coverage as it is
/// held for a job, and for 0 as it is where nothing is held.
pub fn list(alloc: Global, answer: &mut Answer, store: &mut Store, words: &str) -> Result<()> {
    let (job, target, tile, _) = read_asked(alloc, words)?;
    let target = &target;
    let room = room_for(alloc, store, Asked { job, target, tile })?;
    let (at, mut runs) = room.context("no tile")?;
    match store.fetch_runs_at(job, at, &mut runs) {
        Ok(()) => say_list(alloc, answer, &cells_of(alloc, &runs)?),
        Err(fault) => answer.refusal(refused(fault)),
    }
    Ok(())
}
