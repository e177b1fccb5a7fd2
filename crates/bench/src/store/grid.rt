//! A store with one coverage: a square grid with a field of 16 bits.

ghost use Rattle.std.specs.Prelude.{◌≡◌, ◌<◌, length, IfOk, IfSome};
ghost use Rattle.raster_store.specs.Fetches.{HasTile};
ghost use Rattle.raster_store.specs.Snapshots.{OnHeldFor};

use anyhow::Result;
use arr_core::{Axis, Cell, Domain, Field, FieldType, Fields, Name, Signature, distance};
use block_file::Blocks;
use raster_store::{Fault, RasterStore, TileAt, WriteFault};
use std::alloc::Global;
use std::marker::Model;

/// How many bytes the store takes the catalogue to have.
const CATALOGUE_BYTES: u64 = 256;

/// A store that has the coverage of a signature alone, which has a field, and the cells of the tile that was read last.
#[derive(Drop)]
pub(crate) struct Grid<B: Blocks> {
    store: RasterStore<B>,
    signature: Signature,
    cells: Vec<i64>,
}

impl<B: Blocks> Model for Grid<B> {
    ghost use Rattle.std.specs.Prelude.{◌≡◌, ◌<◌, [], ◌∷◌, map, length};
    ghost use Rattle.arr_core.specs.declared.signature.Signature.{Signature};
    ghost use Rattle.raster_store.specs.Calls.{signature_of};

    ghost Value = { Signature };

    ghost view = { λ g. g.signature };

    ghost invariant = { λ g. (map signature_of g.store.coverages ≡ g.signature ∷ []) × (0 < length g.signature.fields) };
}

/// The box of the axes `y` and `x` from a corner on, of as many rows as columns.
pub(crate) fn square(alloc: Global, corner: (i32, i32), side: u16) -> Result<Domain> {
    let (y, x) = corner;
    let last = side as i32 - 1;
    let mut axes = Vec::new(alloc);
    for (name, lo) in [("y", y), ("x", x)] {
        axes.push(Axis {
            name: Name::new(alloc, name)?,
            lo,
            hi: lo.saturating_add(last),
        })?;
    }
    Ok(Domain::new(axes)?)
}

/// The signature of a grid of so many rows and columns.
fn signature_of(alloc: Global, side: u16) -> Result<Signature>
    ensures { IfOk result (λ s. 0 < length s.fields) }
{
    let mut fields = Vec::new(alloc);
    fields.push(Field {
        name: Name::new(alloc, "height")?,
        kind: FieldType::I16,
    })?;
    let name = Name::new(alloc, "grid")?;
    let domain = square(alloc, (0, 0), side)?;
    Ok(Signature {
        name,
        domain,
        fields: Fields::new(fields),
    })
}

/// Where a tile, by its number, of the first field of the coverage with a name is, as it is, if it is there.
fn tile_at<B: Blocks>(store: &RasterStore<B>, name: &Name, tile: u64) -> Option<TileAt>
    ensures { IfSome result (λ at. OnHeldFor 0 store.now (λ v. HasTile at v.coverages)) }
{
    if store.holds(0) {
        return None;
    }
    let Some(coverage) = store.place(name) else {
        return None;
    };
    match store.signature(name) {
        Some(signature) => {
            if signature.fields.len() == 0 || tile >= signature.domain.tiles() {
                return None;
            }
            Some(TileAt {
                coverage,
                field: 0,
                tile,
            })
        }
        None => None,
    }
}

/// The coordinates that an axis has in common with another: how many of it lie before them, and how many they are.
fn common(axis: &Axis, other: &Axis) -> (usize, usize) {
    let lo = axis.lo.max(other.lo);
    let hi = axis.hi.min(other.hi);
    if hi < lo {
        return (0, 0);
    }
    let before = distance(axis.lo, lo) as usize;
    (before, distance(lo, hi) as usize + 1)
}

/// The sum of the numbers of a tile, whose box is `part`, at the points of a box that are in it, within 64 bits.
fn sum_within(part: &Domain, cells: &[i64], area: &Domain) -> i64 {
    let ([y, x], [across, along]) = (part.axes(), area.axes()) else {
        return 0;
    };
    let (top, rows) = common(y, across);
    let (left, columns) = common(x, along);
    let width = x.size() as usize;
    let mut sum = 0i64;
    for line in cells.chunks(width).skip(top).take(rows) {
        for number in line.iter().skip(left).take(columns) {
            sum = sum.wrapping_add(*number);
        }
    }
    sum
}

impl<B: Blocks + Drop> Grid<B> {
    /// A grid of so many rows and columns that is 0 everywhere, over blocks.
    pub(crate) fn new(alloc: Global, blocks: B, side: u16) -> Result<Grid<B>> {
        let signature = signature_of(alloc, side)?;
        let mut store = RasterStore::new(alloc, blocks);
        store.create(&signature, CATALOGUE_BYTES)?;
        Ok(Grid {
            store,
            signature,
            cells: Vec::new(alloc),
        })
    }

    /// Writes one cell at every point of a box.
    pub(crate) fn fill(&mut self, area: &Domain, cell: Cell) -> Result<(), WriteFault> {
        self.store
            .fill_box(&self.signature.name, 0, area, cell, CATALOGUE_BYTES)
    }

    /// Writes cells into a box, in row-major order of its points.
    pub(crate) fn write(&mut self, area: &Domain, cells: &[Cell]) -> Result<(), WriteFault> {
        self.store
            .write_box(&self.signature.name, 0, area, cells, CATALOGUE_BYTES)
    }

    /// The sum of the numbers of a tile at the points of a box that are in it, within 64 bits.
    fn sum_of(&mut self, alloc: Global, tile: u64, area: &Domain) -> Result<i64, Fault> {
        if tile >= self.signature.domain.tiles() {
            return Ok(0);
        }
        let part = self.signature.domain.tile_box(alloc, tile)?;
        let Some(at) = tile_at(&self.store, &self.signature.name, tile) else {
            return Ok(0);
        };
        self.store.fetch_at(0, at, &mut self.cells)?;
        Ok(sum_within(&part, &self.cells, area))
    }

    /// The sum of the numbers in a box, within 64 bits. Outside the domain none is read.
    pub(crate) fn sum(&mut self, alloc: Global, area: &Domain) -> Result<i64, Fault> {
        if !area.is_box_of(&self.signature.domain) {
            return Ok(0);
        }
        let mut sum = 0i64;
        for tile in self.signature.domain.tiles_meeting(alloc, area)? {
            sum = sum.wrapping_add(self.sum_of(alloc, tile, area)?);
        }
        Ok(sum)
    }

    /// The number at a point. Outside the domain none is read.
    pub(crate) fn number(&mut self, alloc: Global, point: &[i32]) -> Result<i64, Fault> {
        if !self.signature.domain.contains(point) {
            return Ok(0);
        }
        let tile = self.signature.domain.tile_of(point);
        let part = self.signature.domain.tile_box(alloc, tile)?;
        let rank = part.rank(point) as usize;
        let Some(at) = tile_at(&self.store, &self.signature.name, tile) else {
            return Ok(0);
        };
        self.store.fetch_at(0, at, &mut self.cells)?;
        Ok(self.cells.get(rank).copied().unwrap_or(0))
    }
}
