//! A tile of an item.

ghost use Rattle.std.specs.Prelude.{◌≡◌, ◌*◌, ◌<◌, ◌^◌, length, map, option_copied, IfOk};
ghost use Rattle.arr_core.specs.Domains.{count};
ghost use Rattle.arr_core.specs.Tiles.{tile_boxes};
ghost use Rattle.plan_ir.specs.declared.plan.Field.{Field};
ghost use Rattle.plan_ir.specs.Plans.{item_view};
ghost use Rattle.tile_columns.specs.Calling.{Reads};
ghost use Rattle.tile_columns.specs.Meaning.{IsGroundOf};
ghost use Rattle.tile_exec.specs.declared.task.Status.TheVariants.{Giving};
ghost use Rattle.tile_exec.specs.Units.{FitsItem, IsItemFound};
ghost use Rattle.tile_exec.specs.Fetching.{as_item, IsPartOver, FetchesTile};

use crate::buffers::Buffers;
use crate::found::ItemTile;
use crate::keyed::{ItemColumns, TileAt, item_columns};
use crate::known::Known;
use crate::row::first_fault;
use arr_core::Cell;
use plan_ir::{Field, Item};
use std::alloc::{AllocError, Global};
use std::mem;
use tile_columns::{Ground, Tiles, ranks};
use wcps_mean::{CellError, field_count, run_length};

/// So many fields find no memory for their columns.
const FIELDS_END: usize = 4_294_967_296;

/// What a tile of an item gives.
pub(crate) fn item_tile<S: Tiles>(
    buffers: &mut Buffers,
    source: &mut S,
    ground: &Ground<'_>,
    item: &Item,
    tile: u64,
    known: Option<&Known>,
) -> Result<ItemTile, CellError>
    requires signatures { IsGroundOf (S.state source.old) ground.now }
    requires placed { IsPartOver (S.state source.old) ground.now (as_item item.now) }
    requires tile { tile < length (tile_boxes item.now.domain) }
    ensures fits { IfOk result (λ x. FitsItem (item_view item.now) tile Giving x) }
    ensures tells { IfOk result (IsItemFound (S.state source.old) ground.now item.now tile (option_copied known.entry)) }
    ensures fetched { FetchesTile result ground.now tile S.Tiles source.old source.new (as_item item.now) }
    ensures reads { Reads S.Tiles result source.old source.new }
{
    if item.fields.len() >= FIELDS_END {
        return Err(CellError::NoMemory);
    }
    let alloc = buffers.memory.alloc;
    let part = item.domain.tile_box(alloc, tile)?;
    let _axes = part.axes();
    let mut places = mem::replace(&mut buffers.places, Vec::new(alloc));
    ranks(&mut places, &item.domain, &part)?;
    let at = TileAt {
        area: &item.domain,
        part: &part,
        number: tile,
        known,
    };
    let told = item_columns(buffers, source, ground, item, &at)?;
    let ItemColumns {
        columns,
        known: found,
    } = told;
    let booleans = booleans_of(alloc, &item.fields)?;
    let fresh = fresh_cells(alloc, item, tile)?;
    let first = first_fault(&places, &columns);
    Ok(ItemTile {
        columns,
        places,
        booleans,
        first,
        fresh,
        known: found,
        line: run_length(item.domain.axes()),
        fields: field_count(item.fields.len()),
    })
}

/// Which fields are Boolean.
fn booleans_of(alloc: Global, fields: &[Field]) -> Result<Vec<bool>, AllocError>
    ensures { IfOk result (λ v. v.items ≡ map (λ (f : Field). f.boolean) fields.now) }
{
    let mut booleans = Vec::new(alloc);
    for field in fields {
        booleans.push(field.boolean)?;
    }
    Ok(booleans)
}

/// Room for all cells of an item at its first tile, else none.
fn fresh_cells(alloc: Global, item: &Item, tile: u64) -> Result<Vec<Cell>, AllocError>
    requires { length item.now.fields.items < 2 ^ 32 }
    ensures { tile ≡ 0 → IfOk result (λ v. length v.items ≡ count item.now.domain * length item.now.fields.items) }
{
    let mut fresh = Vec::new(alloc);
    if tile == 0 {
        let cells = item.domain.points() * item.fields.len() as u64;
        fresh.resize(cells as usize, Cell::Int(0))?;
    }
    Ok(fresh)
}
