//! Numbers of variables, points of indexes, and items of lists, at each place of a column.

ghost use Rattle.std.specs.Prelude.{◌≡◌, ◌<◌, pos, List, [], length, map, slice_index_or, OnOk};
ghost use Rattle.arr_core.specs.Domains.{count};
ghost use Rattle.wcps_mean.specs.declared.cell.Outcome.TheVariants.{Value};
ghost use Rattle.plan_ir.specs.Run.{number_at, numbers_at};
ghost use Rattle.tile_columns.specs.Locating.{AreInside};
ghost use Rattle.tile_columns.specs.Tables.{item_at, item_of};

use crate::frame::Frame;
use crate::scratch::Scratch;
use arr_core::Domain;
use plan_ir::Index;
use std::alloc::AllocError;
use tile_kernel::Column;
use wcps_mean::Outcome;

/// The coordinate that an index stands for at a place.
fn coordinate(frame: &Frame, place: usize, index: Index) -> i32
    requires { place < length frame.now }
    ensures { result ≡ number_at (slice_index_or frame.now place []) index }
{
    match index {
        Index::Const(z) => z,
        Index::Var(k) => frame.number(k, place),
    }
}

/// Makes `point` the point of the indexes at a place.
pub(crate) fn point_at(
    frame: &Frame,
    place: usize,
    indexes: &[Index],
    point: &mut Vec<i32>,
) -> Result<(), AllocError>
    requires { place < length frame.now }
    ensures { OnOk result (point.new.items ≡ numbers_at (slice_index_or frame.now place []) indexes.now) }
{
    point.clear();
    for index in indexes {
        point.push(coordinate(frame, place, *index))?;
    }
    Ok(())
}

/// Makes `out` the numbers of a variable, 0 where there is no such variable.
pub fn fill_variable(
    frame: &Frame,
    k: usize,
    scratch: &mut Scratch,
    out: &mut Column,
) -> Result<(), AllocError>
    ensures { OnOk result (out.new ≡ map (λ (e : List _). Value (slice_index_or e k (pos 0))) frame.now) }
{
    let places = frame.places();
    match frame.constant(k) {
        Some(z) => {
            out.fill(places, Outcome::Value(z as i64));
            return Ok(());
        }
        None => (),
    }
    frame.list(Index::Var(k), &mut scratch.cells)?;
    out.write(&scratch.cells);
    Ok(())
}

/// Makes `out` the items of a list, which has one for each point of the domain in row-major order, at the points of the
/// indexes.
pub fn look_up(
    domain: &Domain,
    items: &[i64],
    indexes: &[Index],
    frame: &Frame,
    scratch: &mut Scratch,
    out: &mut Column,
) -> Result<(), AllocError>
    requires whole { length items.now ≡ count domain.now }
    requires inside { AreInside domain.now indexes.now frame.now }
    ensures { OnOk result (out.new ≡ map (λ e. Value (item_at domain.now items.now indexes.now e)) frame.now) }
{
    let _few = frame.places();
    let table = Table {
        domain,
        items,
        indexes,
    };
    items_of(&table, frame, &mut scratch.point, &mut scratch.cells)?;
    out.write(&scratch.cells);
    Ok(())
}

/// A list with an item for each point of a domain, and an index for each axis.
#[derive(Clone, Copy)]
struct Table<'a> {
    domain: &'a Domain,
    items: &'a [i64],
    indexes: &'a [Index],
}

/// Makes `cells` the items at the points of the indexes.
fn items_of(
    table: &Table<'_>,
    frame: &Frame,
    point: &mut Vec<i32>,
    cells: &mut Vec<i64>,
) -> Result<(), AllocError>
    requires whole { length table.now.items.now ≡ count table.now.domain.now }
    requires inside { AreInside table.now.domain.now table.now.indexes.now frame.now }
    ensures { OnOk result (cells.new.items ≡ map (item_of table.now) frame.now) }
{
    cells.clear();
    for place in 0..frame.places() {
        point_at(frame, place, table.indexes, point)?;
        let _few = table.domain.points();
        let rank = table.domain.rank(point);
        cells.push(table.items[rank as usize])?;
    }
    Ok(())
}
