//! An item of one field whose body has a key: its outcomes are found once for each number of the key.

ghost use Rattle.std.specs.Prelude.{◌≡◌, ◌+◌, ◌<◌, ◌≤◌, [], ◌∷◌, length, option_copied, Some, IsTrue, IfOk, IfSome, IfNone, OnOk};
ghost use Rattle.std.specs.List.{All};
ghost use Rattle.arr_core.specs.Limits.{max_tile};
ghost use Rattle.arr_core.specs.Domains.{points, count, IsInside};
ghost use Rattle.tile_columns.specs.Calling.{Reads};
ghost use Rattle.tile_columns.specs.Fields.{HavePlaces};
ghost use Rattle.tile_columns.specs.Keys.{fold_of};
ghost use Rattle.tile_columns.specs.Meaning.{IsGroundOf, IsColumnOf};
ghost use Rattle.tile_exec.specs.Fetching.{as_item, IsPartOver, FetchesOver};
ghost use Rattle.tile_exec.specs.Known.{Knows, KnowsFold, point_of, IsKnownBy, IsKeyedOver, IsKeyedAt, IsTilePart, FetchesBy, more_keys, Pays, IsKeyOfItem};
ghost use Rattle.tile_exec.specs.Known.{IsColumnBy, IfColumnBy};
ghost use Rattle.tile_exec.specs.Keyed.{IsKeyedColumn, AreColumnsKnown};

use crate::buffers::Buffers;
use crate::column::{column_over, columns_over};
use crate::known::{Known, pairs_of};
use crate::samples::{Sample, frame_of, samples_of};
use arr_core::Domain;
use plan_ir::Item;
use std::alloc::{AllocError, Global};
use tile_columns::{Frame, Ground, Key, Tiles, evaluate_keyed, key_of, same_zones};
use tile_kernel::Column;
use wcps_mean::CellError;

/// How many evaluations of a key are counted beside those at the points of an item: at the points of its samples, and
/// twice at those of a tile.
const BESIDE: u128 = 12_288;

/// Whether all that is done with a key costs no more than the item's body does at the points of a tile.
fn pays(key: &Key<'_>, area: &Domain, part: &Domain) -> bool
    ensures { IsTrue result → Pays key.now.times area.now part.now }
{
    let points = part.points();
    if points < 2 || area.tiles() < 2 {
        return false;
    }
    area.points() as u128 + BESIDE <= (points - 2) as u128 * key.times as u128
}

/// The key of an item of one field without binds, if its body has one and that pays at a tile.
fn item_key<'a>(item: &'a Item, part: &Domain) -> Option<Key<'a>>
    ensures { IfSome result (IsKeyOfItem item.now part.now) }
{
    if !item.binds.is_empty() || item.fields.len() != 1 {
        return None;
    }
    let field = &item.fields[0];
    let key = key_of(&field.body, item.domain.axes().len())?;
    if !pays(&key, &item.domain, part) {
        return None;
    }
    Some(key)
}

/// What is known of a fold of zones by samples of its key in a box.
fn known_by<S: Tiles>(
    buffers: &mut Buffers,
    source: &mut S,
    ground: &Ground<'_>,
    key: &Key<'_>,
    samples: &[Sample],
    area: &Domain,
) -> Result<Known, CellError>
    requires signatures { IsGroundOf (S.state source.old) ground.now }
    requires keyed { IsKeyedOver (S.state source.old) ground.now area.now key.now }
    requires inside { All (λ (x : Sample). IsInside area.now (point_of x)) samples.now }
    requires some { 0 < length samples.now }
    requires few { length samples.now ≤ max_tile }
    ensures value { IfOk result (IsKnownBy (S.state source.old) ground.now area.now key.now samples.now) }
    ensures reads { Reads S.Tiles result source.old source.new }
    ensures fetched { OnOk result (FetchesBy key.now (length samples.now) 1 S.Tiles source.old source.new) }
{
    let alloc = buffers.memory.alloc;
    let mut frame = frame_of(alloc, samples, area.axes().len())?;
    evaluate_keyed(
        source,
        ground,
        key,
        &mut frame,
        &mut buffers.memory.scratch,
        &mut buffers.column,
    )?;
    let outcomes = pairs_of(alloc, samples, &buffers.column)?;
    Ok(Known {
        zones: key.zones,
        outcomes,
    })
}

/// What is known of a fold of zones in a box: nothing where its key has too many numbers there, or none.
fn known_over<S: Tiles>(
    buffers: &mut Buffers,
    source: &mut S,
    ground: &Ground<'_>,
    key: &Key<'_>,
    area: &Domain,
) -> Result<Option<Known>, CellError>
    requires signatures { IsGroundOf (S.state source.old) ground.now }
    requires keyed { IsKeyedOver (S.state source.old) ground.now area.now key.now }
    ensures value { IfOk result (KnowsFold (S.state source.old) ground.now area.now key.now) }
    ensures reads { Reads S.Tiles result source.old source.new }
    ensures fetched { OnOk result (FetchesBy key.now (count area.now + max_tile) 1 S.Tiles source.old source.new) }
{
    match samples_of(buffers, source, ground, key.body, area)? {
        None => Ok(None),
        Some(samples) => {
            if samples.is_empty() {
                return Ok(None);
            }
            let known = known_by(buffers, source, ground, key, &samples, area)?;
            Ok(Some(known))
        }
    }
}

/// The outcomes of a fold of zones at the points of a part, if they are known by the same key.
fn known_column<S: Tiles>(
    buffers: &mut Buffers,
    source: &mut S,
    ground: &Ground<'_>,
    key: &Key<'_>,
    part: &Domain,
    known: Option<&Known>,
) -> Result<Option<Column>, CellError>
    requires signatures { IsGroundOf (S.state source.old) ground.now }
    requires keyed { IsKeyedAt (S.state source.old) ground.now part.now key.now }
    requires few { count part.now ≤ max_tile }
    ensures value { IfOk result (IfColumnBy (S.state source.old) ground.now part.now key.now (option_copied known.entry)) }
    ensures places { IfOk result (λ o. IfSome o (λ c. length c ≡ length (points part.now))) }
    ensures reads { Reads S.Tiles result source.old source.new }
    ensures fetched { OnOk result (FetchesBy key.now (count part.now) 0 S.Tiles source.old source.new) }
{
    let _axes = part.axes();
    match known {
        None => Ok(None),
        Some(known) => {
            if !same_zones(known.zones, key.zones) {
                return Ok(None);
            }
            column_over(
                &mut buffers.memory,
                source,
                ground,
                part,
                key.body,
                &mut buffers.column,
            )?;
            buffers.column.spread();
            let alloc = buffers.memory.alloc;
            match known.outcomes_by(alloc, &buffers.column)? {
                None => Ok(None),
                Some(outcomes) => {
                    let mut column = Column::new(alloc)?;
                    column.write_outcomes(&outcomes);
                    Ok(Some(column))
                }
            }
        }
    }
}

/// The outcomes of a fold of zones at the points of a part, in one pass over its box.
fn pass_column<S: Tiles>(
    buffers: &mut Buffers,
    source: &mut S,
    ground: &Ground<'_>,
    key: &Key<'_>,
    part: &Domain,
) -> Result<Column, CellError>
    requires signatures { IsGroundOf (S.state source.old) ground.now }
    requires keyed { IsKeyedAt (S.state source.old) ground.now part.now key.now }
    requires few { count part.now ≤ max_tile }
    ensures value { IfOk result (IsColumnOf (S.state source.old) ground.now (fold_of key.now) (points part.now)) }
    ensures places { IfOk result (λ c. length c ≡ length (points part.now)) }
    ensures reads { Reads S.Tiles result source.old source.new }
    ensures fetched { OnOk result (FetchesBy key.now (count part.now) 1 S.Tiles source.old source.new) }
{
    let alloc = buffers.memory.alloc;
    let _axes = part.axes();
    let mut frame = Frame::of_box(alloc, part)?;
    let mut column = Column::new(alloc)?;
    evaluate_keyed(
        source,
        ground,
        key,
        &mut frame,
        &mut buffers.memory.scratch,
        &mut column,
    )?;
    Ok(column)
}

/// The outcomes of a fold of zones at the points of a part: those that are known, or of one pass over its box.
fn keyed_column<S: Tiles>(
    buffers: &mut Buffers,
    source: &mut S,
    ground: &Ground<'_>,
    key: &Key<'_>,
    part: &Domain,
    known: Option<&Known>,
) -> Result<Column, CellError>
    requires signatures { IsGroundOf (S.state source.old) ground.now }
    requires keyed { IsKeyedAt (S.state source.old) ground.now part.now key.now }
    requires few { count part.now ≤ max_tile }
    ensures value { IfOk result (IsColumnBy (S.state source.old) ground.now part.now key.now (option_copied known.entry)) }
    ensures places { IfOk result (λ c. length c ≡ length (points part.now)) }
    ensures reads { Reads S.Tiles result source.old source.new }
    ensures fetched { OnOk result (FetchesBy key.now (count part.now + count part.now) 1 S.Tiles source.old source.new) }
{
    match known_column(buffers, source, ground, key, part, known)? {
        Some(column) => Ok(column),
        None => pass_column(buffers, source, ground, key, part),
    }
}

/// A tile of an item's box, its number, and what is known before it.
#[derive(Clone, Copy)]
pub(crate) struct TileAt<'a> {
    pub area: &'a Domain,
    pub part: &'a Domain,
    pub number: u64,
    pub known: Option<&'a Known>,
}

/// The columns of an item's fields at the points of a tile, and what is found at the first one.
#[derive(Drop)]
pub(crate) struct ItemColumns {
    pub columns: Vec<Column>,
    pub known: Option<Known>,
}

/// What is known once a tile has found something, or nothing.
fn known_after<'a>(found: &'a Option<Known>, before: Option<&'a Known>) -> Option<&'a Known>
    ensures found { IfSome found.now (λ k. option_copied result ≡ Some k) }
    ensures before { IfNone found.now (option_copied result ≡ option_copied before.entry) }
{
    match found {
        Some(known) => Some(known),
        None => before,
    }
}

/// What a tile finds of a fold of zones: what is known over the whole box, at the first one.
fn found_at<S: Tiles>(
    buffers: &mut Buffers,
    source: &mut S,
    ground: &Ground<'_>,
    key: &Key<'_>,
    at: &TileAt<'_>,
) -> Result<Option<Known>, CellError>
    requires signatures { IsGroundOf (S.state source.old) ground.now }
    requires keyed { IsKeyedOver (S.state source.old) ground.now at.now.area.now key.now }
    ensures value { IfOk result (KnowsFold (S.state source.old) ground.now at.now.area.now key.now) }
    ensures reads { Reads S.Tiles result source.old source.new }
    ensures fetched { OnOk result (FetchesBy key.now (count at.now.area.now + max_tile) 1 S.Tiles source.old source.new) }
{
    if at.number > 0 {
        return Ok(None);
    }
    known_over(buffers, source, ground, key, at.area)
}

/// A list of one column.
fn one_column(alloc: Global, column: Column) -> Result<Vec<Column>, AllocError>
    ensures { IfOk result (λ v. v.items ≡ column ∷ []) }
{
    let mut columns = Vec::new(alloc);
    columns.push(column)?;
    Ok(columns)
}

/// The column of an item's one field, a fold of zones, at the points of a tile.
fn keyed_columns<S: Tiles>(
    buffers: &mut Buffers,
    source: &mut S,
    ground: &Ground<'_>,
    key: &Key<'_>,
    at: &TileAt<'_>,
) -> Result<ItemColumns, CellError>
    requires signatures { IsGroundOf (S.state source.old) ground.now }
    requires keyed { IsKeyedOver (S.state source.old) ground.now at.now.area.now key.now }
    requires part { IsTilePart at.now.area.now at.now.part.now }
    requires some { 0 < count at.now.part.now }
    ensures value { IfOk result (λ x. IsKeyedColumn (S.state source.old) ground.now key.now at.now x.columns.items) }
    ensures known { IfOk result (λ x. KnowsFold (S.state source.old) ground.now at.now.area.now key.now x.known) }
    ensures places { IfOk result (λ x. HavePlaces (length (points at.now.part.now)) x.columns.items) }
    ensures one { IfOk result (λ x. length x.columns.items ≡ 1) }
    ensures reads { Reads S.Tiles result source.old source.new }
    ensures fetched { OnOk result (FetchesBy key.now (count at.now.area.now + more_keys) 2 S.Tiles source.old source.new) }
{
    let _axes = at.part.axes();
    let found = found_at(buffers, source, ground, key, at)?;
    let known = known_after(&found, at.known);
    let column = keyed_column(buffers, source, ground, key, at.part, known)?;
    let columns = one_column(buffers.memory.alloc, column)?;
    Ok(ItemColumns {
        columns,
        known: found,
    })
}

/// The columns of an item's fields at the points of a tile: by a key of its body where that pays.
pub(crate) fn item_columns<S: Tiles>(
    buffers: &mut Buffers,
    source: &mut S,
    ground: &Ground<'_>,
    item: &Item,
    at: &TileAt<'_>,
) -> Result<ItemColumns, CellError>
    requires signatures { IsGroundOf (S.state source.old) ground.now }
    requires placed { IsPartOver (S.state source.old) ground.now (as_item item.now) }
    requires area { at.now.area.now ≡ item.now.domain }
    requires part { IsTilePart at.now.area.now at.now.part.now }
    ensures value { IfOk result (λ x. AreColumnsKnown (S.state source.old) ground.now item.now at.now x.columns.items) }
    ensures known { IfOk result (λ x. Knows (S.state source.old) ground.now item.now x.known) }
    ensures fields { IfOk result (λ x. length x.columns.items ≡ length item.now.fields.items) }
    ensures places { IfOk result (λ x. HavePlaces (length (points at.now.part.now)) x.columns.items) }
    ensures reads { Reads S.Tiles result source.old source.new }
    ensures fetched { FetchesOver result ground.now at.now.part.now S.Tiles source.old source.new (as_item item.now) }
{
    match item_key(item, at.part) {
        None => {
            let _axes = at.part.axes();
            let columns = columns_over(&mut buffers.memory, source, ground, item, at.part)?;
            Ok(ItemColumns {
                columns,
                known: None,
            })
        }
        Some(key) => keyed_columns(buffers, source, ground, &key, at),
    }
}
