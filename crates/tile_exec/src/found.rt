//! What a unit finds, before it is kept.

use crate::known::Known;
use arr_core::Cell;
use tile_kernel::{Accumulator, Column, FirstFault};
use wcps_mean::Outcome;

/// A tile of an item: the columns of its fields, the places of its points, which fields are Boolean, and the first
/// fault. What a run along the last axis has, and how many fields, are those of the item. A first tile brings room for
/// the item's cells, and what it found of all its points.
#[derive(Drop)]
pub(crate) struct ItemTile {
    pub columns: Vec<Column>,
    pub places: Vec<u64>,
    pub booleans: Vec<bool>,
    pub first: FirstFault,
    pub fresh: Vec<Cell>,
    pub known: Option<Known>,
    pub line: u64,
    pub fields: u32,
}

/// What a tile of a task gives.
#[derive(Drop)]
pub(crate) enum Found {
    Pass(Accumulator),
    Condition(Outcome),
    Item(ItemTile),
    /// An item without fields, by what a run along its last axis has.
    Fieldless(u64),
    /// Nothing: there is no item to give, or no task is left.
    Skipped,
}

/// A unit, and whether it is the last one of its task.
#[derive(Drop)]
pub(crate) struct Unit {
    pub last: bool,
    pub found: Found,
}
