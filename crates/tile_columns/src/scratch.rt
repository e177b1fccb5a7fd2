//! Lists and columns that reads and operations write to, one after the other.

ghost use Rattle.std.specs.Prelude.{◌≡◌};

use crate::spots::Spot;
use arr_core::RunList;
use std::alloc::{AllocError, Global};
use tile_kernel::Column;
use wcps_mean::Outcome;

/// Lists of a column's length, and columns that no one uses. They grow as they are needed and are then used again, so
/// that reads and operations that have been done once take no further memory for them.
#[derive(Drop)]
pub struct Scratch {
    alloc: Global,
    pub(crate) keeps_runs: bool,
    pub(crate) cells: Vec<i64>,
    pub(crate) tile: Vec<i64>,
    pub(crate) runs: RunList,
    pub(crate) coordinates: Vec<i64>,
    pub(crate) numbers: Vec<u64>,
    pub(crate) ranks: Vec<u64>,
    pub(crate) seen: Vec<u64>,
    pub(crate) spots: Vec<Spot>,
    pub(crate) wanted: Vec<u64>,
    pub(crate) picked: Vec<i64>,
    pub(crate) point: Vec<i32>,
    pub(crate) outcomes: Vec<Outcome>,
    spare: Vec<Column>,
}

impl Scratch {
    /// Nothing yet.
    pub fn new(alloc: Global) -> Scratch {
        Scratch {
            alloc,
            keeps_runs: false,
            cells: Vec::new(alloc),
            tile: Vec::new(alloc),
            runs: RunList::of(alloc, Vec::new(alloc), Vec::new(alloc)),
            coordinates: Vec::new(alloc),
            numbers: Vec::new(alloc),
            ranks: Vec::new(alloc),
            seen: Vec::new(alloc),
            spots: Vec::new(alloc),
            wanted: Vec::new(alloc),
            picked: Vec::new(alloc),
            point: Vec::new(alloc),
            outcomes: Vec::new(alloc),
            spare: Vec::new(alloc),
        }
    }

    /// Whether a column may keep the cells of a whole tile as runs, where they lie so: for folds and operations it is
    /// to, and not for what reads it place by place.
    pub fn keep_runs(&mut self, keeps: bool)
        ensures { self.new.keeps_runs ≡ keeps }
    {
        self.keeps_runs = keeps;
    }

    /// What makes further lists.
    pub(crate) fn alloc(&self) -> Global {
        self.alloc
    }

    /// A column to be written: one that was given back, or a new one.
    pub(crate) fn take_column(&mut self) -> Result<Column, AllocError> {
        match self.spare.pop() {
            Some(column) => return Ok(column),
            None => (),
        }
        Column::new(self.alloc)
    }

    /// Takes back a column that is done with.
    pub(crate) fn give_back(&mut self, column: Column) {
        let _ = self.spare.push(column);
    }
}
