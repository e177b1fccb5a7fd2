//! What a unit works in.

use std::alloc::{AllocError, Global};
use std::marker::Model;
use tile_columns::Scratch;
use tile_kernel::Column;

/// Where bodies are evaluated: what makes lists, and lists that are written again and again.
#[derive(Drop)]
pub(crate) struct Memory {
    pub alloc: Global,
    pub scratch: Scratch,
}

/// Lists and columns that each unit writes before it reads them, so that they grow in the first units alone. To a
/// caller all are the same.
#[derive(Drop)]
pub(crate) struct Buffers {
    pub memory: Memory,
    /// The places of a tile's points.
    pub places: Vec<u64>,
    /// The outcomes of a pass's condition.
    pub chosen: Column,
    /// The outcomes of a body.
    pub column: Column,
}

impl Model for Buffers {
    ghost Value = { Unit {0} };

    ghost view = { λ _. tt };
}

impl Buffers {
    /// Nothing yet, but room for the columns.
    pub fn new(alloc: Global) -> Result<Buffers, AllocError> {
        let memory = Memory {
            alloc,
            scratch: Scratch::new(alloc),
        };
        let chosen = Column::new(alloc)?;
        let column = Column::new(alloc)?;
        Ok(Buffers {
            memory,
            places: Vec::new(alloc),
            chosen,
            column,
        })
    }

    /// Takes back the list for the places of a tile's points.
    pub fn take_back(&mut self, places: Vec<u64>) {
        self.places = places;
    }
}
