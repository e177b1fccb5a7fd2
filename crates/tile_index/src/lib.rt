//! The index of a field: which tiles lie in which blocks of the file. A tile that it does not list
//! is 0 or false everywhere.
#![tactic(auto)]

mod changes;
mod entry;
mod index;
mod reading;
mod writing;

pub use entry::{BlockList, Entry, MAX_TILE_BLOCKS};
pub use index::TileIndex;
