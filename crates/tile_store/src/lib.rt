//! One field of a coverage over the blocks of a file: its cells lie in tiles, and a tile as runs of equal cells, or as
//! its cells one after the other where that takes fewer bytes. A write goes to fresh blocks first, and then the index
//! of the field is exchanged.
#![tactic(auto)]

mod bytes;
mod fault;
mod field;
mod numbers;
mod overlay;
mod picking;
mod reserve;
mod runs;
mod tile;
mod update;

pub use fault::Fault;
pub use field::{FieldIndex, FieldTiles, give_back, read_tile_into, write_area};
pub use numbers::{Numbers, Patch};
pub use picking::pick_tile_into;
pub use runs::read_runs_into;
