//! A store of coverages over the blocks of a file. Each coverage has a name, and a function a field over the points of
//! its domain; a field is kept in tiles.
#![tactic(auto)]

mod decoded;
mod fault;
mod fetching;
mod held;
mod lists;
mod picking;
mod reading;
mod runs;
mod sizes;
mod snapshot;
mod store;
mod writing;

pub use fault::WriteFault;
pub use reading::TileAt;
pub use store::RasterStore;
pub use tile_store::Fault;
