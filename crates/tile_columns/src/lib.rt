//! Columns of what a plan's bodies read: the numbers of variables at the places of a tile box, and the cells of
//! coverages there, which come a tile at a time.
#![tactic(auto)]

mod binds;
mod blanks;
mod bodies;
mod covering;
mod different;
mod fields;
mod folds;
mod frame;
mod gather;
mod ground;
mod halo;
mod keyed;
mod locate;
mod lookup;
mod numbers;
mod part;
mod pattern;
mod reach;
mod same;
mod scratch;
mod shapes;
mod sides;
mod source;
mod spots;
mod stretches;
mod tiling;
mod windows;
mod zone_folds;
mod zones;

pub use bodies::evaluate;
pub use fields::evaluate_fields;
pub use frame::Frame;
pub use gather::{Reading, read};
pub use ground::Ground;
pub use keyed::evaluate_keyed;
pub use lookup::{fill_variable, look_up};
pub use part::ranks;
pub use same::same_zones;
pub use scratch::Scratch;
pub use source::Tiles;
pub use zones::{Key, Zones, key_of};
