//! The cells of a tile as bytes: runs of equal cells, each a count of 16 bits and a value in the
//! width of the field's type, both with the lowest byte first; or the values alone, one after the other.
#![tactic(auto)]

mod decoding;
mod encoding;
mod listing;
mod narrow;
mod number;
mod picking;
mod raw;
mod reading;
mod run;

pub use decoding::{decode, decode_into, decode_runs};
pub use encoding::encode;
pub use picking::{pick_runs, raw_cell};
pub use run::width;
