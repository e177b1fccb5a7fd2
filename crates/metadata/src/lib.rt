//! The metadata of a store file: its catalogue, and the tile index of each field of each coverage.
#![tactic(auto)]

mod reading;
mod writing;

pub use reading::{Metadata, read_metadata};
pub use writing::{catalogue_part, push_part};
