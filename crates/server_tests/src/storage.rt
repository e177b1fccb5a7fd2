//! Calls of the crates of storage: names, domains and tiles, the bytes of tiles, indexes, catalogues and metadata,
//! disks that fail or lie, files of blocks, and stores of coverages.

mod blocks;
mod catalogues;
pub mod disks;
mod domains;
mod file_metadata;
mod formats;
mod indexes;
mod lists;
mod picks;
pub mod site;
mod stores;
mod values;
mod words;
