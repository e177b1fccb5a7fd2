//! Blocks of a file with pages kept of those that are asked for again. They are written through.
#![tactic(auto)]

mod page;
mod page_pool;
mod pages;

pub use page_pool::PagePool;
