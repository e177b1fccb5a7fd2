//! Binds that are inlined.

mod body;
mod steps;

pub use steps::{inline, inline_plan};
