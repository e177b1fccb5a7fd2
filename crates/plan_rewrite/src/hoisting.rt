//! Folds that become passes.

mod closed;
mod folds;
mod passes;

pub use passes::{hoist, hoist_plan};
