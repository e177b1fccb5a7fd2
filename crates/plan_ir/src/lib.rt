//! Plans: what a query becomes before it runs. A plan has no trim, no slice and no array: each cell is read at indexes
//! that are constants or variables.
#![tactic(auto)]

mod body;
mod eval;
mod items;
mod plan;
mod variables;

pub use body::{Body, Fold, Index, Interval};
pub use eval::register;
pub use items::run;
pub use plan::{Bind, Combination, Field, Item, Plan, Steps};
pub use variables::{fold_is_from, is_below, is_from};
