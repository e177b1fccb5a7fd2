//! From typed queries to plans.

mod choice;
mod context;
mod expression;
mod item;
mod query;

pub use choice::lower_steps;
pub use expression::lower_expression;
pub use query::lower;
