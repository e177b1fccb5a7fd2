//! From typed queries to plans, and rewriting of plans: binds that are inlined, folds that become passes.
#![tactic(auto)]

mod hoisting;
mod inlining;
mod lowering;
mod nodes;
mod rewriting;
mod variables;

pub use hoisting::hoist;
pub use inlining::inline;
pub use lowering::{lower, lower_expression, lower_steps};
pub use rewriting::rewrite;
