//! Typing of WCPS queries (OGC 08-068r2, in this project's profile): from the syntax tree and the signatures of the
//! coverages to a query whose names are resolved, or the first refusal.
#![tactic(auto)]

mod bindings;
mod bound;
mod bounds;
mod boxes;
mod brackets;
mod cells;
mod context;
mod effort;
mod expression;
mod extent;
mod frames;
mod item;
mod labels;
mod name_tokens;
mod names;
mod nodes;
mod operators;
mod pieces;
mod query;
mod records;
mod refusal;
mod same;
mod scope;
mod shape;
mod sharing;
mod source;
mod typed;
mod typed_query;
mod variables;

pub use effort::work;
pub use name_tokens::names_are_tokens;
pub use query::check;
pub use refusal::{CheckError, TypeRefusal};
pub use source::tree_at;
pub use typed::{Node, Tree, TypedItem};
pub use typed_query::{Combination, Maker, TypedQuery};
