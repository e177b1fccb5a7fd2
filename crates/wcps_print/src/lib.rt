//! Queries as text again.
#![tactic(auto)]

mod expression;
mod query;
mod words;

pub use query::print;
