//! Syntax trees from tokens: recursive descent over the grammar of queries.
#![tactic(auto)]

mod error;
mod expression;
mod front;
mod grown;
mod limits;
mod query;

pub use error::ParseError;
pub use query::{one_query, one_reading, parse};
