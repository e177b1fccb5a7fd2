//! The text of a query: its tokens, and the syntax trees that tokens spell.
//!
//! The language is the WCPS Language Interface Standard, OGC 08-068r2, in this project's own profile.
#![tactic(auto)]

mod error;
mod lexer;
mod name;
mod number;
mod operator;
mod piece;
mod runs;
mod symbol;
mod token;
mod tree;

pub use error::LexError;
pub use lexer::lex;
pub use name::QueryName;
pub use operator::{Aggregate, BinaryOperator, UnaryOperator};
pub use token::{Kind, Literal, Symbol, Token};
pub use tree::{Binding, Expr, Interval, Item, Iter, ListItem, Part, Place, Query, Sub};
