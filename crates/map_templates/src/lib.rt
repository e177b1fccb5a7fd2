//! Tomlin's local, focal and zonal operations as queries.
#![tactic(auto)]

mod expansion;
mod focal;
mod local;
mod params;
mod parts;
mod pieces;
mod refusal;
mod template;
mod zonal;

pub use expansion::expand;
pub use params::{Layer, Params};
pub use refusal::{ExpandError, ExpandRefusal};
pub use template::{LocalOperation, Summary, Template};
