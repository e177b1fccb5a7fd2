//! The catalogue: the signatures of the coverages that are held, in the order of their insertion,
//! and their bytes.
#![tactic(auto)]

mod catalogue;
mod error;
mod lengths;
mod reading;
mod writing;

pub use catalogue::Catalogue;
pub use error::{InsertError, NoSuchCoverage};
