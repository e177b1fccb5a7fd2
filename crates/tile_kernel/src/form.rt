//! How a column keeps its outcomes.

use wcps_mean::Outcome;

/// What a column's outcomes are read from.
#[derive(Clone, Copy)]
pub(crate) enum Form {
    /// One outcome, the same at every place.
    Same(Outcome),
    /// The values; no place has a fault.
    Values,
    /// The values, in 32 bits each; no place has a fault.
    Narrow,
    /// The values and the faults.
    Mixed,
}
