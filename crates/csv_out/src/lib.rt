//! Answers as CSV text.
#![tactic(auto)]

mod cells;
mod csv;

pub use csv::csv_text;
