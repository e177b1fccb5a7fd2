//! Columns of a tile's outcomes: a cell operation over a whole column at a time, and condensers that take in columns in
//! any order.
#![tactic(auto)]

mod accumulator;
mod by_keys;
mod choice;
mod column;
mod condenser;
mod conditions;
mod first_fault;
mod folds;
mod form;
mod joined;
mod keyed;
mod lane_operations;
mod lanes;
mod loops;
mod narrow_loops;
mod narrow_operand;
mod narrow_operations;
mod narrow_reduce;
mod narrow_trial;
mod operand;
mod operate;
mod operate_narrow;
mod operate_narrow_one;
mod operate_one;
mod operations;
mod pair;
mod paired;
mod reduce;
mod runs;
mod seen;
mod slots;
mod summaries;
mod summary;
mod tallied;
mod trial;
mod view;
mod windows;

pub use accumulator::Accumulator;
pub use by_keys::condense_keyed;
pub use column::{Column, MAX_PLACES};
pub use condenser::{Condensed, Condenser, condense, finish_both, tell_each};
pub use conditions::is_never;
pub use first_fault::FirstFault;
pub use folds::{
    add_column, add_column_where, fold_column, fold_column_where, fold_values, fold_values_where,
};
pub use keyed::{Numbers, add_keyed};
pub use operate::operate_columns;
pub use operate_one::operate_column;
pub use slots::Slots;
pub use summaries::{AllTrue, Factors, Greatest, Least, Mean, SomeTrue, Total, Trues};
pub use summary::Summary;
pub use windows::{Grid, Span, condense_windows};
