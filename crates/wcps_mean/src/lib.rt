//! The meaning of typed queries: cell operations, values at a point, condensers, and the answer of a query, by a plain
//! evaluator.
#![tactic(auto)]

mod answer;
mod cell;
mod cells;
mod eval;
mod item;
mod lookup;
mod part;
mod product;
mod query_part;
mod running;
mod scope;
mod value;

pub use answer::{EvalError, cell_of, eval_plain, field_count, run_length};
pub use cell::{
    Outcome, PointFault, coordinate_in, is_set, operate, operate_both, truth_value, weight,
};
pub use cells::{CellError, Cells};
pub use item::{CellList, Item};
pub use lookup::{coordinate_at, item_at, place_at};
pub use part::Part;
pub use product::Product;
pub use query_part::QueryPart;
pub use running::{Running, value_or_empty};
pub use value::value_at;
