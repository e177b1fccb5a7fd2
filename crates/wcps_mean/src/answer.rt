//! The answer of a query: its items, or the first fault.

ghost use Rattle.std.specs.Prelude.{◌≡◌, ◌<◌, ◌≤◌, ◌*◌, false, get_or, [], ◌∷◌, Ok, Err, Result, OnOk, length, vec_len};
ghost use Rattle.arr_core.specs.Domains.{count};
ghost use Rattle.wcps_types.specs.Cells.{result_cells, max_cells};
ghost use Rattle.wcps_types.specs.Typed.{tree_view};
ghost use Rattle.wcps_types.specs.Renamed.{combination_view};
ghost use Rattle.wcps_types.specs.TypedQueries.{query_view, trees_in};
ghost use Rattle.wcps_mean.specs.Answer.{answer, chosen, item_answer, cell_of, line_of, field_count};
ghost use Rattle.wcps_mean.specs.Errors.{Answers, Lists, Pushes, PassesOn};
ghost use Rattle.wcps_mean.specs.Reading.{Leaves};
ghost use Rattle.wcps_mean.specs.Scopes.{IsSame, answer_of, answer_over, cells_in, item_over, tree_over};

use crate::cell::{Outcome, PointFault, is_set};
use crate::cells::{CellError, Cells};
use crate::eval::eval;
use crate::item::{CellList, Item};
use crate::scope::Scope;
use arr_core::{Axis, Cell};
use std::alloc::{AllocError, AllocFailed, Global};
use thiserror::Error;
use wcps_types::{Combination, Tree, TypedItem, TypedQuery, tree_at};

/// Why a query has no answer.
#[derive(Clone, Copy, PartialEq, Eq, Debug, Error)]
pub enum EvalError {
    /// The answer is this fault.
    #[error("a point has no value")]
    Fault(PointFault),
    /// The answer is not known.
    #[error("a cell is not known")]
    Cells(CellError),
}

impl From<CellError> for EvalError {
    ghost use Rattle.std.specs.Prelude.{◌≡◌};
    ghost use Rattle.wcps_mean.specs.declared.answer.EvalError.TheVariants.{Cells};

    ghost from_gives = { λ c e. e ≡ Cells c };

    fn from(error: CellError) -> EvalError {
        EvalError::Cells(error)
    }
}

impl From<AllocError> for EvalError {
    ghost use Rattle.std.specs.Prelude.{◌≡◌};
    ghost use Rattle.wcps_mean.specs.declared.answer.EvalError.TheVariants.{Cells};
    ghost use Rattle.wcps_mean.specs.declared.cells.CellError.TheVariants.{NoMemory};

    ghost from_gives = { λ _ e. e ≡ Cells NoMemory };

    fn from(_: AllocError) -> EvalError {
        EvalError::Cells(CellError::NoMemory)
    }
}

impl<T: Drop> From<AllocFailed<T>> for EvalError {
    ghost use Rattle.std.specs.Prelude.{◌≡◌};
    ghost use Rattle.wcps_mean.specs.declared.answer.EvalError.TheVariants.{Cells};
    ghost use Rattle.wcps_mean.specs.declared.cells.CellError.TheVariants.{NoMemory};

    ghost from_gives = { λ _ e. e ≡ Cells NoMemory };

    fn from(_: AllocFailed<T>) -> EvalError {
        EvalError::Cells(CellError::NoMemory)
    }
}

/// The answer of a query: combinations in order, for each its condition, and where that is true the cells of its item,
/// points in row-major order and fields in order; or the first fault among these. What `cells` reports passes through.
pub fn eval_plain<C: Cells>(
    alloc: Global,
    cells: &mut C,
    query: &TypedQuery,
) -> Result<Vec<Item>, EvalError>
    ensures answer { Lists C.Cells cells.old result (λ s. answer s (query_view query.now)) }
    ensures leaves { Leaves C.Cells cells.old cells.new }
    ensures reports { PassesOn result (C.intact cells.old) (C.failures cells.old) (C.failures cells.new) }
{
    let mut items = Vec::new(alloc);
    for combination in query.combinations() {
        push_combination(alloc, cells, query, combination, &mut items)?;
    }
    Ok(items)
}

/// Puts the item of a combination, if it gives one, at the end of a list.
fn push_combination<C: Cells>(
    alloc: Global,
    cells: &mut C,
    query: &TypedQuery,
    combination: &Combination,
    items: &mut Vec<Item>,
) -> Result<(), EvalError>
    requires few_cells { result_cells (combination_view (trees_in query.now) combination.now ∷ []) ≤ max_cells }
    ensures pushed { Pushes C.Cells cells.old result (answer_of query.now combination.now) items.old items.new }
    ensures leaves { Leaves C.Cells cells.old cells.new }
    ensures reports { PassesOn result (C.intact cells.old) (C.failures cells.old) (C.failures cells.new) }
{
    let Some(tree) = tree_at(alloc, query, combination.tree)? else {
        return Ok(());
    };
    push_tree(alloc, cells, &combination.coverages, &tree, items)
}

/// Puts the item of a tree over coverages, if it gives one, at the end of a list.
fn push_tree<C: Cells>(
    alloc: Global,
    cells: &mut C,
    coverages: &[usize],
    tree: &Tree,
    items: &mut Vec<Item>,
) -> Result<(), EvalError>
    requires few_cells { result_cells (tree_view tree.now ∷ []) ≤ max_cells }
    ensures pushed { Pushes C.Cells cells.old result (answer_over coverages.now tree.now) items.old items.new }
    ensures leaves { Leaves C.Cells cells.old cells.new }
    ensures reports { PassesOn result (C.intact cells.old) (C.failures cells.old) (C.failures cells.new) }
{
    let gives_item = is_chosen(alloc, cells, coverages, tree)?;
    if !gives_item {
        return Ok(());
    }
    let item = item_of(alloc, cells, coverages, &tree.item)?;
    items.push(item)?;
    Ok(())
}

/// Whether a tree over coverages gives an item: it has no condition, or its condition is true.
fn is_chosen<C: Cells>(
    alloc: Global,
    cells: &mut C,
    coverages: &[usize],
    tree: &Tree,
) -> Result<bool, EvalError>
    ensures answer { Answers C.Cells cells.old result (λ s. chosen s (tree_over coverages.now tree.now).condition) }
    ensures leaves { Leaves C.Cells cells.old cells.new }
    ensures reports { PassesOn result (C.intact cells.old) (C.failures cells.old) (C.failures cells.new) }
{
    match &tree.condition {
        None => Ok(true),
        Some(node) => {
            let mut scope = Scope::new(alloc, coverages);
            let o = eval(cells, &mut scope, node, 0)?;
            match o {
                Outcome::Fault(f) => Err(EvalError::Fault(f)),
                Outcome::Value(x) => Ok(is_set(x)),
            }
        }
    }
}

/// An item of an answer.
fn item_of<C: Cells>(
    alloc: Global,
    cells: &mut C,
    coverages: &[usize],
    item: &TypedItem,
) -> Result<Item, EvalError>
    requires few_cells { count item.now.domain * length item.now.booleans.items ≤ max_cells }
    ensures answer { Answers C.Cells cells.old result (λ s. item_answer s (item_over coverages.now item.now)) }
    ensures leaves { Leaves C.Cells cells.old cells.new }
    ensures reports { PassesOn result (C.intact cells.old) (C.failures cells.old) (C.failures cells.new) }
{
    let fields = count_fields(item);
    let count = item.domain.points() * fields as u64;
    let mut list = Vec::with_capacity(alloc, count as usize)?;
    let mut scope = Scope::new(alloc, coverages);
    for place in 0..item.domain.points() {
        item.domain.push_point(&mut scope.points, place)?;
        push_cells(cells, &mut scope, item, &mut list)?;
        scope.points.truncate(0);
    }
    Ok(Item {
        line: run_length(item.domain.axes()),
        fields,
        cells: CellList::new(list),
    })
}

/// Puts the cells of the fields of an item at the point in scope at the end of a list.
fn push_cells<C: Cells>(
    cells: &mut C,
    scope: &mut Scope<'_>,
    item: &TypedItem,
    list: &mut Vec<Cell>,
) -> Result<(), EvalError>
    requires point { scope.old.base ≤ vec_len scope.old.points }
    requires no_iterators { scope.old.iterators.items ≡ [] }
    ensures pushed { Pushes C.Cells cells.old result (cells_in scope.old item.now) list.old list.new }
    ensures scope { OnOk result (IsSame scope.old scope.new) }
    ensures leaves { Leaves C.Cells cells.old cells.new }
    ensures reports { PassesOn result (C.intact cells.old) (C.failures cells.old) (C.failures cells.new) }
{
    for field in 0..item.booleans.len() {
        let o = eval(cells, scope, &item.node, field)?;
        match o {
            Outcome::Fault(f) => return Err(EvalError::Fault(f)),
            Outcome::Value(x) => list.push(field_cell(item, field, x))?,
        }
    }
    Ok(())
}

/// The cell of the field at a place: a Boolean or an integer.
fn field_cell(item: &TypedItem, field: usize, x: i64) -> Cell
    requires { field < length item.now.booleans.items }
    ensures { result ≡ cell_of (get_or item.now.booleans.items field false) x }
{
    cell_of(item.booleans[field], x)
}

/// A value of an item: a Boolean or an integer.
pub fn cell_of(boolean: bool, x: i64) -> Cell
    ensures { result ≡ cell_of boolean x }
{
    if boolean {
        Cell::Bool(is_set(x))
    } else {
        Cell::Int(x)
    }
}

/// How many fields an item has, whose cells are few.
fn count_fields(item: &TypedItem) -> u32
    requires { count item.now.domain * length item.now.booleans.items ≤ max_cells }
    ensures value { result ≡ field_count (length item.now.booleans.items) }
    ensures same { result ≡ length item.now.booleans.items }
{
    item.booleans.len() as u32
}

/// The number of fields of an item as 32 bits hold it: the greatest such number where there are more.
pub fn field_count(fields: usize) -> u32
    ensures { result ≡ field_count fields }
{
    fields.min(4_294_967_295) as u32
}

/// How many points a run along the last axis has.
pub fn run_length(axes: &[Axis]) -> u64
    ensures { result ≡ line_of axes.now }
{
    match axes {
        [] => 1,
        [axis] => axis.size(),
        [_, rest @ ..] => run_length(rest),
    }
}
