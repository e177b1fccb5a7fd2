//! The items of a plan, point by point.

ghost use Rattle.std.specs.Prelude.{◌≡◌, [], ◌∷◌, ◌++◌, Ok, Err, Result, IfOk, OnOk, option_copied, slice_get};
ghost use Rattle.wcps_mean.specs.Errors.{Answers, Lists, PassesOn, Pushes};
ghost use Rattle.wcps_mean.specs.Answer.{cell_of, field_count};
ghost use Rattle.wcps_mean.specs.Reading.{Leaves};
ghost use Rattle.wcps_mean.specs.Reports.{Reports};
ghost use Rattle.wcps_mean.specs.declared.cell.Outcome.{Outcome};
ghost use Rattle.plan_ir.specs.Run.{run};
ghost use Rattle.plan_ir.specs.Plans.{plan_view};
ghost use Rattle.plan_ir.specs.Planned.{registers, bound, planned};
ghost use Rattle.plan_ir.specs.Frames.{Binds, HasRun, bound_in, cells_in, chosen_in, fields_in, item_in, items_of, items_over};

use crate::body::{Body, Fold};
use crate::eval::{Frame, eval, fold, push};
use crate::plan::{Bind, Combination, Field, Item as PlannedItem, Plan, Steps};
use arr_core::Cell;
use std::alloc::{AllocError, Global};
use wcps_mean::{
    CellError, CellList, Cells, EvalError, Item, Outcome, cell_of, coordinate_in, field_count,
    is_set, run_length,
};

/// The items of a plan: combinations in order, for each its condition, and where that is true the cells of its item,
/// points in row-major order and fields in order; or the first fault among these. A pass's fault counts only where its
/// register is demanded. What `cells` reports passes through.
pub fn run<C: Cells>(alloc: Global, cells: &mut C, plan: &Plan) -> Result<Vec<Item>, EvalError>
    ensures answer { Lists C.Cells cells.old result (λ s. planned s (plan_view plan.now)) }
    ensures leaves { Leaves C.Cells cells.old cells.new }
    ensures reports { PassesOn result (C.intact cells.old) (C.failures cells.old) (C.failures cells.new) }
{
    let mut items = Vec::new(alloc);
    for combination in &plan.combinations {
        push_combination(alloc, cells, &plan.steps, combination, &mut items)?;
    }
    Ok(items)
}

/// Puts the item of a combination, if it gives one, at the end of a list.
fn push_combination<C: Cells>(
    alloc: Global,
    cells: &mut C,
    steps: &[Steps],
    combination: &Combination,
    items: &mut Vec<Item>,
) -> Result<(), EvalError>
    ensures pushed { Pushes C.Cells cells.old result (items_of steps.now combination.now) items.old items.new }
    ensures leaves { Leaves C.Cells cells.old cells.new }
    ensures reports { PassesOn result (C.intact cells.old) (C.failures cells.old) (C.failures cells.new) }
{
    match steps_at(steps, combination.steps) {
        None => Ok(()),
        Some(steps) => {
            let coverages = coverages_of(alloc, combination)?;
            push_steps(alloc, cells, coverages, steps, items)?;
            Ok(())
        }
    }
}

/// The steps at a place.
fn steps_at(steps: &[Steps], k: usize) -> Option<&Steps>
    ensures { option_copied result ≡ slice_get steps.now k }
{
    steps.get(k)
}

/// The coverages of a combination.
fn coverages_of(alloc: Global, combination: &Combination) -> Result<Vec<usize>, AllocError>
    ensures { IfOk result (λ v. v.items ≡ combination.now.coverages.items) }
{
    let list = combination.coverages.to_vec(alloc)?;
    Ok(list)
}

/// Runs steps over coverages, and puts their item, if they give one, at the end of a list.
fn push_steps<C: Cells>(
    alloc: Global,
    cells: &mut C,
    coverages: Vec<usize>,
    steps: &Steps,
    items: &mut Vec<Item>,
) -> Result<(), EvalError>
    ensures pushed { Pushes C.Cells cells.old result (items_over coverages.items steps.now) items.old items.new }
    ensures leaves { Leaves C.Cells cells.old cells.new }
    ensures reports { PassesOn result (C.intact cells.old) (C.failures cells.old) (C.failures cells.new) }
{
    let frame = run_passes(alloc, cells, coverages, &steps.passes)?;
    let gives_item = is_chosen(alloc, cells, &frame, &steps.condition)?;
    if !gives_item {
        return Ok(());
    }
    let item = item_of(alloc, cells, &frame, &steps.item)?;
    items.push(item)?;
    Ok(())
}

/// The outcomes of passes in their order.
fn run_passes<C: Cells>(
    alloc: Global,
    cells: &mut C,
    coverages: Vec<usize>,
    passes: &[Fold],
) -> Result<Frame, CellError>
    ensures registers { IfOk result (λ frame. C.intact cells.old → HasRun (C.cells cells.old) passes.now frame) }
    ensures coverages { IfOk result (λ frame. frame.coverages ≡ coverages) }
    ensures leaves { Leaves C.Cells cells.old cells.new }
    ensures reports { Reports result (C.intact cells.old) (C.failures cells.old) (C.failures cells.new) }
{
    let mut frame = Frame {
        coverages,
        registers: Vec::new(alloc),
    };
    let mut vars = Vec::new(alloc);
    for pass in passes {
        let o = fold(alloc, cells, &frame, pass, &mut vars)?;
        push_register(&mut frame.registers, o)?;
    }
    Ok(frame)
}

/// Puts an outcome at the end of a list.
fn push_register(registers: &mut Vec<Outcome>, o: Outcome) -> Result<(), AllocError>
    ensures { OnOk result (registers.new.items ≡ registers.old.items ++ o ∷ []) }
{
    registers.push(o)?;
    Ok(())
}

/// Whether there is an item: there is no condition, or it is true.
fn is_chosen<C: Cells>(
    alloc: Global,
    cells: &mut C,
    frame: &Frame,
    condition: &Option<Body>,
) -> Result<bool, EvalError>
    ensures answer { Answers C.Cells cells.old result (chosen_in frame.now condition.now) }
    ensures leaves { Leaves C.Cells cells.old cells.new }
    ensures reports { PassesOn result (C.intact cells.old) (C.failures cells.old) (C.failures cells.new) }
{
    match condition {
        None => Ok(true),
        Some(body) => {
            let mut vars = Vec::new(alloc);
            let o = eval(alloc, cells, frame, body, &mut vars)?;
            match o {
                Outcome::Fault(f) => Err(EvalError::Fault(f)),
                Outcome::Value(x) => Ok(is_set(x)),
            }
        }
    }
}

/// An item.
fn item_of<C: Cells>(
    alloc: Global,
    cells: &mut C,
    frame: &Frame,
    item: &PlannedItem,
) -> Result<Item, EvalError>
    ensures answer { Answers C.Cells cells.old result (item_in frame.now item.now) }
    ensures leaves { Leaves C.Cells cells.old cells.new }
    ensures reports { PassesOn result (C.intact cells.old) (C.failures cells.old) (C.failures cells.new) }
{
    let mut list = Vec::new(alloc);
    let mut vars = Vec::new(alloc);
    for place in 0..item.domain.points() {
        item.domain.push_point(&mut vars, place)?;
        push_cells(alloc, cells, frame, item, &mut vars, &mut list)?;
        vars.truncate(0);
    }
    Ok(Item {
        line: run_length(item.domain.axes()),
        fields: field_count(item.fields.len()),
        cells: CellList::new(list),
    })
}

/// Puts the cells of the fields at a point at the end of a list. The variables of the binds are left behind the point.
fn push_cells<C: Cells>(
    alloc: Global,
    cells: &mut C,
    frame: &Frame,
    item: &PlannedItem,
    vars: &mut Vec<i32>,
    list: &mut Vec<Cell>,
) -> Result<(), EvalError>
    ensures pushed { Pushes C.Cells cells.old result (cells_in frame.now item.now vars.old.items) list.old list.new }
    ensures leaves { Leaves C.Cells cells.old cells.new }
    ensures reports { PassesOn result (C.intact cells.old) (C.failures cells.old) (C.failures cells.new) }
{
    push_bound(alloc, cells, frame, &item.binds, vars)?;
    push_fields(alloc, cells, frame, &item.fields, vars, list)?;
    Ok(())
}

/// Puts the variables of binds at the end of those before them.
fn push_bound<C: Cells>(
    alloc: Global,
    cells: &mut C,
    frame: &Frame,
    binds: &[Bind],
    vars: &mut Vec<i32>,
) -> Result<(), EvalError>
    ensures bound { Binds C.Cells cells.old result (bound_in frame.now binds.now vars.old.items) vars.new.items }
    ensures leaves { Leaves C.Cells cells.old cells.new }
    ensures reports { PassesOn result (C.intact cells.old) (C.failures cells.old) (C.failures cells.new) }
{
    match binds {
        [] => Ok(()),
        [bind, rest @ ..] => {
            let o = eval(alloc, cells, frame, &bind.position, vars)?;
            match coordinate_in(o, bind.interval.lo, bind.interval.hi) {
                Err(f) => Err(EvalError::Fault(f)),
                Ok(z) => {
                    push(vars, z)?;
                    push_bound(alloc, cells, frame, rest, vars)
                }
            }
        }
    }
}

/// Puts the cells of fields at the end of a list.
fn push_fields<C: Cells>(
    alloc: Global,
    cells: &mut C,
    frame: &Frame,
    fields: &[Field],
    vars: &mut Vec<i32>,
    list: &mut Vec<Cell>,
) -> Result<(), EvalError>
    ensures pushed { Pushes C.Cells cells.old result (fields_in frame.now fields.now vars.old.items) list.old list.new }
    ensures leaves { Leaves C.Cells cells.old cells.new }
    ensures reports { PassesOn result (C.intact cells.old) (C.failures cells.old) (C.failures cells.new) }
{
    for field in fields {
        let o = eval(alloc, cells, frame, &field.body, vars)?;
        match o {
            Outcome::Fault(f) => return Err(EvalError::Fault(f)),
            Outcome::Value(x) => list.push(cell_of(field.boolean, x))?,
        }
    }
    Ok(())
}
