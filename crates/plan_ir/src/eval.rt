//! Evaluation of bodies at one point.

ghost use Rattle.std.specs.Prelude.{◌≡◌, ◌+◌, ◌<◌, ◌≤◌, pos, [], ◌∷◌, ◌++◌, slice_index_or, IfOk, OnOk};
ghost use Rattle.arr_core.specs.Limits.{max_points};
ghost use Rattle.wcps_mean.specs.declared.cell.Outcome.{Outcome};
ghost use Rattle.wcps_mean.specs.Reading.{Leaves, Returns};
ghost use Rattle.wcps_mean.specs.Reports.{Reports};
ghost use Rattle.plan_ir.specs.Bodies.{body_view, fold_view};
ghost use Rattle.plan_ir.specs.Run.{number_at, numbers_at};
ghost use Rattle.plan_ir.specs.Frames.{TakesIn, demanded_in, run_in};

use crate::body::{Body, Fold, Index};
use arr_core::rank_of;
use std::alloc::{AllocError, Global};
use wcps_mean::{
    CellError, Cells, Outcome, Running, coordinate_at, coordinate_in, item_at, operate,
    operate_both, place_at,
};

/// What bodies of one combination stand over: its coverages, by their places in the plan, and the outcomes of its
/// passes.
#[derive(Drop)]
pub(crate) struct Frame {
    pub coverages: Vec<usize>,
    pub registers: Vec<Outcome>,
}

/// The outcome of a body under variables with those numbers. The list grows and shrinks as the evaluation goes down and
/// up; after an outcome it is as before.
#[cycle(eval)]
pub(crate) fn eval<C: Cells>(
    alloc: Global,
    cells: &mut C,
    frame: &Frame,
    e: &Body,
    vars: &mut Vec<i32>,
) -> Result<Outcome, CellError>
    ensures value { Returns C.Cells cells.old result (run_in frame.now (body_view e.now) vars.old.items) }
    ensures scope { OnOk result (vars.new.items ≡ vars.old.items) }
    ensures leaves { Leaves C.Cells cells.old cells.new }
    ensures reports { Reports result (C.intact cells.old) (C.failures cells.old) (C.failures cells.new) }
{
    match e {
        Body::Lit(z) => Ok(Outcome::Value(*z)),
        Body::Var(k) => Ok(Outcome::Value(coordinate_at(vars, *k))),
        Body::Reg(k) => Ok(register(&frame.registers, *k)),
        Body::Op1(op, e) => {
            let x = eval(alloc, cells, frame, e, vars)?;
            Ok(operate(*op, x))
        }
        Body::Op2(op, l, r) => {
            let x = eval(alloc, cells, frame, l, vars)?;
            let y = eval(alloc, cells, frame, r, vars)?;
            Ok(operate_both(*op, x, y))
        }
        Body::Read {
            coverage,
            field,
            indexes,
        } => {
            let point = numbers(alloc, vars, indexes)?;
            let place = place_at(&frame.coverages, *coverage);
            let z = cells.cell(place, *field, &point)?;
            Ok(Outcome::Value(z))
        }
        Body::Table {
            domain,
            items,
            indexes,
        } => {
            let point = numbers(alloc, vars, indexes)?;
            let place = rank_of(domain.axes(), &point);
            Ok(Outcome::Value(item_at(items, place)))
        }
        Body::Bind {
            position,
            interval,
            body,
        } => {
            let x = eval(alloc, cells, frame, position, vars)?;
            match coordinate_in(x, interval.lo, interval.hi) {
                Err(f) => Ok(Outcome::Fault(f)),
                Ok(z) => {
                    let o = at_coordinate(alloc, cells, frame, body, vars, z)?;
                    Ok(o)
                }
            }
        }
        Body::Fold(f) => {
            let o = fold(alloc, cells, frame, f, vars)?;
            Ok(o)
        }
    }
}

/// The outcome of a body under one more variable.
#[cycle(eval)]
fn at_coordinate<C: Cells>(
    alloc: Global,
    cells: &mut C,
    frame: &Frame,
    e: &Body,
    vars: &mut Vec<i32>,
    z: i32,
) -> Result<Outcome, CellError>
    ensures value { Returns C.Cells cells.old result (run_in frame.now (body_view e.now) (vars.old.items ++ z ∷ [])) }
    ensures scope { OnOk result (vars.new.items ≡ vars.old.items) }
    ensures leaves { Leaves C.Cells cells.old cells.new }
    ensures reports { Reports result (C.intact cells.old) (C.failures cells.old) (C.failures cells.new) }
{
    let depth = vars.len();
    push(vars, z)?;
    let o = eval(alloc, cells, frame, e, vars)?;
    vars.truncate(depth);
    Ok(o)
}

/// The outcome of a fold: its variables go over the points of its domain in row-major order.
#[cycle(eval)]
pub(crate) fn fold<C: Cells>(
    alloc: Global,
    cells: &mut C,
    frame: &Frame,
    f: &Fold,
    vars: &mut Vec<i32>,
) -> Result<Outcome, CellError>
    ensures value { Returns C.Cells cells.old result (run_in frame.now (fold_view f.now) vars.old.items) }
    ensures scope { OnOk result (vars.new.items ≡ vars.old.items) }
    ensures leaves { Leaves C.Cells cells.old cells.new }
    ensures reports { Reports result (C.intact cells.old) (C.failures cells.old) (C.failures cells.new) }
{
    let mut running = Running::new(f.op);
    let depth = vars.len();
    for place in 0..f.domain.points() {
        f.domain.push_point(vars, place)?;
        feed(alloc, cells, frame, f, vars, &mut running)?;
        vars.truncate(depth);
    }
    Ok(running.finish())
}

/// Gives a condenser what a point demands: the condition's fault, nothing where it is false, else the body's outcome.
#[cycle(eval)]
fn feed<C: Cells>(
    alloc: Global,
    cells: &mut C,
    frame: &Frame,
    f: &Fold,
    vars: &mut Vec<i32>,
    running: &mut Running,
) -> Result<(), CellError>
    requires { running.old.count < max_points }
    ensures fed { TakesIn C.Cells cells.old result (demanded_in frame.now f.now vars.old.items) running.old running.new }
    ensures count { OnOk result (running.new.count ≤ running.old.count + 1) }
    ensures op { OnOk result (running.new.op ≡ running.old.op) }
    ensures scope { OnOk result (vars.new.items ≡ vars.old.items) }
    ensures leaves { Leaves C.Cells cells.old cells.new }
    ensures reports { Reports result (C.intact cells.old) (C.failures cells.old) (C.failures cells.new) }
{
    match &f.condition {
        None => {
            let o = eval(alloc, cells, frame, &f.body, vars)?;
            running.add(o);
            Ok(())
        }
        Some(condition) => {
            let c = eval(alloc, cells, frame, condition, vars)?;
            if !running.demands(c) {
                return Ok(());
            }
            let o = eval(alloc, cells, frame, &f.body, vars)?;
            running.add(o);
            Ok(())
        }
    }
}

/// Puts a number at the end of a list.
pub(crate) fn push(list: &mut Vec<i32>, z: i32) -> Result<(), AllocError>
    ensures { OnOk result (list.new.items ≡ list.old.items ++ z ∷ []) }
{
    list.push(z)?;
    Ok(())
}

/// The point of the indexes.
fn numbers(alloc: Global, vars: &[i32], indexes: &[Index]) -> Result<Vec<i32>, AllocError>
    ensures { IfOk result (λ p. p.items ≡ numbers_at vars.now indexes.now) }
{
    let mut point = Vec::new(alloc);
    for index in indexes {
        point.push(number(vars, *index))?;
    }
    Ok(point)
}

/// The coordinate that an index stands for.
fn number(vars: &[i32], index: Index) -> i32
    ensures { result ≡ number_at vars.now index }
{
    match index {
        Index::Const(z) => z,
        Index::Var(k) => match vars.get(k) {
            Some(x) => *x,
            None => 0,
        },
    }
}

/// What a register holds.
pub fn register(registers: &[Outcome], k: usize) -> Outcome
    ensures { result ≡ slice_index_or registers.now k (Outcome.Value (pos 0)) }
{
    match registers.get(k) {
        Some(o) => *o,
        None => Outcome::Value(0),
    }
}
