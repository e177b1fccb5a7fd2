//! A cell operation over one column.

ghost use Rattle.std.specs.Prelude.{◌≡◌, ◌≤◌, length, map, IsTrue};
ghost use Rattle.arr_core.specs.Limits.{max_tile};
ghost use Rattle.wcps_mean.specs.Cells.{exact1, operate1};
ghost use Rattle.tile_kernel.specs.Columns.{each1, AreValues, AreOutcomes, IsAsRoomy};
ghost use Rattle.tile_kernel.specs.Repeated.{runs_shown};

use crate::column::{Column, MAX_PLACES, grow};
use crate::form::Form;
use crate::loops::try_places;
use crate::operand::{Each, EachNarrow, Operand, Same};
use crate::operate_narrow_one::operate_narrow_one;
use crate::operations::{Itself, Magnitude, Negative, Opposite};
use crate::seen::{Runs, Seen};
use crate::view::{View, parts};
use wcps_mean::{PointFault, operate};
use wcps_text::UnaryOperator;

/// Makes `out` the operation at each place: the operand's fault, else the exact result, tested. Values of 32 bits stay
/// such where each result is seen to be one, and an operand that is kept as runs is taken run by run where each result
/// is a value. It takes memory for values of 32 bits and for the counts of runs alone, and does without where there is
/// none.
pub fn operate_column(op: UnaryOperator, operand: &Column, out: &mut Column)
    ensures { out.new ≡ map (operate1 op) operand.now }
{
    match operand.seen() {
        Seen::Each(view) => operate_view(op, &view, out),
        Seen::Runs(runs) => operate_runs(op, &runs, out),
    }
}

/// The operation run by run; place by place where some result is a fault.
fn operate_runs(op: UnaryOperator, operand: &Runs<'_>, out: &mut Column)
    ensures { out.new ≡ map (operate1 op) (runs_shown operand.now) }
{
    operate_view(op, &operand.heads(), out);
    if out.repeat(operand.counts, operand.len) {
        return;
    }
    operate_spread(op, operand, out);
}

/// The operation place by place.
#[inline(never)]
fn operate_spread(op: UnaryOperator, operand: &Runs<'_>, out: &mut Column)
    ensures { out.new ≡ map (operate1 op) (runs_shown operand.now) }
{
    let mut room = [0i64; MAX_PLACES];
    operate_view(op, &operand.spread(&mut room), out);
}

/// The operation on outcomes at each place.
fn operate_view(op: UnaryOperator, operand: &View<'_>, out: &mut Column)
    ensures { out.new ≡ map (operate1 op) operand.now }
{
    if let Form::Same(o) = operand.form {
        out.fill(operand.len, operate(op, o));
        return;
    }
    if operate_narrow_one(op, operand, out) {
        return;
    }
    operate_wide(op, operand, out);
}

/// The operation on outcomes at each place in values of 64 bits.
fn operate_wide(op: UnaryOperator, operand: &View<'_>, out: &mut Column)
    ensures { out.new ≡ map (operate1 op) operand.now }
{
    grow(&mut out.values, operand.len, 0);
    grow(&mut out.faults, operand.len, None);
    out.len = operand.len;
    out.runs = None;
    if try_column(op, operand, &mut out.values) {
        out.form = Form::Values;
        return;
    }
    operate_each_one(op, operand, &mut out.values, &mut out.faults);
    out.form = Form::Mixed;
}

/// Tries an operation where the operand has no fault; tells whether each result is its outcome.
fn try_column(op: UnaryOperator, operand: &View<'_>, out: &mut Vec<i64>) -> bool
    requires { length operand.now ≤ length out.old.items }
    ensures value { IsTrue result → AreValues (length operand.now) (each1 op operand.now) out.new.items }
    ensures room { IsAsRoomy out.old out.new }
{
    let cells = out.as_mut_slice();
    match operand.form {
        Form::Values => {
            let values = operand.values;
            return try_one(op, operand.len, &Each { values }, cells);
        }
        Form::Narrow => {
            let values = operand.narrow;
            return try_one(op, operand.len, &EachNarrow { values }, cells);
        }
        Form::Same(_) => return false,
        Form::Mixed => return false,
    }
}

/// Tries an operation at the first `len` places; tells whether each result is its value.
fn try_one<V: Operand>(op: UnaryOperator, len: usize, operand: &V, out: &mut [i64]) -> bool
    requires operand { len ≤ V.places operand.now }
    requires few { len ≤ max_tile }
    requires out { len ≤ length out.old }
    ensures { IsTrue result → AreValues len (λ k. exact1 op (V.value operand.now k)) out.new }
{
    let none = Same { value: 0 };
    match op {
        UnaryOperator::Negate => try_places::<Negative, V, Same>(len, operand, &none, out),
        UnaryOperator::Plus => try_places::<Itself, V, Same>(len, operand, &none, out),
        UnaryOperator::Not => try_places::<Opposite, V, Same>(len, operand, &none, out),
        UnaryOperator::Absolute => try_places::<Magnitude, V, Same>(len, operand, &none, out),
    }
}

/// The operation place by place.
fn operate_each_one(
    op: UnaryOperator,
    operand: &View<'_>,
    values: &mut Vec<i64>,
    faults: &mut Vec<Option<PointFault>>,
)
    requires values { length operand.now ≤ length values.old.items }
    requires faults { length operand.now ≤ length faults.old.items }
    ensures values { IsAsRoomy values.old values.new }
    ensures faults { IsAsRoomy faults.old faults.new }
    ensures outcomes { AreOutcomes (length operand.now) (each1 op operand.now) values.new.items faults.new.items }
{
    let numbers = values.as_mut_slice();
    let marks = faults.as_mut_slice();
    for place in 0..operand.len() {
        let (value, fault) = parts(operate(op, operand.at(place)));
        numbers[place] = value;
        marks[place] = fault;
    }
}
