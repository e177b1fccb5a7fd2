//! Condensers over columns.

ghost use Rattle.std.specs.Prelude.{◌≡◌, ◌+◌, ◌<◌, ◌≤◌, [], ◌∷◌, length, map, sum, IfSome};
ghost use Rattle.arr_core.specs.Limits.{max_points, max_tile};
ghost use Rattle.wcps_text.specs.declared.operator.Aggregate.{Aggregate};
ghost use Rattle.wcps_mean.specs.declared.cell.Outcome.TheVariants.{Value};
ghost use Rattle.tile_kernel.specs.Columns.{outcome_at};
ghost use Rattle.tile_kernel.specs.Repeated.{shown, runs_shown, repeated, left_of, right_of};
ghost use Rattle.tile_kernel.specs.Selected.{taken_in};
ghost use Rattle.tile_kernel.specs.Told.{told_at, demanded_at, demanded_from};
ghost use Rattle.tile_kernel.specs.Standing.{Stands, AreOf, HaveAtMost, EachTakesIn, IsCondensed};
ghost use Rattle.tile_kernel.specs.Standing.{StandsAnywhere, IsCondensedWhere, IsCondensedOf, IsCondensedBy, IsCondensedByRuns};

use crate::accumulator::Accumulator;
use crate::choice::{Always, Choice, Counted, CountedWhere, Where};
use crate::column::{Column, MAX_PLACES};
use crate::condenser::{Condensed, condense};
use crate::form::Form;
use crate::narrow_reduce::condense_narrow;
use crate::operand::{Each, EachNarrow, Operand, Same};
use crate::pair::Pair;
use crate::paired::paired;
use crate::reduce::condense_values;
use crate::seen::{Runs, Seen};
use crate::summaries::{AllTrue, Factors, Greatest, Least, Mean, SomeTrue, Total, Trues};
use crate::summary::Summary;
use crate::view::View;
use wcps_mean::{Outcome, is_set};
use wcps_text::Aggregate;

/// What a condenser keeps of the values at the first `len` places, each as often as it counts.
fn condense_operand<V: Operand, C: Choice>(
    op: Aggregate,
    len: usize,
    values: &V,
    choice: &C,
) -> Accumulator
    requires few { taken_in (C.times choice.now) len ≤ max_tile }
    requires values { len ≤ V.places values.now }
    requires choice { len ≤ C.places choice.now }
    ensures stands { IsCondensedOf (C.times choice.now) len (V.value values.now) result }
    ensures op { result.running.op ≡ op }
{
    let running = condense_values(op, len, values, choice);
    Accumulator { running, place: 0 }
}

/// What a condenser keeps of outcomes, each as often as it counts, where none is a fault.
fn condense_view<C: Choice>(op: Aggregate, view: &View<'_>, choice: &C) -> Option<Accumulator>
    requires places { length view.now ≤ C.places choice.now }
    requires few { taken_in (C.times choice.now) (length view.now) ≤ max_tile }
    ensures stands { IfSome result (IsCondensed (C.times choice.now) view.now) }
    ensures op { IfSome result (λ a. a.running.op ≡ op) }
{
    match view.form {
        Form::Values => {
            let values = view.values;
            return Some(condense_operand(op, view.len, &Each { values }, choice));
        }
        Form::Narrow => {
            let values = view.narrow;
            return Some(condense_operand(op, view.len, &EachNarrow { values }, choice));
        }
        Form::Same(o) => match o {
            Outcome::Value(value) => {
                return Some(condense_operand(op, view.len, &Same { value }, choice));
            }
            Outcome::Fault(_) => return None,
        },
        Form::Mixed => return None,
    }
}

/// What a condenser keeps of a column, where no outcome of it is a fault.
fn condense_column(op: Aggregate, column: &Column) -> Option<Accumulator>
    ensures stands { IfSome result (λ a. StandsAnywhere a column.now) }
    ensures op { IfSome result (λ a. a.running.op ≡ op) }
{
    match column.seen() {
        Seen::Each(view) => return condense_each(op, &view),
        Seen::Runs(runs) => return condense_runs(op, &runs),
    }
}

/// What a condenser keeps of values of 32 bits.
fn condense_values_narrow(op: Aggregate, values: &[i32]) -> Accumulator
    requires { length values.now ≤ max_tile }
    ensures stands { StandsAnywhere result (map Value values.now) }
    ensures op { result.running.op ≡ op }
{
    let running = condense_narrow(op, values);
    Accumulator { running, place: 0 }
}

/// What a condenser keeps of outcomes, where none is a fault.
fn condense_each(op: Aggregate, view: &View<'_>) -> Option<Accumulator>
    ensures stands { IfSome result (λ a. StandsAnywhere a view.now) }
    ensures op { IfSome result (λ a. a.running.op ≡ op) }
{
    if let Form::Narrow = view.form {
        return Some(condense_values_narrow(op, &view.narrow[..view.len]));
    }
    condense_view(op, view, &Always { len: view.len() })
}

/// What a condenser keeps of runs.
fn condense_runs(op: Aggregate, runs: &Runs<'_>) -> Option<Accumulator>
    ensures stands { IfSome result (λ a. StandsAnywhere a (runs_shown runs.now)) }
    ensures op { IfSome result (λ a. a.running.op ≡ op) }
{
    let choice = Counted {
        counts: runs.counts,
    };
    condense_view(op, &runs.heads(), &choice)
}

/// The accumulator of a whole column, whatever places its cells have; none where a cell may have a fault.
pub fn fold_values(op: Aggregate, column: &Column) -> Option<Accumulator>
    ensures stands { IfSome result (λ a. StandsAnywhere a column.now) }
    ensures op { IfSome result (λ a. a.running.op ≡ op) }
    ensures count { IfSome result (λ a. a.running.count ≡ length column.now) }
{
    match condense_column(op, column) {
        Some(accumulator) => Some(accumulator),
        None => None,
    }
}

/// The accumulator of a column under a condition, whatever places its cells have; none where a cell or its condition
/// may have a fault.
pub fn fold_values_where(op: Aggregate, condition: &Column, column: &Column) -> Option<Accumulator>
    requires { length condition.now ≡ length column.now }
    ensures stands { IfSome result (λ a. IsCondensedWhere op condition.now column.now a) }
    ensures op { IfSome result (λ a. a.running.op ≡ op) }
    ensures count { IfSome result (λ a. a.running.count ≤ length column.now) }
{
    match condense_where(op, condition, column) {
        Some(accumulator) => Some(accumulator),
        None => None,
    }
}

/// The accumulator of a whole column, whose cells have these places in the row-major list of the condenser's box. A
/// column without faults is taken in one loop.
pub fn fold_column(op: Aggregate, column: &Column, places: &[u64]) -> Accumulator
    requires { length places.now ≡ length column.now }
    ensures stands { Stands result (told_at places.now column.now) }
    ensures op { result.running.op ≡ op }
    ensures count { result.running.count ≡ length column.now }
{
    match condense_column(op, column) {
        Some(accumulator) => return accumulator,
        None => return fold_each(op, column, places),
    }
}

/// The accumulator of a column, place by place.
fn fold_each(op: Aggregate, column: &Column, places: &[u64]) -> Accumulator
    requires { length places.now ≡ length column.now }
    ensures stands { Stands result (told_at places.now column.now) }
    ensures op { result.running.op ≡ op }
    ensures count { result.running.count ≡ length column.now }
{
    match op {
        Aggregate::Sum => fold_by::<Total>(column, places),
        Aggregate::Product => fold_by::<Factors>(column, places),
        Aggregate::Greatest => fold_by::<Greatest>(column, places),
        Aggregate::Least => fold_by::<Least>(column, places),
        Aggregate::Every => fold_by::<AllTrue>(column, places),
        Aggregate::Any => fold_by::<SomeTrue>(column, places),
        Aggregate::Count => fold_by::<Trues>(column, places),
        Aggregate::Average => fold_by::<Mean>(column, places),
    }
}

/// The accumulator of a column, by the condenser that keeps this summary.
fn fold_by<S: Summary>(column: &Column, places: &[u64]) -> Accumulator
    requires { length places.now ≡ length column.now }
    ensures stands { Stands result (told_at places.now column.now) }
    ensures op { result.running.op ≡ S.op }
    ensures count { result.running.count ≡ length column.now }
{
    condense::<Condensed<S>>(column, places).accumulator(column.len() as u32)
}

/// Each accumulator is told of one more point, that with this place in the box of all of them: the k-th of the outcome
/// at the k-th place of the column.
pub fn add_column(folds: &mut [Accumulator], place: u64, column: &Column)
    requires length { length folds.old ≡ length column.now }
    requires room { HaveAtMost place folds.old }
    requires few { place < max_points }
    ensures stands { EachTakesIn folds.old folds.new (λ k. (place, outcome_at column.now k) ∷ []) }
    ensures room { HaveAtMost (place + 1) folds.new }
    ensures op { (op : Aggregate) → AreOf op folds.old → AreOf op folds.new }
{
    match column.seen() {
        Seen::Each(view) => add_view(folds, place, &view),
        Seen::Runs(runs) => add_runs(folds, place, &runs),
    }
}

/// The same of outcomes that are kept as runs.
#[inline(never)]
fn add_runs(folds: &mut [Accumulator], place: u64, column: &Runs<'_>)
    requires length { length folds.old ≡ length (runs_shown column.now) }
    requires room { HaveAtMost place folds.old }
    requires few { place < max_points }
    ensures stands { EachTakesIn folds.old folds.new (λ k. (place, outcome_at (runs_shown column.now) k) ∷ []) }
    ensures room { HaveAtMost (place + 1) folds.new }
    ensures op { (op : Aggregate) → AreOf op folds.old → AreOf op folds.new }
{
    let mut room = [0i64; MAX_PLACES];
    add_view(folds, place, &column.spread(&mut room));
}

/// The same of outcomes at each place.
fn add_view(folds: &mut [Accumulator], place: u64, column: &View<'_>)
    requires length { length folds.old ≡ length column.now }
    requires room { HaveAtMost place folds.old }
    requires few { place < max_points }
    ensures stands { EachTakesIn folds.old folds.new (λ k. (place, outcome_at column.now k) ∷ []) }
    ensures room { HaveAtMost (place + 1) folds.new }
    ensures op { (op : Aggregate) → AreOf op folds.old → AreOf op folds.new }
{
    for k in 0..folds.len() {
        folds[k].add(place, column.at(k));
    }
}

/// What a condenser keeps of a column under a condition, where neither of them has a fault.
fn condense_where(op: Aggregate, condition: &Column, column: &Column) -> Option<Accumulator>
    requires { length condition.now ≡ length column.now }
    ensures { IfSome result (λ a. IsCondensedWhere op condition.now column.now a) }
{
    let chosen = condition.seen();
    let cells = column.seen();
    condense_seen_where(op, &chosen, &cells)
}

/// The same of what two columns keep.
fn condense_seen_where(
    op: Aggregate,
    condition: &Seen<'_>,
    column: &Seen<'_>,
) -> Option<Accumulator>
    requires { length (shown condition.now) ≡ length (shown column.now) }
    ensures { IfSome result (λ a. IsCondensedWhere op (shown condition.now) (shown column.now) a) }
{
    if let Seen::Each(chosen) = condition {
        if let Seen::Each(cells) = column {
            return condense_each_where(op, chosen, cells);
        }
    }
    match paired(condition, column) {
        Some(pair) => return condense_runs_where(op, &pair),
        None => return condense_spread_where(op, condition, column),
    }
}

/// What a condenser keeps of outcomes under a condition of these values, where none is a fault.
fn condense_chosen<V: Operand + Drop>(
    op: Aggregate,
    condition: V,
    column: &View<'_>,
) -> Option<Accumulator>
    requires { length column.now ≤ V.places condition }
    ensures { IsCondensedBy op (V.value condition) column.now result }
{
    let _few = column.len();
    condense_view(op, column, &Where { condition })
}

/// The same of outcomes at each place.
fn condense_each_where(
    op: Aggregate,
    condition: &View<'_>,
    column: &View<'_>,
) -> Option<Accumulator>
    requires { length condition.now ≡ length column.now }
    ensures { IfSome result (λ a. IsCondensedWhere op condition.now column.now a) }
{
    match condition.form {
        Form::Values => {
            let values = condition.values;
            return condense_chosen(op, Each { values }, column);
        }
        Form::Narrow => {
            let values = condition.narrow;
            return condense_chosen(op, EachNarrow { values }, column);
        }
        Form::Same(o) => match o {
            Outcome::Value(x) => {
                if is_set(x) {
                    return condense_each(op, column);
                }
                return Some(Accumulator::empty(op));
            }
            Outcome::Fault(_) => return None,
        },
        Form::Mixed => return None,
    }
}

/// The same of what a condition and a column have for each run.
fn condense_runs_where(op: Aggregate, pair: &Pair<'_>) -> Option<Accumulator>
    ensures { IfSome result (IsCondensedWhere op (left_of pair.now) (right_of pair.now)) }
{
    condense_heads_where(op, &pair.left, &pair.right, pair.counts)
}

/// What a condenser keeps of outcomes under a condition of these values, each as often as its count says, where none is
/// a fault.
fn condense_counted<V: Operand + Drop>(
    op: Aggregate,
    condition: V,
    column: &View<'_>,
    counts: &[u32],
) -> Option<Accumulator>
    requires condition { length counts.now ≤ V.places condition }
    requires column { length column.now ≡ length counts.now }
    requires few { sum counts.now ≤ max_tile }
    ensures { IsCondensedByRuns op counts.now (V.value condition) column.now result }
{
    condense_view(op, column, &CountedWhere { condition, counts })
}

/// The same of what they have for each run, and how often it stands.
fn condense_heads_where(
    op: Aggregate,
    chosen: &View<'_>,
    column: &View<'_>,
    counts: &[u32],
) -> Option<Accumulator>
    requires condition { length chosen.now ≡ length counts.now }
    requires column { length column.now ≡ length counts.now }
    requires few { sum counts.now ≤ max_tile }
    ensures { IfSome result (IsCondensedWhere op (repeated chosen.now counts.now) (repeated column.now counts.now)) }
{
    match chosen.form {
        Form::Values => {
            let values = chosen.values;
            return condense_counted(op, Each { values }, column, counts);
        }
        Form::Narrow => {
            let values = chosen.narrow;
            return condense_counted(op, EachNarrow { values }, column, counts);
        }
        Form::Same(o) => match o {
            Outcome::Value(x) => {
                if is_set(x) {
                    return condense_view(op, column, &Counted { counts });
                }
                return Some(Accumulator::empty(op));
            }
            Outcome::Fault(_) => return None,
        },
        Form::Mixed => return None,
    }
}

/// The same place by place, where one of them is kept as runs.
#[inline(never)]
fn condense_spread_where(
    op: Aggregate,
    condition: &Seen<'_>,
    column: &Seen<'_>,
) -> Option<Accumulator>
    requires { length (shown condition.now) ≡ length (shown column.now) }
    ensures { IfSome result (λ a. IsCondensedWhere op (shown condition.now) (shown column.now) a) }
{
    let mut first = [0i64; MAX_PLACES];
    let mut second = [0i64; MAX_PLACES];
    let chosen = condition.spread(&mut first);
    let cells = column.spread(&mut second);
    condense_each_where(op, &chosen, &cells)
}

/// The accumulator of a column under a condition: a cell counts where the condition's cell is true, and a fault of the
/// condition counts. Columns without faults are taken in one loop.
pub fn fold_column_where(
    op: Aggregate,
    condition: &Column,
    column: &Column,
    places: &[u64],
) -> Accumulator
    requires places { length places.now ≡ length column.now }
    requires condition { length condition.now ≡ length column.now }
    ensures stands { Stands result (demanded_at places.now condition.now column.now) }
    ensures op { result.running.op ≡ op }
    ensures count { result.running.count ≤ length column.now }
{
    match condense_where(op, condition, column) {
        Some(accumulator) => return accumulator,
        None => return fold_each_where(op, condition, column, places),
    }
}

/// The accumulator of a column under a condition, place by place.
fn fold_each_where(
    op: Aggregate,
    condition: &Column,
    column: &Column,
    places: &[u64],
) -> Accumulator
    requires places { length places.now ≡ length column.now }
    requires condition { length condition.now ≡ length column.now }
    ensures stands { Stands result (demanded_at places.now condition.now column.now) }
    ensures op { result.running.op ≡ op }
    ensures count { result.running.count ≤ length column.now }
{
    let chosen = condition.seen();
    let cells = column.seen();
    fold_seen_where(op, &chosen, &cells, places)
}

/// The same of what two columns keep.
fn fold_seen_where(
    op: Aggregate,
    condition: &Seen<'_>,
    column: &Seen<'_>,
    places: &[u64],
) -> Accumulator
    requires places { length places.now ≡ length (shown column.now) }
    requires condition { length (shown condition.now) ≡ length (shown column.now) }
    ensures stands { Stands result (demanded_at places.now (shown condition.now) (shown column.now)) }
    ensures op { result.running.op ≡ op }
    ensures count { result.running.count ≤ length (shown column.now) }
{
    if let Seen::Each(chosen) = condition {
        if let Seen::Each(cells) = column {
            return fold_views_where(op, chosen, cells, places);
        }
    }
    fold_spread_where(op, condition, column, places)
}

/// The same, where one of them is kept as runs.
#[inline(never)]
fn fold_spread_where(
    op: Aggregate,
    condition: &Seen<'_>,
    column: &Seen<'_>,
    places: &[u64],
) -> Accumulator
    requires places { length places.now ≡ length (shown column.now) }
    requires condition { length (shown condition.now) ≡ length (shown column.now) }
    ensures stands { Stands result (demanded_at places.now (shown condition.now) (shown column.now)) }
    ensures op { result.running.op ≡ op }
    ensures count { result.running.count ≤ length (shown column.now) }
{
    let mut first = [0i64; MAX_PLACES];
    let mut second = [0i64; MAX_PLACES];
    let chosen = condition.spread(&mut first);
    let cells = column.spread(&mut second);
    fold_views_where(op, &chosen, &cells, places)
}

/// The same of outcomes at each place.
fn fold_views_where(
    op: Aggregate,
    condition: &View<'_>,
    column: &View<'_>,
    places: &[u64],
) -> Accumulator
    requires places { length places.now ≡ length column.now }
    requires condition { length condition.now ≡ length column.now }
    ensures stands { Stands result (demanded_at places.now condition.now column.now) }
    ensures op { result.running.op ≡ op }
    ensures count { result.running.count ≤ length column.now }
{
    let mut accumulator = Accumulator::empty(op);
    for k in 0..column.len() {
        accumulator.add_where(places[k], condition.at(k), column.at(k));
    }
    accumulator
}

/// Each accumulator is told of one more point under a condition, as `add_column`.
pub fn add_column_where(folds: &mut [Accumulator], place: u64, condition: &Column, column: &Column)
    requires length { length folds.old ≡ length column.now }
    requires condition { length condition.now ≡ length column.now }
    requires room { HaveAtMost place folds.old }
    requires few { place < max_points }
    ensures stands { EachTakesIn folds.old folds.new (demanded_from place condition.now column.now) }
    ensures room { HaveAtMost (place + 1) folds.new }
    ensures op { (op : Aggregate) → AreOf op folds.old → AreOf op folds.new }
{
    let chosen = condition.seen();
    let cells = column.seen();
    add_seen_where(folds, place, &chosen, &cells);
}

/// The same of what two columns keep.
fn add_seen_where(folds: &mut [Accumulator], place: u64, condition: &Seen<'_>, column: &Seen<'_>)
    requires length { length folds.old ≡ length (shown column.now) }
    requires condition { length (shown condition.now) ≡ length (shown column.now) }
    requires room { HaveAtMost place folds.old }
    requires few { place < max_points }
    ensures stands { EachTakesIn folds.old folds.new (demanded_from place (shown condition.now) (shown column.now)) }
    ensures room { HaveAtMost (place + 1) folds.new }
    ensures op { (op : Aggregate) → AreOf op folds.old → AreOf op folds.new }
{
    if let Seen::Each(chosen) = condition {
        if let Seen::Each(cells) = column {
            add_views_where(folds, place, chosen, cells);
            return;
        }
    }
    add_spread_where(folds, place, condition, column);
}

/// The same place by place, where one of them is kept as runs.
#[inline(never)]
fn add_spread_where(folds: &mut [Accumulator], place: u64, condition: &Seen<'_>, column: &Seen<'_>)
    requires length { length folds.old ≡ length (shown column.now) }
    requires condition { length (shown condition.now) ≡ length (shown column.now) }
    requires room { HaveAtMost place folds.old }
    requires few { place < max_points }
    ensures stands { EachTakesIn folds.old folds.new (demanded_from place (shown condition.now) (shown column.now)) }
    ensures room { HaveAtMost (place + 1) folds.new }
    ensures op { (op : Aggregate) → AreOf op folds.old → AreOf op folds.new }
{
    let mut first = [0i64; MAX_PLACES];
    let mut second = [0i64; MAX_PLACES];
    let chosen = condition.spread(&mut first);
    let cells = column.spread(&mut second);
    add_views_where(folds, place, &chosen, &cells);
}

/// The same of outcomes at each place.
fn add_views_where(folds: &mut [Accumulator], place: u64, condition: &View<'_>, column: &View<'_>)
    requires length { length folds.old ≡ length column.now }
    requires condition { length condition.now ≡ length column.now }
    requires room { HaveAtMost place folds.old }
    requires few { place < max_points }
    ensures stands { EachTakesIn folds.old folds.new (demanded_from place condition.now column.now) }
    ensures room { HaveAtMost (place + 1) folds.new }
    ensures op { (op : Aggregate) → AreOf op folds.old → AreOf op folds.new }
{
    for k in 0..folds.len() {
        folds[k].add_where(place, condition.at(k), column.at(k));
    }
}
