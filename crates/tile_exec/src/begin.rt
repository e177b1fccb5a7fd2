//! A plan before its first unit: the list of its tasks, and how many boxes they have.

ghost use Rattle.std.specs.Prelude.{◌<◌, length, slice_index_or, IfOk, OnOk};
ghost use Rattle.plan_ir.specs.Plans.{Choice, plan_view};
ghost use Rattle.plan_ir.specs.Placed.{IsPlan};
ghost use Rattle.tile_exec.specs.Tasks.{choice_passes, choice_condition, choice_item, choice_outs, passes_of, outs_of, tasks_of};
ghost use Rattle.tile_exec.specs.Standing.{IsBegun};
ghost use Rattle.tile_exec.specs.Begun.{Lists, Adds, AddsTask, AddsOf, IsChosen};

use crate::state::State;
use crate::task::{Part, Status, Task};
use plan_ir::{Plan, Steps};
use std::alloc::{AllocError, Global};
use tile_kernel::{Accumulator, FirstFault};
use wcps_text::Aggregate;

/// Tasks in their order, and how many boxes they have together, in a count that stays at its last value.
#[derive(Drop)]
pub(crate) struct Listing {
    pub tasks: Vec<Task>,
    pub boxes: u64,
}

impl Listing {
    /// Puts a task at the end.
    fn push(&mut self, task: Task, boxes: u64) -> Result<(), AllocError>
        ensures { OnOk result (AddsTask task boxes self.old self.new) }
    {
        self.tasks.push(task)?;
        self.boxes = self.boxes.saturating_add(boxes);
        Ok(())
    }
}

/// The steps of the combination at a place.
fn steps_at(plan: &Plan, k: usize) -> &Steps
    requires plan { IsPlan (plan_view plan.now) }
    requires k { k < length plan.now.combinations.items }
    ensures { (c : Choice) → IsChosen plan.now k result.now (slice_index_or (plan_view plan.now).combinations k c) }
{
    let combination = &plan.combinations[k];
    &plan.steps[combination.steps]
}

/// Puts the passes of a combination at the end.
fn push_passes(
    list: &mut Listing,
    steps: &Steps,
    combination: usize,
    first: usize,
) -> Result<(), AllocError>
    ensures { OnOk result (AddsOf choice_passes combination first steps.now list.old list.new) }
{
    for k in 0..steps.passes.len() {
        let pass = &steps.passes[k];
        let _axes = pass.domain.axes();
        let task = Task {
            combination,
            part: Part::Pass,
            first,
            count: k,
        };
        list.push(task, pass.domain.tiles())?;
    }
    Ok(())
}

/// Puts a combination's condition, if there is one, at the end.
fn push_condition(
    list: &mut Listing,
    steps: &Steps,
    combination: usize,
    first: usize,
) -> Result<(), AllocError>
    ensures { OnOk result (AddsOf choice_condition combination first steps.now list.old list.new) }
{
    match &steps.condition {
        None => Ok(()),
        Some(_) => {
            let task = Task {
                combination,
                part: Part::Condition,
                first,
                count: steps.passes.len(),
            };
            list.push(task, 1)?;
            Ok(())
        }
    }
}

/// Puts a combination's item at the end. One without fields has a single box, as a condition has.
fn push_item(
    list: &mut Listing,
    steps: &Steps,
    combination: usize,
    first: usize,
) -> Result<(), AllocError>
    ensures { OnOk result (AddsOf choice_item combination first steps.now list.old list.new) }
{
    let mut task = Task {
        combination,
        part: Part::Item,
        first,
        count: steps.passes.len(),
    };
    if steps.item.fields.is_empty() {
        task.part = Part::Fieldless;
        list.push(task, 1)?;
        return Ok(());
    }
    let _axes = steps.item.domain.axes();
    list.push(task, steps.item.domain.tiles())?;
    Ok(())
}

/// Puts a combination's condition, if there is one, and its item at the end.
fn push_out(
    list: &mut Listing,
    steps: &Steps,
    combination: usize,
    first: usize,
) -> Result<(), AllocError>
    ensures { OnOk result (AddsOf choice_outs combination first steps.now list.old list.new) }
{
    push_condition(list, steps, combination, first)?;
    push_item(list, steps, combination, first)
}

/// Puts the passes of all combinations at the end.
fn push_all_passes(list: &mut Listing, plan: &Plan) -> Result<(), AllocError>
    requires { IsPlan (plan_view plan.now) }
    ensures { OnOk result (Adds plan.now list.old list.new (passes_of (plan_view plan.now))) }
{
    let mut first: usize = 0;
    for k in 0..plan.combinations.len() {
        let steps = steps_at(plan, k);
        push_passes(list, steps, k, first)?;
        first += steps.passes.len();
    }
    Ok(())
}

/// Puts the conditions and items of all combinations at the end.
fn push_all_outs(list: &mut Listing, plan: &Plan) -> Result<(), AllocError>
    requires { IsPlan (plan_view plan.now) }
    ensures { OnOk result (Adds plan.now list.old list.new (outs_of (plan_view plan.now))) }
{
    let mut first: usize = 0;
    for k in 0..plan.combinations.len() {
        let steps = steps_at(plan, k);
        push_out(list, steps, k, first)?;
        first += steps.passes.len();
    }
    Ok(())
}

/// All tasks of a plan.
fn tasks_of_plan(alloc: Global, plan: &Plan) -> Result<Listing, AllocError>
    requires { IsPlan (plan_view plan.now) }
    ensures { IfOk result (λ l. Lists plan.now l (tasks_of (plan_view plan.now))) }
{
    let mut list = Listing {
        tasks: Vec::new(alloc),
        boxes: 0,
    };
    push_all_passes(&mut list, plan)?;
    push_all_outs(&mut list, plan)?;
    Ok(list)
}

/// A plan before its first unit. There is room for what all its tasks give.
pub(crate) fn begun(alloc: Global, plan: Plan) -> Result<State, AllocError>
    requires { IsPlan (plan_view plan) }
    ensures { IfOk result (λ e. IsBegun (plan_view plan) e) }
{
    let list = tasks_of_plan(alloc, &plan)?;
    let room = list.tasks.len();
    let registers = Vec::with_capacity(alloc, room)?;
    let items = Vec::with_capacity(alloc, room)?;
    Ok(State {
        alloc,
        plan,
        tasks: list.tasks,
        at: 0,
        tile: 0,
        left: list.boxes.max(1),
        registers,
        items,
        status: Status::Giving,
        accumulator: Accumulator::empty(Aggregate::Count),
        cells: Vec::new(alloc),
        first: FirstFault::none(),
        known: None,
    })
}
