//! What an answer says of a result, and the refusals of errors.

use arr_core::Refusal;
use csv_out::csv_text;
use map_templates::ExpandError;
use plan_ir::{Plan, run};
use std::alloc::{AllocError, Global};
use test_rows::Answer;
use wcps_mean::{CellError, Cells, EvalError, Item, Outcome};
use wcps_types::CheckError;

/// A text that was made for an answer.
pub fn say_made(answer: &mut Answer, made: Result<String, AllocError>) {
    match made {
        Ok(text) => answer.say(text.as_str()),
        Err(_) => answer.wrong("no memory"),
    }
}

/// A number, or the refusal of a fault.
pub fn say_outcome(answer: &mut Answer, outcome: Outcome) {
    match outcome {
        Outcome::Value(number) => answer.integer(number),
        Outcome::Fault(fault) => answer.refusal(fault.refusal().number()),
    }
}

/// The CSV of items.
pub fn say_items(alloc: Global, answer: &mut Answer, items: &[Item]) {
    say_made(answer, csv_text(alloc, items));
}

/// The CSV of a query's items, or the refusal of what came in their place.
pub fn say_evaluated(alloc: Global, answer: &mut Answer, items: Result<Vec<Item>, EvalError>) {
    match items {
        Ok(items) => say_items(alloc, answer, &items),
        Err(error) => answer.refusal(eval_refusal(error).number()),
    }
}

/// What a run of a plan gives.
pub fn say_run<C: Cells>(alloc: Global, answer: &mut Answer, cells: &mut C, plan: &Plan) {
    let items = run(alloc, cells, plan);
    say_evaluated(alloc, answer, items);
}

pub fn check_refusal(error: &CheckError) -> Refusal {
    match error {
        CheckError::Refused(refusal) => refusal.refusal(),
        CheckError::NoMemory => Refusal::NoMemory,
    }
}

pub fn expand_refusal(error: &ExpandError) -> Refusal {
    match error {
        ExpandError::Refused(refusal) => refusal.refusal(),
        ExpandError::NoMemory => Refusal::NoMemory,
    }
}

pub fn cell_refusal(error: CellError) -> Refusal {
    match error {
        CellError::NoMemory => Refusal::NoMemory,
        CellError::DiskFault => Refusal::DiskFault,
        CellError::Damaged => Refusal::Damaged,
    }
}

fn eval_refusal(error: EvalError) -> Refusal {
    match error {
        EvalError::Fault(fault) => fault.refusal(),
        EvalError::Cells(error) => cell_refusal(error),
    }
}
