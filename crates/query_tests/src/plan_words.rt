//! Plans as the words that they are written in.

use crate::answers::say_made;
use crate::words::condenser;
use arr_core::{Axis, Domain};
use plan_ir::{Bind, Body, Combination, Fold, Index, Interval, Plan, Steps};
use std::alloc::Global;
use test_rows::Answer;

/// Begins a word.
fn begin(answer: &mut Answer, word: &str) {
    if !answer.as_str().is_empty() {
        answer.say(" ");
    }
    answer.say(word);
}

/// Separates a part of a list from the part before it.
fn separate(answer: &mut Answer, place: usize) {
    if place > 0 {
        answer.say(",");
    }
}

fn say_index(answer: &mut Answer, index: Index) {
    match index {
        Index::Const(coordinate) => {
            answer.say("c");
            answer.integer(i64::from(coordinate));
        }
        Index::Var(level) => {
            answer.say("v");
            answer.count(level as u64);
        }
    }
}

/// Indexes, as `@v0,c5`; `@-` for none.
fn say_indexes(answer: &mut Answer, indexes: &[Index]) {
    answer.say(if indexes.is_empty() { "@-" } else { "@" });
    for (place, index) in indexes.iter().enumerate() {
        separate(answer, place);
        say_index(answer, *index);
    }
}

/// Bounds, as `0:9`.
fn say_bounds(answer: &mut Answer, lo: i32, hi: i32) {
    answer.integer(i64::from(lo));
    answer.say(":");
    answer.integer(i64::from(hi));
}

fn say_axis(answer: &mut Answer, axis: &Axis) {
    answer.say(axis.name.as_str());
    answer.say("(");
    say_bounds(answer, axis.lo, axis.hi);
    answer.say(")");
}

/// A domain, as `x(0:1),y(0:2)`; `-` without axes.
fn say_axes(answer: &mut Answer, domain: &Domain) {
    let axes = domain.axes();
    if axes.is_empty() {
        answer.say("-");
    }
    for (place, axis) in axes.iter().enumerate() {
        separate(answer, place);
        say_axis(answer, axis);
    }
}

fn say_level(answer: &mut Answer, name: &str, level: usize) {
    begin(answer, name);
    answer.count(level as u64);
}

/// A read of the first field of the first coverage is `read@v0`, another one `read@1.0@v0`.
fn say_read(answer: &mut Answer, coverage: usize, field: usize, indexes: &[Index]) {
    begin(answer, "read");
    if coverage != 0 || field != 0 {
        answer.say("@");
        answer.count(coverage as u64);
        answer.say(".");
        answer.count(field as u64);
    }
    say_indexes(answer, indexes);
}

fn say_table(answer: &mut Answer, domain: &Domain, indexes: &[Index]) {
    begin(answer, "table@");
    say_axes(answer, domain);
    say_indexes(answer, indexes);
}

/// A bind, as `bind@0:9`, or one of the item.
fn say_bind(answer: &mut Answer, name: &str, interval: Interval) {
    begin(answer, name);
    say_bounds(answer, interval.lo, interval.hi);
}

/// The words of a body: the operands, then the operation.
#[cycle(words)]
fn say_body(alloc: Global, answer: &mut Answer, body: &Body) {
    match body {
        Body::Lit(number) => {
            begin(answer, "lit@");
            answer.integer(*number);
        }
        Body::Var(level) => say_level(answer, "var@", *level),
        Body::Reg(place) => say_level(answer, "reg@", *place),
        Body::Op1(op, operand) => {
            say_body(alloc, answer, operand);
            begin(answer, "");
            say_made(answer, format!(in alloc; "{op:?}"));
        }
        Body::Op2(op, left, right) => {
            say_body(alloc, answer, left);
            say_body(alloc, answer, right);
            begin(answer, "");
            say_made(answer, format!(in alloc; "{op:?}"));
        }
        Body::Read {
            coverage,
            field,
            indexes,
        } => say_read(answer, *coverage, *field, indexes),
        Body::Table {
            domain,
            items: _,
            indexes,
        } => say_table(answer, domain, indexes),
        Body::Bind {
            position,
            interval,
            body,
        } => {
            say_body(alloc, answer, position);
            say_body(alloc, answer, body);
            say_bind(answer, "bind@", *interval);
        }
        Body::Fold(fold) => say_fold(alloc, answer, "fold", fold),
    }
}

/// The words of a fold or a pass.
#[cycle(words)]
fn say_fold(alloc: Global, answer: &mut Answer, name: &str, fold: &Fold) {
    if let Some(condition) = &fold.condition {
        say_body(alloc, answer, condition);
    }
    say_body(alloc, answer, &fold.body);
    begin(answer, name);
    if fold.condition.is_some() {
        answer.say("_where");
    }
    answer.say("@");
    answer.say(condenser(fold.op));
    answer.say("@");
    say_axes(answer, &fold.domain);
}

/// A position and the bounds of it, as an item keeps them.
fn say_bound(alloc: Global, answer: &mut Answer, bind: &Bind) {
    say_body(alloc, answer, &bind.position);
    say_bind(answer, "bound@", bind.interval);
}

/// The condition behind which an item stands, if there is one.
fn say_condition(alloc: Global, answer: &mut Answer, condition: &Option<Body>) {
    if let Some(condition) = condition {
        say_body(alloc, answer, condition);
        begin(answer, "where");
    }
}

/// Steps: the domain of the item, the passes, the condition, and the binds and the fields of the item.
fn say_steps(alloc: Global, answer: &mut Answer, steps: &Steps) {
    begin(answer, "");
    say_axes(answer, &steps.item.domain);
    for pass in &steps.passes {
        say_fold(alloc, answer, "pass", pass);
    }
    say_condition(alloc, answer, &steps.condition);
    for bind in &steps.item.binds {
        say_bound(alloc, answer, bind);
    }
    for field in &steps.item.fields {
        say_body(alloc, answer, &field.body);
    }
}

/// A combination, as `0:0,1`: the place of its steps, and its coverages.
fn say_combination(answer: &mut Answer, combination: &Combination) {
    say_level(answer, "", combination.steps);
    answer.say(":");
    for (place, coverage) in combination.coverages.iter().enumerate() {
        separate(answer, place);
        answer.count(*coverage as u64);
    }
}

/// The words of all steps with `;` between them, and behind `|` the combinations.
pub fn say_plan(alloc: Global, answer: &mut Answer, plan: &Plan) {
    for (place, steps) in plan.steps.iter().enumerate() {
        if place > 0 {
            begin(answer, ";");
        }
        say_steps(alloc, answer, steps);
    }
    begin(answer, "|");
    for combination in &plan.combinations {
        say_combination(answer, combination);
    }
}
