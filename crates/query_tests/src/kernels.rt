//! Calls of the kernels.

use crate::columns::{column, column_text, exchanged, operated};
use crate::folds::{added, added_where, folded, folded_where, merged, whole, whole_where};
use crate::keyed::keyed;
use crate::windows::windowed;
use crate::words::{aggregate, binary, outcome, shown, unary};
use anyhow::{Result, bail};
use std::alloc::Global;
use test_rows::{Answer, cut, cut_at, index};
use tile_kernel::{Accumulator, Column, operate_column};

/// An operation on columns of a length, as `65 3,3,3 + =4`.
fn both(alloc: Global, words: &str) -> Result<String> {
    let (len, rest) = cut(words);
    let (left, rest) = cut(rest);
    let (op, right) = cut(rest);
    let len = index(len)?;
    let op = binary(op)?;
    let left = column(alloc, len, left)?;
    let right = column(alloc, len, right)?;
    column_text(alloc, &operated(alloc, op, &left, &right)?)
}

/// An operation on a column, as `65 - 3,3,3`.
fn one(alloc: Global, words: &str) -> Result<String> {
    let (len, rest) = cut(words);
    let (op, operand) = cut(rest);
    let op = unary(op)?;
    let operand = column(alloc, index(len)?, operand)?;
    let mut out = Column::new(alloc)?;
    operate_column(op, &operand, &mut out);
    column_text(alloc, &out)
}

/// Tells an accumulator of a point, as `65:Overflow`; of at most 1,000.
fn tell(accumulator: &mut Accumulator, point: &str) -> Result<()> {
    let (place, word) = cut_at(point, ':');
    let place = place.parse::<u64>()?;
    let outcome = outcome(word)?;
    if accumulator.running.count >= 1000 {
        bail!("too many points");
    }
    accumulator.add(place, outcome);
    Ok(())
}

/// A condenser told of points in this order, as `sum 65:Overflow,64:DivideByZero`; `-` for none.
fn told(alloc: Global, words: &str) -> Result<String> {
    let (op, points) = cut(words);
    let mut accumulator = Accumulator::empty(aggregate(op)?);
    if points != "-" {
        for point in points.split(',') {
            tell(&mut accumulator, point)?;
        }
    }
    Ok(shown(alloc, accumulator.finish())?)
}

/// What a kernel gives.
fn given(alloc: Global, verb: &str, words: &str) -> Result<String> {
    match verb {
        "both" => both(alloc, words),
        "one" => one(alloc, words),
        "exchanged" => exchanged(alloc, words),
        "told" => told(alloc, words),
        "folded" => folded(alloc, words),
        "folded_where" => folded_where(alloc, words),
        "whole" => whole(alloc, words),
        "whole_where" => whole_where(alloc, words),
        "merged" => merged(alloc, words),
        "added" => added(alloc, words),
        "added_where" => added_where(alloc, words),
        "keyed" => keyed(alloc, words),
        "windowed" => windowed(alloc, words),
        _ => bail!("no call {verb}"),
    }
}

/// Makes a call of a kernel.
pub fn call(alloc: Global, answer: &mut Answer, verb: &str, words: &str) -> Result<()> {
    answer.say(given(alloc, verb, words)?.as_str());
    Ok(())
}
