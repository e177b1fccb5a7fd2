//! Condensers of whole columns.

ghost use Rattle.std.specs.Prelude.{◌≡◌, ◌≤◌, length, All, IfOk, IsTrue};
ghost use Rattle.tile_kernel.specs.declared.accumulator.Accumulator.{Accumulator};

use crate::columns::{column, text};
use crate::words::{aggregate, shown};
use anyhow::{Result, bail};
use std::alloc::Global;
use test_rows::{cut, cut_at, index};
use tile_kernel::{
    Accumulator, Column, add_column, add_column_where, fold_column, fold_column_where, fold_values,
    fold_values_where,
};
use wcps_text::Aggregate;

/// Places one after the other.
pub fn places_from(alloc: Global, first: u64, len: usize) -> Result<Vec<u64>> {
    let mut places = Vec::new(alloc);
    for k in 0..len {
        places.push(first.saturating_add(k as u64))?;
    }
    Ok(places)
}

/// The accumulator of a column with the places from this one on.
fn folded_from(alloc: Global, op: Aggregate, first: u64, cells: &Column) -> Result<Accumulator>
    ensures { IfOk result (λ a. a.running.op ≡ op) }
{
    let places = places_from(alloc, first, cells.len())?;
    if places.len() != cells.len() {
        bail!("places of another number");
    }
    Ok(fold_column(op, cells, &places))
}

/// A condenser of a column whose cells have places one after the other, as `sum 65 3,3,3`.
pub fn folded(alloc: Global, words: &str) -> Result<String> {
    let (op, rest) = cut(words);
    let (len, cells) = cut(rest);
    let cells = column(alloc, index(len)?, cells)?;
    let end = folded_from(alloc, aggregate(op)?, 0, &cells)?.finish();
    Ok(shown(alloc, end)?)
}

/// A condition and the cells under it, as `65 1,0,1 3,3,3`: columns of one length.
fn columns(alloc: Global, words: &str) -> Result<(Column, Column)>
    ensures { IfOk result (λ columns. length columns.0 ≡ length columns.1) }
{
    let (len, rest) = cut(words);
    let (condition, cells) = cut(rest);
    let len = index(len)?;
    let condition = column(alloc, len, condition)?;
    let cells = column(alloc, len, cells)?;
    if condition.len() != cells.len() {
        bail!("columns of two lengths");
    }
    Ok((condition, cells))
}

/// The accumulator of a column under a condition, with the places from 0 on.
fn folded_under(
    alloc: Global,
    op: Aggregate,
    condition: &Column,
    cells: &Column,
) -> Result<Accumulator>
    requires { length condition.now ≡ length cells.now }
{
    let places = places_from(alloc, 0, cells.len())?;
    if places.len() != cells.len() {
        bail!("places of another number");
    }
    Ok(fold_column_where(op, condition, cells, &places))
}

/// A condenser of a column under a condition, as `sum 65 1,0,1 3,3,3`.
pub fn folded_where(alloc: Global, words: &str) -> Result<String> {
    let (op, rest) = cut(words);
    let op = aggregate(op)?;
    let (condition, cells) = columns(alloc, rest)?;
    let end = folded_under(alloc, op, &condition, &cells)?.finish();
    Ok(shown(alloc, end)?)
}

/// What an accumulator comes to; `none` where there is none.
fn shown_or_none(alloc: Global, accumulator: Option<Accumulator>) -> Result<String> {
    match accumulator {
        Some(accumulator) => Ok(shown(alloc, accumulator.finish())?),
        None => Ok(String::from_str(alloc, "none")?),
    }
}

/// A condenser of a column whatever places its cells have, as `sum 65 3,3,3`.
pub fn whole(alloc: Global, words: &str) -> Result<String> {
    let (op, rest) = cut(words);
    let (len, cells) = cut(rest);
    let cells = column(alloc, index(len)?, cells)?;
    shown_or_none(alloc, fold_values(aggregate(op)?, &cells))
}

/// The same under a condition, as `sum 65 1,0,1 3,3,3`.
pub fn whole_where(alloc: Global, words: &str) -> Result<String> {
    let (op, rest) = cut(words);
    let op = aggregate(op)?;
    let (condition, cells) = columns(alloc, rest)?;
    shown_or_none(alloc, fold_values_where(op, &condition, &cells))
}

/// The accumulator of a column with its first place and its length, as `65:1:=3`.
fn folded_part(alloc: Global, op: Aggregate, part: &str) -> Result<Accumulator>
    ensures { IfOk result (λ a. a.running.op ≡ op) }
{
    let (first, rest) = cut_at(part, ':');
    let (len, cells) = cut_at(rest, ':');
    let cells = column(alloc, index(len)?, cells)?;
    folded_from(alloc, op, first.parse::<u64>()?, &cells)
}

/// A condenser of columns that are merged in this order, each with its first place and its length, as
/// `sum 65:1:=3 64:1:=4`.
pub fn merged(alloc: Global, words: &str) -> Result<String> {
    let (op, parts) = cut(words);
    let op = aggregate(op)?;
    let mut accumulator = Accumulator::empty(op);
    for part in parts.split(' ') {
        let more = folded_part(alloc, op, part)?;
        if accumulator.running.count > 10000 || more.running.count > 10000 {
            bail!("no room");
        }
        accumulator.merge(more);
    }
    Ok(shown(alloc, accumulator.finish())?)
}

/// So many accumulators of no point.
pub fn empties(alloc: Global, op: Aggregate, len: usize) -> Result<Vec<Accumulator>> {
    let mut folds = Vec::new(alloc);
    for _ in 0..len {
        folds.push(Accumulator::empty(op))?;
    }
    Ok(folds)
}

/// What accumulators come to.
pub fn finished(alloc: Global, folds: Vec<Accumulator>) -> Result<String> {
    let mut outcomes = Vec::new(alloc);
    for accumulator in folds {
        outcomes.push(accumulator.finish())?;
    }
    text(alloc, &outcomes)
}

/// Whether no accumulator has been told of more points than this.
pub fn have_room(folds: &[Accumulator], place: u64) -> bool
    ensures { IsTrue result → All (λ (a : Accumulator). a.running.count ≤ place) folds.now }
{
    folds.iter().all(|a| u64::from(a.running.count) <= place)
}

/// Tells accumulators of a column at a place, as `0:3,3,3`.
fn add_part(alloc: Global, folds: &mut [Accumulator], part: &str) -> Result<()> {
    let (place, cells) = cut_at(part, ':');
    let place = place.parse::<u64>()?;
    let cells = column(alloc, folds.len(), cells)?;
    if place > 10000 || folds.len() != cells.len() || !have_room(folds, place) {
        bail!("no room");
    }
    add_column(folds, place, &cells);
    Ok(())
}

/// Accumulators that are told of a column at each of these places, as `sum 65 0:3,3,3 1:4,4,4`.
pub fn added(alloc: Global, words: &str) -> Result<String> {
    let (op, rest) = cut(words);
    let (len, parts) = cut(rest);
    let mut folds = empties(alloc, aggregate(op)?, index(len)?)?;
    for part in parts.split(' ') {
        add_part(alloc, folds.as_mut_slice(), part)?;
    }
    finished(alloc, folds)
}

/// Tells accumulators of a column under a condition at a place.
fn add_under(
    folds: &mut [Accumulator],
    place: u64,
    condition: &Column,
    cells: &Column,
) -> Result<()> {
    if place > 10000 || folds.len() != cells.len() || !have_room(folds, place) {
        bail!("no room");
    }
    if condition.len() != cells.len() {
        bail!("columns of two lengths");
    }
    add_column_where(folds, place, condition, cells);
    Ok(())
}

/// The same, as `0:1,0,1:3,3,3`.
fn add_part_where(alloc: Global, folds: &mut [Accumulator], part: &str) -> Result<()> {
    let (place, rest) = cut_at(part, ':');
    let (condition, cells) = cut_at(rest, ':');
    let place = place.parse::<u64>()?;
    let condition = column(alloc, folds.len(), condition)?;
    let cells = column(alloc, folds.len(), cells)?;
    add_under(folds, place, &condition, &cells)
}

/// Accumulators that are told of a column under a condition at each of these places, as
/// `sum 65 0:1,0,1:3,3,3 1:=1:4,4,4`.
pub fn added_where(alloc: Global, words: &str) -> Result<String> {
    let (op, rest) = cut(words);
    let (len, parts) = cut(rest);
    let mut folds = empties(alloc, aggregate(op)?, index(len)?)?;
    for part in parts.split(' ') {
        add_part_where(alloc, folds.as_mut_slice(), part)?;
    }
    finished(alloc, folds)
}
