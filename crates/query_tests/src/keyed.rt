//! Condensers that are told of cells by their keys.

ghost use Rattle.std.specs.Prelude.{◌≡◌, ℕ, ◌+◌, ◌<◌, ◌≤◌, ◌^◌, ◌+ℤ◌, pos, IfSome, IfNone, IsTrue};

use crate::columns::column;
use crate::folds::{empties, finished, places_from};
use crate::words::aggregate;
use anyhow::{Result, bail};
use std::alloc::Global;
use test_rows::{cut, cut_at, index, integer};
use tile_kernel::{Accumulator, Column, Numbers, condense_keyed};
use wcps_text::Aggregate;

/// Three numbers, one after the other.
#[derive(Clone, Copy, Drop)]
struct Three {
    first: i64,
}

/// How far a number is above the first of three, if it is one of them.
fn above(first: i64, z: i64) -> Option<usize>
    ensures within { IfSome result (λ i. (i < 3) × (z ≡ first +ℤ pos i)) }
    ensures none { IfNone result ((i : ℕ) → i < 3 → z ≡ first +ℤ pos i → ⊥) }
{
    let i = z as i128 - first as i128;
    if i < 0 || i >= 3 {
        return None;
    }
    Some(i as usize)
}

impl Numbers for Three {
    ghost use Rattle.std.specs.Prelude.{◌+ℤ◌, pos, [], ◌∷◌};

    ghost numbers = { λ s. s.first ∷ (s.first +ℤ pos 1) ∷ (s.first +ℤ pos 2) ∷ [] };

    fn len(&self) -> usize {
        3
    }

    fn place_of(&self, z: i64) -> Option<usize> {
        above(self.first, z)
    }
}

/// Three accumulators, each of those cells of a column whose key is its number; the places of the cells begin with this
/// one.
fn condensed(
    alloc: Global,
    op: Aggregate,
    numbers: &Three,
    first: u64,
    keys: &Column,
    cells: &Column,
) -> Result<Vec<Accumulator>> {
    let places = places_from(alloc, first, cells.len())?;
    if places.len() != cells.len() || keys.len() != cells.len() {
        bail!("columns of two lengths");
    }
    Ok(condense_keyed(alloc, op, numbers, keys, cells, &places)?)
}

/// Whether an accumulator can take in the points of another one.
fn has_room(a: &Accumulator, more: &Accumulator) -> bool
    ensures op { IsTrue result → a.now.running.op ≡ more.now.running.op }
    ensures room { IsTrue result → a.now.running.count + more.now.running.count ≤ 2 ^ 24 }
{
    a.running.op == more.running.op && a.running.count <= 10_000_000 && more.running.count <= 4096
}

/// Each accumulator takes in the points of another one.
fn take_over(folds: &mut [Accumulator], more: &[Accumulator]) -> Result<()> {
    if folds.len() != more.len() {
        bail!("accumulators of another number");
    }
    for k in 0..folds.len() {
        if !has_room(&folds[k], &more[k]) {
            bail!("no room");
        }
        folds[k].take_over(&more[k]);
    }
    Ok(())
}

/// The three accumulators of a part: columns of a length with the place of their first cell, as `0:7,8,9:3,3,3`.
fn condensed_part(
    alloc: Global,
    op: Aggregate,
    numbers: &Three,
    len: usize,
    part: &str,
) -> Result<Vec<Accumulator>> {
    let (first, rest) = cut_at(part, ':');
    let (keys, cells) = cut_at(rest, ':');
    let first = first.parse::<u64>()?;
    let keys = column(alloc, len, keys)?;
    let cells = column(alloc, len, cells)?;
    condensed(alloc, op, numbers, first, &keys, &cells)
}

/// Three accumulators that are told, each under its own number, of the cells of columns, each with the place of its
/// first cell, its keys and its cells, as `sum 7 65 0:7,8,9:3,3,3 65:=7:1,1,1`. The numbers are 7, 8 and 9 then.
pub fn keyed(alloc: Global, words: &str) -> Result<String> {
    let (op, rest) = cut(words);
    let (number, rest) = cut(rest);
    let (len, parts) = cut(rest);
    let op = aggregate(op)?;
    let first = integer(number)?;
    let len = index(len)?;
    let mut folds = empties(alloc, op, 3)?;
    for part in parts.split(' ') {
        let more = condensed_part(alloc, op, &Three { first }, len, part)?;
        take_over(folds.as_mut_slice(), &more)?;
    }
    finished(alloc, folds)
}
