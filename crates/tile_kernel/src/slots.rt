//! Different numbers, each at a place of its own.

ghost use Rattle.std.specs.Prelude.{◌≡◌, ◌↔◌, ℕ, ℤ, ◌+◌, ◌-◌, ◌<◌, ◌≤◌, ◌≤ℤ◌, ◌+ℤ◌, pos, [], Contains, length, IfOk, IfSome, IfNone};
ghost use Rattle.std.specs.Ordering.{int_cmp};
ghost use Rattle.std.specs.List.Sorted.{IsStrictlySortedBy};
ghost use Rattle.arr_core.specs.Limits.{max_tile};
ghost use Rattle.wcps_mean.specs.Condensers.{values};
ghost use Rattle.tile_kernel.specs.Repeated.{runs_shown};
ghost use Rattle.tile_kernel.specs.Keyed.{AreValuesOf, LieFrom, IsPlaceOf, IsTable};

use crate::column::{Column, MAX_PLACES};
use crate::keyed::Numbers;
use crate::seen::{Runs, Seen};
use crate::view::View;
use std::alloc::{AllocError, Global};
use std::marker::Model;
use wcps_mean::Outcome;

/// How many numbers a table has at most.
const MAX_SPAN: usize = 65_536;

/// Rising numbers. Where they lie near each other they have a table: for each number from `low` on one more than its
/// place, or 0. Where they lie far apart the table is empty, and a number is looked for among them.
#[derive(Drop)]
pub struct Slots {
    low: i64,
    table: Vec<u32>,
    numbers: Vec<i64>,
}

impl Model for Slots {
    ghost use Rattle.std.specs.Prelude.{List, ℤ};

    ghost Value = { List ℤ };

    ghost use Rattle.tile_kernel.specs.Keyed.{AreSlots};

    ghost view = { λ s. s.numbers.items };

    ghost invariant = { λ s. AreSlots s.low s.table.items s.numbers.items };
}

impl Slots {
    /// No number, with a table of those from `low` on, `span` of them.
    pub fn new(alloc: Global, low: i64, span: usize) -> Result<Slots, AllocError>
        ensures { IfOk result (λ s. s ≡ []) }
    {
        Ok(Slots {
            low,
            table: vec![in alloc; 0u32; span]?,
            numbers: Vec::new(alloc),
        })
    }

    /// The values of a column, each once.
    pub fn of(alloc: Global, column: &Column) -> Result<Slots, AllocError>
        ensures all { IfOk result (AreValuesOf column.now) }
        ensures few { IfOk result (λ s. length s ≤ length column.now) }
    {
        match column.seen() {
            Seen::Each(view) => Slots::of_view(alloc, &view),
            Seen::Runs(runs) => Slots::of_runs(alloc, &runs),
        }
    }

    /// The same of outcomes that are kept as runs.
    #[inline(never)]
    fn of_runs(alloc: Global, column: &Runs<'_>) -> Result<Slots, AllocError>
        ensures all { IfOk result (AreValuesOf (runs_shown column.now)) }
        ensures few { IfOk result (λ s. length s ≤ length (runs_shown column.now)) }
    {
        let mut room = [0i64; MAX_PLACES];
        Slots::of_view(alloc, &column.spread(&mut room))
    }

    /// The same of outcomes at each place.
    fn of_view(alloc: Global, column: &View<'_>) -> Result<Slots, AllocError>
        ensures all { IfOk result (AreValuesOf column.now) }
        ensures few { IfOk result (λ s. length s ≤ length column.now) }
    {
        let _few = column.len();
        let mut numbers = values_of(alloc, column)?;
        make_rising(&mut numbers);
        Slots::of_rising(alloc, numbers)
    }

    /// Rising numbers, with a table where they lie near each other.
    fn of_rising(alloc: Global, numbers: Vec<i64>) -> Result<Slots, AllocError>
        requires rising { IsStrictlySortedBy int_cmp numbers.items }
        requires few { length numbers.items ≤ max_tile }
        ensures { IfOk result (λ s. s ≡ numbers.items) }
    {
        match range(&numbers) {
            None => Ok(Slots {
                low: 0,
                table: Vec::new(alloc),
                numbers,
            }),
            Some((low, span)) => Ok(Slots {
                low,
                table: table_of(alloc, low, span, &numbers)?,
                numbers,
            }),
        }
    }
}

/// The values of a column, as often as it has them.
fn values_of(alloc: Global, column: &View<'_>) -> Result<Vec<i64>, AllocError>
    ensures values { IfOk result (λ v. v.items ≡ values column.now) }
    ensures few { IfOk result (λ v. length v.items ≤ length column.now) }
{
    let mut numbers = Vec::with_capacity(alloc, column.len())?;
    for place in 0..column.len() {
        match column.at(place) {
            Outcome::Value(z) => numbers.push(z)?,
            Outcome::Fault(_) => (),
        }
    }
    Ok(numbers)
}

/// Makes numbers rise, each of them once.
fn make_rising(numbers: &mut Vec<i64>)
    ensures rising { IsStrictlySortedBy int_cmp numbers.new.items }
    ensures same { (z : ℤ) → Contains numbers.old.items z ↔ Contains numbers.new.items z }
    ensures few { length numbers.new.items ≤ length numbers.old.items }
{
    numbers.sort_unstable();
    numbers.dedup();
}

/// The first of rising numbers, and how many there are from it on to the last one, if these are few enough for a table.
fn range(numbers: &[i64]) -> Option<(i64, usize)>
    requires { IsStrictlySortedBy int_cmp numbers.now }
    ensures near { IfSome result (λ r. LieFrom r.0 r.1 numbers.now) }
    ensures few { IfSome result (λ r. r.1 ≤ MAX_SPAN) }
    ensures far { IfNone result ((low : ℤ) → LieFrom low MAX_SPAN numbers.now → length numbers.now ≡ 0) }
{
    if numbers.is_empty() {
        return None;
    }
    let low = numbers[0];
    let last = steps(low, numbers[numbers.len() - 1]);
    if last >= MAX_SPAN {
        return None;
    }
    Some((low, last + 1))
}

/// How far a number is above another one.
fn steps(low: i64, z: i64) -> usize
    requires { low ≤ℤ z }
    ensures { z ≡ low +ℤ pos result }
{
    (z as i128 - low as i128) as usize
}

/// For each of `span` numbers from `low` on one more than its place among rising ones, or 0.
fn table_of(alloc: Global, low: i64, span: usize, numbers: &[i64]) -> Result<Vec<u32>, AllocError>
    requires rising { IsStrictlySortedBy int_cmp numbers.now }
    requires near { LieFrom low span numbers.now }
    requires few { length numbers.now ≤ max_tile }
    ensures { IfOk result (λ table. IsTable low table.items numbers.now) }
{
    let mut table = vec![in alloc; 0u32; span]?;
    for k in 0..numbers.len() {
        let i = steps(low, numbers[k]);
        table[i] = k as u32 + 1;
    }
    Ok(table)
}

/// The place of a number among rising ones, if it is one of them.
#[inline(never)]
fn searched(numbers: &[i64], z: i64) -> Option<usize>
    requires { IsStrictlySortedBy int_cmp numbers.now }
    ensures within { IfSome result (λ k. k < length numbers.now) }
    ensures place { IsPlaceOf z numbers.now result }
{
    match numbers.binary_search(&z) {
        Ok(k) => Some(k),
        Err(_) => None,
    }
}

/// How far a number is above the lowest one, if it is within the range.
fn above(low: i64, z: i64, span: usize) -> Option<usize>
    ensures within { IfSome result (λ i. (i < span) × (z ≡ low +ℤ pos i)) }
    ensures none { IfNone result ((i : ℕ) → i < span → z ≡ low +ℤ pos i → ⊥) }
{
    let i = z as i128 - low as i128;
    if i < 0 || i >= span as i128 {
        return None;
    }
    Some(i as usize)
}

impl Numbers for Slots {
    ghost numbers = { λ s. s };

    fn len(&self) -> usize {
        self.numbers.len()
    }

    fn place_of(&self, z: i64) -> Option<usize> {
        if self.table.is_empty() {
            return searched(&self.numbers, z);
        }
        match above(self.low, z, self.table.len()) {
            None => None,
            Some(i) => {
                let place = self.table[i];
                if place == 0 {
                    return None;
                }
                Some(place as usize - 1)
            }
        }
    }
}
