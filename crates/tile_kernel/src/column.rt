//! Columns: the outcomes at the places of a tile.

ghost use Rattle.std.specs.Prelude.{◌≡◌, ◌<◌, ◌≤◌, [], length, map, replicate, slice_get, sum, take, max, vec_capacity, Some, IfOk, IfSome, IsTrue};
ghost use Rattle.arr_core.specs.Limits.{max_tile};
ghost use Rattle.arr_core.specs.Runs.{cells_of, runs_of};
ghost use Rattle.wcps_mean.specs.declared.cell.Outcome.TheVariants.{Value};
ghost use Rattle.tile_kernel.specs.Columns.{outcome_at, AreOutcomes, AreValues, IsAsRoomy};
ghost use Rattle.tile_kernel.specs.Repeated.{shown, RepeatsIf};

use crate::form::Form;
use crate::runs::spread_over;
use crate::seen::{Runs, Seen};
use crate::view::{View, parts};
use arr_core::RunList;
use std::alloc::{AllocError, Global};
use std::marker::Model;
use std::mem;
use wcps_mean::{Outcome, PointFault};

/// How many places a column has at most: as many as a tile has cells.
pub const MAX_PLACES: usize = 4096;

/// The outcomes at the places of a tile, at most `MAX_PLACES` of them. It is made once with room for all of them, which
/// is cleared only as far as it is used, and then written again and again without taking memory, but for the counts of
/// runs and for values of 32 bits. One outcome at every place is kept once, values that come as runs are kept once a
/// run, values that come in 32 bits each are kept so, and a column without a fault keeps no faults.
#[derive(Drop)]
pub struct Column {
    pub(crate) len: usize,
    pub(crate) form: Form,
    /// How many of the values stand for runs; none where each stands for a place.
    pub(crate) runs: Option<usize>,
    pub(crate) values: Vec<i64>,
    pub(crate) faults: Vec<Option<PointFault>>,
    /// The values that are kept in 32 bits each.
    pub(crate) narrow: Vec<i32>,
    pub(crate) counts: Vec<u32>,
}

impl Model for Column {
    ghost use Rattle.std.specs.Prelude.{List};
    ghost use Rattle.wcps_mean.specs.declared.cell.Outcome.{Outcome};

    ghost Value = { List Outcome };

    ghost use Rattle.tile_kernel.specs.Repeated.{column_of, IsColumn};

    ghost view = { λ c. column_of c.runs c.form c.len c.values.items c.faults.items c.narrow.items c.counts.items };

    ghost invariant = { λ c. IsColumn c.runs c.form c.len c.values c.faults c.narrow.items c.counts.items };
}

impl Column {
    /// A column of no place, with room for `MAX_PLACES`.
    pub fn new(alloc: Global) -> Result<Column, AllocError>
        ensures { IfOk result (λ c. c ≡ []) }
    {
        Ok(Column {
            len: 0,
            form: Form::Values,
            runs: None,
            values: Vec::with_capacity(alloc, MAX_PLACES)?,
            faults: Vec::with_capacity(alloc, MAX_PLACES)?,
            narrow: Vec::new(alloc),
            counts: Vec::new(alloc),
        })
    }

    /// How many places it has.
    pub fn len(&self) -> usize
        ensures places { result ≡ length self.now }
        ensures few { result ≤ max_tile }
    {
        self.len
    }

    /// What it keeps, lent.
    pub(crate) fn seen(&self) -> Seen<'_>
        ensures value { shown result ≡ self.now }
        ensures few { length self.now ≤ max_tile }
    {
        match self.runs {
            None => {
                return Seen::Each(View {
                    len: self.len,
                    form: self.form,
                    values: self.values.as_slice(),
                    faults: self.faults.as_slice(),
                    narrow: self.narrow.as_slice(),
                });
            }
            Some(runs) => {
                return Seen::Runs(Runs {
                    len: self.len,
                    values: self.values.as_slice(),
                    faults: self.faults.as_slice(),
                    counts: &self.counts[..runs],
                });
            }
        }
    }

    /// The values at all places, where none has a fault and each is kept at its place, in 64 bits.
    pub fn values(&self) -> Option<&[i64]>
        ensures { IfSome result (λ values. self.now ≡ map Value values.now) }
    {
        if self.runs.is_some() {
            return None;
        }
        match self.form {
            Form::Values => Some(&self.values[..self.len]),
            _ => None,
        }
    }

    /// The outcome at a place. Where values are kept as runs it is looked for from the first one on: `spread` first
    /// where many places are read.
    pub fn at(&self, place: usize) -> Outcome
        requires { place < length self.now }
        ensures { slice_get self.now place ≡ Some result }
    {
        match self.seen() {
            Seen::Each(view) => return view.at(place),
            Seen::Runs(runs) => return runs.at(place),
        }
    }

    /// Makes it one outcome at each of `len` places.
    pub fn fill(&mut self, len: usize, o: Outcome)
        requires { len ≤ max_tile }
        ensures { self.new ≡ replicate len o }
    {
        grow(&mut self.values, len, 0);
        grow(&mut self.faults, len, None);
        self.len = len;
        self.form = Form::Same(o);
        self.runs = None;
    }

    /// Makes it the values of these cells.
    pub fn write(&mut self, cells: &[i64])
        requires { length cells.now ≤ max_tile }
        ensures { self.new ≡ map Value cells.now }
    {
        grow(&mut self.values, cells.len(), 0);
        grow(&mut self.faults, cells.len(), None);
        copy_in(&mut self.values, cells);
        self.len = cells.len();
        self.form = Form::Values;
        self.runs = None;
    }

    /// Makes it the values of as many cells as it has places at most, and gives what it held for their list.
    pub fn exchange(&mut self, cells: &mut Vec<i64>)
        requires { length cells.old.items ≡ max_tile }
        ensures value { self.new ≡ map Value cells.old.items }
        ensures length { length cells.new.items ≡ max_tile }
    {
        grow(&mut self.values, MAX_PLACES, 0);
        grow(&mut self.faults, MAX_PLACES, None);
        mem::swap(&mut self.values, cells);
        self.len = MAX_PLACES;
        self.form = Form::Values;
        self.runs = None;
    }

    /// Makes it the values of as many cells as it has places at most, which come as runs or in 32 bits each, and gives
    /// what it held for their values. Without memory for the counts of runs their cells are written place by place.
    pub fn exchange_runs(&mut self, cells: &mut RunList)
        requires room { length cells.old.values.items ≡ max_tile }
        requires places { length (cells_of cells.old) ≡ max_tile }
        ensures value { self.new ≡ map Value (cells_of cells.old) }
        ensures room { length cells.new.values.items ≡ max_tile }
    {
        if cells.is_narrow {
            self.exchange_narrow(&mut cells.narrow);
            return;
        }
        self.exchange_wide(cells);
    }

    /// The same of cells of 32 bits.
    fn exchange_narrow(&mut self, cells: &mut Vec<i32>)
        requires { length cells.old.items ≡ max_tile }
        ensures { self.new ≡ map Value cells.old.items }
    {
        grow(&mut self.values, MAX_PLACES, 0);
        grow(&mut self.faults, MAX_PLACES, None);
        mem::swap(&mut self.narrow, cells);
        self.len = MAX_PLACES;
        self.form = Form::Narrow;
        self.runs = None;
    }

    /// The same of cells that come as runs.
    fn exchange_wide(&mut self, cells: &mut RunList)
        requires room { length cells.old.values.items ≡ max_tile }
        requires places { length (runs_of cells.old.values.items cells.old.counts.items) ≡ max_tile }
        ensures value { self.new ≡ map Value (runs_of cells.old.values.items cells.old.counts.items) }
        ensures room { length cells.new.values.items ≡ max_tile }
    {
        grow(&mut self.values, MAX_PLACES, 0);
        grow(&mut self.faults, MAX_PLACES, None);
        self.len = MAX_PLACES;
        self.form = Form::Values;
        let runs = cells.counts.len().min(MAX_PLACES);
        if runs == 0 {
            mem::swap(&mut self.values, &mut cells.values);
            self.runs = None;
            return;
        }
        if copy_counts(&mut self.counts, &cells.counts[..runs]) {
            mem::swap(&mut self.values, &mut cells.values);
            self.runs = Some(runs);
            return;
        }
        spread_over(
            &cells.values,
            &cells.counts[..runs],
            self.values.as_mut_slice(),
        );
        self.runs = None;
    }

    /// Makes it these outcomes.
    pub fn write_outcomes(&mut self, outcomes: &[Outcome])
        requires { length outcomes.now ≤ max_tile }
        ensures { self.new ≡ outcomes.now }
    {
        grow(&mut self.values, outcomes.len(), 0);
        grow(&mut self.faults, outcomes.len(), None);
        self.len = outcomes.len();
        self.runs = None;
        if copy_outcomes(&mut self.values, &mut self.faults, outcomes) {
            self.form = Form::Values;
            return;
        }
        self.form = Form::Mixed;
    }

    /// Makes each of its outcomes stand as often as its count says, over `len` places in all, if all are values and
    /// there is memory for the counts; tells whether it did.
    pub(crate) fn repeat(&mut self, counts: &[u32], len: usize) -> bool
        requires even { length counts.now ≡ length self.old }
        requires total { sum counts.now ≡ len }
        requires few { len ≤ max_tile }
        ensures { RepeatsIf result counts.now self.old self.new }
    {
        match self.runs {
            Some(_) => return false,
            None => match self.form {
                Form::Values => {
                    if !copy_counts(&mut self.counts, counts) {
                        return false;
                    }
                    grow(&mut self.values, MAX_PLACES, 0);
                    grow(&mut self.faults, MAX_PLACES, None);
                    self.len = len;
                    self.runs = Some(counts.len());
                    return true;
                }
                _ => return false,
            },
        }
    }

    /// Keeps each outcome at its place, and values in 64 bits, so that reading one takes the same time at all places.
    #[inline(never)]
    pub fn spread(&mut self)
        ensures { self.new ≡ self.old }
    {
        match self.runs {
            None => match self.form {
                Form::Narrow => {
                    widen(&mut self.values, &self.narrow[..self.len]);
                    self.form = Form::Values;
                }
                _ => return,
            },
            Some(runs) => {
                let mut room = [0i64; MAX_PLACES];
                copy_heads(&mut room, self.values.as_slice());
                spread_over(&room, &self.counts[..runs], self.values.as_mut_slice());
                self.runs = None;
                self.form = Form::Values;
            }
        }
    }
}

/// Makes a list at least so long, in the room that it has.
pub(crate) fn grow<T: Copy>(list: &mut Vec<T>, len: usize, blank: T)
    requires { len ≤ vec_capacity list.old }
    ensures long { length list.new.items ≡ max len (length list.old.items) }
    ensures kept { take (length list.old.items) list.new.items ≡ list.old.items }
    ensures room { vec_capacity list.old ≤ vec_capacity list.new }
{
    if list.len() < len {
        let _grown = list.resize(len, blank).is_ok();
    }
}

/// Copies values to others.
fn copy_heads(heads: &mut [i64], values: &[i64])
    requires { length values.now ≤ length heads.old }
    ensures { take (length values.now) heads.new ≡ values.now }
{
    for k in 0..values.len() {
        heads[k] = values[k];
    }
}

/// Makes counts the same as others, if there is memory for them; tells whether it did.
fn copy_counts(all: &mut Vec<u32>, counts: &[u32]) -> bool
    ensures { IsTrue result → all.new.items ≡ counts.now }
{
    all.clear();
    all.extend_from_slice(counts).is_ok()
}

/// Puts the values and the faults that stand for outcomes to the front of lists; tells whether there is no fault.
fn copy_outcomes(
    values: &mut Vec<i64>,
    faults: &mut Vec<Option<PointFault>>,
    outcomes: &[Outcome],
) -> bool
    requires values { length outcomes.now ≤ length values.old.items }
    requires faults { length outcomes.now ≤ length faults.old.items }
    ensures values { IsAsRoomy values.old values.new }
    ensures faults { IsAsRoomy faults.old faults.new }
    ensures outcomes { AreOutcomes (length outcomes.now) (outcome_at outcomes.now) values.new.items faults.new.items }
    ensures told { IsTrue result → AreValues (length outcomes.now) (outcome_at outcomes.now) values.new.items }
{
    let numbers = values.as_mut_slice();
    let marks = faults.as_mut_slice();
    let mut are_values = true;
    for place in 0..outcomes.len() {
        let (value, fault) = parts(outcomes[place]);
        numbers[place] = value;
        marks[place] = fault;
        are_values &= fault.is_none();
    }
    are_values
}

/// Copies cells to the front of values.
fn copy_in(values: &mut Vec<i64>, cells: &[i64])
    requires { length cells.now ≤ length values.old.items }
    ensures front { take (length cells.now) values.new.items ≡ cells.now }
    ensures places { IsAsRoomy values.old values.new }
{
    let all = values.as_mut_slice();
    for place in 0..cells.len() {
        all[place] = cells[place];
    }
}

/// Copies cells of 32 bits to the front of values.
fn widen(values: &mut Vec<i64>, cells: &[i32])
    requires { length cells.now ≤ length values.old.items }
    ensures front { take (length cells.now) values.new.items ≡ cells.now }
    ensures places { IsAsRoomy values.old values.new }
{
    let all = values.as_mut_slice();
    for place in 0..cells.len() {
        all[place] = cells[place] as i64;
    }
}
