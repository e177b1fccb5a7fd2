//! Values that stand for runs.

ghost use Rattle.std.specs.Prelude.{◌≡◌, ◌+◌, ◌<◌, ◌≤◌, ◌++◌, length, replicate, slice_get, sum, take, map, Some, IfSome, IsTrue};
ghost use Rattle.arr_core.specs.Limits.{max_tile};
ghost use Rattle.wcps_mean.specs.declared.cell.Outcome.TheVariants.{Value};
ghost use Rattle.tile_kernel.specs.Repeated.{shown, runs_shown, IsSpread, StandsIn};

use crate::form::Form;
use crate::operations::is_narrow;
use crate::seen::{Runs, Seen};
use crate::view::View;
use arr_core::write_run;
use wcps_mean::Outcome;

impl<'a> Runs<'a> {
    /// The values, each once.
    pub fn heads(&self) -> View<'a>
        ensures { result ≡ map Value (take (length self.now.counts.now) self.now.values.now) }
    {
        View {
            len: self.counts.len(),
            form: Form::Values,
            values: self.values,
            faults: self.faults,
            narrow: &[],
        }
    }

    /// The outcome at a place: its run is looked for from the first one on.
    pub fn at(&self, place: usize) -> Outcome
        requires { place < length (runs_shown self.now) }
        ensures { slice_get (runs_shown self.now) place ≡ Some result }
    {
        Outcome::Value(self.values[run_at(self.counts, place)])
    }

    /// The outcomes at all places, by their values in `room`.
    pub fn spread<'b>(&'b self, room: &'b mut [i64]) -> View<'b>
        requires { length room.old ≡ max_tile }
        ensures { result ≡ runs_shown self.now }
    {
        spread_over(self.values, self.counts, room);
        View {
            len: self.len,
            form: Form::Values,
            values: room,
            faults: self.faults,
            narrow: &[],
        }
    }

    /// The outcomes at all places, by their values in `room`, if each fits 32 bits.
    pub fn spread_narrow<'b>(&'b self, room: &'b mut [i32]) -> Option<View<'b>>
        requires { length room.old ≡ max_tile + 8 }
        ensures { IfSome result (λ view. view ≡ runs_shown self.now) }
    {
        if !spread_narrow_over(self.values, self.counts, room) {
            return None;
        }
        Some(View {
            len: self.len,
            form: Form::Narrow,
            values: self.values,
            faults: self.faults,
            narrow: room,
        })
    }
}

impl<'a> Seen<'a> {
    /// The outcomes at all places, by their values in `room` where they are kept as runs.
    pub fn spread<'b>(&'b self, room: &'b mut [i64]) -> View<'b>
        requires { length room.old ≡ max_tile }
        ensures { result ≡ shown self.now }
    {
        match self {
            Seen::Each(view) => return view.again(),
            Seen::Runs(runs) => return runs.spread(room),
        }
    }
}

/// The run in which a place lies.
fn run_at(counts: &[u32], place: usize) -> usize
    requires { place < sum counts.now }
    ensures { StandsIn counts.now place result }
{
    let mut left = place;
    for run in 0..counts.len() {
        let count = counts[run] as usize;
        if left < count {
            return run;
        }
        left -= count;
    }
    0
}

/// Writes each value as often as its count says, one after the other.
pub(crate) fn spread_over(values: &[i64], counts: &[u32], out: &mut [i64])
    requires values { length counts.now ≤ length values.now }
    requires room { sum counts.now ≤ length out.old }
    ensures front { IsSpread values.now counts.now out.new }
    ensures length { length out.new ≡ length out.old }
{
    let mut place = 0;
    for run in 0..counts.len() {
        let count = counts[run] as usize;
        write_run(out, place, count, values[run]);
        place += count;
    }
}

/// How many cells of a run are written together.
const BLOCK: usize = 8;

/// As many cells as a column has places at most, and a block behind them.
pub(crate) const NARROW_ROOM: usize = 4104;

/// Writes a value to so many cells from a place on, in blocks, without a branch for each cell: what stood behind them
/// may be lost.
#[inline(always)]
fn write_blocks(cells: &mut [i32], from: usize, count: usize, value: i32)
    requires { from + count + 8 ≤ length cells.old }
    ensures front { take (from + count) cells.new ≡ take from cells.old ++ replicate count value }
    ensures length { length cells.new ≡ length cells.old }
{
    let end = from + count;
    let mut at = from;
    while at < end {
        cells[at..at + BLOCK].fill(value);
        at += BLOCK;
    }
}

/// Writes each value as often as its count says, one after the other, if each fits 32 bits; tells whether it did.
fn spread_narrow_over(values: &[i64], counts: &[u32], out: &mut [i32]) -> bool
    requires values { length counts.now ≤ length values.now }
    requires room { sum counts.now + 8 ≤ length out.old }
    ensures front { IsTrue result → IsSpread values.now counts.now out.new }
    ensures length { length out.new ≡ length out.old }
{
    let mut from = 0;
    for run in 0..counts.len() {
        let value = values[run];
        if !is_narrow(value) {
            return false;
        }
        let count = counts[run] as usize;
        write_blocks(out, from, count, value as i32);
        from += count;
    }
    true
}
