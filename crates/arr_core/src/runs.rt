//! Numbers in order, as runs of one value.

ghost use Rattle.std.specs.Prelude.{◌≡◌, ◌+◌, ◌≤◌, ◌++◌, [], length, take, replicate, IfOk, false};

use std::alloc::{AllocError, Global};

/// Numbers in order: those of 32 bits where it is narrow. Else the k-th value stands as often as the k-th count says,
/// as far as both lists go, and without counts each value stands once. So the list of values may be longer than that of
/// the counts, and each list be written again and again.
#[derive(Drop)]
pub struct RunList {
    pub values: Vec<i64>,
    pub counts: Vec<u32>,
    pub narrow: Vec<i32>,
    pub is_narrow: bool,
}

impl RunList {
    /// Each value as often as its count says, or once without counts.
    pub fn of(alloc: Global, values: Vec<i64>, counts: Vec<u32>) -> RunList
        ensures { result ≡ record { values = values; counts = counts; narrow = result.narrow; is_narrow = false } }
    {
        RunList {
            values,
            counts,
            narrow: Vec::new(alloc),
            is_narrow: false,
        }
    }

    /// As many zeros, without counts.
    pub fn new(alloc: Global, len: usize) -> Result<RunList, AllocError>
        ensures wide { IfOk result (λ r. r.is_narrow ≡ false) }
        ensures values { IfOk result (λ r. length r.values.items ≡ len) }
        ensures counts { IfOk result (λ r. r.counts.items ≡ []) }
    {
        let mut values = Vec::new(alloc);
        values.resize(len, 0)?;
        Ok(RunList::of(alloc, values, Vec::new(alloc)))
    }
}

/// Writes numbers of 32 bits in 64.
pub fn widen(cells: &mut [i64], narrow: &[i32])
    requires { length cells.old ≡ length narrow.now }
    ensures { cells.new ≡ narrow.now }
{
    for place in 0..narrow.len() {
        cells[place] = i64::from(narrow[place]);
    }
}

/// How many cells of a short run are written together.
const BLOCK: usize = 8;

/// A run of so many cells is filled as a slice is.
const LONG: usize = 64;

/// Writes a value to so many cells from a place on. A short run is written in blocks, without a branch for each cell:
/// what stood behind it may be lost.
#[inline(always)]
pub fn write_run(cells: &mut [i64], from: usize, count: usize, value: i64)
    requires { from + count ≤ length cells.old }
    ensures front { take (from + count) cells.new ≡ take from cells.old ++ replicate count value }
    ensures length { length cells.new ≡ length cells.old }
{
    let end = from + count;
    if count >= LONG || cells.len() - end < BLOCK {
        cells[from..end].fill(value);
        return;
    }
    let mut at = from;
    while at < end {
        cells[at..at + BLOCK].fill(value);
        at += BLOCK;
    }
}
