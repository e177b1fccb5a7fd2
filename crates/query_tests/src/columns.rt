//! Columns as rows write them.

use crate::words::{outcome, shown};
use anyhow::{Result, bail};
use arr_core::RunList;
use std::alloc::Global;
use test_rows::{cut, cut_at, index};
use tile_kernel::{Column, MAX_PLACES, operate_columns};
use wcps_mean::{Outcome, PointFault};
use wcps_text::BinaryOperator;

/// The outcomes of a column's first place, of its inner places, and of its last place.
#[derive(Clone, Copy)]
struct Ends {
    first: Outcome,
    inner: Outcome,
    last: Outcome,
}

/// What a column of an outcome at each place is made of.
#[derive(Clone, Copy)]
enum Part {
    /// The value, and 0 where there is none.
    Value,
    /// What it is divided by: 0 where a division by 0 is wanted, and else 1.
    Divisor,
    /// The bit of 0 that is asked for: 64 where a bad bit is wanted, and else 0.
    Bit,
}

impl Part {
    fn of(self, outcome: Outcome) -> i64 {
        match (self, outcome) {
            (Part::Value, Outcome::Value(number)) => number,
            (Part::Divisor, Outcome::Fault(PointFault::DivideByZero)) => 0,
            (Part::Divisor, _) => 1,
            (Part::Bit, Outcome::Fault(PointFault::BadBit)) => 64,
            _ => 0,
        }
    }
}

/// Whether an outcome is a fault; an error for a fault that no division and no bit has.
fn is_fault(outcome: Outcome) -> Result<bool> {
    match outcome {
        Outcome::Value(_) => Ok(false),
        Outcome::Fault(PointFault::DivideByZero | PointFault::BadBit) => Ok(true),
        Outcome::Fault(_) => bail!("no division and no bit has this fault"),
    }
}

impl Ends {
    /// Reads a first, an inner and a last outcome, as `DivideByZero,3,BadBit`.
    fn read(words: &str) -> Result<Ends> {
        let (first, rest) = cut_at(words, ',');
        let (inner, last) = cut_at(rest, ',');
        Ok(Ends {
            first: outcome(first)?,
            inner: outcome(inner)?,
            last: outcome(last)?,
        })
    }

    /// The outcome at a place of `len`; the first place stands before the last one.
    fn at(&self, place: usize, len: usize) -> Outcome {
        if place == 0 {
            self.first
        } else if place.saturating_add(1) < len {
            self.inner
        } else {
            self.last
        }
    }

    fn has_fault(&self) -> Result<bool> {
        let first = is_fault(self.first)?;
        let inner = is_fault(self.inner)?;
        let last = is_fault(self.last)?;
        Ok(first || inner || last)
    }

    /// One part of the outcome at each place.
    fn cells(&self, alloc: Global, len: usize, part: Part) -> Result<Vec<i64>> {
        let mut cells = Vec::new(alloc);
        for place in 0..len {
            cells.push(part.of(self.at(place, len)))?;
        }
        Ok(cells)
    }

    /// A column of one part of the outcome at each place.
    fn parts(&self, alloc: Global, len: usize, part: Part) -> Result<Column> {
        written(alloc, &self.cells(alloc, len, part)?)
    }

    /// The values, and the faults of a division by 0.
    fn quotients(&self, alloc: Global, len: usize) -> Result<Column> {
        let values = self.parts(alloc, len, Part::Value)?;
        let divisors = self.parts(alloc, len, Part::Divisor)?;
        operated(alloc, BinaryOperator::Divide, &values, &divisors)
    }

    /// 0, and the faults of a bit 64.
    fn bits(&self, alloc: Global, len: usize) -> Result<Column> {
        let zeros = filled(alloc, len, Outcome::Value(0))?;
        let bits = self.parts(alloc, len, Part::Bit)?;
        operated(alloc, BinaryOperator::Bit, &zeros, &bits)
    }

    /// A column of these outcomes.
    fn column(&self, alloc: Global, len: usize) -> Result<Column> {
        if !self.has_fault()? {
            return self.parts(alloc, len, Part::Value);
        }
        let quotients = self.quotients(alloc, len)?;
        let bits = self.bits(alloc, len)?;
        operated(alloc, BinaryOperator::Add, &quotients, &bits)
    }
}

/// A column of values.
fn written(alloc: Global, cells: &[i64]) -> Result<Column> {
    let mut column = Column::new(alloc)?;
    if cells.len() > MAX_PLACES {
        bail!("too many places");
    }
    column.write(cells);
    Ok(column)
}

/// A column of one outcome.
fn filled(alloc: Global, len: usize, outcome: Outcome) -> Result<Column> {
    let mut column = Column::new(alloc)?;
    if len > MAX_PLACES {
        bail!("too many places");
    }
    column.fill(len, outcome);
    Ok(column)
}

/// An operation on two columns.
pub fn operated(
    alloc: Global,
    op: BinaryOperator,
    left: &Column,
    right: &Column,
) -> Result<Column> {
    let mut out = Column::new(alloc)?;
    if left.len() != right.len() {
        bail!("columns of two lengths");
    }
    operate_columns(op, left, right, &mut out);
    Ok(out)
}

/// Cells of a whole tile in 32 bits each.
fn narrow_cells(alloc: Global, cells: &[i64]) -> Result<RunList> {
    let mut list = RunList::new(alloc, MAX_PLACES)?;
    for cell in cells {
        list.narrow.push(i32::try_from(*cell)?)?;
    }
    list.is_narrow = true;
    Ok(list)
}

/// A column of the cells of a whole tile, which come in 32 bits each.
fn narrow(alloc: Global, cells: &[i64]) -> Result<Column> {
    let mut column = Column::new(alloc)?;
    let mut list = narrow_cells(alloc, cells)?;
    if list.values.len() != MAX_PLACES || list.narrow.len() != MAX_PLACES || !list.is_narrow {
        bail!("cells of no whole tile");
    }
    column.exchange_runs(&mut list);
    Ok(column)
}

/// A column of one outcome everywhere, as `=7`; of the values of a whole tile in 32 bits, as `~5,-6,7`; or of a first,
/// an inner and a last outcome, as `DivideByZero,3,BadBit`, each a value or a fault of a division by 0 or of a bit 64.
pub fn column(alloc: Global, len: usize, words: &str) -> Result<Column> {
    if let Some(word) = words.strip_prefix("=") {
        return filled(alloc, len, outcome(word)?);
    }
    if let Some(word) = words.strip_prefix("~") {
        return narrow(alloc, &Ends::read(word)?.cells(alloc, len, Part::Value)?);
    }
    Ends::read(words)?.column(alloc, len)
}

/// The outcomes of a column.
fn outcomes(alloc: Global, column: &Column) -> Result<Vec<Outcome>> {
    let mut outcomes = Vec::new(alloc);
    for place in 0..column.len() {
        outcomes.push(column.at(place))?;
    }
    Ok(outcomes)
}

/// The outcome of the places between the first and the last, an error where they differ.
fn inner(outcomes: &[Outcome]) -> Result<Outcome> {
    let len = outcomes.len();
    if len < 3 {
        bail!("no inner place");
    }
    let outcome = outcomes[1];
    for place in 2..len - 1 {
        if outcomes[place] != outcome {
            bail!("place {place} differs from place 1");
        }
    }
    Ok(outcome)
}

/// Outcomes as the first, the inner and the last one; as one where there is one, and `-` for none.
pub fn text(alloc: Global, outcomes: &[Outcome]) -> Result<String> {
    match outcomes {
        [] => Ok(String::from_str(alloc, "-")?),
        [one] => Ok(shown(alloc, *one)?),
        [first, .., last] => {
            let first = shown(alloc, *first)?;
            let inner = shown(alloc, inner(outcomes)?)?;
            let last = shown(alloc, *last)?;
            Ok(format!(in alloc; "{first},{inner},{last}")?)
        }
    }
}

/// The outcomes of a column as text.
pub fn column_text(alloc: Global, column: &Column) -> Result<String> {
    text(alloc, &outcomes(alloc, column)?)
}

/// The outcomes of a column into which a list of cells is exchanged, and how many cells the list has then.
fn exchange(alloc: Global, column: &mut Column, mut cells: Vec<i64>) -> Result<String> {
    if cells.len() != MAX_PLACES {
        bail!("cells of no whole tile");
    }
    column.exchange(&mut cells);
    let written = column_text(alloc, column)?;
    Ok(format!(in alloc; "{} and {} cells", written.as_str(), cells.len())?)
}

/// What a column of a length becomes by an exchange with the cells of a whole tile, as `65 DivideByZero,3,3 5,-6,7`.
pub fn exchanged(alloc: Global, words: &str) -> Result<String> {
    let (len, rest) = cut(words);
    let (before, cells) = cut(rest);
    let cells = Ends::read(cells)?.cells(alloc, MAX_PLACES, Part::Value)?;
    let mut column = column(alloc, index(len)?, before)?;
    exchange(alloc, &mut column, cells)
}
