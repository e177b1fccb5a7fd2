//! The cells of the columns.

use crate::noise::noise;
use anyhow::{Result, bail};
use std::alloc::Global;
use tile_kernel::{Column, MAX_PLACES};
use wcps_mean::Outcome;
use wcps_text::BinaryOperator;

/// What cells a column has.
#[derive(Clone, Copy)]
pub enum Data {
    /// One number at each place, each kept by itself.
    Constant,
    /// Noise of 32 bits.
    Noise,
    /// Noise of 62 bits.
    Wide,
    /// Noise of 32 bits; the last place divides by 0, or leaves 64 bits.
    Faults,
}

/// The number in as many of the low bits as the data has, with a sign.
fn signed(data: Data, number: u64) -> i64 {
    match data {
        Data::Wide => (number % (1 << 62)) as i64 - (1 << 61),
        _ => (number % (1 << 32)) as i64 - (1 << 31),
    }
}

/// The cell of a left operand; whether its place is the last one.
fn left(data: Data, place: u64, last: bool) -> i64 {
    match data {
        Data::Constant => 7,
        Data::Faults if last => i64::MAX,
        _ => signed(data, noise(place)),
    }
}

/// The cell of a right operand of noise: never 0 as a divisor, save for the fault at the last place, and of 0 to 63 as
/// the number of a bit.
fn right(op: BinaryOperator, data: Data, number: u64, last: bool) -> i64 {
    match (op, data) {
        (BinaryOperator::Bit, Data::Faults) if last => 64,
        (BinaryOperator::Divide, Data::Faults) if last => 0,
        (BinaryOperator::Subtract, Data::Faults) if last => -2,
        (BinaryOperator::Bit, _) => (number % 64) as i64,
        (_, Data::Constant) => 3,
        (BinaryOperator::Divide, _) => signed(data, number) | 1,
        _ => signed(data, number),
    }
}

fn column(cells: &[i64], alloc: Global) -> Result<Column> {
    let mut column = Column::new(alloc)?;
    if cells.len() > MAX_PLACES {
        bail!("more cells than a tile has");
    }
    column.write(cells);
    Ok(column)
}

/// A column of left operands.
pub fn lefts(alloc: Global, data: Data, len: u32) -> Result<Column> {
    let mut cells = Vec::new(alloc);
    for place in 0..len {
        cells.push(left(data, u64::from(place), place + 1 == len))?;
    }
    column(&cells, alloc)
}

/// A column of right operands. Their noise is that of the places behind those of the left ones.
pub fn rights(alloc: Global, op: BinaryOperator, data: Data, len: u32) -> Result<Column> {
    let mut cells = Vec::new(alloc);
    for place in 0..len {
        let number = noise(u64::from(place) + u64::from(len));
        cells.push(right(op, data, number, place + 1 == len))?;
    }
    column(&cells, alloc)
}

/// A column of truth values: true everywhere for constant data, else noise.
pub fn conditions(alloc: Global, data: Data, len: u32) -> Result<Column> {
    let mut cells = Vec::new(alloc);
    for place in 0..len {
        cells.push(match data {
            Data::Constant => 1,
            _ => (noise(u64::from(place)) >> 63) as i64,
        })?;
    }
    column(&cells, alloc)
}

/// A column that is one scalar at each place.
pub fn scalar(alloc: Global, number: i64, len: u32) -> Result<Column> {
    let mut column = Column::new(alloc)?;
    if len as usize > MAX_PLACES {
        bail!("more cells than a tile has");
    }
    column.fill(len as usize, Outcome::Value(number));
    Ok(column)
}

/// The places of a column's cells, from 0 on.
pub fn places(alloc: Global, len: u32) -> Result<Vec<u64>> {
    let mut places = Vec::new(alloc);
    for place in 0..len {
        places.push(u64::from(place))?;
    }
    Ok(places)
}
