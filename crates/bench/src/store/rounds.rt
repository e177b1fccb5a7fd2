//! The actions that are timed.

use crate::noise::noise;
use crate::store::grid::{Grid, square};
use anyhow::{Result, bail};
use arr_core::{Cell, Domain};
use block_file::Blocks;
use std::alloc::{AllocError, Global};

/// How many rows and columns a window has, as a tile does.
const WINDOW: u16 = 64;

/// How many places are few.
const FEW: u64 = 12;

/// What is timed.
#[derive(Clone, Copy)]
pub(crate) enum Action {
    /// Writes one number everywhere, another in each round.
    Fill,
    /// Writes noise everywhere.
    Values,
    /// Reads all numbers.
    Read,
    /// Reads a window at a scattered place, half a tile from the edges of tiles.
    Window,
    /// Reads a number at a scattered place.
    Cell,
    /// Reads a window at one of a few places, each again and again.
    Again,
    /// Reads a number at one of a few places, each again and again.
    Point,
    /// Writes a number at a scattered place.
    Put,
}

impl Action {
    /// The action with a name.
    pub(crate) fn of(word: &str) -> Result<Action> {
        Ok(match word {
            "fill" => Action::Fill,
            "values" => Action::Values,
            "read" => Action::Read,
            "window" => Action::Window,
            "cell" => Action::Cell,
            "again" => Action::Again,
            "point" => Action::Point,
            "put" => Action::Put,
            _ => bail!("no action {word}"),
        })
    }
}

/// A cell of 16 bits that depends on a number.
fn cell(number: u64) -> Cell {
    Cell::Int((number % 65536) as i64 - 32768)
}

/// A scattered place below a limit, which is taken for 1 where it is 0.
fn below(limit: u16, number: u64) -> u16 {
    (number % limit.max(1) as u64) as u16
}

/// The row and the column of a round.
pub(crate) fn place(round: u64, side: u16) -> (u16, u16) {
    let number = noise(round);
    (
        below(side, number / 65536),
        below(side, number / 4294967296),
    )
}

/// The window of a round.
fn window(alloc: Global, round: u64, side: u16) -> Result<Domain> {
    let (row, column) = place(round, (side / WINDOW).saturating_sub(1));
    let y = 32 + 64 * row as i32;
    let x = 32 + 64 * column as i32;
    square(alloc, (y, x), WINDOW)
}

/// Noise for a grid of so many rows and columns.
pub(crate) fn noisy_cells(alloc: Global, side: u16) -> Result<Vec<Cell>, AllocError> {
    let count = side as u64 * side as u64;
    let mut cells = Vec::new(alloc);
    for number in 0..count {
        cells.push(cell(noise(number)))?;
    }
    Ok(cells)
}

/// The sum of the numbers in the window of a round, within 64 bits.
fn read_window<B: Blocks + Drop>(
    alloc: Global,
    grid: &mut Grid<B>,
    round: u64,
    side: u16,
) -> Result<i64> {
    Ok(grid.sum(alloc, &window(alloc, round, side)?)?)
}

/// The number at the place of a round.
fn read_number<B: Blocks + Drop>(
    alloc: Global,
    grid: &mut Grid<B>,
    round: u64,
    side: u16,
) -> Result<i64> {
    let (row, column) = place(round, side);
    Ok(grid.number(alloc, &[row as i32, column as i32])?)
}

/// Writes a number at the place of a round.
fn put<B: Blocks + Drop>(alloc: Global, grid: &mut Grid<B>, round: u64, side: u16) -> Result<()> {
    let (row, column) = place(round, side);
    let area = square(alloc, (row as i32, column as i32), 1)?;
    grid.fill(&area, cell(round))?;
    Ok(())
}

/// The whole of a grid: how many rows and columns it has, their box, and cells for it.
#[derive(Clone, Copy)]
pub(crate) struct Whole<'a> {
    pub(crate) side: u16,
    pub(crate) area: &'a Domain,
    pub(crate) cells: &'a [Cell],
}

/// Does the action once, and gives a number that depends on what was read, or 0.
fn once<B: Blocks + Drop>(
    alloc: Global,
    grid: &mut Grid<B>,
    action: Action,
    whole: Whole<'_>,
    round: u64,
) -> Result<i64> {
    let side = whole.side;
    match action {
        Action::Fill => grid.fill(whole.area, cell(round))?,
        Action::Values => grid.write(whole.area, whole.cells)?,
        Action::Read => return Ok(grid.sum(alloc, whole.area)?),
        Action::Window => return read_window(alloc, grid, round, side),
        Action::Cell => return read_number(alloc, grid, round, side),
        Action::Again => return read_window(alloc, grid, round % FEW, side),
        Action::Point => return read_number(alloc, grid, round % FEW, side),
        Action::Put => put(alloc, grid, round, side)?,
    }
    Ok(0)
}

/// Does the action in each round, and gives the sum of what was read, within 64 bits.
pub(crate) fn repeat<B: Blocks + Drop>(
    alloc: Global,
    grid: &mut Grid<B>,
    action: Action,
    whole: Whole<'_>,
    rounds: u64,
) -> Result<i64> {
    let mut sum = 0i64;
    for round in 0..rounds {
        sum = sum.wrapping_add(once(alloc, grid, action, whole, round)?);
    }
    Ok(sum)
}
