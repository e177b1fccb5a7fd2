//! Writes and reads a grid of cells of 16 bits in a store, as often as it is told, to time how boxes are written and
//! read.
//!
//! Its words are an action, how many rows and columns the grid has, how often, the file of the store, and how many
//! pages of it are kept; without a file the store is in memory, and without a number of pages there is no pool. The
//! line is a number that depends on what was read.

mod grid;
mod rounds;

use anyhow::{Result, bail};
use arr_core::Cell;
use block_file::{BlockFile, Blocks};
use disk_face::{Disk, FileDisk, MemoryDisk};
use grid::Grid;
use page_pool::PagePool;
use rounds::{Action, Whole, place, repeat};
use std::alloc::{AllocError, Global};

/// The words that a run takes.
const WORDS: &str =
    "words: store fill|values|read|window|cell|again|point|put SIDE ROUNDS [FILE [PAGES]]";

/// What is timed: an action, how many rows and columns the grid has, and how often.
#[derive(Clone, Copy)]
struct Task {
    action: Action,
    side: u16,
    rounds: u64,
}

impl Task {
    /// What the words of it say.
    fn of(action: &str, side: &str, rounds: &str) -> Result<Task> {
        Ok(Task {
            action: Action::of(action)?,
            side: side.parse::<u16>()?,
            rounds: rounds.parse::<u64>()?,
        })
    }
}

/// What is read in a grid of cells, none for zeros.
fn read_whole<B: Blocks + Drop>(
    alloc: Global,
    grid: &mut Grid<B>,
    task: Task,
    whole: Whole<'_>,
) -> Result<i64> {
    if !whole.cells.is_empty() {
        grid.write(whole.area, whole.cells)?;
    }
    let sum = repeat(alloc, grid, task.action, whole, task.rounds)?;
    let (row, column) = place(task.rounds, task.side);
    Ok(sum.wrapping_add(grid.number(alloc, &[row as i32, column as i32])?))
}

/// The cells of a new grid: noise, or none for `Action::Fill`.
fn cells_of(alloc: Global, task: Task) -> Result<Vec<Cell>, AllocError> {
    match task.action {
        Action::Fill => Ok(Vec::new(alloc)),
        _ => rounds::noisy_cells(alloc, task.side),
    }
}

/// What is read in a new grid.
fn read_in<B: Blocks + Drop>(alloc: Global, grid: &mut Grid<B>, task: Task) -> Result<i64> {
    let cells = cells_of(alloc, task)?;
    let area = grid::square(alloc, (0, 0), task.side)?;
    let whole = Whole {
        side: task.side,
        area: &area,
        cells: &cells,
    };
    read_whole(alloc, grid, task, whole)
}

/// What is read in a store over new blocks.
fn timed<B: Blocks + Drop>(alloc: Global, blocks: B, task: Task) -> Result<i64> {
    let mut grid = Grid::new(alloc, blocks, task.side)?;
    read_in(alloc, &mut grid, task)
}

/// What is read on a new disk, with so many pages kept of its file, or without a pool.
fn opened<D: Disk + Drop>(alloc: Global, disk: D, pages: Option<usize>, task: Task) -> Result<i64> {
    let file = match BlockFile::open(alloc, disk) {
        Ok(opened) => opened.file,
        Err(refused) => return Err(refused.fault.into()),
    };
    match pages {
        Some(pages) => timed(alloc, PagePool::new(alloc, file, pages), task),
        None => timed(alloc, file, task),
    }
}

/// What is read in a file, with so many pages kept of it, or without a pool.
fn in_file(rt: &HostRuntime, path: &str, pages: Option<usize>, task: Task) -> Result<i64> {
    opened(rt.alloc(), FileDisk::open(rt, path)?, pages, task)
}

/// What is read in memory.
fn in_memory(alloc: Global, task: Task) -> Result<i64> {
    opened(alloc, MemoryDisk::new(Vec::new(alloc)), None, task)
}

/// What is read in the file that words name, or in memory.
fn read_at(rt: &HostRuntime, words: &[String], task: Task) -> Result<i64> {
    match words {
        [] => in_memory(rt.alloc(), task),
        [path] => in_file(rt, path.as_str(), None, task),
        [path, pages] => in_file(rt, path.as_str(), Some(pages.parse::<usize>()?), task),
        _ => bail!("{WORDS}"),
    }
}

/// What the words ask for.
pub fn run(rt: &HostRuntime, words: &[String]) -> Result<String> {
    let [action, side, rounds, place @ ..] = words else {
        bail!("{WORDS}");
    };
    let task = Task::of(action.as_str(), side.as_str(), rounds.as_str())?;
    let read = read_at(rt, place, task)?;
    Ok(format!(in rt.alloc(); "{read}")?)
}
