//! How far a plan is done.

use crate::known::Known;
use crate::task::{Status, Task};
use arr_core::Cell;
use plan_ir::Plan;
use std::alloc::Global;
use tile_kernel::{Accumulator, FirstFault};
use wcps_mean::{Item, Outcome};

/// A plan, what its tasks have given, and what is kept of the task at hand.
#[derive(Drop)]
pub(crate) struct State {
    pub alloc: Global,
    pub plan: Plan,
    pub tasks: Vec<Task>,
    /// How many tasks are done.
    pub at: usize,
    /// How many tiles of the task at hand are done.
    pub tile: u64,
    /// How many units are left.
    pub left: u64,
    /// The outcomes of the passes that are done. There is room for all.
    pub registers: Vec<Outcome>,
    /// The items that are done. There is room for all.
    pub items: Vec<Item>,
    pub status: Status,
    /// What is kept of the pass at hand.
    pub accumulator: Accumulator,
    /// The cells of the item at hand, and its first fault.
    pub cells: Vec<Cell>,
    pub first: FirstFault,
    /// What is known of the item at hand.
    pub known: Option<Known>,
}
