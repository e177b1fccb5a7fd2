//! Tasks: the passes, conditions and items of a plan's combinations.

use crate::known::Known;
use plan_ir::Steps;
use wcps_mean::PointFault;

/// What a task does.
#[derive(Clone, Copy, PartialEq, Eq)]
pub(crate) enum Part {
    /// The pass whose place is the task's count.
    Pass,
    Condition,
    Item,
    /// An item without fields.
    Fieldless,
}

/// A task of a combination, by its place in the plan. It may read `count` registers, from that of the combination's
/// first pass on.
#[derive(Clone, Copy, PartialEq, Eq)]
pub(crate) struct Task {
    pub combination: usize,
    pub part: Part,
    pub first: usize,
    pub count: usize,
}

/// How it stands with the item of the combination at hand.
#[derive(Clone, Copy, PartialEq, Eq)]
pub(crate) enum Status {
    /// It is given, as far as is known.
    Giving,
    /// Its condition was false.
    Skipping,
    /// The answer is a fault.
    Failed(PointFault),
}

/// The task at hand and the steps that have its part, how many of its tiles are done, how it stands, and what is known
/// of an item.
#[derive(Clone, Copy)]
pub(crate) struct AtHand<'a> {
    pub steps: &'a Steps,
    pub task: Task,
    pub tile: u64,
    pub status: Status,
    pub known: Option<&'a Known>,
}
