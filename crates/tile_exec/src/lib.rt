//! A plan done a tile at a time: each step evaluates the bodies of one box in columns, and then keeps what they gave.
#![tactic(auto)]

mod answer;
mod begin;
mod buffers;
mod column;
mod exec;
mod found;
mod item;
mod keep;
mod keyed;
mod known;
mod pass;
mod row;
mod run;
mod samples;
mod state;
mod task;
mod unit;
mod workspace;

pub use answer::{Answer, answer_of};
pub use exec::{Exec, StepInfo};
pub use run::run_down;
pub use workspace::Workspace;
