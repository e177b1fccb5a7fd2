//! Worked values of the crates of queries, by their public calls, each a row of standard input: from a text to its
//! tokens and its tree and back, to its type, its answer and its CSV; from a template of map algebra to its query; what
//! queries become as plans, and what runs of plans give; operations and condensers of whole columns; and the numbers of
//! jobs.
#![tactic(auto)]

mod answers;
mod columns;
mod coverages;
mod desk;
mod folds;
mod holders;
mod kernels;
mod keyed;
mod layer;
mod outcomes;
mod plan_words;
mod planned;
mod plans;
mod queries;
mod texts;
mod windows;
mod words;

use anyhow::Result;
use layer::Fixture;
use std::process::ExitCode;
use test_rows::judge;

fn main(rt: HostRuntime) -> Result<ExitCode> {
    let mut fixture = Fixture::new(rt.alloc());
    judge(&rt, &mut fixture)
}
