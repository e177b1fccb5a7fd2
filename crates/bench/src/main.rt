//! Runs a part of the project as often as it is told, to time it from outside.
//!
//! Its words are the part, `query`, `tile`, `csv`, `kernel` or `store`, and what that part is told. Without words, each
//! line of standard input has the words of a run. For each run it prints a line that depends on the results.
#![tactic(auto)]

mod csv;
mod kernel;
mod noise;
mod query;
mod store;
mod tile;

use anyhow::{Result, bail};
use std::alloc::{AllocError, Global};
use std::env;

/// Runs a part, and gives the line of that.
fn line_of(rt: &HostRuntime, words: &[String]) -> Result<String> {
    let alloc = rt.alloc();
    let [part, rest @ ..] = words else {
        bail!("words: query|tile|csv|kernel|store ..");
    };
    match part.as_str() {
        "query" => query::run(alloc, rest),
        "tile" => tile::run(alloc, rest),
        "csv" => csv::run(alloc, rest),
        "kernel" => kernel::run(alloc, rest),
        "store" => store::run(rt, rest),
        _ => bail!("no part {part}"),
    }
}

/// Runs a part, and prints its line.
fn run(rt: &HostRuntime, words: &[String]) -> Result<()> {
    let line = line_of(rt, words)?;
    println!(rt; "{line}")?;
    Ok(())
}

/// The words of a line.
fn words_of(alloc: Global, line: &str) -> Result<Vec<String>, AllocError> {
    let mut words = Vec::new(alloc);
    for word in line.split(' ') {
        words.push(String::from_str(alloc, word)?)?;
    }
    Ok(words)
}

/// The words that the program is called with.
fn arguments(rt: &HostRuntime) -> Result<Vec<String>> {
    let mut words = Vec::new(rt.alloc());
    for word in env::args(rt)?.skip(1) {
        words.push(word)?;
    }
    Ok(words)
}

/// Runs what each line of standard input has the words of.
fn run_lines(rt: &HostRuntime) -> Result<()> {
    for line in rt.lines(rt.alloc()) {
        run(rt, &words_of(rt.alloc(), line?.as_str())?)?;
    }
    Ok(())
}

fn main(rt: HostRuntime) -> Result<()> {
    let words = arguments(&rt)?;
    if words.is_empty() {
        run_lines(&rt)
    } else {
        run(&rt, &words)
    }
}
