//! Rows are read from standard input, and each is compared with what its call gives.

use crate::answer::Answer;
use crate::escapes::text;
use anyhow::{Error, Result};
use std::process::ExitCode;

/// A layer whose calls are written as text.
pub trait Layer {
    /// What the call gives, as a row has it behind `=>`. An error counts as a difference.
    fn answer(&mut self, rt: &HostRuntime, call: &str) -> Result<String>;
}

/// What was read so far: a row that the next line may continue, how many rows there were, and how many differ.
#[derive(Drop)]
struct Reading {
    row: String,
    rows: u64,
    differ: u64,
}

/// Whether a line belongs to the row before it: what begins with two spaces continues it, and what is left out ends
/// nothing.
fn belongs(line: &str) -> bool {
    line.is_empty() || line.starts_with('#') || line.starts_with("  ")
}

/// What a line adds to its row.
fn added(line: &str) -> &str {
    match line.strip_prefix("  ") {
        Some(more) => more,
        None => "",
    }
}

/// What stands behind ` =>`.
fn behind(wanted: &str) -> &str {
    match wanted.strip_prefix(' ') {
        Some(rest) => rest,
        None => wanted,
    }
}

/// What stands in a row before and behind `=>`.
fn parts(row: &str) -> (&str, &str) {
    match row.split_once(" =>") {
        Some((call, wanted)) => (call, behind(wanted)),
        None => (row, "ok"),
    }
}

/// Says on standard error what a call gave and what was wanted.
fn report(rt: &HostRuntime, call: &str, given: &str, wanted: &str) -> Result<()> {
    let mut shown = Answer::new(rt.alloc());
    shown.escape(given);
    eprintln!(rt; "{call} => {}, and not {wanted}", shown.as_str())?;
    Ok(())
}

/// Whether what a call gave differs from what was wanted; says how.
fn differs(rt: &HostRuntime, call: &str, given: &str, wanted: &str) -> Result<bool> {
    let expected = text(rt.alloc(), wanted)?;
    if given == expected.as_str() {
        return Ok(false);
    }
    report(rt, call, given, wanted)?;
    Ok(true)
}

/// Says on standard error that a call gave an error.
fn failed(rt: &HostRuntime, call: &str, error: &Error, wanted: &str) -> Result<bool> {
    eprintln!(rt; "{call} => an error, {error}, and not {wanted}")?;
    Ok(true)
}

/// Whether what a row's call gives differs from what is wanted; says how.
fn differs_in<L: Layer>(rt: &HostRuntime, layer: &mut L, row: &str) -> Result<bool> {
    let (call, wanted) = parts(row);
    match layer.answer(rt, call) {
        Ok(given) => differs(rt, call, given.as_str(), wanted),
        Err(error) => failed(rt, call, &error, wanted),
    }
}

impl Reading {
    /// Adds what a line has to the row that it belongs to.
    fn add(&mut self, more: &str) -> Result<()> {
        if more.starts_with("=>") {
            self.row.push_str(" ")?;
        }
        self.row.push_str(more)?;
        Ok(())
    }

    fn count(&mut self, is_other: bool) {
        self.rows = self.rows.saturating_add(1);
        if is_other {
            self.differ = self.differ.saturating_add(1);
        }
    }

    /// Compares the row; no row stands before the first.
    fn end<L: Layer>(&mut self, rt: &HostRuntime, layer: &mut L) -> Result<()> {
        if !self.row.is_empty() {
            let is_other = differs_in(rt, layer, self.row.as_str())?;
            self.count(is_other);
        }
        self.row.clear();
        Ok(())
    }

    fn line<L: Layer>(&mut self, rt: &HostRuntime, layer: &mut L, line: &str) -> Result<()> {
        if belongs(line) {
            return self.add(added(line));
        }
        self.end(rt, layer)?;
        self.row.push_str(line)?;
        Ok(())
    }

    /// Writes how many rows there were and how many differ.
    fn total(&self, rt: &HostRuntime) -> Result<ExitCode> {
        println!(rt; "{} rows, {} differ", self.rows, self.differ)?;
        Ok(if self.differ == 0 {
            ExitCode::SUCCESS
        } else {
            ExitCode::FAILURE
        })
    }
}

/// Compares each row of standard input, and writes how many there were and how many differ. The status is 1 where one
/// differs; standard error then has its call, what it gave and what was wanted.
pub fn judge<L: Layer>(rt: &HostRuntime, layer: &mut L) -> Result<ExitCode> {
    let mut reading = Reading {
        row: String::new(rt.alloc()),
        rows: 0,
        differ: 0,
    };
    for line in rt.lines(rt.alloc()) {
        reading.line(rt, layer, line?.as_str())?;
    }
    reading.end(rt, layer)?;
    reading.total(rt)
}
