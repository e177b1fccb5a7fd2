//! Runs one kernel or one condenser over columns of so many cells, to time it.
//!
//! Its words are an operation or a condenser, how its operands are kept, what cells they have, how many, and how often.
//! The line is a number that depends on the results.

mod cells;
mod rounds;
mod words;

use anyhow::{Result, bail};
use cells::Data;
use std::alloc::Global;

/// The number of a kernel or a condenser that is run so often.
fn timed(
    alloc: Global,
    kernel: &str,
    shape: &str,
    data: Data,
    len: u32,
    rounds: u32,
) -> Result<i64> {
    match shape {
        "columns" => rounds::both(alloc, words::operation(kernel)?, data, len, rounds),
        "scalar" => rounds::with_scalar(alloc, words::operation(kernel)?, data, len, rounds),
        "one" => rounds::one(alloc, words::operation_on_one(kernel)?, data, len, rounds),
        "fold" => rounds::folded(alloc, words::aggregate(kernel)?, data, len, rounds),
        "where" => rounds::folded_where(alloc, words::aggregate(kernel)?, data, len, rounds),
        "each" => rounds::added(alloc, words::aggregate(kernel)?, data, len, rounds),
        "kept" => rounds::kept(alloc, words::aggregate(kernel)?, data, len, rounds),
        _ => bail!("no shape {shape}"),
    }
}

/// What the words ask for.
pub fn run(alloc: Global, words: &[String]) -> Result<String> {
    let [kernel, shape, data, len, rounds] = words else {
        bail!(
            "words: kernel KERNEL columns|scalar|one|fold|where|each|kept constant|noise|wide|faults CELLS ROUNDS"
        );
    };
    let len = len.parse::<u32>()?;
    let rounds = rounds.parse::<u32>()?;
    let number = timed(
        alloc,
        kernel.as_str(),
        shape.as_str(),
        words::data(data.as_str())?,
        len,
        rounds,
    )?;
    Ok(format!(in alloc; "{number}")?)
}
