//! Prints an item of 1,024 lines of 1,024 cells as CSV, to time how answers are printed.
//!
//! Its words are a pattern of the cells and how often. The line says how many bytes a text has.

use crate::noise::noise;
use anyhow::{Result, bail};
use arr_core::Cell;
use csv_out::csv_text;
use std::alloc::Global;
use wcps_mean::{CellList, Item};

/// A cell: 7 everywhere, a number of 16 bits, one of 62 bits, or a truth value.
fn cell(pattern: &str, place: u64) -> Result<Cell> {
    Ok(match pattern {
        "one" => Cell::Int(7),
        "noise" => Cell::Int((noise(place) % 65536) as i64 - 32768),
        "wide" => Cell::Int((noise(place) >> 2) as i64 - 2_305_843_009_213_693_952),
        "bool" => Cell::Bool(noise(place) % 2 == 0),
        _ => bail!("no pattern {pattern}"),
    })
}

/// The item.
fn item(alloc: Global, pattern: &str) -> Result<Item> {
    let mut cells = Vec::new(alloc);
    for place in 0u64..1_048_576 {
        cells.push(cell(pattern, place)?)?;
    }
    Ok(Item {
        line: 1024,
        fields: 1,
        cells: CellList::new(cells),
    })
}

/// What the words ask for.
pub fn run(alloc: Global, words: &[String]) -> Result<String> {
    let [pattern, rounds] = words else {
        bail!("words: csv one|noise|wide|bool ROUNDS");
    };
    let mut items = Vec::new(alloc);
    items.push(item(alloc, pattern.as_str())?)?;
    let mut size = 0;
    for _ in 0..rounds.parse::<u32>()? {
        size = csv_text(alloc, &items)?.len();
    }
    Ok(format!(in alloc; "{size}")?)
}
