//! Operations, condensers, and the text of items.

use crate::answers::{say_items, say_outcome};
use crate::words::{aggregate, binary, outcome, unary};
use anyhow::{Result, bail};
use arr_core::Cell;
use std::alloc::Global;
use test_rows::{Answer, cell, cut, number};
use wcps_mean::{CellList, Item, Outcome, Running, operate, operate_both};

fn operated(word: &str, operand: &str) -> Result<Outcome> {
    Ok(operate(unary(word)?, outcome(operand)?))
}

fn both_operated(left: &str, word: &str, right: &str) -> Result<Outcome> {
    let op = binary(word)?;
    Ok(operate_both(op, outcome(left)?, outcome(right)?))
}

/// An operation on two operands, as `-7 / 2`, or on one, as `abs -7`.
pub fn say_operated(answer: &mut Answer, words: &str) -> Result<()> {
    let (first, rest) = cut(words);
    let (second, third) = cut(rest);
    say_outcome(
        answer,
        if third.is_empty() {
            operated(first, second)?
        } else {
            both_operated(first, second, third)?
        },
    );
    Ok(())
}

/// Adds an outcome to those that a condenser goes over, of which there are at most 1,000.
fn add(running: &mut Running, word: &str) -> Result<()> {
    let outcome = outcome(word)?;
    if running.count >= 1000 {
        bail!("too many outcomes");
    }
    running.add(outcome);
    Ok(())
}

/// A condenser over outcomes, as `sum 1,2`; `-` for none.
pub fn say_condensed(answer: &mut Answer, words: &str) -> Result<()> {
    let (word, list) = cut(words);
    let mut running = Running::new(aggregate(word)?);
    if list != "-" {
        for word in list.split(',') {
            add(&mut running, word)?;
        }
    }
    say_outcome(answer, running.finish());
    Ok(())
}

fn add_cell(cells: &mut Vec<Cell>, word: &str) -> Result<()> {
    cells.push(cell(word)?)?;
    Ok(())
}

/// Cells, as `0,true`.
fn cells(alloc: Global, list: &str) -> Result<CellList> {
    let mut cells = Vec::new(alloc);
    for word in list.split(',') {
        add_cell(&mut cells, word)?;
    }
    Ok(CellList::new(cells))
}

/// Adds an item, as `3 1 0,1,2,10,11,12`: the cells of a line, the fields of a cell, and the cells.
fn add_item(alloc: Global, items: &mut Vec<Item>, words: &str) -> Result<()> {
    let (line, words) = cut(words);
    let (fields, list) = cut(words);
    let line = number(line)?;
    let fields = fields.parse::<u32>()?;
    let cells = cells(alloc, list)?;
    items.push(Item {
        line,
        fields,
        cells,
    })?;
    Ok(())
}

/// The text of items with `;` between them; `-` for none.
pub fn say_csv(alloc: Global, answer: &mut Answer, text: &str) -> Result<()> {
    let mut items = Vec::new(alloc);
    if text != "-" {
        for words in text.split(';') {
            add_item(alloc, &mut items, words)?;
        }
    }
    say_items(alloc, answer, &items);
    Ok(())
}
