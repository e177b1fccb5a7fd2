//! Lists in the values of a request: items joined by commas.
ghost use Rattle.std.specs.Prelude.{map};
ghost use Rattle.kvp_front.specs.Values.{Gives, pair_view, read_under};
ghost use Rattle.kvp_front.specs.Spelling.{interval_in, field_in, cell_in, list_in, items_of};

use crate::pairs::{Pair, value_under};
use crate::request::{Interval, RequestError};
use crate::spelling::{read_cell, read_field, read_interval};
use arr_core::{Cell, Field};
use std::alloc::Global;

/// What a list may be of.
pub trait Item: Sized + Drop {
    ghost use Rattle.std.specs.Prelude.{ℕ, List, Result};
    ghost use Rattle.kvp_front.specs.declared.request.RequestError.{RequestError};
    ghost use Rattle.kvp_front.specs.Values.{Gives};
    ghost use Rattle.kvp_front.specs.Spelling.{same};

    /// What a text spells.
    ghost item_in: { List ℕ → Result Self RequestError };

    fn read(alloc: Global, text: &str) -> Result<Self, RequestError>
        ensures { Gives same (item_in text.now) result };
}

impl Item for Interval {
    ghost item_in = { interval_in };

    fn read(alloc: Global, text: &str) -> Result<Interval, RequestError> {
        read_interval(alloc, text)
    }
}

impl Item for Field {
    ghost item_in = { field_in };

    fn read(alloc: Global, text: &str) -> Result<Field, RequestError> {
        read_field(alloc, text)
    }
}

impl Item for Cell {
    ghost item_in = { cell_in };

    fn read(_alloc: Global, text: &str) -> Result<Cell, RequestError> {
        read_cell(text)
    }
}

/// Items, joined by commas.
pub fn read_list<T: Item>(alloc: Global, text: &str) -> Result<Vec<T>, RequestError>
    ensures { Gives items_of (list_in T.item_in text.now) result }
{
    let mut list = Vec::new(alloc);
    let mut rest = text;
    'pieces: loop {
        match rest.split_once(',') {
            Some((piece, after)) => {
                let item = T::read(alloc, piece)?;
                list.push(item)?;
                rest = after;
            }
            None => {
                let item = T::read(alloc, rest)?;
                list.push(item)?;
                return Ok(list);
            }
        }
    }
}

/// The list under a key.
pub fn list_under<T: Item>(
    alloc: Global,
    pairs: &[Pair<'_>],
    key: &str,
) -> Result<Vec<T>, RequestError>
    ensures { Gives items_of (read_under (list_in T.item_in) key.now (map pair_view pairs.now)) result }
{
    let text = value_under(alloc, pairs, key)?;
    read_list(alloc, text.as_str())
}
