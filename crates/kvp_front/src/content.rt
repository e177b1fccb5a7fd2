//! The cells that an update writes: one cell everywhere, or a cell for each point.
ghost use Rattle.std.specs.Prelude.{map};
ghost use Rattle.kvp_front.specs.Values.{Gives, pair_view};
ghost use Rattle.kvp_front.specs.Contents.{content_view, content_under};

use crate::cells::read_cells;
use crate::pairs::{Found, Pair, find, text_of};
use crate::request::RequestError;
use crate::spelling::read_cell;
use arr_core::Cell;
use std::alloc::Global;

/// The same cell at each point of a box, or the cells of its points in row-major order.
#[derive(Drop)]
pub enum Content {
    Fill(Cell),
    Values(Vec<Cell>),
}

/// The content under the keys `fill` and `values`, of which exactly one is given, and once.
pub fn content_under(alloc: Global, pairs: &[Pair<'_>]) -> Result<Content, RequestError>
    ensures { Gives content_view (content_under (map pair_view pairs.now)) result }
{
    let fill = find(pairs, "fill");
    let values = find(pairs, "values");
    match (fill, values) {
        (Found::Twice, _) => Err(RequestError::RepeatedKey),
        (_, Found::Twice) => Err(RequestError::RepeatedKey),
        (Found::Absent, Found::Absent) => Err(RequestError::MissingKey),
        (Found::Once(_), Found::Once(_)) => Err(RequestError::BadValue),
        (Found::Once(value), Found::Absent) => {
            let text = text_of(alloc, value)?;
            let cell = read_cell(text.as_str())?;
            Ok(Content::Fill(cell))
        }
        (Found::Absent, Found::Once(value)) => {
            let cells = read_cells(alloc, value)?;
            Ok(Content::Values(cells))
        }
    }
}
