//! CSV text: a line for each run along the last axis, `,` between its cells, a space between the fields of a cell.

ghost use Rattle.std.specs.Prelude.{◌≡◌, ◌+◌, ◌<◌, ◌++◌, max, IfOk, OnOk, IsAscii};
ghost use Rattle.std.specs.String.{string_bytes};
ghost use Rattle.csv_out.specs.Csv.{item_text, csv};

use crate::cells::{FEW, ROOM, Shape, write_cells};
use std::alloc::{AllocError, Global};
use std::str::from_utf8;
use wcps_mean::Item;

/// The CSV text of the items: integers in decimal, `true` and `false`; each line ends with LF, and an empty line stands
/// between two items. No items give an empty text.
pub fn csv_text(alloc: Global, items: &[Item]) -> Result<String, AllocError>
    ensures { IfOk result (λ text. string_bytes text ≡ csv items.now) }
{
    let mut text = String::new(alloc);
    push_items(&mut text, items)?;
    Ok(text)
}

/// Puts the text of the items at the end.
fn push_items(text: &mut String, items: &[Item]) -> Result<(), AllocError>
    ensures { OnOk result (string_bytes text.new ≡ string_bytes text.old ++ csv items.now) }
{
    match items {
        [] => Ok(()),
        [item] => {
            push_item(text, item)?;
            Ok(())
        }
        [item, rest @ ..] => {
            push_item(text, item)?;
            text.push_str("\n")?;
            push_items(text, rest)?;
            Ok(())
        }
    }
}

/// The text of bytes that are ASCII.
fn ascii(bytes: &[u8]) -> &str
    requires { IsAscii bytes.now }
    ensures { result.now ≡ bytes.now }
{
    from_utf8(bytes).unwrap()
}

/// Puts the text of an item at the end, a few cells at a time.
fn push_item(text: &mut String, item: &Item) -> Result<(), AllocError>
    ensures { OnOk result (string_bytes text.new ≡ string_bytes text.old ++ item_text item.now) }
{
    let shape = Shape {
        fields: item.fields.max(1) as u64,
        line: item.line.max(1),
    };
    let cells = item.cells.as_slice();
    let mut room = [0; ROOM];
    let mut done = 0;
    while done < cells.len() {
        let end = cells.len().min(done + FEW);
        let begin = write_cells(&mut room, shape, done as u64, &cells[done..end]);
        text.push_str(ascii(&room[begin..]))?;
        done = end;
    }
    Ok(())
}
