//! Lists of cells, read straight from the bytes of a value where nothing in it is encoded.
ghost use Rattle.std.specs.Prelude.{◌≡◌, ◌<◌, ◌≤◌, ◌^◌, length, Ok, IfOk, IfSome};
ghost use Rattle.std.specs.Str.Parse.{starts_with_minus};
ghost use Rattle.arr_core.specs.declared.cell.Cell.TheVariants.{Int, Bool as Truth};
ghost use Rattle.kvp_front.specs.Values.{Gives, text_of};
ghost use Rattle.kvp_front.specs.Spelling.{cell_in, items_of, list_in};
ghost use Rattle.kvp_front.specs.Front.{BeginsWith, WritesNumber};

use crate::lists::read_list;
use crate::pairs::text_of;
use crate::request::RequestError;
use arr_core::Cell;
use std::alloc::{AllocError, Global};

/// How many bytes are looked at together.
const FEW: usize = 128;

/// So many digits write a number within 64 bits, whatever its sign.
const DIGITS: usize = 18;

/// The number that the digits at the front write, at most 18 of them, and how many they are.
#[inline(always)]
fn digits_at(bytes: &[u8]) -> (u64, usize)
    ensures number { WritesNumber bytes.now result.0 result.1 }
    ensures small { result.0 < 10 ^ 18 }
{
    let most = bytes.len().min(DIGITS);
    let mut number = 0;
    for count in 0..most {
        let byte = bytes[count];
        if !byte.is_ascii_digit() {
            return (number, count);
        }
        number = 10 * number + (byte - b'0') as u64;
    }
    (number, most)
}

/// Whether a minus sign stands first.
#[inline(always)]
fn has_minus(bytes: &[u8]) -> bool
    ensures { result ≡ starts_with_minus bytes.now }
{
    !bytes.is_empty() && bytes[0] == b'-'
}

/// The signed number at the front, unless it has more than 18 digits, and the bytes behind it.
#[inline(always)]
fn number_at(bytes: &[u8]) -> Option<(i64, &[u8])>
    ensures { IfSome result (λ r. BeginsWith bytes.now (Int r.0) r.1.now) }
{
    let negative = has_minus(bytes);
    let digits = &bytes[negative as usize..];
    let (number, count) = digits_at(digits);
    if count == 0 {
        return None;
    }
    let number = number as i64;
    let after = &digits[count..];
    Some((if negative { -number } else { number }, after))
}

/// The word `true` or `false` at the front, and the bytes behind it.
fn word_at(bytes: &[u8]) -> Option<(bool, &[u8])>
    ensures { IfSome result (λ r. BeginsWith bytes.now (Truth r.0) r.1.now) }
{
    match bytes.strip_prefix(b"true") {
        Some(after) => Some((true, after)),
        None => match bytes.strip_prefix(b"false") {
            Some(after) => Some((false, after)),
            None => None,
        },
    }
}

/// The cell at the front, unless it is spelled in a rare way, and the bytes behind it.
#[inline(always)]
fn cell_at(bytes: &[u8]) -> Option<(Cell, &[u8])>
    ensures { IfSome result (λ r. BeginsWith bytes.now r.0 r.1.now) }
{
    match number_at(bytes) {
        Some((number, after)) => Some((Cell::Int(number), after)),
        None => match word_at(bytes) {
            Some((word, after)) => Some((Cell::Bool(word), after)),
            None => None,
        },
    }
}

/// How many commas there are among a few bytes.
#[inline(always)]
fn commas_among(bytes: &[u8]) -> u8
    requires { length bytes.now ≤ FEW }
    ensures { result ≤ length bytes.now }
{
    let mut commas = 0;
    for byte in bytes {
        commas += (*byte == b',') as u8;
    }
    commas
}

/// How many commas there are. They are counted a few bytes at a time, so that each count fits a byte.
fn commas_in(bytes: &[u8]) -> usize
    ensures { result ≤ length bytes.now }
{
    let mut commas = 0;
    let mut rest = bytes;
    'bytes: while FEW <= rest.len() {
        commas += commas_among(&rest[..FEW]) as usize;
        rest = &rest[FEW..];
    }
    commas + commas_among(rest) as usize
}

/// The cells of a list in which nothing is encoded and each is spelled in a usual way; of another value nothing.
fn plain_cells(alloc: Global, bytes: &[u8]) -> Result<Option<Vec<Cell>>, AllocError>
    ensures { IfOk result (λ r. IfSome r (λ cells. list_in cell_in (text_of bytes.now) ≡ Ok cells.items)) }
{
    let mut cells = Vec::with_capacity(alloc, commas_in(bytes) + 1)?;
    let mut rest = bytes;
    'cells: while let Some((cell, after)) = cell_at(rest) {
        cells.push(cell)?;
        if after.is_empty() {
            return Ok(Some(cells));
        }
        if after[0] != b',' {
            return Ok(None);
        }
        rest = &after[1..];
    }
    Ok(None)
}

/// The cells of a list, in the encoded bytes of a value.
pub fn read_cells(alloc: Global, value: &[u8]) -> Result<Vec<Cell>, RequestError>
    ensures { Gives items_of (list_in cell_in (text_of value.now)) result }
{
    match plain_cells(alloc, value)? {
        Some(cells) => Ok(cells),
        None => {
            let text = text_of(alloc, value)?;
            read_list(alloc, text.as_str())
        }
    }
}
