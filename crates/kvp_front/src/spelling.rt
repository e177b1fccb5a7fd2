//! How names, numbers, intervals, fields and cells are spelled in the values of a request.
ghost use Rattle.std.specs.Prelude.{◌<◌, codes, map, string_bytes};
ghost use Rattle.kvp_front.specs.Values.{Gives, pair_view, read_under};
ghost use Rattle.kvp_front.specs.Spelling.{signed_in, name_in, kind_in, field_in, interval_in, cell_in, query_in, same, CutsAt};

use crate::pairs::{Pair, value_under};
use crate::request::{Interval, RequestError};
use arr_core::{Cell, Field, FieldType, Name, NameError};
use std::alloc::Global;

/// The most bytes that the text of a query may have.
pub const MAX_QUERY: usize = 65536;

/// A signed number: an optional sign and digits, within 64 bits.
pub fn read_signed(text: &str) -> Result<i64, RequestError>
    ensures { Gives same (signed_in text.now) result }
{
    match text.parse::<i64>() {
        Ok(number) => Ok(number),
        Err(_) => Err(RequestError::BadValue),
    }
}

/// A name of a coverage, a field or an axis.
pub fn read_name(alloc: Global, text: &str) -> Result<Name, RequestError>
    ensures { Gives same (name_in text.now) result }
{
    match Name::new(alloc, text) {
        Ok(name) => Ok(name),
        Err(NameError::BadName) => Err(RequestError::BadValue),
        Err(NameError::NoMemory) => Err(RequestError::NoMemory),
    }
}

/// A cell: a signed number, `true` or `false`.
pub fn read_cell(text: &str) -> Result<Cell, RequestError>
    ensures { Gives same (cell_in text.now) result }
{
    match text {
        "true" => Ok(Cell::Bool(true)),
        "false" => Ok(Cell::Bool(false)),
        _ => {
            let number = read_signed(text)?;
            Ok(Cell::Int(number))
        }
    }
}

/// The type of a field, by its name.
fn read_kind(text: &str) -> Result<FieldType, RequestError>
    ensures { Gives same (kind_in text.now) result }
{
    match FieldType::from_name(text) {
        Some(kind) => Ok(kind),
        None => Err(RequestError::BadValue),
    }
}

/// The two parts of a text round a byte's first place.
fn cut_at(text: &str, mark: char) -> Result<(&str, &str), RequestError>
    requires { mark < 128 }
    ensures { CutsAt mark text.now result }
{
    match text.split_once(mark) {
        Some(parts) => Ok(parts),
        None => Err(RequestError::BadValue),
    }
}

/// An axis and its bounds, as `x(0:99)`.
pub fn read_interval(alloc: Global, text: &str) -> Result<Interval, RequestError>
    ensures { Gives same (interval_in text.now) result }
{
    let (axis, bounds) = cut_at(text, '(')?;
    let (lo, rest) = cut_at(bounds, ':')?;
    let (hi, rest) = cut_at(rest, ')')?;
    if !rest.is_empty() {
        return Err(RequestError::BadValue);
    }
    let axis = read_name(alloc, axis)?;
    let lo = read_signed(lo)?;
    let hi = read_signed(hi)?;
    Ok(Interval { axis, lo, hi })
}

/// A field and its type, as `v:i16`.
pub fn read_field(alloc: Global, text: &str) -> Result<Field, RequestError>
    ensures { Gives same (field_in text.now) result }
{
    let (name, kind) = cut_at(text, ':')?;
    let name = read_name(alloc, name)?;
    let kind = read_kind(kind)?;
    Ok(Field { name, kind })
}

/// The name under a key.
pub fn name_under(alloc: Global, pairs: &[Pair<'_>], key: &str) -> Result<Name, RequestError>
    ensures { Gives same (read_under name_in key.now (map pair_view pairs.now)) result }
{
    let text = value_under(alloc, pairs, key)?;
    read_name(alloc, text.as_str())
}

/// The text of a query.
pub fn query_under(alloc: Global, pairs: &[Pair<'_>]) -> Result<String, RequestError>
    ensures { Gives string_bytes (read_under query_in (codes "query") (map pair_view pairs.now)) result }
{
    let text = value_under(alloc, pairs, "query")?;
    if text.len() > MAX_QUERY {
        return Err(RequestError::BadValue);
    }
    Ok(text)
}
