//! What the words of a row stand for.

use crate::answer::Answer;
use crate::texts::{coordinate, cut_at, integer};
use anyhow::{Result, bail};
use arr_core::{Axis, Cell, Domain, Field, FieldType, Fields, Name};
use std::alloc::{AllocError, Global};

pub fn yes(alloc: Global, is_so: bool) -> Result<String> {
    let mut answer = Answer::new(alloc);
    answer.yes(is_so);
    answer.into_text()
}

/// The number and the name of a refusal, as `22 BadDomain`.
pub fn refusal(alloc: Global, number: u16) -> Result<String> {
    let mut answer = Answer::new(alloc);
    answer.refusal(number);
    answer.into_text()
}

/// What stands before the bracket that ends an axis, and nothing where none does.
fn unclosed(bounds: &str) -> &str {
    match bounds.strip_suffix(')') {
        Some(rest) => rest,
        None => "",
    }
}

/// Adds an axis, as `x(0:64)`.
fn add_axis(alloc: Global, axes: &mut Vec<Axis>, word: &str) -> Result<()> {
    let (name, bounds) = cut_at(word, '(');
    let (lo, hi) = cut_at(unclosed(bounds), ':');
    let lo = coordinate(lo)?;
    let hi = coordinate(hi)?;
    let name = Name::new(alloc, name)?;
    axes.push(Axis { name, lo, hi })?;
    Ok(())
}

/// Axes, as `x(0:64),y(0:64)`; `-` for none.
pub fn axes(alloc: Global, text: &str) -> Result<Vec<Axis>> {
    let mut axes = Vec::new(alloc);
    if text != "-" {
        for word in text.split(',') {
            add_axis(alloc, &mut axes, word)?;
        }
    }
    Ok(axes)
}

/// The domain of such axes.
pub fn domain(alloc: Global, text: &str) -> Result<Domain> {
    Ok(Domain::new(axes(alloc, text)?)?)
}

/// Adds an axis to an answer, as `x(0:64)`.
fn say_axis(answer: &mut Answer, axis: &Axis) {
    answer.comma();
    answer.say(axis.name.as_str());
    answer.say("(");
    answer.integer(i64::from(axis.lo));
    answer.say(":");
    answer.integer(i64::from(axis.hi));
    answer.say(")");
}

/// A domain as `domain` reads it, where nothing was answered before.
pub fn say_domain(answer: &mut Answer, domain: &Domain) {
    for axis in domain.axes() {
        say_axis(answer, axis);
    }
}

/// A domain as `domain` reads it.
pub fn shown(alloc: Global, domain: &Domain) -> Result<String, AllocError> {
    let mut answer = Answer::new(alloc);
    say_domain(&mut answer, domain);
    answer.into_string()
}

fn add_coordinate(point: &mut Vec<i32>, word: &str) -> Result<()> {
    point.push(coordinate(word)?)?;
    Ok(())
}

/// A point, as `1,0`; `-` for that without coordinates.
pub fn point(alloc: Global, text: &str) -> Result<Vec<i32>> {
    let mut point = Vec::new(alloc);
    if text != "-" {
        for word in text.split(',') {
            add_coordinate(&mut point, word)?;
        }
    }
    Ok(point)
}

/// The field type of a word.
pub fn kind(word: &str) -> Result<FieldType> {
    Ok(match word {
        "bool" => FieldType::Bool,
        "u8" => FieldType::U8,
        "i16" => FieldType::I16,
        "i32" => FieldType::I32,
        "i64" => FieldType::I64,
        _ => bail!("no such field type"),
    })
}

/// Adds a field, as `v:i16`.
fn add_field(alloc: Global, fields: &mut Vec<Field>, word: &str) -> Result<()> {
    let (name, type_name) = cut_at(word, ':');
    let kind = kind(type_name)?;
    let name = Name::new(alloc, name)?;
    fields.push(Field { name, kind })?;
    Ok(())
}

/// Fields, as `v:i16,w:bool`; `-` for none.
pub fn fields(alloc: Global, text: &str) -> Result<Fields> {
    let mut fields = Vec::new(alloc);
    if text != "-" {
        for word in text.split(',') {
            add_field(alloc, &mut fields, word)?;
        }
    }
    Ok(Fields::new(fields))
}

/// A cell, as `true` or `-1`.
pub fn cell(word: &str) -> Result<Cell> {
    Ok(match word {
        "true" => Cell::Bool(true),
        "false" => Cell::Bool(false),
        _ => Cell::Int(integer(word)?),
    })
}

/// The stored number of a cell.
fn stored(word: &str) -> Result<i64> {
    match word {
        "true" => Ok(1),
        "false" => Ok(0),
        _ => integer(word),
    }
}

fn add_number(numbers: &mut Vec<i64>, word: &str) -> Result<()> {
    numbers.push(stored(word)?)?;
    Ok(())
}

/// The stored numbers of cells, as `1,0` for `true,false`; `-` for none.
pub fn numbers(alloc: Global, text: &str) -> Result<Vec<i64>> {
    let mut numbers = Vec::new(alloc);
    if text != "-" {
        for word in text.split(',') {
            add_number(&mut numbers, word)?;
        }
    }
    Ok(numbers)
}
