//! The coverages over which queries are typed: `lai` with the field v, `wide` with the fields f0 to f63, and, of which
//! no two have the same domain, u0 to u63 with the field v and w0 to w63 with the fields f0 to f63. Each has the axes x
//! and y. So have l0 to l63 with the field v, but for two axes more and for names of axes as long as names may be.

use anyhow::Result;
use arr_core::{Axis, Domain, Field, FieldType, Fields, Name, Signature};
use std::alloc::Global;

/// An axis from 0 on.
fn axis(alloc: Global, name: &str, hi: i32) -> Result<Axis> {
    let name = Name::new(alloc, name)?;
    Ok(Axis { name, lo: 0, hi })
}

/// An integer field.
fn field(alloc: Global, name: &str) -> Result<Field> {
    let name = Name::new(alloc, name)?;
    Ok(Field {
        name,
        kind: FieldType::I16,
    })
}

/// The axes x, which ends at a coordinate, and y.
fn axes(alloc: Global, last: i32) -> Result<Vec<Axis>> {
    let mut axes = Vec::new(alloc);
    axes.push(axis(alloc, "x", last)?)?;
    axes.push(axis(alloc, "y", 9)?)?;
    Ok(axes)
}

/// The last 63 bytes of the names of long axes.
const TAIL: &str = "aaaaaaaaaaaaaaaaaaaaaaaaaaaaaaaaaaaaaaaaaaaaaaaaaaaaaaaaaaaaaaa";

/// Adds an axis whose name is long.
fn add_long(alloc: Global, axes: &mut Vec<Axis>, first: &str, hi: i32) -> Result<()> {
    let name = format!(in alloc; "{first}{TAIL}")?;
    axes.push(axis(alloc, name.as_str(), hi)?)?;
    Ok(())
}

/// Four axes with long names, of which the first ends at a coordinate.
fn long_axes(alloc: Global, last: i32) -> Result<Vec<Axis>> {
    let mut axes = Vec::new(alloc);
    for (first, hi) in [("x", last), ("y", 9), ("z", 1), ("t", 1)] {
        add_long(alloc, &mut axes, first, hi)?;
    }
    Ok(axes)
}

/// The field v alone.
fn one_field(alloc: Global) -> Result<Vec<Field>> {
    let mut fields = Vec::new(alloc);
    fields.push(field(alloc, "v")?)?;
    Ok(fields)
}

/// The fields f0 to f63.
fn many_fields(alloc: Global) -> Result<Vec<Field>> {
    let mut fields = Vec::new(alloc);
    for number in 0..64 {
        let name = format!(in alloc; "f{number}")?;
        fields.push(field(alloc, name.as_str())?)?;
    }
    Ok(fields)
}

/// A coverage.
fn coverage(alloc: Global, name: &str, axes: Vec<Axis>, fields: Vec<Field>) -> Result<Signature> {
    let name = Name::new(alloc, name)?;
    let domain = Domain::new(axes)?;
    Ok(Signature {
        name,
        domain,
        fields: Fields::new(fields),
    })
}

/// Adds a coverage whose name is a letter and a number.
fn add(
    alloc: Global,
    list: &mut Vec<Signature>,
    (letter, number): (char, u8),
    axes: Vec<Axis>,
    fields: Vec<Field>,
) -> Result<()> {
    let name = format!(in alloc; "{letter}{number}")?;
    list.push(coverage(alloc, name.as_str(), axes, fields)?)?;
    Ok(())
}

/// Adds the three coverages of a number.
fn add_numbered(alloc: Global, list: &mut Vec<Signature>, number: u8) -> Result<()> {
    let last = 100 + i32::from(number);
    add(
        alloc,
        list,
        ('u', number),
        axes(alloc, last)?,
        one_field(alloc)?,
    )?;
    add(
        alloc,
        list,
        ('w', number),
        axes(alloc, last)?,
        many_fields(alloc)?,
    )?;
    add(
        alloc,
        list,
        ('l', number),
        long_axes(alloc, last)?,
        one_field(alloc)?,
    )
}

/// Adds all of them.
fn add_all(alloc: Global, list: &mut Vec<Signature>) -> Result<()> {
    for number in 0u8..64 {
        add_numbered(alloc, list, number)?;
    }
    list.push(coverage(alloc, "wide", axes(alloc, 99)?, many_fields(alloc)?)?)?;
    list.push(coverage(alloc, "lai", axes(alloc, 99)?, one_field(alloc)?)?)?;
    Ok(())
}

/// All of them.
pub fn coverages(alloc: Global) -> Result<Vec<Signature>> {
    let mut list = Vec::new(alloc);
    add_all(alloc, &mut list)?;
    Ok(list)
}
