//! What is told of a coverage.
ghost use Rattle.std.specs.Prelude.{◌≡◌, ◌++◌, string_bytes, IfOk, OnOk};
ghost use Rattle.std.specs.List.{flat_map};
ghost use Rattle.coverage_server.specs.Describing.{axis_line, field_line, description};

use arr_core::{Axis, Field, Signature};
use std::alloc::{AllocError, Global};
use std::fmt::Write;

/// Adds the line of an axis, as `axis x 0 99`.
fn push_axis(text: &mut String, axis: &Axis) -> Result<(), AllocError>
    ensures { OnOk result (string_bytes text.new ≡ string_bytes text.old ++ axis_line axis.now) }
{
    let name = axis.name.as_str();
    writeln!(text, "axis {name} {} {}", axis.lo, axis.hi)
}

/// Adds the line of a field, as `field v i16`.
fn push_field(text: &mut String, field: &Field) -> Result<(), AllocError>
    ensures { OnOk result (string_bytes text.new ≡ string_bytes text.old ++ field_line field.now) }
{
    let name = field.name.as_str();
    let kind = field.kind.name();
    writeln!(text, "field {name} {kind}")
}

/// Adds the lines of axes.
fn push_axes(text: &mut String, axes: &[Axis]) -> Result<(), AllocError>
    ensures { OnOk result (string_bytes text.new ≡ string_bytes text.old ++ flat_map axis_line axes.now) }
{
    for axis in axes {
        push_axis(text, axis)?;
    }
    Ok(())
}

/// Adds the lines of fields.
fn push_fields(text: &mut String, fields: &[Field]) -> Result<(), AllocError>
    ensures { OnOk result (string_bytes text.new ≡ string_bytes text.old ++ flat_map field_line fields.now) }
{
    for field in fields {
        push_field(text, field)?;
    }
    Ok(())
}

/// The axes of a coverage and then its fields, each on a line.
pub fn description(alloc: Global, signature: &Signature) -> Result<String, AllocError>
    ensures { IfOk result (λ text. string_bytes text ≡ description signature.now.domain signature.now.fields) }
{
    let mut text = String::new(alloc);
    push_axes(&mut text, signature.domain.axes())?;
    push_fields(&mut text, signature.fields.as_slice())?;
    Ok(text)
}
