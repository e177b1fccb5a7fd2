//! The parts that templates share.

ghost use Rattle.map_templates.specs.Pieces.{Writes};
ghost use Rattle.map_templates.specs.Texts.{field_text, layer_text, axis_text};

use crate::params::Layer;
use crate::pieces::joined;
use arr_core::{Axis, Name};
use itoa::Buffer;
use std::alloc::{AllocError, Global};

/// The value of a layer whose coverage is bound to a variable.
pub fn layer_text(alloc: Global, variable: &str, layer: &Layer) -> Result<String, AllocError>
    ensures { Writes result (layer_text variable.now layer.now) }
{
    let field = field_text(alloc, &layer.field)?;
    joined(alloc, &[variable, field.as_str()])
}

/// A dot and the field, if there is one.
fn field_text(alloc: Global, field: &Option<Name>) -> Result<String, AllocError>
    ensures { Writes result (field_text field.now) }
{
    match field {
        Some(name) => joined(alloc, &[".", name.as_str()]),
        None => joined(alloc, &[]),
    }
}

/// An axis with its bounds.
pub fn axis_text(alloc: Global, axis: &Axis) -> Result<String, AllocError>
    ensures { Writes result (axis_text axis.now) }
{
    let mut lo = Buffer::new();
    let mut hi = Buffer::new();
    let lo = lo.format(axis.lo);
    let hi = hi.format(axis.hi);
    joined(alloc, &[axis.name.as_str(), "(", lo, ":", hi, ")"])
}
