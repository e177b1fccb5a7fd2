//! Local operations.

ghost use Rattle.map_templates.specs.declared.template.LocalOperation.TheVariants as locals;
ghost use Rattle.map_templates.specs.Pieces.{Writes};
ghost use Rattle.map_templates.specs.Texts.{chosen_text, local_text, local_value, pair_text, sum_text};

use crate::params::Layer;
use crate::parts::layer_text;
use crate::pieces::joined;
use crate::template::LocalOperation;
use std::alloc::{AllocError, Global};

/// The query of a local operation.
pub fn local_text(
    alloc: Global,
    operation: LocalOperation,
    first: &Layer,
    second: &Layer,
) -> Result<String, AllocError>
    ensures { Writes result (local_text operation first.now second.now) }
{
    let a = layer_text(alloc, "a", first)?;
    let b = layer_text(alloc, "b", second)?;
    let value = value_text(alloc, operation, a.as_str(), b.as_str())?;
    pair_text(
        alloc,
        first.coverage.as_str(),
        second.coverage.as_str(),
        value.as_str(),
    )
}

/// A query of two coverages, which are bound to `a` and `b`.
fn pair_text(alloc: Global, first: &str, second: &str, value: &str) -> Result<String, AllocError>
    ensures { Writes result (pair_text first.now second.now value.now) }
{
    joined(
        alloc,
        &[
            "for a in (",
            first,
            "), b in (",
            second,
            ") return encode(",
            value,
            ", csv)",
        ],
    )
}

/// The value at a location, `a` and `b` being those of the two layers there.
fn value_text(
    alloc: Global,
    operation: LocalOperation,
    a: &str,
    b: &str,
) -> Result<String, AllocError>
    ensures { Writes result (local_value operation a.now b.now) }
{
    match operation {
        LocalOperation::Sum => sum_text(alloc, a, b),
        LocalOperation::Difference => joined(alloc, &[a, " - ", b]),
        LocalOperation::Product => joined(alloc, &[a, " * ", b]),
        LocalOperation::Maximum => maximum_text(alloc, a, b),
        LocalOperation::Minimum => minimum_text(alloc, a, b),
    }
}

/// The greater value; each counts where it is the greater one, and the first one where they are equal.
fn maximum_text(alloc: Global, a: &str, b: &str) -> Result<String, AllocError>
    ensures { Writes result (local_value locals.Maximum a.now b.now) }
{
    let first = chosen_text(alloc, a, a, " >= ", b)?;
    let second = chosen_text(alloc, b, a, " < ", b)?;
    sum_text(alloc, first.as_str(), second.as_str())
}

/// The smaller value, likewise.
fn minimum_text(alloc: Global, a: &str, b: &str) -> Result<String, AllocError>
    ensures { Writes result (local_value locals.Minimum a.now b.now) }
{
    let first = chosen_text(alloc, a, a, " <= ", b)?;
    let second = chosen_text(alloc, b, a, " > ", b)?;
    sum_text(alloc, first.as_str(), second.as_str())
}

/// A value where a comparison of the two values holds, else 0.
fn chosen_text(
    alloc: Global,
    value: &str,
    a: &str,
    test: &str,
    b: &str,
) -> Result<String, AllocError>
    ensures { Writes result (chosen_text value.now a.now test.now b.now) }
{
    joined(alloc, &[value, " * (", a, test, b, ")"])
}

fn sum_text(alloc: Global, a: &str, b: &str) -> Result<String, AllocError>
    ensures { Writes result (sum_text a.now b.now) }
{
    joined(alloc, &[a, " + ", b])
}
