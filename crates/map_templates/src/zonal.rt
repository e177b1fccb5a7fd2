//! Zonal operations.

ghost use Rattle.std.specs.Prelude.{◌+◌, ◌<◌, ◌^◌, codes, length};
ghost use Rattle.map_templates.specs.Templates.{summary_text};
ghost use Rattle.map_templates.specs.Pieces.{Writes};
ghost use Rattle.map_templates.specs.Texts.{iterator_text, iterators_text, layer_text, listed_text, located_text, position_text, positions_text, same_zone_text, zonal_box, zonal_head, zonal_test, zonal_text, zonal_value};

use crate::params::Layer;
use crate::parts::{axis_text, layer_text};
use crate::pieces::joined;
use crate::template::Summary;
use arr_core::Axis;
use itoa::Buffer;
use std::alloc::{AllocError, Global};

/// The query of a zonal operation on coverages with those axes.
pub fn zonal_text(
    alloc: Global,
    summary: Summary,
    layer: &Layer,
    zones: &Layer,
    axes: &[Axis],
) -> Result<String, AllocError>
    requires { length axes.now < 2 ^ 16 }
    ensures { Writes result (zonal_text summary layer.now zones.now axes.now) }
{
    let head = places_text(alloc, layer, zones, axes)?;
    let others = others_text(alloc, summary, axes)?;
    let test = same_zone_text(alloc, zones, axes)?;
    let value = other_text(alloc, layer, axes)?;
    joined(
        alloc,
        &[
            head.as_str(),
            others.as_str(),
            test.as_str(),
            value.as_str(),
        ],
    )
}

/// The coverages, and the iterators over their locations.
fn places_text(
    alloc: Global,
    layer: &Layer,
    zones: &Layer,
    axes: &[Axis],
) -> Result<String, AllocError>
    requires { length axes.now < 2 ^ 16 }
    ensures { Writes result (zonal_head layer.now.coverage zones.now.coverage (iterators_text (codes "$p") 1 axes.now)) }
{
    let places = iterators_text(alloc, "$p", 1, axes)?;
    head_text(
        alloc,
        layer.coverage.as_str(),
        zones.coverage.as_str(),
        places.as_str(),
    )
}

fn head_text(alloc: Global, coverage: &str, zones: &str, places: &str) -> Result<String, AllocError>
    ensures { Writes result (zonal_head coverage.now zones.now places.now) }
{
    joined(
        alloc,
        &[
            "for a in (",
            coverage,
            "), z in (",
            zones,
            ") return encode(coverage f over ",
            places,
        ],
    )
}

/// The condenser, and the iterators over the locations again.
fn others_text(alloc: Global, summary: Summary, axes: &[Axis]) -> Result<String, AllocError>
    requires { length axes.now < 2 ^ 16 }
    ensures { Writes result (zonal_box (summary_text summary) (iterators_text (codes "$u") 1 axes.now)) }
{
    let others = iterators_text(alloc, "$u", 1, axes)?;
    condenser_text(alloc, summary.text(), others.as_str())
}

fn condenser_text(alloc: Global, operator: &str, others: &str) -> Result<String, AllocError>
    ensures { Writes result (zonal_box operator.now others.now) }
{
    joined(alloc, &[" values condense ", operator, " over ", others])
}

/// The condition that the other location is in the zone of the location.
fn same_zone_text(alloc: Global, zones: &Layer, axes: &[Axis]) -> Result<String, AllocError>
    requires { length axes.now < 2 ^ 16 }
    ensures { Writes result (same_zone_text zones.now axes.now) }
{
    let zone = layer_text(alloc, "z", zones)?;
    let other = located_text(alloc, zone.as_str(), "$u", axes)?;
    let own = located_text(alloc, zone.as_str(), "$p", axes)?;
    condition_text(alloc, other.as_str(), own.as_str())
}

fn condition_text(alloc: Global, other: &str, own: &str) -> Result<String, AllocError>
    ensures { Writes result (zonal_test other.now own.now) }
{
    joined(alloc, &[" where ", other, " = ", own])
}

/// The value at the other location.
fn other_text(alloc: Global, layer: &Layer, axes: &[Axis]) -> Result<String, AllocError>
    requires { length axes.now < 2 ^ 16 }
    ensures { Writes result (zonal_value (located_text (layer_text (codes "a") layer.now) (codes "$u") axes.now)) }
{
    let value = layer_text(alloc, "a", layer)?;
    let other = located_text(alloc, value.as_str(), "$u", axes)?;
    joined(alloc, &[" using ", other.as_str(), ", csv)"])
}

/// An item of a list, and what follows it.
fn listed_text(alloc: Global, first: &str, rest: &str) -> Result<String, AllocError>
    ensures { Writes result (listed_text first.now rest.now) }
{
    joined(alloc, &[first, ", ", rest])
}

/// An iterator over each axis, from the one of that number on.
fn iterators_text(
    alloc: Global,
    stem: &str,
    number: u64,
    axes: &[Axis],
) -> Result<String, AllocError>
    requires { number + length axes.now < 2 ^ 32 }
    ensures { Writes result (iterators_text stem.now number axes.now) }
{
    match axes {
        [] => joined(alloc, &[]),
        [axis] => iterator_text(alloc, stem, number, axis),
        [axis, more @ ..] => {
            let first = iterator_text(alloc, stem, number, axis)?;
            let rest = iterators_text(alloc, stem, number + 1, more)?;
            listed_text(alloc, first.as_str(), rest.as_str())
        }
    }
}

/// An iterator over an axis.
fn iterator_text(alloc: Global, stem: &str, number: u64, axis: &Axis) -> Result<String, AllocError>
    ensures { Writes result (iterator_text stem.now number axis.now) }
{
    let mut buffer = Buffer::new();
    let range = axis_text(alloc, axis)?;
    joined(alloc, &[stem, buffer.format(number), " ", range.as_str()])
}

/// A layer at the iterators with that stem.
fn located_text(alloc: Global, layer: &str, stem: &str, axes: &[Axis]) -> Result<String, AllocError>
    requires { length axes.now < 2 ^ 16 }
    ensures { Writes result (located_text layer.now stem.now axes.now) }
{
    let positions = positions_text(alloc, stem, 1, axes)?;
    joined(alloc, &[layer, "[", positions.as_str(), "]"])
}

/// Each axis at its iterator, from the one of that number on.
fn positions_text(
    alloc: Global,
    stem: &str,
    number: u64,
    axes: &[Axis],
) -> Result<String, AllocError>
    requires { number + length axes.now < 2 ^ 32 }
    ensures { Writes result (positions_text stem.now number axes.now) }
{
    match axes {
        [] => joined(alloc, &[]),
        [axis] => position_text(alloc, stem, number, axis),
        [axis, more @ ..] => {
            let first = position_text(alloc, stem, number, axis)?;
            let rest = positions_text(alloc, stem, number + 1, more)?;
            listed_text(alloc, first.as_str(), rest.as_str())
        }
    }
}

/// An axis at its iterator.
fn position_text(alloc: Global, stem: &str, number: u64, axis: &Axis) -> Result<String, AllocError>
    ensures { Writes result (position_text stem.now number axis.now) }
{
    let mut buffer = Buffer::new();
    let iterator = buffer.format(number);
    joined(alloc, &[axis.name.as_str(), "(", stem, iterator, ")"])
}
