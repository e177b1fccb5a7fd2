//! Focal operations.

ghost use Rattle.std.specs.Prelude.{codes};
ghost use Rattle.map_templates.specs.Pieces.{Writes};
ghost use Rattle.map_templates.specs.Templates.{summary_text};
ghost use Rattle.map_templates.specs.Texts.{axis_text, edge_text, focal_edges, focal_head, focal_text, focal_value, focal_window, layer_text, window_text};

use crate::params::Layer;
use crate::parts::{axis_text, layer_text};
use crate::pieces::joined;
use crate::template::Summary;
use arr_core::Axis;
use itoa::Buffer;
use std::alloc::{AllocError, Global};

/// The query of a focal operation on a coverage with the axes `x` and `y`.
pub fn focal_text(
    alloc: Global,
    summary: Summary,
    layer: &Layer,
    x: &Axis,
    y: &Axis,
    radius: u64,
) -> Result<String, AllocError>
    ensures { Writes result (focal_text summary layer.now x.now y.now radius) }
{
    let head = places_text(alloc, layer, x, y)?;
    let window = windows_text(alloc, summary, x, y, radius)?;
    let edges = edges_text(alloc, x, y)?;
    let value = moved_text(alloc, layer, x, y)?;
    joined(
        alloc,
        &[
            head.as_str(),
            window.as_str(),
            edges.as_str(),
            value.as_str(),
        ],
    )
}

/// The coverage, and the iterators over its locations.
fn places_text(alloc: Global, layer: &Layer, x: &Axis, y: &Axis) -> Result<String, AllocError>
    ensures { Writes result (focal_head layer.now.coverage (axis_text x.now) (axis_text y.now)) }
{
    let first = axis_text(alloc, x)?;
    let second = axis_text(alloc, y)?;
    head_text(
        alloc,
        layer.coverage.as_str(),
        first.as_str(),
        second.as_str(),
    )
}

fn head_text(alloc: Global, coverage: &str, x: &str, y: &str) -> Result<String, AllocError>
    ensures { Writes result (focal_head coverage.now x.now y.now) }
{
    joined(
        alloc,
        &[
            "for a in (",
            coverage,
            ") return encode(coverage f over $p ",
            x,
            ", $q ",
            y,
        ],
    )
}

/// The condenser, and the iterators over the offsets of a window.
fn windows_text(
    alloc: Global,
    summary: Summary,
    x: &Axis,
    y: &Axis,
    radius: u64,
) -> Result<String, AllocError>
    ensures { Writes result (focal_window (summary_text summary) (window_text x.now radius) (window_text y.now radius)) }
{
    let first = window_text(alloc, x, radius)?;
    let second = window_text(alloc, y, radius)?;
    condenser_text(alloc, summary.text(), first.as_str(), second.as_str())
}

fn condenser_text(alloc: Global, operator: &str, x: &str, y: &str) -> Result<String, AllocError>
    ensures { Writes result (focal_window operator.now x.now y.now) }
{
    joined(
        alloc,
        &[" values condense ", operator, " over $u ", x, ", $v ", y],
    )
}

/// The condition that a location of the window is one of the coverage.
fn edges_text(alloc: Global, x: &Axis, y: &Axis) -> Result<String, AllocError>
    ensures { Writes result (focal_edges (edge_text (codes "$p + $u") x.now) (edge_text (codes "$q + $v") y.now)) }
{
    let first = edge_text(alloc, "$p + $u", x)?;
    let second = edge_text(alloc, "$q + $v", y)?;
    condition_text(alloc, first.as_str(), second.as_str())
}

fn condition_text(alloc: Global, x: &str, y: &str) -> Result<String, AllocError>
    ensures { Writes result (focal_edges x.now y.now) }
{
    joined(alloc, &[" where ", x, " and ", y])
}

/// The value at a location of the window.
fn moved_text(alloc: Global, layer: &Layer, x: &Axis, y: &Axis) -> Result<String, AllocError>
    ensures { Writes result (focal_value (layer_text (codes "a") layer.now) x.now.name y.now.name) }
{
    let value = layer_text(alloc, "a", layer)?;
    located_text(alloc, value.as_str(), x.name.as_str(), y.name.as_str())
}

fn located_text(alloc: Global, value: &str, x: &str, y: &str) -> Result<String, AllocError>
    ensures { Writes result (focal_value value.now x.now y.now) }
{
    joined(
        alloc,
        &[
            " using ",
            value,
            "[",
            x,
            "($p + $u), ",
            y,
            "($q + $v)], csv)",
        ],
    )
}

/// An axis with offsets up to the radius, to both sides.
fn window_text(alloc: Global, axis: &Axis, radius: u64) -> Result<String, AllocError>
    ensures { Writes result (window_text axis.now radius) }
{
    let mut buffer = Buffer::new();
    let offset = buffer.format(radius);
    joined(alloc, &[axis.name.as_str(), "(-", offset, ":", offset, ")"])
}

/// The condition that a coordinate and its offset together stay on the axis.
fn edge_text(alloc: Global, moved: &str, axis: &Axis) -> Result<String, AllocError>
    ensures { Writes result (edge_text moved.now axis.now) }
{
    let mut lo = Buffer::new();
    let mut hi = Buffer::new();
    let lo = lo.format(axis.lo);
    let hi = hi.format(axis.hi);
    joined(alloc, &[moved, " >= ", lo, " and ", moved, " <= ", hi])
}
