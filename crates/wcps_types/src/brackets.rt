//! Brackets: narrowing axes, and taking axes out at positions.

ghost use Rattle.std.specs.Prelude.{◌≡◌, ◌++◌, ◌∷◌, [], IfOk, map, slice_get};
ghost use Rattle.std.specs.Option.{option_map};
ghost use Rattle.arr_core.specs.Domains.{AreOrdered};
ghost use Rattle.wcps_types.specs.Typed.{boxed_tree};
ghost use Rattle.wcps_types.specs.Shapes.{Says, shape_view};
ghost use Rattle.wcps_types.specs.Brackets.{bounds_view, cut_view, bracket_view, written_bounds, bounds_of, bounds_of_axis, opened, place_to_cut, with_trim, position_of, with_position, cut_out, all_cut_out, bracketed};

use crate::bounds::Bounds;
use crate::extent::Extent;
use crate::names::{axis_place, name_place};
use crate::nodes::boxed;
use crate::refusal::{CheckError, TypeRefusal};
use crate::shape::{OneScalar, Shape, only_scalar};
use crate::typed::Node;
use arr_core::{Axis, Domain, MAX_BOUND};
use std::alloc::{AllocError, Global};
use wcps_text::QueryName;

/// An axis that is taken out, and where.
#[derive(Drop)]
pub struct Cut {
    pub axis: QueryName,
    pub position: Box<Node>,
}

/// Bounds as they are written.
pub fn written_bounds(lo: i64, hi: i64) -> Result<Bounds, CheckError>
    ensures { Says bounds_view result (written_bounds lo hi) }
{
    if lo <= hi && -MAX_BOUND - 1 <= lo && hi <= MAX_BOUND {
        return Ok(Bounds {
            lo: lo as i32,
            hi: hi as i32,
        });
    }
    Err(CheckError::Refused(TypeRefusal::BadInterval))
}

/// The bounds of the axis at a place.
fn bounds_at(axes: &[Axis], place: usize) -> Option<Bounds>
    requires { AreOrdered axes.now }
    ensures { option_map bounds_view result ≡ option_map bounds_of (slice_get axes.now place) }
{
    match axes {
        [] => None,
        [axis, rest @ ..] => {
            if place == 0 {
                Some(Bounds {
                    lo: axis.lo,
                    hi: axis.hi,
                })
            } else {
                bounds_at(rest, place - 1)
            }
        }
    }
}

/// The bounds of the axis of that name.
pub fn bounds_of_axis(domain: &Domain, name: &QueryName) -> Result<Bounds, CheckError>
    ensures { Says bounds_view result (bounds_of_axis name.now domain.now) }
{
    let axes = domain.axes();
    match axis_place(axes, name) {
        None => Err(CheckError::Refused(TypeRefusal::NoSuchAxis)),
        Some(place) => match bounds_at(axes, place) {
            None => Err(CheckError::Refused(TypeRefusal::NoSuchAxis)),
            Some(bounds) => Ok(bounds),
        },
    }
}

/// A bracket so far: the domain with the axes that are trimmed narrowed, the axes that are named, and the positions.
#[derive(Drop)]
pub struct Bracket<'a> {
    pub domain: Extent<'a>,
    pub named: Vec<QueryName>,
    pub cuts: Vec<Cut>,
}

impl<'a> Bracket<'a> {
    /// Nothing yet.
    pub fn new(alloc: Global, domain: Extent<'a>) -> Bracket<'a>
        ensures { bracket_view result ≡ opened domain.entry }
    {
        Bracket {
            domain,
            named: Vec::new(alloc),
            cuts: Vec::new(alloc),
        }
    }
}

/// The place of the next axis that a bracket names.
pub fn place_to_cut(bracket: &Bracket, axis: &QueryName) -> Result<usize, CheckError>
    ensures { Says (λ k. k) result (place_to_cut axis.now (bracket_view bracket.now)) }
{
    match axis_place(bracket.domain.axes(), axis) {
        None => Err(CheckError::Refused(TypeRefusal::NoSuchAxis)),
        Some(place) => {
            if name_place(&bracket.named, axis).is_some() {
                Err(CheckError::Refused(TypeRefusal::AxisTwice))
            } else {
                Ok(place)
            }
        }
    }
}

/// The names of axes, and one more.
fn with_name(
    alloc: Global,
    named: Vec<QueryName>,
    name: &QueryName,
) -> Result<Vec<QueryName>, AllocError>
    ensures { IfOk result (λ v. v.items ≡ named.items ++ name.now ∷ []) }
{
    let mut named = named;
    named.push(QueryName::new(alloc, name.as_str())?)?;
    Ok(named)
}

/// The bracket with the axis at a place trimmed, if the bounds are inside it.
pub fn with_trim<'a>(
    alloc: Global,
    bracket: Bracket<'a>,
    place: usize,
    name: &QueryName,
    bounds: Bounds,
) -> Result<Bracket<'a>, CheckError>
    ensures { Says bracket_view result (with_trim place name.now (bounds_view bounds) (bracket_view bracket.entry)) }
{
    let Bracket {
        domain,
        named,
        cuts,
    } = bracket;
    let Some(own) = bounds_at(domain.axes(), place) else {
        return Err(CheckError::Refused(TypeRefusal::TrimOutside));
    };
    if bounds.lo < own.lo || own.hi < bounds.hi {
        return Err(CheckError::Refused(TypeRefusal::TrimOutside));
    }
    let narrow = domain.domain().narrow(alloc, place, bounds.lo, bounds.hi)?;
    let named = with_name(alloc, named, name)?;
    Ok(Bracket {
        domain: Extent::own(narrow),
        named,
        cuts,
    })
}

/// A position: an integer scalar.
pub fn position_of(shape: Shape) -> Result<Box<Node>, CheckError>
    ensures { Says boxed_tree result (position_of (shape_view shape.entry)) }
{
    let OneScalar { boolean, node } = only_scalar(shape)?;
    if boolean {
        return Err(CheckError::Refused(TypeRefusal::NeedsInteger));
    }
    Ok(node)
}

/// The bracket with an axis taken out at a position.
pub fn with_position<'a>(
    alloc: Global,
    before: Bracket<'a>,
    name: &QueryName,
    position: Box<Node>,
) -> Result<Bracket<'a>, AllocError>
    ensures { IfOk result (λ b. bracket_view b ≡ with_position name.now (boxed_tree position) (bracket_view before.entry)) }
{
    let Bracket {
        domain,
        named,
        mut cuts,
    } = before;
    let named = with_name(alloc, named, name)?;
    let axis = QueryName::new(alloc, name.as_str())?;
    cuts.push(Cut { axis, position })?;
    Ok(Bracket {
        domain,
        named,
        cuts,
    })
}

/// The shape with one axis taken out: one node, however many fields.
fn cut_out<'a>(alloc: Global, shape: Shape<'a>, cut: Cut) -> Result<Shape<'a>, AllocError>
    ensures { IfOk result (λ s. shape_view s ≡ cut_out (cut_view cut) (shape_view shape.entry)) }
{
    let Cut { axis, position } = cut;
    let Some(place) = axis_place(shape.domain.axes(), &axis) else {
        return Ok(shape);
    };
    let Some(bounds) = bounds_at(shape.domain.axes(), place) else {
        return Ok(shape);
    };
    let Shape {
        domain,
        labels,
        node,
    } = shape;
    let fewer = domain.domain().drop_axis(alloc, place)?;
    let slice = Node::Slice {
        value: node,
        axis: place,
        lo: bounds.lo,
        hi: bounds.hi,
        position,
    };
    Ok(Shape {
        domain: Extent::own(fewer),
        labels,
        node: boxed(alloc, slice)?,
    })
}

/// The shape of a whole bracket: the axes are taken out, the last one first, so that the slice of the first one stands
/// outermost.
#[tactic(auto, using(crate::proofs::Fields::bracket_fields))]
pub fn closed_bracket<'a>(
    alloc: Global,
    shape: Shape<'a>,
    cuts: Vec<Cut>,
) -> Result<Shape<'a>, AllocError>
    ensures { IfOk result (λ s. shape_view s ≡ bracketed (all_cut_out (map cut_view cuts.items) (shape_view shape.entry))) }
{
    let mut shape = shape;
    let mut cuts = cuts;
    while let Some(cut) = cuts.pop() {
        shape = cut_out(alloc, shape, cut)?;
    }
    let Shape {
        domain,
        labels,
        node,
    } = shape;
    Ok(Shape {
        domain,
        labels,
        node: boxed(alloc, Node::Bracket(node))?,
    })
}
