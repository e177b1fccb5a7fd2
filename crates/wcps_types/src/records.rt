//! Several fields in braces.

ghost use Rattle.std.specs.Prelude.{◌≡◌, IfOk, IfSome, is_some, map, cond, not, ◌&&◌};
ghost use Rattle.wcps_types.specs.Typed.{only_tree, scalar as scalar_tree};
ghost use Rattle.wcps_types.specs.Parts.{piece_label, tree_in};
ghost use Rattle.wcps_types.specs.Shapes.{Says, shape_view, field_of_view};
ghost use Rattle.wcps_types.specs.Records.{piece_view, pieces_view, before_next, no_pieces, is_part, with_part, finished};

use crate::extent::Extent;
use crate::labels::{Label, Labels};
use crate::nodes::boxed;
use crate::operators::are_same;
use crate::pieces::{NextPiece, Pieces};
use crate::refusal::{CheckError, TypeRefusal};
use crate::shape::{OneField, Shape, is_scalar, no_axes};
use crate::typed::Node;
use std::alloc::{AllocError, Global};
use std::collections::BTreeSet;
use wcps_text::QueryName;

/// A part of a record.
#[derive(Drop)]
pub struct Piece {
    pub name: QueryName,
    pub scalar: bool,
    pub boolean: bool,
    pub node: Node,
}

impl Pieces {
    /// No part yet.
    pub fn new(alloc: Global) -> Pieces
        ensures { pieces_view result ≡ no_pieces }
    {
        Pieces {
            domain: no_axes(alloc),
            list: Vec::new(alloc),
            names: BTreeSet::new(alloc),
        }
    }
}

/// The parts with a name for the next one, unless one of them has it.
pub fn with_name(
    alloc: Global,
    pieces: Pieces,
    name: &QueryName,
) -> Result<Option<NextPiece>, AllocError>
    ensures new { IfOk result (λ next. is_some next ≡ not (is_part name.now (map piece_view pieces.list.items))) }
    ensures named { IfOk result (λ next. IfSome next (λ n. (n.name ≡ name.now) × (before_next n ≡ pieces_view pieces))) }
{
    let Pieces {
        domain,
        list,
        mut names,
    } = pieces;
    let is_new = names.insert(String::from_str(alloc, name.as_str())?)?;
    if !is_new {
        return Ok(None);
    }
    let name = QueryName::new(alloc, name.as_str())?;
    Ok(Some(NextPiece {
        domain,
        list,
        names,
        name,
    }))
}

/// The parts with one more.
pub fn with_part(alloc: Global, next: NextPiece, value: OneField) -> Result<Pieces, CheckError>
    ensures { Says pieces_view result (with_part next.name (field_of_view value.entry) (before_next next)) }
{
    let NextPiece {
        domain: before,
        mut list,
        names,
        name,
    } = next;
    let OneField {
        domain,
        boolean,
        node,
    } = value;
    let scalar = is_scalar(domain.axes());
    if !scalar && !is_scalar(before.axes()) && !are_same(before.axes(), domain.axes()) {
        return Err(CheckError::Refused(TypeRefusal::DomainMismatch));
    }
    list.push(Piece {
        name,
        scalar,
        boolean,
        node: Box::into_inner(node),
    })?;
    let domain = if scalar {
        before
    } else {
        domain.into_domain(alloc)?
    };
    Ok(Pieces {
        domain,
        list,
        names,
    })
}

/// The node of a part; a scalar part beside one with axes is taken at every point.
fn part_node(alloc: Global, on_axes: bool, scalar: bool, node: Node) -> Result<Node, AllocError>
    ensures { IfOk result (λ n. only_tree n ≡ cond (scalar && on_axes) (scalar_tree (only_tree node)) (only_tree node)) }
{
    if scalar && on_axes {
        let node = boxed(alloc, node)?;
        Ok(Node::Scalar(node))
    } else {
        Ok(node)
    }
}

/// The labels of the parts.
fn piece_labels(alloc: Global, list: &[Piece]) -> Result<Vec<Label>, AllocError>
    ensures { IfOk result (λ v. v.items ≡ map piece_label list.now) }
{
    let mut labels = Vec::new(alloc);
    for piece in list {
        let name = QueryName::new(alloc, piece.name.as_str())?;
        labels.push(Label {
            name: Some(name),
            boolean: piece.boolean,
        })?;
    }
    Ok(labels)
}

/// The nodes of the parts.
fn piece_nodes(alloc: Global, on_axes: bool, list: Vec<Piece>) -> Result<Vec<Node>, AllocError>
    ensures { IfOk result (λ v. map only_tree v.items ≡ map (tree_in on_axes) list.items) }
{
    let mut nodes = Vec::new(alloc);
    for piece in list {
        nodes.push(part_node(alloc, on_axes, piece.scalar, piece.node)?)?;
    }
    Ok(nodes)
}

/// The shape of all parts: one node more, however many fields.
#[tactic(auto, using(crate::proofs::Fields::record_fields, crate::proofs::Fields::finished_fields))]
pub fn finished<'a>(alloc: Global, pieces: Pieces) -> Result<Shape<'a>, AllocError>
    ensures { IfOk result (λ s. shape_view s ≡ finished (pieces_view pieces)) }
{
    let Pieces {
        domain,
        list,
        names: _,
    } = pieces;
    let on_axes = !is_scalar(domain.axes());
    let labels = piece_labels(alloc, &list)?;
    let nodes = piece_nodes(alloc, on_axes, list)?;
    let node = boxed(alloc, Node::Record(nodes))?;
    Ok(Shape {
        domain: Extent::own(domain),
        labels: Labels::Listed(labels),
        node,
    })
}
