//! Variables: iterators and coverages.

ghost use Rattle.std.specs.Prelude.{◌≡◌, slice_get};
ghost use Rattle.wcps_text.specs.Tree as tree;
ghost use Rattle.wcps_types.specs.declared.typed.Node.TheVariants.{Coverage};
ghost use Rattle.wcps_types.specs.Labels.{labels_in};
ghost use Rattle.wcps_types.specs.Shapes.{Says, shape_view, labels_view};
ghost use Rattle.wcps_types.specs.Variables.{signatures_in, cells_from, coverage_at};
ghost use Rattle.wcps_types.specs.Contexts.{TypesTo};

use crate::context::Context;
use crate::extent::Extent;
use crate::labels::Labels;
use crate::nodes::boxed;
use crate::refusal::{CheckError, TypeRefusal};
use crate::shape::{Shape, unnamed_scalar};
use crate::typed::Node;
use arr_core::{Field, Signature};
use std::alloc::Global;
use wcps_text::QueryName;

/// The labels of the coverage that has that place.
#[tactic(auto, using(crate::proofs::Fields::cell_fields))]
fn coverage_labels(place: usize, fields: &[Field]) -> Labels<'_>
    ensures { labels_view (Coverage place) 0 (labels_in result) ≡ cells_from place 0 fields.now }
{
    Labels::Fields(fields)
}

/// The shape of the coverage at a place.
fn coverage_shape<'a>(
    alloc: Global,
    coverages: &[&'a Signature],
    place: usize,
) -> Result<Shape<'a>, CheckError>
    ensures { Says shape_view result (coverage_at place (slice_get (signatures_in coverages.now) place)) }
{
    match coverages.get(place) {
        None => Err(CheckError::Refused(TypeRefusal::UnknownName)),
        Some(coverage) => {
            let domain = Extent::lent(&coverage.domain);
            let labels = coverage_labels(place, coverage.fields.as_slice());
            let node = boxed(alloc, Node::Coverage(place))?;
            Ok(Shape {
                domain,
                labels,
                node,
            })
        }
    }
}

/// An iterator in scope, or a variable of the `for` list.
pub fn variable<'a>(context: &Context<'_, 'a>, name: &QueryName) -> Result<Shape<'a>, CheckError>
    ensures { TypesTo context.now (tree.variable name.now) result }
{
    match context.scope.place(name) {
        Some(level) => {
            let node = boxed(context.alloc, Node::Iterator(level))?;
            Ok(unnamed_scalar(context.alloc, false, node))
        }
        None => match context.bound.place(name) {
            None => Err(CheckError::Refused(TypeRefusal::UnknownName)),
            Some(place) => match context.bound.list.get(place) {
                None => Err(CheckError::Refused(TypeRefusal::UnknownName)),
                Some(b) => coverage_shape(context.alloc, context.coverages, b.coverage),
            },
        },
    }
}
