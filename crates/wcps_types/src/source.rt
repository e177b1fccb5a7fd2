//! What the trees of a query are typed over, the tree of a query over one choice of coverages, and trees that are asked
//! for.

ghost use Rattle.std.specs.Prelude.{◌≡◌, IfOk, option_map, slice_get};
ghost use Rattle.wcps_types.specs.Typed.{tree_view};
ghost use Rattle.wcps_types.specs.Shapes.{Says};
ghost use Rattle.wcps_types.specs.Sources.{typed_at};
ghost use Rattle.wcps_types.specs.TypedQueries.{trees_in};

use crate::bound::Variables;
use crate::context::Context;
use crate::expression::condition_node;
use crate::item::typed_item;
use crate::refusal::CheckError;
use crate::scope::Scope;
use crate::sharing::signatures_at;
use crate::typed::Tree;
use crate::typed_query::TypedQuery;
use arr_core::Signature;
use std::alloc::{AllocError, Global};
use wcps_text::Query;

/// A query, the coverages that it names, and its variables, each of which has a coverage of its own.
#[derive(Drop)]
pub struct Source<'a> {
    pub coverages: &'a [Signature],
    pub variables: &'a Variables,
    pub query: &'a Query,
}

/// The query over its variables, each with the signature of the coverage at its place: its `where`, then its item.
pub fn typed_over(alloc: Global, source: &Source, places: &[usize]) -> Result<Tree, CheckError>
    ensures { Says tree_view result (typed_at source.now places.now) }
{
    let signatures = signatures_at(alloc, source.coverages, places)?;
    let scope = Scope::outermost();
    let context = Context {
        alloc,
        coverages: &signatures,
        bound: source.variables,
        scope: &scope,
    };
    let condition = condition_node(&context, &source.query.condition)?;
    let item = typed_item(&context, &source.query.item)?;
    Ok(Tree { condition, item })
}

/// The tree at a place, as `check` typed it. It is typed anew, in as much memory as its own.
pub fn tree_at(alloc: Global, query: &TypedQuery, place: usize) -> Result<Option<Tree>, AllocError>
    ensures { IfOk result (λ t. option_map tree_view t ≡ slice_get (trees_in query.now) place) }
{
    let Some(maker) = query.makers.get(place) else {
        return Ok(None);
    };
    let source = Source {
        coverages: &query.coverages,
        variables: &query.variables,
        query: &query.query,
    };
    match typed_over(alloc, &source, &maker.coverages) {
        Ok(tree) => Ok(Some(tree)),
        Err(CheckError::Refused(_)) => unreachable!(),
        Err(CheckError::NoMemory) => Err(AllocError),
    }
}
