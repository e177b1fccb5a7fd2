//! The check of a whole query.

ghost use Rattle.std.specs.Prelude.{◌≡◌, ◌<◌, None, IfOk, IfSome, OnOk, length, map};
ghost use Rattle.wcps_text.specs.Tree.{query_view};
ghost use Rattle.wcps_types.specs.Typed.{tree_view};
ghost use Rattle.wcps_types.specs.TypedQueries.{query_view as typed_query_view};
ghost use Rattle.wcps_types.specs.Shapes.{Says};
ghost use Rattle.wcps_types.specs.Bindings.{choice_view, combination_count};
ghost use Rattle.wcps_types.specs.Sharing.{own, own_choices, coverages_in, AreBelow, ChoicesAreBelow, Grows};
ghost use Rattle.wcps_types.specs.Sources.{typed_with, typed_each};
ghost use Rattle.wcps_types.specs.Kept.{latest_of, IsKept, IsMaking, trees_made, tree_at, combined_view};
ghost use Rattle.wcps_types.specs.Resolved.{resolved_view, IsSound};
ghost use Rattle.wcps_types.specs.Queries.{typ_query};

use crate::bindings::{Choice, combination_at, combination_count, resolve_bindings};
use crate::bound::{Bound, Variables};
use crate::cells::{MAX_CELLS, combinations_cells, tree_cells};
use crate::effort::{MAX_WORK, combinations_work, tree_work};
use crate::refusal::{CheckError, TypeRefusal};
use crate::same::is_same_tree;
use crate::sharing::{own_variables, place_of_like, places_of};
use crate::source::{Source, typed_over};
use crate::typed::Tree;
use crate::typed_query::{Combination, Maker, TypedQuery};
use arr_core::Signature;
use std::alloc::{AllocError, Global};
use wcps_text::Query;

/// The tree that was made last, and its place.
#[derive(Drop)]
struct Latest {
    place: usize,
    tree: Tree,
}

/// The makers so far, and of their trees the last one alone, in a box.
#[derive(Drop)]
struct Making {
    makers: Vec<Maker>,
    latest: Option<Box<Latest>>,
}

/// The place of the tree that was made last, if this one is the same.
fn place_of_same(latest: &Option<Box<Latest>>, tree: &Tree) -> Option<usize>
    ensures { IfSome result (λ k. IsKept (latest_of latest.now) (tree_view tree.now) k) }
{
    match latest {
        None => None,
        Some(latest) => {
            if is_same_tree(&latest.tree, tree) {
                Some(latest.place)
            } else {
                None
            }
        }
    }
}

/// The place of the tree of a query over the coverages of a combination: that of a maker whose coverages are like
/// these, else that of the last tree, if it is the same, else that of the tree that is made of this combination.
fn place_of_tree(
    alloc: Global,
    source: &Source,
    bound: &[Bound],
    making: &mut Making,
) -> Result<usize, CheckError>
    requires own { source.now.variables.now.list.items ≡ own 0 bound.now }
    requires there { AreBelow (length source.now.coverages.now) (coverages_in bound.now) }
    requires making { IsMaking source.now making.old }
    ensures said { Says (tree_at source.now making.new bound.now) result (typed_with source.now bound.now) }
    ensures inside { IfOk result (λ k. k < length making.new.makers.items) }
    ensures making { OnOk result (IsMaking source.now making.new) }
    ensures kept { OnOk result (Grows (trees_made source.now making.old) (trees_made source.now making.new)) }
{
    if let Some(place) = place_of_like(source.coverages, &making.makers, bound) {
        return Ok(place);
    }
    let coverages = places_of(alloc, bound)?;
    let tree = typed_over(alloc, source, &coverages)?;
    if let Some(place) = place_of_same(&making.latest, &tree) {
        return Ok(place);
    }
    let place = making.makers.len();
    let maker = Maker {
        coverages,
        cells: tree_cells(&tree),
        work: tree_work(&tree),
    };
    let latest = Box::new(alloc, Latest { place, tree })?;
    making.makers.push(maker)?;
    making.latest = Some(latest);
    Ok(place)
}

/// Combinations, and the makers of their trees.
#[derive(Drop)]
struct Combined {
    makers: Vec<Maker>,
    combinations: Vec<Combination>,
}

/// The query with each choice of coverages in order.
fn each_combination(
    alloc: Global,
    source: &Source,
    choices: &[Choice],
    count: u64,
) -> Result<Combined, CheckError>
    requires own { source.now.variables.now.list.items ≡ own_choices 0 (map choice_view choices.now) }
    requires counted { count ≡ combination_count (map choice_view choices.now) }
    requires there { ChoicesAreBelow (length source.now.coverages.now) (map choice_view choices.now) }
    ensures said { Says (combined_view source.now) result (typed_each source.now (map choice_view choices.now)) }
    ensures making { IfOk result (λ all. IsMaking source.now (record { makers = all.makers; latest = None })) }
{
    let mut making = Making {
        makers: Vec::new(alloc),
        latest: None,
    };
    let mut combinations = Vec::new(alloc);
    for number in 0..count {
        let bound = combination_at(alloc, choices, count, number)?;
        let tree = place_of_tree(alloc, source, &bound, &mut making)?;
        let coverages = places_of(alloc, &bound)?;
        combinations.push(Combination { tree, coverages })?;
    }
    Ok(Combined {
        makers: making.makers,
        combinations,
    })
}

/// What a query is found to be, beside its text.
#[derive(Drop)]
struct Resolved {
    coverages: Vec<Signature>,
    variables: Variables,
    makers: Vec<Maker>,
    combinations: Vec<Combination>,
    work: u64,
}

/// What a query is found to be, or the first refusal. See `check`.
fn resolve(alloc: Global, signatures: &[Signature], query: &Query) -> Result<Resolved, CheckError>
    ensures said { Says (resolved_view (query_view query.now)) result (typ_query signatures.now (query_view query.now)) }
    ensures sound { IfOk result (λ r. IsSound (query_view query.now) r) }
{
    let bindings = resolve_bindings(alloc, signatures, &query.bindings)?;
    let count = combination_count(&bindings.choices)?;
    let variables = own_variables(alloc, &bindings.choices)?;
    let source = Source {
        coverages: &bindings.coverages,
        variables: &variables,
        query,
    };
    let all = each_combination(alloc, &source, &bindings.choices, count)?;
    if combinations_cells(&all.makers, &all.combinations) > MAX_CELLS {
        return Err(CheckError::Refused(TypeRefusal::ResultTooLarge));
    }
    let work = combinations_work(&all.makers, &all.combinations);
    if work > MAX_WORK {
        return Err(CheckError::Refused(TypeRefusal::TooMuchWork));
    }
    Ok(Resolved {
        coverages: bindings.coverages,
        variables,
        makers: all.makers,
        combinations: all.combinations,
        work,
    })
}

/// The typed query, or the first refusal: first the `for` list and the number of combinations, then each combination in
/// order, then the number of result cells, then the work. It takes memory for the text and two trees, however many
/// combinations there are.
pub fn check(
    alloc: Global,
    signatures: &[Signature],
    query: Query,
) -> Result<TypedQuery, CheckError>
    ensures { Says typed_query_view result (typ_query signatures.now (query_view query)) }
{
    let resolved = resolve(alloc, signatures, &query)?;
    Ok(TypedQuery {
        coverages: resolved.coverages,
        variables: resolved.variables,
        query,
        makers: resolved.makers,
        combinations: resolved.combinations,
        work: resolved.work,
    })
}
