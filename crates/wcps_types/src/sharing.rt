//! Combinations of coverages with the same domains and fields have one tree.

ghost use Rattle.std.specs.Prelude.{◌≡◌, ◌↔◌, IfOk, IfSome, IsSomeAnd, IsTrue, map, slice_get};
ghost use Rattle.wcps_types.specs.Bindings.{choice_view};
ghost use Rattle.wcps_types.specs.Variables.{signatures_in};
ghost use Rattle.wcps_types.specs.Sharing.{own_choices, coverages_in, signatures_at, AlikeAt, Alike, IsLike};

use crate::bindings::Choice;
use crate::bound::{Bound, Variables, with_variable};
use crate::typed_query::Maker;
use arr_core::{Field, Signature};
use std::alloc::{AllocError, Global};

/// Whether two fields have the same name and type.
fn is_same_field(a: &Field, b: &Field) -> bool
    ensures { IsTrue result ↔ (a.now ≡ b.now) }
{
    a.name.is_same(&b.name) && a.kind == b.kind
}

/// Whether two lists of fields are the same.
fn are_same_fields(fields: &[Field], other: &[Field]) -> bool
    ensures { IsTrue result ↔ (fields.now ≡ other.now) }
{
    match fields {
        [] => other.is_empty(),
        [a, rest @ ..] => match other {
            [] => false,
            [b, further @ ..] => is_same_field(a, b) && are_same_fields(rest, further),
        },
    }
}

/// Whether the coverages at two places have the same domain and fields; at one place they have.
fn are_like_at(coverages: &[Signature], a: usize, b: usize) -> bool
    ensures { IsTrue result → AlikeAt (slice_get coverages.now a) (slice_get coverages.now b) }
{
    match coverages.get(a) {
        None => false,
        Some(first) => {
            if a == b {
                return true;
            }
            match coverages.get(b) {
                None => false,
                Some(second) => {
                    first.domain.is_same(&second.domain)
                        && are_same_fields(first.fields.as_slice(), second.fields.as_slice())
                }
            }
        }
    }
}

/// Whether the coverages of a combination are, one by one, like those at other places.
fn are_alike(coverages: &[Signature], bound: &[Bound], places: &[usize]) -> bool
    ensures { IsTrue result → Alike coverages.now (coverages_in bound.now) places.now }
{
    match bound {
        [] => places.is_empty(),
        [b, rest @ ..] => match places {
            [] => false,
            [place, more @ ..] => {
                are_like_at(coverages, b.coverage, *place) && are_alike(coverages, rest, more)
            }
        },
    }
}

/// The place of a maker whose coverages are like those of a combination.
pub fn place_of_like(coverages: &[Signature], makers: &[Maker], bound: &[Bound]) -> Option<usize>
    ensures { IfSome result (λ k. IsSomeAnd (slice_get makers.now k) (IsLike coverages.now (coverages_in bound.now))) }
{
    for place in 0..makers.len() {
        if are_alike(coverages, bound, &makers[place].coverages) {
            return Some(place);
        }
    }
    None
}

/// The signatures of the coverages at those places, each for one variable.
pub fn signatures_at<'a>(
    alloc: Global,
    coverages: &'a [Signature],
    places: &[usize],
) -> Result<Vec<&'a Signature>, AllocError>
    ensures { IfOk result (λ v. signatures_in v.items ≡ signatures_at coverages.now places.now) }
{
    let mut signatures = Vec::new(alloc);
    for place in places {
        let Some(signature) = coverages.get(*place) else {
            continue;
        };
        signatures.push(signature)?;
    }
    Ok(signatures)
}

/// The variables, each with a coverage of its own.
pub fn own_variables(alloc: Global, choices: &[Choice]) -> Result<Variables, AllocError>
    ensures { IfOk result (λ v. v.list.items ≡ own_choices 0 (map choice_view choices.now)) }
{
    let mut variables = Variables::new(alloc);
    for choice in choices {
        let coverage = variables.list.len();
        variables = with_variable(alloc, variables, &choice.variable, coverage)?;
    }
    Ok(variables)
}

/// The places of the coverages of a combination.
pub fn places_of(alloc: Global, bound: &[Bound]) -> Result<Vec<usize>, AllocError>
    ensures { IfOk result (λ v. v.items ≡ coverages_in bound.now) }
{
    let mut places = Vec::new(alloc);
    for b in bound {
        places.push(b.coverage)?;
    }
    Ok(places)
}
