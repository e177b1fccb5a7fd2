//! The `for` list, and the choices of coverages for its variables.

ghost use Rattle.std.specs.Prelude.{◌≡◌, ◌<◌, [], IfOk, map};
ghost use Rattle.std.specs.List.{list_any};
ghost use Rattle.std.specs.Str.{bytes_eq};
ghost use Rattle.wcps_text.specs.Tree.{binding_view, bindings_of};
ghost use Rattle.wcps_types.specs.declared.bindings.Choice.{Choice};
ghost use Rattle.wcps_types.specs.Shapes.{Says};
ghost use Rattle.wcps_types.specs.Bindings.{placed_view, placed_all_view, choice_view, bindings_view, no_bindings, resolved, resolved_all, is_bound, with_binding, bound_from, combination_count, few_combinations, combination_at};

use crate::bound::Bound;
use crate::names::{coverage_place, is_same};
use crate::refusal::{CheckError, TypeRefusal};
use arr_core::Signature;
use std::alloc::{AllocError, Global};
use wcps_text::{Binding, QueryName};

/// A variable and the places of the coverages that it stands for in turn.
#[derive(Drop)]
pub struct Choice {
    pub variable: QueryName,
    pub coverages: Vec<usize>,
}

/// The `for` list so far: the coverages that it names, each once, and its variables.
#[derive(Drop)]
pub struct Bindings {
    pub coverages: Vec<Signature>,
    pub choices: Vec<Choice>,
}

/// How many combinations a query may have.
pub const MAX_COMBINATIONS: u64 = 64;

/// One more than that, at which counting stops.
const TOO_MANY: u64 = MAX_COMBINATIONS + 1;

/// Coverages, and the place of one of them.
#[derive(Drop)]
pub struct PlacedOne {
    pub coverages: Vec<Signature>,
    pub place: usize,
}

/// The place of a coverage among those named so far; a new one is added to them.
fn resolved(
    alloc: Global,
    signatures: &[Signature],
    coverages: Vec<Signature>,
    name: &QueryName,
) -> Result<PlacedOne, CheckError>
    ensures { Says placed_view result (resolved signatures.now coverages.items name.now) }
{
    if let Some(place) = coverage_place(&coverages, name) {
        return Ok(PlacedOne { coverages, place });
    }
    let Some(named) = coverage_place(signatures, name) else {
        return Err(CheckError::Refused(TypeRefusal::NoSuchCoverage));
    };
    let Some(signature) = signatures.get(named) else {
        return Err(CheckError::Refused(TypeRefusal::NoSuchCoverage));
    };
    let mut coverages = coverages;
    let place = coverages.len();
    coverages.push(signature.copy(alloc)?)?;
    Ok(PlacedOne { coverages, place })
}

/// Coverages, and the places of several.
#[derive(Drop)]
pub struct PlacedMany {
    pub coverages: Vec<Signature>,
    pub places: Vec<usize>,
}

/// The places of several coverages in turn.
fn resolved_all(
    alloc: Global,
    signatures: &[Signature],
    coverages: Vec<Signature>,
    names: &[QueryName],
) -> Result<PlacedMany, CheckError>
    ensures { Says placed_all_view result (resolved_all signatures.now coverages.items [] names.now) }
{
    let mut coverages = coverages;
    let mut places = Vec::new(alloc);
    for name in names {
        let PlacedOne {
            coverages: more,
            place,
        } = resolved(alloc, signatures, coverages, name)?;
        coverages = more;
        places.push(place)?;
    }
    Ok(PlacedMany { coverages, places })
}

/// Whether one of the choices is for that variable.
fn is_choice(choices: &[Choice], name: &QueryName) -> bool
    ensures { result ≡ list_any (λ (c : Choice). bytes_eq c.variable name.now) choices.now }
{
    choices
        .iter()
        .any(|choice| is_same(choice.variable.as_str(), name.as_str()))
}

/// Whether a variable is there already.
fn is_bound(choices: &[Choice], name: &QueryName) -> bool
    ensures { result ≡ is_bound name.now (map choice_view choices.now) }
{
    is_choice(choices, name)
}

/// The list so far and one variable more.
fn with_binding(
    alloc: Global,
    signatures: &[Signature],
    bindings: Bindings,
    binding: &Binding,
) -> Result<Bindings, CheckError>
    ensures { Says bindings_view result (with_binding signatures.now (bindings_view bindings) (binding_view binding.now)) }
{
    let Bindings { coverages, choices } = bindings;
    if is_bound(&choices, &binding.variable) {
        return Err(CheckError::Refused(TypeRefusal::NameTaken));
    }
    let PlacedMany { coverages, places } = resolved_all(
        alloc,
        signatures,
        coverages,
        &binding.coverages,
    )?;
    let variable = QueryName::new(alloc, binding.variable.as_str())?;
    let mut choices = choices;
    choices.push(Choice {
        variable,
        coverages: places,
    })?;
    Ok(Bindings { coverages, choices })
}

/// The whole `for` list: for each variable in turn whether it is taken, then its coverages.
pub fn resolve_bindings(
    alloc: Global,
    signatures: &[Signature],
    list: &[Binding],
) -> Result<Bindings, CheckError>
    ensures { Says bindings_view result (bound_from signatures.now no_bindings (bindings_of list.now)) }
{
    let mut bindings = Bindings {
        coverages: Vec::new(alloc),
        choices: Vec::new(alloc),
    };
    for binding in list {
        bindings = with_binding(alloc, signatures, bindings, binding)?;
    }
    Ok(bindings)
}

/// How many combinations there are, if there are some, as in each query that is spelled, and not too many.
pub fn combination_count(choices: &[Choice]) -> Result<u64, CheckError>
    ensures said { Says (λ n. n) result (few_combinations (map choice_view choices.now)) }
{
    let mut count: u64 = 1;
    for choice in choices {
        let factor = (choice.coverages.len() as u64).min(TOO_MANY);
        count = (count * factor).min(TOO_MANY);
    }
    if count == 0 {
        return Err(CheckError::Refused(TypeRefusal::BadSyntax));
    }
    if count > MAX_COMBINATIONS {
        return Err(CheckError::Refused(TypeRefusal::TooManyCombinations));
    }
    Ok(count)
}

/// The combination of that number, of `count`; the last variable changes fastest.
pub fn combination_at(
    alloc: Global,
    choices: &[Choice],
    count: u64,
    number: u64,
) -> Result<Vec<Bound>, AllocError>
    requires counted { count ≡ combination_count (map choice_view choices.now) }
    requires inside { number < count }
    ensures { IfOk result (λ v. v.items ≡ combination_at (map choice_view choices.now) number) }
{
    let mut bound = Vec::new(alloc);
    let mut rest = count;
    let mut number = number;
    for choice in choices {
        rest /= choice.coverages.len() as u64;
        let variable = QueryName::new(alloc, choice.variable.as_str())?;
        let coverage = choice.coverages[(number / rest) as usize];
        bound.push(Bound { variable, coverage })?;
        number %= rest;
    }
    Ok(bound)
}
