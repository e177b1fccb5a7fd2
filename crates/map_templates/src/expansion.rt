//! Expanding a template.

ghost use Rattle.std.specs.Prelude.{◌≡◌, string_bytes};
ghost use Rattle.map_templates.specs.Laws.{AsksTomlins};
ghost use Rattle.map_templates.specs.Queries.{AsksQuery};
ghost use Rattle.arr_core.specs.declared.signature.Signature.{Signature};
ghost use Rattle.std.specs.Borrow.{Bor};
ghost use Rattle.map_templates.specs.Refusals.{Says};
ghost use Rattle.map_templates.specs.Expansion.{asked, as_text, operation_of, local_operation, focal_operation, zonal_operation, coverage_of, field_of, radius_of};
ghost use Rattle.wcps_types.specs.Names.{coverage_place};
ghost use Rattle.wcps_types.specs.Operators.{are_same};

use crate::focal::focal_text;
use crate::local::local_text;
use crate::params::{Layer, Params};
use crate::refusal::{ExpandError, ExpandRefusal};
use crate::template::{LocalOperation, Summary, Template, template_named};
use crate::zonal::zonal_text;
use arr_core::{Domain, Signature};
use std::alloc::Global;

/// The greatest radius of a focal operation.
const MAX_RADIUS: i64 = 8;

/// The query of a template, as a text of one line.
///
/// `NoSuchTemplate` where no template has that name; else `NoSuchCoverage` where a layer that the template uses is none
/// of the coverages, the layer before the second; else `BadParameter`: a layer names a field that its coverage lacks,
/// or names none and the coverage has other than one; there is no second layer for a local or a zonal operation; the
/// radius of a focal one is absent or not 1 to 8, or its coverage has other than two axes; the layers of a zonal one
/// have unlike domains.
pub fn expand(
    alloc: Global,
    template: &str,
    params: &Params,
    signatures: &[Signature],
) -> Result<String, ExpandError>
    ensures text { Says string_bytes result (as_text (asked template.now params.now signatures.now)) }
    ensures queries { AsksQuery signatures.now (asked template.now params.now signatures.now) result }
    ensures means { AsksTomlins (asked template.now params.now signatures.now) result }
{
    expand_template(alloc, template_named(template), params, signatures)
}

fn expand_template(
    alloc: Global,
    template: Option<Template>,
    params: &Params,
    signatures: &[Signature],
) -> Result<String, ExpandError>
    ensures { Says string_bytes result (as_text (operation_of template params.now signatures.now)) }
{
    match template {
        None => Err(ExpandError::Refused(ExpandRefusal::NoSuchTemplate)),
        Some(Template::Local(operation)) => expand_local(alloc, operation, params, signatures),
        Some(Template::Focal(summary)) => expand_focal(alloc, summary, params, signatures),
        Some(Template::Zonal(summary)) => expand_zonal(alloc, summary, params, signatures),
    }
}

fn expand_local(
    alloc: Global,
    operation: LocalOperation,
    params: &Params,
    signatures: &[Signature],
) -> Result<String, ExpandError>
    ensures { Says string_bytes result (as_text (local_operation operation params.now signatures.now)) }
{
    let first = coverage_of(signatures, &params.layer)?;
    let Some(second) = &params.second else {
        return Err(ExpandError::Refused(ExpandRefusal::BadParameter));
    };
    let other = coverage_of(signatures, second)?;
    let _first_field = field_of(&params.layer, first)?;
    let _other_field = field_of(second, other)?;
    Ok(local_text(alloc, operation, &params.layer, second)?)
}

fn expand_focal(
    alloc: Global,
    summary: Summary,
    params: &Params,
    signatures: &[Signature],
) -> Result<String, ExpandError>
    ensures { Says string_bytes result (as_text (focal_operation summary params.now signatures.now)) }
{
    let coverage = coverage_of(signatures, &params.layer)?;
    let _field = field_of(&params.layer, coverage)?;
    let radius = radius_of(params.radius)?;
    match coverage.domain.axes() {
        [x, y] => Ok(focal_text(alloc, summary, &params.layer, x, y, radius)?),
        _ => Err(ExpandError::Refused(ExpandRefusal::BadParameter)),
    }
}

fn expand_zonal(
    alloc: Global,
    summary: Summary,
    params: &Params,
    signatures: &[Signature],
) -> Result<String, ExpandError>
    ensures { Says string_bytes result (as_text (zonal_operation summary params.now signatures.now)) }
{
    let coverage = coverage_of(signatures, &params.layer)?;
    let Some(zones) = &params.second else {
        return Err(ExpandError::Refused(ExpandRefusal::BadParameter));
    };
    let zoned = coverage_of(signatures, zones)?;
    let _field = field_of(&params.layer, coverage)?;
    let _zones_field = field_of(zones, zoned)?;
    if !are_same(&coverage.domain, &zoned.domain) {
        return Err(ExpandError::Refused(ExpandRefusal::BadParameter));
    }
    Ok(zonal_text(alloc, summary, &params.layer, zones, coverage.domain.axes())?)
}

/// Whether two domains have the same axes.
fn are_same(domain: &Domain, other: &Domain) -> bool
    ensures { result ≡ are_same domain.now other.now }
{
    domain.is_same(other)
}

/// The coverage of a layer.
fn coverage_of<'a>(signatures: &'a [Signature], layer: &Layer) -> Result<&'a Signature, ExpandError>
    ensures { Says (λ (s : Bor Signature). s.now) result (coverage_of layer.now signatures.now) }
{
    match place_of(signatures, layer) {
        None => Err(ExpandError::Refused(ExpandRefusal::NoSuchCoverage)),
        Some(place) => match signatures.get(place) {
            None => Err(ExpandError::Refused(ExpandRefusal::NoSuchCoverage)),
            Some(signature) => Ok(signature),
        },
    }
}

/// The place of the coverage of a layer.
fn place_of(signatures: &[Signature], layer: &Layer) -> Option<usize>
    ensures { result ≡ coverage_place layer.now.coverage signatures.now }
{
    signatures.iter().position(|signature| signature.name.as_str() == layer.coverage.as_str())
}

/// The place of the field that a layer takes of its coverage.
fn field_of(layer: &Layer, signature: &Signature) -> Result<usize, ExpandError>
    ensures { Says (λ k. k) result (field_of layer.now signature.now) }
{
    match &layer.field {
        Some(field) => match signature.fields.place_of(field.as_str()) {
            Some(place) => Ok(place),
            None => Err(ExpandError::Refused(ExpandRefusal::BadParameter)),
        },
        None => {
            if signature.fields.len() == 1 {
                return Ok(0);
            }
            Err(ExpandError::Refused(ExpandRefusal::BadParameter))
        }
    }
}

/// The radius of a focal operation, 1 to `MAX_RADIUS`.
fn radius_of(radius: Option<i64>) -> Result<u64, ExpandError>
    ensures { Says (λ r. r) result (radius_of radius) }
{
    match radius {
        Some(radius) => {
            if 1 <= radius && radius <= MAX_RADIUS {
                return Ok(radius.unsigned_abs());
            }
            Err(ExpandError::Refused(ExpandRefusal::BadParameter))
        }
        None => Err(ExpandError::Refused(ExpandRefusal::BadParameter)),
    }
}
