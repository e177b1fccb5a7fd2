//! The requests of templates: their layers and their optional keys.
ghost use Rattle.std.specs.Prelude.{codes, map};
ghost use Rattle.kvp_front.specs.Values.{Gives, pair_view, read_under};
ghost use Rattle.kvp_front.specs.Spelling.{same, signed_in};
ghost use Rattle.kvp_front.specs.Templates.{layer_in, optional_under, template_of, template_view};

use crate::pairs::{Found, Pair, find, text_of, value_under};
use crate::request::{RequestError, RequestedLayer, TemplateRequest};
use crate::spelling::{read_name, read_signed};
use std::alloc::Global;

/// A layer: a coverage, as `lai`, or a field of it, as `lai.v`.
fn read_layer(alloc: Global, text: &str) -> Result<RequestedLayer, RequestError>
    ensures { Gives same (layer_in text.now) result }
{
    match text.split_once('.') {
        Some((coverage, field)) => {
            let coverage = read_name(alloc, coverage)?;
            let field = read_name(alloc, field)?;
            Ok(RequestedLayer {
                coverage,
                field: Some(field),
            })
        }
        None => {
            let coverage = read_name(alloc, text)?;
            Ok(RequestedLayer {
                coverage,
                field: None,
            })
        }
    }
}

/// The layer under a key.
fn layer_under(alloc: Global, pairs: &[Pair<'_>], key: &str) -> Result<RequestedLayer, RequestError>
    ensures { Gives same (read_under layer_in key.now (map pair_view pairs.now)) result }
{
    let text = value_under(alloc, pairs, key)?;
    read_layer(alloc, text.as_str())
}

/// The second layer, where it is given.
fn second_under(alloc: Global, pairs: &[Pair<'_>]) -> Result<Option<RequestedLayer>, RequestError>
    ensures { Gives same (optional_under layer_in (codes "second") (map pair_view pairs.now)) result }
{
    match find(pairs, "second") {
        Found::Twice => Err(RequestError::RepeatedKey),
        Found::Absent => Ok(None),
        Found::Once(value) => {
            let text = text_of(alloc, value)?;
            let layer = read_layer(alloc, text.as_str())?;
            Ok(Some(layer))
        }
    }
}

/// The radius, where it is given.
fn radius_under(alloc: Global, pairs: &[Pair<'_>]) -> Result<Option<i64>, RequestError>
    ensures { Gives same (optional_under signed_in (codes "radius") (map pair_view pairs.now)) result }
{
    match find(pairs, "radius") {
        Found::Twice => Err(RequestError::RepeatedKey),
        Found::Absent => Ok(None),
        Found::Once(value) => {
            let text = text_of(alloc, value)?;
            let radius = read_signed(text.as_str())?;
            Ok(Some(radius))
        }
    }
}

/// A template and its parameters. The name of the template is any text; an unknown one is refused where it is expanded.
pub fn template_under(alloc: Global, pairs: &[Pair<'_>]) -> Result<TemplateRequest, RequestError>
    ensures { Gives template_view (template_of (map pair_view pairs.now)) result }
{
    let template = value_under(alloc, pairs, "template")?;
    let layer = layer_under(alloc, pairs, "layer")?;
    let second = second_under(alloc, pairs)?;
    let radius = radius_under(alloc, pairs)?;
    Ok(TemplateRequest {
        template,
        layer,
        second,
        radius,
    })
}
