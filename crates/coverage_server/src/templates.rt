//! Templates of map algebra over the coverages: the text of a template's query, and the answer to it.
ghost use Rattle.std.specs.Prelude.{◌≡◌, None, IfOk};
ghost use Rattle.kvp_front.specs.Templates.{template_view};
ghost use Rattle.map_templates.specs.Expansion.{asked, as_text};
ghost use Rattle.raster_store.specs.Snapshots.{held_for};
ghost use Rattle.coverage_server.specs.Answered.{Answered, AnswersAsked, IsAnswer, TellsFailures};
ghost use Rattle.coverage_server.specs.Fetching.{FetchesForTemplate};
ghost use Rattle.coverage_server.specs.Machine.{Expands};
ghost use Rattle.coverage_server.specs.Templates.{GivesExpansion, expansion, layer_of, params_of};
ghost use Rattle.coverage_server.specs.Views.{still_of};

use crate::cells::AskedCells;
use crate::coverages::Coverages;
use crate::error::AnswerError;
use crate::named::signatures_of_layers;
use crate::query::process;
use arr_core::Signature;
use disk_face::Disk;
use http_front::Reply;
use kvp_front::{RequestedLayer, TemplateRequest};
use map_templates::{ExpandError, Layer, Params, expand};
use std::alloc::{AllocError, Global};
use tile_exec::Workspace;

/// The layer that a request spells.
fn layer_of(alloc: Global, requested: &RequestedLayer) -> Result<Layer, AllocError>
    ensures { IfOk result (λ layer. layer ≡ layer_of requested.now) }
{
    let coverage = requested.coverage.copy(alloc)?;
    match &requested.field {
        Some(name) => {
            let field = name.copy(alloc)?;
            Ok(Layer {
                coverage,
                field: Some(field),
            })
        }
        None => Ok(Layer {
            coverage,
            field: None,
        }),
    }
}

/// The parameters that a request spells.
fn params_of(alloc: Global, request: &TemplateRequest) -> Result<Params, AllocError>
    ensures { IfOk result (λ params. params ≡ params_of (template_view request.now)) }
{
    let layer = layer_of(alloc, &request.layer)?;
    let radius = request.radius;
    match &request.second {
        Some(requested) => {
            let second = layer_of(alloc, requested)?;
            Ok(Params {
                layer,
                second: Some(second),
                radius,
            })
        }
        None => Ok(Params {
            layer,
            second: None,
            radius,
        }),
    }
}

/// The text of a template's query over coverages with those signatures, or the refusal of the template.
fn expanded(
    alloc: Global,
    request: &TemplateRequest,
    params: &Params,
    signatures: &[Signature],
) -> Result<String, AnswerError>
    ensures { GivesExpansion (as_text (asked (template_view request.now).name params.now signatures.now)) result }
{
    match expand(alloc, request.template.as_str(), params, signatures) {
        Ok(text) => Ok(text),
        Err(ExpandError::Refused(error)) => Err(AnswerError::Named(error.refusal())),
        Err(ExpandError::NoMemory) => Err(AnswerError::NoMemory),
    }
}

/// The text of a template's query over the coverages, or the refusal of the template.
fn expansion<D: Disk>(
    alloc: Global,
    coverages: &Coverages<D>,
    request: &TemplateRequest,
) -> Result<String, AnswerError>
    ensures { GivesExpansion (expansion (template_view request.now) coverages.now.store) result }
{
    let params = params_of(alloc, request)?;
    let signatures = signatures_of_layers(alloc, coverages, &params)?;
    expanded(alloc, request, &params, &signatures)
}

/// The text of a template's query, on a line.
pub fn expand_template<D: Disk>(
    alloc: Global,
    coverages: &Coverages<D>,
    request: &TemplateRequest,
) -> Result<Reply, AnswerError>
    ensures answered { Answered (Expands (template_view request.now)) ⊥ ⊥ coverages.now coverages.now result }
    ensures answer { IfOk result IsAnswer }
{
    let mut text = expansion(alloc, coverages, request)?;
    text.push_str("\n")?;
    Ok(Reply::Text(text))
}

/// The answer to a template's query, as comma-separated values. By `templates_are_tomlins` it is the array of Tomlin's
/// operation, or Overflow where a value of that leaves 64 bits, wherever the types of the query are accepted.
pub fn process_template<D: Disk>(
    cells: &mut AskedCells<D>,
    workspace: &mut Workspace,
    request: &TemplateRequest,
) -> Result<Reply, AnswerError>
    requires unheld { held_for 0 cells.old.coverages.held ≡ None }
    ensures answered { AnswersAsked (template_view request.now) cells.old.coverages cells.new.coverages result }
    ensures answer { IfOk result IsAnswer }
    ensures still { still_of cells.new.coverages ≡ still_of cells.old.coverages }
    ensures told { TellsFailures result cells.old.coverages cells.new.coverages }
    ensures fetched { FetchesForTemplate (template_view request.now) cells.old.coverages cells.new.coverages result }
{
    let text = expansion(cells.alloc, &cells.coverages, request)?;
    process(cells, workspace, text.as_str())
}
