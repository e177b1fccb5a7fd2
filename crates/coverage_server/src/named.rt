//! The signatures of the coverages that a query or a template names: what is asked of these alone is what is asked of
//! all, of which no copy is made.

ghost use Rattle.std.specs.Prelude.{◌≡◌, All, IfOk, OnOk};
ghost use Rattle.std.specs.List.{list_any};
ghost use Rattle.std.specs.Str.{bytes_eq};
ghost use Rattle.arr_core.specs.declared.signature.Signature.{Signature};
ghost use Rattle.wcps_text.specs.Tree.{query_view};
ghost use Rattle.coverage_server.specs.Named.{AreAmong, IsAskedAlike, IsFoundIn, IsTypedAlike, StayFound};
ghost use Rattle.coverage_server.specs.Views.{signatures_of};

use crate::coverages::Coverages;
use arr_core::Signature;
use disk_face::Disk;
use map_templates::Params;
use std::alloc::{AllocError, Global};
use wcps_text::{Query, QueryName};

/// Whether a text is the name of one of some coverages.
fn is_named(signatures: &[Signature], text: &str) -> bool
    ensures { result ≡ list_any (λ (s : Signature). bytes_eq s.name text.now) signatures.now }
{
    signatures
        .iter()
        .any(|signature| signature.name.as_str() == text)
}

/// Puts the signature of the coverage whose name a text is behind others, if it is none of them.
fn push_named<D: Disk>(
    alloc: Global,
    coverages: &Coverages<D>,
    text: &str,
    signatures: &mut Vec<Signature>,
) -> Result<(), AllocError>
    requires among { AreAmong (signatures_of coverages.now.store) signatures.old.items }
    ensures among { OnOk result (AreAmong (signatures_of coverages.now.store) signatures.new.items) }
    ensures found { OnOk result (IsFoundIn (signatures_of coverages.now.store) signatures.new.items text.now) }
    ensures stay { OnOk result
        (StayFound (signatures_of coverages.now.store) signatures.old.items signatures.new.items) }
{
    if is_named(signatures, text) {
        return Ok(());
    }
    let Some(signature) = coverages.find(text) else {
        return Ok(());
    };
    signatures.push(signature.copy(alloc)?)?;
    Ok(())
}

/// Puts the signatures of the coverages with these names behind others, those that are none of them.
fn push_names<D: Disk>(
    alloc: Global,
    coverages: &Coverages<D>,
    names: &[QueryName],
    signatures: &mut Vec<Signature>,
) -> Result<(), AllocError>
    requires among { AreAmong (signatures_of coverages.now.store) signatures.old.items }
    ensures among { OnOk result (AreAmong (signatures_of coverages.now.store) signatures.new.items) }
    ensures found { OnOk result
        (All (IsFoundIn (signatures_of coverages.now.store) signatures.new.items) names.now) }
    ensures stay { OnOk result
        (StayFound (signatures_of coverages.now.store) signatures.old.items signatures.new.items) }
{
    for name in names {
        push_named(alloc, coverages, name.as_str(), signatures)?;
    }
    Ok(())
}

/// The signatures of the coverages that a query names, each once.
pub fn signatures_for<D: Disk>(
    alloc: Global,
    coverages: &Coverages<D>,
    query: &Query,
) -> Result<Vec<Signature>, AllocError>
    ensures { IfOk result (λ list. IsTypedAlike (signatures_of coverages.now.store) list.items (query_view query.now)) }
{
    let mut signatures = Vec::new(alloc);
    for binding in &query.bindings {
        push_names(alloc, coverages, &binding.coverages, &mut signatures)?;
    }
    Ok(signatures)
}

/// The signatures of the coverages that the layers of a template name, each once.
pub fn signatures_of_layers<D: Disk>(
    alloc: Global,
    coverages: &Coverages<D>,
    params: &Params,
) -> Result<Vec<Signature>, AllocError>
    ensures { IfOk result (λ list. IsAskedAlike (signatures_of coverages.now.store) list.items params.now) }
{
    let mut signatures = Vec::new(alloc);
    push_named(
        alloc,
        coverages,
        params.layer.coverage.as_str(),
        &mut signatures,
    )?;
    let Some(second) = &params.second else {
        return Ok(signatures);
    };
    push_named(alloc, coverages, second.coverage.as_str(), &mut signatures)?;
    Ok(signatures)
}
