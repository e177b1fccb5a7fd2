//! Requests that change coverages or tell what they are.
ghost use Rattle.std.specs.Prelude.{◌≡◌, IfOk, OnOk, OnErr, IsTrue};
ghost use Rattle.coverage_server.specs.Layouts.{LaysChange, LaysInsertion, LaysRest, layout_of};
ghost use Rattle.coverage_server.specs.Machine.{Deletes, Lists, Describes};
ghost use Rattle.coverage_server.specs.Answered.{Answered, AnswersInsertion, AnswersUpdate, IsAnswer, TellsFailures};
ghost use Rattle.coverage_server.specs.Damage.{KeepsSpelled};
ghost use Rattle.coverage_server.specs.Growing.{GrowsChange};
ghost use Rattle.coverage_server.specs.Leaving.{Continues, KeepsDisk};
ghost use Rattle.coverage_server.specs.Views.{IsUnchanged, KeepsHeld};

use crate::arguments::{copied_fields, domain_of};
use crate::coverages::Coverages;
use crate::describing::description;
use crate::error::AnswerError;
use arr_core::{Name, Refusal, Signature};
use disk_face::Disk;
use http_front::Reply;
use kvp_front::{Insertion, Update};
use std::alloc::Global;

/// Adds a coverage.
pub fn insert<D: Disk>(
    alloc: Global,
    coverages: &mut Coverages<D>,
    insertion: &Insertion,
) -> Result<Reply, AnswerError>
    ensures answered { AnswersInsertion insertion.now coverages.old coverages.new result }
    ensures lays { OnOk result (LaysInsertion insertion.now coverages.old coverages.new) }
    ensures answer { IfOk result IsAnswer }
    ensures unchanged { OnErr result (IsUnchanged coverages.old coverages.new) }
    ensures keeps { KeepsDisk coverages.old coverages.new }
{
    if coverages.signature(&insertion.coverage).is_some() {
        return Err(AnswerError::Named(Refusal::CoverageExists));
    }
    let domain = domain_of(alloc, &insertion.intervals, Refusal::BadDomain)?;
    let fields = copied_fields(alloc, &insertion.fields)?;
    let name = insertion.coverage.copy(alloc)?;
    let reply = String::from_str(alloc, "ok\n")?;
    let signature = Signature {
        name,
        domain,
        fields,
    };
    coverages.insert(alloc, &signature)?;
    Ok(Reply::Text(reply))
}

/// Writes new cells into a box of a field. What is held for jobs stays as it is.
pub fn update<D: Disk>(
    alloc: Global,
    coverages: &mut Coverages<D>,
    update: &Update,
) -> Result<Reply, AnswerError>
    ensures answered { AnswersUpdate update.now coverages.old coverages.new result }
    ensures lays { OnOk result (IsTrue coverages.old.honest → LaysChange update.now coverages.old coverages.new) }
    ensures answer { IfOk result IsAnswer }
    ensures unchanged { OnErr result (IsUnchanged coverages.old coverages.new) }
    ensures told { TellsFailures result coverages.old coverages.new }
    ensures continues { Continues coverages.old coverages.new }
    ensures spelled { IsTrue coverages.old.honest → KeepsSpelled coverages.old coverages.new }
    ensures held { KeepsHeld coverages.old coverages.new }
    ensures grows { GrowsChange update.now coverages.old coverages.new }
    ensures fetched { coverages.new.fetched ≡ coverages.old.fetched }
{
    let Some(signature) = coverages.signature(&update.coverage) else {
        return Err(AnswerError::Named(Refusal::NoSuchCoverage));
    };
    let Some(field) = signature.fields.place_of(update.field.as_str()) else {
        return Err(AnswerError::Named(Refusal::NoSuchField));
    };
    let area = domain_of(alloc, &update.intervals, Refusal::OutsideDomain)?;
    let reply = String::from_str(alloc, "ok\n")?;
    coverages.write(&update.coverage, field, &area, &update.content)?;
    Ok(Reply::Text(reply))
}

/// Takes a coverage out. What is held for jobs stays as it is.
pub fn delete<D: Disk>(
    alloc: Global,
    coverages: &mut Coverages<D>,
    name: &Name,
) -> Result<Reply, AnswerError>
    ensures answered { Answered (Deletes name.now) ⊥ ⊥ coverages.old coverages.new result }
    ensures lays { OnOk result
        (LaysRest name.now coverages.old.store (layout_of coverages.old) (layout_of coverages.new)) }
    ensures answer { IfOk result IsAnswer }
    ensures unchanged { OnErr result (IsUnchanged coverages.old coverages.new) }
    ensures keeps { KeepsDisk coverages.old coverages.new }
{
    let Some(_) = coverages.signature(name) else {
        return Err(AnswerError::Named(Refusal::NoSuchCoverage));
    };
    let reply = String::from_str(alloc, "ok\n")?;
    coverages.remove(name);
    Ok(Reply::Text(reply))
}

/// The axes and the fields of a coverage, each on a line.
pub fn describe<D: Disk>(
    alloc: Global,
    coverages: &Coverages<D>,
    name: &Name,
) -> Result<Reply, AnswerError>
    ensures answered { Answered (Describes name.now) ⊥ ⊥ coverages.now coverages.now result }
    ensures answer { IfOk result IsAnswer }
{
    let Some(signature) = coverages.signature(name) else {
        return Err(AnswerError::Named(Refusal::NoSuchCoverage));
    };
    let text = description(alloc, signature)?;
    Ok(Reply::Text(text))
}

/// The names of the coverages, each on a line.
pub fn list<D: Disk>(alloc: Global, coverages: &Coverages<D>) -> Result<Reply, AnswerError>
    ensures answered { Answered Lists ⊥ ⊥ coverages.now coverages.now result }
    ensures answer { IfOk result IsAnswer }
{
    let mut text = String::new(alloc);
    for place in 0..coverages.len() {
        text.push_str(coverages.at(place).name.as_str())?;
        text.push_str("\n")?;
    }
    Ok(Reply::Text(text))
}
